//! Files of cases, line by line.
use crate::case::{Asked, Case};
use crate::memory::check_memory;
use crate::runs::{Fault, file};
use crate::tally::Tally;
use std::alloc::Global;
use std::rt::Files;
use std::sync::Wait;
use std::thread::Threads;

/// Where a line stands.
#[derive(Clone, Copy, PartialEq, Eq)]
enum Place {
    /// Between two cases.
    Outside,
    /// Behind the words: options, and the text.
    Text,
    /// The text of a program of which goals follow.
    Program,
    /// Behind what a case asks.
    Wanted,
    /// Among goals.
    Goals,
}

/// The case at hand, and where the next line stands in it.
#[derive(Drop)]
struct Reader {
    alloc: Global,
    place: Place,
    case: Case,
}

/// What stands behind the mark of a line of the file's own.
fn marked(line: &[u8]) -> Option<&str> {
    let rest = line.strip_prefix(b"%% ")?;
    std::str::from_utf8(rest).ok()
}

impl Reader {
    /// Takes a line.
    fn take<R: Files + Threads + Wait + Sync>(
        &mut self,
        rt: &R,
        tally: &mut Tally,
        line: &[u8],
    ) -> Result<(), Fault> {
        match (self.place, marked(line)) {
            (Place::Outside, Some(mark)) => self.outside_mark(rt, tally, mark),
            (Place::Outside, None) => outside(line),
            (Place::Text | Place::Program, Some(mark)) => self.text_mark(mark),
            (Place::Text | Place::Program, None) => Ok(self.case.add_text(line)?),
            (Place::Wanted, Some("end")) => self.end(rt, tally),
            (Place::Wanted, None) => Ok(self.case.add_wanted(line)?),
            (Place::Goals, Some("end")) => self.end_goals(rt, tally),
            (Place::Goals, None) => self.goal(rt, tally, line),
            _ => Err(Fault::Misplaced),
        }
    }

    /// Takes a mark between cases: on memory, or the words of a case.
    fn outside_mark<R: Files>(
        &mut self,
        rt: &R,
        tally: &mut Tally,
        mark: &str,
    ) -> Result<(), Fault> {
        match mark.strip_prefix("memory") {
            Some(most) => check_memory(rt, self.alloc, tally, most.trim()),
            None => self.begin(tally, mark),
        }
    }

    /// Begins a case.
    fn begin(&mut self, tally: &Tally, words: &str) -> Result<(), Fault> {
        self.case = Case::new(self.alloc, tally.line());
        if words == "goals" {
            self.place = Place::Program;
            self.case.add_words("run")?;
        } else {
            self.place = Place::Text;
            self.case.add_words(words)?;
        }
        Ok(())
    }

    /// Takes a mark behind the words of a case.
    fn text_mark(&mut self, mark: &str) -> Result<(), Fault> {
        if mark.starts_with("--") && !self.case.has_text() {
            return Ok(self.case.add_option(mark)?);
        }
        match (self.place, mark) {
            (Place::Program, "and") => self.case.end_program(),
            (Place::Program, "are") => {
                self.place = Place::Goals;
                self.case.end_program()
            }
            (Place::Text, "journal") => {
                self.ask(Asked::Journal);
                Ok(())
            }
            (Place::Text, _) => self.status(mark),
            _ => Err(Fault::Misplaced),
        }
    }

    /// Takes the mark of a status.
    fn status(&mut self, mark: &str) -> Result<(), Fault> {
        let Some(number) = mark.strip_prefix("status ") else {
            return Err(Fault::Misplaced);
        };
        match number.parse::<u8>() {
            Ok(number) => {
                self.ask(Asked::Report(number));
                Ok(())
            }
            Err(_) => Err(Fault::Misplaced),
        }
    }

    /// Goes on behind what is asked.
    fn ask(&mut self, asked: Asked) {
        self.place = Place::Wanted;
        self.case.ask(asked);
    }

    /// Runs a case at its end.
    fn end<R: Threads + Wait + Sync>(&mut self, rt: &R, tally: &mut Tally) -> Result<(), Fault> {
        self.place = Place::Outside;
        self.case.check(rt, tally)
    }

    /// Runs the last of some goals.
    fn end_goals<R: Threads + Wait + Sync>(
        &mut self,
        rt: &R,
        tally: &mut Tally,
    ) -> Result<(), Fault> {
        self.place = Place::Outside;
        self.case.check_goal(rt, tally)
    }

    /// Takes a line among goals: a further line of what one writes, a comment, or the next goal.
    fn goal<R: Threads + Wait + Sync>(
        &mut self,
        rt: &R,
        tally: &mut Tally,
        line: &[u8],
    ) -> Result<(), Fault> {
        if let Some(written) = line.strip_prefix(b"=> ") {
            return Ok(self.case.add_wanted(written)?);
        }
        if outside(line).is_ok() {
            return Ok(());
        }
        self.case.check_goal(rt, tally)?;
        let Ok(goal) = std::str::from_utf8(line) else {
            return Err(Fault::Misplaced);
        };
        Ok(self.case.begin_goal(tally.line(), goal)?)
    }
}

/// Passes over a line between cases, which is empty or a comment.
fn outside(line: &[u8]) -> Result<(), Fault> {
    match line.first() {
        None | Some(b'%') => Ok(()),
        Some(_) => Err(Fault::Misplaced),
    }
}

/// Takes the lines of a file.
fn take_lines<R: Files + Threads + Wait + Sync>(
    rt: &R,
    reader: &mut Reader,
    bytes: &[u8],
    tally: &mut Tally,
) -> Result<(), Fault> {
    for line in bytes.split(|b| *b == b'\n') {
        tally.next_line();
        reader.take(rt, tally, line)?;
    }
    match reader.place {
        Place::Outside => Ok(()),
        _ => Err(Fault::Unended),
    }
}

/// Checks the cases of a file.
pub fn check_cases<R: Files + Threads + Wait + Sync>(
    rt: &R,
    alloc: Global,
    path: &str,
    tally: &mut Tally,
) -> Result<(), Fault> {
    tally.begin(path)?;
    let bytes = file(rt, alloc, path)?;
    let mut reader = Reader {
        alloc,
        place: Place::Outside,
        case: Case::new(alloc, 0),
    };
    take_lines(rt, &mut reader, &bytes, tally)
}
