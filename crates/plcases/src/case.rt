//! A case as it is read.
use crate::journal::added;
use crate::runs::{Fault, reported};
use crate::tally::{Came, Tally};
use plcommand::command::Report;
use std::alloc::{AllocError, Global};
use std::sync::Wait;
use std::thread::Threads;

/// What a case says.
#[derive(Clone, Copy)]
pub enum Asked {
    /// The number that the process ends with, and the output.
    Report(u8),
    /// What a run adds to the journal.
    Journal,
}

/// A case, as far as it was read.
#[derive(Drop)]
pub struct Case {
    alloc: Global,
    /// The line in which it begins.
    line: u64,
    /// The words of the command line, and the program's text.
    words: Vec<String>,
    text: Vec<u8>,
    /// Whether the text has a line yet, if only an empty one.
    has_text: bool,
    /// The programs that each of the goals behind them is put into.
    programs: Vec<String>,
    /// The goal that was read last, until it is run.
    goal: Option<String>,
    asked: Asked,
    /// The output, or what is added to the journal.
    wanted: Vec<u8>,
}

impl Case {
    /// A case that begins in a line, of which nothing was read.
    pub fn new(alloc: Global, line: u64) -> Case {
        Case {
            alloc,
            line,
            words: Vec::new(alloc),
            text: Vec::new(alloc),
            has_text: false,
            programs: Vec::new(alloc),
            goal: None,
            asked: Asked::Journal,
            wanted: Vec::new(alloc),
        }
    }

    /// Adds the words of a line.
    pub fn add_words(&mut self, words: &str) -> Result<(), AllocError> {
        for word in words.split_whitespace() {
            self.add_word(word)?;
        }
        Ok(())
    }

    /// Adds a word.
    fn add_word(&mut self, word: &str) -> Result<(), AllocError> {
        self.words.push(word.to_string(self.alloc)?)?;
        Ok(())
    }

    /// Adds an option with its value, which is the rest of the line.
    pub fn add_option(&mut self, option: &str) -> Result<(), AllocError> {
        match option.split_once(' ') {
            Some((name, value)) => {
                self.add_word(name)?;
                self.add_word(value)
            }
            None => self.add_word(option),
        }
    }

    /// Whether the text has a line yet.
    pub fn has_text(&self) -> bool {
        self.has_text
    }

    /// Adds a line to the text.
    pub fn add_text(&mut self, line: &[u8]) -> Result<(), AllocError> {
        if self.has_text {
            self.text.push(b'\n')?;
        }
        self.has_text = true;
        self.text.extend_from_slice(line)
    }

    /// Says what is wanted.
    pub fn ask(&mut self, asked: Asked) {
        self.asked = asked;
    }

    /// Adds a line to what is wanted.
    pub fn add_wanted(&mut self, line: &[u8]) -> Result<(), AllocError> {
        self.wanted.extend_from_slice(line)?;
        self.wanted.push(b'\n')?;
        Ok(())
    }

    /// Ends a program of which goals follow.
    pub fn end_program(&mut self) -> Result<(), Fault> {
        let Ok(text) = std::str::from_utf8(self.text.as_slice()) else {
            return Err(Fault::Misplaced);
        };
        let program = text.to_string(self.alloc)?;
        self.add_program(program)?;
        Ok(())
    }

    /// Adds a program, behind which another text begins.
    fn add_program(&mut self, program: String) -> Result<(), AllocError> {
        self.programs.push(program)?;
        self.text.clear();
        self.has_text = false;
        Ok(())
    }

    /// Begins a goal in a line, and what it writes.
    pub fn begin_goal(&mut self, line: u64, goal: &str) -> Result<(), AllocError> {
        self.line = line;
        self.asked = Asked::Report(0);
        self.wanted.clear();
        self.add_wanted(b"% thread 1 main: true")?;
        match goal.split_once(" => ") {
            Some((goal, written)) => {
                self.goal = Some(goal.to_string(self.alloc)?);
                self.add_wanted(written.as_bytes())
            }
            None => {
                self.goal = Some(goal.to_string(self.alloc)?);
                Ok(())
            }
        }
    }

    /// Runs the goal that was read last, if there is one, in each of the programs.
    pub fn check_goal<R: Threads + Wait + Sync>(
        &mut self,
        rt: &R,
        tally: &mut Tally,
    ) -> Result<(), Fault> {
        if let Some(goal) = self.goal.take() {
            for program in &self.programs {
                let (words, text) = self.with_goal(program.as_str(), goal.as_str())?;
                self.check_text(rt, &words, text.as_bytes(), tally)?;
            }
        }
        Ok(())
    }

    /// The words and the text of a program with a goal.
    fn with_goal(&self, program: &str, goal: &str) -> Result<(Vec<String>, String), AllocError> {
        match program.split_once("GOAL") {
            Some((before, behind)) => {
                let text = format!(in self.alloc; "{before}{goal}{behind}")?;
                Ok((self.command_line(None)?, text))
            }
            None => Ok((
                self.command_line(Some(goal))?,
                program.to_string(self.alloc)?,
            )),
        }
    }

    /// All words of the command line, with a goal if there is one.
    fn command_line(&self, goal: Option<&str>) -> Result<Vec<String>, AllocError> {
        let mut words = Vec::new(self.alloc);
        let is_whole = self.is_whole();
        if !is_whole {
            words.push("prolog".to_string(self.alloc)?)?;
        }
        for word in &self.words {
            words.push(word.clone()?)?;
        }
        if let Some(goal) = goal {
            words.push("--goal".to_string(self.alloc)?)?;
            words.push(goal.to_string(self.alloc)?)?;
        }
        if !is_whole {
            words.push("P".to_string(self.alloc)?)?;
        }
        Ok(words)
    }

    /// Whether the words are all of a command line.
    fn is_whole(&self) -> bool {
        match self.words.first() {
            Some(word) => word.as_str() == "prolog",
            None => false,
        }
    }

    /// Runs the text.
    pub fn check<R: Threads + Wait + Sync>(&self, rt: &R, tally: &mut Tally) -> Result<(), Fault> {
        let words = self.command_line(None)?;
        self.check_text(rt, &words, self.text.as_slice(), tally)
    }

    /// Runs a text.
    fn check_text<R: Threads + Wait + Sync>(
        &self,
        rt: &R,
        words: &[String],
        text: &[u8],
        tally: &mut Tally,
    ) -> Result<(), Fault> {
        let (output, report) = reported(rt, self.alloc, words, text)?;
        let came = self.came(output, &report)?;
        let wanted = self.wanted()?;
        Ok(tally.add(self.line, &wanted, &came)?)
    }

    /// What is wanted.
    fn wanted(&self) -> Result<Came, AllocError> {
        let text = self.wanted.clone()?;
        match self.asked {
            Asked::Report(status) => Ok(Came::Report {
                output: text,
                status,
            }),
            Asked::Journal => Ok(Came::Journal(text)),
        }
    }

    /// What a run came to, as it is asked for.
    fn came(&self, output: Vec<u8>, report: &Report) -> Result<Came, Fault> {
        match self.asked {
            Asked::Report(_) => Ok(Came::Report {
                output,
                status: report.status.number(),
            }),
            Asked::Journal => match &report.history {
                Some(history) => Ok(Came::Journal(added(self.alloc, history)?)),
                None => Ok(Came::Journal(output)),
            },
        }
    }
}
