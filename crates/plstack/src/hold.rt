//! What open cases hold.
ghost use Rattle.std.specs.Prelude.{◌≡◌, reverse, IfSome};
ghost use Rattle.plstack.specs.Places.{kept};
ghost use Rattle.plstack.specs.Holding.{held, no_marks, IsNewest};

use crate::frame::{Frame, Marks, Point, Resume};
use plcells::cell::Mark as HeapMark;
use plenv::slot::Mark;

/// How many of the newest frames are looked at.
const LOOKED_AT: usize = 8;

/// What a case holds: what there was when it was opened, and so many values behind it.
#[derive(Clone, Copy)]
pub struct Held {
    pub marks: Marks,
    pub kept: u32,
}

/// The marks of nothing.
#[inline(always)]
fn no_marks() -> Marks
    ensures { result ≡ no_marks }
{
    let heap = HeapMark {
        cells: 0,
        trail: 0,
        numbers: 0,
        wide: 0,
    };
    let env = Mark {
        heap,
        slots: 0,
        noted: 0,
        count: 0,
    };
    Marks {
        env,
        links: 0,
        saved: 0,
    }
}

/// How many values a case keeps.
#[inline(always)]
fn kept_by(resume: &Resume) -> u32
    ensures { result ≡ kept resume.now }
{
    match resume {
        Resume::Clauses(clauses) => clauses.count.into(),
        Resume::Answers(answers) => answers.count,
        Resume::Walk(_) | Resume::List | Resume::Handle(_) => 0,
    }
}

/// The newest case that comes back to anything.
#[derive(Clone, Copy)]
pub(crate) enum Newest<'a> {
    /// The newest few frames do not say it.
    Unknown,
    /// There is none.
    Nothing,
    /// What it comes back to, and what it does then.
    Open(&'a Point, &'a Resume),
}

/// The newest case that comes back to anything, if the newest few frames say it.
#[inline(always)]
pub(crate) fn newest_in(frames: &[Frame]) -> Newest<'_>
    ensures { IsNewest (reverse frames.now) result }
{
    let mut at = frames.len();
    let mut left = LOOKED_AT;
    while at > 0 {
        if left == 0 {
            return Newest::Unknown;
        }
        left -= 1;
        at -= 1;
        match &frames[at] {
            Frame::Open(point, resume) => return Newest::Open(point, resume),
            Frame::Plain(_) => {}
        }
    }
    Newest::Nothing
}

/// What the open cases hold, if the newest few frames say it.
#[inline(always)]
pub(crate) fn held_in(frames: &[Frame]) -> Option<Held>
    ensures { IfSome result (λ h. h ≡ held (reverse frames.now)) }
{
    match newest_in(frames) {
        Newest::Unknown => None,
        Newest::Nothing => Some(Held {
            marks: no_marks(),
            kept: 0,
        }),
        Newest::Open(point, resume) => Some(Held {
            marks: point.marks,
            kept: kept_by(resume),
        }),
    }
}

/// How many links the open cases hold, if the newest few frames say it.
pub(crate) fn links_held_in(frames: &[Frame]) -> Option<usize>
    ensures { IfSome result (λ n. n ≡ (held (reverse frames.now)).marks.links) }
{
    match newest_in(frames) {
        Newest::Unknown => None,
        Newest::Nothing => Some(0),
        Newest::Open(point, _) => Some(point.marks.links),
    }
}
