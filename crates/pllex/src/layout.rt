//! Layout and comments (6.4.1).
ghost use Rattle.std.specs.Prelude.{◌≡◌, ◌≤◌, ◌+◌, ◌^◌, ◌<◌, drop, length, slice_index};
ghost use Rattle.pllex.specs.Tokens.{between, on_line, in_comment, turn, gap_end, gap};
ghost use Rattle.pllex.specs.Places.{IsWithin};
ghost use Rattle.pllex.specs.declared.layout.Mode.TheVariants.{Between};

use crate::characters::{begins_with, rest_of_character};
use crate::runs::is_layout;

/// Where in layout a byte stands. In a comment, how many bytes of a character are still to come; a bracketed
/// comment keeps the place of its start.
#[derive(Clone, Copy)]
pub enum Mode {
    Between,
    Line(usize),
    Enters(usize),
    Inside(usize, usize),
    Leaves,
}

/// What a byte does: the layout goes on in a mode, ends before the byte, or the byte is a bad one.
#[derive(Clone, Copy)]
pub enum After {
    Goes(Mode),
    Ends,
    Bad,
}

/// What stands behind layout: a place, a comment that is not closed, or a bad byte.
#[derive(Clone, Copy)]
pub enum Gap {
    Before(usize),
    Unclosed(usize),
    Bad(usize),
}

fn between(text: &[u8], place: usize) -> After
    requires { place < length text.now }
    ensures { result ≡ between place (slice_index text.now place) (drop (place + 1) text.now) }
{
    let b = text[place];
    if is_layout(b) {
        After::Goes(Mode::Between)
    } else if b == b'%' {
        After::Goes(Mode::Line(0))
    } else if b == b'/' && begins_with(text, place + 1, b'*') {
        After::Goes(Mode::Enters(place))
    } else {
        After::Ends
    }
}

fn on_line(text: &[u8], place: usize) -> After
    requires { place < length text.now }
    ensures { result ≡ on_line (slice_index text.now place) (drop (place + 1) text.now) }
{
    if text[place] == b'\n' {
        return After::Goes(Mode::Between);
    }
    match rest_of_character(text, place) {
        Some(rest) => After::Goes(Mode::Line(rest)),
        None => After::Bad,
    }
}

fn in_comment(text: &[u8], place: usize, start: usize) -> After
    requires { place < length text.now }
    ensures { result ≡ in_comment start (slice_index text.now place) (drop (place + 1) text.now) }
{
    if text[place] == b'*' && begins_with(text, place + 1, b'/') {
        return After::Goes(Mode::Leaves);
    }
    match rest_of_character(text, place) {
        Some(rest) => After::Goes(Mode::Inside(start, rest)),
        None => After::Bad,
    }
}

fn turn(text: &[u8], mode: Mode, place: usize) -> After
    requires { place < length text.now }
    ensures { result ≡ turn mode place (slice_index text.now place) (drop (place + 1) text.now) }
{
    match mode {
        Mode::Between => between(text, place),
        Mode::Line(rest) => {
            if rest == 0 {
                on_line(text, place)
            } else {
                After::Goes(Mode::Line(rest - 1))
            }
        }
        Mode::Enters(start) => After::Goes(Mode::Inside(start, 0)),
        Mode::Inside(start, rest) => {
            if rest == 0 {
                in_comment(text, place, start)
            } else {
                After::Goes(Mode::Inside(start, rest - 1))
            }
        }
        Mode::Leaves => After::Goes(Mode::Between),
    }
}

fn gap_end(mode: Mode, place: usize) -> Gap
    ensures { result ≡ gap_end mode place }
{
    match mode {
        Mode::Between | Mode::Line(_) | Mode::Leaves => Gap::Before(place),
        Mode::Enters(start) | Mode::Inside(start, _) => Gap::Unclosed(start),
    }
}

/// What stands behind the layout at a place.
#[tactic(auto, using(crate::proofs::RunEnds::gap_goes, crate::proofs::RunEnds::gap_stops, crate::proofs::RunEnds::gap_fails, crate::proofs::RunEnds::gap_over))]
pub fn gap_at(text: &[u8], from: usize) -> Gap
    requires { from ≤ length text.now }
    ensures value { result ≡ gap Between from (drop from text.now) }
    ensures within { IsWithin from (length text.now) result }
{
    let mut mode = Mode::Between;
    let mut place = from;
    while place < text.len() {
        match turn(text, mode, place) {
            After::Goes(next) => mode = next,
            After::Ends => return Gap::Before(place),
            After::Bad => return Gap::Bad(place),
        }
        place += 1;
    }
    gap_end(mode, place)
}
