//! Lines and columns of places in a text.
ghost use Rattle.std.specs.Prelude.{◌≡◌};
ghost use Rattle.plload.specs.Position.{column_of, line_of};

/// The line and the column of a place of the text, both from 1; a column counts bytes.
pub fn position_of(text: &[u8], place: usize) -> (u64, u64)
    ensures line { result.0 ≡ line_of text.now place }
    ensures column { result.1 ≡ column_of text.now place }
{
    let before = &text[..place.min(text.len())];
    let mut line = 1;
    let mut column = 1;
    for byte in before {
        if *byte == b'\n' {
            line += 1;
            column = 1;
        } else {
            column += 1;
        }
    }
    (line, column)
}
