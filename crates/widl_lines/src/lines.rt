//! The lines of a text.

ghost use Rattle.std.specs.Prelude.{◌≡◌, ◌+◌, ◌^◌, ◌<◌, ◌≤◌, [], ◌∷◌, length, MatchOption};
ghost use Rattle.widl_lines.specs.Lines.{lines_of, without_return, line_number, column_number, NoLineEnd, IsLineEnd};

/// The first line of a text.
#[derive(Clone, Copy)]
pub struct FirstLine<'a> {
    /// Its bytes, without the line end.
    pub line: &'a [u8],
    /// What comes after its line end, if it has one.
    pub rest: Option<&'a [u8]>,
}

/// The piece without a CR at its end.
#[tactic(auto, using(crate::proofs::LineCuts::return_left, crate::proofs::LineCuts::nothing_left, crate::proofs::LineCuts::empty_left))]
fn without_return(piece: &[u8]) -> &[u8]
    ensures value { result.now ≡ without_return piece.now }
    ensures most { length result.now ≤ length piece.now }
{
    let count = piece.len();
    if count == 0 {
        return piece;
    }
    if piece[count - 1] == b'\r' {
        return &piece[..count - 1];
    }
    piece
}

/// The place of the first LF.
fn line_end(text: &[u8]) -> Option<usize>
    ensures { MatchOption result (NoLineEnd text.now (length text.now)) (λ at. IsLineEnd text.now at) }
{
    for (place, byte) in text.iter().enumerate() {
        if *byte == b'\n' {
            return Some(place);
        }
    }
    None
}

/// The first line of a text. A CR directly before the LF does not count.
pub fn first_line<'a>(text: &'a [u8]) -> FirstLine<'a>
    ensures lines { MatchOption result.rest (lines_of text.now ≡ result.line.now ∷ []) (λ rest. lines_of text.now ≡ result.line.now ∷ lines_of rest.now) }
    ensures most { MatchOption result.rest (length result.line.now ≤ length text.now) (λ rest. length result.line.now + length rest.now < length text.now) }
{
    match line_end(text) {
        None => FirstLine {
            line: text,
            rest: None,
        },
        Some(at) => FirstLine {
            line: without_return(&text[..at]),
            rest: Some(&text[at + 1..]),
        },
    }
}

/// The number of the line in which the byte at the place stands, and its column.
pub fn line_and_column(text: &[u8], at: usize) -> (u32, u32)
    requires within { at ≤ length text.now }
    requires short { length text.now + 1 < 2 ^ 32 }
    ensures line { result.0 ≡ line_number text.now at }
    ensures column { result.1 ≡ column_number text.now at }
{
    let mut line = 1;
    let mut column = 1;
    for byte in &text[..at] {
        if *byte == b'\n' {
            line += 1;
            column = 1;
        } else {
            column += 1;
        }
    }
    (line, column)
}
