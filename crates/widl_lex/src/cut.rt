//! The longest piece at the front of a text. A block comment that begins and does not end is scanned to the
//! end of the file once: what that shows of the rest is kept.

ghost use Rattle.std.specs.Prelude.{◌≡◌, ◌<◌, ℕ, Bool, false, IsUtf8, IsTrue, ◌↔◌, ◌++◌, map, length, drop, take, OnOk, IfErr};
ghost use Rattle.widl_lex.specs.declared.fault.LexFault.TheVariants.{Memory};
ghost use Rattle.widl_lex.specs.Tokens.{lexeme_of, lexemes_of};
ghost use Rattle.widl_lex.specs.declared.token.PieceKind.TheVariants.{Token as OfToken};
ghost use Rattle.widl_lex.specs.declared.token.TokenKind.TheVariants.{Quoted};
ghost use Rattle.widl_lex.specs.Comments.{OpensComment, NeverCloses};
ghost use Rattle.widl_lex.specs.Cut.{Longest, IsLongestLength};
ghost use Rattle.widl_lex.specs.Pattern.{Matches};
ghost use Rattle.widl_lex.specs.Quoted.{IsQuoted};
ghost use Rattle.widl_lex.specs.Lexical.{IsPiece};
ghost use Rattle.widl_lex.specs.Walk.{is_sign, may_be_quoted, scanned};

use crate::fault::LexFault;
use crate::longest::longest;
use crate::quoted::is_quoted;
use crate::tables::SIGNS;
use crate::token::{PieceKind, Token, TokenKind};
use widl_text::Place;

/// Whether the text begins with `/*`.
fn opens_comment(text: &[u8]) -> bool
    ensures { IsTrue result ↔ OpensComment text.now }
{
    text.len() > 1 && text[0] == b'/' && text[1] == b'*'
}

/// Whether the byte is a sign that the grammar writes out and with which no longer piece begins.
fn is_sign(byte: u8) -> bool
    ensures { result ≡ is_sign byte }
{
    SIGNS[byte as usize]
}

/// Whether a quoted terminal may be scanned as the kind.
fn may_be_quoted(scan: PieceKind) -> bool
    ensures { result ≡ may_be_quoted scan }
{
    matches!(
        scan,
        PieceKind::Token(TokenKind::Quoted | TokenKind::Identifier | TokenKind::Other)
    )
}

/// The kind of a piece that was scanned: a quoted terminal wins a tie.
fn kind_of(scan: PieceKind, text: &[u8]) -> PieceKind
    requires { Matches (scanned scan) text.now }
    ensures piece { IsPiece result text.now }
    ensures tie { IsQuoted text.now → result ≡ OfToken Quoted }
{
    if !may_be_quoted(scan) {
        return scan;
    }
    if is_quoted(text) {
        PieceKind::Token(TokenKind::Quoted)
    } else {
        scan
    }
}

/// The longest piece at the front of the text: how many bytes, and its kind. `closes` is false only where no
/// `*/` is left.
pub fn longest_piece(text: &[u8], closes: bool) -> (usize, PieceKind)
    requires utf8 { IsUtf8 text.now }
    requires some { 0 < length text.now }
    requires unclosed { closes ≡ false → NeverCloses text.now }
    ensures { Longest result.1 result.0 text.now }
{
    if is_sign(text[0]) {
        return (1, PieceKind::Token(TokenKind::Quoted));
    }
    if !closes && opens_comment(text) {
        return (1, PieceKind::Token(TokenKind::Other));
    }
    match longest(text) {
        Some((len, scan)) => (len, kind_of(scan, &text[..len])),
        None => unreachable!(),
    }
}

/// Whether a `*/` may be left behind the piece: it is not where a block comment begins and does not end.
pub fn still_closes(text: &[u8], len: usize, closes: bool) -> bool
    requires longest { IsLongestLength len text.now }
    requires unclosed { closes ≡ false → NeverCloses text.now }
    ensures unclosed { result ≡ false → NeverCloses (drop len text.now) }
    ensures kept { closes ≡ false → result ≡ false }
    ensures learnt { len ≡ 1 → OpensComment text.now → result ≡ false }
{
    if len == 1 && opens_comment(text) {
        return false;
    }
    closes
}

/// Adds the token of a piece, if it is no gap.
pub fn push_piece<'a>(
    items: &mut Vec<Token<'a>>,
    kind: PieceKind,
    at: Place,
    text: &'a [u8],
) -> Result<(), LexFault>
    ensures ok { OnOk result (map lexeme_of items.new.items ≡ map lexeme_of items.old.items ++ lexemes_of at kind text.now) }
    ensures err { IfErr result (λ fault. fault ≡ Memory) }
{
    if let PieceKind::Token(kind) = kind {
        items.push(Token { kind, at, text })?;
    }
    Ok(())
}
