//! From the tokens of a file to its fault.

ghost use Rattle.std.specs.Prelude.{◌≡◌, ◌⊎◌, OnOk, IfOk, IfErr, IsOkUnless};
ghost use Rattle.widl_predictive.specs.Grammar.{IsAccepted};
ghost use Rattle.widl_lex.specs.Tokens.{lexeme_of};
ghost use Rattle.widl_grammar.specs.declared.fault.SyntaxFault.TheVariants.{Memory};
ghost use Rattle.widl_grammar.specs.declared.rule.Rule.TheVariants.{Definitions};
ghost use Rattle.widl_grammar.specs.Rows.{grammar};
ghost use Rattle.widl_grammar.specs.Source.{terminal_of, terminals_of, place_of, IsFaultOf};

use crate::{SyntaxFault, Terminal, quoted, read_definitions};
use std::alloc::{AllocFailed, Global};
use widl_lex::{Token, TokenKind, Tokens};
use widl_predictive::Fault;
use widl_text::Place;

/// The terminal that a token is to the grammar.
pub fn terminal_of(token: &Token<'_>) -> Terminal
    ensures { result ≡ terminal_of (lexeme_of token.now) }
{
    match token.kind {
        TokenKind::Quoted => quoted(token.text).unwrap_or(Terminal::Other),
        TokenKind::Integer => Terminal::Integer,
        TokenKind::Decimal => Terminal::Decimal,
        TokenKind::Identifier => Terminal::Identifier,
        TokenKind::Text => Terminal::String,
        TokenKind::Other => Terminal::Other,
    }
}

/// The terminals of the tokens, in order.
pub fn terminals_of(
    alloc: Global,
    tokens: &Tokens<'_>,
) -> Result<Vec<Terminal>, AllocFailed<Terminal>>
    ensures { IfOk result (λ terminals. terminals.items ≡ terminals_of tokens.now) }
{
    let mut terminals = Vec::new(alloc);
    for number in 0..tokens.len() {
        terminals.push(terminal_of(tokens.at(number)))?;
    }
    Ok(terminals)
}

/// The place of the token of that number, or the file's length.
fn place_of(tokens: &Tokens<'_>, number: usize) -> Place
    ensures { result ≡ place_of tokens.now number }
{
    if number < tokens.len() {
        tokens.at(number).at
    } else {
        Place {
            file: tokens.file(),
            at: tokens.end(),
        }
    }
}

/// Whether a file is one of Web IDL, and where it fails to be one
/// ([Web IDL, IDL grammar](https://webidl.spec.whatwg.org/#idl-grammar)). The time is linear in the
/// number of tokens.
///
/// `Ok` exactly for a sentence of the grammar without a type of level 17. Otherwise the lower of the
/// file's two places: [`SyntaxFault::Syntax`] at the first token up to and including which no sentence
/// begins, or at the file's length where the file ends too early; [`SyntaxFault::TooDeep`] at the first
/// token that begins a type of level 17 in some sentence that begins with the tokens up to and
/// including it. [`SyntaxFault::Memory`] may come for any file.
pub fn check_syntax(alloc: Global, tokens: &Tokens<'_>) -> Result<(), SyntaxFault>
    ensures ok { OnOk result (IsAccepted grammar Definitions (terminals_of tokens.now)) }
    ensures fault { IfErr result (λ e. (e ≡ Memory) ⊎ IsFaultOf tokens.now e) }
    ensures complete { IsAccepted grammar Definitions (terminals_of tokens.now) → IsOkUnless result Memory }
{
    let terminals = terminals_of(alloc, tokens)?;
    check_terminals(alloc, tokens, &terminals)
}

/// The same as [`check_syntax`], for a caller that has use for the terminals of the tokens itself: they
/// are those of [`terminals_of`].
pub fn check_terminals(
    alloc: Global,
    tokens: &Tokens<'_>,
    terminals: &[Terminal],
) -> Result<(), SyntaxFault>
    requires { terminals.now ≡ terminals_of tokens.now }
    ensures ok { OnOk result (IsAccepted grammar Definitions (terminals_of tokens.now)) }
    ensures fault { IfErr result (λ e. (e ≡ Memory) ⊎ IsFaultOf tokens.now e) }
    ensures complete { IsAccepted grammar Definitions (terminals_of tokens.now) → IsOkUnless result Memory }
{
    match read_definitions(alloc, terminals) {
        Ok(()) => Ok(()),
        Err(Fault::Syntax(number)) => Err(SyntaxFault::Syntax(place_of(tokens, number))),
        Err(Fault::TooDeep(number)) => Err(SyntaxFault::TooDeep(place_of(tokens, number))),
        Err(Fault::Memory) => Err(SyntaxFault::Memory),
    }
}
