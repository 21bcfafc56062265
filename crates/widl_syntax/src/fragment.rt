//! From the tokens of a file to its tree.

ghost use Rattle.std.specs.Prelude.{◌≡◌, ◌⊎◌, OnOk, IfOk, IfErr, IsOkUnless, length, []};
ghost use Rattle.widl_predictive.specs.Grammar.{IsAccepted};
ghost use Rattle.widl_grammar.specs.declared.fault.SyntaxFault.TheVariants.{Memory};
ghost use Rattle.widl_grammar.specs.declared.rule.Rule.TheVariants.{Definitions};
ghost use Rattle.widl_grammar.specs.Rows.{grammar};
ghost use Rattle.widl_grammar.specs.Source.{terminals_of, IsFaultOf};
ghost use Rattle.widl_syntax.specs.Nesting.{HasLevels};
ghost use Rattle.widl_syntax.specs.Signs.{UnparsesTo};
ghost use Rattle.widl_syntax.specs.UnparsedDefinitions.{fragment};

use crate::build::Reader;
use std::alloc::Global;
use widl_grammar::{SyntaxFault, check_terminals, terminals_of};
use widl_idl::Fragment;
use widl_lex::Tokens;

/// The tree of a file ([Web IDL, IDL grammar](https://webidl.spec.whatwg.org/#idl-grammar)). The time is
/// linear in the number of tokens.
///
/// The tree spells the file: the signs that it stands for, one case for each alternative of the grammar,
/// are the file's tokens in order, with their texts where the tree has texts and their places where it
/// has places. Its number is the file's, and its count of tokens theirs. No type of it nests deeper than
/// 16 levels, which bounds every recursion over its types.
///
/// `Ok` exactly for a sentence of the grammar without a type of level 17. Otherwise the lower of the
/// file's two places: [`SyntaxFault::Syntax`] at the first token up to and including which no sentence
/// begins, or at the file's length where the file ends too early; [`SyntaxFault::TooDeep`] at the first
/// token that begins a type of level 17 in some sentence that begins with the tokens up to and
/// including it. [`SyntaxFault::Memory`] may come for any file.
pub fn parse(alloc: Global, tokens: &Tokens<'_>) -> Result<Fragment, SyntaxFault>
    ensures ok { OnOk result (IsAccepted grammar Definitions (terminals_of tokens.now)) }
    ensures file { IfOk result (λ fragment. fragment.file ≡ tokens.now.file) }
    ensures tokens { IfOk result (λ fragment. fragment.token_count ≡ length tokens.now.lexemes) }
    ensures levels { IfOk result (λ read. HasLevels 16 read) }
    ensures spelled { IfOk result (λ read. UnparsesTo (fragment read) tokens.now.lexemes []) }
    ensures fault { IfErr result (λ e. (e ≡ Memory) ⊎ IsFaultOf tokens.now e) }
    ensures complete { IsAccepted grammar Definitions (terminals_of tokens.now) → IsOkUnless result Memory }
{
    let terminals = terminals_of(alloc, tokens)?;
    match check_terminals(alloc, tokens, &terminals) {
        Ok(()) => match Reader::new(alloc, &*tokens, &terminals).definitions() {
            Ok(definitions) => Ok(Fragment {
                file: tokens.file(),
                token_count: tokens.len(),
                definitions,
            }),
            Err(_) => Err(SyntaxFault::Memory),
        },
        Err(fault) => Err(fault),
    }
}
