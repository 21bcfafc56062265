//! The phases in their order: the encoding of all files, then their grammar, then the rules over their trees.

ghost use Rattle.std.specs.Prelude.{◌≡◌, ◌≤◌, ◌<◌, ◌^◌, [], List, true, false, IfOk, Ok, length};
ghost use Rattle.widl_front.specs.Findings.{IsFileFinding, IsFoundIn};
ghost use Rattle.widl_front.specs.Steps.{AcceptsTrees, AddsTree, BreaksEncoding, IsAcceptedList, IsTreeVerdict, KeepsEncoding, TreesUnless};
ghost use Rattle.widl_front.specs.Texts.{AreShort};
ghost use Rattle.widl_front.specs.Verdicts.{IsVerdict};
ghost use Rattle.widl_idl.specs.declared.tree.fragments.Fragment.{Fragment as FragmentType};
ghost use Rattle.widl_idl.specs.Meanings.{definitions_of};
ghost use Rattle.widl_idl.specs.MergedSets.{AreFiles, IsMerged};
ghost use Rattle.widl_idl.specs.PlainTrees.{plain_definitions};
ghost use Rattle.widl_merge.specs.Countable.{IsCountable};
ghost use Rattle.widl_text.specs.Limits.{most_files};
ghost use Rattle.widl_valid.specs.Invalidity.{IsListOfFiles};

use crate::finding::Finding;
use crate::texts::Texts;
use crate::verdict::Verdict;
use std::alloc::{AllocError, Global};
use widl_idl::{Defs, Fragment, Fragments, Merged, Refusal};
use widl_lex::{LexFault, Tokens};
use widl_merge::{MergeFault, merge_scope};
use widl_names::{Scope, list_definitions};
use widl_overload::Accepted;
use widl_syntax::{SyntaxFault, parse};
use widl_valid::find_invalid;

/// The verdict on a set of files, of which each has its place among the texts as its number: a fault of the
/// encoding of any of them, or else of the grammar of one, or else a broken rule over their trees, or else
/// their set with its merged list.
///
/// # Errors
///
/// `AllocError` where there is no memory, also where the work on types takes more steps than `merge_scope` and
/// `find_invalid` allow.
pub fn judge(alloc: Global, texts: &Texts) -> Result<Verdict, AllocError>
    requires few { length texts.now ≤ most_files }
    requires short { AreShort texts.now }
    ensures { IfOk result (λ verdict. IsVerdict texts.now verdict) }
{
    let mut trees = Fragments::new(alloc);
    match read_trees(alloc, texts, &mut trees)? {
        Some(finding) => Ok(Verdict::Fault(finding)),
        None => judge_trees(alloc, trees),
    }
}

/// The verdict on files that have trees: whether a rule over these is broken.
///
/// # Errors
///
/// `AllocError` as for [`judge`].
fn judge_trees(alloc: Global, trees: Fragments) -> Result<Verdict, AllocError>
    requires files { AreFiles trees }
    requires countable { IsCountable (definitions_of trees) }
    ensures { IfOk result (λ verdict. IsTreeVerdict trees verdict) }
{
    match accepted_list(alloc, trees.as_slice())? {
        Err(refusal) => Ok(Verdict::Broken(refusal)),
        Ok(defs) => Ok(Verdict::Accepted(accept(defs, trees))),
    }
}

/// The set of files that break no rule, with their merged list.
fn accept(defs: Defs, trees: Fragments) -> Accepted
    requires { IsAcceptedList trees (Ok defs) }
    ensures { AcceptsTrees trees result }
{
    Accepted::new(Merged::new(defs, trees))
}

/// The merged list of files that break no rule over their trees, or the first refusal. What their names mean is
/// looked up once for all rules.
///
/// # Errors
///
/// `AllocError` as for [`judge`].
fn accepted_list(alloc: Global, trees: &[Fragment]) -> Result<Result<Defs, Refusal>, AllocError>
    requires files { AreFiles trees.now }
    requires countable { IsCountable (definitions_of trees.now) }
    ensures { IfOk result (IsAcceptedList trees.now) }
{
    let definitions = list_definitions(alloc, trees)?;
    let scope = Scope::of(alloc, &definitions)?;
    match merge_scope(alloc, &scope) {
        Err(MergeFault::Refused(refusal)) => Ok(Err(refusal)),
        Err(MergeFault::Memory) => Err(AllocError),
        Ok(defs) => valid_list(alloc, &scope, defs),
    }
}

/// The same of files whose definitions are in scope and have this merged list.
///
/// # Errors
///
/// `AllocError` as for [`judge`].
fn valid_list(
    alloc: Global,
    scope: &Scope<'_, '_>,
    defs: Defs,
) -> Result<Result<Defs, Refusal>, AllocError>
    requires { IsListOfFiles (plain_definitions scope.now) defs }
    ensures { IfOk result (λ found. (trees : List FragmentType) → definitions_of trees ≡ plain_definitions scope.now → IsMerged defs trees → IsAcceptedList trees found) }
{
    match find_invalid(alloc, scope, &defs)? {
        Some(refusal) => Ok(Err(refusal)),
        None => Ok(Ok(defs)),
    }
}

/// The first fault of the texts: of the encoding of any of them, or else of the grammar of one. Where there
/// is none, their trees are added.
///
/// # Errors
///
/// `AllocError` where there is no memory.
fn read_trees(
    alloc: Global,
    texts: &Texts,
    trees: &mut Fragments,
) -> Result<Option<Finding>, AllocError>
    requires few { length texts.now ≤ most_files }
    requires short { AreShort texts.now }
    requires empty { trees.old ≡ [] }
    ensures found { IfOk result (λ found. IsFoundIn texts.now found) }
    ensures trees { IfOk result (λ found. TreesUnless texts.now trees.new found) }
{
    let mut found = None;
    for file in 0..texts.len() {
        let finding = read_tree(alloc, file as u16, texts.named(file), trees)?;
        if breaks_encoding(finding) {
            return Ok(finding);
        }
        found = found.or(finding);
    }
    Ok(found)
}

/// Whether the finding is a fault of the encoding.
fn breaks_encoding(finding: Option<Finding>) -> bool
    ensures yes { result ≡ true → BreaksEncoding finding }
    ensures no { result ≡ false → KeepsEncoding finding }
{
    matches!(finding, Some(Finding::Encoding(_)))
}

/// What is found in one file; its tree is added where nothing is.
///
/// # Errors
///
/// `AllocError` where there is no memory.
fn read_tree(
    alloc: Global,
    file: u16,
    bytes: &[u8],
    trees: &mut Fragments,
) -> Result<Option<Finding>, AllocError>
    requires { length bytes.now < 2 ^ 32 }
    ensures finding { IfOk result (λ finding. IsFileFinding file bytes.now finding) }
    ensures tree { IfOk result (λ finding. AddsTree file bytes.now finding trees.old trees.new) }
{
    match Tokens::read(alloc, file, bytes) {
        Err(LexFault::NotUtf8(place)) => Ok(Some(Finding::Encoding(place))),
        Err(LexFault::Memory) => Err(AllocError),
        Ok(tokens) => match parse(alloc, &tokens) {
            Ok(tree) => {
                trees.push(tree)?;
                Ok(None)
            }
            Err(SyntaxFault::Syntax(place)) => Ok(Some(Finding::Syntax(place))),
            Err(SyntaxFault::TooDeep(place)) => Ok(Some(Finding::Deep(place))),
            Err(SyntaxFault::Memory) => Err(AllocError),
        },
    }
}
