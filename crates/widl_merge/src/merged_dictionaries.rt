//! Dictionaries with the members of their partials.

ghost use Rattle.std.specs.Prelude.{◌≡◌, map, IfOk};
ghost use Rattle.widl_idl.specs.declared.kind.Kind.TheVariants as kinds;
ghost use Rattle.widl_idl.specs.DefinitionTerms.{dict_term, member_term};
ghost use Rattle.widl_idl.specs.MergedList.{dictionary_of};
ghost use Rattle.widl_idl.specs.MergedMembers as merged;
ghost use Rattle.widl_idl.specs.PlainTrees.{dictionary_member_of, plain_definitions};
ghost use Rattle.widl_idl.specs.PlainTypes.{name_of};
ghost use Rattle.widl_merge.specs.GrownLists.{HasParentOf, Means};
ghost use Rattle.widl_merge.specs.PlainMain.{plain_dictionary};

use crate::member_parts::dictionary_member_meant;
use crate::sources::Sources;
use std::alloc::{AllocError, Global};
use widl_idl::tree::{Dictionary, DictionaryMember};
use widl_idl::{Dict, Kind, Members};
use widl_names::Resolver;
use widl_text::Units;

/// The dictionary of this number with the members of all of its parts (Web IDL, "Dictionaries").
///
/// # Errors
///
/// `AllocError` where there is no memory, also where no steps are left.
pub fn dictionary_meant(
    alloc: Global,
    sources: &Sources<'_, '_, '_>,
    steps: &mut usize,
    number: usize,
    dictionary: &Dictionary,
) -> Result<Dict, AllocError>
    requires itself { Means (plain_definitions sources.now) (name_of dictionary.now.name).text number kinds.Dictionary }
    requires parent { HasParentOf (plain_definitions sources.now) kinds.Dictionary (plain_dictionary dictionary.now).parent }
    ensures { IfOk result (λ d. dict_term d ≡ dictionary_of (plain_definitions sources.now) (plain_dictionary dictionary.now)) }
{
    let list = sources.dictionary_members(alloc, number)?;
    let members = members_meant(alloc, sources.resolver(), steps, &list)?;
    let name = Units::of_str(alloc, dictionary.name.text.as_str())?;
    let parent = sources.parent(dictionary.parent.as_ref(), Kind::Dictionary);
    Ok(Dict {
        at: dictionary.name.at,
        name,
        parent,
        members,
    })
}

/// What these members mean.
fn members_meant<'a>(
    alloc: Global,
    resolver: &Resolver<'_, 'a>,
    steps: &mut usize,
    list: &[&'a DictionaryMember],
) -> Result<Members, AllocError>
    ensures { IfOk result (λ members. map member_term members ≡ map (merged.member_of (plain_definitions resolver.now)) (map (λ m. dictionary_member_of m.now) list.now)) }
{
    let mut members = Members::with_room(alloc, list.len())?;
    for member in list {
        let meant = dictionary_member_meant(alloc, resolver, steps, member)?;
        members.push(meant)?;
    }
    Ok(members)
}
