//! Interfaces and namespaces with all their members.

ghost use Rattle.std.specs.Prelude.{◌≡◌, IfOk, OnOk};
ghost use Rattle.widl_idl.specs.declared.kind.Kind.TheVariants as kinds;
ghost use Rattle.widl_idl.specs.DefinitionTerms.{iface_term, space_term};
ghost use Rattle.widl_idl.specs.MergedList.{interface_of, namespace_of};
ghost use Rattle.widl_idl.specs.PlainTrees.{plain_definitions};
ghost use Rattle.widl_idl.specs.PlainTypes.{name_of};
ghost use Rattle.widl_merge.specs.GrownLists.{AreKept, HasParentOf, Means};
ghost use Rattle.widl_merge.specs.PlainMain.{plain_interface, plain_namespace};

use crate::long_texts::LongTexts;
use crate::merged_members::put_together;
use crate::sources::Sources;
use std::alloc::{AllocError, Global};
use widl_idl::tree::{Interface, Namespace};
use widl_idl::{Iface, Kind, Space};
use widl_text::Units;

/// The interface of this number with the members of all of its parts (Web IDL, "Interfaces").
///
/// # Errors
///
/// `AllocError` where there is no memory, also where no steps are left.
pub fn interface_meant<'a>(
    alloc: Global,
    sources: &Sources<'_, '_, 'a>,
    steps: &mut usize,
    texts: &mut LongTexts<'a>,
    number: usize,
    interface: &Interface,
) -> Result<Iface, AllocError>
    requires kept { AreKept (plain_definitions sources.now) }
    requires itself { Means (plain_definitions sources.now) (name_of interface.now.name).text number kinds.Interface }
    requires parent { HasParentOf (plain_definitions sources.now) kinds.Interface (plain_interface interface.now).parent }
    ensures { IfOk result (λ i. iface_term i ≡ interface_of (plain_definitions sources.now) (plain_interface interface.now)) }
{
    let list = sources.members(alloc, number)?;
    let members = put_together(alloc, sources.resolver(), steps, texts, &list)?;
    let name = Units::of_str(alloc, interface.name.text.as_str())?;
    let parent = sources.parent(interface.parent.as_ref(), Kind::Interface);
    Ok(Iface {
        at: interface.name.at,
        name,
        parent,
        ctors: members.ctors,
        ops: members.ops,
        attrs: members.attrs,
        consts: members.consts,
        text: members.text,
        pairs: members.pairs,
        order: members.order,
    })
}

/// The namespace of this number with the members of all of its parts (Web IDL, "Namespaces").
///
/// # Errors
///
/// `AllocError` where there is no memory, also where no steps are left.
pub fn namespace_meant<'a>(
    alloc: Global,
    sources: &Sources<'_, '_, 'a>,
    steps: &mut usize,
    texts: &mut LongTexts<'a>,
    number: usize,
    namespace: &Namespace,
) -> Result<Space, AllocError>
    requires kept { AreKept (plain_definitions sources.now) }
    requires itself { Means (plain_definitions sources.now) (name_of namespace.now.name).text number kinds.Namespace }
    ensures { IfOk result (λ s. space_term s ≡ namespace_of (plain_definitions sources.now) (plain_namespace namespace.now)) }
{
    let list = sources.members(alloc, number)?;
    let members = put_together(alloc, sources.resolver(), steps, texts, &list)?;
    let name = Units::of_str(alloc, namespace.name.text.as_str())?;
    Ok(Space {
        at: namespace.name.at,
        name,
        ops: members.ops,
        attrs: members.attrs,
        consts: members.consts,
        order: members.order,
    })
}
