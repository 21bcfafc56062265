//! The merged list of definitions.

ghost use Rattle.std.specs.Prelude.{List, [], IfOk, OnOk};
ghost use Rattle.widl_idl.specs.DefinitionTerms.{dict_term, iface_term, space_term};
ghost use Rattle.widl_idl.specs.MergedList.{dictionary_if, interface_if, namespace_if};
ghost use Rattle.widl_idl.specs.PlainTrees.{PlainDefinition, DictionaryDefinition, InterfaceDefinition, NamespaceDefinition, definition_kind_of, plain_definitions};
ghost use Rattle.widl_merge.specs.GrownLists.{Adds, AreKept, AreListed, Grows, MeansItself};
ghost use Rattle.widl_merge.specs.PlainMain.{plain_dictionary, plain_interface, plain_namespace};

use crate::callbacks::{callback_interface_meant, callback_meant};
use crate::enumerations::enumeration_meant;
use crate::long_texts::LongTexts;
use crate::merged_dictionaries::dictionary_meant;
use crate::merged_interfaces::{interface_meant, namespace_meant};
use crate::sources::Sources;
use std::alloc::{AllocError, Global};
use widl_idl::tree::{DefinitionKind, Dictionary, Interface, Namespace};
use widl_idl::{Defs, Dicts, Ifaces, Spaces};
use widl_names::Scope;
use widl_text::Items;

/// The merged list of definitions that break no rule of merging.
///
/// `steps` bounds the work on types, and counts down.
///
/// # Errors
///
/// `AllocError` where there is no memory, also where no steps are left.
pub fn merge_definitions(
    alloc: Global,
    scope: &Scope<'_, '_>,
    steps: &mut usize,
) -> Result<Defs, AllocError>
    requires { AreKept (plain_definitions scope.now) }
    ensures { IfOk result (λ defs. AreListed (plain_definitions scope.now) (plain_definitions scope.now) defs) }
{
    let sources = Sources::of(alloc, scope)?;
    let mut texts = LongTexts::new(alloc);
    let mut defs = no_definitions(alloc);
    let definitions = scope.all();
    for (number, definition) in definitions.iter().enumerate() {
        add_definition(
            alloc,
            &sources,
            steps,
            &mut texts,
            &mut defs,
            number,
            &definition.kind,
        )?;
    }
    Ok(defs)
}

/// The empty list.
fn no_definitions(alloc: Global) -> Defs
    ensures { (all : List PlainDefinition) → AreListed all [] result }
{
    Defs {
        ifaces: Items::new(alloc),
        spaces: Items::new(alloc),
        dicts: Items::new(alloc),
        choices: Items::new(alloc),
        callback_fns: Items::new(alloc),
        callback_ifaces: Items::new(alloc),
    }
}

/// Adds the definition of this number to the list of its kind, if it is a main one.
fn add_definition<'a>(
    alloc: Global,
    sources: &Sources<'_, '_, 'a>,
    steps: &mut usize,
    texts: &mut LongTexts<'a>,
    defs: &mut Defs,
    number: usize,
    kind: &'a DefinitionKind,
) -> Result<(), AllocError>
    requires kept { AreKept (plain_definitions sources.now) }
    requires means { MeansItself (plain_definitions sources.now) number (definition_kind_of kind.now) }
    ensures { OnOk result (Grows (plain_definitions sources.now) (definition_kind_of kind.now) defs.old defs.new) }
{
    match kind {
        DefinitionKind::Callback(callback) => {
            let meant = callback_meant(alloc, sources.resolver(), steps, texts, callback)?;
            defs.callback_fns.push(meant)
        }
        DefinitionKind::CallbackInterface(callback) => {
            let meant = callback_interface_meant(
                alloc,
                sources.resolver(),
                steps,
                texts,
                callback,
            )?;
            defs.callback_ifaces.push(meant)
        }
        DefinitionKind::Interface(interface) => {
            let ifaces = &mut defs.ifaces;
            add_interface(alloc, sources, steps, texts, ifaces, number, interface)
        }
        DefinitionKind::Namespace(namespace) => {
            let spaces = &mut defs.spaces;
            add_namespace(alloc, sources, steps, texts, spaces, number, namespace)
        }
        DefinitionKind::Dictionary(dictionary) => {
            add_dictionary(alloc, sources, steps, &mut defs.dicts, number, dictionary)
        }
        DefinitionKind::Enumeration(enumeration) => {
            defs.choices.push(enumeration_meant(alloc, enumeration)?)
        }
        DefinitionKind::Mixin(_) | DefinitionKind::Typedef(_) | DefinitionKind::Includes(_) => Ok(
            (),
        ),
    }
}

fn add_interface<'a>(
    alloc: Global,
    sources: &Sources<'_, '_, 'a>,
    steps: &mut usize,
    texts: &mut LongTexts<'a>,
    ifaces: &mut Ifaces,
    number: usize,
    interface: &Interface,
) -> Result<(), AllocError>
    requires kept { AreKept (plain_definitions sources.now) }
    requires means { MeansItself (plain_definitions sources.now) number (InterfaceDefinition (plain_interface interface.now)) }
    ensures { OnOk result (Adds iface_term (interface_if (plain_definitions sources.now) (InterfaceDefinition (plain_interface interface.now))) ifaces.old ifaces.new) }
{
    if interface.partial {
        return Ok(());
    }
    ifaces.push(interface_meant(alloc, sources, steps, texts, number, interface)?)
}

fn add_namespace<'a>(
    alloc: Global,
    sources: &Sources<'_, '_, 'a>,
    steps: &mut usize,
    texts: &mut LongTexts<'a>,
    spaces: &mut Spaces,
    number: usize,
    namespace: &Namespace,
) -> Result<(), AllocError>
    requires kept { AreKept (plain_definitions sources.now) }
    requires means { MeansItself (plain_definitions sources.now) number (NamespaceDefinition (plain_namespace namespace.now)) }
    ensures { OnOk result (Adds space_term (namespace_if (plain_definitions sources.now) (NamespaceDefinition (plain_namespace namespace.now))) spaces.old spaces.new) }
{
    if namespace.partial {
        return Ok(());
    }
    spaces.push(namespace_meant(alloc, sources, steps, texts, number, namespace)?)
}

fn add_dictionary(
    alloc: Global,
    sources: &Sources<'_, '_, '_>,
    steps: &mut usize,
    dicts: &mut Dicts,
    number: usize,
    dictionary: &Dictionary,
) -> Result<(), AllocError>
    requires { MeansItself (plain_definitions sources.now) number (DictionaryDefinition (plain_dictionary dictionary.now)) }
    ensures { OnOk result (Adds dict_term (dictionary_if (plain_definitions sources.now) (DictionaryDefinition (plain_dictionary dictionary.now))) dicts.old dicts.new) }
{
    if dictionary.partial {
        return Ok(());
    }
    dicts.push(dictionary_meant(alloc, sources, steps, number, dictionary)?)
}
