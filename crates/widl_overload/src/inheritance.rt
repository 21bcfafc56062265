//! Inheritance of interfaces.

ghost use Rattle.std.specs.Prelude.{◌≡◌, map};
ghost use Rattle.widl_idl.specs.DefinitionTerms.{iface_term};
ghost use Rattle.widl_overload.specs.sets.Inheritance.{inherits as inherits_in, parent_of};

use widl_idl::Iface;

/// The interface from which one inherits directly.
fn parent(ifaces: &[Iface], number: u32) -> Option<u32>
    ensures { result ≡ parent_of (map iface_term ifaces.now) number }
{
    match ifaces.get(number as usize) {
        None => None,
        Some(iface) => iface.parent,
    }
}

/// Whether the interface of one number inherits from another, at any distance (Web IDL,
/// "inherited interfaces"). It walks the parents once.
pub fn inherits(ifaces: &[Iface], number: u32, ancestor: u32) -> bool
    ensures { result ≡ inherits_in (map iface_term ifaces.now) number ancestor }
{
    let mut at = parent(ifaces, number);
    for _link in 0..ifaces.len() {
        match at {
            None => return false,
            Some(node) => {
                if node == ancestor {
                    return true;
                }
                at = parent(ifaces, node);
            }
        }
    }
    false
}
