//! Where the objects of interfaces and namespaces stand.

ghost use Rattle.std.specs.Prelude.{◌≡◌, slice_get};
ghost use Rattle.widl_store.specs.Objects.{function_object, home_of, plain_object};

use widl_idl::Owner;
use widl_text::Items;
use widl_value::{ObjRef, Shape};

/// An object that stands for a definition.
#[derive(Clone, Copy)]
pub enum Home {
    /// The interface object of an interface, or the namespace object of a namespace.
    Owner(Owner),
    /// The interface prototype object of an interface.
    Prototype(u32),
    /// The iterator prototype object of an interface with an iterable of its own.
    PairPrototype(u32),
}

/// The numbers of an interface's objects.
#[derive(Clone, Copy)]
pub struct IfaceHome {
    /// Its interface object.
    pub object: u32,
    /// Its interface prototype object.
    pub prototype: u32,
    /// Its iterator prototype object, where it declares an iterable.
    pub pair_prototype: Option<u32>,
    /// How many slots its interface object has: one for each static attribute.
    pub slots: usize,
}

/// The number of a namespace's object.
#[derive(Clone, Copy)]
pub struct SpaceHome {
    /// Its namespace object.
    pub object: u32,
    /// How many slots that has: one for each attribute.
    pub slots: usize,
}

/// The numbers of the objects of all interfaces and namespaces, by the numbers of these.
#[derive(Drop)]
pub struct Homes {
    /// Those of interfaces.
    pub ifaces: Items<IfaceHome>,
    /// Those of namespaces.
    pub spaces: Items<SpaceHome>,
}

impl Homes {
    /// The object that stands for a definition.
    pub(crate) fn home(&self, what: Home) -> Option<ObjRef>
        ensures { result ≡ home_of self.now what }
    {
        match what {
            Home::Owner(Owner::Iface(iface)) => {
                self.iface(iface).map(|home| function(home.object))
            }
            Home::Owner(Owner::Space(space)) => {
                self.spaces
                    .as_slice()
                    .get(space as usize)
                    .map(|home| plain(home.object))
            }
            Home::Prototype(iface) => self.iface(iface).map(|home| plain(home.prototype)),
            Home::PairPrototype(iface) => {
                self.iface(iface)
                    .and_then(|home| home.pair_prototype)
                    .map(plain)
            }
        }
    }

    fn iface(&self, number: u32) -> Option<IfaceHome>
        ensures { result ≡ slice_get self.now.ifaces number }
    {
        self.ifaces.as_slice().get(number as usize).copied()
    }
}

fn function(id: u32) -> ObjRef
    ensures { result ≡ function_object id }
{
    ObjRef {
        id,
        shape: Shape::Callable,
    }
}

fn plain(id: u32) -> ObjRef
    ensures { result ≡ plain_object id }
{
    ObjRef {
        id,
        shape: Shape::Plain,
    }
}
