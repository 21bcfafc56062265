//! Definitions, types and values that several modules make.

pub mod accepted_sets;

ghost use Rattle.std.specs.Prelude.{◌≡◌, IsTrue, Ok};
ghost use Rattle.widl_idl.specs.Flattened.{IsUnion};
ghost use Rattle.widl_idl.specs.Terms.{type_term};

use std::alloc::Global;
use std::mem::ManuallyDrop;
use std::process::Abort;
use widl_idl::{
    Arg, Args, Attrs, Callbacks, Callee, Choices, Constants, Defs, Dicts, IdlType, IdlTypes, Iface,
    Ifaces, IntKind, Mode, OpName, OpNames, Optionality, Owner, Part, Sig, Sigs, Slots, Space,
    Spaces, Stringify, TextKind,
};
use widl_text::{Place, Units};
use widl_value::{Number, ObjRef, Shape, Value};

pub const NOWHERE: Place = Place { file: 0, at: 0 };

/// The operation of a list of [`list_with`].
pub const THE_OPERATION: Callee = Callee {
    owner: Owner::Space(0),
    part: Part::Op(0),
};

/// What a call made. The test ends where there is no memory.
pub fn sure<T, E>(rt: &impl Abort, made: Result<T, E>) -> T
    ensures { made ≡ Ok result }
{
    match made {
        Ok(value) => value,
        Err(_) => panic!(rt; "no memory"),
    }
}

/// Ends the test where something doesn't hold of what has this name.
pub fn expect(rt: &impl Abort, holds: bool, what: &str)
    ensures { IsTrue holds }
{
    assert!(rt; holds, "{what}");
}

/// The units of a text.
pub fn units(rt: &impl Abort, alloc: Global, text: &str) -> Units {
    sure(rt, Units::of_str(alloc, text))
}

pub fn boxed(rt: &impl Abort, alloc: Global, t: IdlType) -> Box<IdlType> {
    sure(rt, Box::new(alloc, t))
}

pub fn long() -> IdlType {
    IdlType::Int(IntKind::Long, Mode::Wrap)
}

pub fn text() -> IdlType {
    IdlType::Text {
        kind: TextKind::Dom,
        null_empty: false,
    }
}

/// `[Clamp] long`
fn clamped() -> IdlType {
    IdlType::Int(IntKind::Long, Mode::Clamp)
}

/// A type of a kind, which is annotated where it can be.
pub fn of_kind(rt: &impl Abort, alloc: Global, kind: &str) -> IdlType {
    match kind {
        "sequence" => IdlType::Seq(boxed(rt, alloc, clamped())),
        "record" => IdlType::Rec(TextKind::Dom, boxed(rt, alloc, clamped())),
        "promise" => IdlType::Promise(boxed(rt, alloc, clamped())),
        "long?" => nullable(rt, alloc, long()),
        "DOMString?" => nullable(rt, alloc, text()),
        _ => without_parts(kind),
    }
}

fn without_parts(kind: &str) -> IdlType {
    match kind {
        "undefined" => IdlType::Undefined,
        "boolean" => IdlType::Boolean,
        "long" => clamped(),
        "DOMString" => IdlType::Text {
            kind: TextKind::Dom,
            null_empty: true,
        },
        "enumeration" => IdlType::Choice(0),
        "interface" => IdlType::Interface(0),
        "derived" => IdlType::Interface(1),
        "unrelated" => IdlType::Interface(2),
        "function" => IdlType::CallbackFn(0),
        "callback" => IdlType::CallbackIface(0),
        "dictionary" => IdlType::Dict(0),
        "object" => IdlType::Object,
        _ => IdlType::Any,
    }
}

pub fn nullable(rt: &impl Abort, alloc: Global, t: IdlType) -> IdlType {
    IdlType::Nullable(boxed(rt, alloc, t))
}

/// A type of each of these kinds.
pub fn of_kinds(rt: &impl Abort, alloc: Global, kinds: &[&str]) -> IdlTypes {
    let mut types = IdlTypes::new(alloc);
    for kind in kinds {
        sure(rt, types.push(of_kind(rt, alloc, kind)));
    }
    types
}

pub fn union(rt: &impl Abort, alloc: Global, a: IdlType, b: IdlType) -> IdlType
    ensures { IsUnion (type_term result) }
{
    let mut members = IdlTypes::new(alloc);
    sure(rt, members.push(a));
    sure(rt, members.push(b));
    IdlType::Union(members)
}

/// Adds an interface without a name and members.
pub fn add_interface(rt: &impl Abort, alloc: Global, ifaces: &mut Ifaces, parent: Option<u32>) {
    let iface = Iface {
        at: NOWHERE,
        name: Units::new(alloc),
        parent,
        ctors: Sigs::new(alloc),
        ops: OpNames::new(alloc),
        attrs: Attrs::new(alloc),
        consts: Constants::new(alloc),
        text: Stringify::No,
        pairs: None,
        order: Slots::new(alloc),
    };
    sure(rt, ifaces.push(iface));
}

/// Interfaces with these parents.
pub fn with_parents(rt: &impl Abort, alloc: Global, parents: &[Option<u32>]) -> Ifaces {
    let mut ifaces = Ifaces::new(alloc);
    for parent in parents {
        add_interface(rt, alloc, &mut ifaces, *parent);
    }
    ifaces
}

/// Interface 1 inherits from 0, and 2 from none.
pub const THREE: [Option<u32>; 3] = [None, Some(0), None];

/// So many interfaces, each of which inherits from the one before or from none.
pub fn many_interfaces(rt: &impl Abort, alloc: Global, count: u32, chained: bool) -> Ifaces {
    let mut ifaces = Ifaces::new(alloc);
    for number in 0..count {
        let parent = if chained { number.checked_sub(1) } else { None };
        add_interface(rt, alloc, &mut ifaces, parent);
    }
    ifaces
}

/// A list with these interfaces and namespaces alone.
pub fn list_of(alloc: Global, ifaces: Ifaces, spaces: Spaces) -> Defs {
    Defs {
        ifaces,
        spaces,
        dicts: Dicts::new(alloc),
        choices: Choices::new(alloc),
        callback_fns: Callbacks::new(alloc),
        callback_ifaces: Callbacks::new(alloc),
    }
}

/// A namespace whose one operation has these overloads.
fn namespace(rt: &impl Abort, alloc: Global, sigs: Sigs) -> Space {
    let mut ops = OpNames::new(alloc);
    let (name, fixed) = (units(rt, alloc, "f"), false);
    sure(rt, ops.push(OpName { name, fixed, sigs }));
    Space {
        at: NOWHERE,
        name: units(rt, alloc, "N"),
        ops,
        attrs: Attrs::new(alloc),
        consts: Constants::new(alloc),
        order: Slots::new(alloc),
    }
}

/// A list with these interfaces and one namespace, whose one operation has these overloads.
pub fn list_with(rt: &impl Abort, alloc: Global, ifaces: Ifaces, sigs: Sigs) -> Defs {
    let mut spaces = Spaces::new(alloc);
    sure(rt, spaces.push(namespace(rt, alloc, sigs)));
    list_of(alloc, ifaces, spaces)
}

pub fn add_argument(
    rt: &impl Abort,
    alloc: Global,
    args: &mut Args,
    ty: IdlType,
    opt: Optionality,
) {
    let name = units(rt, alloc, "a");
    let value = None;
    sure(
        rt,
        args.push(Arg {
            name,
            ty,
            opt,
            value,
        }),
    );
}

/// Adds an overload with these arguments.
pub fn add_overload(rt: &impl Abort, sigs: &mut Sigs, args: Args) {
    let (at, result) = (NOWHERE, IdlType::Undefined);
    sure(rt, sigs.push(Sig { at, args, result }));
}

/// Adds an overload of one argument.
pub fn add_of_one(rt: &impl Abort, alloc: Global, sigs: &mut Sigs, ty: IdlType, opt: Optionality) {
    let mut args = Args::new(alloc);
    add_argument(rt, alloc, &mut args, ty, opt);
    add_overload(rt, sigs, args);
}

/// Numbers, and at the end an interface of this number.
fn sixty_four_arguments(rt: &impl Abort, alloc: Global, number: u32, opt: Optionality) -> Args {
    let mut args = Args::new(alloc);
    for _place in 0..63 {
        add_argument(rt, alloc, &mut args, long(), opt);
    }
    add_argument(rt, alloc, &mut args, IdlType::Interface(number), opt);
    args
}

/// A list with 64 overloads of 64 arguments: the first 63 are of one type, and the last is of an interface of its own.
pub fn sixty_four_overloads(
    rt: &impl Abort,
    alloc: Global,
    opt: Optionality,
) -> ManuallyDrop<Defs> {
    let mut sigs = Sigs::new(alloc);
    for number in 0..64 {
        let args = sixty_four_arguments(rt, alloc, number, opt);
        add_overload(rt, &mut sigs, args);
    }
    let ifaces = many_interfaces(rt, alloc, 64, false);
    ManuallyDrop::new(list_with(rt, alloc, ifaces, sigs))
}

/// An ordinary object.
pub fn object(id: u32) -> ObjRef {
    ObjRef {
        id,
        shape: Shape::Plain,
    }
}

pub fn number(n: i128) -> Value {
    Value::Num(Number::Whole(n))
}
