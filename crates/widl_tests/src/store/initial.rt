//! The first objects against rows by hand.

use super::calls::{ARRAY, expect_define, expect_delete, expect_put};
use super::objects::{Objects, realm_over};
use super::written::written;
use crate::shared::{expect, sure};
use std::alloc::Global;
use std::fmt::Write;
use std::process::Abort;
use widl_idl::Owner;
use widl_store::Home;
use widl_value::{ObjRef, Shape};

const FIRST: &str = "plain: toString=#8 w-c; valueOf=#9 w-c;
#0 plain: toString=#15 w-c;
#0 array: length=0 w--; toString=#10 w-c; join=#11 w-c; values=#12 w-c; @0=#12 w-c;
#0 plain: toString=#16 w-c;
#3 plain:
#0 plain: then=#17 w-c; @2=Promise --c;
#0 plain: @0=#14 w-c;
#6 plain: next=#13 w-c; @2=Array Iterator --c;
#1 function 8(): length=0 --c; name=toString --c;
#1 function 9(): length=0 --c; name=valueOf --c;
#1 function 10(): length=0 --c; name=toString --c;
#1 function 11(): length=1 --c; name=join --c;
#1 function 12(): length=0 --c; name=values --c;
#1 function 13(): length=0 --c; name=next --c;
#1 function 14(): length=0 --c; name=[Symbol.iterator] --c;
#1 function 15(): length=0 --c; name=toString --c;
#1 function 16(): length=0 --c; name=toString --c;
#1 function 17(): length=2 --c; name=then --c;
";

/// The objects over these files, from this one on, are these.
fn expect_objects(rt: &impl Abort, alloc: Global, files: &[&str], first: u32, rows: &str) {
    let mut store = realm_over(rt, alloc, files);
    let text = written(rt, alloc, &mut store, first);
    expect(rt, text.as_str() == rows, rows);
}

const FIRST_NAMESPACE: &str =
    "namespace A { undefined b(); undefined a(any x, optional any y, any... z); undefined b(any x); };";

const SECOND_NAMESPACE: &str =
    "namespace _interface { undefined _is(long... x); undefined _is(DOMString x, any y); };";

const NAMESPACES: &str = "#0 namespace: b=#19 wec; a=#20 wec; @2=A --c;
#1 operation 0.0(): length=0 --c; name=b --c;
#1 operation 0.1(): length=1 --c; name=a --c;
#0 namespace: is=#22 wec; @2=interface --c;
#1 operation 1.0(): length=0 --c; name=is --c;
";

#[test]
fn makes_the_fixed_objects_and_namespaces(rt: HostRuntime) {
    expect_objects(&rt, rt.alloc(), &[], 0, FIRST);
    let files = [FIRST_NAMESPACE, SECOND_NAMESPACE];
    expect_objects(&rt, rt.alloc(), &files, 18, NAMESPACES);
}

/// The number of the object that stands for a namespace.
fn expect_home(rt: &impl Abort, store: &Objects, owner: Owner, want: Option<u32>) {
    let found = store.home(Home::Owner(owner)).map(|obj| obj.id);
    expect(rt, found == want, "a home");
}

#[test]
fn finds_the_objects_of_namespaces(rt: HostRuntime) {
    let store = realm_over(&rt, rt.alloc(), &[FIRST_NAMESPACE, SECOND_NAMESPACE]);
    expect_home(&rt, &store, Owner::Space(1), Some(21));
    expect_home(&rt, &store, Owner::Space(2), None);
    expect_home(&rt, &store, Owner::Iface(0), None);
}

/// A namespace with so many operations.
fn many_operations(rt: &impl Abort, alloc: Global, count: u32) -> String {
    let mut file = sure(rt, String::from_str(alloc, "namespace N { "));
    for n in 0..count {
        sure(rt, write!(file, "undefined o{n}(any x); "));
    }
    sure(rt, file.push_str("};"));
    file
}

const LAST_OPERATION: &str = "#1 operation 0.19999(): length=1 --c; name=o19999 --c;
";

/// Namespaces like the second one, with names of their own.
fn many_namespaces(rt: &impl Abort, alloc: Global, first: u32, end: u32) -> String {
    let mut file = String::new(alloc);
    for n in first..end {
        let namespace = write!(
            file,
            "namespace n{n} {{ undefined _is(long... x); undefined _is(DOMString x, any y); }}; "
        );
        sure(rt, namespace);
    }
    file
}

const LAST_NAMESPACE: &str = "#0 namespace: is=#40017 wec; @2=n19999 --c;
#1 operation 19999.0(): length=0 --c; name=is --c;
";

#[test]
fn makes_a_function_for_each_operation(rt: HostRuntime) {
    let file = many_operations(&rt, rt.alloc(), 20_000);
    expect_objects(&rt, rt.alloc(), &[&file], 20_018, LAST_OPERATION);
}

#[test]
fn makes_an_object_for_each_namespace(rt: HostRuntime) {
    let alloc = rt.alloc();
    let first = many_namespaces(&rt, alloc, 0, 10_000);
    let second = many_namespaces(&rt, alloc, 10_000, 20_000);
    let mut store = realm_over(&rt, alloc, &[&first, &second]);
    expect_home(&rt, &store, Owner::Space(19_999), Some(40_016));
    let text = written(&rt, alloc, &mut store, 40_016);
    expect(&rt, text.as_str() == LAST_NAMESPACE, LAST_NAMESPACE);
}

const FUNCTION: ObjRef = ObjRef {
    id: 19,
    shape: Shape::Callable,
};

const NAMESPACE: ObjRef = ObjRef {
    id: 18,
    shape: Shape::Plain,
};

#[test]
fn shows_the_flags_of_first_objects(rt: HostRuntime) {
    let alloc = rt.alloc();
    let mut store = realm_over(&rt, alloc, &[FIRST_NAMESPACE]);
    expect_put(&rt, alloc, &mut store, FUNCTION, "length", "read only");
    expect_define(&rt, alloc, &mut store, FUNCTION, "length", "done");
    expect_delete(&rt, alloc, &mut store, NAMESPACE, "b", "done");
    expect_define(&rt, alloc, &mut store, ARRAY, "length", "length");
}
