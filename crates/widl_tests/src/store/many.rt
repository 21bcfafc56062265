//! Objects with many properties, and long chains of prototypes.

use super::calls::{
    ARRAY, FIRST, expect_delete, expect_done, expect_found, expect_number, expect_put, heir, name,
};
use super::objects::{Objects, realm_over};
use crate::shared::{expect, sure};
use std::alloc::Global;
use std::process::Abort;
use widl_text::{Key, Units};
use widl_value::ObjRef;

/// The name `k` with a number.
fn numbered(rt: &impl Abort, alloc: Global, n: u32) -> String {
    sure(rt, format!(in alloc; "k{n}"))
}

fn put_names(rt: &impl Abort, alloc: Global, store: &mut Objects, obj: ObjRef, count: u32) {
    for n in 0..count {
        let key = name(rt, alloc, &numbered(rt, alloc, n));
        expect_done(rt, store, obj, key, i128::from(n));
    }
}

/// Finds each name and deletes it.
fn delete_names(rt: &impl Abort, alloc: Global, store: &mut Objects, obj: ObjRef, count: u32) {
    for n in 0..count {
        let text = numbered(rt, alloc, n);
        expect_number(rt, alloc, store, obj, &text, i128::from(n));
        expect_delete(rt, alloc, store, obj, &text, "done");
    }
}

fn expect_count(rt: &impl Abort, store: &Objects, obj: ObjRef, count: usize) {
    assert!(rt; store.is_live(obj));
    expect(
        rt,
        sure(rt, store.own_keys(obj)).len() == count,
        "the count of keys",
    );
}

/// Puts so many names and then so many symbols, finds and deletes the names, and counts what is left.
fn delete_before(rt: &impl Abort, alloc: Global, store: &mut Objects, names: u32, symbols: u32) {
    let obj = heir(rt, store, FIRST);
    put_names(rt, alloc, store, obj, names);
    for id in 0..symbols {
        expect_done(rt, store, obj, Key::Sym(id), 1);
    }
    delete_names(rt, alloc, store, obj, names);
    expect_count(rt, store, obj, symbols as usize);
}

#[test]
fn deletes_many_names_in_order(rt: HostRuntime) {
    let mut store = realm_over(&rt, rt.alloc(), &[]);
    delete_before(&rt, rt.alloc(), &mut store, 65_536, 0);
    delete_before(&rt, rt.alloc(), &mut store, 20_000, 400_000);
}

/// Puts a symbol, and puts and deletes index 0, many times; then finds the length that this leaves.
fn delete_among_symbols(rt: &impl Abort, alloc: Global, store: &mut Objects, count: u32) {
    for id in 0..count {
        expect_done(rt, store, ARRAY, Key::Sym(id), 1);
        expect_put(rt, alloc, store, ARRAY, "0", "done");
        expect_delete(rt, alloc, store, ARRAY, "0", "done");
    }
    expect_number(rt, alloc, store, ARRAY, "length", 1);
}

/// The last of so many objects, each of which has the one before as its prototype.
fn chain(rt: &impl Abort, store: &mut Objects, count: u32) -> ObjRef {
    let mut last = FIRST;
    for _ in 0..count {
        last = heir(rt, store, last);
    }
    last
}

fn look_along(rt: &impl Abort, alloc: Global, store: &mut Objects, last: ObjRef) {
    expect_found(rt, alloc, store, last, "far", "nothing");
    expect_put(rt, alloc, store, FIRST, "far", "done");
    expect_number(rt, alloc, store, last, "far", 1);
}

/// A name of 1,000 units, of which only the last tells it apart.
fn long_name(rt: &impl Abort, alloc: Global, last: u16) -> Key {
    let mut units = Units::new(alloc);
    for _ in 0..999 {
        sure(rt, units.push(0x61));
    }
    sure(rt, units.push(last));
    Key::Name(units)
}

fn put_long_names(rt: &impl Abort, alloc: Global, store: &mut Objects) {
    let obj = heir(rt, store, FIRST);
    for last in 0..1_000u16 {
        let key = long_name(rt, alloc, last);
        expect_done(rt, store, obj, key, 1);
    }
    expect_count(rt, store, obj, 1_000);
}

#[test]
fn many_keys_prototypes_and_long_names(rt: HostRuntime) {
    let alloc = rt.alloc();
    let mut store = realm_over(&rt, alloc, &[]);
    delete_among_symbols(&rt, alloc, &mut store, 65_536);
    put_long_names(&rt, alloc, &mut store);
    let last = chain(&rt, &mut store, 100_000);
    look_along(&rt, alloc, &mut store, last);
}
