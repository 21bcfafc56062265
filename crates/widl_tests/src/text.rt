//! Texts of units, and keys.

use crate::shared::{expect, sure, units};
use std::alloc::Global;
use std::collections::HashMap;
use std::mem::ManuallyDrop;
use std::process::Abort;
use widl_text::{Key, Units};

/// Names, and the array indices that they are.
const INDICES: [(&str, Option<u32>); 15] = [
    ("0", Some(0)),
    ("7", Some(7)),
    ("10", Some(10)),
    ("4294967294", Some(4_294_967_294)),
    ("4294967295", None),
    ("18446744073709551616", None),
    ("", None),
    ("00", None),
    ("01", None),
    ("-0", None),
    ("+1", None),
    ("1.", None),
    ("1 ", None),
    ("a", None),
    ("length", None),
];

/// A key is this array index.
fn expect_index(rt: &impl Abort, key: Key, want: Option<u32>, what: &str) {
    let key = ManuallyDrop::new(key);
    expect(rt, key.index() == want, what);
}

/// The letter a and the first half of a pair of surrogates.
fn half_a_pair(rt: &impl Abort, alloc: Global) -> Units {
    let mut half = units(rt, alloc, "a");
    sure(rt, half.push(0xD83D));
    half
}

/// A letter and a pair of surrogates.
fn smile(rt: &impl Abort, alloc: Global) -> Units {
    units(rt, alloc, "a\u{1F600}")
}

/// Puts three keys, of which none is another.
fn put_keys(rt: &impl Abort, alloc: Global, map: &mut HashMap<Key, u32>) {
    sure(rt, map.insert(Key::Name(smile(rt, alloc)), 1));
    sure(rt, map.insert(Key::Name(half_a_pair(rt, alloc)), 2));
    sure(rt, map.insert(Key::Sym(0), 3));
}

/// A map has this value at a key, and at a copy of the key.
fn expect_value(rt: &impl Abort, map: &HashMap<Key, u32>, key: Key, value: u32) {
    let copy = ManuallyDrop::new(sure(rt, key.copy()));
    let key = ManuallyDrop::new(key);
    expect(rt, map.get(&*key) == Some(&value), "a key");
    expect(rt, map.get(&*copy) == Some(&value), "its copy");
}

fn expect_keys_apart(rt: &impl Abort, alloc: Global) {
    let mut map = ManuallyDrop::new(HashMap::new(alloc));
    put_keys(rt, alloc, &mut map);
    expect(rt, map.len() == 3, "three keys");
    expect_value(rt, &map, Key::Name(smile(rt, alloc)), 1);
    expect_value(rt, &map, Key::Sym(0), 3);
}

/// A copy of a long text grows alone.
fn expect_own_copies(rt: &impl Abort, alloc: Global) {
    let text = sure(rt, Units::of_bytes(alloc, &[0x61; 100]));
    let mut copy = sure(rt, text.copy());
    sure(rt, copy.push(0x62));
    expect(rt, text.len() == 100, "the text");
    expect(
        rt,
        copy.len() == 101 && copy.as_slice().ends_with(&[0x61, 0x62]),
        "its copy",
    );
}

fn expect_indices(rt: &impl Abort, alloc: Global, rows: &[(&str, Option<u32>)]) {
    for (text, want) in rows {
        expect_index(rt, Key::Name(units(rt, alloc, text)), *want, text);
    }
    expect_index(rt, Key::Sym(1), None, "a symbol");
}

fn expect_surrogates(rt: &impl Abort, alloc: Global) {
    let smile = smile(rt, alloc);
    expect(
        rt,
        smile.as_slice() == [0x61, 0xD83D, 0xDE00].as_slice(),
        "a pair",
    );
    let half = half_a_pair(rt, alloc);
    expect(
        rt,
        half.as_slice() == [0x61, 0xD83D].as_slice(),
        "half a pair",
    );
}

#[test]
fn has_units_indices_and_keys(rt: HostRuntime) {
    expect_indices(&rt, rt.alloc(), &INDICES);
    expect_surrogates(&rt, rt.alloc());
    expect_own_copies(&rt, rt.alloc());
    expect_keys_apart(&rt, rt.alloc());
}
