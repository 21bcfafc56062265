//! Each call on values once, with ample memory, and IDL values as deep as they can be.

use crate::shared::{expect, object, sure, units};
use std::alloc::Global;
use std::mem::ManuallyDrop;
use std::process::Abort;
use widl_text::Units;
use widl_value::{
    Class, IdlEntries, IdlMembers, IdlPair, IdlPairs, IdlSlots, IdlValue, IdlValues, Number,
    ObjRef, Shape, Value, copy_slot,
};

/// An integer is this one.
fn expect_int(rt: &impl Abort, value: &IdlValue, n: i128, what: &str) {
    expect(rt, matches!(value, IdlValue::Int(m) if *m == n), what);
}

/// A value of each variant that has no parts.
fn one_of_each(rt: &impl Abort, alloc: Global) -> IdlValues {
    let mut all = IdlValues::new(alloc);
    let values = [
        IdlValue::Undefined,
        IdlValue::Null,
        IdlValue::Missing,
        IdlValue::Bool(true),
        IdlValue::Int(-5),
        IdlValue::Text(units(rt, alloc, "text")),
        IdlValue::Choice { of: 3, index: 1 },
        IdlValue::Object(object(7)),
        IdlValue::Any(Value::Num(Number::Whole(9))),
        IdlValue::Promise(object(8)),
    ];
    for value in values {
        sure(rt, all.push(value));
    }
    all
}

fn list_of(rt: &impl Abort, alloc: Global, inner: IdlValue) -> IdlValue {
    let mut values = IdlValues::new(alloc);
    sure(rt, values.push(inner));
    IdlValue::List(values)
}

fn record_of(rt: &impl Abort, alloc: Global, inner: IdlValue) -> IdlValue {
    let mut entries = IdlEntries::new(alloc);
    sure(rt, entries.push((units(rt, alloc, "key"), inner)));
    IdlValue::Entries(entries)
}

fn dictionary_of(rt: &impl Abort, alloc: Global, inner: IdlValue) -> IdlValue {
    let mut members = IdlMembers::new(alloc);
    sure(rt, members.push((4, 0, inner)));
    IdlValue::Dict { of: 5, members }
}

/// A value can be copied, and dropped before its copy, which is a dictionary.
fn expect_copy(rt: &impl Abort, value: IdlValue) {
    let copy = sure(rt, value.copy());
    drop(value);
    expect(rt, matches!(&copy, IdlValue::Dict { of: 5, .. }), "a copy");
    drop(copy);
}

/// A value of each variant that has no parts, at three levels of each that has some.
fn expect_variants(rt: &impl Abort, alloc: Global) {
    let mut value = IdlValue::List(one_of_each(rt, alloc));
    for _ in 0..3 {
        let list = list_of(rt, alloc, value);
        value = dictionary_of(rt, alloc, record_of(rt, alloc, list));
    }
    expect_copy(rt, value);
}

/// 4,096 levels: 256 dictionaries, each with a type of 16 levels.
fn expect_levels(rt: &impl Abort, alloc: Global) {
    let mut value = IdlValue::Int(1);
    for _ in 0..256 {
        for _ in 0..7 {
            let list = list_of(rt, alloc, value);
            value = record_of(rt, alloc, list);
        }
        let list = list_of(rt, alloc, value);
        value = dictionary_of(rt, alloc, list);
    }
    expect_copy(rt, value);
}

fn change_values(rt: &impl Abort, alloc: Global) {
    let mut values = IdlValues::new(alloc);
    sure(rt, values.push(IdlValue::Int(1)));
    assert!(rt; values.len() == 1);
    let former = ManuallyDrop::new(values.replace(0, IdlValue::Int(2)));
    expect_int(rt, &former, 1, "the former value");
    expect_int(rt, values.at(0), 2, "the new value");
}

fn change_entries(rt: &impl Abort, alloc: Global) {
    let mut entries = IdlEntries::new(alloc);
    sure(rt, entries.push((Units::new(alloc), IdlValue::Int(1))));
    assert!(rt; entries.len() == 1);
    let new = (Units::new(alloc), IdlValue::Int(2));
    let former = ManuallyDrop::new(entries.replace(0, new));
    expect_int(rt, &former.1, 1, "the former entry");
    expect_int(rt, &entries.at(0).1, 2, "the new entry");
}

fn change_members(rt: &impl Abort, alloc: Global) {
    let mut members = IdlMembers::new(alloc);
    sure(rt, members.push((0, 0, IdlValue::Int(1))));
    assert!(rt; members.len() == 1);
    let former = ManuallyDrop::new(members.replace(0, (0, 1, IdlValue::Int(2))));
    expect_int(rt, &former.2, 1, "the former member");
    expect_int(rt, &members.at(0).2, 2, "the new member");
}

fn change_slots(rt: &impl Abort, alloc: Global) {
    let mut slots = IdlSlots::new(alloc);
    sure(rt, slots.push(None));
    assert!(rt; slots.len() == 1);
    let copy = ManuallyDrop::new(sure(rt, copy_slot(slots.at(0))));
    expect(rt, copy.is_none(), "a copy of an empty slot");
    let former = ManuallyDrop::new(slots.replace(0, Some(IdlValue::Int(2))));
    expect(rt, former.is_none(), "the former slot");
    let copy = ManuallyDrop::new(sure(rt, copy_slot(slots.at(0))));
    expect(rt, copy.is_some(), "a copy of the new slot");
}

fn copy_pairs(rt: &impl Abort, alloc: Global) {
    let mut pairs = IdlPairs::new(alloc);
    let (key, value) = (IdlValue::Int(1), IdlValue::Int(2));
    let pair = ManuallyDrop::new(IdlPair { key, value });
    sure(rt, pairs.push(sure(rt, pair.copy())));
    assert!(rt; pairs.len() == 1);
    expect_int(rt, &pairs.at(0).value, 2, "a copied pair");
}

#[test]
fn idl_values_and_lists(rt: HostRuntime) {
    let alloc = rt.alloc();
    expect_variants(&rt, alloc);
    expect_levels(&rt, alloc);
    change_values(&rt, alloc);
    change_entries(&rt, alloc);
    change_members(&rt, alloc);
    change_slots(&rt, alloc);
    copy_pairs(&rt, alloc);
}

/// A value has this class, and a copy is the same.
fn expect_class(rt: &impl Abort, value: &Value, class: Class) {
    let copy = ManuallyDrop::new(sure(rt, value.copy()));
    assert!(rt; value.class() == class && *copy == *value, "{class:?}");
}

const CLASSES: [(Value, Class); 8] = [
    (Value::Undefined, Class::Undefined),
    (Value::Null, Class::Null),
    (Value::Bool(false), Class::Bool),
    (Value::Num(Number::Whole(-3)), Class::Num),
    (Value::Sym(1), Class::Sym),
    (
        Value::Obj(ObjRef {
            id: 7,
            shape: Shape::Platform(4),
        }),
        Class::Platform(4),
    ),
    (
        Value::Obj(ObjRef {
            id: 7,
            shape: Shape::Callable,
        }),
        Class::Callable,
    ),
    (
        Value::Obj(ObjRef {
            id: 7,
            shape: Shape::Plain,
        }),
        Class::Plain,
    ),
];

fn expect_classes(rt: &impl Abort, alloc: Global, rows: &[(Value, Class)]) {
    for (value, class) in rows {
        expect_class(rt, value, *class);
    }
    let text = ManuallyDrop::new(Value::Str(units(rt, alloc, "no")));
    expect_class(rt, &text, Class::Str);
}

#[test]
fn values_have_classes(rt: HostRuntime) {
    expect_classes(&rt, rt.alloc(), &CLASSES);
}
