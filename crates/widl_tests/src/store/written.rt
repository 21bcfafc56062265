//! Objects in words, for tests.

use super::calls::{delete, expect_done, find};
use super::objects::Objects;
use crate::shared::{expect, sure};
use std::alloc::Global;
use std::fmt::Write;
use std::mem::ManuallyDrop;
use std::process::Abort;
use widl_idl::{Callee, Owner, Part};
use widl_store::{Builtin, Found, Inner};
use widl_text::{Key, Units};
use widl_value::{Flags, Number, ObjRef, Shape, Value};

/// The key of a mark, which is the number of the object: what an object without it finds there is that of its
/// prototype.
fn mark() -> Key {
    Key::Sym(4_294_967_295)
}

fn write_text(rt: &impl Abort, text: &mut String, part: &str) {
    sure(rt, text.push_str(part));
}

fn write_units(rt: &impl Abort, text: &mut String, units: &Units) {
    for unit in units.as_slice() {
        let character = u8::try_from(*unit).map_or('?', char::from);
        sure(rt, text.push(character));
    }
}

fn write_number(rt: &impl Abort, text: &mut String, mark: &str, n: i128) {
    sure(rt, write!(text, "{mark}{n}"));
}

/// A name, or a symbol by its number.
pub fn write_key(rt: &impl Abort, text: &mut String, key: &Key) {
    match key {
        Key::Name(name) => write_units(rt, text, name),
        Key::Sym(id) => write_number(rt, text, "@", i128::from(*id)),
    }
}

fn write_found(rt: &impl Abort, text: &mut String, found: &Found<'_>) {
    match found {
        Found::Held(Value::Obj(obj)) => write_number(rt, text, "#", i128::from(obj.id)),
        Found::Held(Value::Num(Number::Whole(n))) => write_number(rt, text, "", *n),
        Found::Held(Value::Str(held)) => write_units(rt, text, held),
        Found::Getter(_) | Found::NoGetter => write_text(rt, text, "accessor"),
        _ => write_text(rt, text, "?"),
    }
}

fn write_flags(rt: &impl Abort, text: &mut String, flags: Flags) {
    write_text(rt, text, if flags.writable { " w" } else { " -" });
    write_text(rt, text, if flags.enumerable { "e" } else { "-" });
    write_text(rt, text, if flags.configurable { "c" } else { "-" });
}

fn write_entry(rt: &impl Abort, text: &mut String, store: &Objects, obj: ObjRef, key: &Key) {
    write_text(rt, text, " ");
    write_key(rt, text, key);
    write_text(rt, text, "=");
    assert!(rt; store.is_live(obj));
    write_found(rt, text, &store.find(obj, key));
    if let Some(flags) = store.own(obj, key) {
        write_flags(rt, text, flags);
    }
    write_text(rt, text, ";");
}

/// Its kind, with its number where it is a function.
fn write_inner(rt: &impl Abort, text: &mut String, inner: &Inner) {
    match inner {
        Inner::Plain => write_text(rt, text, "plain"),
        Inner::Array => write_text(rt, text, "array"),
        Inner::Builtin(Builtin::Intrinsic(n)) => {
            write_number(rt, text, "function ", i128::from(*n));
        }
        Inner::Builtin(
            Builtin::Callee(
                Callee {
                    owner: Owner::Space(space),
                    part: Part::Op(op),
                },
            ),
        ) => {
            write_number(rt, text, "operation ", i128::from(*space));
            write_number(rt, text, ".", i128::from(*op));
        }
        Inner::Space { .. } => write_text(rt, text, "namespace"),
        _ => write_text(rt, text, "?"),
    }
}

/// The number of its prototype, where it has one. It has no mark itself.
fn proto_of(rt: &impl Abort, store: &Objects, obj: ObjRef) -> Option<i128> {
    let mark = ManuallyDrop::new(mark());
    find(rt, store, obj, &mark)
}

/// Its prototype and what it is. It has no mark.
fn write_head(rt: &impl Abort, text: &mut String, store: &Objects, obj: ObjRef) {
    if let Some(proto) = proto_of(rt, store, obj) {
        write_number(rt, text, "#", proto);
        write_text(rt, text, " ");
    }
    assert!(rt; store.is_live(obj));
    write_inner(rt, text, store.inner(obj));
    let is_callable = obj.shape == Shape::Callable;
    write_text(rt, text, if is_callable { "():" } else { ":" });
}

/// One line: what it is and its properties in the order of their keys. It has no mark.
fn write_object(rt: &impl Abort, text: &mut String, store: &Objects, obj: ObjRef) {
    write_head(rt, text, store, obj);
    assert!(rt; store.is_live(obj));
    let keys = sure(rt, store.own_keys(obj));
    for key in keys.as_slice() {
        write_entry(rt, text, store, obj, key);
    }
    write_text(rt, text, "\n");
}

/// Gives the object its mark.
fn put_mark(rt: &impl Abort, store: &mut Objects, obj: ObjRef) {
    expect_done(rt, store, obj, mark(), i128::from(obj.id));
}

/// Takes the mark from the object.
fn delete_mark(rt: &impl Abort, store: &mut Objects, obj: ObjRef) {
    let mark = ManuallyDrop::new(mark());
    expect(rt, delete(rt, store, obj, &mark) == "done", "a mark");
}

/// Gives each object its mark, or takes the marks from all objects.
fn mark_all(rt: &impl Abort, store: &mut Objects, marked: bool) {
    for id in 0..u32::MAX {
        let Some(obj) = store.object(id) else {
            return;
        };
        if marked {
            put_mark(rt, store, obj);
        } else {
            delete_mark(rt, store, obj);
        }
    }
}

/// The objects from this one on.
pub fn written(rt: &impl Abort, alloc: Global, store: &mut Objects, first: u32) -> String {
    let mut text = String::new(alloc);
    mark_all(rt, store, true);
    for id in first..u32::MAX {
        let Some(obj) = store.object(id) else {
            break;
        };
        delete_mark(rt, store, obj);
        write_object(rt, &mut text, store, obj);
        put_mark(rt, store, obj);
    }
    mark_all(rt, store, false);
    text
}
