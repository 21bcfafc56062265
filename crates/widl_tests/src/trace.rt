//! The lines of events, word for word.

mod lists;
mod long;
mod short;

use crate::shared::accepted_sets::accepted;
use crate::shared::{expect, number, object, sure, units};
use std::alloc::Global;
use std::mem::ManuallyDrop;
use std::process::Abort;
use widl_idl::{Callee, Owner, Part};
use widl_overload::Accepted;
use widl_text::{Key, Units};
use widl_trace::{Code, Event};
use widl_value::{IdlValues, Number, ObjRef, Shape, Value, Values};

const DEFINITIONS: &str = "namespace N { undefined f(); readonly attribute any h; }; \
    interface I { static undefined _object(); undefined g(); attribute any e; stringifier; }; \
    dictionary C { any a; any b; }; dictionary D : C { any c; }; enum E { \"one\", \"two words\" };";

fn definitions(rt: &impl Abort, alloc: Global) -> ManuallyDrop<Accepted> {
    ManuallyDrop::new(accepted(rt, alloc, &[DEFINITIONS]))
}

/// The line of an event is this one.
fn expect_line(rt: &impl Abort, alloc: Global, list: &Accepted, event: &Event, line: &str) {
    let written = sure(rt, widl_trace::line(alloc, list, event));
    expect(rt, written.bytes() == line.as_bytes(), line);
}

/// The line of an event that is left to the end of the test is this one.
fn expect_made(rt: &impl Abort, alloc: Global, list: &Accepted, event: Event, line: &str) {
    expect_line(rt, alloc, list, &ManuallyDrop::new(event), line);
}

const FIRST: ObjRef = ObjRef {
    id: 20,
    shape: Shape::Plain,
};

const SECOND: ObjRef = ObjRef {
    id: 21,
    shape: Shape::Plain,
};

const METHOD: ObjRef = ObjRef {
    id: 19,
    shape: Shape::Plain,
};

const EVENTS: [(Event, &str); 24] = [
    (
        Event::Get {
            obj: SECOND,
            key: Key::Sym(1),
        },
        "get #21 @toPrimitive",
    ),
    (
        Event::Get {
            obj: SECOND,
            key: Key::Sym(3),
        },
        "get #21 @3",
    ),
    (Event::Keys { obj: FIRST }, "keys #20"),
    (
        Event::Ret(Value::Num(Number::Whole(18_446_744_073_709_551_616))),
        "ret 18446744073709551616",
    ),
    (Event::Show(Value::Undefined), "show undefined"),
    (Event::Show(Value::Null), "show null"),
    (Event::Show(Value::Bool(true)), "show true"),
    (Event::Show(Value::Bool(false)), "show false"),
    (Event::Show(Value::Num(Number::NaN)), "show NaN"),
    (Event::Show(Value::Num(Number::PosInf)), "show Infinity"),
    (Event::Show(Value::Num(Number::NegInf)), "show -Infinity"),
    (
        Event::Show(Value::Num(Number::Whole(-9_007_199_254_740_993))),
        "show -9007199254740993",
    ),
    (Event::Show(Value::Num(Number::Whole(0))), "show 0"),
    (Event::Show(Value::Sym(0)), "show @iterator"),
    (Event::Show(Value::Sym(2)), "show @toStringTag"),
    (
        Event::Fulfilled {
            promise: FIRST,
            value: Value::Num(Number::Whole(1)),
        },
        "promise #20 fulfilled 1",
    ),
    (
        Event::Rejected {
            promise: FIRST,
            value: Value::Obj(SECOND),
        },
        "promise #20 rejected #21",
    ),
    (
        Event::Waits {
            promise: SECOND,
            on: FIRST,
            method: METHOD,
        },
        "promise #21 waits #20 #19",
    ),
    (
        Event::Job {
            promise: SECOND,
            on: FIRST,
            method: METHOD,
        },
        "job #21 #20 #19",
    ),
    (Event::Done, "done"),
    (Event::Uncaught(Value::Obj(FIRST)), "uncaught #20"),
    (Event::StopBudget, "stop budget"),
    (Event::StopDepth, "stop depth"),
    (Event::StopProfile(99), "stop profile 99"),
];

fn expect_events(rt: &impl Abort, alloc: Global, list: &Accepted, rows: &[(Event, &str)]) {
    for (event, line) in rows {
        expect_line(rt, alloc, list, event, line);
    }
}

fn text(rt: &impl Abort, alloc: Global, text: &str) -> Value {
    Value::Str(units(rt, alloc, text))
}

/// Events with names of properties.
fn expect_named(rt: &impl Abort, alloc: Global, list: &Accepted) {
    let (obj, key) = (SECOND, Key::Name(units(rt, alloc, "b")));
    expect_made(rt, alloc, list, Event::Get { obj, key }, "get #21 \"b\"");
    let (obj, key) = (FIRST, Key::Name(units(rt, alloc, "10")));
    expect_made(rt, alloc, list, Event::Own { obj, key }, "own #20 \"10\"");
}

/// Whole numbers.
fn numbers(rt: &impl Abort, alloc: Global, all: &[i128]) -> Values {
    let mut values = Values::new(alloc);
    for n in all {
        sure(rt, values.push(number(*n)));
    }
    values
}

fn expect_calls(rt: &impl Abort, alloc: Global, list: &Accepted) {
    let (f, this) = (METHOD, Value::Obj(object(18)));
    let args = numbers(rt, alloc, &[300, 200]);
    let line = "call #19 this #18 (300, 200)";
    expect_made(rt, alloc, list, Event::Call { f, this, args }, line);
    let (this, args) = (Value::Null, Values::new(alloc));
    let line = "call #19 this null ()";
    expect_made(rt, alloc, list, Event::Call { f, this, args }, line);
    let args = numbers(rt, alloc, &[1]);
    expect_made(rt, alloc, list, Event::New { f, args }, "new #19 (1)");
}

/// Texts, and how they are shown.
const TEXTS: [(&str, &str); 2] = [
    ("a\u{e9}\"\\\n", "show \"a\\u00e9\\u0022\\u005c\\u000a\""),
    (
        " ~\u{7f}\u{1f}\u{1F600}",
        "show \" ~\\u007f\\u001f\\ud83d\\ude00\"",
    ),
];

fn expect_texts(rt: &impl Abort, alloc: Global, list: &Accepted, rows: &[(&str, &str)]) {
    for (shown, line) in rows {
        expect_made(rt, alloc, list, Event::Show(text(rt, alloc, shown)), line);
    }
    let mut lone = Units::new(alloc);
    sure(rt, lone.push(0xDEAD));
    let shown = Event::Show(Value::Str(lone));
    expect_made(rt, alloc, list, shown, "show \"\\udead\"");
    let thrown = Event::Thr(text(rt, alloc, "x"));
    expect_made(rt, alloc, list, thrown, "thr \"x\"");
}

/// A member, an overload, and the line where the steps begin, without values.
type Member = (Owner, Part, Option<u32>, &'static str);

const CALLEES: [Member; 10] = [
    (Owner::Space(0), Part::Op(0), Some(1), "op N.f#1 ()"),
    (
        Owner::Iface(0),
        Part::Op(0),
        Some(0),
        "op I.static object#0 ()",
    ),
    (Owner::Iface(0), Part::Op(1), Some(7), "op I.g#7 ()"),
    (
        Owner::Iface(0),
        Part::Constructor,
        Some(2),
        "op I.constructor#2 ()",
    ),
    (Owner::Iface(0), Part::Get(0), None, "op I.get e ()"),
    (Owner::Iface(0), Part::Set(0), None, "op I.set e ()"),
    (Owner::Iface(0), Part::Text, None, "op I.toString ()"),
    (Owner::Space(0), Part::Get(0), None, "op N.get h ()"),
    (Owner::Iface(0), Part::Get(1), None, "op  ()"),
    (Owner::Space(9), Part::Op(0), Some(3), "op #3 ()"),
];

fn expect_callees(rt: &impl Abort, alloc: Global, list: &Accepted, rows: &[Member]) {
    for (owner, part, overload, line) in rows {
        let event = Event::Op {
            callee: Callee {
                owner: *owner,
                part: *part,
            },
            overload: *overload,
            values: IdlValues::new(alloc),
        };
        expect_made(rt, alloc, list, event, line);
    }
}

const CODES: [(Code, &str); 26] = [
    (Code::NoOverload, "error #20 no-overload"),
    (Code::NoMatch, "error #20 no-match"),
    (Code::NotObject, "error #20 not-object"),
    (Code::NotCallable, "error #20 not-callable"),
    (Code::NotIterable, "error #20 not-iterable"),
    (Code::Iterator, "error #20 iterator"),
    (Code::Result, "error #20 result"),
    (Code::Symbol, "error #20 symbol"),
    (Code::Range, "error #20 range"),
    (Code::Byte, "error #20 byte"),
    (Code::Enum, "error #20 enum"),
    (Code::Required, "error #20 required"),
    (Code::Dictionary, "error #20 dictionary"),
    (Code::Interface, "error #20 interface"),
    (Code::Primitive, "error #20 primitive"),
    (Code::Union, "error #20 union"),
    (Code::This, "error #20 this"),
    (Code::Running, "error #20 running"),
    (Code::NoConstructor, "error #20 no-constructor"),
    (Code::NeedsNew, "error #20 needs-new"),
    (Code::NoValue, "error #20 no-value"),
    (Code::NoDefault, "error #20 no-default"),
    (Code::ReadOnly, "error #20 read-only"),
    (Code::NotConfigurable, "error #20 not-configurable"),
    (Code::Member, "error #20 member"),
    (Code::Key, "error #20 key"),
];

fn expect_codes(rt: &impl Abort, alloc: Global, list: &Accepted, rows: &[(Code, &str)]) {
    for (code, line) in rows {
        let (obj, code) = (FIRST, *code);
        expect_line(rt, alloc, list, &Event::Error { obj, code }, line);
    }
}

#[test]
fn events_have_lines(rt: HostRuntime) {
    let alloc = rt.alloc();
    let list = definitions(&rt, alloc);
    expect_events(&rt, alloc, &list, &EVENTS);
    expect_named(&rt, alloc, &list);
    expect_calls(&rt, alloc, &list);
    expect_texts(&rt, alloc, &list, &TEXTS);
    expect_callees(&rt, alloc, &list, &CALLEES);
    expect_codes(&rt, alloc, &list, &CODES);
    lists::expect_values(&rt, alloc, &list);
    short::expect_short(&rt, alloc, &list);
    long::expect_long(&rt, alloc, &list);
}
