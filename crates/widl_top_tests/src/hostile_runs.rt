//! Runs of hostile scripts: long ones, deep ones, and such that make much of little.

use crate::made::Parts;
use crate::shared::{MOST, Output, Run, expect_runs};
use widl_top::Status;

/// One operation, which takes and gives any value.
const ANY: Parts = &[("namespace N { any f(any a); };", 1)];

const MEMBERS: Parts = &[
    ("let o = object()\ndefine o.a = o\ndo o", 1),
    (".a", 500_000),
    ("\n", 1),
];

const ITEMS: Parts = &[
    ("let a = array(1", 1),
    (",1", 499_999),
    (")\nshow a.length\n", 1),
];

/// The line of the call would have half a gigabyte.
const TEXTS: Parts = &[
    ("let t = \"", 1),
    ("a", 1_000),
    ("\"\ndo N.f(t", 1),
    (",t", 499_999),
    (")\n", 1),
];

/// A hundred calls are open, and each waits in 32 brackets.
const BRACKETS: Parts = &[
    ("function g()\nreturn ", 1),
    ("array(", 32),
    ("o.x", 1),
    (")", 32),
    ("\nend\nlet o = object()\ndefine o.x get g\ndo o.x\n", 1),
];

/// The last line reads along 300,000 prototypes.
const PROTOTYPES: Parts = &[
    ("let h = object()\ndefine h.o = object()\nfunction f()\n", 1),
    ("define h.o = object(h.o)\n", 100),
    ("end\nfunction g()\n", 1),
    ("do f()\n", 100),
    ("end\n", 1),
    ("do g()\n", 30),
    ("show h.o.z\n", 1),
];

const RUNS: [Run; 5] = [
    (
        ANY,
        MEMBERS,
        MOST,
        Status::Done,
        Output::End(&[("done\n", 1)]),
    ),
    (
        ANY,
        ITEMS,
        MOST,
        Status::Done,
        Output::End(&[("show 500000\ndone\n", 1)]),
    ),
    (
        ANY,
        TEXTS,
        MOST,
        Status::Stopped,
        Output::End(&[("stop budget\n", 1)]),
    ),
    (
        ANY,
        BRACKETS,
        MOST,
        Status::Stopped,
        Output::End(&[("call #20 this #21 ()\nstop depth\n", 1)]),
    ),
    (
        ANY,
        PROTOTYPES,
        MOST,
        Status::Done,
        Output::End(&[("show undefined\ndone\n", 1)]),
    ),
];

#[test]
fn hostile_scripts_are_run(rt: HostRuntime) {
    expect_runs(&rt, rt.alloc(), &RUNS);
}

/// One call of many arguments.
const ARGUMENTS: Parts = &[("do N.f(-1", 1), (",1", 299_999), (")\n", 1)];

const VARIADIC: Parts = &[("namespace N { undefined f([Clamp] octet... a); };", 1)];

/// An enumeration of many values.
const VALUES: Parts = &[
    ("enum E { \"a\"", 1),
    (", \"v`n`\"", 49_999),
    (" }; namespace N { undefined f(E a); };", 1),
];

/// Ten thousand calls with the last value, and one with no value.
const VALUE_CALLS: Parts = &[
    ("function g()\n", 1),
    ("do N.f(\"v49998\")\n", 100),
    ("end\n", 1),
    ("do g()\n", 100),
    ("do N.f(\"v49999\")\n", 1),
];

/// Overloads of 1 to 64 arguments, all that a name may have.
const OVERLOADS: Parts = &[
    ("namespace N {\n", 1),
    ("undefined f(any a`any 0+1`);\n", 64),
    ("};", 1),
];

/// Ten thousand calls of the longest overload.
const OVERLOAD_CALLS: Parts = &[
    ("function g(a)\ndo N.f(a", 1),
    (",a", 63),
    (")\nend\nfunction h()\n", 1),
    ("do g(7)\n", 100),
    ("end\n", 1),
    ("do h()\n", 100),
];

const MANY: [Run; 3] = [
    (
        VARIADIC,
        ARGUMENTS,
        MOST,
        Status::Done,
        Output::End(&[("1, 1, 1)\nret undefined\ndone\n", 1)]),
    ),
    (
        VALUES,
        VALUE_CALLS,
        MOST,
        Status::Uncaught,
        Output::End(&[(
            "call #19 this #18 (\"v49999\")\nerror #21 enum\nthr #21\nuncaught #21\n",
            1,
        )]),
    ),
    (
        OVERLOADS,
        OVERLOAD_CALLS,
        MOST,
        Status::Done,
        Output::End(&[(
            "7, 7, 7)\nret undefined\nret undefined\nret undefined\ndone\n",
            1,
        )]),
    ),
];

#[test]
fn many_arguments_values_and_overloads_are_converted(rt: HostRuntime) {
    expect_runs(&rt, rt.alloc(), &MANY);
}

/// A script of 1 MiB: after 5 units each turn takes 11. They are for the statements `try` and `do`, the lines of the call and of
/// two reads, the line of the method's call, its statement and its line `ret`, and the object and the lines of the error.
const TURNS: Parts = &[
    (
        "function v()\nreturn 256\nend\nlet o = object()\nset o.valueOf = v\n",
        1,
    ),
    ("try\ndo N.f(o)\ncatch e\nend\n", 40_327),
    (" ", 11),
];

const ENFORCED: Parts = &[("namespace N { undefined f([EnforceRange] octet a); };", 1)];

/// Budgets that end after a read of a conversion, after the object of an error, before the last line, and after it.
const TURN_ENDS: [Run; 4] = [
    (
        ENFORCED,
        TURNS,
        "119",
        Status::Stopped,
        Output::End(&[(
            "call #19 this #18 (#21)\nget #21 @toPrimitive\nstop budget\n",
            1,
        )]),
    ),
    (
        ENFORCED,
        TURNS,
        "124",
        Status::Stopped,
        Output::End(&[("call #20 this #21 ()\nret 256\nstop budget\n", 1)]),
    ),
    (
        ENFORCED,
        TURNS,
        "443602",
        Status::Stopped,
        Output::End(&[("error #40348 range\nthr #40348\nstop budget\n", 1)]),
    ),
    (
        ENFORCED,
        TURNS,
        "443603",
        Status::Done,
        Output::End(&[("error #40348 range\nthr #40348\ndone\n", 1)]),
    ),
];

#[test]
fn budgets_end_a_long_script_anywhere(rt: HostRuntime) {
    expect_runs(&rt, rt.alloc(), &TURN_ENDS);
}

/// An iterator that gives itself in every turn.
const ENDLESS: Parts = &[
    (
        "function m()\nreturn this\nend\nfunction n()\nreturn r\nend\nlet o = object()\ndefine o[@iterator] = m\ndefine o.next = n\n",
        1,
    ),
    ("let r = object()\ndefine r.value = o\ndo N.f(o)\n", 1),
];

const FLAT: Parts = &[("namespace N { undefined f(sequence<any> q); };", 1)];

/// Sequences in sequences, as many as may be.
const DEEP: Parts = &[
    ("namespace N { undefined f(", 1),
    ("sequence<", 15),
    ("any", 1),
    (">", 15),
    (" q); };", 1),
];

const ENDLESS_RUNS: [Run; 4] = [
    (
        FLAT,
        ENDLESS,
        "1000",
        Status::Stopped,
        Output::End(&[("stop budget\n", 1)]),
    ),
    (
        FLAT,
        ENDLESS,
        MOST,
        Status::Stopped,
        Output::End(&[("stop budget\n", 1)]),
    ),
    (
        DEEP,
        ENDLESS,
        "1000",
        Status::Stopped,
        Output::End(&[("stop budget\n", 1)]),
    ),
    (
        DEEP,
        ENDLESS,
        MOST,
        Status::Stopped,
        Output::End(&[("stop budget\n", 1)]),
    ),
];

#[test]
fn iterators_that_never_end_are_stopped(rt: HostRuntime) {
    expect_runs(&rt, rt.alloc(), &ENDLESS_RUNS);
}

/// A text or a sequence.
const CHOICE: Parts = &[(
    "namespace N { undefined f(DOMString s); undefined f(sequence<long> q); };",
    1,
)];

/// An operation that takes a record of numbers.
const RECORD: Parts = &[(
    "namespace N { undefined f(record<DOMString, long> r); };",
    1,
)];

/// A getter that calls the operation again while its argument is converted.
const CALLS_FROM_METHOD: Parts = &[(
    "function g()\ndo N.f(o)\nend\nlet o = object()\ndefine o[@iterator] get g\ndo N.f(o)\n",
    1,
)];

const CALLS_FROM_PROPERTY: Parts = &[(
    "function g()\ndo N.f(o)\nend\nlet o = object()\ndefine o.a get g\ndo N.f(o)\n",
    1,
)];

/// Properties that a record passes over, each for the unit of its look.
const HIDDEN: Parts = &[
    ("let o = object()\n", 1),
    ("define hidden o[symbol()] = 1\n", 5_000),
    ("do N.f(o)\n", 1),
];

/// An object of 65,536 properties, the first of which deletes the second, hides the third and adds one more.
const KEYS: Parts = &[
    (
        "function g()\ndelete o.a01\ndefine hidden o.a02=1\ndefine o.late=1\nreturn 1\nend\nlet o=object()\n",
        1,
    ),
    ("define o.`a`=1\n", 65_536),
    ("define o.a00 get g\ndo N.f(o)\n", 1),
];

const CONTAINERS: [Run; 4] = [
    (
        CHOICE,
        CALLS_FROM_METHOD,
        MOST,
        Status::Stopped,
        Output::End(&[("stop depth\n", 1)]),
    ),
    (
        RECORD,
        CALLS_FROM_PROPERTY,
        MOST,
        Status::Stopped,
        Output::End(&[("stop depth\n", 1)]),
    ),
    (
        RECORD,
        HIDDEN,
        MOST,
        Status::Done,
        Output::End(&[("op N.f#0 ({})\nret undefined\ndone\n", 1)]),
    ),
    (
        RECORD,
        KEYS,
        MOST,
        Status::Done,
        Output::End(&[("\"sD1\": 1})\nret undefined\ndone\n", 1)]),
    ),
];

#[test]
fn conversions_of_containers_are_deep_and_long(rt: HostRuntime) {
    expect_runs(&rt, rt.alloc(), &CONTAINERS);
}

/// A function of 70,000 parameters and of as many local names behind its `return` is called 100,000 times.
const NAMES: Parts = &[
    ("function f(", 1),
    ("`A`,", 69_999),
    ("Tm1)\nreturn 1\n", 1),
    ("let `a`=1\n", 70_000),
    ("end\nfunction g()\n", 1),
    ("do f()\n", 100),
    ("end\nfunction h()\n", 1),
    ("do g()\n", 100),
    ("end\n", 1),
    ("do h()\n", 10),
];

const OF_NAMES: [Run; 1] = [(
    ANY,
    NAMES,
    MOST,
    Status::Done,
    Output::End(&[(
        "call #20 this undefined ()\nret 1\nret undefined\nret undefined\ndone\n",
        1,
    )]),
)];

#[test]
fn a_call_costs_what_it_gives_and_binds(rt: HostRuntime) {
    expect_runs(&rt, rt.alloc(), &OF_NAMES);
}
