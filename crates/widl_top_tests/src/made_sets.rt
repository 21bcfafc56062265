//! Sets that are made of many parts: at the limits of rules and just beyond them, and such that say much in few bytes or one thing
//! in many. Each has its answer, and none is too much for the memory of a machine.

use crate::made::Parts;
use crate::shared::{Check, expect_checks};
use widl_top::Status;

const ACCEPTED: Parts = &[("accepted\n", 1)];

/// Typedefs of which each is a sequence of the one before: the rule is broken by the 16th, eight bytes behind those that are kept.
const LEVELS: [Check; 2] = [
    (
        &[
            ("typedef long A0; ", 1),
            ("typedef sequence<A`n`> A`m`; ", 15),
        ],
        Status::Done,
        ACCEPTED,
    ),
    (
        &[
            ("typedef long A0; ", 1),
            ("typedef sequence<A`n`> A`m`; ", 40),
        ],
        Status::Refused,
        &[("refused 11 0 411\n", 1)],
    ),
];

/// A chain of 20,000 typedefs of a type with an annotation. The other annotation is refused at its name.
const TYPEDEFS: [Check; 2] = [
    (
        &[
            ("typedef [Clamp] long A0;", 1),
            (" typedef A`n` A`m`;", 20_000),
        ],
        Status::Done,
        ACCEPTED,
    ),
    (
        &[
            ("typedef [Clamp] long A0;", 1),
            (" typedef A`n` A`m`;", 20_000),
            (" typedef [EnforceRange] A20000 B;", 1),
        ],
        Status::Refused,
        &[("refused 29 0 437818\n", 1)],
    ),
];

/// A mixin of 1,000 operations, and 999 interfaces. Where all but one include it, so many members break no rule of merging: the one
/// that is broken stands after them. One more includes statement is too many.
const MILLION: [Check; 2] = [
    (
        &[
            ("interface mixin M { ", 1),
            ("undefined f`n`(); ", 1_000),
            ("}; ", 1),
            ("interface A`n` { }; A`n` includes M; ", 998),
            ("interface A998 { }; partial interface Z { };", 1),
        ],
        Status::Refused,
        &[("refused 3 0 54657\n", 1)],
    ),
    (
        &[
            ("interface mixin M { ", 1),
            ("undefined f`n`(); ", 1_000),
            ("}; ", 1),
            ("interface A`n` { }; A`n` includes M; ", 998),
            ("interface A998 { }; A998 includes M;", 1),
        ],
        Status::Refused,
        &[("refused 48 0 54639\n", 1)],
    ),
];

/// 64 overloads of each kind are kept, and of 65 the last is refused at its name.
const OVERLOADS: [Check; 8] = [
    (
        &[
            ("interface I { undefined f(); ", 1),
            ("undefined f(any b`any 0+1`); ", 63),
            ("static undefined f(); ", 1),
            ("static undefined f(any b`any 0+1`); ", 63),
            ("};", 1),
        ],
        Status::Done,
        ACCEPTED,
    ),
    (
        &[
            ("interface I { undefined f(); ", 1),
            ("undefined f(any b`any 0+1`); ", 63),
            ("static undefined f(); ", 1),
            ("static undefined f(any b`any 0+1`); ", 64),
            ("};", 1),
        ],
        Status::Refused,
        &[("refused 44 0 37033\n", 1)],
    ),
    (
        &[
            ("interface I { undefined f(); ", 1),
            ("undefined f(any b`any 0+1`); ", 63),
            ("};", 1),
        ],
        Status::Done,
        ACCEPTED,
    ),
    (
        &[
            ("interface I { undefined f(); ", 1),
            ("undefined f(any b`any 0+1`); ", 64),
            ("};", 1),
        ],
        Status::Refused,
        &[("refused 44 0 18301\n", 1)],
    ),
    (
        &[
            ("namespace N { undefined f(); ", 1),
            ("undefined f(any b`any 0+1`); ", 63),
            ("};", 1),
        ],
        Status::Done,
        ACCEPTED,
    ),
    (
        &[
            ("namespace N { undefined f(); ", 1),
            ("undefined f(any b`any 0+1`); ", 64),
            ("};", 1),
        ],
        Status::Refused,
        &[("refused 44 0 18301\n", 1)],
    ),
    (
        &[
            ("interface I { constructor(); ", 1),
            ("constructor(any b`any 0+1`); ", 63),
            ("};", 1),
        ],
        Status::Done,
        ACCEPTED,
    ),
    (
        &[
            ("interface I { constructor(); ", 1),
            ("constructor(any b`any 0+1`); ", 64),
            ("};", 1),
        ],
        Status::Refused,
        &[("refused 44 0 18291\n", 1)],
    ),
];

/// 64 arguments are kept, and the 65th is refused at its name.
const ARGUMENTS: [Check; 2] = [
    (
        &[
            ("interface I { undefined f(", 1),
            ("long a`n`, ", 63),
            ("long b); };", 1),
        ],
        Status::Done,
        ACCEPTED,
    ),
    (
        &[
            ("interface I { undefined f(", 1),
            ("long a`n`, ", 64),
            ("long b, long c); };", 1),
        ],
        Status::Refused,
        &[("refused 45 0 661\n", 1)],
    ),
];

/// Dictionaries, each but the first with a member of the one before: the last one of a longer chain is refused at its name.
const CHAIN: [Check; 2] = [
    (
        &[
            ("dictionary D0 { };", 1),
            (" dictionary D`m` { D`n` a; };", 255),
        ],
        Status::Done,
        ACCEPTED,
    ),
    (
        &[
            ("dictionary D0 { };", 1),
            (" dictionary D`m` { D`n` a; };", 256),
        ],
        Status::Refused,
        &[("refused 47 0 7207\n", 1)],
    ),
];

#[test]
fn sets_are_kept_up_to_their_limits(rt: HostRuntime) {
    let alloc = rt.alloc();
    expect_checks(&rt, alloc, &LEVELS);
    expect_checks(&rt, alloc, &TYPEDEFS);
    expect_checks(&rt, alloc, &MILLION);
    expect_checks(&rt, alloc, &OVERLOADS);
    expect_checks(&rt, alloc, &ARGUMENTS);
    expect_checks(&rt, alloc, &CHAIN);
}

/// A chain of typedefs with more `?`s than any list of definitions keeps.
const QUESTIONS: Parts = &[
    (
        "typedef long? A; typedef A? B; typedef B? C; typedef C? D; typedef D? E; typedef E? F; ",
        1,
    ),
    (
        "typedef F? G; typedef G? H; typedef H? I; typedef I? J; typedef J? K; typedef K? L; ",
        1,
    ),
    (
        "typedef L? M; typedef M? N; typedef N? O; typedef O? P; typedef P? Q; typedef Q? R; ",
        1,
    ),
    ("namespace S { undefined f(R a); };", 1),
];

/// A long name, which many types lead to.
const LONG_NAME: Parts = &[
    ("typedef long ", 1),
    ("T", 100_000),
    ("; typedef ", 1),
    ("T", 100_000),
    (" U; namespace N {\n", 1),
    ("undefined f`n`(U a);\n", 5_000),
    ("};", 1),
];

/// A long text, which each member of a long union might have.
const LONG_TEXT: Parts = &[
    ("interface I`n` {};\n", 20_000),
    ("dictionary D { (", 1),
    ("I`n` or ", 20_000),
    ("DOMString) a = \"", 1),
    ("x", 80_000),
    ("\"; };", 1),
];

/// A type that doubles with each typedef.
const DOUBLED: Parts = &[
    ("typedef DOMString T0;\n", 1),
    ("typedef (sequence<T0> or record<DOMString, T0>) T1;\n", 1),
    ("typedef (sequence<T1> or record<DOMString, T1>) T2;\n", 1),
    ("typedef (sequence<T2> or record<DOMString, T2>) T3;\n", 1),
    ("typedef (sequence<T3> or record<DOMString, T3>) T4;\n", 1),
    ("typedef (sequence<T4> or record<DOMString, T4>) T5;\n", 1),
    ("typedef (sequence<T5> or record<DOMString, T5>) T6;\n", 1),
    ("typedef (sequence<T6> or record<DOMString, T6>) T7;\n", 1),
    ("namespace N {\n", 1),
    ("undefined f`n`(T7 a);\n", 4_000),
    ("};", 1),
];

/// Four typedefs of unions of 100 sequences of the one before, which mean 202,020,201 types.
const HUNDREDS: Parts = &[
    ("typedef long T0;\n", 1),
    ("typedef (sequence<T0>", 1),
    (" or sequence<T0>", 99),
    (") T1;\n", 1),
    ("typedef (sequence<T1>", 1),
    (" or sequence<T1>", 99),
    (") T2;\n", 1),
    ("typedef (sequence<T2>", 1),
    (" or sequence<T2>", 99),
    (") T3;\n", 1),
    ("typedef (sequence<T3>", 1),
    (" or sequence<T3>", 99),
    (") T4;\n", 1),
];

/// The same of 40, which mean 5,251,281.
const FORTIES: Parts = &[
    ("typedef long T0;\n", 1),
    ("typedef (sequence<T0>", 1),
    (" or sequence<T0>", 39),
    (") T1;\n", 1),
    ("typedef (sequence<T1>", 1),
    (" or sequence<T1>", 39),
    (") T2;\n", 1),
    ("typedef (sequence<T2>", 1),
    (" or sequence<T2>", 39),
    (") T3;\n", 1),
    ("typedef (sequence<T3>", 1),
    (" or sequence<T3>", 39),
    (") T4;\n", 1),
];

/// Three of 1,000, which mean 2,002,002,001.
const THOUSANDS: Parts = &[
    ("typedef long T0;\n", 1),
    ("typedef (sequence<T0>", 1),
    (" or sequence<T0>", 999),
    (") T1;\n", 1),
    ("typedef (sequence<T1>", 1),
    (" or sequence<T1>", 999),
    (") T2;\n", 1),
    ("typedef (sequence<T2>", 1),
    (" or sequence<T2>", 999),
    (") T3;\n", 1),
];

/// Eight million members, all of which are mixed in.
const MIXED_IN: Parts = &[
    ("interface mixin M {\n", 1),
    ("undefined o`n`();\n", 1_000),
    ("};\n", 1),
    ("interface I`n` {};\nI`n` includes M;\n", 8_001),
];

/// A long name, which is mixed into many interfaces.
const LONG_OPERATION: Parts = &[
    ("interface mixin M { undefined ", 1),
    ("o", 400_000),
    ("(); };\n", 1),
    ("interface I`n` {};\nI`n` includes M;\n", 16_000),
];

/// An overload with an ellipsis, which has a tuple of each length that the other one has.
const ELLIPSIS: Parts = &[
    ("namespace N { undefined f(any... a); undefined f(any a", 1),
    (", any a`n`", 29_999),
    ("); };", 1),
];

/// A file of 1 MiB, nested as deep as one can be: the arguments of extended attributes have no limit, and need no stack of the program's.
const ATTRIBUTES: Parts = &[("[A(", 349_525)];

/// The sets, their statuses and what is written.
const SIZES: [Check; 11] = [
    (
        ATTRIBUTES,
        Status::Refused,
        &[("refused syntax 0 1048575\n", 1)],
    ),
    (QUESTIONS, Status::Refused, &[("refused 21 0 26\n", 1)]),
    (LONG_NAME, Status::Done, ACCEPTED),
    (LONG_TEXT, Status::Done, ACCEPTED),
    (DOUBLED, Status::Done, ACCEPTED),
    (HUNDREDS, Status::Refused, &[("refused 24 0 25\n", 1)]),
    (FORTIES, Status::Refused, &[("refused 24 0 25\n", 1)]),
    (THOUSANDS, Status::Refused, &[("refused 24 0 25\n", 1)]),
    (MIXED_IN, Status::Refused, &[("refused 48 0 53640\n", 1)]),
    (LONG_OPERATION, Status::Done, ACCEPTED),
    (
        ELLIPSIS,
        Status::Refused,
        &[("refused 35 0 47 other 0 24\n", 1)],
    ),
];

#[test]
fn sets_of_any_size_have_their_answer(rt: HostRuntime) {
    expect_checks(&rt, rt.alloc(), &SIZES);
}
