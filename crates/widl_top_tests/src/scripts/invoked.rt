//! What lines of steps blocks call, and names that definitions have and scripts haven't.

use super::expect_breaks;

const OTHER_DEFINITIONS: &str =
    "dictionary D { }; enum E { \"a\" }; callback C = undefined (); callback interface L { undefined l(); }; typedef long T; interface mixin M { }; namespace N { };";

const NO_OWNERS: [(&str, &str); 8] = [
    ("do N", "read"),
    ("do D", "S5 1 4"),
    ("do E", "S5 1 4"),
    ("do C", "S5 1 4"),
    ("do L", "S5 1 4"),
    ("do T", "S5 1 4"),
    ("do M", "S5 1 4"),
    (
        "function D(E, C)\nend\nfunction L()\nend\nfunction M()\nend",
        "read",
    ),
];

const CALLBACKS: &str =
    "callback C = any (any a, optional any b); callback V = undefined (any a, any... b); callback interface L { long l(any a); }; namespace N { any f(C c, optional C? d, C... e); boolean a-b(C c, C... d); undefined v(V v, L l, long n); long? l(V v, L l); };";

const INVOKED: [(&str, &str); 33] = [
    ("steps N.f#0\ninvoke arg 0 ()\nend", "S14 2 1"),
    ("steps N.f#0\ninvoke arg 0 (literal null)\nend", "read"),
    (
        "steps N.f#0\ninvoke arg 0 (literal null, literal undefined)\nend",
        "read",
    ),
    (
        "steps N.f#0\ninvoke arg 0 (literal null, literal null, literal 1)\nend",
        "S14 2 1",
    ),
    ("steps N.f#0\ninvoke arg 0 (arg 0)\nend", "S13 2 15"),
    (
        "steps N.f#0\ninvoke arg 0 (literal null, literal 1)\nend",
        "S13 2 29",
    ),
    (
        "steps N.f#0\ninvoke arg 0 (literal {}, literal [])\nend",
        "S13 2 15",
    ),
    (
        "steps N.f#0\ninvoke arg 0 (literal 1, this)\nend",
        "S13 2 15",
    ),
    (
        "steps N.f#0\ninvoke arg 0 (this, literal 1)\nend",
        "S11 2 15",
    ),
    (
        "steps N.f#0\ninvoke arg 0 (slot x, literal 1)\nend",
        "S12 2 20",
    ),
    ("steps N.f#0\ninvoke arg 0 (arg 9, slot x)\nend", "S11 2 15"),
    ("steps N.f#0\ninvoke arg 1 (literal null)\nend", "S14 2 1"),
    ("steps N.f#0\ninvoke arg 2 (literal null)\nend", "S11 2 8"),
    ("steps N.f#0\ninvoke arg 2 ()\nend", "S14 2 1"),
    ("steps N.f#0\ninvoke arg 3 ()\nend", "S11 2 8"),
    (
        "steps N.f#0\nreturn invoke arg 0 (literal null)\nend",
        "read",
    ),
    ("steps N.f#0\nreturn invoke arg 2 ()\nend", "S14 2 8"),
    (
        "steps N.f#0\nreturn invoke arg 2 (literal 1)\nend",
        "S11 2 15",
    ),
    ("steps N.f#0\nreturn invoke arg 3 (this)\nend", "S11 2 15"),
    ("steps N.a-b#0\ninvoke arg 0 (literal null)\nend", "read"),
    (
        "steps N.a-b#0\nreturn invoke arg 0 (literal null)\nend",
        "S13 2 8",
    ),
    ("steps N.a-b#0\nreturn invoke arg 0 ()\nend", "S13 2 8"),
    (
        "steps N.a-b#0\nreturn invoke arg 1 (literal null)\nend",
        "S13 2 8",
    ),
    ("steps N.v#0\ninvoke arg 0 ()\nend", "S14 2 1"),
    (
        "steps N.v#0\nreturn invoke arg 0 (literal null)\nend",
        "read",
    ),
    (
        "steps N.v#0\ninvoke arg 0 (literal null, literal null, literal null)\nend",
        "read",
    ),
    (
        "steps N.v#0\ninvoke arg 0 (literal null, literal null, literal 1)\nend",
        "S13 2 43",
    ),
    ("steps N.v#0\ninvoke arg 1 (literal null)\nend", "read"),
    (
        "steps N.v#0\ninvoke arg 1 (literal null, literal null)\nend",
        "S14 2 1",
    ),
    (
        "steps N.v#0\nreturn invoke arg 1 (literal null)\nend",
        "S13 2 8",
    ),
    ("steps N.v#0\ninvoke arg 2 ()\nend", "S14 2 1"),
    (
        "steps N.l#0\nreturn invoke arg 1 (literal null)\nend",
        "read",
    ),
    (
        "steps N.l#0\nreturn invoke arg 0 (literal null)\nend",
        "S13 2 8",
    ),
];

#[test]
fn callbacks_are_called_with_what_they_take_and_have_no_names(rt: HostRuntime) {
    expect_breaks(&rt, rt.alloc(), OTHER_DEFINITIONS, &NO_OWNERS);
    expect_breaks(&rt, rt.alloc(), CALLBACKS, &INVOKED);
}
