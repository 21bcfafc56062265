//! Which sources and literals fit the result of an operation.

use super::{accepted_set, expect_break};
use std::alloc::Global;
use std::process::Abort;

/// Returns sources from operations, and compares whether they fit the results.
fn expect_fits(rt: &impl Abort, alloc: Global, file: &str, rows: &[(&str, &str, bool)]) {
    let list = accepted_set(rt, alloc, file.as_bytes());
    for (operation, source, fits) in rows {
        let script = format!(in alloc; "steps N.{operation}#0\nreturn {source}\nend");
        let script = script.expect(rt, "memory");
        let text = if *fits { "read" } else { "S13 2 8" };
        expect_break(rt, alloc, &list, script.as_bytes(), text);
    }
}

/// An operation for each kind of type.
const KINDS: &str =
    "dictionary D { long a; }; dictionary R { required long b; }; dictionary S : R { long c; }; enum E { \"a\", \"\" }; callback C = any (); callback interface L { any l(); }; namespace N { any any_(); undefined undefined_(); boolean boolean_(); octet octet_(); byte byte_(); long long long_(); unsigned long long ulong(); DOMString text(); USVString usv(); ByteString bytes(); E e(); sequence<long> list(); record<DOMString, long> record_(); object object_(); Promise<any> promise(); C c(); C? maybe_c(); L l(); D d(); R r(); S s(); octet? maybe_octet(); sequence<long>? maybe_list(); (octet or DOMString) union_(); (octet or DOMString)? maybe_union(); (octet? or DOMString) inner(); (D or boolean) with_d(); (R or boolean) with_r(); (boolean or (E or sequence<long>)) nested(); };";

const LITERALS: [(&str, &str, bool); 71] = [
    ("any_", "literal null", true),
    ("any_", "literal undefined", true),
    ("any_", "literal true", false),
    ("any_", "literal 1", false),
    ("any_", "literal \"a\"", false),
    ("any_", "literal []", false),
    ("any_", "literal {}", false),
    ("undefined_", "literal undefined", false),
    ("undefined_", "literal null", false),
    ("boolean_", "literal true", true),
    ("boolean_", "literal false", true),
    ("boolean_", "literal 0", false),
    ("boolean_", "literal null", false),
    ("octet_", "literal 255", true),
    ("octet_", "literal 256", false),
    ("octet_", "literal 0xFF", true),
    ("octet_", "literal 0377", true),
    ("octet_", "literal 0400", false),
    ("octet_", "literal -0", true),
    ("octet_", "literal -1", false),
    ("octet_", "literal true", false),
    ("octet_", "literal \"1\"", false),
    ("byte_", "literal -128", true),
    ("byte_", "literal -0x81", false),
    ("byte_", "literal 128", false),
    ("long_", "literal -9223372036854775808", true),
    ("long_", "literal 9223372036854775808", false),
    ("ulong", "literal 18446744073709551615", true),
    ("ulong", "literal 18446744073709551616", false),
    ("text", "literal \"\"", true),
    ("text", "literal \"\u{1F600}\"", true),
    ("text", "literal null", false),
    ("usv", "literal \"a\"", true),
    ("bytes", "literal \"\u{FF}\"", true),
    ("bytes", "literal \"\u{100}\"", false),
    ("e", "literal \"a\"", true),
    ("e", "literal \"\"", true),
    ("e", "literal \"A\"", false),
    ("e", "literal null", false),
    ("list", "literal []", true),
    ("list", "literal {}", false),
    ("list", "literal null", false),
    ("record_", "literal {}", false),
    ("object_", "literal null", false),
    ("object_", "literal {}", false),
    ("promise", "literal undefined", false),
    ("c", "literal null", false),
    ("maybe_c", "literal null", true),
    ("l", "literal null", false),
    ("d", "literal {}", true),
    ("d", "literal []", false),
    ("d", "literal null", false),
    ("r", "literal {}", false),
    ("s", "literal {}", false),
    ("maybe_octet", "literal null", true),
    ("maybe_octet", "literal 255", true),
    ("maybe_octet", "literal 256", false),
    ("maybe_octet", "literal undefined", false),
    ("maybe_list", "literal []", true),
    ("union_", "literal 255", true),
    ("union_", "literal 256", false),
    ("union_", "literal \"a\"", true),
    ("union_", "literal null", false),
    ("maybe_union", "literal null", true),
    ("maybe_union", "literal 1", true),
    ("inner", "literal null", true),
    ("with_d", "literal {}", true),
    ("with_r", "literal {}", false),
    ("with_r", "literal true", true),
    ("nested", "literal []", true),
    ("nested", "literal \"b\"", false),
];

/// Operations with arguments of their results' types and of others.
const TYPES: &str =
    "dictionary D { required long a; }; dictionary S : D { }; enum E { \"a\" }; callback C = any (); typedef [Clamp] long T; namespace N { any any_(any a, DOMString b, C c, object d); undefined undefined_(any a); long? maybe(long a, [Clamp] long b, [EnforceRange] long? c, T d, short e, DOMString f, unsigned long g); long number(long? a, [EnforceRange] long b, T c, unsigned long d, any e); DOMString text([LegacyNullToEmptyString] DOMString a, USVString b, E c, ByteString d, DOMString? e); E e(E a, DOMString b); sequence<long> list(sequence<[Clamp] long> a, sequence<T> b, sequence<long?> c, sequence<octet> d, sequence<long>? e); sequence<long>? maybe_list(sequence<[Clamp] long> a, sequence<long?> b); sequence<long?> nullables(sequence<long> a); record<DOMString, long> record_(record<DOMString, T> a, record<USVString, long> b); (long or DOMString) union_((long or DOMString) a, long b, (long or DOMString)? c, (long or boolean) d); (long or DOMString)? maybe_union((long or DOMString) a, DOMString b); object object_(object a, C b); C? c(C a, C? b); D d(D a, S b); Promise<long> promise(Promise<long> a, Promise<any> b, long c); };";

const SOURCES: [(&str, &str, bool); 49] = [
    ("any_", "arg 0", true),
    ("any_", "arg 1", false),
    ("any_", "arg 2", false),
    ("any_", "arg 3", false),
    ("undefined_", "arg 0", false),
    ("maybe", "arg 0", true),
    ("maybe", "arg 1", true),
    ("maybe", "arg 2", true),
    ("maybe", "arg 3", true),
    ("maybe", "arg 4", false),
    ("maybe", "arg 5", false),
    ("maybe", "arg 6", false),
    ("number", "arg 0", false),
    ("number", "arg 1", true),
    ("number", "arg 2", true),
    ("number", "arg 3", false),
    ("number", "arg 4", false),
    ("text", "arg 0", true),
    ("text", "arg 1", false),
    ("text", "arg 2", false),
    ("text", "arg 3", false),
    ("text", "arg 4", false),
    ("e", "arg 0", true),
    ("e", "arg 1", false),
    ("list", "arg 0", true),
    ("list", "arg 1", true),
    ("list", "arg 2", false),
    ("list", "arg 3", false),
    ("list", "arg 4", false),
    ("maybe_list", "arg 0", true),
    ("maybe_list", "arg 1", false),
    ("nullables", "arg 0", false),
    ("record_", "arg 0", true),
    ("record_", "arg 1", false),
    ("union_", "arg 0", true),
    ("union_", "arg 1", false),
    ("union_", "arg 2", false),
    ("union_", "arg 3", false),
    ("maybe_union", "arg 0", true),
    ("maybe_union", "arg 1", false),
    ("object_", "arg 0", true),
    ("object_", "arg 1", false),
    ("c", "arg 0", true),
    ("c", "arg 1", true),
    ("d", "arg 0", true),
    ("d", "arg 1", false),
    ("promise", "arg 0", true),
    ("promise", "arg 1", false),
    ("promise", "arg 2", false),
];

#[test]
fn what_would_do_as_a_default_value_or_is_of_the_type_fits(rt: HostRuntime) {
    expect_fits(&rt, rt.alloc(), KINDS, &LITERALS);
    expect_fits(&rt, rt.alloc(), TYPES, &SOURCES);
}
