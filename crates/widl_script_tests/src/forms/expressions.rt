//! Every form of expression.

use super::Form;

pub const EXPRESSIONS: [Form; 5] = [
    (
        r#"
        do N.f(o.a[1], "x")
        "#,
        "
        e0 name N
        e1 member e0.f
        e2 name o
        e3 member e2.a
        e4 1
        e5 member e3[e4]
        e6 text 120
        e7 item e5
        e8 item e6
        e9 call e1 (e7..e9)
        s0 do e9
        s1 item s0
        top (s1..s2)
        names N f o a
        ",
    ),
    (
        r#"
        show undefined
        show null
        show true
        show false
        show NaN
        show Infinity
        show -Infinity
        show 12
        show -12
        show -9007199254740993
        show 18446744073709551616
        show "\ud800\n\"\\"
        show ""
        show @iterator
        show @toPrimitive
        show @toStringTag
        show x
        show this
        show symbol()
        "#,
        "
        e0 undefined
        e1 null
        e2 true
        e3 false
        e4 NaN
        e5 Infinity
        e6 -Infinity
        e7 12
        e8 -12
        e9 -9007199254740992
        e10 18446744073709551616
        e11 text 55296 10 34 92
        e12 text
        e13 symbol 0
        e14 symbol 1
        e15 symbol 2
        e16 name x
        e17 this
        e18 new symbol
        s0 show e0
        s1 show e1
        s2 show e2
        s3 show e3
        s4 show e4
        s5 show e5
        s6 show e6
        s7 show e7
        s8 show e8
        s9 show e9
        s10 show e10
        s11 show e11
        s12 show e12
        s13 show e13
        s14 show e14
        s15 show e15
        s16 show e16
        s17 show e17
        s18 show e18
        s19 item s0
        s20 item s1
        s21 item s2
        s22 item s3
        s23 item s4
        s24 item s5
        s25 item s6
        s26 item s7
        s27 item s8
        s28 item s9
        s29 item s10
        s30 item s11
        s31 item s12
        s32 item s13
        s33 item s14
        s34 item s15
        s35 item s16
        s36 item s17
        s37 item s18
        top (s19..s38)
        names x
        ",
    ),
    (
        "
        do object()
        do object(null)
        do array()
        do array(1, a)
        do call(f, this)
        do call(f, this, 1)
        do new(I)
        let e = new(I, 1, 2)
        ",
        "
        e0 object
        e1 null
        e2 object of e1
        e3 array ()
        e4 1
        e5 name a
        e6 item e4
        e7 item e5
        e8 array (e6..e8)
        e9 name f
        e10 this
        e11 call e9 this e10 ()
        e12 name f
        e13 this
        e14 1
        e15 item e14
        e16 call e12 this e13 (e15..e16)
        e17 name I
        e18 new e17 ()
        e19 name I
        e20 1
        e21 2
        e22 item e20
        e23 item e21
        e24 new e19 (e22..e24)
        s0 do e0
        s1 do e2
        s2 do e3
        s3 do e8
        s4 do e11
        s5 do e16
        s6 do e18
        s7 let e = e24
        s8 item s0
        s9 item s1
        s10 item s2
        s11 item s3
        s12 item s4
        s13 item s5
        s14 item s6
        s15 item s7
        top (s8..s16)
        names a f I e
        ",
    ),
    (
        "do a.b(c)(d)[e].f",
        "
        e0 name a
        e1 member e0.b
        e2 name c
        e3 item e2
        e4 call e1 (e3..e4)
        e5 name d
        e6 item e5
        e7 call e4 (e6..e7)
        e8 name e
        e9 member e7[e8]
        e10 member e9.f
        s0 do e10
        s1 item s0
        top (s1..s2)
        names a b c d e f
        ",
    ),
    (
        "do f(g(1), array(2), object(h)())[a[b].c]",
        "
        e0 name f
        e1 name g
        e2 1
        e3 item e2
        e4 call e1 (e3..e4)
        e5 2
        e6 item e5
        e7 array (e6..e7)
        e8 name h
        e9 object of e8
        e10 call e9 ()
        e11 item e4
        e12 item e7
        e13 item e10
        e14 call e0 (e11..e14)
        e15 name a
        e16 name b
        e17 member e15[e16]
        e18 member e17.c
        e19 member e14[e18]
        s0 do e19
        s1 item s0
        top (s1..s2)
        names f g h a b c
        ",
    ),
];
