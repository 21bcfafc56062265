//! Statements of one line.

use super::Form;

/// A member that is set, defined or deleted has a node of its own too. In the second script names are spelled like words, and members
/// like keywords.
pub const LINES: [Form; 2] = [
    (
        "
        let a = 1
        do a
        show a
        set a.b = 2
        set a[b] = 3
        define a.b = 4
        define hidden o[@iterator] = f
        define o.b get f
        define o.a get f set g
        delete a.b
        delete f(a)[0]
        throw a
        ",
        "
        e0 1
        e1 name a
        e2 name a
        e3 name a
        e4 member e3.b
        e5 2
        e6 name a
        e7 name b
        e8 member e6[e7]
        e9 3
        e10 name a
        e11 member e10.b
        e12 4
        e13 name o
        e14 symbol 0
        e15 member e13[e14]
        e16 name f
        e17 name o
        e18 member e17.b
        e19 name f
        e20 name o
        e21 member e20.a
        e22 name f
        e23 name g
        e24 name a
        e25 member e24.b
        e26 name f
        e27 name a
        e28 item e27
        e29 call e26 (e28..e29)
        e30 0
        e31 member e29[e30]
        e32 name a
        s0 let a = e0
        s1 do e1
        s2 show e2
        s3 set e3.b = e5
        s4 set e6[e7] = e9
        s5 define e10.b = e12
        s6 define hidden e13[e14] = e16
        s7 define e17.b get e19
        s8 define e20.a get e22 set e23
        s9 delete e24.b
        s10 delete e29[e30]
        s11 throw e32
        s12 item s0
        s13 item s1
        s14 item s2
        s15 item s3
        s16 item s4
        s17 item s5
        s18 item s6
        s19 item s7
        s20 item s8
        s21 item s9
        s22 item s10
        s23 item s11
        top (s12..s24)
        names a b o f g
        ",
    ),
    (
        "
        let arg = slot
        do clear.end(invoke, append).if
        set o.get = static.set
        define hidden o.hidden = literal.null
        show constructor.this[toString.undefined]
        define o.get get f.get set f.set
        ",
        "
        e0 name slot
        e1 name clear
        e2 member e1.end
        e3 name invoke
        e4 name append
        e5 item e3
        e6 item e4
        e7 call e2 (e5..e7)
        e8 member e7.if
        e9 name o
        e10 member e9.get
        e11 name static
        e12 member e11.set
        e13 name o
        e14 member e13.hidden
        e15 name literal
        e16 member e15.null
        e17 name constructor
        e18 member e17.this
        e19 name toString
        e20 member e19.undefined
        e21 member e18[e20]
        e22 name o
        e23 member e22.get
        e24 name f
        e25 member e24.get
        e26 name f
        e27 member e26.set
        s0 let arg = e0
        s1 do e8
        s2 set e9.get = e12
        s3 define hidden e13.hidden = e16
        s4 show e21
        s5 define e22.get get e25 set e27
        s6 item s0
        s7 item s1
        s8 item s2
        s9 item s3
        s10 item s4
        s11 item s5
        top (s6..s12)
        names arg slot clear end invoke append if o get static set hidden literal null constructor this toString undefined f
        ",
    ),
];
