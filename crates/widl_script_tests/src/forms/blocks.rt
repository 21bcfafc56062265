//! Blocks that are empty, blocks in blocks, functions, and constants in steps blocks.

use super::Form;

pub const BLOCKS: [Form; 5] = [
    (
        "
        try
        catch e
        end
        if 1 is 2
        end
        if 3 is 4
        else
        end
        function f()
        end
        steps N.f#0
        end
        ",
        "
        e0 1
        e1 2
        e2 3
        e3 4
        s0 try () catch e ()
        s1 if e0 is e1 () else ()
        s2 if e2 is e3 () else ()
        s3 function f0
        s4 steps b0
        s5 item s0
        s6 item s1
        s7 item s2
        s8 item s3
        s9 item s4
        top (s5..s10)
        f0 f () local
        b0 operation false 0 N.f
        names e f
        ",
    ),
    (
        "
        try
            show 1
            if a is 2
                show 3
            else
                try
                    throw 4
                    show 5
                catch b
                    show b
                end
                show 6
            end
            if c is c
                do 7
            end
        catch d
            if d is null
                try
                    do 8
                catch e
                end
            else
                throw d
            end
        end
        show 9
        ",
        "
        e0 1
        e1 name a
        e2 2
        e3 3
        e4 4
        e5 5
        e6 name b
        e7 6
        e8 name c
        e9 name c
        e10 7
        e11 name d
        e12 null
        e13 8
        e14 name d
        e15 9
        s0 show e0
        s1 show e3
        s2 item s1
        s3 throw e4
        s4 show e5
        s5 item s3
        s6 item s4
        s7 show e6
        s8 item s7
        s9 try (s5..s7) catch b (s8..s9)
        s10 show e7
        s11 item s9
        s12 item s10
        s13 if e1 is e2 (s2..s3) else (s11..s13)
        s14 do e10
        s15 item s14
        s16 if e8 is e9 (s15..s16) else ()
        s17 item s0
        s18 item s13
        s19 item s16
        s20 do e13
        s21 item s20
        s22 try (s21..s22) catch e ()
        s23 item s22
        s24 throw e14
        s25 item s24
        s26 if e11 is e12 (s23..s24) else (s25..s26)
        s27 item s26
        s28 try (s17..s20) catch d (s27..s28)
        s29 show e15
        s30 item s28
        s31 item s29
        top (s30..s32)
        names a b c d e
        ",
    ),
    (
        "
        function f(a, b)
            let c = this
            try
                return a.b
            catch d
                let a = 1
                throw d
            end
        end
        function g()
            return slot
        end
        function h(x, y, x)
            do f(x)
        end
        let k = 2
        do f(g, h)
        ",
        "
        e0 this
        e1 name a
        e2 member e1.b
        e3 1
        e4 name d
        e5 name slot
        e6 name f
        e7 name x
        e8 item e7
        e9 call e6 (e8..e9)
        e10 2
        e11 name f
        e12 name g
        e13 name h
        e14 item e12
        e15 item e13
        e16 call e11 (e14..e16)
        s0 let c = e0
        s1 return e2
        s2 item s1
        s3 let a = e3
        s4 throw e4
        s5 item s3
        s6 item s4
        s7 try (s2..s3) catch d (s5..s7)
        s8 item s0
        s9 item s7
        s10 function f0
        s11 return e5
        s12 item s11
        s13 function f1
        s14 do e9
        s15 item s14
        s16 function f2
        s17 let k = e10
        s18 do e16
        s19 item s10
        s20 item s13
        s21 item s16
        s22 item s17
        s23 item s18
        top (s19..s24)
        f0 f, a, b (s8..s10) local a b c d
        f1 g (s12..s13) local
        f2 h, x, y, x (s15..s16) local x y
        names f a b c d g slot h x y k
        ",
    ),
    (
        "
        function outer(a)
            function inner(b)
                let c = a
            end
            let d = inner
        end
        ",
        "
        e0 name a
        e1 name inner
        s0 let c = e0
        s1 item s0
        s2 function f0
        s3 let d = e1
        s4 item s2
        s5 item s3
        s6 function f1
        s7 item s6
        top (s7..s8)
        f0 inner, b (s1..s2) local b c
        f1 outer, a (s4..s6) local a d
        names outer a inner b c d
        ",
    ),
    (
        r#"
        steps N.f#0
            return literal null
            return literal undefined
            return literal true
            return literal false
        end
        steps N.f#1
            return literal 0x1F
            return literal 017
            return literal -0
            return literal "a\n"
            return literal []
            return literal {}
        end
        show literal
        steps N.g#0
            throw undefined
            throw null
            throw true
            throw false
        end
        steps N.g#1
            throw NaN
            throw Infinity
            throw -Infinity
            throw -9007199254740993
            throw "a\n"
        end
        "#,
        "
        e0 name literal
        s0 steps b0
        s1 steps b1
        s2 show e0
        s3 steps b2
        s4 steps b3
        s5 item s0
        s6 item s1
        s7 item s2
        s8 item s3
        s9 item s4
        top (s5..s10)
        b0 operation false 0 N.f / return null / return undefined / return true / return false
        b1 operation false 1 N.f / return 31 / return 15 / return 0 / return text 97 92 110 / return [] / return {}
        b2 operation false 0 N.g / throw undefined / throw null / throw true / throw false
        b3 operation false 1 N.g / throw NaN / throw Infinity / throw -Infinity / throw -9007199254740992 / throw text 97 10
        names literal
        ",
    ),
];
