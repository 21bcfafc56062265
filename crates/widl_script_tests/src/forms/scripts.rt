//! Scripts with an iterable object, an iterator that throws, and pairs that grow while they are listed.

use super::Form;

pub const SCRIPTS: [Form; 3] = [
    (
        "
        function g()
            return m.values
        end
        let m = array(7)
        define m[@iterator] get g
        do N.f(m)
        ",
        "
        e0 name m
        e1 member e0.values
        e2 7
        e3 item e2
        e4 array (e3..e4)
        e5 name m
        e6 symbol 0
        e7 member e5[e6]
        e8 name g
        e9 name N
        e10 member e9.f
        e11 name m
        e12 item e11
        e13 call e10 (e12..e13)
        s0 return e1
        s1 item s0
        s2 function f0
        s3 let m = e4
        s4 define e5[e6] get e8
        s5 do e13
        s6 item s2
        s7 item s3
        s8 item s4
        s9 item s5
        top (s6..s10)
        f0 g (s1..s2) local
        names g m values N f
        ",
    ),
    (
        r#"
        function step()
            define it.next = bad
            let r = it.queue
            if r is undefined
                throw "x"
            end
            set it.queue = r.rest
            return r
        end
        function bad()
            throw "bad"
        end
        function start()
            return it
        end
        let it = object()
        define it[@iterator] = start
        define it.next = step
        define it.return = bad
        let second = object()
        define second.value = 2
        let first = object()
        define first.value = 1
        define first.rest = second
        define it.queue = first
        do N.f(it)
        "#,
        "
        e0 name it
        e1 member e0.next
        e2 name bad
        e3 name it
        e4 member e3.queue
        e5 name r
        e6 undefined
        e7 text 120
        e8 name it
        e9 member e8.queue
        e10 name r
        e11 member e10.rest
        e12 name r
        e13 text 98 97 100
        e14 name it
        e15 object
        e16 name it
        e17 symbol 0
        e18 member e16[e17]
        e19 name start
        e20 name it
        e21 member e20.next
        e22 name step
        e23 name it
        e24 member e23.return
        e25 name bad
        e26 object
        e27 name second
        e28 member e27.value
        e29 2
        e30 object
        e31 name first
        e32 member e31.value
        e33 1
        e34 name first
        e35 member e34.rest
        e36 name second
        e37 name it
        e38 member e37.queue
        e39 name first
        e40 name N
        e41 member e40.f
        e42 name it
        e43 item e42
        e44 call e41 (e43..e44)
        s0 define e0.next = e2
        s1 let r = e4
        s2 throw e7
        s3 item s2
        s4 if e5 is e6 (s3..s4) else ()
        s5 set e8.queue = e11
        s6 return e12
        s7 item s0
        s8 item s1
        s9 item s4
        s10 item s5
        s11 item s6
        s12 function f0
        s13 throw e13
        s14 item s13
        s15 function f1
        s16 return e14
        s17 item s16
        s18 function f2
        s19 let it = e15
        s20 define e16[e17] = e19
        s21 define e20.next = e22
        s22 define e23.return = e25
        s23 let second = e26
        s24 define e27.value = e29
        s25 let first = e30
        s26 define e31.value = e33
        s27 define e34.rest = e36
        s28 define e37.queue = e39
        s29 do e44
        s30 item s12
        s31 item s15
        s32 item s18
        s33 item s19
        s34 item s20
        s35 item s21
        s36 item s22
        s37 item s23
        s38 item s24
        s39 item s25
        s40 item s26
        s41 item s27
        s42 item s28
        s43 item s29
        top (s30..s44)
        f0 step (s7..s12) local r
        f1 bad (s14..s15) local
        f2 start (s17..s18) local
        names step it next bad r queue rest start return second value first N f
        ",
    ),
    (
        r#"
        steps P.add#0
            append arg 0 arg 1
        end
        function cb(v, k, o)
            if k is "a"
                do o.add("b", 2)
            end
        end
        let p = new(P)
        do p.add("a", 1)
        do p.forEach(cb)
        "#,
        "
        e0 name k
        e1 text 97
        e2 name o
        e3 member e2.add
        e4 text 98
        e5 2
        e6 item e4
        e7 item e5
        e8 call e3 (e6..e8)
        e9 name P
        e10 new e9 ()
        e11 name p
        e12 member e11.add
        e13 text 97
        e14 1
        e15 item e13
        e16 item e14
        e17 call e12 (e15..e17)
        e18 name p
        e19 member e18.forEach
        e20 name cb
        e21 item e20
        e22 call e19 (e21..e22)
        s0 steps b0
        s1 do e8
        s2 item s1
        s3 if e0 is e1 (s2..s3) else ()
        s4 item s3
        s5 function f0
        s6 let p = e10
        s7 do e17
        s8 do e22
        s9 item s0
        s10 item s5
        s11 item s6
        s12 item s7
        s13 item s8
        top (s9..s14)
        f0 cb, v, k, o (s4..s5) local v k o
        b0 operation false 0 P.add / append arg 0, arg 1
        names cb v k o add p P forEach
        ",
    ),
];
