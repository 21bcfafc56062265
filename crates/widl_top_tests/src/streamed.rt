//! What runs write where the sink takes little a call, and where a call of the sink fails.

use crate::made::{Parts, made};
use crate::shared::{answer, files_of, sink_of, words_of};
use std::alloc::Global;
use std::process::Abort;
use widl_top::{Status, SureFolder};

const FRAGMENT: Parts = &[("namespace N { undefined f(octet a); };", 1)];

const DICTIONARIES: Parts = &[(
    "dictionary B { long b = 1; }; dictionary D : B { long c = 9; long a; };
namespace N { undefined f(optional D d = {}); };",
    1,
)];

/// The getter of `b`, which is read first, takes `a` away and changes `c`.
const CHANGES: Parts = &[(
    "function g()
  delete this.a
  define this.c = 5
  return 2
end
let o = object()
define o.a = 1
define o.c = 3
define o.b get g
do N.f(o)
",
    1,
)];

const CHANGED: Parts = &[(
    "call #19 this #18 (#21)
get #21 \"b\"
call #20 this #21 ()
ret 2
get #21 \"a\"
get #21 \"c\"
op N.f#0 (D{b: 2, c: 5})
ret undefined
done
",
    1,
)];

/// A run, and the calls of sinks that take its trace.
pub struct Torn {
    pub fragment: Parts,
    pub budget: &'static str,
    pub script: Parts,
    /// The status where no call of the sink fails.
    pub status: Status,
    pub trace: Parts,
    /// How many bytes a sink takes a call, and how many calls take the trace: each but the last takes as many.
    pub sinks: &'static [(u32, u32)],
}

const CALLS: Parts = &[("do N.f(300)\n", 12_000)];

const CALL: &str = "call #19 this #18 (300)\nop N.f#0 (44)\nret undefined\n";

const DONE: Parts = &[(CALL, 12_000), ("done\n", 1)];

const STOPPED: Parts = &[(CALL, 12_000), ("stop budget\n", 1)];

const RUNS: [Torn; 4] = [
    Torn {
        fragment: DICTIONARIES,
        budget: "100000",
        script: CHANGES,
        status: Status::Done,
        trace: CHANGED,
        sinks: &[(1, 131), (65_536, 1)],
    },
    Torn {
        fragment: FRAGMENT,
        budget: "60000",
        script: CALLS,
        status: Status::Done,
        trace: DONE,
        sinks: &[(65_536, 10)],
    },
    // 12,000 statements and 36,000 lines before the last one
    Torn {
        fragment: FRAGMENT,
        budget: "48001",
        script: CALLS,
        status: Status::Done,
        trace: DONE,
        sinks: &[(65_536, 10)],
    },
    Torn {
        fragment: FRAGMENT,
        budget: "48000",
        script: CALLS,
        status: Status::Stopped,
        trace: STOPPED,
        sinks: &[(65_536, 10)],
    },
];

/// The status of a run, and what the sink holds, where it takes so many bytes a call and the call after so many fails. The trace
/// takes this number of calls.
fn expect_torn(
    rt: &impl Abort,
    alloc: Global,
    run: &Torn,
    trace: &[u8],
    (most, all): (u32, u32),
    calls: u32,
) {
    let words = words_of(rt, alloc, &["run", run.budget, "s", "n.idl"]);
    let files = files_of(rt, alloc, run.script, run.fragment);
    let mut out = sink_of(rt, alloc, most, calls as u64 + 1);
    let mut folder = SureFolder::new(files);
    let status = answer(alloc, &words, &mut folder, &mut out);
    let torn = calls < all;
    assert!(rt; torn == (status == Status::WriteFault), "{calls} calls");
    assert!(rt; torn || status == run.status, "{calls} calls");
    let taken = trace
        .len()
        .min((calls as usize).saturating_mul(most as usize));
    assert!(rt; out.held() == &trace[..taken], "{calls} calls");
}

/// Lets each call of the sinks fail in turn, and then one more than there are.
pub fn expect_torn_runs(rt: &impl Abort, alloc: Global, runs: &[Torn]) {
    for run in runs {
        let trace = made(rt, alloc, run.trace);
        for (most, all) in run.sinks {
            for calls in 0..=*all {
                expect_torn(rt, alloc, run, &trace, (*most, *all), calls);
            }
        }
    }
}

#[test]
fn each_call_of_the_sink_takes_a_full_buffer(rt: HostRuntime) {
    expect_torn_runs(&rt, rt.alloc(), &RUNS);
}
