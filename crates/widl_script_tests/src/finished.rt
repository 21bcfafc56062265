//! Scripts whose names and steps blocks are for a namespace: what is found in them, and what is answered past their ends.

use crate::built::{built_of, sure};
use indexmap::IndexMap;
use std::alloc::Global;
use std::fmt::Write;
use std::mem::ManuallyDrop;
use std::process::Abort;
use widl_idl::{Callee, Owner, Part};
use widl_script_tree::{
    Expression, MemberKey, Row, Script, Source, Statement, StepLine, StepLines,
};

/// An operation of the namespace.
const OPERATION: Callee = Callee {
    owner: Owner::Space(7),
    part: Part::Op(3),
};

/// The numbers of steps blocks, by what they are for: as many overloads of the operation, in their order.
fn targets_of(rt: &impl Abort, alloc: Global, count: u32) -> IndexMap<(Callee, Option<u32>), u32> {
    let mut targets = IndexMap::new(alloc);
    for overload in 0..count {
        sure(rt, targets.insert((OPERATION, Some(overload)), overload));
    }
    targets
}

/// A script whose first name is the namespace's, with so many blocks of the operation.
fn script_of(rt: &impl Abort, alloc: Global, text: &str, count: u32) -> ManuallyDrop<Script> {
    let built = built_of(rt, alloc, text);
    let (tables, top) = (built.tables, built.top);
    let mut owners = IndexMap::new(alloc);
    sure(rt, owners.insert(0, Owner::Space(7)));
    assert!(rt; u64::from(top.first) + u64::from(top.count) <= u64::from(tables.statement_count()));
    ManuallyDrop::new(tables.finish(top, owners, targets_of(rt, alloc, count)))
}

fn expect(rt: &impl Abort, holds: bool, what: &str) {
    assert!(rt; holds, "{what}");
}

fn is_text(node: &Expression, units: &[u16]) -> bool {
    match node {
        Expression::Text(text) => text.as_slice() == units,
        _ => false,
    }
}

fn is_computed(node: &Expression, of: u32, key: u32) -> bool {
    match node {
        Expression::Member(member) => member.of == of && member.key == MemberKey::Computed(key),
        _ => false,
    }
}

fn is_undefined(node: &Expression) -> bool {
    matches!(node, Expression::Undefined)
}

/// The items of the row of arguments are read through, and past the end stands the default.
fn expect_expressions(rt: &impl Abort, script: &Script) {
    expect(
        rt,
        is_computed(script.expression(7), 3, 4),
        "the first item",
    );
    expect(rt, is_text(script.expression(8), &[120]), "the second item");
    expect(rt, is_undefined(script.expression(10)), "the end");
    expect(rt, is_undefined(script.expression(u32::MAX)), "no place");
    expect(
        rt,
        Row { first: 7, count: 2 }.rest() == Row { first: 8, count: 1 },
        "a rest",
    );
}

fn expect_statements(rt: &impl Abort, script: &Script) {
    expect(rt, script.top() == Row { first: 1, count: 1 }, "the top");
    expect(
        rt,
        *script.statement(0) == Statement::Do(9),
        "the statement",
    );
    expect(rt, *script.statement(1) == Statement::Do(9), "its item");
    expect(
        rt,
        *script.statement(2) == Statement::Do(u32::MAX),
        "the end",
    );
    expect(
        rt,
        script.function(0).body == Row { first: 0, count: 0 },
        "no function",
    );
}

fn expect_names(rt: &impl Abort, script: &Script) {
    expect(
        rt,
        script.owner(0) == Some(Owner::Space(7)),
        "the namespace",
    );
    expect(rt, script.owner(1).is_none(), "no owner");
    expect(
        rt,
        script.name(3).as_slice() == [97].as_slice(),
        "the last name",
    );
    expect(rt, script.name(4).len() == 0, "no name");
    expect(rt, !script.is_local(0, 0), "no local name");
}

/// Neither a function nor a steps block.
fn expect_sample(rt: &impl Abort, alloc: Global) {
    let script = script_of(rt, alloc, "do N.f(o.a[1], \"x\")", 0);
    expect_expressions(rt, &script);
    expect_statements(rt, &script);
    expect_names(rt, &script);
    expect(rt, script.steps(0).is_none(), "no block");
    expect(rt, script.steps_of(&OPERATION, None).is_none(), "no steps");
}

/// The parameter is local in the function, and neither its name nor a name in another one.
fn expect_locals(rt: &impl Abort, alloc: Global) {
    let script = script_of(rt, alloc, "function f(o)\nend", 0);
    expect(rt, script.is_local(0, 1), "the parameter");
    expect(rt, !script.is_local(0, 0), "the function's name");
    expect(rt, !script.is_local(1, 1), "no function");
}

/// Whether lines return the argument of this number.
fn returns(lines: Option<&StepLines>, number: u32) -> bool {
    match lines {
        Some(lines) => match lines.as_slice() {
            [StepLine::Return(Source::Arg(found))] => *found == number,
            _ => false,
        },
        None => false,
    }
}

/// The block of the last of many overloads is found, one of no overload isn't, and one after the last isn't.
fn expect_blocks(rt: &impl Abort, alloc: Global, count: u32) {
    let mut text = String::new(alloc);
    for overload in 0..count {
        sure(
            rt,
            write!(text, "steps N.f#{overload}\nreturn arg {overload}\nend\n"),
        );
    }
    let script = script_of(rt, alloc, &text, count);
    let last = count.saturating_sub(1);
    expect(
        rt,
        returns(script.steps_of(&OPERATION, Some(last)), last),
        "the last block",
    );
    expect(
        rt,
        script.steps_of(&OPERATION, None).is_none(),
        "a block of no overload",
    );
    let after = script.steps_of(&OPERATION, Some(count));
    expect(rt, after.is_none(), "a block after the last one");
}

#[test]
fn scripts_are_read(rt: HostRuntime) {
    expect_sample(&rt, rt.alloc());
    expect_locals(&rt, rt.alloc());
    expect_blocks(&rt, rt.alloc(), 25_000);
}
