//! The tables of a script as rows of text, one for each node.
//!
//! `e3` is the expression at the place 3, `s3` the statement there, and `f3` and `b3` are the function and the steps block of the
//! number 3. A node tells its parts by their places, a name by its text, and a row of parts by the place of the first and the one
//! after the last; where a row is empty, that it is so.

use crate::built::{put, sure};
use crate::steps_rows::{write_block, write_name, write_number, write_text};
use std::alloc::Global;
use std::fmt::Write;
use std::process::Abort;
use widl_script::build::Built;
use widl_script_tree::{Expression, MemberKey, MemberOf, Row, ScriptTables, Statement};

/// Writes a row of places in the table of this letter.
fn write_row(rt: &impl Abort, out: &mut String, letter: char, row: Row) {
    if row.count == 0 {
        return put(rt, out, " ()");
    }
    let end = u64::from(row.first) + u64::from(row.count);
    sure(rt, write!(out, " ({letter}{}..{letter}{end})", row.first))
}

/// Writes a word and a name, by its number.
fn write_named(rt: &impl Abort, out: &mut String, tables: &ScriptTables, word: &str, name: u32) {
    put(rt, out, word);
    write_name(rt, out, tables.name(name))
}

/// Writes a word and a member.
fn write_member(
    rt: &impl Abort,
    out: &mut String,
    tables: &ScriptTables,
    word: &str,
    member: MemberOf,
) {
    sure(rt, write!(out, "{word} e{}", member.of));
    match member.key {
        MemberKey::Named(name) => write_named(rt, out, tables, ".", name),
        MemberKey::Computed(place) => sure(rt, write!(out, "[e{place}]")),
    }
}

fn write_array(rt: &impl Abort, out: &mut String, items: Row) {
    put(rt, out, "array");
    write_row(rt, out, 'e', items)
}

fn write_call(rt: &impl Abort, out: &mut String, callee: u32, args: Row) {
    sure(rt, write!(out, "call e{callee}"));
    write_row(rt, out, 'e', args)
}

fn write_call_with(rt: &impl Abort, out: &mut String, callee: u32, this: u32, args: Row) {
    sure(rt, write!(out, "call e{callee} this e{this}"));
    write_row(rt, out, 'e', args)
}

fn write_new(rt: &impl Abort, out: &mut String, callee: u32, args: Row) {
    sure(rt, write!(out, "new e{callee}"));
    write_row(rt, out, 'e', args)
}

fn write_expression(rt: &impl Abort, out: &mut String, tables: &ScriptTables, node: &Expression) {
    match node {
        Expression::Undefined => put(rt, out, "undefined"),
        Expression::Null => put(rt, out, "null"),
        Expression::Bool(truth) => sure(rt, write!(out, "{truth}")),
        Expression::Number(number) => write_number(rt, out, *number),
        Expression::Text(text) => write_text(rt, out, text),
        Expression::Symbol(number) => sure(rt, write!(out, "symbol {number}")),
        Expression::Name(name) => write_named(rt, out, tables, "name ", *name),
        Expression::This => put(rt, out, "this"),
        Expression::NewSymbol => put(rt, out, "new symbol"),
        Expression::NewObject { proto: None } => put(rt, out, "object"),
        Expression::NewObject { proto: Some(proto) } => sure(rt, write!(out, "object of e{proto}")),
        Expression::NewArray(items) => write_array(rt, out, *items),
        Expression::Member(member) => write_member(rt, out, tables, "member", *member),
        Expression::Call { callee, args } => write_call(rt, out, *callee, *args),
        Expression::CallWith { callee, this, args } => write_call_with(
            rt, out, *callee, *this, *args,
        ),
        Expression::New { callee, args } => write_new(rt, out, *callee, *args),
        Expression::Item(place) => sure(rt, write!(out, "item e{place}")),
    }
}

fn write_let(rt: &impl Abort, out: &mut String, tables: &ScriptTables, name: u32, value: u32) {
    write_named(rt, out, tables, "let ", name);
    sure(rt, write!(out, " = e{value}"))
}

/// Writes a statement that gives a member a value.
fn write_assigned(
    rt: &impl Abort,
    out: &mut String,
    tables: &ScriptTables,
    word: &str,
    member: MemberOf,
    value: u32,
) {
    write_member(rt, out, tables, word, member);
    sure(rt, write!(out, " = e{value}"))
}

fn write_accessor(
    rt: &impl Abort,
    out: &mut String,
    tables: &ScriptTables,
    member: MemberOf,
    getter: u32,
    setter: Option<u32>,
) {
    write_member(rt, out, tables, "define", member);
    sure(rt, write!(out, " get e{getter}"));
    match setter {
        Some(setter) => sure(rt, write!(out, " set e{setter}")),
        None => {}
    }
}

fn write_try(
    rt: &impl Abort,
    out: &mut String,
    tables: &ScriptTables,
    body: Row,
    name: u32,
    handler: Row,
) {
    put(rt, out, "try");
    write_row(rt, out, 's', body);
    write_named(rt, out, tables, " catch ", name);
    write_row(rt, out, 's', handler)
}

fn write_if(rt: &impl Abort, out: &mut String, left: u32, right: u32, then: Row, otherwise: Row) {
    sure(rt, write!(out, "if e{left} is e{right}"));
    write_row(rt, out, 's', then);
    put(rt, out, " else");
    write_row(rt, out, 's', otherwise)
}

fn write_statement(rt: &impl Abort, out: &mut String, tables: &ScriptTables, node: Statement) {
    match node {
        Statement::Let { name, value } => write_let(rt, out, tables, name, value),
        Statement::Do(value) => sure(rt, write!(out, "do e{value}")),
        Statement::Set { member, value } => write_assigned(rt, out, tables, "set", member, value),
        Statement::Define {
            member,
            value,
            hidden,
        } => {
            let word = if hidden { "define hidden" } else { "define" };
            write_assigned(rt, out, tables, word, member, value)
        }
        Statement::DefineAccessor {
            member,
            getter,
            setter,
        } => write_accessor(rt, out, tables, member, getter, setter),
        Statement::Delete(member) => write_member(rt, out, tables, "delete", member),
        Statement::Return(value) => sure(rt, write!(out, "return e{value}")),
        Statement::Throw(value) => sure(rt, write!(out, "throw e{value}")),
        Statement::Show(value) => sure(rt, write!(out, "show e{value}")),
        Statement::Try {
            body,
            name,
            handler,
        } => write_try(rt, out, tables, body, name, handler),
        Statement::If {
            left,
            right,
            then,
            otherwise,
        } => write_if(rt, out, left, right, then, otherwise),
        Statement::Function(number) => sure(rt, write!(out, "function f{number}")),
        Statement::Steps(number) => sure(rt, write!(out, "steps b{number}")),
        Statement::Item(place) => sure(rt, write!(out, "item s{place}")),
    }
}

/// Writes a function: its name, its parameters, its body, and the names that are local in it, in the order of their numbers.
fn write_function(rt: &impl Abort, out: &mut String, tables: &ScriptTables, number: u32) {
    let function = tables.function(number);
    write_named(rt, out, tables, "", function.name);
    for name in function.params.as_slice() {
        write_named(rt, out, tables, ", ", *name);
    }
    write_row(rt, out, 's', function.body);
    put(rt, out, " local");
    for name in 0..tables.name_count() {
        if tables.is_local(number, name) {
            write_named(rt, out, tables, " ", name);
        }
    }
}

fn write_expressions(rt: &impl Abort, out: &mut String, tables: &ScriptTables) {
    for place in 0..tables.expression_count() {
        sure(rt, write!(out, "e{place} "));
        write_expression(rt, out, tables, tables.expression(place));
        put(rt, out, "\n");
    }
}

fn write_statements(rt: &impl Abort, out: &mut String, tables: &ScriptTables) {
    for place in 0..tables.statement_count() {
        sure(rt, write!(out, "s{place} "));
        write_statement(rt, out, tables, *tables.statement(place));
        put(rt, out, "\n");
    }
}

fn write_functions(rt: &impl Abort, out: &mut String, tables: &ScriptTables) {
    for number in 0..tables.function_count() {
        sure(rt, write!(out, "f{number} "));
        write_function(rt, out, tables, number);
        put(rt, out, "\n");
    }
}

fn write_blocks(rt: &impl Abort, out: &mut String, tables: &ScriptTables) {
    for number in 0..tables.steps_count() {
        if let Some(block) = tables.steps(number) {
            sure(rt, write!(out, "b{number} "));
            write_block(rt, out, block);
            put(rt, out, "\n");
        }
    }
}

fn write_names(rt: &impl Abort, out: &mut String, tables: &ScriptTables) {
    put(rt, out, "names");
    for name in 0..tables.name_count() {
        write_named(rt, out, tables, " ", name);
    }
    put(rt, out, "\n")
}

/// The rows of all tables: the expressions, the statements and which of them stand outside functions, the functions, the steps blocks
/// and the names, these in one row.
pub fn rows_of(rt: &impl Abort, alloc: Global, built: &Built) -> String {
    let tables = &built.tables;
    let mut out = String::new(alloc);
    write_expressions(rt, &mut out, tables);
    write_statements(rt, &mut out, tables);
    put(rt, &mut out, "top");
    write_row(rt, &mut out, 's', built.top);
    put(rt, &mut out, "\n");
    write_functions(rt, &mut out, tables);
    write_blocks(rt, &mut out, tables);
    write_names(rt, &mut out, tables);
    out
}
