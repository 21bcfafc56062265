//! Steps blocks as rows of text.

use crate::built::{put, sure};
use std::fmt::Write;
use std::process::Abort;
use widl_idl::Literal;
use widl_script_tree::{Invoke, Source, StepLine, StepsBlock, Target};
use widl_text::Units;
use widl_value::{Number, Value};

/// Writes a name of ASCII characters.
pub fn write_name(rt: &impl Abort, out: &mut String, name: &Units) {
    for unit in name.as_slice() {
        sure(
            rt,
            out.push(char::from_u32(u32::from(*unit)).unwrap_or('?')),
        );
    }
}

/// Writes a text by the numbers of its units.
pub fn write_text(rt: &impl Abort, out: &mut String, text: &Units) {
    put(rt, out, "text");
    for unit in text.as_slice() {
        sure(rt, write!(out, " {unit}"));
    }
}

pub fn write_number(rt: &impl Abort, out: &mut String, number: Number) {
    match number {
        Number::NaN => put(rt, out, "NaN"),
        Number::PosInf => put(rt, out, "Infinity"),
        Number::NegInf => put(rt, out, "-Infinity"),
        Number::Whole(whole) => sure(rt, write!(out, "{whole}")),
    }
}

fn write_literal(rt: &impl Abort, out: &mut String, literal: &Literal) {
    match literal {
        Literal::Null => put(rt, out, "null"),
        Literal::Undefined => put(rt, out, "undefined"),
        Literal::Bool(truth) => sure(rt, write!(out, "{truth}")),
        Literal::Int(number) => sure(rt, write!(out, "{number}")),
        Literal::Text(text) => write_text(rt, out, text),
        Literal::EmptyList => put(rt, out, "[]"),
        Literal::EmptyDict => put(rt, out, "{}"),
    }
}

/// Writes what a step throws, which is neither a symbol nor an object.
fn write_value(rt: &impl Abort, out: &mut String, value: &Value) {
    match value {
        Value::Undefined => put(rt, out, "undefined"),
        Value::Null => put(rt, out, "null"),
        Value::Bool(truth) => sure(rt, write!(out, "{truth}")),
        Value::Num(number) => write_number(rt, out, *number),
        Value::Str(text) => write_text(rt, out, text),
        Value::Sym(_) => put(rt, out, "symbol"),
        Value::Obj(_) => put(rt, out, "object"),
    }
}

fn write_source(rt: &impl Abort, out: &mut String, source: &Source) {
    match source {
        Source::Arg(argument) => sure(rt, write!(out, "arg {argument}")),
        Source::This => put(rt, out, "this"),
        Source::Slot(slot) => {
            put(rt, out, "slot ");
            write_name(rt, out, slot)
        }
        Source::Literal(literal) => write_literal(rt, out, literal),
    }
}

fn write_invoke(rt: &impl Abort, out: &mut String, call: &Invoke) {
    sure(rt, write!(out, "invoke {}", call.arg));
    for source in call.sources.as_slice() {
        put(rt, out, ", ");
        write_source(rt, out, source);
    }
}

fn write_line(rt: &impl Abort, out: &mut String, line: &StepLine) {
    match line {
        StepLine::Return(source) => {
            put(rt, out, "return ");
            write_source(rt, out, source)
        }
        StepLine::ReturnInvoke(call) => {
            put(rt, out, "return ");
            write_invoke(rt, out, call)
        }
        StepLine::SetSlot { slot, source } => {
            put(rt, out, "slot ");
            write_name(rt, out, slot);
            put(rt, out, " = ");
            write_source(rt, out, source)
        }
        StepLine::Append(key, value) => {
            put(rt, out, "append ");
            write_source(rt, out, key);
            put(rt, out, ", ");
            write_source(rt, out, value)
        }
        StepLine::Clear => put(rt, out, "clear"),
        StepLine::Throw(value) => {
            put(rt, out, "throw ");
            write_value(rt, out, value)
        }
        StepLine::Invoke(call) => write_invoke(rt, out, call),
    }
}

/// Writes what a steps block is for.
fn write_target(rt: &impl Abort, out: &mut String, target: &Target) {
    match target {
        Target::Operation {
            owner,
            name,
            fixed,
            overload,
        } => {
            sure(rt, write!(out, "operation {fixed} {overload} "));
            write_name(rt, out, owner);
            put(rt, out, ".");
            write_name(rt, out, name)
        }
        Target::Constructor { owner, overload } => {
            sure(rt, write!(out, "constructor {overload} "));
            write_name(rt, out, owner)
        }
        Target::Getter { owner, name } => {
            put(rt, out, "getter ");
            write_name(rt, out, owner);
            put(rt, out, ".");
            write_name(rt, out, name)
        }
        Target::Setter { owner, name } => {
            put(rt, out, "setter ");
            write_name(rt, out, owner);
            put(rt, out, ".");
            write_name(rt, out, name)
        }
        Target::Stringifier { owner } => {
            put(rt, out, "stringifier ");
            write_name(rt, out, owner)
        }
    }
}

/// Writes a steps block: what it is for, and its lines.
pub fn write_block(rt: &impl Abort, out: &mut String, block: &StepsBlock) {
    write_target(rt, out, &block.target);
    for line in block.lines.as_slice() {
        put(rt, out, " / ");
        write_line(rt, out, line);
    }
}
