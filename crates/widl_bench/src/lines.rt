//! The words `lines`, `texts` and `text`: lines of a trace are written.

use crate::sets::no_files;
use anyhow::Result;
use std::alloc::Global;
use std::mem::ManuallyDrop;
use widl_text::Units;
use widl_trace::{Event, line};
use widl_value::{Number, ObjRef, Shape, Value, Values};

/// How many calls have their lines written, and as many returns.
const CALLS: u32 = 750_000;

/// How many units the long text has.
const UNITS: u32 = 20_000_000;

/// A plain object of this number.
fn object(id: u32) -> ObjRef {
    ObjRef {
        id,
        shape: Shape::Plain,
    }
}

/// A call with two numbers.
fn call(alloc: Global) -> Result<Event> {
    let mut args = Values::new(alloc);
    args.push(Value::Num(Number::Whole(300)))?;
    args.push(Value::Num(Number::Whole(200)))?;
    Ok(Event::Call {
        f: object(19),
        this: Value::Obj(object(18)),
        args,
    })
}

/// Shows a text of small letters.
fn long_text(alloc: Global) -> Result<Event> {
    let mut text = Units::new(alloc);
    for _ in 0..UNITS {
        text.push(0x61)?;
    }
    Ok(Event::Show(Value::Str(text)))
}

/// Writes the line of a call and that of a return, again and again, and counts their bytes.
fn write_calls(alloc: Global) -> Result<usize> {
    let list = no_files(alloc)?;
    let call = ManuallyDrop::new(call(alloc)?);
    let end = ManuallyDrop::new(Event::Ret(Value::Num(Number::Whole(500))));
    let mut bytes = 0usize;
    for _ in 0..CALLS {
        let first = line(alloc, &list, &call)?;
        let second = line(alloc, &list, &end)?;
        bytes = bytes.saturating_add(first.bytes().len());
        bytes = bytes.saturating_add(second.bytes().len());
    }
    Ok(bytes)
}

/// Makes a long text, and where this is asked for writes its line and counts its bytes.
fn write_text(alloc: Global, written: bool) -> Result<usize> {
    let list = no_files(alloc)?;
    let shown = ManuallyDrop::new(long_text(alloc)?);
    if !written {
        return Ok(0);
    }
    Ok(line(alloc, &list, &shown)?.bytes().len())
}

/// Prints how many bytes the lines of the calls have.
pub fn run(rt: &HostRuntime) -> Result<()> {
    let bytes = write_calls(rt.alloc())?;
    println!(rt; "{bytes} bytes of lines")?;
    Ok(())
}

/// Prints how many bytes the line of the long text has, none where it isn't to be written.
pub fn run_text(rt: &HostRuntime, written: bool) -> Result<()> {
    let bytes = write_text(rt.alloc(), written)?;
    println!(rt; "{bytes} bytes of lines")?;
    Ok(())
}
