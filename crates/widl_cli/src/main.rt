//! The program `widl`: it hands the arguments of its command line, the disk and standard output to the top call
//! (`widl` of `widl_top`), and ends with the status that this answers.
#![tactic(auto)]

use std::process::ExitCode;
use std::{env, io};
use widl_sink::StdoutSink;
use widl_top::{DiskFolder, Status, Words, widl};

fn main(rt: HostRuntime) -> ExitCode {
    let words = match words_of(&rt) {
        Ok(words) => words,
        Err(status) => return ExitCode::from(status.number()),
    };
    let mut folder = DiskFolder::new(&rt);
    let mut out = StdoutSink::new(io::writer(&rt));
    let status = widl(rt.alloc(), &words, &mut folder, &mut out);
    ExitCode::from(status.number())
}

/// The arguments after the program's own name. Arguments of which one isn't UTF-8 have no form, as no arguments at all
/// have none: both are answered by the line `usage`.
///
/// # Errors
///
/// `Memory` where there is no memory for them.
fn words_of(rt: &HostRuntime) -> Result<Words, Status> {
    let mut words = Words::new(rt.alloc());
    match env::args(rt) {
        Ok(args) => {
            for word in args.skip(1) {
                if words.push(word).is_err() {
                    return Err(Status::Memory);
                }
            }
            Ok(words)
        }
        Err(e) if e.kind() == io::ErrorKind::OutOfMemory => Err(Status::Memory),
        Err(_) => Ok(words),
    }
}
