//! The program `jbig2-row`: runs one worked row against the decoder, by its name.
#![tactic(auto)]

use jbig2_rows::one_row::{USAGE, run};
use jbig2_rows::status::status_without_words;
use std::io::ErrorKind;
use std::process::ExitCode;
use std::{env, io};

/// Runs the program on the words after its name.
fn status(rt: &HostRuntime) -> io::Result<u8> {
    let alloc = rt.alloc();
    let mut args = env::args(rt)?;
    let _program = args.next();
    let args: Vec<String> = args.collect(alloc)?;
    let words: Vec<&str> = args.iter().map(|word| word.as_str()).collect(alloc)?;
    Ok(run(alloc, &words, &mut rt.stdout(), &mut rt.stderr()))
}

fn main(rt: HostRuntime) -> ExitCode {
    let status = match status(&rt) {
        Ok(status) => status,
        Err(error) => {
            // Words that are no text are no words of this program.
            let refused = error.kind() == ErrorKind::OutOfMemory;
            status_without_words(refused, USAGE, &mut rt.stderr())
        }
    };
    ExitCode::from(status)
}
