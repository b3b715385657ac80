//! The program `jbig2-decode`: prints the pages of a JBIG2 file, the calls that draw a page, or a bitmap.
#![tactic(auto)]

use jbig2_program::{RunEnd, file_word, run};
use std::fs::File;
use std::io::ErrorKind;
use std::process::ExitCode;
use std::{env, io};

/// Runs the program on the words after its name.
fn status(rt: &HostRuntime) -> io::Result<u8> {
    let alloc = rt.alloc();
    let mut args = env::args(rt)?;
    let _program = args.next();
    let args: Vec<String> = args.collect(alloc)?;
    let words: Vec<&str> = args.iter().map(|word| word.as_str()).collect(alloc)?;
    let mut file = match file_word(&words) {
        Some(name) => File::open(rt, name).ok(),
        None => None,
    };
    let mut out = rt.stdout();
    let mut err = rt.stderr();
    Ok(run(alloc, &words, file.as_mut(), &mut out, &mut err))
}

fn main(rt: HostRuntime) -> ExitCode {
    let status = match status(&rt) {
        Ok(status) => status,
        Err(error) => {
            // Words that are no text are no words of this program.
            let refused = error.kind() == ErrorKind::OutOfMemory;
            RunEnd::without_words(refused, &mut rt.stderr()).status
        }
    };
    ExitCode::from(status)
}
