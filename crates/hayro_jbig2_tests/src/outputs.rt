//! Tests outputs that take nothing, and the result whether the line to standard error was written.
use crate::bytes::{FILE, bytes_of};
use crate::streams::{Full, Stuck};
use hayro_jbig2::{DecodeError, Result};
use jbig2_program::{run, run_reported};
use std::alloc::Global;
use std::io::Cursor;

/// Words that print something about `FILE`.
const PRINTING: [&[&str]; 3] = [
    &["pages", "file"],
    &["calls", "file", "0"],
    &["pbm", "file", "0"],
];

/// Whether a run ends with status 1 and reports nothing, where its output takes no byte.
fn ends_where_stuck(alloc: Global, words: &[&str]) -> Result<bool> {
    let bytes = bytes_of(alloc, FILE)?;
    let mut err = Vec::with_capacity(alloc, 256)?;
    let mut reader = Cursor::new(bytes.as_slice());
    let status = run(alloc, words, Some(&mut reader), &mut Stuck {}, &mut err);
    if !err.is_empty() {
        return Err(DecodeError::OutOfMemory);
    }
    Ok(status == 1)
}

#[test]
fn an_output_that_takes_no_byte_ends_the_run(rt: HostRuntime) {
    for words in PRINTING {
        let ends = ends_where_stuck(rt.alloc(), words);
        assert!(rt;
            ends == Ok(true) || ends == Err(DecodeError::OutOfMemory),
            "{words:?}"
        );
    }
}

/// Words, how many bytes standard error takes, the status, and whether its line was written.
const REPORTED: &[(&[&str], usize, u8, bool)] = &[
    (&["pages"], 256, 2, true),
    (&["pages"], 20, 2, false),
    (&["calls", "file", "1"], 256, 1, true),
    (&["calls", "file", "1"], 0, 1, false),
    (&["calls", "file", "0"], 0, 0, true),
];

fn is_reported(alloc: Global, words: &[&str], room: usize, expected: (u8, bool)) -> Result<bool> {
    let bytes = bytes_of(alloc, FILE)?;
    let mut out = Vec::with_capacity(alloc, 256)?;
    let mut err = Full {
        room,
        flushes: true,
    };
    let mut reader = Cursor::new(bytes.as_slice());
    let ended = run_reported(alloc, words, Some(&mut reader), &mut out, &mut err);
    Ok((ended.status, ended.is_written) == expected)
}

/// At most one request for memory is refused in a run of this test.
#[test]
fn it_is_reported_whether_standard_error_took_its_line(rt: HostRuntime) {
    for (words, room, status, is_written) in REPORTED {
        let mut reported = is_reported(rt.alloc(), words, *room, (*status, *is_written));
        if reported != Ok(true) {
            reported = is_reported(rt.alloc(), words, *room, (*status, *is_written));
        }
        assert!(rt; reported == Ok(true), "{words:?} {room}");
    }
}
