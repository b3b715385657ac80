//! Tests runs of `jbig2-bench` that write to memory, and the lists that are read back.
use crate::streams::Full;
use hayro_jbig2::{DecodeError, Result};
use jbig2_rows::generator::Generator;
use jbig2_rows::one_row;
use jbig2_rows::program::{print_lists, run};
use std::alloc::Global;

const USAGE: &[u8] = b"usage: jbig2-bench [lists]\n";

const ROW_USAGE: &[u8] = b"usage: jbig2-row NAME\n";

const OUT_OF_MEMORY: &[u8] = b"error: out of memory\n";

/// The first entries that the generator gives. They were computed outside of this program.
const FIRST: [(u16, bool); 15] = [
    (6, false),
    (1, false),
    (11, false),
    (2, false),
    (4, false),
    (13, false),
    (12, true),
    (1, false),
    (1, false),
    (1, false),
    (6, false),
    (15, true),
    (7, true),
    (7, true),
    (10, true),
];

/// Whether a run ends with this status, this output and this on standard error. Returns `DecodeError::OutOfMemory`
/// where the run reports that memory ran out.
fn run_ends(alloc: Global, words: &[&str], expected: (u8, &[u8], &[u8])) -> Result<bool> {
    let mut out = Vec::with_capacity(alloc, 64)?;
    let mut err = Vec::with_capacity(alloc, 64)?;
    let status = run(alloc, words, &mut out, &mut err);
    if err.as_slice() == OUT_OF_MEMORY && status == 1 && out.is_empty() {
        return Err(DecodeError::OutOfMemory);
    }
    Ok((status, out.as_slice(), err.as_slice()) == expected)
}

/// Words that are not those of a run.
const REFUSED_WORDS: &[&[&str]] = &[
    &["rows"],
    &["Lists"],
    &[""],
    &["lists", "lists"],
    &["lists", ""],
    &["row", "5"],
];

#[test]
fn other_words_print_the_usage(rt: HostRuntime) {
    for words in REFUSED_WORDS {
        let ends = run_ends(rt.alloc(), words, (2, b"", USAGE));
        assert!(rt;
            ends == Ok(true) || ends == Err(DecodeError::OutOfMemory),
            "{words:?}"
        );
    }
}

/// Words of `jbig2-row`, and how a run with them ends.
const NAMED: &[(&[&str], (u8, &[u8], &[u8]))] = &[
    (&["5"], (0, b"row 5 ok\n", b"")),
    (&["R16.2"], (0, b"row R16.2 ok\n", b"")),
    (&["R17.1"], (0, b"row R17.1 ok\n", b"")),
    (&["no such row"], (1, b"", b"")),
    (&[], (2, b"", ROW_USAGE)),
    (&["5", "7"], (2, b"", ROW_USAGE)),
];

/// Whether a run of `jbig2-row` ends with this.
fn row_ends(alloc: Global, words: &[&str], expected: (u8, &[u8], &[u8])) -> Result<bool> {
    let mut out = Vec::with_capacity(alloc, 64)?;
    let mut err = Vec::with_capacity(alloc, 64)?;
    let status = one_row::run(alloc, words, &mut out, &mut err);
    if err.as_slice() == OUT_OF_MEMORY && status == 1 && out.is_empty() {
        return Err(DecodeError::OutOfMemory);
    }
    Ok((status, out.as_slice(), err.as_slice()) == expected)
}

#[test]
fn a_row_is_run_by_its_name(rt: HostRuntime) {
    for (words, expected) in NAMED {
        let mut ends = row_ends(rt.alloc(), words, *expected);
        if ends == Err(DecodeError::OutOfMemory) {
            ends = row_ends(rt.alloc(), words, *expected);
        }
        assert!(rt; ends == Ok(true), "{words:?}");
    }
}

/// At most one request for memory is refused in a run of this test.
#[test]
fn all_lists_are_read_back(rt: HostRuntime) {
    let mut ends = run_ends(rt.alloc(), &["lists"], (0, b"lists ok\n", b""));
    if ends == Err(DecodeError::OutOfMemory) {
        ends = run_ends(rt.alloc(), &["lists"], (0, b"lists ok\n", b""));
    }
    assert!(rt; ends == Ok(true));
}

/// Whether a list begins with the numbers after those of the list before it.
fn lists_hold(alloc: Global) -> Result<bool> {
    let mut generator = Generator::new();
    let six = generator.list(alloc, 6)?;
    let nine = generator.list(alloc, 9)?;
    Ok(six.as_slice() == &FIRST[..6] && nine.as_slice() == &FIRST[6..])
}

#[test]
fn lists_follow_one_another(rt: HostRuntime) {
    let mut hold = lists_hold(rt.alloc());
    if hold == Err(DecodeError::OutOfMemory) {
        hold = lists_hold(rt.alloc());
    }
    assert!(rt; hold == Ok(true));
}

#[test]
fn the_first_list_that_differs_is_named(rt: HostRuntime) {
    let Ok(mut out) = Vec::with_capacity(rt.alloc(), 64) else {
        return;
    };
    let printed = print_lists(Some(17), &mut out).is_ok();
    assert!(rt; printed && out.as_slice() == b"lists differ at 17\n".as_slice());
}

/// Whether a run ends with status 1 where nothing can be written to its output.
fn is_broken_off(alloc: Global, words: &[&str]) -> Result<bool> {
    let mut out = Full {
        room: 0,
        flushes: true,
    };
    let mut err = Vec::with_capacity(alloc, 64)?;
    let status = run(alloc, words, &mut out, &mut err);
    Ok(status == 1 && (err.is_empty() || err.as_slice() == OUT_OF_MEMORY))
}

#[test]
fn what_cannot_be_written_gives_status_1(rt: HostRuntime) {
    assert!(rt; is_broken_off(rt.alloc(), &[]).unwrap_or(true));
    assert!(rt; is_broken_off(rt.alloc(), &["lists"]).unwrap_or(true));
}
