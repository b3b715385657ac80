//! Tests runs of `jbig2-decode` that read from and write to memory.
mod t88_example;

use crate::bytes::{FILE, bytes_of};
use crate::streams::{Full, Slow};
use hayro_jbig2::{DecodeError, Result};
use jbig2_program::{file_word, run};
use std::alloc::Global;
use std::io::{Cursor, ErrorKind, Read};

const USAGE: &[u8] = b"usage: jbig2-decode [--strict] pages|embedded FILE | calls|pbm FILE INDEX\n";

const OUT_OF_MEMORY: &[u8] = b"error: out of memory\n";

const WHITE: &[u8] = b"push_pixel_chunk false 1\nnext_line\n";

/// Two rows of nine black pixels.
const BLACK: &[u8] = b"push_pixel_chunk true 1\npush_pixel true\nnext_line\n\
    push_pixel_chunk true 1\npush_pixel true\nnext_line\n";

/// Row 14: a page, and then only the beginning of a segment.
const CUT_OFF: &str = "P 00000001 26";

/// A file whose page has no end.
const UNENDED: &str = "H 01 00000001 P";

/// A file of a black page of 9 by 2.
const BLACK_FILE: &str = "H 01 00000001 P@11=00000009@15=00000002@27=04 00000001 31 00 01 00000000";

/// A file with a segment that strict reading refuses when it is decoded.
const UNDECODABLE: &str =
    "H 01 00000001 P 00000001 3E 00 01 00000004 80000000 00000002 31 00 01 00000000";

/// The words of a run.
type Words = &'static [&'static str];

/// The status of a run, its output, and what it writes to standard error.
pub type End<'e> = (u8, &'e [u8], &'e [u8]);

/// Whether a run ends with this. Returns `DecodeError::OutOfMemory` where the run reports that
/// memory ran out.
fn run_ends<R: Read>(
    alloc: Global,
    words: &[&str],
    file: Option<&mut R>,
    expected: End<'_>,
) -> Result<bool> {
    let mut out = Vec::with_capacity(alloc, 256)?;
    let mut err = Vec::with_capacity(alloc, 256)?;
    let status = run(alloc, words, file, &mut out, &mut err);
    if err.as_slice() == OUT_OF_MEMORY && status == 1 && out.is_empty() {
        return Err(DecodeError::OutOfMemory);
    }
    Ok((status, out.as_slice(), err.as_slice()) == expected)
}

/// Whether a run that reads these bytes ends with this.
fn ends_over(alloc: Global, words: &[&str], bytes: &[u8], expected: End<'_>) -> Result<bool> {
    run_ends(alloc, words, Some(&mut Cursor::new(bytes)), expected)
}

/// Whether a run that reads the file in this text ends with this.
fn ends_once(alloc: Global, words: &[&str], text: &str, expected: End<'_>) -> Result<bool> {
    let bytes = bytes_of(alloc, text)?;
    ends_over(alloc, words, &bytes, expected)
}

/// The same; a run that ran out of memory is run again.
pub fn ends_so(alloc: Global, words: &[&str], text: &str, expected: End<'_>) -> bool {
    let mut ends = ends_once(alloc, words, text, expected);
    if ends == Err(DecodeError::OutOfMemory) {
        ends = ends_once(alloc, words, text, expected);
    }
    ends == Ok(true)
}

/// Words that are not those of a run.
const REFUSED_WORDS: &[Words] = &[
    &[],
    &["embedded"],
    &["--strict", "embedded"],
    &["embedded", "--strict", "page"],
    &["draw", "page"],
    &["embedded", "page", "0"],
    &["pages", "file", "0"],
    &["calls", "file"],
    &["calls", "file", ""],
    &["pbm", "file", "+1"],
    &["pbm", "--strict", "file", "1"],
];

#[test]
fn other_words_print_the_usage(rt: HostRuntime) {
    for words in REFUSED_WORDS {
        assert!(rt;
            ends_so(rt.alloc(), words, "P", (2, b"", USAGE)),
            "{words:?}"
        );
    }
}

/// Words, and which of them names the file.
const FILE_WORDS: &[(Words, Option<&str>)] = &[
    (&["--strict", "embedded", "page"], Some("page")),
    (&["embedded", "page"], Some("page")),
    (&["page"], None),
    (&["pages", "file"], Some("file")),
    (&["--strict", "calls", "file", "0"], Some("file")),
    (&["pbm", "--strict", "12"], Some("--strict")),
    (&["pbm", "file", "1a"], None),
];

#[test]
fn a_word_names_the_file(rt: HostRuntime) {
    for (words, file) in FILE_WORDS {
        assert!(rt; file_word(words) == *file, "{words:?}");
    }
}

/// Words, the file, and what is printed. Row R9.3 is among them.
const PRINTED: &[(Words, &str, &[u8])] = &[
    (&["embedded", "page"], "P", WHITE),
    (&["embedded", "page"], CUT_OFF, WHITE),
    (&["pages", "file"], FILE, b"1 8 1\n"),
    (&["calls", "file", "0"], FILE, WHITE),
    (&["pbm", "file", "0"], FILE, b"P4\n8 1\n\0"),
    (&["--strict", "pbm", "file", "00"], FILE, b"P4\n8 1\n\0"),
    (&["pages", "file"], UNENDED, b"1 8 1\n"),
    (&["calls", "file", "0"], BLACK_FILE, BLACK),
    (
        &["pbm", "file", "0"],
        BLACK_FILE,
        b"P4\n9 2\n\xFF\x80\xFF\x80",
    ),
    (&["--strict", "pages", "file"], UNDECODABLE, b"1 8 1\n"),
    (&["pbm", "file", "0"], UNDECODABLE, b"P4\n8 1\n\0"),
];

#[test]
fn pages_calls_and_bitmaps_are_printed(rt: HostRuntime) {
    for (words, file, out) in PRINTED {
        assert!(rt;
            ends_so(rt.alloc(), words, file, (0, out, b"")),
            "{words:?} {file}"
        );
    }
}

const UNSUPPORTED: &[u8] = b"error: unsupported feature\n";

const NO_SUCH_PAGE: &[u8] = b"error: no such page\n";

/// Words, the file, and the fault that is reported. Nothing is printed, not even a header: a file is read before its
/// page is looked for, and a page is decoded before it is printed.
const FAULTS: &[(Words, &str, &[u8])] = &[
    (
        &["embedded", "page"],
        "",
        b"error: missing page information segment\n",
    ),
    (
        &["--strict", "embedded", "page"],
        CUT_OFF,
        b"error: unexpected end of input\n",
    ),
    (&["calls", "file", "1"], FILE, NO_SUCH_PAGE),
    (&["pbm", "file", "1"], FILE, NO_SUCH_PAGE),
    (
        &["calls", "file", "99999999999999999999999999"],
        FILE,
        NO_SUCH_PAGE,
    ),
    (
        &["--strict", "calls", "file", "1"],
        UNENDED,
        b"error: page without exactly one end of page segment\n",
    ),
    (
        &["pbm", "file", "1"],
        "P",
        b"error: invalid JBIG2 file header\n",
    ),
    (&["--strict", "pbm", "file", "0"], UNDECODABLE, UNSUPPORTED),
    (
        &["--strict", "calls", "file", "0"],
        UNDECODABLE,
        UNSUPPORTED,
    ),
];

#[test]
fn faults_are_reported_and_nothing_is_printed(rt: HostRuntime) {
    for (words, file, err) in FAULTS {
        assert!(rt;
            ends_so(rt.alloc(), words, file, (1, b"", err)),
            "{words:?} {file}"
        );
    }
}

const UNREADABLE: &[u8] = b"error: cannot read file\n";

/// Whether two runs end as expected: one without a file, and one whose reader has this patience. The page has 30 bytes,
/// so the 62nd read comes to the end.
fn reader_holds(alloc: Global, patience: usize) -> Result<bool> {
    let bytes = bytes_of(alloc, "P")?;
    let mut reader = Slow::new(&bytes, patience, ErrorKind::OutOfMemory);
    let expected: End<'_> = if patience < 62 {
        (1, b"", UNREADABLE)
    } else {
        (0, WHITE, b"")
    };
    run_ends(alloc, &["embedded", "page"], Some(&mut reader), expected)
}

#[test]
fn a_slow_reader_changes_nothing_and_a_broken_one_is_unreadable(rt: HostRuntime) {
    for patience in 0..64 {
        let holds = reader_holds(rt.alloc(), patience);
        assert!(rt;
            holds == Ok(true) || holds == Err(DecodeError::OutOfMemory),
            "{patience}"
        );
    }
}

#[test]
fn what_is_not_there_is_unreadable(rt: HostRuntime) {
    let runs: [&[&str]; 2] = [&["embedded", "page"], &["pbm", "file", "1"]];
    for words in runs {
        let ends = run_ends::<Slow<'_>>(rt.alloc(), words, None, (1, b"", UNREADABLE));
        assert!(rt;
            ends == Ok(true) || ends == Err(DecodeError::OutOfMemory),
            "{words:?}"
        );
    }
}

/// Whether a run with such an output ends with this status and writes this to standard error. Returns
/// `DecodeError::OutOfMemory` where the run reports that memory ran out.
fn writes_so(
    alloc: Global,
    words: &[&str],
    text: &str,
    out: &mut Full,
    expected: (u8, &[u8]),
) -> Result<bool> {
    let bytes = bytes_of(alloc, text)?;
    let mut err = Vec::with_capacity(alloc, 256)?;
    let mut reader = Cursor::new(bytes.as_slice());
    let status = run(alloc, words, Some(&mut reader), out, &mut err);
    if err.as_slice() == OUT_OF_MEMORY {
        return Err(DecodeError::OutOfMemory);
    }
    Ok((status, err.as_slice()) == expected)
}

/// Words, the file, how many bytes the output takes, from the first number to the last, and how many there are.
const ROOMS: &[(Words, &str, (usize, usize), usize)] = &[
    (&["embedded", "page"], "P", (0, 35), 35),
    (&["embedded", "page"], "P@17=FF", (20000, 20000), 35 * 65281),
    (&["pages", "file"], FILE, (0, 6), 6),
    (&["calls", "file", "0"], FILE, (0, 35), 35),
    (&["pbm", "file", "0"], FILE, (0, 8), 8),
];

/// The output may take any number of bytes. It holds the bytes before the failing one, and nothing is reported.
#[test]
fn output_that_cannot_be_written_ends_the_run(rt: HostRuntime) {
    for (words, file, (first, last), length) in ROOMS {
        for room in *first..=*last {
            let mut out = Full {
                room,
                flushes: true,
            };
            let expected: (u8, &[u8]) = (u8::from(room < *length), b"");
            let ends = writes_so(rt.alloc(), words, file, &mut out, expected);
            let refused = ends == Err(DecodeError::OutOfMemory);
            assert!(rt;
                refused || ends == Ok(true) && out.room == 0,
                "{words:?} {room}"
            );
        }
    }
}

/// Words, and what is written to standard error where the output cannot be flushed.
const UNFLUSHED: &[(Words, &[u8])] = &[
    (&["--strict", "calls", "file", "0"], UNSUPPORTED),
    (&["--strict", "pbm", "file", "0"], UNSUPPORTED),
    (&["pages", "file"], b""),
    (&["calls", "file", "0"], b""),
    (&["pbm", "file", "0"], b""),
];

/// Decoding comes before writing, so its fault is reported.
#[test]
fn a_page_that_is_not_decoded_is_not_flushed(rt: HostRuntime) {
    for (words, is_written) in UNFLUSHED {
        let mut out = Full {
            room: 256,
            flushes: false,
        };
        let ends = writes_so(rt.alloc(), words, UNDECODABLE, &mut out, (1, is_written));
        assert!(rt;
            ends == Ok(true) || ends == Err(DecodeError::OutOfMemory),
            "{words:?}"
        );
    }
}
