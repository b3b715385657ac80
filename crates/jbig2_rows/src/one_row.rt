//! The runs of `jbig2-row`.
ghost use Rattle.std.specs.Prelude.{◌≡◌, ◌↔◌, false, map};
ghost use Rattle.jbig2_rows.specs.Words.{is_one_word};

use crate::case::{Row, print_row, row_serves_on};
use crate::rows::row_named;
use crate::status::{Fault, refused_words, status_of};
use hayro_jbig2::{DecodeError, DecoderContext};
use std::alloc::Allocator;
use std::io::Write;

/// What is written to standard error where the words are not those of a run.
pub const USAGE: &str = "usage: jbig2-row NAME";

/// Runs the row with this name, and runs it again if memory ran out. `words` are the words after the program's name.
///
/// Returns the status of the process: 0; 1 where the row differs, where no row has this name, or after a fault; 2 where
/// there is not exactly one word.
pub fn run<A: Allocator + Clone, O: Write, E: Write>(
    alloc: A,
    words: &[&str],
    out: &mut O,
    err: &mut E,
) -> u8
    ensures usage { (result ≡ 2) ↔ (is_one_word (map (λ word. word.now) words.now) ≡ false) }
{
    match words {
        [name] => status_of(run_row(&alloc, name, out), err),
        _ => refused_words(USAGE, err),
    }
}

/// Runs the row with this name. Returns whether it holds. Where there is none it returns false and prints nothing.
fn run_row<A: Allocator + Clone, O: Write>(
    alloc: &A,
    name: &str,
    out: &mut O,
) -> Result<bool, Fault> {
    let Some(row) = row_named(name) else {
        return Ok(false);
    };
    let holds = row_outcome(alloc, row)?;
    print_row(row, holds, out)?;
    Ok(holds)
}

/// Whether a row holds in a context of its own.
fn row_outcome<A: Allocator + Clone>(alloc: &A, row: &Row) -> Result<bool, DecodeError> {
    let mut context = DecoderContext::new(alloc.clone()?)?;
    row_serves_on(alloc, row, &mut context)
}
