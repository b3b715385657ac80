//! The runs of `jbig2-bench`.
ghost use Rattle.std.specs.Prelude.{◌≡◌, ◌↔◌, false, map};
ghost use Rattle.std.specs.Option.{is_some};
ghost use Rattle.jbig2_rows.specs.Words.{is_lists, is_run};

use crate::case::{Row, print_row, row_holds};
use crate::lists::first_that_differs;
use crate::rows::families;
use crate::status::{Fault, refused_words, status_of};
use hayro_jbig2::DecoderContext;
use std::alloc::Allocator;
use std::io;
use std::io::Write;

/// What is written to standard error where the words are not those of a run.
pub const USAGE: &str = "usage: jbig2-bench [lists]";

/// Runs the program. `words` are the words after its name.
///
/// Returns the status of the process: 0, 1 where a row or a list differs or after a fault, 2 where the words are not
/// those of a run.
pub fn run<A: Allocator + Clone, O: Write, E: Write>(
    alloc: A,
    words: &[&str],
    out: &mut O,
    err: &mut E,
) -> u8
    ensures usage { (result ≡ 2) ↔ (is_run (map (λ word. word.now) words.now) ≡ false) }
{
    let Some(task) = Task::of_words(words) else {
        return refused_words(USAGE, err);
    };
    let outcome = match task {
        Task::Rows => run_rows(&alloc, out),
        Task::Lists => run_lists(&alloc, out),
    };
    status_of(outcome, err)
}

/// What the words ask for.
#[derive(Clone, Copy)]
enum Task {
    /// The worked rows.
    Rows,
    /// Lists that are encoded and read back.
    Lists,
}

#[tactic(auto, unfolding(crate::specs::Words::is_lists))]
fn is_lists(word: &str) -> bool
    ensures { result ≡ is_lists word.now }
{
    word == "lists"
}

impl Task {
    /// `None` where the words are not those of a run.
    fn of_words(words: &[&str]) -> Option<Task>
        ensures { is_some result ≡ is_run (map (λ word. word.now) words.now) }
    {
        match words {
            [] => Some(Task::Rows),
            [word] => {
                if is_lists(word) {
                    Some(Task::Lists)
                } else {
                    None
                }
            }
            _ => None,
        }
    }
}

/// Runs the rows of a family. Returns whether all hold.
fn run_family<A: Allocator + Clone, O: Write>(
    alloc: &A,
    rows: &[Row],
    context: &mut DecoderContext<A>,
    out: &mut O,
) -> Result<bool, Fault> {
    let mut all_hold = true;
    for row in rows {
        let holds = row_holds(alloc, row, context)?;
        print_row(row, holds, out)?;
        all_hold = all_hold && holds;
    }
    Ok(all_hold)
}

/// Runs all rows, in one context. Returns whether all hold.
fn run_rows<A: Allocator + Clone, O: Write>(alloc: &A, out: &mut O) -> Result<bool, Fault> {
    let mut context = DecoderContext::new(alloc.clone()?)?;
    let mut all_hold = true;
    for rows in families() {
        all_hold = run_family(alloc, rows, &mut context, out)? && all_hold;
    }
    Ok(all_hold)
}

/// Encodes the lists and reads them back. Returns whether each one comes back unchanged.
fn run_lists<A: Allocator + Clone, O: Write>(alloc: &A, out: &mut O) -> Result<bool, Fault> {
    let differing = first_that_differs(alloc)?;
    print_lists(differing, out)?;
    Ok(differing.is_none())
}

/// Prints the first list that differs, if one does.
pub fn print_lists<O: Write>(differing: Option<usize>, out: &mut O) -> io::Result<()> {
    match differing {
        Some(count) => writeln!(out, "lists differ at {count}"),
        None => writeln!(out, "lists ok"),
    }
}
