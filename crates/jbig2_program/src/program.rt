//! The runs of the program.
ghost use Rattle.std.specs.Prelude.{◌≡◌, ◌↔◌, ◌⊎◌, Bool, map, option_map, IsNone, IfSome, Ok, Err, IfOk, IfErr, OnOk};
ghost use Rattle.std.specs.Str.Parse.{IsNumeral};
ghost use Rattle.jbig2_program.specs.Printed.{page_at_index, printed_text, Ends, Prints, RunEnds};
ghost use Rattle.jbig2_program.specs.inner.RequestViews.{HasIndex, task_view};
ghost use Rattle.jbig2_program.specs.Words.{request_of};

use crate::bitmap::write_bitmap;
use crate::calls::print_calls;
use crate::fault::Fault;
use crate::pages::print_pages;
use crate::request::{Command, Request};
use crate::run_end::RunEnd;
use hayro_jbig2::reading::read_all;
use hayro_jbig2::{DecodeError, DecodeSettings, File, Jbig2Error, Page};
use std::alloc::Allocator;
use std::io::{Read, Write};

/// Runs the program. `words` are the words after its name. `file` reads the file that they name; it
/// is `None` where that could not be opened.
///
/// Returns the status of the process: 0, 1 after a fault, 2 where the words are not those of a run.
pub fn run<A: Allocator + Clone, R: Read, O: Write, E: Write>(
    alloc: A,
    words: &[&str],
    file: Option<&mut R>,
    out: &mut O,
    err: &mut E,
) -> u8
    ensures usage { (result ≡ 2) ↔ IsNone (request_of (map (λ word. word.now) words.now)) }
    ensures ends { (is_written : Bool) × RunEnds (request_of (map (λ word. word.now) words.now))
        (option_map (λ reader. R.remaining reader.now) file.entry) result is_written
        (O.contents out.old) (O.contents out.new) (E.contents err.old) (E.contents err.new) }
{
    run_reported(alloc, words, file, out, err).status
}

/// Runs the program as `run` does.
///
/// Returns the status, and whether its line to standard error could be written.
pub fn run_reported<A: Allocator + Clone, R: Read, O: Write, E: Write>(
    alloc: A,
    words: &[&str],
    file: Option<&mut R>,
    out: &mut O,
    err: &mut E,
) -> RunEnd
    ensures usage { (result.status ≡ 2) ↔ IsNone (request_of (map (λ word. word.now) words.now)) }
    ensures ends { RunEnds (request_of (map (λ word. word.now) words.now))
        (option_map (λ reader. R.remaining reader.now) file.entry) result.status result.is_written
        (O.contents out.old) (O.contents out.new) (E.contents err.old) (E.contents err.new) }
{
    let Some(request) = Request::of_words(words) else {
        return RunEnd::wrong_words(err);
    };
    let ended = run_task(alloc, request, file, out);
    RunEnd::of(ended, err)
}

fn run_task<A: Allocator + Clone, R: Read, O: Write>(
    alloc: A,
    request: Request<'_>,
    file: Option<&mut R>,
    out: &mut O,
) -> Result<(), Fault>
    requires { HasIndex (task_view request.command) }
    ensures { Ends request.entry.strict (task_view request.entry.command)
        (option_map (λ reader. R.remaining reader.now) file.entry) result
        (O.contents out.old) (O.contents out.new) }
{
    let Some(reader) = file else {
        return Err(Fault::Unreadable);
    };
    let Ok(other) = alloc.clone() else {
        return Err(Fault::Decode(DecodeError::OutOfMemory));
    };
    let bytes = match bytes_of(other, reader) {
        Ok(bytes) => bytes,
        Err(fault) => return Err(fault),
    };
    print_task(alloc, &bytes, request, out)
}

/// All bytes of a reader.
fn bytes_of<A: Allocator, R: Read>(alloc: A, reader: &mut R) -> Result<Vec<u8, A>, Fault>
    ensures bytes { IfOk result (λ bytes. IfSome (R.remaining reader.old)
        (λ all. bytes.items ≡ all)) }
    ensures fault { IfErr result (λ fault. (fault ≡ Fault.Unreadable)
        ⊎ (fault ≡ Fault.Decode DecodeError.OutOfMemory)) }
{
    match read_all(alloc, reader) {
        Ok(bytes) => Ok(bytes),
        Err(Jbig2Error::Io(_)) => Err(Fault::Unreadable),
        Err(Jbig2Error::Decode(error)) => Err(Fault::Decode(error)),
    }
}

fn print_task<A: Allocator + Clone, O: Write>(
    alloc: A,
    bytes: &[u8],
    request: Request<'_>,
    out: &mut O,
) -> Result<(), Fault>
    requires { HasIndex (task_view request.command) }
    ensures { Prints (printed_text request.entry.strict (task_view request.entry.command) bytes.now)
        result (O.contents out.old) (O.contents out.new) }
{
    let settings = DecodeSettings {
        strict: request.strict,
    };
    match request.command {
        Command::Pages => {
            let file = File::new(alloc.clone()?, bytes, &settings)?;
            print_pages(alloc, &file, out)
        }
        Command::Embedded => {
            let page = Page::new_embedded(alloc.clone()?, bytes, None, &settings)?;
            print_calls(alloc, &page, out)
        }
        Command::Calls(index) => {
            let file = File::new(alloc.clone()?, bytes, &settings)?;
            print_calls(alloc, &page_at(&file, index)?, out)
        }
        Command::Pbm(index) => {
            let file = File::new(alloc.clone()?, bytes, &settings)?;
            write_bitmap(alloc, &page_at(&file, index)?, out)
        }
    }
}

/// The page that decimal digits name.
fn page_at<'f, A: Allocator>(file: &'f File<'_, A>, index: &str) -> Result<Page<'f, A>, Fault>
    requires { IsNumeral 10 index.now }
    ensures page { IfOk result (λ page. page_at_index index.now file.now ≡ Ok page) }
    ensures fault { IfErr result (λ fault. page_at_index index.now file.now ≡ Err fault) }
{
    let index = match index.parse::<usize>() {
        Ok(index) => index,
        // No file has this many pages.
        Err(_) => file.page_count(),
    };
    match file.page(index) {
        Some(page) => Ok(page),
        None => Err(Fault::NoSuchPage),
    }
}
