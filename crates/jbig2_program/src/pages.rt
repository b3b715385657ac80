//! Prints the sizes of a file's pages.
ghost use Rattle.std.specs.Prelude.{◌≡◌, ◌++◌, Ok, OnOk, IfOk, IfErr};
ghost use Rattle.std.specs.List.{flat_map};
ghost use Rattle.jbig2_page.specs.Files.{pages_of};
ghost use Rattle.jbig2_program.specs.Printed.{page_line, Prints};

use crate::fault::Fault;
use crate::output::flush;
use hayro_jbig2::{DecodeError, File, Page};
use std::alloc::Allocator;
use std::io::Write;

/// Prints a line for each page.
pub fn print_pages<A: Allocator, O: Write>(
    alloc: A,
    file: &File<'_, A>,
    out: &mut O,
) -> Result<(), Fault>
    ensures { Prints (Ok (flat_map page_line (pages_of file.now))) result (O.contents out.old)
        (O.contents out.new) }
{
    let lines = page_lines(alloc, file)?;
    if out.write_all(&lines).is_err() {
        return Err(Fault::Unwritable);
    }
    flush(out)
}

/// The line of each page.
fn page_lines<A: Allocator>(alloc: A, file: &File<'_, A>) -> Result<Vec<u8, A>, Fault>
    ensures lines { IfOk result (λ lines. lines.items ≡ flat_map page_line (pages_of file.now)) }
    ensures fault { IfErr result (λ fault. fault ≡ Fault.Decode DecodeError.OutOfMemory) }
{
    let mut lines = Vec::new(alloc);
    for page in file.pages() {
        push_page_line(&page, &mut lines)?;
    }
    Ok(lines)
}

fn push_page_line<A: Allocator>(page: &Page<'_, A>, lines: &mut Vec<u8, A>) -> Result<(), Fault>
    ensures line { OnOk result (lines.new.items ≡ lines.old.items ++ page_line page.now) }
    ensures fault { IfErr result (λ fault. fault ≡ Fault.Decode DecodeError.OutOfMemory) }
{
    let (width, height) = page.dimensions();
    match writeln!(lines, "{} {width} {height}", page.number()) {
        Ok(()) => Ok(()),
        Err(_) => Err(Fault::Decode(DecodeError::OutOfMemory)),
    }
}
