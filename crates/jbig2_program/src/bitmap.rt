//! Writes a page as a bitmap of the PBM format.
ghost use Rattle.std.specs.Prelude.{◌≡◌, ◌++◌, IsTrue, OnOk, IfErr};
ghost use Rattle.std.specs.Io.KnownBytes.{Appends};
ghost use Rattle.jbig2_program.specs.Printed.{bitmap_head, bitmap_text, or_fault, Prints};

use crate::fault::Fault;
use crate::output::flush;
use hayro_jbig2::{DecodeError, DecoderContext, DrawnPage, Page};
use std::alloc::Allocator;
use std::io::Write;

/// How many bytes of the rows one write has at most.
const BLOCK: usize = 65536;

/// The bytes that are enough for the head.
const HEAD: usize = 32;

/// Writes a page as a binary bitmap of the PBM format.
pub fn write_bitmap<A: Allocator + Clone, O: Write>(
    alloc: A,
    page: &Page<'_, A>,
    out: &mut O,
) -> Result<(), Fault>
    ensures { Prints (or_fault (bitmap_text page.now)) result (O.contents out.old)
        (O.contents out.new) }
{
    let mut context = DecoderContext::new(alloc.clone()?)?;
    let drawn = page.draw(&mut context)?;
    let mut head = Vec::with_capacity(alloc, HEAD)?;
    write_head(page, &mut head)?;
    if out.write_all(&head).is_err() || !write_rows(&drawn, out) {
        return Err(Fault::Unwritable);
    }
    flush(out)
}

fn write_head<A: Allocator>(page: &Page<'_, A>, head: &mut Vec<u8, A>) -> Result<(), Fault>
    ensures head { OnOk result (head.new.items ≡ head.old.items ++ bitmap_head page.now) }
    ensures fault { IfErr result (λ fault. fault ≡ Fault.Decode DecodeError.OutOfMemory) }
{
    let (width, height) = page.dimensions();
    match write!(head, "P4\n{width} {height}\n") {
        Ok(()) => Ok(()),
        Err(_) => Err(Fault::Decode(DecodeError::OutOfMemory)),
    }
}

/// Writes the packed rows. Returns whether all were written.
fn write_rows<A: Allocator, O: Write>(drawn: &DrawnPage<'_, A>, out: &mut O) -> bool
    ensures { IsTrue result → Appends (O.contents out.old) (O.contents out.new) drawn.now }
{
    let mut block = [0; BLOCK];
    let mut place = 0;
    while place < drawn.size() {
        let count = (drawn.size() - place).min(BLOCK);
        let part = &mut block[..count];
        drawn.read_at(place, part);
        if out.write_all(part).is_err() {
            return false;
        }
        place += count;
    }
    true
}
