//! Prints the calls of a page.
ghost use Rattle.std.specs.Prelude.{◌≡◌, is_some, IfSome};
ghost use Rattle.jbig2_page.specs.Page.{grid_of_page};
ghost use Rattle.jbig2_program.specs.inner.Printing.{data_of, output_id, AddsMeant};
ghost use Rattle.jbig2_program.specs.Printed.{calls_text, or_fault, Prints};

use crate::fault::Fault;
use crate::output::{GATHERED, Output, flush};
use crate::printer::{KnowsOutput, Printer};
use hayro_jbig2::{DecodeError, Page};
use std::alloc::Allocator;
use std::io::Write;
use std::marker::Brand;

/// Memory for a line.
const LINE: usize = 64;

/// Memory for the bytes that are gathered before some are written, and for one more line.
const ROOM: usize = GATHERED + LINE;

/// Prints the calls that draw a page.
pub fn print_calls<A: Allocator + Clone, O: Write>(
    alloc: A,
    page: &Page<'_, A>,
    out: &mut O,
) -> Result<(), Fault>
    ensures { Prints (or_fault (calls_text (grid_of_page page.now))) result (O.contents out.old)
        (O.contents out.new) }
{
    let held = Vec::with_capacity(alloc.clone()?, ROOM)?;
    let line = Vec::with_capacity(alloc, LINE)?;
    let (mut output, decoded) = decode_to::<A, O, Brand>(page, Output::new(held, out), line);
    let Some(decoded) = decoded else {
        return Err(Fault::Unwritable);
    };
    // Where decoding failed, no call was made, and no bytes are held.
    if !output.write_held() {
        return Err(Fault::Unwritable);
    }
    let out = output.into_inner();
    decoded?;
    flush(out)
}

/// Decodes a page, and prints its calls. `None` where a line could not be written.
fn decode_to<'o, A: Allocator + Clone, O: Write, K: KnowsOutput>(
    page: &Page<'_, A>,
    output: Output<'o, O, A>,
    line: Vec<u8, A>,
) -> (Output<'o, O, A>, Option<Result<(), DecodeError>>)
    requires { K.is_known ≡ is_some (data_of O.contents output) }
    ensures same { output_id result.0 ≡ output_id output.entry }
    ensures lines { IfSome result.1 (λ decoded. AddsMeant (calls_text (grid_of_page page.now)) decoded
        (data_of O.contents output.entry) (data_of O.contents result.0)) }
{
    let mut printer = Printer::<O, A, K>::new(output, line);
    let decoded = page.decode(&mut printer);
    let has_refused = printer.has_refused();
    let output = printer.into_output();
    if has_refused {
        (output, None)
    } else {
        (output, Some(decoded))
    }
}
