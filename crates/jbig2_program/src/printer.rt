//! A Decoder that prints its calls.
ghost use Rattle.std.specs.Prelude.{◌≡◌, nat_lt, Bool, [], List, ℕ, Option};
ghost use Rattle.std.specs.Borrow.{GName};
ghost use Rattle.std.specs.Io.KnownBytes.{append_known};
ghost use Rattle.jbig2_base.specs.declared.error.DecodeError.TheVariants.{Unsupported};
ghost use Rattle.jbig2_page.specs.Calls.{Pixel, Chunk, Line};
ghost use Rattle.jbig2_program.specs.inner.Printing.{data_of, output_id, AppendsIf, known_if, refusals_if};
ghost use Rattle.jbig2_program.specs.Printed.{call_line};

use crate::output::Output;
use crate::refusals::Refusals;
use hayro_jbig2::{Decoder, Result};
use std::alloc::Allocator;
use std::io::Write;
use std::marker::{Brand, PhantomData};

/// Whether the bytes of an output are known where a printer is made. Only proofs use it.
pub trait KnowsOutput {
    ghost is_known: { Bool };
}

impl KnowsOutput for Brand {
    ghost use Rattle.std.specs.Prelude.{false};

    ghost is_known = { false };
}

/// Writes a line for each call. It refuses a call whose line cannot be written.
#[derive(Drop)]
pub struct Printer<'o, O: Write, A: Allocator, K: KnowsOutput> {
    output: Output<'o, O, A>,
    line: Vec<u8, A>,
    refusals: Refusals,
    of: PhantomData<K>,
}

fn pixel_line(black: bool) -> &'static [u8]
    ensures { result.now ≡ call_line (Pixel black) }
{
    if black {
        b"push_pixel true\n"
    } else {
        b"push_pixel false\n"
    }
}

impl<'o, O: Write, A: Allocator, K: KnowsOutput> Printer<'o, O, A, K> {
    pub fn new(output: Output<'o, O, A>, line: Vec<u8, A>) -> Printer<'o, O, A, K>
        ensures output { result.output ≡ output.entry }
        ensures none { result.refusals.count ≡ 0 }
    {
        Printer {
            output,
            line,
            refusals: Refusals::new(),
            of: PhantomData,
        }
    }

    /// Whether a line could not be written.
    pub fn has_refused(&self) -> bool
        ensures { result ≡ nat_lt 0 self.now.refusals.count }
    {
        self.refusals.any()
    }

    pub fn into_output(self) -> Output<'o, O, A>
        ensures { result ≡ self.entry.output }
    {
        let Printer {
            output,
            line: _,
            refusals: _,
            of: _,
        } = self;
        output
    }

    fn push_chunk_line(&mut self, black: bool, chunk_count: u32) -> bool
        ensures same { output_id self.new.output ≡ output_id self.old.output }
        ensures refusals { self.new.refusals ≡ self.old.refusals }
        ensures taken { AppendsIf result (data_of O.contents self.old.output)
            (data_of O.contents self.new.output) (call_line (Chunk black chunk_count)) }
    {
        self.line.clear();
        let is_made = writeln!(self.line, "push_pixel_chunk {black} {chunk_count}").is_ok();
        is_made && self.output.push(&self.line)
    }
}

impl<O: Write, A: Allocator, K: KnowsOutput> Decoder for Printer<'_, O, A, K> {
    ghost conduct = { record {
      Picture = GName × Option (List ℕ);
      picture = λ p. (output_id p.output, known_if K.is_known (data_of O.contents p.output));
      step = λ p call. (p.0, append_known p.1 (call_line call));
      refuses = λ _ _ error. error ≡ Unsupported;
      refusals = λ p. refusals_if K.is_known (data_of O.contents p.output) p.refusals.count;
    } };

    fn push_pixel(&mut self, black: bool) -> Result<()> {
        let is_taken = self.output.push(pixel_line(black));
        self.refusals.answer(is_taken)
    }

    fn push_pixel_chunk(&mut self, black: bool, chunk_count: u32) -> Result<()> {
        let is_taken = self.push_chunk_line(black, chunk_count);
        self.refusals.answer(is_taken)
    }

    fn next_line(&mut self) -> Result<()> {
        let is_taken = self.output.push(b"next_line\n");
        self.refusals.answer(is_taken)
    }
}
