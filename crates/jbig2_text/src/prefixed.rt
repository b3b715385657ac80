//! Reads the numbers of a text region that are coded in prefix codes (T.88, 6.4.6 to 6.4.11).
ghost use Rattle.std.specs.Prelude.{◌≡◌, ◌≤◌};
ghost use Rattle.jbig2_base.specs.Results.{Returns};
ghost use Rattle.jbig2_text.specs.TextCoding.{sized_bytes};
ghost use Rattle.jbig2_text.specs.inner.TextViews.{prefixed_view};

use crate::readings::ReadInstances;
use crate::refining::Refining;
use crate::tables::TextRegionHuffmanTables;
use jbig2_base::bitmap::Bitmap;
use jbig2_base::error::{HuffmanError, ParseError, Result};
use jbig2_base::field::{bits_field, bytes_field};
use jbig2_base::reader::Reader;
use jbig2_coder::arithmetic_decoder::ArithmeticDecoder;
use jbig2_coder::huffman_table::HuffmanTable;
use jbig2_region::reference_bitmap::ReferenceBitmap;
use jbig2_steps::Work;
use std::alloc::Allocator;
use std::sync::ledger::Ledger;

/// The place in the bits, the tables, and the codes of the symbols' ids. A symbol dictionary passes
/// in a duplicate of its own reader, and takes the reader back.
#[derive(Drop)]
pub struct PrefixedReadings<'a, 't, A: Allocator> {
    pub reader: Reader<'a>,
    pub tables: TextRegionHuffmanTables<'t, A>,
    pub ids: &'t HuffmanTable<A>,
}

/// Reads this many bytes from the next whole byte on.
fn sized_bytes<'a>(size: i32, reader: &mut Reader<'a>) -> Result<&'a [u8]>
    ensures { Returns (λ bytes. (bytes.now, reader.new)) result (sized_bytes size reader.old) }
{
    let Ok(size) = usize::try_from(size) else {
        return Err(ParseError::UnexpectedEof.into());
    };
    reader.align();
    bytes_field(reader, size)
}

impl<A: Allocator> ReadInstances for PrefixedReadings<'_, '_, A> {
    ghost use Rattle.jbig2_text.specs.TextCoding.{PrefixedState, by_prefix_codes};
    ghost use Rattle.jbig2_text.specs.inner.TextViews.{prefixed_view};

    ghost State = { PrefixedState };

    ghost state = { λ r. prefixed_view r };

    ghost readings = { by_prefix_codes };

    fn delta_t<L: Ledger>(&mut self, _work: &mut Work<L>) -> Result<i32> {
        self.tables.delta_t.decode_no_oob(&mut self.reader)
    }

    fn first_s<L: Ledger>(&mut self, _work: &mut Work<L>) -> Result<i32> {
        self.tables.first_s.decode_no_oob(&mut self.reader)
    }

    fn delta_s<L: Ledger>(&mut self, _work: &mut Work<L>) -> Result<Option<i32>> {
        self.tables.delta_s.decode(&mut self.reader)
    }

    fn t_bits<L: Ledger>(&mut self, log: u8, _work: &mut Work<L>) -> Result<i32> {
        let bits = bits_field(&mut self.reader, log, HuffmanError::InvalidCode.into())?;
        Ok(bits as i32)
    }

    fn id<L: Ledger>(&mut self, _work: &mut Work<L>) -> Result<i64> {
        let id = self.ids.decode_no_oob(&mut self.reader)?;
        Ok(i64::from(id))
    }

    fn is_refined<L: Ledger>(&mut self, _work: &mut Work<L>) -> Result<bool> {
        let bit = bits_field(&mut self.reader, 1, ParseError::UnexpectedEof.into())?;
        Ok(bit == 1)
    }

    fn width_delta<L: Ledger>(&mut self, _work: &mut Work<L>) -> Result<i32> {
        self.tables.refinement_width.decode_no_oob(&mut self.reader)
    }

    fn height_delta<L: Ledger>(&mut self, _work: &mut Work<L>) -> Result<i32> {
        self.tables
            .refinement_height
            .decode_no_oob(&mut self.reader)
    }

    fn x_delta<L: Ledger>(&mut self, _work: &mut Work<L>) -> Result<i32> {
        self.tables.refinement_x.decode_no_oob(&mut self.reader)
    }

    fn y_delta<L: Ledger>(&mut self, _work: &mut Work<L>) -> Result<i32> {
        self.tables.refinement_y.decode_no_oob(&mut self.reader)
    }

    fn refine<B: Allocator, L: Ledger>(
        &mut self,
        reference: &ReferenceBitmap<'_, B>,
        refining: &mut Refining<B>,
        bitmap: &mut Bitmap<B>,
        work: &mut Work<L>,
    ) -> Result<()> {
        let size = self.tables.refinement_size.decode_no_oob(&mut self.reader)?;
        let bytes = sized_bytes(size, &mut self.reader)?;
        let mut decoder = ArithmeticDecoder::new(bytes);
        refining.refine(reference, bitmap, &mut decoder, work);
        Ok(())
    }

    fn is_within_data(&self) -> bool {
        true
    }
}
