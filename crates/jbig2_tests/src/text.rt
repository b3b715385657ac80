//! Tests text regions: those of the example of T.88, H.1, and the calls that read them.
ghost use Rattle.std.specs.Prelude.{◌≡◌};

use crate::coder::integers::EXAMPLE;
use crate::pictures::{A, A_AND_C, C, P, Picture, WORD, bitmap_of, shows};
use jbig2_base::bitmap::Bitmap;
use jbig2_base::bitmap::operator::CombinationOperator;
use jbig2_base::error::{DecodeError, Result};
use jbig2_base::reader::Reader;
use jbig2_coder::huffman_table::{HuffmanTable, StandardHuffmanTables};
use jbig2_coder::integer_procedures::IntegerProcedure;
use jbig2_permit::Permit;
use jbig2_region::template::{AdaptiveTemplatePixel, RefinementTemplate};
use jbig2_steps::Work;
use jbig2_text::header::ReferenceCorner;
use jbig2_text::{CodedReadings, Refining, decode, parse, pixels_of_template};
use std::alloc::Global;
use std::marker::Brand;
use std::sync::ledger::{Blank, Ledger};

/// A text region that shows the example's word.
struct Case {
    /// The data of its segment.
    data: &'static [u8],
    /// The symbols that it refers to.
    symbols: [Picture; 3],
}

/// The example's regions in their order.
const CASES: &[Case] = &[
    Case {
        data: BY_PREFIX_CODES,
        symbols: [P, C, A],
    },
    Case {
        data: &[
            0, 0, 0, 0x25, 0, 0, 0, 8, 0, 0, 0, 4, 0, 0, 0, 1, 0, 0x0C, 8, 0, 0, 0, 5, 0x8D, 0x6E,
            0x5A, 0x12, 0x40, 0x85, 0xFF, 0xAC,
        ],
        symbols: [P, C, A],
    },
    Case {
        data: WITH_REFINEMENT,
        symbols: [A, C, A_AND_C],
    },
];

/// With prefix codes.
const BY_PREFIX_CODES: &[u8] = &[
    0, 0, 0, 0x25, 0, 0, 0, 8, 0, 0, 0, 4, 0, 0, 0, 1, 0, 0x0C, 9, 0, 0x10, 0, 0, 0, 5, 1, 0x10, 0,
    0, 0, 0, 0, 0, 0, 0, 0, 0, 0, 0, 0, 0, 0, 0x0C, 0x40, 7, 8, 0x70, 0x41, 0xD0,
];

/// One of its instances is refined.
const WITH_REFINEMENT: &[u8] = &[
    0, 0, 0, 0x25, 0, 0, 0, 8, 0, 0, 0, 0, 0, 0, 0, 0, 0, 0x8C, 0x12, 0, 0, 0, 4, 0xA9, 0x5C, 0x8B,
    0xF4, 0xC3, 0x7D, 0x96, 0x6A, 0x28, 0xE5, 0x76, 0x8F, 0xFF, 0xAC,
];

/// Whether a region's data shows the word with these symbols.
fn shows_word<L: Ledger>(
    alloc: Global,
    data: &[u8],
    symbols: &[&Bitmap<Global>; 3],
    work: &mut Work<L>,
) -> Result<bool> {
    let tables = StandardHuffmanTables::new(alloc)?;
    let customs: [&HuffmanTable<Global>; 0] = [];
    let header = parse(alloc, &mut Reader::new(data), 3, true)?;
    let region = decode(alloc, &header, symbols, &customs, &tables, work)?;
    Ok(shows(&region.bitmap, WORD, &mut work.steps))
}

/// Whether a case shows the word.
fn holds<L: Ledger>(alloc: Global, case: &Case, work: &mut Work<L>) -> Result<bool> {
    let [first, second, third] = case.symbols;
    let first = bitmap_of(alloc, first, &mut work.steps)?;
    let second = bitmap_of(alloc, second, &mut work.steps)?;
    let third = bitmap_of(alloc, third, &mut work.steps)?;
    shows_word(alloc, case.data, &[&first, &second, &third], work)
}

/// The index of the first case that does not show the word, or else the number of cases.
fn first_that_differs<L: Ledger>(alloc: Global, blank: Blank) -> Result<usize>
    requires name { blank.name ≡ L.name }
    requires parts { blank.parts ≡ L.parts }
    requires enough { blank.parts ≡ 7 }
{
    let mut work: Work<L> = Work::new(Permit::grant(), blank);
    for (index, case) in CASES.iter().enumerate() {
        if !holds(alloc, case, &mut work)? {
            return Ok(index);
        }
    }
    Ok(CASES.len())
}

#[test]
fn words_of_the_example(rt: HostRuntime) {
    let mut index = first_that_differs::<Brand>(rt.alloc(), Blank::new(7));
    if index == Err(DecodeError::OutOfMemory) {
        index = first_that_differs::<Brand>(rt.alloc(), Blank::new(7));
    }
    assert!(rt; index == Ok(CASES.len()));
}

#[test]
fn header_of_the_example(rt: HostRuntime) {
    let Ok(header) = parse(rt.alloc(), &mut Reader::new(WITH_REFINEMENT), 3, true) else {
        assert!(rt; false);
        return;
    };
    let flags = &header.flags;
    assert!(rt; flags.use_refinement && !flags.transposed && !flags.default_pixel);
    assert!(rt; flags.log_strip_size == 0 && flags.delta_s_offset == 3);
    assert!(rt; flags.reference_corner == ReferenceCorner::TopLeft);
    assert!(rt; flags.combination_operator == CombinationOperator::Or);
    assert!(rt; flags.refinement_template == RefinementTemplate::Template1);
    assert!(rt; header.num_instances == 4 && header.segment_data_len == 37);
}

/// Two integers and an id, at the beginning of some bytes.
fn coded_numbers<L: Ledger>(alloc: Global, blank: Blank) -> Result<[i64; 3]>
    requires name { blank.name ≡ L.name }
    requires parts { blank.parts ≡ L.parts }
    requires enough { blank.parts ≡ 7 }
{
    let mut work: Work<L> = Work::new(Permit::grant(), blank);
    let mut readings = CodedReadings::new(alloc, EXAMPLE, 5)?;
    let first = readings
        .next_integer(IntegerProcedure::Iadt, &mut work)
        .unwrap_or(0);
    let second = readings.number(IntegerProcedure::Iadt, &mut work)?;
    let mut readings = CodedReadings::new(alloc, EXAMPLE, 5)?;
    let id = readings.next_id(&mut work);
    Ok([i64::from(first), i64::from(second), id])
}

/// Whether the numbers are those of Annex A.
fn numbers_hold(alloc: Global) -> Result<bool> {
    let by_coder = coded_numbers::<Brand>(alloc, Blank::new(7))?;
    Ok(by_coder == [1, -2, 3])
}

#[test]
fn numbers_of_regions(rt: HostRuntime) {
    let mut hold = numbers_hold(rt.alloc());
    if hold == Err(DecodeError::OutOfMemory) {
        hold = numbers_hold(rt.alloc());
    }
    assert!(rt; hold == Ok(true));
}

/// The number of contexts of a template of refinements.
fn context_count(alloc: Global, template: RefinementTemplate) -> Result<usize> {
    let pixel = AdaptiveTemplatePixel { x: -1, y: -1 };
    let pixels = pixels_of_template(template, [pixel, pixel]);
    let refining = Refining::fresh(alloc, template, pixels)?;
    let template = refining.template();
    let refining = Refining::with_contexts(template, pixels, refining.into_contexts());
    Ok(refining.into_contexts().len())
}

/// Checks the numbers for both templates, which have 13 and 10 pixels (T.88, Figures 12 and 13).
fn counts_hold(alloc: Global) -> Result<bool> {
    let first = context_count(alloc, RefinementTemplate::Template0)?;
    let second = context_count(alloc, RefinementTemplate::Template1)?;
    Ok(first == 1 << 13 && second == 1 << 10)
}

#[test]
fn contexts_of_refinements(rt: HostRuntime) {
    let mut hold = counts_hold(rt.alloc());
    if hold == Err(DecodeError::OutOfMemory) {
        hold = counts_hold(rt.alloc());
    }
    assert!(rt; hold == Ok(true));
}
