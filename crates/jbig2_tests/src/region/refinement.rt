//! Tests refinements of a small bitmap: templates, adaptive pixels, places and typical prediction.
ghost use Rattle.std.specs.Prelude.{◌≡◌, ◌^◌, length};
ghost use Rattle.jbig2_region.specs.RefinementTemplates.{refinement_bits};
ghost use Rattle.jbig2_region.specs.declared.template.RefinementTemplate.TheVariants.{Template1};

use jbig2_base::bitmap::Bitmap;
use jbig2_base::bitmap::operator::CombinationOperator;
use jbig2_base::error::{DecodeError, Result};
use jbig2_base::reader::Reader;
use jbig2_coder::arithmetic_decoder::{
    ArithmeticDecoder, ArithmeticDecoderContext, fresh_contexts,
};
use jbig2_permit::Permit;
use jbig2_region::generic::DecodedRegion;
use jbig2_region::generic_refinement::{decode, decode_bitmap, parse};
use jbig2_region::reference_bitmap::ReferenceBitmap;
use jbig2_region::template::{AdaptiveTemplatePixel, RefinementTemplate};
use jbig2_steps::Steps;
use std::alloc::Global;
use std::marker::Brand;
use std::sync::ledger::{Blank, Ledger};

/// Bytes that no encoder made. The expected rows come from another reading of T.88.
const BYTES: [u8; 9] = [0x93, 0x95, 0x65, 0x0C, 0xF9, 0x38, 0x0B, 0x8E, 0xDB];

/// A bitmap of 8 by 3 pixels.
fn reference<L: Ledger>(alloc: Global, steps: &mut Steps<L>) -> Result<Bitmap<Global>> {
    let mut bitmap = Bitmap::new(alloc, 8, 3, steps)?;
    bitmap.store_pixels(0, 0, 8, 0b11110000, steps);
    bitmap.store_pixels(0, 1, 8, 0b00111100, steps);
    bitmap.store_pixels(0, 2, 8, 0b00000111, steps);
    Ok(bitmap)
}

fn rows<L: Ledger>(bitmap: &Bitmap<Global>, steps: &mut Steps<L>) -> [u64; 3] {
    [
        bitmap.load_pixels(0, 0, 8, steps),
        bitmap.load_pixels(0, 1, 8, steps),
        bitmap.load_pixels(0, 2, 8, steps),
    ]
}

/// The flags of a refinement, and its adaptive pixels with template 0.
type Coding = [u8; 5];

const NOMINAL: Coding = [0, 0xFF, 0xFF, 0xFF, 0xFF];

const NEAR: Coding = [0, 0xFD, 0xFE, 0xFF, 0xFF];

const UNUSUAL: Coding = [0, 3, 0, 5, 1];

const WITH_PREDICTION: Coding = [2, 0xFF, 0xFF, 0xFF, 0xFF];

const TEMPLATE_1: Coding = [1, 0, 0, 0, 0];

const TEMPLATE_1_WITH_PREDICTION: Coding = [3, 0, 0, 0, 0];

/// A refinement.
struct Case {
    /// The place of the reference on the page.
    reference: (u32, u32),
    /// The place of the region, of 8 by 3 pixels, on the page.
    region: (u8, u8),
    coding: Coding,
    /// The expected rows, of eight bits each.
    rows: [u64; 3],
}

/// Both templates, at three places, with near and unusual adaptive pixels, and with prediction.
const CASES: &[Case] = &[
    Case {
        reference: (0, 0),
        region: (0, 0),
        coding: NOMINAL,
        rows: [0x12, 0x2C, 0xE3],
    },
    Case {
        reference: (2, 1),
        region: (0, 0),
        coding: NOMINAL,
        rows: [0x12, 0x2D, 0x44],
    },
    Case {
        reference: (0, 0),
        region: (0, 0),
        coding: UNUSUAL,
        rows: [0x12, 0x29, 0xC7],
    },
    Case {
        reference: (0, 0),
        region: (0, 0),
        coding: NEAR,
        rows: [0x12, 0x2C, 0x3F],
    },
    Case {
        reference: (0, 0),
        region: (0, 0),
        coding: WITH_PREDICTION,
        rows: [0x24, 0x27, 0x1E],
    },
    Case {
        reference: (0, 0),
        region: (0, 0),
        coding: TEMPLATE_1,
        rows: TEMPLATE_1_ROWS,
    },
    Case {
        reference: (0, 0),
        region: (3, 1),
        coding: TEMPLATE_1,
        rows: [0x10, 0xD4, 0x1E],
    },
    Case {
        reference: (1, 0),
        region: (0, 1),
        coding: TEMPLATE_1_WITH_PREDICTION,
        rows: [0x24, 0x4D, 0x00],
    },
    Case {
        reference: (0, 0),
        region: (3, 1),
        coding: TEMPLATE_1_WITH_PREDICTION,
        rows: [0x25, 0x41, 0x24],
    },
];

/// The rows of the refinement with template 1 that lies where its reference lies.
const TEMPLATE_1_ROWS: [u64; 3] = [0x12, 0x2C, 0x47];

/// A segment's data up to the coded bytes.
fn header_of(place: (u8, u8), coding: Coding) -> [u8; 22] {
    let (x, y) = place;
    let [flags, x1, y1, x2, y2] = coding;
    [
        0, 0, 0, 8, 0, 0, 0, 3, 0, 0, 0, x, 0, 0, 0, y, 0, flags, x1, y1, x2, y2,
    ]
}

/// Whether the rows are the expected ones.
fn is_refined<L: Ledger>(
    alloc: Global,
    case: &Case,
    from: &DecodedRegion<Global>,
    steps: &mut Steps<L>,
) -> Result<bool> {
    let bytes = header_of(case.region, case.coding);
    let mut header = parse(&mut Reader::new(&bytes))?;
    header.bytes = &BYTES;
    let mut contexts = Vec::new(alloc);
    let region = decode(alloc, &header, from, &mut contexts, steps)?;
    Ok(rows(&region.bitmap, steps) == case.rows)
}

/// The index of the first case that does not give the expected rows, or else the number of cases.
fn first_that_differs<L: Ledger>(alloc: Global, blank: Blank) -> Result<usize>
    requires name { blank.name ≡ L.name }
    requires parts { blank.parts ≡ L.parts }
    requires enough { blank.parts ≡ 7 }
{
    let mut steps: Steps<L> = Steps::new(Permit::grant(), blank);
    let mut from = DecodedRegion {
        bitmap: reference(alloc, &mut steps)?,
        x_location: 0,
        y_location: 0,
        combination_operator: CombinationOperator::Or,
    };
    for (index, case) in CASES.iter().enumerate() {
        (from.x_location, from.y_location) = case.reference;
        if !is_refined(alloc, case, &from, &mut steps)? {
            return Ok(index);
        }
    }
    Ok(CASES.len())
}

#[test]
fn refinements(rt: HostRuntime) {
    let mut index = first_that_differs::<Brand>(rt.alloc(), Blank::new(7));
    if index == Err(DecodeError::OutOfMemory) {
        index = first_that_differs::<Brand>(rt.alloc(), Blank::new(7));
    }
    assert!(rt; index == Ok(CASES.len()));
}

/// The rows of a refinement with template 1. The coder and its contexts go on from their states.
fn next_refinement<L: Ledger>(
    alloc: Global,
    reference: &ReferenceBitmap<'_, Global>,
    decoder: &mut ArithmeticDecoder<'_>,
    contexts: &mut [ArithmeticDecoderContext],
    steps: &mut Steps<L>,
) -> Result<[u64; 3]>
    requires { length contexts.old ≡ 2 ^ refinement_bits Template1 }
{
    let unused = AdaptiveTemplatePixel { x: 0, y: 0 };
    let mut bitmap = Bitmap::new(alloc, 8, 3, steps)?;
    decode_bitmap(
        RefinementTemplate::Template1,
        false,
        &[unused, unused],
        reference,
        &mut bitmap,
        decoder,
        contexts,
        steps,
    );
    Ok(rows(&bitmap, steps))
}

/// Two refinements: one coder and its contexts go on from the first to the second.
fn one_after_the_other<L: Ledger>(
    alloc: Global,
    reference: &ReferenceBitmap<'_, Global>,
    steps: &mut Steps<L>,
) -> Result<[[u64; 3]; 2]> {
    let mut contexts = Vec::new(alloc);
    fresh_contexts(&mut contexts, RefinementTemplate::Template1.context_bits())?;
    let mut decoder = ArithmeticDecoder::new(&BYTES);
    let first = next_refinement(alloc, reference, &mut decoder, &mut contexts, steps)?;
    let second = next_refinement(alloc, reference, &mut decoder, &mut contexts, steps)?;
    Ok([first, second])
}

/// Checks two refinements, one after the other, and the first of two whose reference lies far away.
fn coders_hold<L: Ledger>(alloc: Global, blank: Blank) -> Result<bool>
    requires name { blank.name ≡ L.name }
    requires parts { blank.parts ≡ L.parts }
    requires enough { blank.parts ≡ 7 }
{
    let mut steps: Steps<L> = Steps::new(Permit::grant(), blank);
    let bitmap = reference(alloc, &mut steps)?;
    let mut reference = ReferenceBitmap {
        bitmap: &bitmap,
        dx: 0,
        dy: 0,
    };
    let near = one_after_the_other(alloc, &reference, &mut steps)?;
    reference.dx = i32::MAX;
    reference.dy = i32::MIN;
    let far = one_after_the_other(alloc, &reference, &mut steps)?;
    let second_rows = [0b10000000, 0b01110110, 0b00010101];
    Ok(near == [TEMPLATE_1_ROWS, second_rows] && far[0] == [0, 0, 0])
}

#[test]
fn coders_go_on(rt: HostRuntime) {
    let mut hold = coders_hold::<Brand>(rt.alloc(), Blank::new(7));
    if hold == Err(DecodeError::OutOfMemory) {
        hold = coders_hold::<Brand>(rt.alloc(), Blank::new(7));
    }
    assert!(rt; hold == Ok(true));
}
