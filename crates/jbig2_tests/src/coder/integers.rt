//! Tests integers and ids, with values that were computed from the text of Annex A.
ghost use Rattle.std.specs.Prelude.{◌≡◌};

use jbig2_base::error::{DecodeError, Result};
use jbig2_coder::arithmetic_decoder::ArithmeticDecoder;
use jbig2_coder::integer_decoder::IntegerDecoder;
use jbig2_coder::symbol_id_decoder::SymbolIdDecoder;
use jbig2_permit::Permit;
use jbig2_steps::Steps;
use std::alloc::Global;
use std::marker::Brand;
use std::sync::ledger::{Blank, Ledger};

/// The coded bytes of T.88, H.2.
pub const EXAMPLE: &[u8] = &[0x84, 0xC7, 0x3B, 0xFC, 0xE1, 0xA1, 0x43, 0x04, 0x02, 0x20];

/// Bytes, and the integers that they begin with. No bytes give values of twelve and of 32 bits.
const INTEGERS: [(&[u8], [Option<i32>; 5]); 2] = [
    (EXAMPLE, [Some(1), Some(-2), Some(5), Some(8), None]),
    (
        &[],
        [
            Some(-2400),
            Some(-2117344399),
            Some(-2117344757),
            Some(-4435),
            Some(-4435),
        ],
    ),
];

/// The ids of five bits that the example begins with.
const IDS: [u32; 5] = [3, 12, 18, 3, 23];

/// Whether bytes begin with these integers.
fn integers_hold<L: Ledger>(
    alloc: Global,
    blank: Blank,
    bytes: &[u8],
    numbers: &[Option<i32>],
) -> Result<bool>
    requires name { blank.name ≡ L.name }
    requires parts { blank.parts ≡ L.parts }
    requires enough { blank.parts ≡ 7 }
{
    let mut steps = Steps::<L>::new(Permit::grant(), blank);
    let mut decoder = ArithmeticDecoder::new(bytes);
    let mut integers = IntegerDecoder::new(alloc)?;
    for number in numbers {
        if integers.decode(&mut decoder, &mut steps) != *number {
            return Ok(false);
        }
    }
    Ok(true)
}

/// Whether the example begins with the ids.
fn ids_hold<L: Ledger>(alloc: Global, blank: Blank) -> Result<bool>
    requires name { blank.name ≡ L.name }
    requires parts { blank.parts ≡ L.parts }
    requires enough { blank.parts ≡ 7 }
{
    let mut steps = Steps::<L>::new(Permit::grant(), blank);
    let mut decoder = ArithmeticDecoder::new(EXAMPLE);
    let mut ids = SymbolIdDecoder::new(alloc, 5)?;
    for id in IDS {
        if ids.decode(&mut decoder, &mut steps) != id {
            return Ok(false);
        }
    }
    Ok(true)
}

/// Whether all integers and ids are as expected.
fn annex_a_holds(alloc: Global) -> Result<bool> {
    for (bytes, numbers) in &INTEGERS {
        if !integers_hold::<Brand>(alloc, Blank::new(7), bytes, numbers)? {
            return Ok(false);
        }
    }
    ids_hold::<Brand>(alloc, Blank::new(7))
}

#[test]
fn integers_and_ids(rt: HostRuntime) {
    let mut holds = annex_a_holds(rt.alloc());
    if holds == Err(DecodeError::OutOfMemory) {
        holds = annex_a_holds(rt.alloc());
    }
    assert!(rt; holds == Ok(true));
}
