//! The cases of the arithmetic coder.
ghost use Rattle.std.specs.Prelude.{◌≡◌};

use crate::spelling::bytes_of;
use hayro_jbig2::Result;
use hayro_jbig2::parts::arithmetic_decoder::{ArithmeticDecoder, ArithmeticDecoderContext};
use hayro_jbig2::parts::bitmap::Steps;
use hayro_jbig2::parts::mq::{decode_list, encode_list};
use jbig2_permit::Permit;
use std::alloc::Allocator;
use std::marker::Brand;
use std::sync::ledger::{Blank, Ledger};

/// One reading of the arithmetic decoder, and its expected result.
#[derive(Clone, Copy)]
pub enum Reading {
    /// `decode` gives this.
    Decision(u32),
    /// `decode` gives these bits, eight for each byte, the first in the highest bit.
    Decisions(&'static [u8]),
    /// `decode_mps_run` of this count gives this.
    Run(u32, bool),
}

/// One case of the arithmetic coder.
pub enum CoderCase {
    /// The decoder at the start of these bytes gives these readings, all in one context, which is fresh at first.
    Readings {
        bytes: &'static str,
        readings: &'static [Reading],
    },
    /// `encode_list` of a list gives these bytes.
    Encoded {
        list: &'static [(u16, bool)],
        bytes: &'static str,
    },
    /// `decode_list` of these bytes gives the decisions of a list, in its contexts.
    Decoded {
        bytes: &'static str,
        list: &'static [(u16, bool)],
    },
    /// `encode_list` of these bits in context 0, eight for each byte, gives these bytes, and `decode_list` reads them.
    ReadBack {
        decisions: &'static [u8],
        bytes: &'static str,
    },
}

/// Whether a case holds. The only error is `DecodeError::OutOfMemory`.
pub fn coder_holds<A: Allocator + Clone>(alloc: &A, case: &CoderCase) -> Result<bool> {
    match case {
        CoderCase::Readings { bytes, readings } => {
            let Some(bytes) = bytes_of(alloc, bytes)? else {
                return Ok(false);
            };
            Ok(readings_hold::<Brand>(Blank::new(7), &bytes, readings))
        }
        CoderCase::Encoded { list, bytes } => is_encoded_as(alloc, list, bytes),
        CoderCase::Decoded { bytes, list } => {
            let Some(bytes) = bytes_of(alloc, bytes)? else {
                return Ok(false);
            };
            list_is_read::<A, Brand>(alloc, Blank::new(7), &bytes, list)
        }
        CoderCase::ReadBack { decisions, bytes } => {
            let list = list_of(alloc, decisions)?;
            Ok(is_encoded_as(alloc, &list, bytes)? && is_read_back(alloc, &list)?)
        }
    }
}

/// These bits, eight for each byte, in context 0.
fn list_of<A: Allocator + Clone>(alloc: &A, decisions: &[u8]) -> Result<Vec<(u16, bool), A>> {
    let mut list = Vec::new(alloc.clone()?);
    for byte in decisions {
        for place in 0..8u8 {
            list.push((0, (byte << place) >= 0x80))?;
        }
    }
    Ok(list)
}

/// Whether `encode_list` of a list gives the bytes in this text.
fn is_encoded_as<A: Allocator + Clone>(
    alloc: &A,
    list: &[(u16, bool)],
    bytes: &str,
) -> Result<bool> {
    let Some(bytes) = bytes_of(alloc, bytes)? else {
        return Ok(false);
    };
    let encoded = encode_list(alloc.clone()?, list)?;
    Ok(encoded.as_slice() == bytes.as_slice())
}

/// Whether `decode_list` reads a list back from the bytes that `encode_list` gives. The only error
/// is `DecodeError::OutOfMemory`.
pub fn is_read_back<A: Allocator + Clone>(alloc: &A, list: &[(u16, bool)]) -> Result<bool> {
    let bytes = encode_list(alloc.clone()?, list)?;
    list_is_read::<A, Brand>(alloc, Blank::new(7), &bytes, list)
}

fn readings_hold<L: Ledger>(blank: Blank, bytes: &[u8], readings: &[Reading]) -> bool
    requires name { blank.name ≡ L.name }
    requires parts { blank.parts ≡ L.parts }
    requires enough { blank.parts ≡ 7 }
{
    let mut steps = Steps::<L>::new(Permit::grant(), blank);
    let mut decoder = ArithmeticDecoder::new(bytes);
    let mut context = ArithmeticDecoderContext::default();
    for reading in readings {
        if !reading_holds(&mut decoder, &mut context, reading, &mut steps) {
            return false;
        }
    }
    true
}

fn reading_holds<L: Ledger>(
    decoder: &mut ArithmeticDecoder<'_>,
    context: &mut ArithmeticDecoderContext,
    reading: &Reading,
    steps: &mut Steps<L>,
) -> bool {
    match reading {
        Reading::Decision(decision) => decoder.decode(context, steps) == *decision,
        Reading::Decisions(bytes) => {
            for byte in *bytes {
                for place in 0..8u8 {
                    let decision = u32::from((byte << place) >= 0x80);
                    if decoder.decode(context, steps) != decision {
                        return false;
                    }
                }
            }
            true
        }
        Reading::Run(count, answer) => {
            let count = *count;
            if count == 0 || count > 65535 {
                return false;
            }
            decoder.decode_mps_run(context, count, steps) == *answer
        }
    }
}

/// Whether `decode_list` reads the decisions of a list in its contexts.
fn list_is_read<A: Allocator + Clone, L: Ledger>(
    alloc: &A,
    blank: Blank,
    bytes: &[u8],
    list: &[(u16, bool)],
) -> Result<bool>
    requires name { blank.name ≡ L.name }
    requires parts { blank.parts ≡ L.parts }
    requires enough { blank.parts ≡ 7 }
{
    let mut steps = Steps::<L>::new(Permit::grant(), blank);
    let mut contexts = Vec::new(alloc.clone()?);
    let mut decisions = Vec::new(alloc.clone()?);
    for (number, decision) in list {
        contexts.push(*number)?;
        decisions.push(*decision)?;
    }
    let read = decode_list(alloc.clone()?, bytes, &contexts, &mut steps)?;
    Ok(read.as_slice() == decisions.as_slice())
}
