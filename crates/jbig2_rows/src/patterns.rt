//! Patterns wider than 128 pixels, whose first adaptive pixel lies one pattern to the left.
ghost use Rattle.std.specs.Prelude.{◌≡◌};

use hayro_jbig2::Result;
use hayro_jbig2::parts::bitmap::Steps;
use hayro_jbig2::parts::mq::encode_list;
use hayro_jbig2::parts::pattern::{PatternDictionaryHeader, decode};
use hayro_jbig2::parts::template::Template;
use jbig2_permit::Permit;
use std::alloc::Allocator;
use std::sync::ledger::{Blank, Ledger};

/// The context of column `x` of two patterns of 200 by 1 that lie side by side. Only the first
/// column of each is black (template 0; T.88, Table 27).
fn context_of(x: u32) -> u16 {
    match x {
        1 | 201 => 0x01,
        2 | 202 => 0x02,
        3 | 203 => 0x04,
        4 | 204 => 0x08,
        200 => 0x10,
        _ => 0,
    }
}

/// Whether two such patterns are decoded from the bytes that the encoder gives. The only error is
/// `DecodeError::OutOfMemory`.
pub fn wide_patterns_hold<A: Allocator + Clone, L: Ledger>(alloc: &A, blank: Blank) -> Result<bool>
    requires name { blank.name ≡ L.name }
    requires parts { blank.parts ≡ L.parts }
    requires enough { blank.parts ≡ 7 }
{
    let mut list = Vec::new(alloc.clone()?);
    for x in 0..400 {
        list.push((context_of(x), x % 200 == 0))?;
    }
    let bytes = encode_list(alloc.clone()?, &list)?;
    let header = PatternDictionaryHeader {
        mmr: false,
        template: Template::Template0,
        pattern_width: 200,
        pattern_height: 1,
        num_patterns: 1,
        bytes: &bytes,
        strict: true,
    };
    let mut steps = Steps::<L>::new(Permit::grant(), blank);
    let mut contexts = Vec::new(alloc.clone()?);
    let dictionary = decode(alloc.clone()?, &header, &mut contexts, &mut steps)?;
    for pattern in &dictionary.patterns {
        for x in 0..200 {
            if (pattern.get_pixel(x, 0, &mut steps) == 1) != (x == 0) {
                return Ok(false);
            }
        }
    }
    Ok(dictionary.patterns.len() == 2 && dictionary.pattern_width == 200)
}
