//! The header of a pattern dictionary (T.88, 7.4.4).
ghost use Rattle.std.specs.Prelude.{◌≡◌, ◌≤◌, IfOk, OnErr, OnOk};
ghost use Rattle.jbig2_base.specs.Bits.{start_of};
ghost use Rattle.jbig2_base.specs.Results.{Returns};
ghost use Rattle.jbig2_halftone.specs.PatternHeader.{side_at, pattern_header_at};
ghost use Rattle.jbig2_halftone.specs.inner.PatternHeaderViews.{header_view};
ghost use Rattle.jbig2_base.specs.Causes.{HasCause};
ghost use Rattle.jbig2_halftone.specs.Causes.{BreaksPatternHeader};

use jbig2_base::error::{ParseError, Result};
use jbig2_base::field::{byte_field, u32_field};
use jbig2_base::reader::Reader;
use jbig2_region::template::Template;

/// What is needed to decode a pattern dictionary's coded bytes (T.88, 7.4.4).
#[derive(Clone, Copy, Debug)]
pub struct PatternDictionaryHeader<'a> {
    /// Whether the bytes are coded with MMR, instead of the arithmetic coder.
    pub mmr: bool,
    pub template: Template,
    /// In pixels.
    pub pattern_width: u8,
    /// In pixels.
    pub pattern_height: u8,
    /// GRAYMAX, the largest gray value: one less than the number of patterns.
    pub num_patterns: u32,
    /// The coded bytes.
    pub bytes: &'a [u8],
    /// Whether faulty MMR data is refused.
    pub strict: bool,
}

/// Reads a side of a pattern, which must not be 0.
fn side_field(reader: &mut Reader<'_>) -> Result<u8>
    ensures value { Returns (λ x. (x, reader.new.bytes)) result (side_at reader.old.bytes) }
    ensures some { IfOk result (λ x. 1 ≤ x) }
{
    let side = byte_field(reader)?;
    if side == 0 {
        return Err(ParseError::UnexpectedEof.into());
    }
    Ok(side)
}

/// Reads the header of a pattern dictionary (T.88, 7.4.4). The reader is then at the coded bytes,
/// which the header holds too.
///
/// Returns `ParseError::UnexpectedEof` where the bytes do not hold the header, or where a pattern
/// has no pixels. An error leaves the reader where it was. It takes no memory.
#[tactic(auto, unfolding(crate::specs::PatternHeader::pattern_header_at))]
pub fn parse<'a>(reader: &mut Reader<'a>, strict: bool) -> Result<PatternDictionaryHeader<'a>>
    ensures value { Returns (λ h. (header_view h, reader.new.bytes)) result
        (pattern_header_at strict reader.old.bytes) }
    ensures width { IfOk result (λ h. 1 ≤ h.pattern_width) }
    ensures height { IfOk result (λ h. 1 ≤ h.pattern_height) }
    ensures place { OnOk result (reader.new ≡ start_of reader.new.bytes) }
    ensures stays { OnErr result (reader.new ≡ reader.old) }
    ensures causes { HasCause result (BreaksPatternHeader reader.old.bytes) }
{
    let mut ahead = reader.duplicate();
    let flags = byte_field(&mut ahead)?;
    let pattern_width = side_field(&mut ahead)?;
    let pattern_height = side_field(&mut ahead)?;
    let gray_max = u32_field(&mut ahead)?;
    *reader = ahead;
    Ok(PatternDictionaryHeader {
        mmr: flags % 2 == 1,
        template: Template::from_byte(flags / 2),
        pattern_width,
        pattern_height,
        num_patterns: gray_max,
        bytes: reader.tail(),
        strict,
    })
}
