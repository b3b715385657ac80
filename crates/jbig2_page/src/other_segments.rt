//! Segments that draw nothing and keep nothing: extensions (T.88, 7.4.14), and those of a type that 7.3 doesn't list.
ghost use Rattle.jbig2_base.specs.Results.{Returns, refuse_if};
ghost use Rattle.jbig2_base.specs.Causes.{HasCause};
ghost use Rattle.jbig2_page.specs.Causes.{BreaksExtension};
ghost use Rattle.jbig2_page.specs.OtherSegments.{extension};

use jbig2_base::error::{DecodeError, Result, SegmentError};
use jbig2_base::field::u32_field;
use jbig2_base::reader::Reader;

/// An extension segment (T.88, 7.4.14): strict reading refuses one that a decoder must know.
#[tactic(auto, using(crate::proofs::SegmentCauses::extension_cause))]
pub(crate) fn extension(strict: bool, bytes: &[u8]) -> Result<()>
    ensures value { Returns (λ known. known) result (extension strict bytes.now) }
    ensures causes { HasCause result (BreaksExtension strict bytes.now) }
{
    if !strict {
        return Ok(());
    }
    let mut reader = Reader::new(bytes);
    let kind = u32_field(&mut reader)?;
    if kind >= 0x8000_0000 {
        return Err(DecodeError::Unsupported);
    }
    Ok(())
}

/// A segment of a type that isn't listed (T.88, 7.3): strict reading refuses it.
pub(crate) fn unlisted(strict: bool) -> Result<()>
    ensures { Returns (λ known. known) result (refuse_if strict (DecodeError.Segment SegmentError.UnknownType)) }
{
    if strict {
        return Err(SegmentError::UnknownType.into());
    }
    Ok(())
}
