//! The segment at which a list of segments ends early.
ghost use Rattle.std.specs.Prelude.{◌≡◌, Ok, option_map};
ghost use Rattle.jbig2_base.specs.Results.{Gives};
ghost use Rattle.jbig2_framing.specs.CutOff.{cut_off_at, read_value};
ghost use Rattle.jbig2_framing.specs.Segment.{header_at};

use crate::segment::{SegmentHeader, parse_segment_header};
use jbig2_base::error::{DecodeError, Result};
use jbig2_base::field::u32_field;
use jbig2_base::reader::Reader;
use std::alloc::Allocator;

/// The segment at which a list of segments ends early. In lenient reading the end of the bytes cuts it off. In salvage
/// it may have any fault. Neither it nor what follows it is in the list.
#[derive(Debug, Drop, PartialEq, Eq)]
pub struct CutOff {
    /// The segment's number (T.88, 7.2.2), if its bytes are there.
    pub segment_number: Option<u32>,
    /// The number of its page (T.88, 7.2.6), 0 for none, if its header could be read.
    pub page_association: Option<u32>,
    /// Why it was refused.
    pub error: DecodeError,
}

/// The page association of the header at the reader's place, if that can be read.
fn association_at<A: Allocator>(alloc: A, reader: &Reader<'_>, strict: bool) -> Result<Option<u32>>
    ensures { Gives (λ page. page) result
        (Ok (option_map (λ h. h.page_association) (read_value (header_at strict reader.now.bytes)))) }
{
    match parse_segment_header(alloc, &mut reader.duplicate(), strict) {
        Ok(header) => Ok(Some(header.page_association)),
        Err(DecodeError::OutOfMemory) => Err(DecodeError::OutOfMemory),
        Err(_) => Ok(None),
    }
}

impl CutOff {
    /// The same cut-off once more.
    pub fn duplicate(&self) -> CutOff
        ensures { result ≡ self.now }
    {
        CutOff {
            segment_number: self.segment_number,
            page_association: self.page_association,
            error: self.error.duplicate(),
        }
    }

    /// The segment whose header begins at the reader's place, which was refused with this error.
    pub(crate) fn at<A: Allocator>(
        alloc: A,
        reader: &Reader<'_>,
        strict: bool,
        error: DecodeError,
    ) -> Result<CutOff>
        ensures { Gives (λ cut_off. cut_off) result
            (Ok (cut_off_at strict reader.now.bytes error)) }
    {
        let segment_number = u32_field(&mut reader.duplicate()).ok();
        let page_association = association_at(alloc, reader, strict)?;
        Ok(CutOff {
            segment_number,
            page_association,
            error,
        })
    }
}
