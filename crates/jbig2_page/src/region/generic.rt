//! Parses the generic regions of a page (T.88, 7.4.6).
ghost use Rattle.std.specs.Prelude.{IfOk};
ghost use Rattle.jbig2_framing.specs.inner.SegmentViews.{segment_view};
ghost use Rattle.jbig2_page.specs.Regions.{generic_at};
ghost use Rattle.jbig2_page.specs.inner.ParsedRegions.{IsDecodable, DecodesTo};
ghost use Rattle.jbig2_steps.specs.Work.{Paid};

use crate::region::parsed_region::ParsedRegion;
use crate::region::partial::with_whole_rows;
use crate::region::references::References;
use crate::workspace::Workspace;
use jbig2_base::error::Result;
use jbig2_base::reader::Reader;
use jbig2_framing::segment::{Segment, is_partial};
use jbig2_region::generic;
use jbig2_steps::Work;
use std::alloc::Allocator;
use std::sync::ledger::Ledger;

/// Parses a generic region. Only an immediate one of unknown length ends with its row count.
#[tactic(auto, unfolding(crate::specs::Regions::generic_at))]
pub(crate) fn parse_generic<'a, 'n, 'r, A: Allocator + Clone, L: Ledger>(
    references: &References<'n, 'r, '_, A>,
    is_intermediate: bool,
    segment: &Segment<'a, A>,
    workspace: &Workspace<A>,
    work: &mut Work<L>,
) -> Result<ParsedRegion<'a, 'n, 'r, A>>
    ensures value { DecodesTo result (generic_at references.now.names.strict is_intermediate
        (segment_view segment.now)) }
    ensures parsed { IfOk result (λ region. IsDecodable region) }
    ensures paid { Paid work.old work.new }
{
    let unknown_length = !is_intermediate && segment.header.data_length.is_none();
    let mut reader = Reader::new(segment.bytes);
    let header = generic::parse(&mut reader, unknown_length, references.names.strict)?;
    let header = with_whole_rows(is_partial(segment), header, workspace, work)?;
    Ok(ParsedRegion::Generic { header })
}
