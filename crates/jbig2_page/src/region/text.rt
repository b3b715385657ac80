//! Parses the text regions of a page, with the symbols that they draw (T.88, 7.4.3).
ghost use Rattle.std.specs.Prelude.{IfOk};
ghost use Rattle.jbig2_framing.specs.inner.SegmentViews.{segment_view};
ghost use Rattle.jbig2_page.specs.Regions.{text_at};
ghost use Rattle.jbig2_page.specs.inner.ParsedRegions.{IsDecodable, DecodesTo};
ghost use Rattle.jbig2_steps.specs.Work.{Paid};

use crate::kept::referred::gather_referred;
use crate::region::parsed_region::ParsedRegion;
use crate::region::partial::with_whole_instances;
use crate::region::references::References;
use crate::workspace::Workspace;
use jbig2_base::error::Result;
use jbig2_base::reader::Reader;
use jbig2_framing::segment::{Segment, is_partial};
use jbig2_steps::Work;
use std::alloc::Allocator;
use std::sync::ledger::Ledger;

/// Parses a text region, after what it refers to.
#[tactic(auto, unfolding(crate::specs::Regions::text_at, jbig2_text::specs::TextRegion::text_decoded))]
pub(crate) fn parse_text<'a, 'n, 'r, A: Allocator + Clone, L: Ledger>(
    references: &References<'n, 'r, '_, A>,
    segment: &Segment<'a, A>,
    workspace: &Workspace<A>,
    work: &mut Work<L>,
) -> Result<ParsedRegion<'a, 'n, 'r, A>>
    ensures value { DecodesTo result
        (text_at references.now.names.strict references.now.names.own.now
        references.now.names.globals.now
        (segment_view segment.now)) }
    ensures parsed { IfOk result (λ region. IsDecodable region) }
    ensures paid { Paid work.old work.new }
{
    let lookup = &references.names;
    let numbers = &segment.header.referred_to_segments;
    let referred = gather_referred(workspace.alloc.clone()?, lookup, numbers, work)?;
    let mut reader = Reader::new(segment.bytes);
    let count = referred.symbols.len() as u32;
    let header = jbig2_text::parse(workspace.alloc.clone()?, &mut reader, count, lookup.strict)?;
    let header = with_whole_instances(is_partial(segment), header, &referred, workspace, work)?;
    Ok(ParsedRegion::Text { header, referred })
}
