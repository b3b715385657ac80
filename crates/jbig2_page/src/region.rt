//! The regions of a page, by kind (T.88, 7.4.3 and 7.4.5 to 7.4.7). A region is first parsed, with what it refers to,
//! and then decoded.
ghost use Rattle.std.specs.Prelude.{◌≡◌, IfOk};
ghost use Rattle.jbig2_framing.specs.inner.SegmentViews.{segment_view};
ghost use Rattle.jbig2_page.specs.Page.{is_immediate, region_at, region_type};
ghost use Rattle.jbig2_page.specs.inner.ParsedRegions.{IsDecodable, DecodesTo, drawing_of};
ghost use Rattle.jbig2_steps.specs.Work.{Paid};

mod cell_price;
mod generic;
mod halftone;
pub(crate) mod parsed_region;
pub(crate) mod partial;
pub(crate) mod references;
pub(crate) mod refinement;
mod text;
mod whole_page;

use crate::region::generic::parse_generic;
use crate::region::halftone::parse_halftone;
use crate::region::parsed_region::ParsedRegion;
use crate::region::references::References;
use crate::region::refinement::parse_refinement;
use crate::region::text::parse_text;
use crate::workspace::Workspace;
use jbig2_base::error::Result;
use jbig2_framing::segment::{Segment, SegmentType};
use jbig2_steps::Work;
use std::alloc::Allocator;
use std::sync::ledger::Ledger;

/// The kinds of region.
#[derive(Clone, Copy, Debug)]
pub(crate) enum RegionKind {
    Text,
    Halftone,
    Generic,
    GenericRefinement,
}

/// Whether segments of this type hold a region that is drawn at once.
pub(crate) fn is_immediate_region(kind: SegmentType) -> bool
    ensures { result ≡ is_immediate (region_type kind) }
{
    matches!(
        kind,
        SegmentType::ImmediateTextRegion
            | SegmentType::ImmediateLosslessTextRegion
            | SegmentType::ImmediateHalftoneRegion
            | SegmentType::ImmediateLosslessHalftoneRegion
            | SegmentType::ImmediateGenericRegion
            | SegmentType::ImmediateLosslessGenericRegion
            | SegmentType::ImmediateGenericRefinementRegion
            | SegmentType::ImmediateLosslessGenericRefinementRegion
    )
}

/// Parses the region that a segment holds: what is needed to decode it.
pub(crate) fn parse_region<'a, 'n, 'r, A: Allocator + Clone, L: Ledger>(
    references: &References<'n, 'r, '_, A>,
    kind: RegionKind,
    is_intermediate: bool,
    segment: &Segment<'a, A>,
    workspace: &Workspace<A>,
    work: &mut Work<L>,
) -> Result<ParsedRegion<'a, 'n, 'r, A>>
    ensures value { DecodesTo result
        (region_at references.now.names.strict references.now.names.globals.now kind is_intermediate
        (segment_view segment.now) (drawing_of references.now)) }
    ensures parsed { IfOk result (λ region. IsDecodable region) }
    ensures paid { Paid work.old work.new }
{
    match kind {
        RegionKind::Text => parse_text(references, segment, workspace, work),
        RegionKind::Halftone => parse_halftone(references, segment, workspace, work),
        RegionKind::Generic => {
            parse_generic(references, is_intermediate, segment, workspace, work)
        }
        RegionKind::GenericRefinement => {
            parse_refinement(references, is_intermediate, segment, workspace, work)
        }
    }
}
