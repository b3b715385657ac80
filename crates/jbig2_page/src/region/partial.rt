//! Regions whose data is cut off: what is there of them is decoded (our own rule).
ghost use Rattle.std.specs.Prelude.{◌≤◌, IfOk, Ok};
ghost use Rattle.jbig2_base.specs.Results.{Gives};
ghost use Rattle.jbig2_base.specs.Grid.{max_side};
ghost use Rattle.jbig2_halftone.specs.WholeCells.{halftone_part};
ghost use Rattle.jbig2_halftone.specs.inner.DictionaryViews.{dictionary_view};
ghost use Rattle.jbig2_page.specs.Regions.{with_whole_instances, with_whole_rows};
ghost use Rattle.jbig2_page.specs.inner.ParsedRegions.{DecodesTo, IsDecodable};
ghost use Rattle.jbig2_region.specs.GenericHeader.{IsParsed};
ghost use Rattle.jbig2_region.specs.RefinementHeader.{IsRefinement};
ghost use Rattle.jbig2_region.specs.WholeRows.{refined_part, whole_generic_rows};
ghost use Rattle.jbig2_region.specs.inner.RegionViews.{region_view};
ghost use Rattle.jbig2_steps.specs.Work.{Paid};
ghost use Rattle.jbig2_halftone.specs.inner.HalftoneHeaderViews as halftones;
ghost use Rattle.jbig2_region.specs.inner.GenericHeaderViews as generics;
ghost use Rattle.jbig2_region.specs.inner.RefinementHeaderViews as refinements;
ghost use Rattle.jbig2_text.specs.inner.TextViews as texts;

use crate::kept::referred::ReferredSegments;
use crate::region::cell_price::pay_cells;
use crate::region::parsed_region::ParsedRegion;
use crate::workspace::Workspace;
use jbig2_base::bitmap::check_sides;
use jbig2_base::error::Result;
use jbig2_halftone::halftone::{self, HalftoneRegionHeader};
use jbig2_halftone::pattern::PatternDictionary;
use jbig2_region::decoded_region::DecodedRegion;
use jbig2_region::generic::{self, GenericRegionHeader};
use jbig2_region::generic_refinement::{self, GenericRefinementRegionHeader};
use jbig2_steps::Work;
use jbig2_text::header::TextRegionHeader;
use std::alloc::Allocator;
use std::sync::ledger::Ledger;

/// How many rows of a generic region are whole. Takes the work of decoding it.
fn whole_rows<A: Allocator + Clone, L: Ledger>(
    header: &GenericRegionHeader<'_>,
    workspace: &Workspace<A>,
    work: &mut Work<L>,
) -> Result<u32>
    requires { IsParsed (generics.header_view header.now) }
    ensures value { Gives (λ rows. rows) result (Ok (whole_generic_rows (generics.header_view header.now))) }
    ensures paid { Paid work.old work.new }
{
    let info = &header.region_info;
    work.pay(header.bytes.len() as u64)?;
    work.pay_bitmap(info.width, info.height)?;
    let mut contexts = Vec::new(workspace.alloc.clone()?);
    generic::whole_rows(
        workspace.alloc.clone()?,
        header,
        &mut contexts,
        &mut work.steps,
    )
}

/// Ends a generic region whose data is cut off after its whole rows.
pub(crate) fn with_whole_rows<'a, A: Allocator + Clone, L: Ledger>(
    is_partial: bool,
    mut header: GenericRegionHeader<'a>,
    workspace: &Workspace<A>,
    work: &mut Work<L>,
) -> Result<GenericRegionHeader<'a>>
    requires { IsParsed (generics.header_view header) }
    ensures value { Gives (λ h. generics.header_view h) result
        (Ok (with_whole_rows is_partial (generics.header_view header.entry))) }
    ensures parsed { IfOk result (λ h. IsParsed (generics.header_view h)) }
    ensures paid { Paid work.old work.new }
{
    if is_partial {
        header.region_info.height = whole_rows(&header, workspace, work)?;
    }
    Ok(header)
}

/// Ends a text region whose data is cut off after its whole instances.
pub(crate) fn with_whole_instances<'a, A: Allocator + Clone, L: Ledger>(
    is_partial: bool,
    mut header: TextRegionHeader<'a, A>,
    referred: &ReferredSegments<'_, A>,
    workspace: &Workspace<A>,
    work: &mut Work<L>,
) -> Result<TextRegionHeader<'a, A>>
    requires { header.flags.log_strip_size ≤ 3 }
    ensures value { Gives (λ h. texts.header_view h) result
        (Ok (with_whole_instances is_partial (texts.header_view header.entry) referred.now.symbols
        referred.now.codes)) }
    ensures strips { IfOk result (λ h. h.flags.log_strip_size ≤ 3) }
    ensures paid { Paid work.old work.new }
{
    if is_partial {
        header.strict = false;
        header.num_instances = jbig2_text::whole_instances(
            workspace.alloc.clone()?,
            &header,
            &referred.symbols,
            &referred.tables,
            &workspace.standard_tables,
            work,
        )?;
    }
    Ok(header)
}

/// Decodes what is there of a refinement. Takes the work of four bitmaps of its size.
pub(crate) fn refined_part<'a, 'n, 'r, A: Allocator + Clone, L: Ledger>(
    header: &GenericRefinementRegionHeader<'_>,
    reference: &DecodedRegion<A>,
    workspace: &Workspace<A>,
    work: &mut Work<L>,
) -> Result<ParsedRegion<'a, 'n, 'r, A>>
    requires { IsRefinement (refinements.header_view header.now) }
    ensures value { DecodesTo result
        (refined_part (refinements.header_view header.now) (region_view reference.now)) }
    ensures parsed { IfOk result (λ region. IsDecodable region) }
    ensures paid { Paid work.old work.new }
{
    work.pay_bitmaps(4, header.region_info.width, header.region_info.height)?;
    let mut contexts = Vec::new(workspace.alloc.clone()?);
    let region = generic_refinement::decode_part(
        workspace.alloc.clone()?,
        header,
        reference,
        &mut contexts,
        &mut work.steps,
    )?;
    Ok(ParsedRegion::Part { region })
}

/// Decodes what is there of a halftone region. Takes the work of two halftones of its size.
pub(crate) fn halftone_part<'a, 'n, 'r, A: Allocator + Clone, L: Ledger>(
    header: &HalftoneRegionHeader<'_>,
    patterns: &PatternDictionary<A>,
    workspace: &Workspace<A>,
    work: &mut Work<L>,
) -> Result<ParsedRegion<'a, 'n, 'r, A>>
    requires columns { header.now.grid_position_and_size.width ≤ max_side }
    requires rows { header.now.grid_position_and_size.height ≤ max_side }
    ensures value { DecodesTo result
        (halftone_part (halftones.header_view header.now) (dictionary_view patterns.now)) }
    ensures parsed { IfOk result (λ region. IsDecodable region) }
    ensures paid { Paid work.old work.new }
{
    check_sides(header.region_info.width, header.region_info.height)?;
    work.pay_bitmap(header.region_info.width, header.region_info.height)?;
    pay_cells(header, patterns, work)?;
    pay_cells(header, patterns, work)?;
    let mut contexts = Vec::new(workspace.alloc.clone()?);
    let region = halftone::decode_part(
        workspace.alloc.clone()?,
        header,
        patterns,
        &mut contexts,
        &mut work.steps,
    )?;
    Ok(ParsedRegion::Part { region })
}
