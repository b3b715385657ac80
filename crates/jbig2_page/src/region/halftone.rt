//! Parses the halftone regions of a page, with their patterns (T.88, 7.4.5).
ghost use Rattle.std.specs.Prelude.{IfOk};
ghost use Rattle.jbig2_base.specs.Results.{Returns, some_or};
ghost use Rattle.jbig2_framing.specs.inner.SegmentViews.{segment_view};
ghost use Rattle.jbig2_page.specs.Regions.{halftone_at, patterns_for};
ghost use Rattle.jbig2_page.specs.inner.KeptViews.{patterns_view};
ghost use Rattle.jbig2_page.specs.inner.ParsedRegions.{IsDecodable, DecodesTo};
ghost use Rattle.jbig2_page.specs.Causes.{BreaksPatternReference};
ghost use Rattle.jbig2_base.specs.Causes.{HasCause};
ghost use Rattle.jbig2_steps.specs.Work.{Paid};

use crate::kept::names::Lookup;
use crate::region::parsed_region::ParsedRegion;
use crate::region::partial::halftone_part;
use crate::region::references::References;
use crate::workspace::Workspace;
use jbig2_base::error::{DecodeError, Result, SegmentError};
use jbig2_base::reader::Reader;
use jbig2_framing::segment::{Segment, is_partial};
use jbig2_halftone::halftone;
use jbig2_halftone::pattern::PatternDictionary;
use jbig2_steps::Work;
use std::alloc::Allocator;
use std::sync::ledger::Ledger;

/// The pattern dictionary that the first referred number names.
#[tactic(auto, using(crate::proofs::SegmentCauses::patterns_cause))]
fn referred_patterns<'a, A: Allocator>(
    lookup: &Lookup<'a, A>,
    numbers: &[u32],
) -> Result<&'a PatternDictionary<A>>
    ensures value { Returns (λ patterns. patterns_view patterns.now) result
        (some_or (DecodeError.Segment SegmentError.MissingPatternDictionary)
        (patterns_for lookup.now.own.now lookup.now.globals.now numbers.now)) }
    ensures causes { HasCause result
        (BreaksPatternReference lookup.now.own.now lookup.now.globals.now numbers.now) }
{
    if let Some(number) = numbers.first() {
        if let Some(patterns) = lookup.patterns(*number) {
            return Ok(patterns);
        }
    }
    Err(SegmentError::MissingPatternDictionary.into())
}

/// Parses a halftone region, with the patterns of the dictionary that it refers to.
#[tactic(auto, unfolding(crate::specs::Regions::halftone_at, jbig2_halftone::specs::Halftone::halftone_decoded))]
pub(crate) fn parse_halftone<'a, 'n, 'r, A: Allocator + Clone, L: Ledger>(
    references: &References<'n, 'r, '_, A>,
    segment: &Segment<'a, A>,
    workspace: &Workspace<A>,
    work: &mut Work<L>,
) -> Result<ParsedRegion<'a, 'n, 'r, A>>
    ensures value { DecodesTo result
        (halftone_at references.now.names.strict references.now.names.own.now
        references.now.names.globals.now
        (segment_view segment.now)) }
    ensures parsed { IfOk result (λ region. IsDecodable region) }
    ensures paid { Paid work.old work.new }
{
    let lookup = &references.names;
    let patterns = referred_patterns(lookup, &segment.header.referred_to_segments)?;
    let mut reader = Reader::new(segment.bytes);
    let header = halftone::parse(&mut reader, lookup.strict)?;
    if is_partial(segment) {
        return halftone_part(&header, patterns, workspace, work);
    }
    Ok(ParsedRegion::Halftone { header, patterns })
}
