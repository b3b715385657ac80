//! Draws a page's segments onto the page (T.88, 8.2).
ghost use Rattle.std.specs.Prelude.{◌≡◌, ◌+◌, ◌*◌, ◌<◌, ◌≤◌, ◌⊎◌, true, false, Err, IfErr, IfOk, OnOk, length};
ghost use Rattle.jbig2_base.specs.Results.{Gives};
ghost use Rattle.jbig2_framing.specs.inner.SegmentViews.{segment_view, segment_views};
ghost use Rattle.jbig2_page.specs.Names.{with_patterns, with_symbols};
ghost use Rattle.jbig2_framing.specs.Reading.{is_strict};
ghost use Rattle.jbig2_page.specs.Page.{segments_drawn, ends_page, immediate, intermediate, with_names, or_left_out, or_passed_over, region_at, segment_by, segment_on, with_drawn_region};
ghost use Rattle.jbig2_base.specs.declared.error.DecodeError.TheVariants.{OutOfMemory};
ghost use Rattle.jbig2_region.specs.inner.RegionViews.{region_view};
ghost use Rattle.jbig2_page.specs.inner.KeptViews.{kept_values};
ghost use Rattle.jbig2_page.specs.inner.ParsedRegions.{drawing_of};
ghost use Rattle.jbig2_page.specs.SegmentPrices.{drawn_count};
ghost use Rattle.jbig2_page.specs.PassedOver.{nothing_passed};
ghost use Rattle.jbig2_steps.specs.Work.{Paid, budget};
ghost use Rattle.jbig2_steps.specs.declared.prices.TheConstants as prices;

pub mod canvas;

use crate::drawing::canvas::Canvas;
use crate::kept::Kept;
use crate::kept::names::{KeptNames, Lookup};
use crate::kept::segments::{keep_patterns, keep_symbols, keep_table};
use crate::other_segments::{extension, unlisted};
use crate::region::references::References;
use crate::region::{RegionKind, parse_region};
use crate::segment_price::pay_segment;
use jbig2_base::bitmap::Bitmap;
use jbig2_base::error::{DecodeError, Result};
use jbig2_framing::reading::Reading;
use jbig2_framing::segment::{Segment, SegmentType, is_partial};
use jbig2_region::decoded_region::DecodedRegion;
use jbig2_steps::Work;
use std::alloc::Allocator;
use std::sync::ledger::Ledger;

/// What is needed to draw all segments of a page.
#[derive(Drop)]
pub(crate) struct Drawer<'a, A: Allocator> {
    pub(crate) reading: Reading,
    /// What the globals keep.
    pub(crate) globals: &'a KeptNames<A>,
}

fn ends_page(kind: SegmentType) -> bool
    ensures { result ≡ ends_page kind }
{
    matches!(kind, SegmentType::EndOfPage | SegmentType::EndOfFile)
}

impl<'a, A: Allocator + Clone> Drawer<'a, A> {
    /// Draws segments in order, up to an end of page or an end of file.
    pub(crate) fn draw_segments<L: Ledger>(
        &self,
        segments: &[Segment<'_, A>],
        canvas: &mut Canvas<A>,
        work: &mut Work<L>,
    ) -> Result<()>
        requires { canvas.old.passed_over.count ≡ 0 }
        ensures value { Gives (λ _. canvas.new) result
            (segments_drawn self.now.reading self.now.globals.now (segment_views segments.now)
            canvas.old) }
        ensures paid { Paid work.old work.new }
        ensures taken { let count = drawn_count (segment_views segments.now) in
            IfOk result (λ _. budget work.new + 32 * (prices.SEGMENT * count) ≤ budget work.old) }
        ensures few { OnOk result (canvas.new.passed_over.count ≤ length segments.now) }
    {
        for segment in segments {
            if ends_page(segment.header.segment_type) {
                return Ok(());
            }
            let kept = canvas.names.count().saturating_add(self.globals.count());
            pay_segment(segment, kept, work)?;
            match self.draw_segment(segment, canvas, work) {
                Ok(()) => {}
                Err(error) => return Err(error),
            }
        }
        Ok(())
    }

    /// The same in strict reading.
    fn strictly(&self) -> Drawer<'a, A>
        ensures reading { result.reading ≡ Reading.Strict }
        ensures globals { result.globals.now ≡ self.now.globals.now }
    {
        Drawer {
            reading: Reading::Strict,
            globals: self.globals,
        }
    }

    /// Draws one segment onto the page, or keeps what it holds. It is tried strictly first: one that strict reading
    /// refuses is counted, also where another reading draws or keeps it.
    fn draw_segment<L: Ledger>(
        &self,
        segment: &Segment<'_, A>,
        canvas: &mut Canvas<A>,
        work: &mut Work<L>,
    ) -> Result<()>
        requires { canvas.old.passed_over.count < usize.MAX }
        ensures value { Gives (λ _. canvas.new) result
            (segment_on self.now.reading self.now.globals.now (segment_view segment.now)
            canvas.old) }
        ensures paid { Paid work.old work.new }
    {
        if self.reading.is_strict() || is_partial(segment) {
            return self.try_or_leave_out(segment, canvas, work);
        }
        let before = canvas.passed_over.count;
        let fault = match self.strictly().try_segment(segment, canvas, work) {
            Ok(()) => return Ok(()),
            Err(fault) => fault,
        };
        if matches!(fault, DecodeError::OutOfMemory) {
            return Err(fault);
        }
        match self.try_or_leave_out(segment, canvas, work) {
            Ok(()) => {}
            Err(error) => return Err(error),
        }
        canvas.tell(fault, before, segment.header.segment_number);
        Ok(())
    }

    /// Draws one segment onto the page, or keeps what it holds. Salvage passes over one that fails.
    fn try_or_leave_out<L: Ledger>(
        &self,
        segment: &Segment<'_, A>,
        canvas: &mut Canvas<A>,
        work: &mut Work<L>,
    ) -> Result<()>
        requires { canvas.old.passed_over.count < usize.MAX }
        ensures value { Gives (λ _. canvas.new) result
            (or_left_out self.now.reading (segment_view segment.now) canvas.old
            (segment_by (is_strict self.now.reading) self.now.globals.now
            (segment_view segment.now) canvas.old)) }
        ensures paid { Paid work.old work.new }
    {
        match self.try_segment(segment, canvas, work) {
            Ok(()) => Ok(()),
            Err(error) => self.leave_out(segment, error, canvas),
        }
    }

    /// Handles a segment that failed and left the page as it was: salvage passes over it.
    fn leave_out(
        &self,
        segment: &Segment<'_, A>,
        error: DecodeError,
        canvas: &mut Canvas<A>,
    ) -> Result<()>
        requires { (error ≡ OutOfMemory) ⊎ (canvas.old.passed_over.count < usize.MAX) }
        ensures value { Gives (λ _. canvas.new) result
            (or_left_out self.now.reading (segment_view segment.now) canvas.old (Err error)) }
        ensures memory { error ≡ OutOfMemory → result ≡ Err OutOfMemory }
        ensures asks_nothing { result ≡ Err OutOfMemory → error ≡ OutOfMemory }
    {
        if !self.reading.is_salvaged(&error) {
            return Err(error);
        }
        canvas.pass(segment, error);
        Ok(())
    }

    /// Draws one segment onto the page, or keeps what it holds, by its type (T.88, 7.3).
    fn try_segment<L: Ledger>(
        &self,
        segment: &Segment<'_, A>,
        canvas: &mut Canvas<A>,
        work: &mut Work<L>,
    ) -> Result<()>
        requires { canvas.old.passed_over.count < usize.MAX }
        ensures value { Gives (λ _. canvas.new) result
            (segment_by (is_strict self.now.reading) self.now.globals.now
            (segment_view segment.now) canvas.old) }
        ensures err { IfErr result (λ e. (e ≡ OutOfMemory) ⊎ (canvas.new ≡ canvas.old)) }
        ensures paid { Paid work.old work.new }
    {
        match segment.header.segment_type {
            SegmentType::SymbolDictionary => self.keep_symbols(segment, canvas, work),
            SegmentType::PatternDictionary => self.keep_patterns(segment, canvas, work),
            SegmentType::Tables => keep_table(&mut canvas.names, segment, &canvas.workspace),
            SegmentType::IntermediateTextRegion => {
                self.keep_region(RegionKind::Text, segment, canvas, work)
            }
            SegmentType::ImmediateTextRegion | SegmentType::ImmediateLosslessTextRegion => {
                self.draw_region(RegionKind::Text, segment, canvas, work)
            }
            SegmentType::IntermediateHalftoneRegion => {
                self.keep_region(RegionKind::Halftone, segment, canvas, work)
            }
            SegmentType::ImmediateHalftoneRegion | SegmentType::ImmediateLosslessHalftoneRegion => {
                self.draw_region(RegionKind::Halftone, segment, canvas, work)
            }
            SegmentType::IntermediateGenericRegion => {
                self.keep_region(RegionKind::Generic, segment, canvas, work)
            }
            SegmentType::ImmediateGenericRegion | SegmentType::ImmediateLosslessGenericRegion => {
                self.draw_region(RegionKind::Generic, segment, canvas, work)
            }
            SegmentType::IntermediateGenericRefinementRegion => {
                self.keep_region(RegionKind::GenericRefinement, segment, canvas, work)
            }
            SegmentType::ImmediateGenericRefinementRegion
            | SegmentType::ImmediateLosslessGenericRefinementRegion => {
                self.draw_region(RegionKind::GenericRefinement, segment, canvas, work)
            }
            SegmentType::Extension => extension(self.reading.is_strict(), segment.bytes),
            SegmentType::PageInformation
            | SegmentType::EndOfPage
            | SegmentType::EndOfStripe
            | SegmentType::EndOfFile
            | SegmentType::Profiles
            | SegmentType::ColourPalette => Ok(()),
            SegmentType::Reserved => unlisted(self.reading.is_strict()),
        }
    }

    /// Keeps a symbol dictionary under its segment's number.
    fn keep_symbols<L: Ledger>(
        &self,
        segment: &Segment<'_, A>,
        canvas: &mut Canvas<A>,
        work: &mut Work<L>,
    ) -> Result<()>
        ensures value { Gives (λ _. canvas.new) result
            (with_names canvas.old (with_symbols (is_strict self.now.reading) self.now.globals.now
            (segment_view segment.now) canvas.old.names)) }
        ensures err { IfErr result (λ e. (e ≡ OutOfMemory) ⊎ (canvas.new ≡ canvas.old)) }
        ensures paid { Paid work.old work.new }
    {
        let (strict, workspace) = (self.reading.is_strict(), &canvas.workspace);
        keep_symbols(
            &mut canvas.names,
            strict,
            self.globals,
            segment,
            workspace,
            work,
        )
    }

    /// Keeps a pattern dictionary under its segment's number.
    fn keep_patterns<L: Ledger>(
        &self,
        segment: &Segment<'_, A>,
        canvas: &mut Canvas<A>,
        work: &mut Work<L>,
    ) -> Result<()>
        ensures value { Gives (λ _. canvas.new) result
            (with_names canvas.old (with_patterns (is_strict self.now.reading)
            (segment_view segment.now) canvas.old.names)) }
        ensures err { IfErr result (λ e. (e ≡ OutOfMemory) ⊎ (canvas.new ≡ canvas.old)) }
        ensures paid { Paid work.old work.new }
    {
        let (strict, workspace) = (self.reading.is_strict(), &mut canvas.workspace);
        keep_patterns(&mut canvas.names, strict, segment, workspace, work)
    }

    /// What a region may refer to: the parts of a canvas, and the globals.
    fn references<'n, 'r, 'p>(
        &'n self,
        own: &'n KeptNames<A>,
        regions: &'r [Kept<DecodedRegion<A>>],
        page: &'p Bitmap<A>,
    ) -> References<'n, 'r, 'p, A>
        ensures strict { result.names.strict ≡ is_strict self.now.reading }
        ensures globals { result.names.globals.now ≡ self.now.globals.now }
        ensures drawing { drawing_of result ≡ record {
          grid = page.now;
          regions = kept_values region_view regions.now;
          names = own.now;
          untouched = false;
          passed_over = nothing_passed;
        } }
    {
        References {
            names: Lookup {
                strict: self.reading.is_strict(),
                own,
                globals: self.globals,
            },
            regions,
            page,
        }
    }

    /// Draws an immediate region. Lenient reading passes over one that fails, unless memory ran out.
    #[tactic(auto, unfolding(crate::specs::Page::immediate))]
    fn draw_region<L: Ledger>(
        &self,
        kind: RegionKind,
        segment: &Segment<'_, A>,
        canvas: &mut Canvas<A>,
        work: &mut Work<L>,
    ) -> Result<()>
        requires { canvas.old.passed_over.count < usize.MAX }
        ensures value { Gives (λ _. canvas.new) result
            (immediate (is_strict self.now.reading) self.now.globals.now kind
            (segment_view segment.now) canvas.old) }
        ensures err { IfErr result (λ e. (e ≡ OutOfMemory) ⊎ (canvas.new ≡ canvas.old)) }
        ensures paid { Paid work.old work.new }
    {
        match self.try_region(kind, segment, canvas, work) {
            Ok(()) => Ok(()),
            Err(error) => self.pass_over(segment, error, canvas),
        }
    }

    /// Combines an immediate region with the page. A region that fills the whole page by itself is
    /// decoded directly into the page's bitmap.
    fn try_region<L: Ledger>(
        &self,
        kind: RegionKind,
        segment: &Segment<'_, A>,
        canvas: &mut Canvas<A>,
        work: &mut Work<L>,
    ) -> Result<()>
        ensures value { Gives (λ _. canvas.new) result
            (with_drawn_region canvas.old (region_at (is_strict self.now.reading)
            self.now.globals.now kind false (segment_view segment.now) canvas.old)) }
        ensures err { IfErr result (λ e. (e ≡ OutOfMemory) ⊎ (canvas.new ≡ canvas.old)) }
        ensures passed { canvas.new.passed_over ≡ canvas.old.passed_over }
        ensures paid { Paid work.old work.new }
    {
        let is_white = canvas.is_white();
        let references = self.references(&canvas.names, &canvas.regions, &canvas.bitmap);
        let workspace = &canvas.workspace;
        let parsed = parse_region(&references, kind, false, segment, workspace, work)?;
        if is_white && parsed.makes_up(&canvas.bitmap) {
            canvas.untouched = false;
            match parsed.decode_onto_page(&mut canvas.bitmap, &mut canvas.workspace, work) {
                Ok(()) => return Ok(()),
                Err(error) => {
                    canvas.untouched = !matches!(error, DecodeError::OutOfMemory);
                    return Err(error);
                }
            }
        }
        let seen = parsed.above_end(canvas.bitmap.height());
        let region = seen.decode(&mut canvas.workspace, work)?;
        canvas.combine(&region, work);
        Ok(())
    }

    /// Handles an immediate region that failed and left the page as it was. Lenient reading and
    /// salvage pass over it.
    fn pass_over(
        &self,
        segment: &Segment<'_, A>,
        error: DecodeError,
        canvas: &mut Canvas<A>,
    ) -> Result<()>
        requires { canvas.old.passed_over.count < usize.MAX }
        ensures value { Gives (λ _. canvas.new) result
            (or_passed_over (is_strict self.now.reading) (segment_view segment.now) canvas.old
            (Err error)) }
        ensures err { IfErr result (λ e. canvas.new ≡ canvas.old) }
        ensures memory { error ≡ OutOfMemory → result ≡ Err OutOfMemory }
        ensures asks_nothing { result ≡ Err OutOfMemory → error ≡ OutOfMemory }
    {
        if self.reading.is_strict() || matches!(error, DecodeError::OutOfMemory) {
            return Err(error);
        }
        canvas.pass(segment, error);
        Ok(())
    }

    /// Keeps an intermediate region under its segment's number.
    #[tactic(auto, unfolding(crate::specs::Page::intermediate))]
    fn keep_region<L: Ledger>(
        &self,
        kind: RegionKind,
        segment: &Segment<'_, A>,
        canvas: &mut Canvas<A>,
        work: &mut Work<L>,
    ) -> Result<()>
        ensures value { Gives (λ _. canvas.new) result
            (intermediate (is_strict self.now.reading) self.now.globals.now kind
            (segment_view segment.now) canvas.old) }
        ensures err { IfErr result (λ e. (e ≡ OutOfMemory) ⊎ (canvas.new ≡ canvas.old)) }
        ensures paid { Paid work.old work.new }
    {
        let references = self.references(&canvas.names, &canvas.regions, &canvas.bitmap);
        let workspace = &canvas.workspace;
        let parsed = parse_region(&references, kind, true, segment, workspace, work)?;
        let region = parsed.decode(&mut canvas.workspace, work)?;
        canvas.store(segment.header.segment_number, region)
    }
}
