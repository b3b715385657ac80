//! The page while its segments are drawn: its bitmap, the intermediate regions that are kept, and what was passed over.
ghost use Rattle.std.specs.Prelude.{◌≡◌, ◌==◌, ◌*◌, ◌<◌, ◌≤◌, [], true, false, Ok, Some, if◌then◌else◌};
ghost use Rattle.jbig2_base.specs.Grid.{max_side};
ghost use Rattle.jbig2_base.specs.Results.{Gives};
ghost use Rattle.jbig2_framing.specs.inner.SegmentViews.{segment_view};
ghost use Rattle.jbig2_region.specs.inner.RegionViews.{region_view};
ghost use Rattle.jbig2_page.specs.Image.{packed_of};
ghost use Rattle.jbig2_page.specs.Page.{blank_page, empty_drawing, passing, with_cut_off, with_drawn_region, with_region};
ghost use Rattle.jbig2_page.specs.inner.WholePages.{IsBlankPage};
ghost use Rattle.jbig2_page.specs.PassedOver.{with_passed};
ghost use Rattle.jbig2_steps.specs.Work.{PaidBut, paid_words, price_of_bitmap};

use crate::kept::Kept;
use crate::kept::names::KeptNames;
use crate::packed::drawn_rows::DrawnRows;
use crate::passed_over::PassedOver;
use crate::workspace::Workspace;
use jbig2_base::bitmap::Bitmap;
use jbig2_base::error::{DecodeError, Result};
use jbig2_framing::cut_off::CutOff;
use jbig2_framing::page_info::InitialPage;
use jbig2_framing::segment::{Segment, is_partial};
use jbig2_region::decoded_region::DecodedRegion;
use jbig2_steps::Work;
use std::alloc::Allocator;
use std::marker::Model;
use std::sync::ledger::Ledger;

/// The page that is drawn, what its segments keep, and the memory that drawing uses. The next page
/// uses it all again, and its result does not depend on what was there before.
pub struct Canvas<A: Allocator> {
    pub(crate) bitmap: Bitmap<A>,
    pub(crate) regions: Vec<Kept<DecodedRegion<A>>, A>,
    pub(crate) names: KeptNames<A>,
    pub(crate) untouched: bool,
    pub(crate) passed_over: PassedOver,
    /// The colour that the page begins in, and has while it is untouched.
    pub(crate) default_pixel: bool,
    pub(crate) workspace: Workspace<A>,
}

impl<A: Allocator> Drop for Canvas<A> {
    fn drop(self) {
        let Canvas {
            bitmap: _,
            regions: _,
            names: _,
            untouched: _,
            passed_over: _,
            default_pixel: _,
            workspace: _,
        } = self;
    }
}

impl<A: Allocator> Model for Canvas<A> {
    ghost use Rattle.std.specs.Prelude.{◌≡◌, true};
    ghost use Rattle.jbig2_region.specs.inner.RegionViews.{region_view};
    ghost use Rattle.jbig2_page.specs.Page.{Drawing};
    ghost use Rattle.jbig2_page.specs.inner.KeptViews.{kept_values};
    ghost use Rattle.jbig2_page.specs.inner.WholePages.{IsBlankPage};

    ghost Value = { Drawing };

    ghost view = { λ c. record {
      grid = c.bitmap;
      regions = kept_values region_view c.regions.items;
      names = c.names;
      untouched = c.untouched;
      passed_over = c.passed_over;
    } };

    ghost invariant = { λ c. c.untouched ≡ true → IsBlankPage c.default_pixel c.bitmap };
}

impl<A: Allocator + Clone> Canvas<A> {
    /// A page of no pixels. Its only error is `DecodeError::OutOfMemory`.
    pub fn new(alloc: A) -> Result<Canvas<A>>
        ensures { Gives (λ canvas. canvas) result (Ok empty_drawing) }
    {
        Ok(Canvas {
            bitmap: Bitmap::new_empty(alloc.clone()?),
            regions: Vec::new(alloc.clone()?),
            names: KeptNames::new(alloc.clone()?)?,
            untouched: true,
            passed_over: PassedOver::nothing(),
            default_pixel: false,
            workspace: Workspace::new(alloc)?,
        })
    }
}

impl<A: Allocator> Canvas<A> {
    /// What was passed over on the page.
    pub fn passed_over(&self) -> &PassedOver
        ensures { result.now ≡ self.now.passed_over }
    {
        &self.passed_over
    }

    /// Whether the page is still white.
    pub(crate) fn is_white(&self) -> bool
        ensures blank { result ≡ true → IsBlankPage false self.now.grid }
        ensures untouched { result ≡ true → self.now.untouched ≡ true }
    {
        if !self.untouched || self.default_pixel {
            return false;
        }
        true
    }

    /// What is drawn so far.
    pub(crate) fn page(&self) -> &Bitmap<A>
        ensures { result.now ≡ self.now.grid }
    {
        &self.bitmap
    }

    /// The page as packed rows.
    pub fn drawn_rows(&self) -> DrawnRows<'_, A>
        ensures { result ≡ packed_of self.now.grid.width self.now.grid.height self.now.grid }
    {
        DrawnRows::new(&self.bitmap, self.is_white())
    }

    /// Begins a page. Nothing is left of an earlier one. The words of the page count as cleared.
    pub(crate) fn begin<L: Ledger>(
        &mut self,
        initial_page: &InitialPage,
        work: &mut Work<L>,
    ) -> Result<()>
        requires width { initial_page.now.width ≤ max_side }
        requires height { initial_page.now.height ≤ max_side }
        ensures value { Gives (λ _. self.new) result (Ok (blank_page initial_page.now)) }
        ensures paid { let page = initial_page.now in
            PaidBut (paid_words page.width page.height) work.old work.new }
    {
        self.bitmap.reinitialize(
            initial_page.width,
            initial_page.height,
            initial_page.default_pixel,
            &mut work.steps,
        )?;
        self.default_pixel = initial_page.default_pixel;
        self.regions.clear();
        self.names.clear();
        self.untouched = true;
        self.passed_over = PassedOver::nothing();
        Ok(())
    }

    /// Combines an immediate region with the page, at its location as signed numbers (T.88, 7.4.1).
    pub(crate) fn combine<L: Ledger>(&mut self, region: &DecodedRegion<A>, work: &mut Work<L>)
        ensures value { Ok self.new ≡ with_drawn_region self.old (Ok (region_view region.now)) }
        ensures paid { let source = region.now.bitmap in
            PaidBut (32 * price_of_bitmap source.width source.height) work.old work.new }
    {
        self.bitmap.combine(
            &region.bitmap,
            region.x_location.cast_signed(),
            region.y_location.cast_signed(),
            region.combination_operator,
            &mut work.steps,
        );
        self.untouched = false;
    }

    /// Passes over a segment that failed and left the page as it was. One whose data is cut off is counted where the
    /// list of segments ends.
    pub(crate) fn pass(&mut self, segment: &Segment<'_, A>, error: DecodeError)
        requires { self.old.passed_over.count < usize.MAX }
        ensures { self.new ≡ passing (segment_view segment.now) error self.old }
    {
        self.untouched = false;
        if !is_partial(segment) {
            let number = segment.header.segment_number;
            self.passed_over.add(Some(number), error);
        }
    }

    /// Counts a segment that strict reading refuses, unless it was counted since `before` segments were.
    pub(crate) fn tell(&mut self, fault: DecodeError, before: usize, number: u32)
        requires { before < usize.MAX }
        ensures { let passed = self.old.passed_over in
            self.new ≡ (if passed.count == before
            then record self.old { passed_over = with_passed (Some number) fault passed }
            else self.old) }
    {
        if self.passed_over.count == before {
            self.passed_over.add(Some(number), fault);
        }
    }

    /// Counts the segment at which the list of segments ended early.
    pub(crate) fn tell_cut_off(&mut self, cut_off: &Option<CutOff>)
        requires { self.old.passed_over.count < usize.MAX }
        ensures { self.new ≡ with_cut_off cut_off.now self.old }
    {
        if let Some(cut_off) = cut_off {
            let error = cut_off.error.duplicate();
            self.passed_over.add(cut_off.segment_number, error);
        }
    }

    /// Keeps an intermediate region under its segment's number.
    pub(crate) fn store(&mut self, segment_number: u32, region: DecodedRegion<A>) -> Result<()>
        ensures { Gives (λ _. self.new) result
            (Ok (with_region segment_number self.old (region_view region))) }
    {
        self.regions.push(Kept {
            segment_number,
            value: region,
        })?;
        Ok(())
    }
}
