//! Regions that fill a whole page by themselves. They are decoded directly into the page's bitmap.
ghost use Rattle.std.specs.Prelude.{◌≡◌, ◌⊎◌, true, false, IfErr};
ghost use Rattle.jbig2_base.specs.Results.{Gives};
ghost use Rattle.jbig2_base.specs.declared.error.DecodeError.TheVariants.{OutOfMemory};
ghost use Rattle.jbig2_page.specs.Page.{draws_over};
ghost use Rattle.jbig2_page.specs.inner.ParsedRegions.{IsDecodable, region_grid, info_of, initial_of};
ghost use Rattle.jbig2_page.specs.inner.WholePages.{IsBlankPage, IsWhole};
ghost use Rattle.jbig2_steps.specs.Work.{Paid};

use crate::region::parsed_region::ParsedRegion;
use crate::workspace::Workspace;
use jbig2_base::bitmap::{Bitmap, CombinationOperator};
use jbig2_base::error::Result;
use jbig2_steps::Work;
use std::alloc::Allocator;
use std::sync::ledger::Ledger;

/// Whether this operator on a white page gives the region's own pixels.
fn draws_over_white(operator: CombinationOperator) -> bool
    ensures { result ≡ draws_over operator false }
{
    match operator {
        CombinationOperator::Replace | CombinationOperator::Or | CombinationOperator::Xor => true,
        CombinationOperator::And | CombinationOperator::Xnor => false,
    }
}

impl<'a, 'n, 'r, A: Allocator + Clone> ParsedRegion<'a, 'n, 'r, A> {
    /// Whether drawing the region on a white page gives exactly the region. It must begin white and
    /// have the page's size and place, and its operator must draw over white.
    pub(crate) fn makes_up(&self, page: &Bitmap<A>) -> bool
        ensures { result ≡ true → IsBlankPage false page.now →
            IsWhole (info_of self.now) (initial_of self.now) page.now }
    {
        if self.initial_pixel() {
            return false;
        }
        let info = self.region_info();
        if info.x_location > 0 || info.y_location > 0 {
            return false;
        }
        if info.width != page.width() || info.height != page.height() {
            return false;
        }
        draws_over_white(info.combination_operator)
    }

    /// Decodes a region that is the whole page into the page's own bitmap. After an error the bitmap is as it was,
    /// unless memory ran out.
    pub(crate) fn decode_onto_page<L: Ledger>(
        self,
        page: &mut Bitmap<A>,
        workspace: &mut Workspace<A>,
        work: &mut Work<L>,
    ) -> Result<()>
        requires parsed { IsDecodable self }
        requires whole { IsWhole (info_of self) (initial_of self) page.old }
        ensures value { Gives (λ _. page.new) result (region_grid self.entry) }
        ensures err { IfErr result (λ e. (e ≡ OutOfMemory) ⊎ (page.new ≡ page.old)) }
        ensures paid { Paid work.old work.new }
    {
        self.pay_bitmaps(1, work)?;
        match self.decode_into(page, workspace, work) {
            Ok(()) => Ok(()),
            Err(error) => {
                let info = self.region_info();
                page.reinitialize(
                    info.width,
                    info.height,
                    self.initial_pixel(),
                    &mut work.steps,
                )?;
                Err(error)
            }
        }
    }
}
