//! `DecoderContext`: memory that each page's decoding reuses, the page that was drawn last, and the limit of work.
ghost use Rattle.std.specs.Prelude.{◌≡◌, ◌==◌, ◌&&◌};
ghost use Rattle.jbig2_base.specs.Results.{Gives};
ghost use Rattle.jbig2_base.specs.Counts.{no_steps};
ghost use Rattle.hayro_jbig2.specs.Context.{after_page, fresh_context, new_context};
ghost use Rattle.hayro_jbig2.specs.WorkLimit.{units_of};
ghost use Rattle.jbig2_page.specs.Image.{packed_of};

use crate::drawn_page::DrawnPage;
use crate::step_count::StepCount;
use crate::work_limit::work_within;
use jbig2_base::error::Result;
use jbig2_page::drawing::canvas::Canvas;
use jbig2_page::passed_over::PassedOver;
use jbig2_steps::Work;
use std::alloc::Allocator;
use std::marker::Model;
use std::sync::ledger::{Blank, Ledger};

/// The memory that decoding a page uses, and that the next page uses again. A page's result does not depend on what was
/// there before. The context holds the page that was drawn last, and the limit of the work that each page may take. After
/// an error it holds no page.
pub struct DecoderContext<A: Allocator> {
    pub(crate) canvas: Canvas<A>,
    /// Whether the canvas has a page. After an error it may have a part of one, or another one, which nobody may see.
    pub(crate) holds_page: bool,
    /// The units of work that a page may take.
    work_limit: Option<u64>,
    /// How many of them the last page left.
    work_left: Option<u64>,
    /// How many steps it counted.
    counted: StepCount,
}

impl<A: Allocator> Drop for DecoderContext<A> {
    fn drop(self) {
        let DecoderContext {
            canvas: _,
            holds_page: _,
            work_limit: _,
            work_left: _,
            counted: _,
        } = self;
    }
}

impl<A: Allocator> Model for DecoderContext<A> {
    ghost use Rattle.std.specs.Prelude.{if◌then◌else◌};
    ghost use Rattle.hayro_jbig2.specs.Context.{ContextView};
    ghost use Rattle.jbig2_page.specs.Page.{empty_drawing};

    ghost Value = { ContextView };

    ghost view = { λ c. record {
      drawing = if c.holds_page then c.canvas else empty_drawing;
      holds_page = c.holds_page;
      work_limit = c.work_limit;
      work_left = c.work_left;
      steps = c.counted;
    } };
}

impl<A: Allocator + Clone> DecoderContext<A> {
    /// A context that holds no page, without a limit of work. Its only error is `DecodeError::OutOfMemory`.
    pub fn new(alloc: A) -> Result<DecoderContext<A>>
        ensures { Gives (λ context. context) result (Ok new_context) }
    {
        Ok(DecoderContext {
            canvas: Canvas::new(alloc)?,
            holds_page: false,
            work_limit: None,
            work_left: None,
            counted: StepCount::nothing(),
        })
    }
}

impl<A: Allocator> DecoderContext<A> {
    /// What the reading passed over in the page that was drawn last. After an error it is nothing.
    pub fn passed_over(&self) -> &PassedOver
        ensures { result.now ≡ self.now.drawing.passed_over }
    {
        if !self.holds_page {
            return &PassedOver {
                count: 0,
                first: None,
            };
        }
        self.canvas.passed_over()
    }

    /// Whether there is a page that was drawn last, and it is complete: no segment was passed over, none was cut off,
    /// and strict reading would refuse none. Damage within coded data can't be known: the format has no checksum.
    pub fn is_complete(&self) -> bool
        ensures { result ≡ (self.now.holds_page && self.now.drawing.passed_over.count == 0) }
    {
        self.holds_page && self.passed_over().count == 0
    }

    /// The page that was drawn last, as packed rows. After an error it has no rows.
    #[tactic(auto, using(crate::proofs::Held::no_rows))]
    pub fn drawn_page(&self) -> DrawnPage<'_, A>
        ensures { let page = self.now.drawing.grid in
            result ≡ packed_of page.width page.height page }
    {
        if !self.holds_page {
            return DrawnPage::of_no_rows();
        }
        DrawnPage::of_rows(self.canvas.drawn_rows())
    }

    /// Forgets the page that was drawn last. The context keeps its memory and its limit, of which nothing was taken.
    pub fn forget_page(&mut self)
        ensures { self.new ≡ fresh_context self.old.work_limit }
    {
        self.holds_page = false;
        self.work_left = self.work_limit;
        self.counted = StepCount::nothing();
    }

    /// Sets how many units of work each page may take that is decoded in this context from now on; `None` means no
    /// limit, as in a new context. A page that needs more is refused with `DecodeError::OutOfMemory` before it does
    /// that work. The context can still be used for the next page.
    pub fn set_work_limit(&mut self, work: Option<u64>)
        ensures { self.new ≡ record self.old { work_limit = work; work_left = work } }
    {
        self.work_limit = work;
        self.work_left = work;
    }

    /// How many units the last page left of its limit; `None` where it had none. It is 0 where the page was refused
    /// because work ran out. So a caller can see whether work or memory ran out.
    pub fn work_left(&self) -> Option<u64>
        ensures { result ≡ self.now.work_left }
    {
        self.work_left
    }

    /// The counter of a page, which may take the work of the limit. `Page::decode_with` and the other calls that draw a
    /// page begin with it.
    pub fn new_work<L: Ledger>(&self, blank: Blank) -> Work<L>
        requires name { blank.name ≡ L.name }
        requires parts { blank.parts ≡ L.parts }
        requires enough { blank.parts ≡ 7 }
        ensures steps { result.steps ≡ no_steps }
        ensures left { result.left ≡ units_of self.now.work_limit }
    {
        work_within(self.work_limit, blank)
    }

    /// Records what a page left of its limit, and what it counted.
    pub(crate) fn end<L: Ledger>(&mut self, work: &Work<L>)
        ensures { self.new ≡ after_page work.now self.old }
    {
        self.work_left = self.work_limit.map(|_| work.left);
        self.counted = StepCount::of(&work.steps);
    }
}
