//! Decodes a page: to calls on a `Decoder`, or into a context that lends its rows.
ghost use Rattle.std.specs.Prelude.{◌≡◌, ◌+◌, ◌*◌, ◌≤◌, Ok, IfErr, IfOk};
ghost use Rattle.jbig2_base.specs.Results.{Gives};
ghost use Rattle.jbig2_page.specs.Calls.{Decodes, IsCountable};
ghost use Rattle.hayro_jbig2.specs.Context.{HoldsPage, IsLeftBy, LeavesDrawn, LeavesOf};
ghost use Rattle.hayro_jbig2.specs.WorkLimit.{IsWithin};
ghost use Rattle.jbig2_page.specs.Image.{packed_of_page};
ghost use Rattle.jbig2_page.specs.Page.{drawing_of_page, grid_of_page};
ghost use Rattle.jbig2_page.specs.Returned.{IsReturned};
ghost use Rattle.jbig2_steps.specs.Work.{IsWithinLimit, Paid, paid_words, price_of_bitmap, budget};

use crate::context::DecoderContext;
use crate::drawn_page::DrawnPage;
use crate::page::Page;
use jbig2_base::error::Result;
use jbig2_page::page::decoder::Decoder;
use jbig2_steps::Work;
use std::alloc::Allocator;
use std::marker::Brand;
use std::sync::ledger::{Blank, Ledger};

impl<'a, A: Allocator + Clone> Page<'a, A> {
    /// Makes the calls that draw the page, in a fresh context.
    ///
    /// Returns the first fault of a segment that lenient reading does not pass over, or the
    /// Decoder's own refusal.
    pub fn decode<D: Decoder>(&self, decoder: &mut D) -> Result<()>
        requires { IsCountable D.conduct decoder.old }
        ensures calls { Decodes D.conduct (grid_of_page self.now) result decoder.old decoder.new }
        ensures errors { D.conduct.refusals decoder.new ≡ D.conduct.refusals decoder.old
            → IfErr result IsReturned }
    {
        let mut context = DecoderContext::new(self.content.allocator().clone()?)?;
        self.decode_with(decoder, &mut context)
    }

    /// Draws the page in a context, which earlier pages may have used. The context then lends the page's packed rows,
    /// which need no memory of their own.
    ///
    /// Returns the first fault of a segment that lenient reading does not pass over.
    pub fn draw<'c>(&self, context: &'c mut DecoderContext<A>) -> Result<DrawnPage<'c, A>>
        ensures value { Gives (λ drawn. drawn) result (packed_of_page self.now) }
        ensures errors { IfErr result IsReturned }
    {
        self.draw_in(context)?;
        Ok(context.drawn_page())
    }

    /// Draws the page in a context, which earlier pages may have used. The context then holds the page:
    /// `DecoderContext::drawn_page` lends its packed rows, and `DecoderContext::passed_over` says what was passed over.
    ///
    /// Returns the first fault of a segment that lenient reading does not pass over. The context then holds no page.
    /// At most 32 steps are counted for each unit of the context's limit, after an error too.
    pub fn draw_in(&self, context: &mut DecoderContext<A>) -> Result<()>
        ensures value { Gives (λ _. context.new.drawing.grid) result (grid_of_page self.now) }
        ensures drawing { Gives (λ _. context.new.drawing) result (drawing_of_page self.now) }
        ensures page { HoldsPage result context.new }
        ensures kept { context.new.work_limit ≡ context.old.work_limit }
        ensures limit { IsWithin context.old.work_limit context.new.steps }
        ensures left { LeavesOf 0 context.old.work_limit context.new }
        ensures taken { let page = self.now.initial_page in
            let price = 2 * price_of_bitmap page.width page.height in
            let words = paid_words page.width page.height in
            IfOk result (λ _. LeavesDrawn words price context.old.work_limit context.new) }
        ensures errors { IfErr result IsReturned }
    {
        self.draw_counted::<Brand>(context, Blank::new(7))
    }

    fn draw_counted<L: Ledger>(&self, context: &mut DecoderContext<A>, blank: Blank) -> Result<()>
        requires name { blank.name ≡ L.name }
        requires parts { blank.parts ≡ L.parts }
        requires enough { blank.parts ≡ 7 }
        ensures drawing { Gives (λ _. context.new.drawing) result (drawing_of_page self.now) }
        ensures page { HoldsPage result context.new }
        ensures errors { IfErr result IsReturned }
        ensures kept { context.new.work_limit ≡ context.old.work_limit }
        ensures limit { IsWithin context.old.work_limit context.new.steps }
        ensures left { LeavesOf 0 context.old.work_limit context.new }
        ensures taken { let page = self.now.initial_page in
            let price = 2 * price_of_bitmap page.width page.height in
            let words = paid_words page.width page.height in
            IfOk result (λ _. LeavesDrawn words price context.old.work_limit context.new) }
    {
        let mut work = context.new_work::<L>(blank);
        self.draw_within(context, &mut work)
    }

    /// Draws the page as `draw_in` does, with the caller's counter instead of the context's limit.
    ///
    /// At most 32 steps are counted for each unit of work that is left in `work`. Where more are needed, the error is
    /// `DecodeError::OutOfMemory`. The work of handing the page out is paid here too.
    pub fn draw_within<L: Ledger>(
        &self,
        context: &mut DecoderContext<A>,
        work: &mut Work<L>,
    ) -> Result<()>
        ensures drawing { Gives (λ _. context.new.drawing) result (drawing_of_page self.now) }
        ensures page { HoldsPage result context.new }
        ensures left { IsLeftBy work.new context.old context.new }
        ensures errors { IfErr result IsReturned }
        ensures limit { IsWithinLimit work.old work.new }
        ensures paid { Paid work.old work.new }
        ensures ahead { let page = self.now.initial_page in
            let price = price_of_bitmap page.width page.height in
            IfOk result (λ _. budget work.new + 64 * price
            ≤ budget work.old + paid_words page.width page.height) }
    {
        let drawn = self.content.draw_onto(&mut context.canvas, work);
        context.holds_page = drawn.is_ok();
        context.end(work);
        drawn
    }

    /// Makes the calls that draw the page, in a context that earlier pages may have used.
    ///
    /// Returns the first fault of a segment that lenient reading does not pass over, or the
    /// Decoder's own refusal. It decodes all segments before it makes the first call. After an error the context holds
    /// no page, also where the Decoder refused a call.
    /// At most 32 steps are counted for each unit of the context's limit, after an error too.
    pub fn decode_with<D: Decoder>(
        &self,
        decoder: &mut D,
        context: &mut DecoderContext<A>,
    ) -> Result<()>
        requires { IsCountable D.conduct decoder.old }
        ensures calls { Decodes D.conduct (grid_of_page self.now) result decoder.old decoder.new }
        ensures drawing { IfOk result (λ _. drawing_of_page self.now ≡ Ok context.new.drawing) }
        ensures page { HoldsPage result context.new }
        ensures kept { context.new.work_limit ≡ context.old.work_limit }
        ensures limit { IsWithin context.old.work_limit context.new.steps }
        ensures left { LeavesOf 0 context.old.work_limit context.new }
        ensures errors { D.conduct.refusals decoder.new ≡ D.conduct.refusals decoder.old
            → IfErr result IsReturned }
    {
        self.decode_counted::<D, Brand>(decoder, context, Blank::new(7))
    }

    fn decode_counted<D: Decoder, L: Ledger>(
        &self,
        decoder: &mut D,
        context: &mut DecoderContext<A>,
        blank: Blank,
    ) -> Result<()>
        requires countable { IsCountable D.conduct decoder.old }
        requires name { blank.name ≡ L.name }
        requires parts { blank.parts ≡ L.parts }
        requires enough { blank.parts ≡ 7 }
        ensures calls { Decodes D.conduct (grid_of_page self.now) result decoder.old decoder.new }
        ensures drawing { IfOk result (λ _. drawing_of_page self.now ≡ Ok context.new.drawing) }
        ensures page { HoldsPage result context.new }
        ensures errors { D.conduct.refusals decoder.new ≡ D.conduct.refusals decoder.old
            → IfErr result IsReturned }
        ensures kept { context.new.work_limit ≡ context.old.work_limit }
        ensures limit { IsWithin context.old.work_limit context.new.steps }
        ensures left { LeavesOf 0 context.old.work_limit context.new }
    {
        let mut work = context.new_work::<L>(blank);
        self.decode_within(decoder, context, &mut work)
    }

    /// Makes the calls of `decode_with`, with the caller's counter instead of the context's limit.
    ///
    /// At most 32 steps are counted for each unit of work that is left in `work`. Where more are needed, the error is
    /// `DecodeError::OutOfMemory`, and no call is made.
    #[tactic(auto, using(crate::proofs::Held::decoded))]
    pub fn decode_within<D: Decoder, L: Ledger>(
        &self,
        decoder: &mut D,
        context: &mut DecoderContext<A>,
        work: &mut Work<L>,
    ) -> Result<()>
        requires { IsCountable D.conduct decoder.old }
        ensures calls { Decodes D.conduct (grid_of_page self.now) result decoder.old decoder.new }
        ensures drawing { IfOk result (λ _. drawing_of_page self.now ≡ Ok context.new.drawing) }
        ensures page { HoldsPage result context.new }
        ensures left { IsLeftBy work.new context.old context.new }
        ensures errors { D.conduct.refusals decoder.new ≡ D.conduct.refusals decoder.old
            → IfErr result IsReturned }
        ensures limit { IsWithinLimit work.old work.new }
        ensures paid { Paid work.old work.new }
    {
        let decoded = self.content.decode_onto(decoder, &mut context.canvas, work);
        context.holds_page = decoded.is_ok();
        context.end(work);
        decoded
    }
}
