//! Decodes the segments that several pages share, as in PDF, in the work that a caller's counter allows.
ghost use Rattle.std.specs.Prelude.{◌≡◌, ◌+◌, ◌*◌, ◌<◌, ◌≤◌, ◌⊎◌, true, Ok, IfErr, IfOk, length};
ghost use Rattle.jbig2_framing.specs.Sequential.{sorted_segments};
ghost use Rattle.jbig2_base.specs.Results.{Gives};
ghost use Rattle.jbig2_framing.specs.Reading.{is_strict};
ghost use Rattle.jbig2_base.specs.declared.error.DecodeError.TheVariants.{OutOfMemory};
ghost use Rattle.jbig2_framing.specs.inner.SegmentViews.{segment_view, segment_views};
ghost use Rattle.jbig2_page.specs.Names.{kept_by, no_names};
ghost use Rattle.jbig2_page.specs.Returned.{IsReturned};
ghost use Rattle.jbig2_page.specs.inner.KeptViews.{found_value};
ghost use Rattle.jbig2_page.specs.PassedOver.{fault_of};
ghost use Rattle.jbig2_page.specs.Globals.{globals_at, nothing_shared, or_shared_without, shared_from};
ghost use Rattle.jbig2_steps.specs.Work.{IsWithinLimit, Paid, budget};
ghost use Rattle.jbig2_steps.specs.declared.prices.TheConstants as prices;

use crate::kept::names::KeptNames;
use crate::kept::segments::{keep_patterns, keep_symbols, keep_table};
use crate::other_segments::{extension, unlisted};
use crate::passed_over::PassedOver;
use crate::segment_price::pay_segment;
use crate::workspace::Workspace;
use jbig2_base::error::{DecodeError, Result};
use jbig2_framing::cut_off::CutOff;
use jbig2_framing::reading::Reading;
use jbig2_framing::segment::{Segment, SegmentType};
use jbig2_framing::segment_list::parse_segments_sequential;
use jbig2_framing::sort::sort_segments;
use jbig2_steps::Work;
use std::alloc::Allocator;
use std::marker::Model;
use std::sync::ledger::Ledger;

/// Decoded segments that several pages share. The pages' segments may refer to them by their
/// numbers (T.88, 7.3).
pub struct GlobalsContent<A: Allocator> {
    names: KeptNames<A>,
    passed_over: PassedOver,
    cut_off: Option<CutOff>,
}

impl<A: Allocator> Drop for GlobalsContent<A> {
    fn drop(self) {
        let GlobalsContent {
            names: _,
            passed_over: _,
            cut_off: _,
        } = self;
    }
}

impl<A: Allocator> Model for GlobalsContent<A> {
    ghost use Rattle.jbig2_page.specs.Globals.{KeptGlobals};

    ghost Value = { KeptGlobals };

    ghost view = { λ globals. record {
      names = globals.names;
      passed_over = globals.passed_over;
      cut_off = globals.cut_off;
    } };
}

impl<A: Allocator> GlobalsContent<A> {
    pub(crate) fn names(&self) -> &KeptNames<A>
        ensures { result.now ≡ self.now.names }
    {
        &self.names
    }

    /// What salvage passed over of the globals' segments.
    pub fn passed_over(&self) -> &PassedOver
        ensures { result.now ≡ self.now.passed_over }
    {
        &self.passed_over
    }

    /// The segment at which the list of their segments ended early, if it did.
    pub fn cut_off(&self) -> Option<&CutOff>
        ensures { found_value (λ c. c) result ≡ self.now.cut_off }
    {
        self.cut_off.as_ref()
    }
}

impl<A: Allocator + Clone> GlobalsContent<A> {
    /// Globals that keep nothing, from a list of segments that ended at this one.
    pub(crate) fn empty(alloc: A, cut_off: Option<CutOff>) -> Result<GlobalsContent<A>>
        ensures { Gives (λ globals. globals) result (Ok (nothing_shared cut_off)) }
    {
        Ok(GlobalsContent {
            names: KeptNames::new(alloc)?,
            passed_over: PassedOver::nothing(),
            cut_off,
        })
    }

    /// The globals in `bytes`: their segments one after the other, without a file header. At most 32 steps are counted
    /// for each unit of work that is left in `work`.
    #[tactic(auto, unfolding(crate::specs::Globals::globals_at))]
    pub fn read<L: Ledger>(
        alloc: A,
        bytes: &[u8],
        reading: Reading,
        work: &mut Work<L>,
    ) -> Result<GlobalsContent<A>>
        ensures value { Gives (λ globals. globals) result (globals_at reading bytes.now) }
        ensures errors { IfErr result IsReturned }
        ensures paid { Paid work.old work.new }
        ensures limit { IsWithinLimit work.old work.new }
        ensures taken { IfOk (sorted_segments reading bytes.now) (λ segments. IfOk result
            (λ _. budget work.new + 32 * (prices.SEGMENT * length segments) ≤ budget work.old)) }
    {
        let mut list = parse_segments_sequential(alloc.clone()?, bytes, reading)?;
        sort_segments(&mut list.segments)?;
        GlobalsContent::of_segments(alloc, reading, &list.segments, list.cut_off, work)
    }

    /// What these segments keep. Each may refer to those before it.
    pub(crate) fn of_segments<L: Ledger>(
        alloc: A,
        reading: Reading,
        segments: &[Segment<'_, A>],
        cut_off: Option<CutOff>,
        work: &mut Work<L>,
    ) -> Result<GlobalsContent<A>>
        ensures value { Gives (λ globals. globals) result
            (shared_from reading (segment_views segments.now) (nothing_shared cut_off)) }
        ensures paid { Paid work.old work.new }
        ensures limit { IsWithinLimit work.old work.new }
        ensures taken { IfOk result
            (λ _. budget work.new + 32 * (prices.SEGMENT * length segments.now) ≤ budget work.old) }
    {
        let mut globals = GlobalsContent::empty(alloc.clone()?, cut_off)?;
        let mut workspace = Workspace::new(alloc)?;
        for segment in segments {
            pay_segment(segment, globals.names.count(), work)?;
            match globals.add(reading, segment, &mut workspace, work) {
                Ok(()) => {}
                Err(error) => return Err(error),
            }
        }
        Ok(globals)
    }

    /// Keeps what one more segment holds. It is tried strictly first: one that strict reading refuses is counted, also
    /// where another reading keeps it. Salvage passes over one that fails.
    fn add<L: Ledger>(
        &mut self,
        reading: Reading,
        segment: &Segment<'_, A>,
        workspace: &mut Workspace<A>,
        work: &mut Work<L>,
    ) -> Result<()>
        requires { self.old.passed_over.count < usize.MAX }
        ensures value { Gives (λ _. self.new) result
            (or_shared_without reading
            (fault_of (kept_by true no_names (segment_view segment.now) self.old.names))
            segment.now.header.segment_number self.old
            (kept_by (is_strict reading) no_names (segment_view segment.now) self.old.names)) }
        ensures paid { Paid work.old work.new }
    {
        let none = KeptNames::new(workspace.alloc.clone()?)?;
        let names = &mut self.names;
        let fault = match keep_segment(names, &none, true, segment, workspace, work) {
            Ok(()) => return Ok(()),
            Err(fault) => fault,
        };
        if reading.is_strict() || matches!(fault, DecodeError::OutOfMemory) {
            return Err(fault);
        }
        let number = segment.header.segment_number;
        match keep_segment(names, &none, false, segment, workspace, work) {
            Ok(()) => {
                self.passed_over.add(Some(number), fault);
                Ok(())
            }
            Err(error) => {
                if !reading.is_salvaged(&error) {
                    return Err(error);
                }
                self.passed_over.add(Some(number), error);
                Ok(())
            }
        }
    }
}

/// Keeps what a segment of globals holds. `none` keeps nothing: globals have no globals of their own.
fn keep_segment<A: Allocator + Clone, L: Ledger>(
    names: &mut KeptNames<A>,
    none: &KeptNames<A>,
    strict: bool,
    segment: &Segment<'_, A>,
    workspace: &mut Workspace<A>,
    work: &mut Work<L>,
) -> Result<()>
    requires { none.now ≡ no_names }
    ensures value { Gives (λ _. names.new) result
        (kept_by strict no_names (segment_view segment.now) names.old) }
    ensures unchanged { IfErr result (λ e. (e ≡ OutOfMemory) ⊎ (names.new ≡ names.old)) }
    ensures paid { Paid work.old work.new }
{
    match segment.header.segment_type {
        SegmentType::SymbolDictionary => {
            keep_symbols(names, strict, none, segment, workspace, work)
        }
        SegmentType::PatternDictionary => keep_patterns(names, strict, segment, workspace, work),
        SegmentType::Tables => keep_table(names, segment, workspace),
        SegmentType::Extension => extension(strict, segment.bytes),
        SegmentType::Reserved => unlisted(strict),
        _ => Ok(()),
    }
}
