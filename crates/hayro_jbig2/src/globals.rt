//! `Globals`: the segments that several pages share, as in PDF.
ghost use Rattle.std.specs.Prelude.{◌≡◌, ◌*◌, IfErr, IfOk, length};
ghost use Rattle.jbig2_framing.specs.Sequential.{sorted_segments};
ghost use Rattle.jbig2_base.specs.Results.{Gives};
ghost use Rattle.jbig2_framing.specs.Reading.{reading_of};
ghost use Rattle.jbig2_base.specs.declared.error.DecodeError.TheVariants.{OutOfMemory};
ghost use Rattle.jbig2_framing.specs.declared.reading.Reading.TheVariants.{Salvage};
ghost use Rattle.hayro_jbig2.specs.WorkLimit.{TakesUnits};
ghost use Rattle.jbig2_page.specs.Returned.{IsReturned};
ghost use Rattle.jbig2_page.specs.inner.KeptViews.{found_value};
ghost use Rattle.jbig2_page.specs.inner.PageViews.{given_names};
ghost use Rattle.jbig2_page.specs.Globals.{globals_at};
ghost use Rattle.jbig2_steps.specs.declared.prices.TheConstants as prices;

use crate::settings::DecodeSettings;
use crate::work_limit::WorkLimit;
use jbig2_base::error::{DecodeError, Result};
use jbig2_framing::cut_off::CutOff;
use jbig2_framing::reading::Reading;
use jbig2_page::globals::GlobalsContent;
use jbig2_page::passed_over::PassedOver;
use std::alloc::Allocator;
use std::marker::{Brand, Model};
use std::sync::ledger::{Blank, Ledger};

/// Decoded segments that several pages share. The pages' segments may refer to them by their
/// numbers (T.88, 7.3).
#[derive(Drop)]
pub struct Globals<A: Allocator> {
    pub(crate) content: GlobalsContent<A>,
}

impl<A: Allocator> Model for Globals<A> {
    ghost use Rattle.jbig2_page.specs.Globals.{KeptGlobals};

    ghost Value = { KeptGlobals };

    ghost view = { λ globals. globals.content };
}

/// What these globals hold, if there are any.
pub(crate) fn content_of<A: Allocator>(globals: Option<&Globals<A>>) -> Option<&GlobalsContent<A>>
    ensures { given_names result ≡ given_names globals.entry }
{
    match globals {
        Some(globals) => Some(&globals.content),
        None => None,
    }
}

impl<A: Allocator> Globals<A> {
    /// What salvage passed over of the globals' segments, and those that are kept though strict reading refuses them.
    pub fn passed_over(&self) -> &PassedOver
        ensures { result.now ≡ self.now.passed_over }
    {
        self.content.passed_over()
    }

    /// The segment at which the list of their segments ended early, if it did.
    pub fn cut_off(&self) -> Option<&CutOff>
        ensures { found_value (λ c. c) result ≡ self.now.cut_off }
    {
        self.content.cut_off()
    }
}

impl<A: Allocator + Clone> Globals<A> {
    /// The globals in `bytes`: their segments one after the other, without a file header.
    ///
    /// Only dictionaries, tables and extensions are decoded, in the order of their numbers. Returns
    /// the first fault of reading the segments, or else of decoding them.
    pub fn new(alloc: A, bytes: &[u8], settings: &DecodeSettings) -> Result<Globals<A>>
        ensures value { Gives (λ globals. globals) result
            (globals_at (reading_of settings.now.strict) bytes.now) }
        ensures errors { IfErr result IsReturned }
    {
        Globals::new_within(alloc, bytes, settings, &mut WorkLimit::new(None))
    }

    /// The globals as `new` has them, within a limit of work.
    pub fn new_within(
        alloc: A,
        bytes: &[u8],
        settings: &DecodeSettings,
        work: &mut WorkLimit,
    ) -> Result<Globals<A>>
        ensures value { Gives (λ globals. globals) result
            (globals_at (reading_of settings.now.strict) bytes.now) }
        ensures errors { IfErr result IsReturned }
        ensures limit { TakesUnits 0 work.old work.new }
        ensures taken { IfOk (sorted_segments (reading_of settings.now.strict) bytes.now)
            (λ segments. IfOk result (λ _. TakesUnits (prices.SEGMENT * length segments) work.old work.new)) }
    {
        Globals::read(alloc, bytes, settings.reading(), work)
    }

    /// The globals as lenient reading has them, but damage leaves out as little as possible. The list of their segments
    /// ends at the first one that is refused, and a segment that fails is passed over. They are refused only where
    /// memory or work runs out.
    pub fn salvaged(alloc: A, bytes: &[u8], work: &mut WorkLimit) -> Result<Globals<A>>
        ensures value { Gives (λ globals. globals) result (globals_at Salvage bytes.now) }
        ensures memory { IfErr result (λ e. e ≡ OutOfMemory) }
        ensures limit { TakesUnits 0 work.old work.new }
        ensures taken { IfOk (sorted_segments Salvage bytes.now)
            (λ segments. IfOk result (λ _. TakesUnits (prices.SEGMENT * length segments) work.old work.new)) }
    {
        Globals::read(alloc, bytes, Reading::Salvage, work)
    }

    /// The globals in `bytes`.
    fn read(alloc: A, bytes: &[u8], reading: Reading, work: &mut WorkLimit) -> Result<Globals<A>>
        ensures value { Gives (λ globals. globals) result (globals_at reading bytes.now) }
        ensures errors { IfErr result IsReturned }
        ensures limit { TakesUnits 0 work.old work.new }
        ensures taken { IfOk (sorted_segments reading bytes.now)
            (λ segments. IfOk result (λ _. TakesUnits (prices.SEGMENT * length segments) work.old work.new)) }
    {
        let content = read_counted::<A, Brand>(alloc, bytes, reading, work, Blank::new(7))?;
        Ok(Globals { content })
    }
}

/// What the bytes keep, by a counter that may take what is left of the limit.
fn read_counted<A: Allocator + Clone, L: Ledger>(
    alloc: A,
    bytes: &[u8],
    reading: Reading,
    limit: &mut WorkLimit,
    blank: Blank,
) -> Result<GlobalsContent<A>>
    requires name { blank.name ≡ L.name }
    requires parts { blank.parts ≡ L.parts }
    requires enough { blank.parts ≡ 7 }
    ensures value { Gives (λ globals. globals) result (globals_at reading bytes.now) }
    ensures errors { IfErr result IsReturned }
    ensures limit { TakesUnits 0 limit.old limit.new }
    ensures taken { IfOk (sorted_segments reading bytes.now)
        (λ segments. IfOk result (λ _. TakesUnits (prices.SEGMENT * length segments) limit.old limit.new)) }
{
    let mut work = limit.counter::<L>(blank);
    let read = GlobalsContent::read(alloc, bytes, reading, &mut work);
    limit.end(&work);
    read
}
