//! Pattern dictionaries (T.88, 6.7 and 7.4.4): cuts the patterns out of one collective bitmap.
ghost use Rattle.std.specs.Prelude.{◌≡◌, ◌+◌, ◌*◌, ◌/◌, ◌≤◌, ◌∷◌, drop, OnErr, OnOk, Ok, false};
ghost use Rattle.jbig2_steps.specs.Work.{CountsWithin};
ghost use Rattle.jbig2_base.specs.Grid.{max_side};
ghost use Rattle.jbig2_base.specs.Results.{Returns, Gives, Leaves};
ghost use Rattle.jbig2_base.specs.Counts.{KeepsLanes, bitmap_made, words_copied, words_made};
ghost use Rattle.jbig2_region.specs.Generic.{generic_result, contexts_after};
ghost use Rattle.jbig2_region.specs.GenericSteps.{CountsGeneric, price_of_region};
ghost use Rattle.jbig2_region.specs.Templates.{left, nominal_adaptive_pixels};
ghost use Rattle.jbig2_region.specs.declared.template.Template.TheVariants.{Template0};
ghost use Rattle.jbig2_region.specs.declared.template.GenericTemplatePixels.TheVariants.{Regular};
ghost use Rattle.jbig2_halftone.specs.Patterns.{collective_width, collective_header, patterns_of, patterns_decoded, dictionary_contexts};
ghost use Rattle.jbig2_halftone.specs.inner.DictionaryViews.{dictionary_view};
ghost use Rattle.jbig2_halftone.specs.inner.PatternHeaderViews.{header_view};
ghost use Rattle.jbig2_halftone.specs.inner.FunctionResults.{pattern_of, patterns_cut, StopsCut};
ghost use Rattle.jbig2_halftone.specs.Steps.{CountsDictionary, StopsDictionary, TakesNoLanes, collective_made, price_of_patterns};
ghost use Rattle.jbig2_base.specs.Causes.{HasCauseOrNoMemory};
ghost use Rattle.jbig2_halftone.specs.Causes.{BreaksPatterns};

mod dictionary;
mod header;

pub use dictionary::PatternDictionary;
pub use header::{PatternDictionaryHeader, parse};
use jbig2_base::bitmap::operator::CombinationOperator;
use jbig2_base::bitmap::part::Area;
use jbig2_base::bitmap::{Bitmap, MAX_DIMENSION};
use jbig2_base::error::{OverflowError, Result};
use jbig2_coder::arithmetic_decoder::ArithmeticDecoderContext;
use jbig2_region::generic::{self, GenericRegionHeader};
use jbig2_region::region_info::RegionSegmentInfo;
use jbig2_region::template::{AdaptiveTemplatePixel, GenericTemplatePixels, Template};
use jbig2_steps::Steps;
use std::alloc::Allocator;
use std::sync::ledger::Ledger;

/// The adaptive pixels of a collective bitmap: A1 lies one pattern to the left, the others where they lie by default
/// (T.88, Table 27).
fn collective_pixels(pattern_width: u8) -> GenericTemplatePixels
    ensures { let others = drop 1 (nominal_adaptive_pixels Template0) in
        result ≡ Regular (left pattern_width 0 ∷ others) }
{
    let [_, second, third, fourth] = Template::Template0.nominal_pixels();
    let first = AdaptiveTemplatePixel {
        x: -i16::from(pattern_width),
        y: 0,
    };
    GenericTemplatePixels::Regular([first, second, third, fourth])
}

/// Cuts out pattern `k`: the columns of a collective bitmap from `k` times the width on.
fn cut_pattern<A: Allocator, L: Ledger>(
    alloc: A,
    collective: &Bitmap<A>,
    width: u32,
    height: u32,
    k: u32,
    steps: &mut Steps<L>,
) -> Result<Bitmap<A>>
    requires columns { width ≤ max_side }
    requires rows { height ≤ max_side }
    requires place { k * width ≤ max_side }
    ensures value { Gives (λ pattern. pattern) result
        (Ok (pattern_of collective.now width height k)) }
    ensures steps { OnOk result
        (steps.new ≡ words_copied ((width + 63) / 64 * height)
        (bitmap_made width height steps.old)) }
    ensures stopped { OnErr result (steps.new ≡ bitmap_made width height steps.old) }
{
    let area = Area {
        left: k * width,
        top: 0,
        width,
        height,
    };
    collective.part(alloc, area, steps)
}

/// Cuts out the patterns, which lie side by side in a collective bitmap.
fn cut_patterns<A: Allocator + Clone, L: Ledger>(
    alloc: A,
    collective: &Bitmap<A>,
    width: u32,
    height: u32,
    count: u32,
    steps: &mut Steps<L>,
) -> Result<Vec<Bitmap<A>, A>>
    requires columns { width ≤ max_side }
    requires rows { height ≤ max_side }
    requires all { count * width ≤ max_side }
    ensures value { Gives (λ patterns. patterns.items) result
        (Ok (patterns_of collective.now width height count)) }
    ensures steps { OnOk result
        (steps.new ≡ patterns_cut count count (words_made width height)
        ((width + 63) / 64 * height) steps.old) }
    ensures stopped { OnErr result (StopsCut count (words_made width height)
        ((width + 63) / 64 * height) steps.old steps.new) }
{
    let mut patterns = Vec::new(alloc.clone()?);
    for k in 0..count {
        patterns.push(cut_pattern(alloc.clone()?, collective, width, height, k, steps)?)?;
    }
    Ok(patterns)
}

/// Decodes the collective bitmap of a dictionary (T.88, 6.7.5).
#[tactic(auto, using(crate::proofs::PatternLemmas::collective_view))]
fn decode_collective<A: Allocator, B: Allocator, L: Ledger>(
    alloc: A,
    header: &PatternDictionaryHeader<'_>,
    width: u32,
    contexts: &mut Vec<ArithmeticDecoderContext, B>,
    steps: &mut Steps<L>,
) -> Result<Bitmap<A>>
    requires width { width ≡ collective_width (header_view header.now) }
    requires columns { width ≤ max_side }
    ensures value { Gives (λ collective. collective) result
        (generic_result (collective_header (header_view header.now))) }
    ensures contexts { Leaves result contexts.new.items
        (contexts_after (collective_header (header_view header.now)) contexts.old.items) }
    ensures steps { OnOk result (CountsGeneric (collective_header (header_view header.now))
        (collective_made (header_view header.now) steps.old) steps.new) }
    ensures stopped { header.now.mmr ≡ false → OnErr result
        (steps.new ≡ collective_made (header_view header.now) steps.old) }
    ensures lanes { KeepsLanes (collective_made (header_view header.now) steps.old) steps.new }
    ensures paid { CountsWithin (price_of_region (collective_header (header_view header.now)))
        steps.old steps.new }
{
    let region_info = RegionSegmentInfo {
        width,
        height: u32::from(header.pattern_height),
        x_location: 0,
        y_location: 0,
        combination_operator: CombinationOperator::Or,
    };
    let generic_header = GenericRegionHeader {
        region_info,
        mmr: header.mmr,
        template: header.template,
        tpgdon: false,
        adaptive_template_pixels: collective_pixels(header.pattern_width),
        bytes: header.bytes,
        strict: header.strict,
    };
    let mut collective = Bitmap::new(alloc, region_info.width, region_info.height, steps)?;
    generic::decode_into(&generic_header, &mut collective, contexts, steps)?;
    Ok(collective)
}

/// Decodes a pattern dictionary (T.88, 6.7). The contexts begin fresh, whatever `contexts` held. Afterwards `contexts`
/// holds what the collective bitmap leaves. MMR data and a bitmap that is too wide do not change it. Each word of a
/// pattern is loaded once and written once. The words of the collective bitmap and of the patterns count as cleared. After an error, no more steps were taken than for a dictionary that is
/// decoded whole.
///
/// Returns `OverflowError::BitmapDimension` where the patterns side by side have more than 65535 columns; in strict
/// mode `RegionError::InvalidMmrData` where MMR data has a fault or lacks a row; `OutOfMemory`. Only after this last
/// error the content of `contexts` is not specified.
#[tactic(auto, unfolding(crate::specs::Patterns::patterns_decoded))]
pub fn decode<A: Allocator + Clone, B: Allocator, L: Ledger>(
    alloc: A,
    header: &PatternDictionaryHeader<'_>,
    contexts: &mut Vec<ArithmeticDecoderContext, B>,
    steps: &mut Steps<L>,
) -> Result<PatternDictionary<A>>
    requires { 1 ≤ header.now.pattern_width }
    ensures value { Gives (λ dictionary. dictionary_view dictionary) result
        (patterns_decoded (header_view header.now)) }
    ensures contexts { Leaves result contexts.new.items
        (dictionary_contexts (header_view header.now) contexts.old.items) }
    ensures steps { OnOk result
        (CountsDictionary (header_view header.now) steps.old steps.new) }
    ensures stopped { OnErr result
        (StopsDictionary (header_view header.now) steps.old steps.new) }
    ensures lanes { TakesNoLanes steps.old steps.new }
    ensures paid { CountsWithin (price_of_patterns (header_view header.now)) steps.old steps.new }
    ensures causes { HasCauseOrNoMemory result (BreaksPatterns (header_view header.now)) }
{
    let width = u32::from(header.pattern_width);
    let height = u32::from(header.pattern_height);
    let columns = (u64::from(header.num_patterns) + 1) * u64::from(width);
    if columns > u64::from(MAX_DIMENSION) {
        return Err(OverflowError::BitmapDimension.into());
    }
    let collective = decode_collective(alloc.clone()?, header, columns as u32, contexts, steps)?;
    let count = header.num_patterns + 1;
    let patterns = cut_patterns(alloc, &collective, width, height, count, steps)?;
    Ok(PatternDictionary {
        patterns,
        pattern_width: width,
        pattern_height: height,
    })
}
