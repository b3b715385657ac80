//! The contexts of a symbol dictionary, from its beginning to its end (T.88, 7.4.2.2).
ghost use Rattle.std.specs.Prelude.{◌≡◌, option_map, Ok};
ghost use Rattle.jbig2_base.specs.Results.{Gives};
ghost use Rattle.jbig2_symbol.specs.SymbolReading.{start_contexts, first_contexts, fresh_bitmap_contexts, is_refinement_template, is_template, bitmap_contexts};
ghost use Rattle.jbig2_symbol.specs.inner.HeaderViews.{contexts_view, header_view};
ghost use Rattle.jbig2_base.specs.Causes.{HasCauseOrNoMemory};
ghost use Rattle.jbig2_symbol.specs.Causes.{BreaksContexts};
ghost use Rattle.jbig2_symbol.specs.declared.header.SymbolDictionaryFlags.{SymbolDictionaryFlags};

use crate::dictionary::RetainedContexts;
use crate::header::{SymbolDictionaryFlags, SymbolDictionaryHeader};
use jbig2_base::error::{Result, SymbolError};
use jbig2_coder::arithmetic_decoder::{self, ArithmeticDecoderContext};
use jbig2_region::template::{RefinementTemplate, Template};
use jbig2_text::Refining;
use std::alloc::Allocator;
use std::marker::Model;

fn is_template(template: Template, other: Template) -> bool
    ensures { result ≡ is_template template other }
{
    match (template, other) {
        (Template::Template0, Template::Template0) => true,
        (Template::Template1, Template::Template1) => true,
        (Template::Template2, Template::Template2) => true,
        (Template::Template3, Template::Template3) => true,
        _ => false,
    }
}

fn is_refinement_template(template: RefinementTemplate, other: RefinementTemplate) -> bool
    ensures { result ≡ is_refinement_template template other }
{
    match (template, other) {
        (RefinementTemplate::Template0, RefinementTemplate::Template0) => true,
        (RefinementTemplate::Template1, RefinementTemplate::Template1) => true,
        _ => false,
    }
}

/// Contexts that have learned nothing.
fn fresh_contexts<A: Allocator + Clone>(
    alloc: A,
    flags: &SymbolDictionaryFlags,
) -> Result<RetainedContexts<A>>
    ensures { let meant = Ok (fresh_bitmap_contexts flags.now) in
        Gives (λ contexts. contexts_view contexts) result meant }
{
    let mut generic_region = Vec::new(alloc.clone()?);
    arithmetic_decoder::fresh_contexts(&mut generic_region, flags.template.context_bits())?;
    let mut refinement_region = Vec::new(alloc);
    arithmetic_decoder::fresh_contexts(
        &mut refinement_region,
        flags.refinement_template.context_bits(),
    )?;
    Ok(RetainedContexts {
        template: flags.template,
        refinement_template: flags.refinement_template,
        generic_region,
        refinement_region,
    })
}

/// A copy of the contexts that another dictionary kept.
fn duplicate_contexts<A: Allocator + Clone>(
    alloc: A,
    kept: &RetainedContexts<A>,
) -> Result<RetainedContexts<A>>
    ensures { Gives (λ contexts. contexts_view contexts) result (Ok (contexts_view kept.now)) }
{
    let mut generic_region = Vec::new(alloc.clone()?);
    generic_region.extend_from_slice(&kept.generic_region)?;
    let mut refinement_region = Vec::new(alloc);
    refinement_region.extend_from_slice(&kept.refinement_region)?;
    Ok(RetainedContexts {
        template: kept.template,
        refinement_template: kept.refinement_template,
        generic_region,
        refinement_region,
    })
}

/// The contexts at the beginning: fresh, or those that another dictionary kept.
///
/// Returns `SymbolError::Invalid` where there are none, or where they have other templates;
/// `OutOfMemory` where there is no memory for them.
#[tactic(auto, unfolding(crate::specs::SymbolReading::first_contexts))]
pub fn first_contexts<A: Allocator + Clone>(
    alloc: A,
    flags: &SymbolDictionaryFlags,
    kept: Option<&RetainedContexts<A>>,
) -> Result<RetainedContexts<A>>
    ensures value { let others = option_map (λ c. contexts_view c.now) kept.entry in
        let meant = first_contexts flags.now others in
        Gives (λ contexts. contexts_view contexts) result meant }
    ensures causes { let others = option_map (λ c. contexts_view c.now) kept.entry in
        HasCauseOrNoMemory result (BreaksContexts flags.now others) }
{
    if !flags.bitmap_context_used {
        return fresh_contexts(alloc, flags);
    }
    let Some(kept) = kept else {
        return Err(SymbolError::Invalid.into());
    };
    let same = is_template(kept.template, flags.template)
        && is_refinement_template(kept.refinement_template, flags.refinement_template);
    if !same {
        return Err(SymbolError::Invalid.into());
    }
    duplicate_contexts(alloc, kept)
}

/// The contexts of a dictionary's bitmaps and of its refinements, as they have learned so far.
#[derive(Drop)]
pub struct WorkingContexts<A: Allocator> {
    pub(crate) template: Template,
    pub(crate) generic: Vec<ArithmeticDecoderContext, A>,
    pub(crate) refining: Refining<A>,
}

impl<A: Allocator> Model for WorkingContexts<A> {
    ghost use Rattle.std.specs.Prelude.{◌≡◌, ◌^◌, length};
    ghost use Rattle.jbig2_region.specs.Templates.{context_bits};
    ghost use Rattle.jbig2_symbol.specs.SymbolReading.{SymbolContexts};

    ghost Value = { SymbolContexts };

    ghost view = { λ c. record {
      template = c.template;
      generic = c.generic.items;
      refining = c.refining;
    } };

    ghost invariant = { λ c. length c.generic.items ≡ 2 ^ context_bits c.template };
}

impl<A: Allocator> WorkingContexts<A> {
    /// The contexts at the beginning of a dictionary with this header.
    pub fn new(
        header: &SymbolDictionaryHeader<'_>,
        contexts: RetainedContexts<A>,
    ) -> WorkingContexts<A>
        ensures { result ≡ start_contexts (header_view header.now) (contexts_view contexts) }
    {
        let RetainedContexts {
            template,
            refinement_template,
            generic_region,
            refinement_region,
        } = contexts;
        let pixels = header.refinement_pixels();
        WorkingContexts {
            template,
            generic: generic_region,
            refining: Refining::with_contexts(refinement_template, pixels, refinement_region),
        }
    }

    /// What the contexts have learned, for another dictionary.
    pub fn into_retained(self) -> RetainedContexts<A>
        ensures { contexts_view result ≡ bitmap_contexts self }
    {
        RetainedContexts {
            template: self.template,
            refinement_template: self.refining.template(),
            generic_region: self.generic,
            refinement_region: self.refining.into_contexts(),
        }
    }
}
