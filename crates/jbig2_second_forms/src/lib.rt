//! Second forms of definitions of JBIG2 (ITU-T T.88). Some definitions of the crates below follow the code step by
//! step. Here each has another form, nearer to the standard's words, and a law that the two are one. Each call does
//! nothing: its contract is the law, and it holds for all values.
#![tactic(auto)]

ghost use Rattle.jbig2_second_forms.specs.ExtendedTemplate.{NominalExtendedIsTemplate0};
ghost use Rattle.jbig2_second_forms.specs.RasterDecisions.{RegionsAreOfDecisions};
ghost use Rattle.jbig2_second_forms.specs.SymbolClasses.{SymbolsComeInClasses};
ghost use Rattle.jbig2_second_forms.specs.TextInstances.{TextRegionsAreLists};

/// A text region (6.4.5) is the fold of the list of its instances: they are read strip by strip, without a bitmap, and
/// then drawn one after the other. In both codings, and for refined symbols too, this gives the region that the
/// definition draws while it reads, the same contexts and coder after it, and the same error where it is refused.
pub fn text_regions_are_lists()
    ensures { TextRegionsAreLists }
{}

/// The new symbols of a dictionary (6.5.5) are those of a list of height classes, one class after the other. In both
/// codings these are the symbols that the definition gives, with the same state after them, and the same error where
/// the dictionary is refused.
pub fn symbols_come_in_classes()
    ensures { SymbolsComeInClasses }
{}

/// A region that the arithmetic coder codes pixel by pixel (6.2.5 and 6.3.5) is a function of its decisions: each pixel
/// has its known colour, or that of the next decision. The decisions are the coder's answers, if it is asked for them
/// one after the other in the contexts that the pixels before give.
pub fn regions_are_of_decisions()
    ensures { RegionsAreOfDecisions }
{}

/// A generic region by the extended template (6.2.5.3), with its twelve adaptive pixels where they lie by default, is
/// the region by template 0 with its four. The contexts after it are the same.
pub fn nominal_extended_is_template_0()
    ensures { NominalExtendedIsTemplate0 }
{}
