//! Laws of whole pages of JBIG2 (ITU-T T.88): what a page's pixels are, and what its errors mean. Each call here does
//! nothing: its contract is a law over definitions, and it holds for all values.
#![tactic(auto)]

ghost use Rattle.jbig2_page_laws.specs.PageErrors.{ErrorsHaveCauses};
ghost use Rattle.jbig2_page_laws.specs.PagePixels.{PixelsAreFolds};

/// Each pixel of a page that is drawn is the fold of the operators of the regions that cover it (7.4.1.5 and 8.2), in
/// the order of their segments, from the page's default pixel on. The regions are those that the page's immediate
/// segments decode to.
pub fn pixels_are_folds()
    ensures { PixelsAreFolds }
{}

/// Where globals, a page or a file is refused with an error, the rule that names the error is broken. The bytes of one
/// segment break it, where segments are read; or a segment itself does, after those before it were drawn or kept; or a
/// file's header; or, where a page or a file begins, all segments together. In coded data the rule is broken at the state
/// that the definitions reach there.
pub fn errors_have_causes()
    ensures { ErrorsHaveCauses }
{}
