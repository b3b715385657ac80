//! Laws of symbol dictionaries. The call here does nothing: its contract is the law.
ghost use Rattle.jbig2_symbol.specs.ClassCauses.{CodingsHaveCauses};

/// What the clauses `causes` of exports, widths and classes take as given (T.88, 6.5.5 to 6.5.10): in each coding,
/// whatever was read before, a number, a symbol or a class that is refused breaks the rule that its error names.
pub fn codings_have_causes()
    ensures { CodingsHaveCauses }
{}
