//! Laid out tokens are read as these tokens.

ghost use Rattle.vd_spacing.specs.ReadingBack.{LayoutsReadBack};

/// Possible tokens of either revision may stand side by side: their layout keeps them apart. By `vd_lex::one_lexing` its bytes
/// can be read as no others.
pub fn layouts_read_back()
    ensures { LayoutsReadBack }
{}
