//! Written bytes are read as the tokens that were written.

ghost use Rattle.vd_first_print.specs.ReadingBack.{LayoutReadsBack, TokenListsArePossible};

/// Any tokens of either revision may stand side by side: the layout keeps them apart. By `vd_first_lex::one_lexing` its bytes
/// can be read as no others.
pub fn layout_reads_back()
    ensures { LayoutReadsBack }
{}

/// The names of a token list are identifiers, which a reader of written tokens can rely on.
pub fn token_lists_are_possible()
    ensures { TokenListsArePossible }
{}
