//! Laws of the lexis.

ghost use Rattle.vd_lex.specs.Lexis.{HasOneLexing, HasSomeLexing};
ghost use Rattle.vd_lex.specs.Spelled.{ReadsSpellings};
ghost use Rattle.vd_lex.specs.WorkedItems.{WorkedItems};

/// A text is read in one way only. So the answers of `lex19` and `lex93` are the only ones.
pub fn one_lexing()
    ensures { HasOneLexing }
{}

/// A text has a token list or a break.
pub fn some_lexing()
    ensures { HasSomeLexing }
{}

/// The bytes of a token are read as this token and the end. So what `spell` gives is read back.
pub fn spellings_read_back()
    ensures { ReadsSpellings }
{}

/// What short texts are, by the definitions alone.
pub fn worked_items()
    ensures { WorkedItems }
{}
