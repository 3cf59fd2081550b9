//! What holds of every checked table. The functions do nothing: their contracts are the laws.

ghost use Rattle.vd_gram.specs.Laws.{HasOneDerivation, HasOnePlacedDerivation, HasOneAnswerEach, HasSomeAnswerEach, IsAsShallowAsAsked, IsDeepWhereDeep};
ghost use Rattle.vd_gram.specs.Same.{SayTheSame};

/// A text has one derivation.
pub fn one_derivation()
    ensures unplaced { HasOneDerivation }
    ensures placed { HasOnePlacedDerivation }
{}

/// A list of symbols has one answer of `parse`, memory aside: no two, and some.
pub fn one_answer()
    ensures no_two { HasOneAnswerEach }
    ensures some { HasSomeAnswerEach }
{}

/// A derivation that `parse` gives is no deeper than asked.
pub fn shallow_answer()
    ensures { IsAsShallowAsAsked }
{}

/// A text that has a derivation is too deep only where this derivation is.
pub fn deep_only_where_deep()
    ensures { IsDeepWhereDeep }
{}

/// Tables with one grammar say the same of each text, wherever their lists stand in memory.
pub fn same_grammar()
    ensures { SayTheSame }
{}
