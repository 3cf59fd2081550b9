//! What holds of what is written. The functions do nothing: their contracts are the laws.

ghost use Rattle.vd_templates.specs.Laws.{ArePossible, EndOnce};
ghost use Rattle.vd_templates.specs.Layout.{HaveBrackets, HaveLines, HaveLevels};

/// The tokens of a design are some that a text of revision 1993 can have, and the end stands last and nowhere else.
pub fn tokens_are_possible()
    ensures possible { ArePossible }
    ensures ends { EndOnce }
{}

/// Operands have brackets as the layout says, lines end behind the tokens that it names, and what
/// stands further in ends where it began.
pub fn templates_keep_the_layout()
    ensures brackets { HaveBrackets }
    ensures lines { HaveLines }
    ensures levels { HaveLevels }
{}
