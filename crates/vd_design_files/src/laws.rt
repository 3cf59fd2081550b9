//! What holds of the answers. The functions do nothing: their contracts are the laws.

ghost use Rattle.vd_design_files.specs.Laws.{HasOneAnswer, HasSomeAnswer};

/// Files have no two answers.
pub fn one_answer()
    ensures { HasOneAnswer }
{}

/// Files have an answer, whatever they hold.
pub fn some_answer()
    ensures { HasSomeAnswer }
{}
