//! Where the declarations stand that a list of identifiers declares.

ghost use Rattle.std.specs.Prelude.{◌≡◌};
ghost use Rattle.vd_meaning.specs.Kinds.{kind};
ghost use Rattle.vd_function_names.specs.Counting.{counted, counts as does_count, behind as trees_behind, inside as trees_inside};

use vd_forms::Form;

/// Where the declarations of a node stand.
#[derive(Clone, Copy)]
pub enum Counting {
    Itself,
    /// It is a character literal, which has no number.
    Character,
    AllParts,
    FirstPart,
    SecondPart,
    Nowhere,
}

/// The trees of a list whose declarations count.
#[derive(Clone, Copy)]
pub enum Counted {
    Each,
    FirstAlone,
    SecondAlone,
    NoTrees,
}

/// Where the declarations of nodes of the form stand.
pub fn counting_of(form: Form) -> Counting
    ensures { result ≡ counted (kind form) }
{
    match form {
        Form::Identifier => Counting::Itself,
        Form::Letter => Counting::Character,
        Form::IdentifierList => Counting::AllParts,
        Form::Association => Counting::SecondPart,
        Form::OthersAssociation | Form::UnconstrainedIndex => Counting::FirstPart,
        _ => Counting::Nowhere,
    }
}

/// Whether the first tree counts.
pub fn counts(trees: Counted) -> bool
    ensures { result ≡ does_count trees }
{
    matches!(trees, Counted::Each | Counted::FirstAlone)
}

/// Which of the trees behind the first count.
pub fn behind(trees: Counted) -> Counted
    ensures { result ≡ trees_behind trees }
{
    match trees {
        Counted::Each => Counted::Each,
        Counted::SecondAlone => Counted::FirstAlone,
        _ => Counted::NoTrees,
    }
}

/// Which of a node's parts count.
pub fn inside(counting: Counting) -> Counted
    ensures { result ≡ trees_inside counting }
{
    match counting {
        Counting::AllParts => Counted::Each,
        Counting::FirstPart => Counted::FirstAlone,
        Counting::SecondPart => Counted::SecondAlone,
        _ => Counted::NoTrees,
    }
}
