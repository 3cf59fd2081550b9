//! Laws of the definitions, each the contract of a function that does nothing.

ghost use Rattle.std.specs.Prelude.{◌≡◌, List, [], ◌++◌};
ghost use Rattle.vd_forest.specs.Forest.{Forest, size, tree_count, text_of, place_of, parts_of, next_of, joined, turned, erased, SameButPlaces};
ghost use Rattle.vd_rewriting.specs.Folding.{Meaning, folded, IsBlind};
ghost use Rattle.vd_rewriting.specs.Forms.{with_forms, forms_pass, meaning_of_forms};
ghost use Rattle.vd_rewriting.specs.Inheriting.{Rules, RelatesNodes, RelatesMeanings};
ghost use Rattle.vd_rewriting.specs.Rewriting.{Pass, rewritten, KeepsNodes, KeepsMeanings};

/// A change of forms leaves how many nodes and trees there are, their texts and their places, and goes with parts, with
/// joining, turning and erasing. It is a pass.
pub fn changes_of_forms<F: Copy + Drop, G: Copy + Drop>()
    ensures size { (change : F → G) (f : Forest F) → size (with_forms change f) ≡ size f }
    ensures trees { (change : F → G) (f : Forest F) → tree_count (with_forms change f) ≡ tree_count f }
    ensures texts { (change : F → G) (f : Forest F) → text_of (with_forms change f) ≡ text_of f }
    ensures places { (change : F → G) (f : Forest F) → place_of (with_forms change f) ≡ place_of f }
    ensures parts { (change : F → G) (f : Forest F) → parts_of (with_forms change f) ≡ with_forms change (parts_of f) }
    ensures next { (change : F → G) (f : Forest F) → next_of (with_forms change f) ≡ with_forms change (next_of f) }
    ensures joined { (change : F → G) (f g : Forest F) → with_forms change (joined f g) ≡ joined (with_forms change f) (with_forms change g) }
    ensures turned { (change : F → G) (f g : Forest F) → with_forms change (turned f g) ≡ turned (with_forms change f) (with_forms change g) }
    ensures erased { (change : F → G) (f : Forest F) → erased (with_forms change f) ≡ with_forms change (erased f) }
    ensures pass { (change : F → G) (f : Forest F) → rewritten (forms_pass change) f ≡ with_forms change f }
{}

/// The meanings of trees: there is one for each tree, those of joined forests are joined, and one that doesn't hang on places
/// is that of the forest without them.
pub fn meanings_of_forests<F: Copy + Drop, M: Copy + Drop>()
    ensures joined { (meaning : Meaning F M) (f g : Forest F) → folded meaning (joined f g) ≡ folded meaning f ++ folded meaning g }
    ensures blind { (meaning : Meaning F M) → IsBlind meaning → (f g : Forest F) → SameButPlaces f g → folded meaning f ≡ folded meaning g }
{}

/// A pass whose nodes keep their meaning keeps the meaning of each forest, and the meaning of changed forms is that of the
/// forms before.
pub fn passes_keep_meanings<F: Copy + Drop, G: Copy + Drop, M: Copy + Drop>()
    ensures keeps { (before : Meaning F M) (after : Meaning G M) (pass : Pass F G) → KeepsNodes before after pass → KeepsMeanings before after pass }
    ensures forms { (change : F → G) (meaning : Meaning G M) (f : Forest F)
        → folded meaning (with_forms change f) ≡ folded (meaning_of_forms change meaning) f }
{}

/// A relation between the meanings of the trees of a forest before a pass and after it, which may depend on the state. A clause
/// can't range over relations, so a type has it.
pub trait Relating<S, M, N> {
    ghost related: { S → List M → List N → Type 0 };
}

/// A pass under states whose nodes relate old and new meanings relates those of each forest, under each state.
pub fn passes_relate_meanings<
    F: Copy + Drop,
    G: Copy + Drop,
    S: Copy + Drop,
    M: Copy + Drop,
    N: Copy + Drop,
    R: Relating<S, M, N>,
>()
    ensures { (before : Meaning F M) (after : Meaning G N) (rules : Rules F G S)
        → ((state : S) → R.related state [] []) → RelatesNodes before after R.related rules → RelatesMeanings before after R.related rules }
{}
