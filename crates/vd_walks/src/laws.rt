//! Laws of the definitions, each the contract of a function that does nothing.

ghost use Rattle.std.specs.Prelude.{◌≡◌, [], Option, None, MatchOption};
ghost use Rattle.vd_bytes.specs.declared.answers.Refused.{Refused};
ghost use Rattle.vd_forest.specs.Forest.{Forest, joined};
ghost use Rattle.vd_walks.specs.Least.{Judge, lesser, least, least_of, all_broken};
ghost use Rattle.vd_walks.specs.Laws.{IsLeast, KeepsState, behind};

/// The lesser of two refusals hangs neither on their order nor on brackets, and no refusal is its unit.
pub fn lesser_is_a_choice()
    ensures left { (a : Option Refused) → lesser None a ≡ a }
    ensures right { (a : Option Refused) → lesser a None ≡ a }
    ensures same { (a : Option Refused) → lesser a a ≡ a }
    ensures either_order { (a b : Option Refused) → lesser a b ≡ lesser b a }
    ensures brackets { (a b c : Option Refused) → lesser (lesser a b) c ≡ lesser a (lesser b c) }
{}

/// The least refusal of a forest is one of all its refusals, and none of them is less; there is none exactly where there are no
/// refusals.
pub fn least_is_least<F: Copy + Drop, S: Copy + Drop>()
    ensures of_all { (judge : Judge F S) (state : S) (f : Forest F) → least judge state f ≡ least_of (all_broken judge state f) }
    ensures is { (judge : Judge F S) (state : S) (f : Forest F)
        → MatchOption (least judge state f) (all_broken judge state f ≡ []) (IsLeast (all_broken judge state f)) }
{}

/// The least refusal of joined forests is the lesser of theirs.
pub fn least_of_joined<F: Copy + Drop, S: Copy + Drop>()
    ensures joined { (judge : Judge F S) (state : S) (f g : Forest F)
        → least judge state (joined f g) ≡ lesser (least judge state f) (least judge (behind judge state f) g) }
    ensures same_state { (judge : Judge F S) → KeepsState judge → (state : S) (f g : Forest F)
        → least judge state (joined f g) ≡ lesser (least judge state f) (least judge state g) }
{}
