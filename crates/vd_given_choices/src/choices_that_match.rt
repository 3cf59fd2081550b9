//! Choices that match earlier ones.

ghost use Rattle.std.specs.Prelude.{◌≡◌, ◌∷◌, [], IfOk, List};
ghost use Rattle.vd_given_choices.specs.Choices.{AreChoices};
ghost use Rattle.vd_known_designs.specs.Designs.{IsReady, Knows};
ghost use Rattle.vd_walks.specs.Least.{least_of};
ghost use Rattle.vd_meaning.specs.Facets.{ByMatching};
ghost use Rattle.vd_value_rules.specs.Choices.{Given, matching};
ghost use Rattle.vd_value_rules.specs.Designs.{Design};
ghost use Rattle.vd_value_rules.specs.Knowledge.{Known};

use crate::Choice;
use crate::matching::add_matching;
use crate::values::choice_values;
use std::alloc::{AllocError, Global};
use vd_bytes::Refused;
use vd_known_designs::KnownDesign;
use vd_value_rules::refused_if;
use vd_vectors::LogicType;
use vd_walks::lesser;

/// The first choice of which a value matches one of an earlier choice, or another one of its own. Each value is compared with all earlier ones.
pub fn first_matching(
    design: &KnownDesign<'_, '_>,
    alloc: Global,
    of: LogicType,
    choices: &[Choice],
) -> Result<Option<Refused>, AllocError>
    requires ready { IsReady design.now }
    ensures matching { (d : Design) (k : Known) (ks : List Known) (gs : List Given) → Knows d design.now (k ∷ ks) → AreChoices choices.now gs
        → IfOk result (λ found. found ≡ least_of (matching (ByMatching of) k.env [] gs)) }
{
    let ground = design.table.ground(design.revision, design.declarations);
    let mut found = None;
    let mut before = Vec::new(alloc);
    for choice in choices {
        let values = choice_values(&ground, alloc, choice)?;
        let matches = add_matching(alloc, of, &mut before, values)?;
        let refused = refused_if(matches, choice.place, 404);
        found = lesser(found, refused);
    }
    Ok(found)
}
