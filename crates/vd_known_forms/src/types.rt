//! Type definitions. (IEEE 1076, types)

ghost use Rattle.std.specs.Prelude.{◌≡◌, ◌∷◌, IfOk, List, OnOk, false, true};
ghost use Rattle.vd_forest.specs.Store.{Extends};
ghost use Rattle.vd_known_designs.specs.Designs.{AreIndicated, IsReady, Knows};
ghost use Rattle.vd_value_rules.specs.Designs.{Design};
ghost use Rattle.vd_value_rules.specs.Knowledge.{Known, type_defined as type_meant};

use crate::arrays::array_defined;
use crate::enumerations::enumeration_defined;
use crate::records::record_defined;
use std::alloc::{AllocError, Global};
use vd_forest::Cursor;
use vd_forms::Form;
use vd_known_designs::{KnownDesign, TwoSubtypes};
use vd_resolved::Resolved;

/// What a type definition, the first of these trees, defines.
pub fn type_defined(
    design: &mut KnownDesign<'_, '_>,
    alloc: Global,
    definition: &Cursor<'_, Resolved>,
) -> Result<TwoSubtypes, AllocError>
    requires ready { IsReady design.old }
    ensures indicated { (d : Design) (k : Known) (ks : List Known) → Knows d design.old (k ∷ ks) → IfOk result (λ x. AreIndicated design.new.table.subtypes x (record {
      own = type_meant d false k definition.now;
      choosing = type_meant d true k definition.now;
    })) }
    ensures knows { (d : Design) (ks : List Known) → Knows d design.old ks → OnOk result (Knows d design.new ks) }
    ensures extends { OnOk result (Extends design.old.table.subtypes design.new.table.subtypes) }
{
    let nothing = TwoSubtypes {
        own: 0,
        choosing: 0,
    };
    let Some(first) = definition.open() else {
        return Ok(nothing);
    };
    match first.form.form {
        Form::ArrayType => array_defined(design, alloc, &first.parts),
        Form::RecordType => record_defined(design, alloc, &first.parts.parts()),
        Form::EnumerationType => enumeration_defined(design, alloc, &first.parts),
        _ => Ok(nothing),
    }
}
