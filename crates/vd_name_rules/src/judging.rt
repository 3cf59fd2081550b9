//! The first refusal of a design.

ghost use Rattle.std.specs.Prelude.{◌≡◌, IfOk};
ghost use Rattle.vd_value_rules.specs.Groups.{firsts_by, operators as operators_group};

use crate::instances::instance_finds;
use crate::operators::{Operators, refused_operators};
use std::alloc::{AllocError, Global};
use vd_bytes::Refused;
use vd_forest::Opened;
use vd_resolved::{Resolved, Tree};
use vd_trees::Revision;
use vd_value_rules::{Firsts, nothing_refused};
use vd_walks::{Judging, find_least};

/// The rule, which hangs on nothing round a node.
#[derive(Clone, Copy)]
struct OperatorRule<'a> {
    operators: Operators<'a>,
}

impl<'a> Judging<Resolved, ()> for OperatorRule<'a> {
    ghost use Rattle.vd_walks.specs.Least.{Judge};
    ghost use Rattle.vd_name_rules.specs.Designs.{operator_judge};

    ghost judge = { λ rule. operator_judge rule.operators.declarations.now };

    fn broken(
        &self,
        alloc: Global,
        _state: &(),
        node: &Opened<'_, Resolved>,
    ) -> Result<Option<Refused>, AllocError> {
        let operators = &self.operators;
        let is_used = operators.are_used(node.form, &node.parts);
        let is_found = instance_finds(alloc, operators, node)?;
        if is_used || is_found {
            return Ok(Some(Refused {
                place: node.place,
                rule: 414,
            }));
        }
        Ok(None)
    }

    fn down(
        &self,
        _alloc: Global,
        _state: &(),
        _node: &Opened<'_, Resolved>,
    ) -> Result<(), AllocError> {
        Ok(())
    }

    fn along(
        &self,
        _alloc: Global,
        _state: &(),
        _node: &Opened<'_, Resolved>,
    ) -> Result<(), AllocError> {
        Ok(())
    }
}

/// The first use of an operator that orders by matching on STD_ULOGIC, or the first instance that finds one. Revision 1993 has none.
pub fn operator_refusals(
    alloc: Global,
    revision: Revision,
    tree: &Tree,
) -> Result<Firsts, AllocError>
    ensures { IfOk result (λ found. found ≡ firsts_by operators_group revision tree.now) }
{
    match revision {
        Revision::V1993 => Ok(nothing_refused()),
        Revision::V2019 => {
            let declarations = tree.declarations();
            let refused = refused_operators(alloc, declarations)?;
            let rule = OperatorRule {
                operators: Operators::of(declarations, refused.as_slice()),
            };
            let units = tree.cursor();
            let of_rules = find_least(alloc, &units, (), &rule)?;
            Ok(Firsts {
                of_names: None,
                of_rules,
            })
        }
    }
}
