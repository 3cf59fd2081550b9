//! Designs that meet the rules.

ghost use Rattle.std.specs.Prelude.{◌≡◌, IfOk};
ghost use Rattle.vd_accepting.specs.Accepting.{IsAnswer, MeetsRules};
ghost use Rattle.vd_forest.specs.Forest.{Forest};
ghost use Rattle.vd_forms.specs.declared.form.Form.{Form as AnyForm};
ghost use Rattle.vd_accepting.specs.Phases.{first_broken, resolved_design};
ghost use Rattle.vd_trees.specs.declared.revision.Revision.{Revision as AnyRevision};
ghost use Rattle.vd_trees.specs.declared.revision.Revision.TheVariants.{V1993, V2019};
ghost use Rattle.vd_weighing.specs.Limits.{at_most};
ghost use Rattle.vd_weighing.specs.Weights.{weight_of};

use crate::judging::{Judgement, judge};
use std::alloc::{AllocError, Global};
use std::marker::Model;
use vd_bytes::Refusal;
use vd_forest::Cursor;
use vd_forms::{Design19, Design93, Form};
use vd_resolved::Tree;
use vd_trees::Revision;
use vd_weighing::weight;

/// A design of revision 2019, resolved, that breaks none of its rules.
#[derive(Drop)]
pub struct Accepted {
    tree: Tree,
}

impl Model for Accepted {
    ghost use Rattle.std.specs.Coded.{coded_list};
    ghost use Rattle.vd_accepting.specs.Accepting.{MeetsRules};
    ghost use Rattle.vd_declarations.specs.contracts.declarations.Declaration as declared;
    ghost use Rattle.vd_forest.specs.Code.{coded_forest};
    ghost use Rattle.vd_resolved.specs.Codes.{coded_tree};
    ghost use Rattle.vd_resolved.specs.Trees.{ResolvedTree};
    ghost use Rattle.vd_resolved.specs.contracts.node.Resolved as nodes;
    ghost use Rattle.vd_trees.specs.declared.revision.Revision.TheVariants.{V2019};

    ghost Value = { ResolvedTree };

    ghost coded = { coded_tree (coded_forest nodes.the_row.coded) (coded_list declared.the_row.coded) };

    ghost view = { λ a. a.tree };

    ghost invariant = { λ a. MeetsRules V2019 a.tree };
}

impl Accepted {
    /// The design that is held here.
    pub fn of(tree: Tree) -> Accepted
        requires { MeetsRules V2019 tree }
        ensures { result ≡ tree }
    {
        Accepted { tree }
    }

    /// The resolved design.
    pub fn resolved(&self) -> &Tree
        ensures tree { result.now ≡ self.now }
        ensures rules { MeetsRules V2019 self.now }
    {
        &self.tree
    }

    /// How much is to be made of the design: a number for each node, those that are written out at instances counted once for each of these. It is the
    /// greatest number of 64 bits where the weight is greater.
    pub fn weight(&self, alloc: Global) -> Result<u64, AllocError>
        ensures { IfOk result (λ weight. weight ≡ at_most (weight_of self.now.declarations self.now.units)) }
    {
        weight(alloc, self.tree.declarations(), &self.tree.cursor())
    }
}

/// The tree of a design that breaks no rule, or else the first rule that it breaks.
fn answer(found: Judgement) -> Result<Tree, Refusal>
    ensures { (r : AnyRevision) (units : Forest AnyForm) → found.tree ≡ resolved_design r units → found.first ≡ first_broken r units
        → IsAnswer r units result }
{
    match found.first {
        Some(refused) => Err(Refusal::Refused(refused)),
        None => Ok(found.tree),
    }
}

/// What is answered of the units of a design.
fn accept(alloc: Global, revision: Revision, units: &Cursor<'_, Form>) -> Result<Tree, Refusal>
    ensures { IsAnswer revision units.now result }
{
    match judge(alloc, revision, units) {
        Ok(found) => answer(found),
        Err(_) => Err(Refusal::Memory),
    }
}

/// A design of revision 2019, resolved, where it breaks no rule, or else the first rule that it breaks: of 301 to 310, or else of 401 to 415; the one at
/// the least place, and there the one with the least number.
pub fn accept19(alloc: Global, design: &Design19) -> Result<Accepted, Refusal>
    ensures { IsAnswer V2019 design.now result }
{
    match accept(alloc, Revision::V2019, &design.units()) {
        Ok(tree) => Ok(Accepted { tree }),
        Err(refusal) => Err(refusal),
    }
}

/// The same of a design of revision 1993.
pub fn accept93(alloc: Global, design: &Design93) -> Result<Tree, Refusal>
    ensures { IsAnswer V1993 design.now result }
{
    accept(alloc, Revision::V1993, &design.units())
}
