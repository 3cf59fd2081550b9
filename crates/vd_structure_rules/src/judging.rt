//! The least refusal of a design.

ghost use Rattle.std.specs.Prelude.{◌≡◌, None, IfOk, is_some, slice_index_or};
ghost use Rattle.vd_walks.specs.Least.{Judge, least_of, refusals};
ghost use Rattle.vd_structure_rules.specs.StructureRules.{Design, broken_by_statement as statement_breaks, broken_by_declaration as declaration_breaks, broken_at, structure_judge, first_refused};

use crate::around::{Around, Body, Naming, around_in, statement_place};
use crate::choices::early_in;
use crate::functions::{
    bodies, equality_function, in_function, report_goes_on, without_body, without_return,
};
use crate::loops::{LabelledLoop, labelled_loops, wrong_jump};
use crate::names::{declared_name_in, kept_free_name, only_2019};
use crate::statements::{loop_without_wait, process_without_wait, return_outside, wait_in_listed};
use crate::tables::{bodies_by_number, loops_by_label};
use std::alloc::{AllocError, Global};
use vd_bytes::{Place, Refused};
use vd_declarations::DeclId;
use vd_forest::{Cursor, Opened};
use vd_resolved::Resolved;
use vd_trees::Revision;
use vd_walks::{Judging, find_least, lesser};

/// The rules of a revision, with the functions that have bodies and the loops with labels by their numbers.
#[derive(Clone, Copy)]
struct StructureRules<'a> {
    revision: Revision,
    bodies: &'a [Option<DeclId>],
    loops: &'a [Option<LabelledLoop>],
}

/// The least refusal of a node as a statement, which is refused at this place.
fn broken_by_statement(
    bodies: &[Option<DeclId>],
    loops: &[Option<LabelledLoop>],
    around: &Around,
    place: Place,
    node: &Opened<'_, Resolved>,
) -> Option<Refused>
    ensures { result ≡ least_of (refusals (statement_breaks
        (record { with_body = λ k. is_some (slice_index_or bodies.now k None); loops = λ k. slice_index_or loops.now k None })
        around.now place node.now.form node.now.place node.now.parts)) }
{
    let form = node.form.form;
    let waits = lesser(
        wait_in_listed(around.body, form, place),
        process_without_wait(form, place, &node.parts),
    );
    let control = lesser(
        loop_without_wait(form, place, &node.parts),
        return_outside(around.body, form, place),
    );
    let jump = wrong_jump(
        loops,
        around.innermost,
        form,
        place,
        node.place,
        &node.parts,
    );
    let inside = lesser(
        in_function(around.body, form, place),
        report_goes_on(around.body, form, place, &node.parts),
    );
    lesser(lesser(waits, control), lesser(jump, inside))
}

/// The least refusal of a node as a declaration.
#[tactic(auto, using(crate::proofs::RuleLemmas::five_rules))]
fn broken_by_declaration(
    alloc: Global,
    rules: &StructureRules<'_>,
    around: &Around,
    node: &Opened<'_, Resolved>,
) -> Result<Option<Refused>, AllocError>
    ensures { IfOk result (λ refused. refused ≡ least_of (refusals (declaration_breaks rules.now.revision
        (record { with_body = λ k. is_some (slice_index_or rules.now.bodies.now k None); loops = λ k. slice_index_or rules.now.loops.now k None })
        around.now node.now.form node.now.text.now node.now.place node.now.parts))) }
{
    let form = node.form.form;
    let revision = rules.revision;
    let returns = without_return(alloc, form, node.place, &node.parts)?;
    let body = without_body(
        rules.bodies,
        form,
        node.form.declaration,
        node.place,
        &node.parts,
    );
    let listed = only_2019(
        revision,
        kept_free_name(around.naming, form, node.text, node.place),
    );
    let named = only_2019(revision, declared_name_in(form, &node.parts));
    let equality = equality_function(revision, form, node.place, &node.parts);
    Ok(lesser(
        lesser(returns, body),
        lesser(lesser(listed, named), equality),
    ))
}

impl<'a> Judging<Resolved, Around> for StructureRules<'a> {
    ghost judge = { λ rules. structure_judge rules.revision
        (record { with_body = λ k. is_some (slice_index_or rules.bodies.now k None); loops = λ k. slice_index_or rules.loops.now k None }) };

    #[tactic(auto, using(crate::proofs::RuleLemmas::three_kinds))]
    fn broken(
        &self,
        alloc: Global,
        around: &Around,
        node: &Opened<'_, Resolved>,
    ) -> Result<Option<Refused>, AllocError> {
        let place = statement_place(around.label, node.place);
        let statement = broken_by_statement(self.bodies, self.loops, around, place, node);
        let declaration = broken_by_declaration(alloc, self, around, node)?;
        let choices = early_in(node.form.form, &node.parts);
        Ok(lesser(statement, lesser(declaration, choices)))
    }

    fn down(
        &self,
        _alloc: Global,
        around: &Around,
        node: &Opened<'_, Resolved>,
    ) -> Result<Around, AllocError> {
        Ok(around_in(around, node))
    }

    fn along(
        &self,
        _alloc: Global,
        around: &Around,
        _node: &Opened<'_, Resolved>,
    ) -> Result<Around, AllocError> {
        Ok(*around)
    }
}

/// The least refusal of some design units by the rules that hang on no type or value.
#[tactic(auto, using(crate::proofs::RuleLemmas::same_design))]
pub fn first_structure_refusal(
    alloc: Global,
    revision: Revision,
    units: &Cursor<'_, Resolved>,
) -> Result<Option<Refused>, AllocError>
    ensures { IfOk result (λ refused. refused ≡ first_refused revision units.now) }
{
    let functions = bodies(alloc, units)?;
    let with_body = bodies_by_number(alloc, functions.as_slice())?;
    let labelled = labelled_loops(alloc, units)?;
    let loops = loops_by_label(alloc, labelled.as_slice())?;
    let rules = StructureRules {
        revision,
        bodies: with_body.as_slice(),
        loops: loops.as_slice(),
    };
    let outside = Around {
        label: None,
        body: Body::Outside,
        innermost: None,
        naming: Naming::Used,
    };
    find_least(alloc, units, outside, &rules)
}
