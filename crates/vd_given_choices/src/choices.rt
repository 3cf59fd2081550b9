//! Choices, as they are given.

ghost use Rattle.std.specs.Prelude.{◌≡◌, ◌++◌, ◌∷◌, IfOk, List, OnOk, Option, true};
ghost use Rattle.vd_composites.specs.Composites.{Value as AnyValue};
ghost use Rattle.vd_composites.specs.declared.ranges.Bounds.{Bounds as bounds};
ghost use Rattle.vd_environments.specs.Environments.{Env, Static};
ghost use Rattle.vd_environments.specs.Got.{Got};
ghost use Rattle.vd_forest.specs.Forest.{Forest, no_place, place_of as place_in};
ghost use Rattle.vd_given_choices.specs.Choices.{AreChoices, IsChoice, range_to_itself};
ghost use Rattle.vd_value_rules.specs.declared.forms.IndicatedForm.{IndicatedForm};
ghost use Rattle.vd_known_designs.specs.Designs.{IsReady, Knows};
ghost use Rattle.vd_meaning.specs.Brackets.{choice_bounds};
ghost use Rattle.vd_meaning.specs.Facets.{Meaning};
ghost use Rattle.vd_meaning.specs.Meanings.{meanings};
ghost use Rattle.vd_static_values.specs.Entries.{IsFound};
ghost use Rattle.vd_static_values.specs.Names.{IsRanging};
ghost use Rattle.vd_static_values.specs.Nodes.{AreNodes, IsNode};
ghost use Rattle.vd_value_rules.specs.Choices.{choice_given, choices_given as all_given, place_or};
ghost use Rattle.vd_value_rules.specs.Designs.{Design};
ghost use Rattle.vd_value_rules.specs.Knowledge.{Known};
ghost use Rattle.vd_values.specs.declared.scalar.Scalar.{Scalar as AnyScalar};

use std::alloc::{AllocError, Global};
use vd_bytes::Place;
use vd_composites::{Bounds, Value};
use vd_declarations::TypeId;
use vd_forest::Cursor;
use vd_known_designs::KnownDesign;
use vd_known_indications::nodes;
use vd_resolved::Resolved;
use vd_static_values::{Node, Ranging, Sense, position};
use vd_value_rules::StaticSort;

/// A choice.
#[derive(Drop)]
pub struct Choice {
    pub place: Place,
    /// Whether it is locally static.
    pub is_static: bool,
    pub mark: Option<TypeId>,
    /// The range of values that it stands for, where it is scalar, locally static and doesn't stop.
    pub range: Option<Bounds>,
    /// Its value, where it is locally static and doesn't stop.
    pub value: Option<Value>,
}

/// The range from a value to itself, where it is scalar.
fn own_range(value: &Value) -> Result<Option<Bounds>, AllocError>
    ensures { IfOk result (λ found. IsFound found (range_to_itself value.now)) }
{
    match position(value)? {
        Some(at) => Ok(Some(Bounds {
            left: at,
            right: at,
            down: false,
        })),
        None => Ok(None),
    }
}

/// The range of values that a locally static choice stands for.
fn range_of(ranging: Ranging, value: &Option<Value>) -> Result<Option<Bounds>, AllocError>
    ensures { (range : Option (Env → Got bounds)) (v : Env → Got (AnyValue AnyScalar)) (known : Static) (e : Env)
        → IsRanging ranging range known e → known.is_local ≡ true → IsFound value.now (v e)
        → IfOk result (λ found. IsFound found (choice_bounds range v e)) }
{
    match ranging {
        Ranging::Range(range) => Ok(range),
        Ranging::NoRange => match value {
            Some(value) => own_range(value),
            None => Ok(None),
        },
    }
}

/// The range of values that a choice stands for, where that is locally static.
fn early_range(
    known: StaticSort,
    ranging: Ranging,
    value: &Option<Value>,
) -> Result<Option<Bounds>, AllocError>
    ensures { (range : Option (Env → Got bounds)) (v : Env → Got (AnyValue AnyScalar)) (kn : Static) (e : Env)
        → IsRanging ranging range kn e → kn.is_local ≡ known.is_local → (known.is_local ≡ true → IsFound value.now (v e))
        → IfOk result (λ found. known.is_local ≡ true → IsFound found (choice_bounds range v e)) }
{
    if known.is_local {
        range_of(ranging, value)
    } else {
        Ok(None)
    }
}

/// The choice that a node is.
fn choice_of(node: Node<'_>, place: Place) -> Result<Choice, AllocError>
    ensures { (subtypes : List (Forest IndicatedForm)) (e : Env) (m : Meaning) → IsNode subtypes e node.entry m
        → IfOk result (λ x. IsChoice x (choice_given m place e)) }
{
    let Node { sense, .. } = node;
    let Sense {
        mark,
        value,
        known,
        range,
        ..
    } = sense;
    let range = early_range(known, range, &value)?;
    Ok(Choice {
        place,
        is_static: known.is_local,
        mark,
        range,
        value,
    })
}

/// The place of the first of some trees.
pub fn place_of(trees: &Cursor<'_, Resolved>) -> Place
    ensures { result ≡ place_or (place_in trees.now) no_place }
{
    match trees.place() {
        Some(place) => place,
        None => Place {
            file: 0,
            line: 0,
            column: 0,
        },
    }
}

/// The choices that some nodes are, by the trees that they stand for.
fn with_places(
    alloc: Global,
    nodes: Vec<Node<'_>>,
    trees: &Cursor<'_, Resolved>,
) -> Result<Vec<Choice>, AllocError>
    ensures { (d : Design) (subtypes : List (Forest IndicatedForm)) (e : Env) → AreNodes subtypes e nodes.entry.items (meanings d.table trees.now)
        → IfOk result (λ xs. AreChoices xs.items (all_given d e trees.now)) }
{
    let mut choices = Vec::with_capacity(alloc, nodes.len())?;
    let mut rest = trees.fork();
    for node in nodes {
        let choice = choice_of(node, place_of(&rest))?;
        choices.push(choice)?;
        rest = rest.next();
    }
    Ok(choices)
}

/// The choices of a list.
pub fn choices_given(
    design: &mut KnownDesign<'_, '_>,
    alloc: Global,
    trees: &Cursor<'_, Resolved>,
) -> Result<Vec<Choice>, AllocError>
    requires ready { IsReady design.old }
    ensures choices { (d : Design) (k : Known) (ks : List Known) → Knows d design.old (k ∷ ks)
        → IfOk result (λ xs. AreChoices xs.items (all_given d k.env trees.now)) }
    ensures knows { (d : Design) (ks : List Known) → Knows d design.old ks → Knows d design.new ks }
    ensures subtypes { design.new.table.subtypes ≡ design.old.table.subtypes }
{
    let nodes = nodes(design, alloc, trees)?;
    with_places(alloc, nodes, trees)
}

/// Some choices and some more.
pub fn add_choices(choices: &mut Vec<Choice>, more: Vec<Choice>) -> Result<(), AllocError>
    ensures { OnOk result (choices.new.items ≡ choices.old.items ++ more.items) }
{
    for choice in more {
        choices.push(choice)?;
    }
    Ok(())
}
