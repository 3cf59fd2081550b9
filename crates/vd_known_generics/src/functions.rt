//! Functions and types that generics stand for. (IEEE 1076, generic map aspects; function calls; static expressions)

ghost use Rattle.std.specs.Prelude.{◌≡◌, ◌∷◌, List, slice_index_or, true};
ghost use Rattle.vd_value_rules.specs.Indicated.{static_of};
ghost use Rattle.vd_known_generics.specs.Actuals.{IsCalled, result_mark as mark_of_result, results_of};
ghost use Rattle.vd_known_designs.specs.Designs.{Knows};
ghost use Rattle.vd_meaning.specs.Names.{calls_known as known_of_calls};
ghost use Rattle.vd_meaning.specs.Operators.{function_of};
ghost use Rattle.vd_meaning.specs.Tables.{actual_mark as mark_of_actual, followed as follow, no_declaration, table};
ghost use Rattle.vd_static_values.specs.Entries.{IsFunction};
ghost use Rattle.vd_trees.specs.declared.revision.Revision.{Revision as AnyRevision};
ghost use Rattle.vd_value_rules.specs.Declaring.{function_denoted, result_in};
ghost use Rattle.vd_value_rules.specs.Designs.{Design};
ghost use Rattle.vd_value_rules.specs.Knowledge.{Known};

use vd_declarations::{Class, DeclId, Declaration};
use vd_known_designs::{KnownDesign, TwoSubtypes};
use vd_operations::tables::{class_of, followed, is_predefined, mark_of};
use vd_static_names::calls::calls_known;
use vd_trees::Revision;
use vd_value_rules::StaticSort;

/// A function that a generic stands for.
#[derive(Clone, Copy, Debug)]
pub struct ActualFunction {
    /// The subtypes of its result.
    pub of_result: TwoSubtypes,
    /// How static its calls are.
    pub calls: StaticSort,
    /// The predefined operator that it stands for.
    pub operator: Option<u32>,
}

/// The generics of a declaration.
pub fn generics_of<'a>(declarations: &'a [Declaration], id: DeclId) -> &'a [DeclId]
    ensures { result.now ≡ (slice_index_or declarations.now id no_declaration).generics }
{
    match declarations.get(id.number() as usize) {
        Some(declaration) => declaration.generics.as_slice(),
        None => &[],
    }
}

/// The type or subtype that stands for a generic, by what an instance declares for it.
pub fn actual_mark(declarations: &[Declaration], copy: DeclId) -> DeclId
    ensures { (revision : AnyRevision) → result ≡ mark_of_actual (table revision declarations.now) copy }
{
    match class_of(declarations, copy.number()) {
        Class::Subtype { mark } => mark,
        _ => copy,
    }
}

/// What gives the subtype of the result of a function.
fn result_mark(revision: Revision, declarations: &[Declaration], number: u32) -> Option<DeclId>
    ensures { result ≡ mark_of_result (table revision declarations.now) number }
{
    if !is_predefined(revision, declarations, number) {
        return Some(DeclId::of(number));
    }
    match mark_of(declarations, number) {
        Some(mark) => Some(DeclId::of(mark.number())),
        None => None,
    }
}

/// The operator that a function stands for, which counts where its calls are locally static.
fn operator_of(design: &KnownDesign<'_, '_>, number: u32) -> Option<u32>
    ensures { (d : Design) (k : Known) (ks : List Known) → Knows d design.now (k ∷ ks) → (known_of_calls d.table number k.env).is_local ≡ true
        → IsFunction d.table result (function_denoted (result_in d number k.env) (function_of d.table number k.env) (known_of_calls d.table number k.env)) }
{
    if is_predefined(design.revision, design.declarations, number) {
        return Some(number);
    }
    match design.table.entry(number) {
        Some(entry) => entry.operator,
        None => None,
    }
}

/// How static the calls of a function are.
fn calls_of(design: &KnownDesign<'_, '_>, number: u32) -> StaticSort
    ensures { (d : Design) (k : Known) (ks : List Known) → Knows d design.now (k ∷ ks) → static_of result ≡ known_of_calls d.table number k.env }
{
    let ground = design.table.ground(design.revision, design.declarations);
    calls_known(&ground, number)
}

/// The function that a generic stands for, by what an instance declares for it.
pub fn actual_function(design: &KnownDesign<'_, '_>, copy: DeclId) -> ActualFunction
    ensures { (d : Design) (k : Known) (ks : List Known) → Knows d design.now (k ∷ ks) → let f = follow d.table copy in
        IsCalled design.now.table.subtypes d.table result (results_of d k f) (function_of d.table f k.env) (known_of_calls d.table f k.env) }
{
    let number = followed(design.declarations, copy.number());
    let mark = result_mark(design.revision, design.declarations, number);
    ActualFunction {
        of_result: design.marked(mark),
        calls: calls_of(design, number),
        operator: operator_of(design, number),
    }
}
