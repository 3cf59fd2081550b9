//! What the subtypes of expressions are found over, and those of declarations.

ghost use Rattle.std.specs.Prelude.{◌≤◌, length};
ghost use Rattle.vd_value_rules.specs.Made.{Indicates};
ghost use Rattle.vd_known_lengths.specs.Extents.{CanSee, Sees};
ghost use Rattle.vd_value_rules.specs.Declaring.{result_in};
ghost use Rattle.vd_value_rules.specs.Designs.{Design};
ghost use Rattle.vd_value_rules.specs.Knowledge.{Known, at_mark};

use vd_declarations::{DeclId, TypeId};
use vd_known_designs::KnownTable;
use vd_operations::tables::{is_predefined, mark_of};
use vd_static_values::Ground;

/// The declarations of a design with what is known of them, also for choices.
#[derive(Clone, Copy)]
pub(crate) struct Over<'d, 'a> {
    pub(crate) ground: Ground<'d>,
    pub(crate) table: &'d KnownTable<'a>,
}

/// The subtype of a type.
pub(crate) fn of_type(over: &Over<'_, '_>, mark: Option<TypeId>) -> u32
    requires { CanSee over.now }
    ensures within { result ≤ length over.now.ground.subtypes.now }
    ensures is { (d : Design) (k : Known) → Sees over.now d k → Indicates over.now.ground.subtypes.now result (at_mark mark k.choosing) }
{
    match mark {
        Some(mark) => over.table.choosing(mark.number()),
        None => 0,
    }
}

/// The subtype of an object or a mark.
pub(crate) fn of_declaration(over: &Over<'_, '_>, declaration: Option<DeclId>) -> u32
    requires { CanSee over.now }
    ensures within { result ≤ length over.now.ground.subtypes.now }
    ensures is { (d : Design) (k : Known) → Sees over.now d k → Indicates over.now.ground.subtypes.now result (at_mark declaration k.choosing) }
{
    match declaration {
        Some(declaration) => over.table.choosing(declaration.number()),
        None => 0,
    }
}

/// The subtype of the result of a function or an operator.
pub(crate) fn of_result(over: &Over<'_, '_>, function: u32) -> u32
    requires { CanSee over.now }
    ensures within { result ≤ length over.now.ground.subtypes.now }
    ensures is { (d : Design) (k : Known) → Sees over.now d k → Indicates over.now.ground.subtypes.now result (result_in d function k.choosing) }
{
    if is_predefined(over.ground.revision, over.ground.declarations, function) {
        of_type(over, mark_of(over.ground.declarations, function))
    } else {
        of_declaration(over, Some(DeclId::of(function)))
    }
}
