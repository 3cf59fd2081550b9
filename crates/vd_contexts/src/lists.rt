//! Lists that hang on what a node is itself, or on the unit whose generics a map is for.

ghost use Rattle.std.specs.Prelude.{◌≡◌, IfOk};
ghost use Rattle.vd_contexts.specs.Rows.{assigned as all_assigned, fixed as all_fixed, mapped as all_mapped};
ghost use Rattle.vd_contexts.specs.Standing.{standing_of, standings_in};
ghost use Rattle.vd_contexts.specs.declared.rows.Row.TheVariants as row_kind;
ghost use Rattle.vd_value_rules.specs.Designs.{Design};
ghost use Rattle.vd_value_rules.specs.Standings.{is_bounded as standing_is_bounded, parts_of_association, unless_formal as unless_it_is_formal};

use crate::rows::Row;
use crate::standings::Standing;
use std::alloc::{AllocError, Global};
use vd_forest::Cursor;
use vd_operations::declaration_of;
use vd_resolved::Resolved;

pub(crate) const READ: Standing = Standing::Evaluated { is_bounded: false };

const VALUE: Standing = Standing::Evaluated { is_bounded: true };

/// Whether the place of a tree gives bounds.
pub fn is_bounded(standing: Standing) -> bool
    ensures { (d : Design) → result ≡ standing_is_bounded (standing_of d standing) }
{
    match standing {
        Standing::Evaluated { is_bounded }
        | Standing::Copied { is_bounded }
        | Standing::Passed { is_bounded } => is_bounded,
        Standing::Associated => true,
        _ => false,
    }
}

/// What is assigned or has a default.
fn assigned(alloc: Global, row: Row) -> Result<Vec<Standing>, AllocError>
    ensures { (d : Design) → IfOk result (λ xs. standings_in d xs.items ≡ all_assigned row) }
{
    let signal = Standing::Assigned { to_signal: true };
    let variable = Standing::Assigned { to_signal: false };
    let subtype = Standing::Copied { is_bounded: false };
    match row {
        Row::ToSignal => Vec::from_slice(alloc, &[signal, READ, VALUE]),
        Row::ToVariable => Vec::from_slice(alloc, &[variable, VALUE]),
        Row::SelectedToSignal => Vec::from_slice(alloc, &[READ, READ, signal, READ, VALUE]),
        Row::SelectedToVariable => Vec::from_slice(alloc, &[READ, READ, variable, VALUE]),
        Row::InitialValue => Vec::from_slice(alloc, &[VALUE]),
        Row::PortDefault => Vec::from_slice(alloc, &[READ, READ, READ, subtype, VALUE]),
        Row::Ports => Vec::from_slice(alloc, &[Standing::Associated]),
        _ => Ok(Vec::new(alloc)),
    }
}

/// Of an element with `=>`.
fn of_association(alloc: Global, own: Standing) -> Result<Vec<Standing>, AllocError>
    ensures { (d : Design) → IfOk result (λ xs. standings_in d xs.items ≡ parts_of_association (standing_of d own)) }
{
    match own {
        Standing::Associated => Vec::from_slice(alloc, &[Standing::Formal, own]),
        Standing::Passed { is_bounded } => {
            Vec::from_slice(
                alloc,
                &[Standing::Formal, Standing::Evaluated { is_bounded }],
            )
        }
        _ => Vec::from_slice(
            alloc,
            &[
                READ,
                Standing::Evaluated {
                    is_bounded: is_bounded(own),
                },
            ],
        ),
    }
}

/// What stands in a formal is one too.
pub(crate) fn unless_formal(
    alloc: Global,
    own: Standing,
    others: Vec<Standing>,
) -> Result<Vec<Standing>, AllocError>
    ensures { (d : Design) → IfOk result (λ xs. standings_in d xs.items ≡ unless_it_is_formal (standing_of d own) (standings_in d others.items)) }
{
    match own {
        Standing::Formal => Vec::from_slice(alloc, &[own]),
        _ => Ok(others),
    }
}

/// The same again.
fn again(own: &Standing) -> Standing
    ensures { result ≡ own.now }
{
    *own
}

/// A waveform or value, its condition, and what stands behind `else`.
fn branches(alloc: Global, own: Standing) -> Result<Vec<Standing>, AllocError>
    ensures { (d : Design) → IfOk result (λ xs. standings_in d xs.items ≡ all_fixed row_kind.Branches (standing_of d own)) }
{
    Vec::from_slice(alloc, &[again(&own), READ, own])
}

/// A waveform or value in front of something else.
fn guarded(alloc: Global, own: Standing) -> Result<Vec<Standing>, AllocError>
    ensures { (d : Design) → IfOk result (λ xs. standings_in d xs.items ≡ all_fixed row_kind.Guarded (standing_of d own)) }
{
    Vec::from_slice(alloc, &[own, READ])
}

/// What stands for all other elements.
fn remaining(alloc: Global, own: Standing) -> Result<Vec<Standing>, AllocError>
    ensures { (d : Design) → IfOk result (λ xs. standings_in d xs.items ≡ all_fixed row_kind.Remaining (standing_of d own)) }
{
    let is_bounded = is_bounded(own);
    Vec::from_slice(alloc, &[Standing::Evaluated { is_bounded }])
}

/// By what the node is itself.
pub(crate) fn fixed(alloc: Global, row: Row, own: Standing) -> Result<Vec<Standing>, AllocError>
    ensures { (d : Design) → IfOk result (λ xs. standings_in d xs.items ≡ all_fixed row (standing_of d own)) }
{
    match row {
        Row::Branches => branches(alloc, own),
        Row::Guarded => guarded(alloc, own),
        Row::Choosing => of_association(alloc, own),
        Row::Remaining => remaining(alloc, own),
        Row::Naming => unless_formal(alloc, own, Vec::new(alloc)),
        _ => assigned(alloc, row),
    }
}

/// Instances, of which the third or fourth part is a generic map.
pub(crate) fn mapped(
    alloc: Global,
    row: Row,
    parts: &Cursor<'_, Resolved>,
) -> Result<Vec<Standing>, AllocError>
    ensures { (d : Design) → IfOk result (λ xs. standings_in d xs.items ≡ all_mapped row d parts.now) }
{
    match row {
        Row::EntityInstance => {
            let unit = declaration_of(parts);
            Vec::from_slice(alloc, &[READ, READ, Standing::MappedTo { unit }, READ])
        }
        Row::PackageInstance => {
            let unit = declaration_of(&parts.skip(1));
            Vec::from_slice(alloc, &[READ, READ, Standing::MappedTo { unit }])
        }
        Row::FunctionInstance => {
            let unit = declaration_of(&parts.skip(2));
            Vec::from_slice(alloc, &[READ, READ, READ, Standing::MappedTo { unit }])
        }
        _ => Ok(Vec::new(alloc)),
    }
}
