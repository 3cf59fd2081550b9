//! What trees are to the node above them, as far as names in them are used.

ghost use Rattle.std.specs.Prelude.{◌≡◌};
ghost use Rattle.vd_operations.specs.Roles.{read_role};
ghost use Rattle.vd_name_rules.specs.Coming.{all_of as each_is, associated_parts as parts_of_element, behind as further, brackets as in_brackets, coming_by as coming_of_row, formal_or as formal_above, generics as in_generic_map, guarded as of_guarded, mapped_after_three as function_map, mapped_after_two as package_map, mapped_third as entity_map, outer as of_branches, passed as all_passed, passed_by, target as first_is_target, target_third as third_is_target};
ghost use Rattle.vd_port_modes.specs.Source.{design_in};

use crate::rows::Row;
use vd_forest::Cursor;
use vd_operations::Role;
use vd_port_modes::Interfaces;
use vd_resolved::Resolved;

/// What a tree is to the node above it.
#[derive(Clone, Copy)]
pub enum Sort {
    /// It is evaluated.
    Read,
    /// An element of a call or of a generic map, in front of whose `=>` a parameter or generic is named.
    Passed,
    /// A generic map.
    Mapped,
    /// An element of a port map, and its actual.
    Associated,
    /// What is named in front of `=>` in a call or map.
    Formal,
    SignalTarget,
    VariableTarget,
}

/// What a tree and those behind it are. The last one stands for all that follow.
#[derive(Clone, Copy)]
pub struct Coming {
    pub first: Sort,
    pub second: Sort,
    pub third: Sort,
    pub fourth: Sort,
    pub last: Sort,
}

pub fn all_of(sort: Sort) -> Coming
    ensures { result ≡ each_is sort }
{
    Coming {
        first: sort,
        second: sort,
        third: sort,
        fourth: sort,
        last: sort,
    }
}

/// For the next tree.
pub fn behind(coming: &Coming) -> Coming
    ensures { result ≡ further coming.now }
{
    Coming {
        first: coming.second,
        second: coming.third,
        third: coming.fourth,
        fourth: coming.last,
        last: coming.last,
    }
}

fn target(sort: Sort) -> Coming
    ensures { result ≡ first_is_target sort }
{
    Coming {
        first: sort,
        second: Sort::Read,
        third: Sort::Read,
        fourth: Sort::Read,
        last: Sort::Read,
    }
}

fn target_third(sort: Sort) -> Coming
    ensures { result ≡ third_is_target sort }
{
    Coming {
        first: Sort::Read,
        second: Sort::Read,
        third: sort,
        fourth: Sort::Read,
        last: Sort::Read,
    }
}

/// Of a waveform or value with a condition, and what stands behind `else`.
fn outer(own: Sort) -> Coming
    ensures { result ≡ of_branches own }
{
    Coming {
        first: own,
        second: Sort::Read,
        third: own,
        fourth: own,
        last: own,
    }
}

fn guarded(own: Sort) -> Coming
    ensures { result ≡ of_guarded own }
{
    target(own)
}

/// Of an element with `=>`.
fn associated_parts(own: Sort) -> Coming
    ensures { result ≡ parts_of_element own }
{
    match own {
        Sort::Associated => Coming {
            first: Sort::Formal,
            second: Sort::Associated,
            third: Sort::Associated,
            fourth: Sort::Associated,
            last: Sort::Associated,
        },
        Sort::Passed => target(Sort::Formal),
        _ => all_of(Sort::Read),
    }
}

/// What stands in the name of a formal belongs to it.
fn formal_or(own: Sort, other: Coming) -> Coming
    ensures { result ≡ formal_above own other }
{
    match own {
        Sort::Formal => all_of(Sort::Formal),
        _ => other,
    }
}

/// Elements that are passed, if there are any.
fn passed(parts: &Cursor<'_, Resolved>) -> Coming
    ensures { result ≡ all_passed parts.now }
{
    match parts.open() {
        None => all_of(Sort::Read),
        Some(_) => all_of(Sort::Passed),
    }
}

fn brackets(role: Role, parts: &Cursor<'_, Resolved>) -> Coming
    ensures { result ≡ in_brackets (read_role role) parts.now }
{
    match role {
        Role::Function => passed(parts),
        _ => all_of(Sort::Read),
    }
}

fn generics(own: Sort, parts: &Cursor<'_, Resolved>) -> Coming
    ensures { result ≡ in_generic_map own parts.now }
{
    match own {
        Sort::Mapped => passed(parts),
        _ => all_of(Sort::Passed),
    }
}

fn mapped_third() -> Coming
    ensures { result ≡ entity_map }
{
    target_third(Sort::Mapped)
}

fn mapped_after_two() -> Coming
    ensures { result ≡ package_map }
{
    Coming {
        first: Sort::Read,
        second: Sort::Read,
        third: Sort::Mapped,
        fourth: Sort::Mapped,
        last: Sort::Mapped,
    }
}

fn mapped_after_three() -> Coming
    ensures { result ≡ function_map }
{
    Coming {
        first: Sort::Read,
        second: Sort::Read,
        third: Sort::Read,
        fourth: Sort::Mapped,
        last: Sort::Mapped,
    }
}

/// Instances, and what is passed.
fn coming_passed(
    row: Row,
    interfaces: &Interfaces<'_>,
    own: Sort,
    node: &Resolved,
    parts: &Cursor<'_, Resolved>,
) -> Coming
    ensures { result ≡ passed_by row (design_in interfaces.now) own node.now parts.now }
{
    match row {
        Row::Brackets => {
            let role = interfaces.role_of(node.declaration);
            formal_or(own, brackets(role, parts))
        }
        Row::Generics => generics(own, parts),
        Row::Ports => all_of(Sort::Associated),
        Row::EntityInstance => mapped_third(),
        Row::PackageInstance => mapped_after_two(),
        Row::FunctionInstance => mapped_after_three(),
        Row::Operands => passed(parts),
        _ => all_of(Sort::Read),
    }
}

/// What the parts of a node are to it.
pub fn coming_by(
    row: Row,
    interfaces: &Interfaces<'_>,
    own: Sort,
    node: &Resolved,
    parts: &Cursor<'_, Resolved>,
) -> Coming
    ensures { result ≡ coming_of_row row (design_in interfaces.now) own node.now parts.now }
{
    match row {
        Row::ToSignal => target(Sort::SignalTarget),
        Row::ToVariable => target(Sort::VariableTarget),
        Row::SelectedToSignal => target_third(Sort::SignalTarget),
        Row::SelectedToVariable => target_third(Sort::VariableTarget),
        Row::Branches => outer(own),
        Row::Guarded => guarded(own),
        Row::Choosing => associated_parts(own),
        Row::Naming => formal_or(own, all_of(Sort::Read)),
        Row::Reading
        | Row::Brackets
        | Row::Generics
        | Row::Ports
        | Row::EntityInstance
        | Row::PackageInstance
        | Row::FunctionInstance
        | Row::Operands => coming_passed(row, interfaces, own, node, parts),
    }
}
