//! Operators that are refused, and what names one.

ghost use Rattle.std.specs.Prelude.{◌≡◌, ◌&&◌, ℕ, IfOk, false, map, slice_index_or};
ghost use Rattle.vd_meaning.specs.Operators.{symbol};
ghost use Rattle.vd_meaning.specs.Tables.{no_declaration, operand_types, sort_of as sort_in, table};
ghost use Rattle.vd_operations.specs.Readings.{read_sort, read_symbol};
ghost use Rattle.vd_name_rules.specs.Designs.{design};
ghost use Rattle.vd_trees.specs.declared.revision.Revision.TheVariants.{V2019};
ghost use Rattle.vd_value_rules.specs.Operators.{any_nine_valued as some_nine_valued, any_piece_refused as some_piece_refused, is_nine_valued as sort_is_nine_valued, is_ordering as orders, is_refused_operator as operator_is_refused, names_refused as refused_is_named, refuses as form_refuses};
ghost use Rattle.vd_value_rules.specs.Standings.{generics_of as generics_in};

use std::alloc::{AllocError, Global};
use vd_declarations::{DeclId, Declaration};
use vd_forest::Cursor;
use vd_forms::{Form, is_expression};
use vd_operations::tables::{followed, name_of, parameters_of};
use vd_operations::{Sort, Symbol, is_predefined, mark_of, sort_of, symbol_named};
use vd_resolved::Resolved;
use vd_trees::Revision;
use vd_vectors::LogicType;

fn is_ordering(symbol: Symbol) -> bool
    ensures { result ≡ orders (read_symbol symbol) }
{
    matches!(symbol, Symbol::MatchOrder(_))
}

fn is_nine_valued(sort: Sort) -> bool
    ensures { result ≡ sort_is_nine_valued (read_sort sort) }
{
    match sort {
        Sort::Logic(of) | Sort::Logics(of) => matches!(of, LogicType::NineValued),
        _ => false,
    }
}

/// Whether a parameter is of STD_ULOGIC or an array of it.
fn is_of_nine_values(declarations: &[Declaration], parameter: u32) -> bool
    ensures { result ≡ sort_is_nine_valued (sort_in (table V2019 declarations.now) (slice_index_or declarations.now parameter no_declaration).mark) }
{
    let mark = mark_of(declarations, parameter);
    is_nine_valued(sort_of(declarations, mark))
}

/// Whether one of some parameters is.
fn any_nine_valued(declarations: &[Declaration], parameters: &[DeclId]) -> bool
    ensures { result ≡ some_nine_valued (table V2019 declarations.now)
        (map (λ p. (slice_index_or declarations.now p no_declaration).mark) parameters.now) }
{
    for parameter in parameters {
        if is_of_nine_values(declarations, parameter.number()) {
            return true;
        }
    }
    false
}

/// Whether an operator orders by matching and takes nine values.
fn orders_nine_values(declarations: &[Declaration], number: u32) -> bool
    ensures { result ≡ (orders (symbol (slice_index_or declarations.now number no_declaration).name)
        && some_nine_valued (table V2019 declarations.now) (operand_types (table V2019 declarations.now) number)) }
{
    let named = symbol_named(name_of(declarations, number));
    is_ordering(named) && any_nine_valued(declarations, parameters_of(declarations, number))
}

/// Whether the number is that of an operator that is refused.
fn is_refused_operator(declarations: &[Declaration], number: u32) -> bool
    ensures { result ≡ operator_is_refused (table V2019 declarations.now) number }
{
    is_predefined(Revision::V2019, declarations, number) && orders_nine_values(declarations, number)
}

/// For each number whether it is that of an operator that is refused.
pub(crate) fn refused_operators(
    alloc: Global,
    declarations: &[Declaration],
) -> Result<Vec<bool>, AllocError>
    ensures { IfOk result (λ refused. (n : ℕ) → slice_index_or refused.items n false ≡ operator_is_refused (table V2019 declarations.now) n) }
{
    let Ok(count) = u32::try_from(declarations.len()) else {
        return Err(AllocError);
    };
    let mut refused = Vec::new(alloc);
    for number in 0..count {
        let is_refused = is_refused_operator(declarations, number);
        refused.push(is_refused)?;
    }
    Ok(refused)
}

/// What a table tells of a number.
fn told(table: &[bool], number: u32) -> bool
    ensures { result ≡ slice_index_or table.now number false }
{
    match table.get(number as usize) {
        Some(is_told) => *is_told,
        None => false,
    }
}

/// The declarations of a design, with a table of the operators that are refused.
#[derive(Clone, Copy)]
pub(crate) struct Operators<'a> {
    pub(crate) declarations: &'a [Declaration],
    refused: &'a [bool],
    ghost is_table: { (n : ℕ) → slice_index_or refused.now n false ≡ operator_is_refused (table V2019 declarations.now) n },
}

impl<'a> Operators<'a> {
    /// These declarations, with their table.
    pub(crate) fn of(declarations: &'a [Declaration], refused: &'a [bool]) -> Operators<'a>
        requires { (n : ℕ) → slice_index_or refused.now n false ≡ operator_is_refused (table V2019 declarations.now) n }
        ensures { result.declarations.now ≡ declarations.now }
    {
        Operators {
            declarations,
            refused,
        }
    }

    /// Whether a refused operator is named.
    pub(crate) fn are_named(&self, declaration: Option<DeclId>) -> bool
        ensures { result ≡ refused_is_named (table V2019 self.now.declarations.now) declaration }
    {
        let Some(named) = declaration else {
            return false;
        };
        let number = followed(self.declarations, named.number());
        told(self.refused, number)
    }

    /// The generics of a declaration.
    pub(crate) fn generics_of(&self, declaration: Option<DeclId>) -> &'a [DeclId]
        ensures { result.now ≡ generics_in (design self.now.declarations.now) declaration }
    {
        let Some(named) = declaration else {
            return &[];
        };
        match self.declarations.get(named.number() as usize) {
            Some(declared) => declared.generics.as_slice(),
            None => &[],
        }
    }

    /// Whether one of the pieces of a name names a refused operator.
    fn any_piece(&self, pieces: &Cursor<'_, Resolved>) -> bool
        ensures { result ≡ some_piece_refused (table V2019 self.now.declarations.now) pieces.now }
    {
        let mut rest = pieces.fork();
        while let Some(first) = rest.open() {
            let named = first.form.declaration;
            rest = first.next;
            if self.are_named(named) {
                return true;
            }
        }
        false
    }

    /// Whether a node uses a refused operator.
    pub(crate) fn are_used(&self, node: Resolved, parts: &Cursor<'_, Resolved>) -> bool
        ensures { result ≡ form_refuses node.form (table V2019 self.now.declarations.now) node parts.now }
    {
        match node.form {
            Form::Name | Form::OperatorName => self.any_piece(parts),
            _ => is_expression(node.form) && self.are_named(node.declaration),
        }
    }
}
