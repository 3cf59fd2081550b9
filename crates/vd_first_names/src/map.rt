//! The map from the names of the 2019 text to those of the written one.

ghost use Rattle.std.specs.Prelude.{◌≡◌, ◌++◌, ◌∷◌, [], OnOk, IfOk};
ghost use Rattle.vd_first_names.specs.Maps.{text_or, last_text, mark_of, mode_text, port_row, rows_each, port_rows, unit_rows, design_rows};

use std::alloc::{AllocError, Global};
use std::marker::Model;
use vd_bytes::Text;
use vd_first_trees::form_tests::{is_entity, is_out};
use vd_first_trees::{Design19, Form};
use vd_forest::Cursor;
use vd_trees::{Row, RowKind};

/// Rows in their order.
#[derive(Debug, Drop)]
pub struct Rows {
    rows: Vec<Row>,
}

impl Model for Rows {
    ghost use Rattle.std.specs.Prelude.{List};
    ghost use Rattle.vd_trees.specs.declared.rows.Row.{Row};

    ghost Value = { List Row };

    ghost view = { λ a. a.rows.items };
}

impl Rows {
    ghost use Rattle.std.specs.Prelude.{◌≡◌};

    /// These rows.
    pub fn of(rows: Vec<Row>) -> Rows
        ensures { result ≡ rows.items }
    {
        Rows { rows }
    }

    /// The rows.
    pub fn as_slice(&self) -> &[Row]
        ensures { result.now ≡ self.now }
    {
        self.rows.as_slice()
    }
}

/// A map, as its rows.
#[derive(Debug, Drop)]
pub struct NameMap {
    pub rows: Rows,
}

/// The map of a design: a row for each port, which keeps its name.
pub fn map_of(alloc: Global, design: &Design19) -> Result<NameMap, AllocError>
    ensures { IfOk result (λ map. map.rows ≡ design_rows design.now) }
{
    let mut rows = Vec::new(alloc);
    let mut left = design.units();
    while let Some(first) = left.open() {
        add_unit(alloc, &mut rows, &first.parts.next())?;
        left = first.next;
    }
    Ok(NameMap {
        rows: Rows::of(rows),
    })
}

// The rows of a unit.
fn add_unit(alloc: Global, rows: &mut Vec<Row>, unit: &Cursor<'_, Form>) -> Result<(), AllocError>
    ensures { OnOk result (rows.new.items ≡ rows.old.items ++ unit_rows unit.now) }
{
    if let Some(first) = unit.open() {
        if is_entity(first.form) {
            add_ports(alloc, rows, first.parts.text(), &first.parts.next().parts())?;
        }
    }
    Ok(())
}

// The rows of some declarations of ports.
fn add_ports(
    alloc: Global,
    rows: &mut Vec<Row>,
    unit: &[u8],
    declarations: &Cursor<'_, Form>,
) -> Result<(), AllocError>
    ensures { OnOk result (rows.new.items ≡ rows.old.items ++ port_rows unit.now declarations.now) }
{
    let mut left = declarations.fork();
    while let Some(first) = left.open() {
        let mode = mode_text(&first.parts.next());
        let mark = mark_text(&first.parts);
        add_each(alloc, rows, unit, &first.parts.parts(), mark, mode)?;
        left = first.next;
    }
    Ok(())
}

// A row for each identifier.
fn add_each(
    alloc: Global,
    rows: &mut Vec<Row>,
    unit: &[u8],
    identifiers: &Cursor<'_, Form>,
    mark: &[u8],
    mode: &[u8],
) -> Result<(), AllocError>
    ensures { OnOk result (rows.new.items ≡ rows.old.items ++ rows_each unit.now identifiers.now mark.now mode.now) }
{
    let mut left = identifiers.fork();
    while let Some(first) = left.open() {
        let row = row_of(alloc, unit, first.text, mark, mode)?;
        rows.push(row)?;
        left = first.next;
    }
    Ok(())
}

fn row_of(
    alloc: Global,
    unit: &[u8],
    name: &[u8],
    mark: &[u8],
    mode: &[u8],
) -> Result<Row, AllocError>
    ensures { IfOk result (λ row. row ≡ port_row unit.now name.now mark.now mode.now) }
{
    Ok(Row {
        kind: RowKind::Port,
        unit: Text::from_slice(alloc, unit)?,
        name19: Text::from_slice(alloc, name)?,
        name93: Text::from_slice(alloc, name)?,
        mark: Text::from_slice(alloc, mark)?,
        mode: Text::from_slice(alloc, mode)?,
        range: Text::from_slice(alloc, &[])?,
    })
}

fn mode_text(mode: &Cursor<'_, Form>) -> &'static [u8]
    ensures { result.now ≡ mode_text mode.now }
{
    match mode.form() {
        None => b"",
        Some(form) => { if is_out(form) { b"out" } else { b"in" } }
    }
}

// The last identifier of the mark of a declaration with these parts.
fn mark_text<'a>(declaration: &Cursor<'a, Form>) -> &'a [u8]
    ensures { result.now ≡ mark_of declaration.now }
{
    let mut left = declaration.next().next().parts().parts();
    let mut text: &'a [u8] = &[];
    while let Some(first) = left.open() {
        text = first.text;
        left = first.next;
    }
    text
}
