//! The rows of the map of a design.

ghost use Rattle.std.specs.Prelude.{[]};

use crate::chosen::Chosen;
use crate::row_making::{Around, Naming, mode_text, nothing_around};
use std::alloc::{AllocError, Global};
use std::mem;
use vd_declarations::{DeclId, Made};
use vd_forest::{Cursor, Opened};
use vd_forms::Form;
use vd_notes::{Tables, first_number, number_at, number_of, row_of};
use vd_resolved::{Resolved, Tree};
use vd_trees::{Row, RowKind};
use vd_walks::{Following, follow};

/// What is known where a tree stands: which labels are round it, the label of the statement in which it stands, and whether it stands in a port map.
#[derive(Clone, Copy)]
struct Here {
    around: usize,
    label: Option<u32>,
    in_port_map: bool,
}

/// Rows that are gathered by a walk over a design.
#[derive(Drop)]
struct Gathering<'a> {
    naming: Naming<'a>,
    /// The rows of the units that have ended, and what of that round the place is gathered so far.
    rows: Vec<Row>,
    unit: Vec<u8>,
    ports: Vec<Row>,
    signals: Vec<Row>,
    labels: Vec<Row>,
    types: Vec<Row>,
    /// What stands round places, each by its number.
    surroundings: Vec<Around>,
    here: Here,
    round: Vec<Here>,
}

/// The form of the first tree.
fn form_of(trees: &Cursor<'_, Resolved>) -> Option<Form> {
    let first = trees.open()?;
    Some(first.form.form)
}

/// Where nothing is known.
fn nowhere() -> Here {
    Here {
        around: 0,
        label: None,
        in_port_map: false,
    }
}

impl<'a> Gathering<'a> {
    /// The row of a declaration at the place where the walk is.
    fn row(&self, kind: RowKind, number: u32, mode: &[u8]) -> Result<Row, AllocError> {
        let unit = self.unit.as_slice();
        match self.surroundings.get(self.here.around) {
            Some(around) => self.naming.row(kind, unit, around, number, mode),
            None => {
                let around = nothing_around(self.naming.alloc);
                self.naming.row(kind, unit, &around, number, mode)
            }
        }
    }

    /// A unit begins.
    fn begin_unit(&mut self, node: &Opened<'_, Resolved>) -> Result<(), AllocError> {
        if let Some(number) = number_at(node) {
            self.unit = self.naming.unit(node.form.form, number)?;
        }
        Ok(())
    }

    /// A unit ends: its rows stand behind those of the units in front.
    fn end_unit(&mut self) -> Result<(), AllocError> {
        self.rows.append(&mut self.ports)?;
        self.rows.append(&mut self.signals)?;
        self.rows.append(&mut self.labels)?;
        self.rows.append(&mut self.types)?;
        Ok(())
    }

    /// A row for each port of a declaration.
    #[tactic(auto, using(vd_notes::proofs::EntryLemmas::next_smaller))]
    fn add_ports(&mut self, parts: &Cursor<'_, Resolved>) -> Result<(), AllocError> {
        let mode = mode_text(form_of(&parts.skip(2)));
        let mut left = parts.skip(1).parts();
        while let Some(first) = left.open() {
            if let Some(number) = number_of(&first.form.declaration) {
                let row = self.row(RowKind::Port, number, mode)?;
                self.ports.push(row)?;
            }
            left = first.next;
        }
        Ok(())
    }

    /// Whether a declaration is the signal that stands for an actual.
    fn is_implicit(&self, number: u32) -> bool {
        match self.naming.declarations.get(number as usize) {
            Some(declaration) => matches!(declaration.made, Made::Implicit),
            None => false,
        }
    }

    /// A row for each signal of a declaration. Those that stand for actuals come where their instances are.
    #[tactic(auto, using(vd_notes::proofs::EntryLemmas::next_smaller))]
    fn add_signals(&mut self, parts: &Cursor<'_, Resolved>) -> Result<(), AllocError> {
        let mut left = parts.parts();
        while let Some(first) = left.open() {
            if let Some(number) = number_of(&first.form.declaration) {
                if !self.is_implicit(number) {
                    let row = self.row(RowKind::Signal, number, &[])?;
                    self.signals.push(row)?;
                }
            }
            left = first.next;
        }
        Ok(())
    }

    /// A row for what an identifier names, where it is the signal that stands for an actual.
    fn add_actual(&mut self, named: Option<DeclId>) -> Result<(), AllocError> {
        let Some(number) = number_of(&named) else {
            return Ok(());
        };
        if self.here.in_port_map && self.is_implicit(number) {
            let row = self.row(RowKind::Implicit, number, &[])?;
            self.signals.push(row)?;
        }
        Ok(())
    }

    /// A row for the label of an instance, or of an alternative of a generate.
    fn add_label(&mut self) -> Result<(), AllocError> {
        if let Some(label) = self.here.label {
            let row = self.row(RowKind::Label, label, &[])?;
            self.labels.push(row)?;
        }
        Ok(())
    }

    /// A row for a type or subtype whose name changed.
    fn add_type(&mut self, node: &Opened<'_, Resolved>) -> Result<(), AllocError> {
        let Some(number) = number_at(node) else {
            return Ok(());
        };
        if self.naming.is_renamed(number) {
            let row = self.row(RowKind::TypeName, number, &[])?;
            self.types.push(row)?;
        }
        Ok(())
    }

    /// What is known inside an alternative of a generate.
    fn in_generate(&mut self) -> Result<Here, AllocError> {
        let mut inside = self.here;
        if let (Some(label), Some(around)) = (
            self.here.label,
            self.surroundings.get(self.here.around),
        ) {
            let made = self.naming.inside(around, label)?;
            inside.around = self.surroundings.len();
            self.surroundings.push(made)?;
        }
        Ok(inside)
    }

    /// Adds the rows of a node.
    fn add(&mut self, node: &Opened<'_, Resolved>) -> Result<(), AllocError> {
        match node.form.form {
            Form::PortDeclaration => self.add_ports(&node.parts),
            Form::SignalDeclaration => self.add_signals(&node.parts),
            Form::Identifier => self.add_actual(node.form.declaration),
            Form::EntityInstantiation | Form::GenerateBody => self.add_label(),
            Form::TypeDeclaration | Form::SubtypeDeclaration => self.add_type(node),
            _ => Ok(()),
        }
    }

    /// What is known at the first part of a node.
    fn inside(&mut self, node: &Opened<'_, Resolved>) -> Result<Here, AllocError> {
        let mut inside = self.here;
        match node.form.form {
            Form::LabelledConcurrent => inside.label = first_number(&node.parts),
            Form::PortMap => inside.in_port_map = true,
            Form::GenerateBody => return self.in_generate(),
            _ => {}
        }
        Ok(inside)
    }
}

impl<'a> Following<'a, Resolved> for Gathering<'a> {
    ghost follows = { λ _ _ _. Unit {0} };

    ghost broken = { λ _ _ _. [] };

    fn enter(&mut self, _alloc: Global, node: &Opened<'a, Resolved>) -> Result<(), AllocError> {
        if row_of(node.form.form).is_unit {
            self.begin_unit(node)?;
        }
        self.add(node)?;
        let inside = self.inside(node)?;
        let outer = mem::replace(&mut self.here, inside);
        self.round.push(outer)?;
        Ok(())
    }

    fn leave(&mut self, _alloc: Global, node: &Opened<'a, Resolved>) -> Result<(), AllocError> {
        if let Some(outer) = self.round.pop() {
            self.here = outer;
        }
        if row_of(node.form.form).is_unit {
            self.end_unit()?;
        }
        Ok(())
    }
}

/// A walk that begins.
fn gathering_for<'a>(naming: Naming<'a>) -> Result<Gathering<'a>, AllocError> {
    let alloc = naming.alloc;
    let mut surroundings = Vec::new(alloc);
    surroundings.push(nothing_around(alloc))?;
    Ok(Gathering {
        naming,
        rows: Vec::new(alloc),
        unit: Vec::new(alloc),
        ports: Vec::new(alloc),
        signals: Vec::new(alloc),
        labels: Vec::new(alloc),
        types: Vec::new(alloc),
        surroundings,
        here: nowhere(),
        round: Vec::new(alloc),
    })
}

/// The rows of the map of a design: unit by unit, in each the ports, then the signals, one that stands for an actual at its instance, then the labels of
/// instances and of alternatives of generates, and then the types and subtypes whose names changed.
pub fn rows_of(
    alloc: Global,
    tree: &Tree,
    tables: &Tables,
    chosen: &Chosen,
) -> Result<Vec<Row>, AllocError> {
    let naming = Naming {
        alloc,
        declarations: tree.declarations(),
        tables,
        chosen,
    };
    let mut gathering = gathering_for(naming)?;
    follow(alloc, &tree.cursor(), &mut gathering)?;
    Ok(gathering.rows)
}
