//! Rows of a map, one by one.

use crate::chosen::Chosen;
use crate::naming::declared_name;
use std::alloc::{AllocError, Global};
use vd_bytes::Text;
use vd_declarations::Declaration;
use vd_forms::Form;
use vd_notes::Tables;
use vd_trees::{Row, RowKind};

/// The labels of the generates round a place, each with a dot behind it, as they stand in the source and in the text that is written.
#[derive(Drop)]
pub(crate) struct Around {
    pub source: Vec<u8>,
    pub written: Vec<u8>,
}

/// What rows are made of.
#[derive(Clone, Copy)]
pub(crate) struct Naming<'a> {
    pub alloc: Global,
    pub declarations: &'a [Declaration],
    pub tables: &'a Tables,
    pub chosen: &'a Chosen,
}

/// A name behind the labels of the generates round it.
fn behind(alloc: Global, labels: &[u8], name: &[u8]) -> Result<Vec<u8>, AllocError> {
    let mut text = Vec::from_slice(alloc, labels)?;
    text.extend_from_slice(name)?;
    Ok(text)
}

/// The same as a text.
fn text_behind(alloc: Global, labels: &[u8], name: &[u8]) -> Result<Text, AllocError> {
    let text = behind(alloc, labels, name)?;
    Text::from_slice(alloc, text.as_slice())
}

/// A label, with a dot behind it, behind others.
fn with_label(alloc: Global, labels: &[u8], label: &[u8]) -> Result<Vec<u8>, AllocError> {
    let mut text = behind(alloc, labels, label)?;
    text.push(b'.')?;
    Ok(text)
}

/// No generate is round a place.
pub(crate) fn nothing_around(alloc: Global) -> Around {
    Around {
        source: Vec::new(alloc),
        written: Vec::new(alloc),
    }
}

/// The mode of a port. One that isn't written is `in`.
pub(crate) fn mode_text(form: Option<Form>) -> &'static [u8] {
    match form {
        Some(Form::Out) => b"out",
        Some(Form::InOut) => b"inout",
        _ => b"in",
    }
}

/// Whether a row of a kind has a mark.
fn has_mark(kind: RowKind) -> bool {
    !matches!(kind, RowKind::Label | RowKind::TypeName)
}

impl<'a> Naming<'a> {
    /// The name with which a number is declared.
    pub(crate) fn declared(&self, number: u32) -> &'a [u8] {
        declared_name(self.declarations, number)
    }

    /// The name that it has in the text that is written.
    pub(crate) fn written(&self, number: u32) -> &'a [u8] {
        self.chosen.name(self.declarations, number)
    }

    /// Whether both names differ.
    pub(crate) fn is_renamed(&self, number: u32) -> bool {
        self.declared(number) != self.written(number)
    }

    /// The last identifier of the mark of a declaration.
    fn mark(&self, number: u32) -> &'a [u8] {
        match self.tables.mark(number) {
            Some(mark) => self.declared(mark),
            None => &[],
        }
    }

    /// The last identifier of the mark in a row of a kind.
    fn mark_in(&self, kind: RowKind, number: u32) -> &'a [u8] {
        if has_mark(kind) {
            self.mark(number)
        } else {
            &[]
        }
    }

    /// The row of a declaration of a unit.
    pub(crate) fn row(
        &self,
        kind: RowKind,
        unit: &[u8],
        around: &Around,
        number: u32,
        mode: &[u8],
    ) -> Result<Row, AllocError> {
        let alloc = self.alloc;
        let name19 = text_behind(alloc, around.source.as_slice(), self.declared(number))?;
        let name93 = text_behind(alloc, around.written.as_slice(), self.written(number))?;
        Ok(Row {
            kind,
            unit: Text::from_slice(alloc, unit)?,
            name19,
            name93,
            mark: Text::from_slice(alloc, self.mark_in(kind, number))?,
            mode: Text::from_slice(alloc, mode)?,
            range: Text::from_slice(alloc, &[])?,
        })
    }

    /// What is round what stands in a generate of a label.
    pub(crate) fn inside(&self, around: &Around, label: u32) -> Result<Around, AllocError> {
        let source = with_label(self.alloc, around.source.as_slice(), self.declared(label))?;
        let written = with_label(self.alloc, around.written.as_slice(), self.written(label))?;
        Ok(Around { source, written })
    }

    /// The name of a unit in rows: that of the entity or package, or `entity(architecture)`.
    pub(crate) fn unit(&self, form: Form, number: u32) -> Result<Vec<u8>, AllocError> {
        match form {
            Form::ArchitectureBody => self.architecture(number),
            _ => Vec::from_slice(self.alloc, self.declared(number)),
        }
    }

    /// The name of an architecture in rows: `entity(architecture)`.
    fn architecture(&self, number: u32) -> Result<Vec<u8>, AllocError> {
        let mut text = Vec::from_slice(self.alloc, self.mark(number))?;
        text.push(b'(')?;
        text.extend_from_slice(self.declared(number))?;
        text.push(b')')?;
        Ok(text)
    }
}
