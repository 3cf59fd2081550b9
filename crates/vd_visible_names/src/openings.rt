//! What forms open in front of their parts.

use crate::levels::Level;
use crate::writer::Writer;
use std::alloc::AllocError;
use vd_declarations::{Class, DeclId, RegionId};
use vd_forest::{Cursor, Opened};
use vd_forms::Form;
use vd_name_rows::{Opening, Row, Step, row_of};
use vd_notes::{Names as Declared, first_number, number_at};
use vd_predefined::numbers::{IEEE, REGION_OF_LIBRARIES};
use vd_resolved::Resolved;

/// The form of the first of some trees.
fn form_of(trees: &Cursor<'_, Resolved>) -> Form {
    match trees.form() {
        Some(node) => node.form,
        None => Form::Absent,
    }
}

/// Whether a node names its parameter, and not what it closes.
fn is_loop(form: Form) -> bool {
    matches!(form, Form::ForLoop | Form::ForGenerate)
}

/// The declaration that a node makes.
fn declared_by(node: &Opened<'_, Resolved>) -> Option<u32> {
    match vd_notes::row_of(node.form.form).names {
        Declared::Itself => number_at(node),
        Declared::First => first_number(&node.parts),
        _ => number_if_body(node),
    }
}

/// The package of a package body.
fn number_if_body(node: &Opened<'_, Resolved>) -> Option<u32> {
    match node.form.form {
        Form::PackageBody => number_at(node),
        _ => None,
    }
}

impl<'a> Writer<'a> {
    /// A region inside another, which may continue one.
    fn open_region(
        &mut self,
        outer: RegionId,
        continues: Option<RegionId>,
    ) -> Result<(), AllocError> {
        let region = self.names.open(outer, continues, false)?;
        self.at.region = region;
        Ok(())
    }

    /// The region inside what a number is written as.
    pub(crate) fn inside_of(&self, number: Option<u32>) -> Option<RegionId> {
        let other = self.linked(number?)?;
        self.names.inside_of(other)
    }

    /// The primary unit of an architecture or a package body.
    fn primary_of(&self, unit: &Opened<'a, Resolved>) -> Option<u32> {
        match unit.form.form {
            Form::ArchitectureBody => first_number(&unit.parts.next()),
            Form::PackageBody => number_at(unit),
            _ => None,
        }
    }

    /// The region round a unit: the context of its primary unit, where it is a secondary one.
    fn round_unit(&self) -> RegionId {
        match self.inside_of(self.primary) {
            Some(inside) => self.names.regions().round(inside),
            None => RegionId::of(REGION_OF_LIBRARIES),
        }
    }

    /// Whether a unit sees `ieee`.
    pub(crate) fn sees(&self, unit: Option<u32>) -> bool {
        match unit {
            Some(number) => match self.sees_ieee.get(number as usize) {
                Some(sees) => *sees,
                None => false,
            },
            None => false,
        }
    }

    /// Enters the name of the library `ieee` in the region at hand, so that names behind it can be looked up.
    fn enter_ieee(&mut self) -> Result<(), AllocError> {
        let class = Class::LibraryName {
            library: DeclId::of(IEEE),
        };
        let declared = self.declared(IEEE, class, None)?;
        self.names.add(self.at.region, declared)?;
        Ok(())
    }

    /// The region of the context of a unit.
    fn unit_opens(&mut self, unit: &Cursor<'a, Resolved>) -> Result<(), AllocError> {
        if let Some(unit) = unit.open() {
            self.unit = declared_by(&unit);
            self.primary = self.primary_of(&unit);
        }
        self.wants_ieee = false;
        self.has_ieee = self.sees(self.primary);
        let outer = self.round_unit();
        self.open_region(outer, None)?;
        self.enter_ieee()
    }

    /// Opens the regions of a form.
    fn open_by(&mut self, opening: Opening, node: &Opened<'a, Resolved>) -> Result<(), AllocError> {
        let outer = self.at.region;
        match opening {
            Opening::OfUnit => self.unit_opens(&node.parts.next()),
            Opening::OfArchitecture | Opening::OfPackageBody => {
                let continues = self.inside_of(self.primary);
                self.open_region(outer, continues)
            }
            Opening::OfType if form_of(&node.parts.next()) != Form::RecordType => Ok(()),
            Opening::Nested
            | Opening::OfHeader
            | Opening::OfEntity
            | Opening::OfPackage
            | Opening::OfType => self.open_region(outer, None),
            _ => Ok(()),
        }
    }

    /// The level of a tree that has steps.
    fn level_of(&self, node: &Opened<'a, Resolved>) -> Level {
        let number = declared_by(node);
        let closes = if number.is_some() && !is_loop(node.form.form) {
            number
        } else {
            self.closed()
        };
        Level {
            number,
            closes,
            selector: self.selector,
            ..Level::by_row(node.form.form, self.at.region)
        }
    }

    /// Goes into a tree by its row, in a region of its own where the row says so and the step doesn't forbid it.
    pub(crate) fn open(
        &mut self,
        step: Step,
        row: &Row,
        node: &Opened<'a, Resolved>,
    ) -> Result<(), AllocError> {
        let level = self.level_of(node);
        self.levels.push(level)?;
        if matches!(step, Step::Within) {
            return Ok(());
        }
        self.open_by(row.opening, node)
    }

    /// What was at hand in front of a tree is so again.
    pub(crate) fn restore(&mut self, level: &Level) {
        self.at.region = level.region;
        self.selector = level.selector;
    }
}

/// The row of a form, where it has steps.
pub(crate) fn row_with_steps(form: Form) -> Option<Row> {
    let row = row_of(form);
    if row.steps.is_empty() && matches!(row.rest, Step::Skip) {
        None
    } else {
        Some(row)
    }
}
