//! The walk.

ghost use Rattle.std.specs.Prelude.{◌≡◌, ◌∷◌, [], List, OnOk};
ghost use Rattle.vd_known_designs.specs.Designs.{IsReady, Knows};
ghost use Rattle.vd_value_rules.specs.Designs.{Design};
ghost use Rattle.vd_value_rules.specs.Knowledge.{Known};
ghost use Rattle.vd_known_notes.specs.Knowing.{IsKnowing};

use crate::actuals::actual_notes;
use crate::brackets::index_note;
use crate::choices::choice_notes;
use crate::selecting::{selecting_note, statement_of};
use crate::signals::{name_moving, names_signal};
use std::alloc::{AllocError, Global};
use vd_forest::{Cursor, Opened};
use vd_forms::Form;
use vd_known_designs::KnownDesign;
use vd_known_units::{go_inside, go_outside};
use vd_notes::Note;
use vd_port_modes::Interfaces;
use vd_resolved::{Resolved, Tree};
use vd_trees::Revision;
use vd_walks::{Following, follow};

/// A node that the walk stands in.
#[derive(Clone, Copy)]
struct Around {
    form: Form,
    /// Whether it is the name of a signal.
    is_signal: bool,
}

/// What was found so far.
#[derive(Drop)]
struct Found {
    /// The nodes that the walk stands in, the innermost one last.
    round: Vec<Around>,
    /// The notes of the trees of the last port map or list of choices, and how many of them are given out.
    coming: Vec<Note>,
    given: usize,
    /// The notes so far, in the order of the text.
    notes: Vec<Note>,
}

/// A walk over a resolved design.
#[derive(Drop)]
pub struct Knowing<'a, 'i, 't> {
    pub interfaces: &'i Interfaces<'t>,
    pub design: KnownDesign<'a, 't>,
    found: Found,
}

/// Whether a walk stands in the name of a signal.
fn is_in_signal(found: &Found) -> bool {
    match found.round.last() {
        Some(around) => around.is_signal,
        None => false,
    }
}

/// Whether a walk stands in a port map or a list of choices.
fn is_in_list(found: &Found) -> bool {
    match found.round.last() {
        Some(around) => is_noted_inside(around.form),
        None => false,
    }
}

/// Whether each tree among the parts of a node gets a note: the elements of a port map do, and choices.
pub fn is_noted_inside(round: Form) -> bool {
    matches!(round, Form::PortMap | Form::Choices)
}

/// The note of brackets with these elements, where they are indexes of a signal.
fn note_of_brackets(
    design: &mut KnownDesign<'_, '_>,
    interfaces: &Interfaces<'_>,
    alloc: Global,
    found: &Found,
    elements: &Cursor<'_, Resolved>,
) -> Result<Note, AllocError>
    requires ready { IsReady design.old }
    ensures knows { (d : Design) (ks : List Known) → Knows d design.old ks → OnOk result (Knows d design.new ks) }
{
    if is_in_signal(found) && !name_moving(alloc, interfaces, elements)? {
        index_note(design, alloc, elements)
    } else {
        Ok(Note::Nothing)
    }
}

/// Finds what the elements of a port map are.
fn find_elements(
    design: &mut KnownDesign<'_, '_>,
    alloc: Global,
    found: &mut Found,
    elements: &Cursor<'_, Resolved>,
) -> Result<(), AllocError>
    requires ready { IsReady design.old }
    ensures knows { (d : Design) (ks : List Known) → Knows d design.old ks → OnOk result (Knows d design.new ks) }
{
    found.coming = actual_notes(design, alloc, elements)?;
    found.given = 0;
    Ok(())
}

/// Finds what choices are.
fn find_choices(
    design: &mut KnownDesign<'_, '_>,
    alloc: Global,
    found: &mut Found,
    choices: &Cursor<'_, Resolved>,
) -> Result<(), AllocError>
    requires ready { IsReady design.old }
    ensures knows { (d : Design) (ks : List Known) → Knows d design.old ks → OnOk result (Knows d design.new ks) }
{
    found.coming = choice_notes(design, alloc, choices)?;
    found.given = 0;
    Ok(())
}

/// Finds how a statement with choices is written, where a node is one.
fn find_statement(
    design: &mut KnownDesign<'_, '_>,
    alloc: Global,
    found: &mut Found,
    node: &Opened<'_, Resolved>,
) -> Result<(), AllocError>
    requires ready { IsReady design.old }
    ensures knows { (d : Design) (ks : List Known) → Knows d design.old ks → OnOk result (Knows d design.new ks) }
{
    let Some(statement) = statement_of(node) else {
        return Ok(());
    };
    let note = selecting_note(design, alloc, &statement)?;
    found.notes.push(note)?;
    Ok(())
}

/// Gives out the note of the next element of a port map, or of the next choice.
fn give(found: &mut Found) -> Result<(), AllocError> {
    let note = match found.coming.get(found.given) {
        Some(note) => *note,
        None => Note::Nothing,
    };
    found.given = found.given.saturating_add(1);
    found.notes.push(note)?;
    Ok(())
}

/// Gives out the note of an element or a choice, where the walk is at one.
fn give_elements(found: &mut Found) -> Result<(), AllocError> {
    if is_in_list(found) {
        give(found)
    } else {
        Ok(())
    }
}

/// Goes into a node.
fn stand(
    found: &mut Found,
    interfaces: &Interfaces<'_>,
    alloc: Global,
    node: &Opened<'_, Resolved>,
) -> Result<(), AllocError> {
    let form = node.form.form;
    let is_signal = match form {
        Form::Name => names_signal(interfaces, alloc, &node.parts)?,
        _ => false,
    };
    found.round.push(Around { form, is_signal })?;
    Ok(())
}

/// Finds the notes of a node.
fn find(
    design: &mut KnownDesign<'_, '_>,
    interfaces: &Interfaces<'_>,
    alloc: Global,
    found: &mut Found,
    node: &Opened<'_, Resolved>,
) -> Result<(), AllocError>
    requires ready { IsReady design.old }
    ensures knows { (d : Design) (ks : List Known) → Knows d design.old ks → OnOk result (Knows d design.new ks) }
{
    match node.form.form {
        Form::Arguments => {
            let note = note_of_brackets(design, interfaces, alloc, found, &node.parts)?;
            found.notes.push(note)?;
            Ok(())
        }
        Form::PortMap => find_elements(design, alloc, found, &node.parts),
        Form::Choices => find_choices(design, alloc, found, &node.parts),
        _ => find_statement(design, alloc, found, node),
    }
}

impl<'a, 'i, 't> Following<'a, Resolved> for Knowing<'a, 'i, 't> {
    ghost follows = { λ x rs ps. IsKnowing x ps };

    ghost broken = { λ x p t. [] };

    fn enter(&mut self, alloc: Global, node: &Opened<'a, Resolved>) -> Result<(), AllocError> {
        give_elements(&mut self.found)?;
        find(
            &mut self.design,
            self.interfaces,
            alloc,
            &mut self.found,
            node,
        )?;
        stand(&mut self.found, self.interfaces, alloc, node)?;
        go_inside(&mut self.design, alloc, &node.form, &node.parts)
    }

    fn leave(&mut self, alloc: Global, node: &Opened<'a, Resolved>) -> Result<(), AllocError> {
        let _left = self.found.round.pop();
        go_outside(
            &mut self.design,
            self.interfaces,
            alloc,
            &node.form,
            &node.parts,
        )
    }
}

/// The notes of the brackets behind names, of the elements of port maps, of the statements with choices and of the choices in lists of a design, one for
/// each, in the order of the text: of indexes and bounds in the name of a signal, how static they are and what they are; of elements whose actual a signal
/// stands for, that it is so, with no number yet; of statements, how they are written, with the bounds of a variable and no number yet; of ranges among
/// choices of STD_ULOGIC, their values. The only error is that memory ran out.
pub fn known_notes(alloc: Global, tree: &Tree) -> Result<Vec<Note>, AllocError> {
    let interfaces = Interfaces::of(alloc, Revision::V2019, tree)?;
    let design = KnownDesign::new(alloc, Revision::V2019, tree.declarations())?;
    let mut walk = Knowing {
        interfaces: &interfaces,
        design,
        found: Found {
            round: Vec::new(alloc),
            coming: Vec::new(alloc),
            given: 0,
            notes: Vec::new(alloc),
        },
    };
    follow(alloc, &tree.cursor(), &mut walk)?;
    let Knowing { found, .. } = walk;
    Ok(found.notes)
}
