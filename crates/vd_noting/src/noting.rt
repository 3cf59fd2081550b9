//! Notes at the nodes of a design, and the declarations that they name.

ghost use Rattle.std.specs.Prelude.{◌≡◌, ◌≤◌, IfOk, length};
ghost use Rattle.vd_forest.specs.Store.{at};
ghost use Rattle.vd_noting.specs.Notes.{BeginsWith, without_notes};

use crate::copies::{all_copied, copied};
use crate::implicit::{formal_of, implicit_signal};
use crate::selectors::{has_choices, has_variable, selector_variable};
use std::alloc::{AllocError, Global};
use std::mem;
use vd_bytes::Text;
use vd_declarations::{Declaration, Made};
use vd_forest::{Opened, Store};
use vd_forms::Form;
use vd_notes::{CaseForm, Note, Noted, first_number};
use vd_resolved::{Resolved, Tree};
use vd_tours::{Entry, Touring, tour};

/// A design with notes at its nodes, and its declarations, with those that are made for the notes behind them.
#[derive(Drop)]
pub struct Noting {
    pub trees: Store<Noted>,
    pub units: u32,
    pub declarations: Vec<Declaration>,
}

/// What is known where a tree stands.
#[derive(Clone, Copy)]
struct Here {
    /// The form of the node that it is a part of, and behind how many other parts it stands.
    round: Option<Form>,
    at: u32,
    /// The label of the statement round it.
    label: Option<u32>,
    /// The note of the tree.
    note: Note,
}

/// The table of the walk.
#[derive(Drop)]
struct Walk<'a> {
    declarations: &'a [Declaration],
    /// What is known of brackets, of the elements of port maps, of statements with choices and of choices, in the order of the text, and how much of it
    /// is given out.
    known: &'a [Note],
    given: usize,
    /// What is declared behind them.
    made: Vec<Declaration>,
    here: Here,
    round: Vec<Here>,
}

/// Where the units begin.
fn outside() -> Here {
    Here {
        round: None,
        at: 0,
        label: None,
        note: Note::Nothing,
    }
}

/// Whether a tree is a second or later alternative of a generate: a condition of its own, the alternative behind all conditions, or choices that aren't
/// the first ones.
fn is_alternative(here: &Here, form: Form) -> bool {
    match form {
        Form::ElsifGenerate => true,
        Form::GenerateBody => here.at == 3 && matches!(here.round, Some(Form::IfGenerate)),
        Form::GenerateAlternative => here.at > 0,
        _ => false,
    }
}

/// Whether a tree is among those of which something is known: brackets, the elements of port maps, statements with choices, and choices.
fn is_known(here: &Here, form: Form) -> bool {
    match form {
        Form::Arguments => true,
        _ => has_choices(form) || matches!(here.round, Some(Form::PortMap | Form::Choices)),
    }
}

impl<'a> Walk<'a> {
    /// The number of the next declaration that is made.
    fn next_number(&self) -> Result<u32, AllocError> {
        let count = self.declarations.len().saturating_add(self.made.len());
        match u32::try_from(count) {
            Ok(number) => Ok(number),
            Err(_) => Err(AllocError),
        }
    }

    /// A label like the one of this number, for an alternative. It stands behind all declarations so far.
    fn alternative(&mut self, alloc: Global, label: u32) -> Result<Note, AllocError> {
        let Some(declaration) = self.declarations.get(label as usize) else {
            return Ok(Note::Nothing);
        };
        let number = self.next_number()?;
        let mut copy = copied(alloc, declaration)?;
        copy.made = Made::Alternative;
        copy.wanted = Text::from_slice(alloc, declaration.name.as_slice())?;
        self.made.push(copy)?;
        Ok(Note::Alternative { label: number })
    }

    /// The next of the notes that are known.
    fn next_known(&mut self) -> Note {
        match self.known.get(self.given) {
            Some(note) => {
                self.given = self.given.saturating_add(1);
                *note
            }
            None => Note::Nothing,
        }
    }

    /// A signal for the actual of an element by name, where its port and the label of its instance are there.
    fn implicit(&mut self, alloc: Global, node: &Opened<'_, Resolved>) -> Result<Note, AllocError> {
        let Some(label) = self.here.label else {
            return Ok(Note::Nothing);
        };
        let Some(port) = formal_of(node) else {
            return Ok(Note::Nothing);
        };
        let signal = self.next_number()?;
        match implicit_signal(alloc, self.declarations, label, port)? {
            Some(declaration) => {
                self.made.push(declaration)?;
                Ok(Note::Implicit { signal })
            }
            None => Ok(Note::Nothing),
        }
    }

    /// A variable for the selector of a statement with choices.
    fn variable(
        &mut self,
        alloc: Global,
        form: CaseForm,
        node: &Opened<'_, Resolved>,
    ) -> Result<u32, AllocError> {
        let number = self.next_number()?;
        let declaration = selector_variable(alloc, form, node)?;
        self.made.push(declaration)?;
        Ok(number)
    }

    /// The note of a statement with choices, with the number of its variable, where it has one.
    fn selecting(
        &mut self,
        alloc: Global,
        note: Note,
        node: &Opened<'_, Resolved>,
    ) -> Result<Note, AllocError> {
        match note {
            Note::Selecting {
                form,
                left,
                right,
                down,
                ..
            } if has_variable(form) => {
                let variable = self.variable(alloc, form, node)?;
                Ok(Note::Selecting {
                    form,
                    variable,
                    left,
                    right,
                    down,
                })
            }
            _ => Ok(note),
        }
    }

    /// The note of a tree of which something is known.
    fn known_of(&mut self, alloc: Global, node: &Opened<'_, Resolved>) -> Result<Note, AllocError> {
        match self.next_known() {
            Note::Implicit { .. } => self.implicit(alloc, node),
            note => self.selecting(alloc, note, node),
        }
    }

    /// The note of a tree.
    fn note_of(&mut self, alloc: Global, node: &Opened<'_, Resolved>) -> Result<Note, AllocError> {
        let form = node.form.form;
        if is_known(&self.here, form) {
            return self.known_of(alloc, node);
        }
        match self.here.label {
            Some(label) if is_alternative(&self.here, form) => self.alternative(alloc, label),
            _ => Ok(Note::Nothing),
        }
    }

    /// The label of the statement round the parts of a node.
    fn label_inside(&self, node: &Opened<'_, Resolved>) -> Option<u32> {
        match node.form.form {
            Form::LabelledConcurrent => first_number(&node.parts),
            _ => self.here.label,
        }
    }
}

impl<'a, 'b> Touring<'a, Resolved, Noted> for Walk<'b> {
    ghost knows = { λ _ _ _. Unit {0} };

    ghost Frame = { Unit {0} };

    ghost frame = { λ _. tt };

    ghost replaces = { λ _ _ _ _. ⊥ };

    ghost use Rattle.vd_noting.specs.Notes.{is_noted};

    ghost becomes = { λ _ _ x inner made. is_noted x inner made };

    fn enter(
        &mut self,
        alloc: Global,
        _out: &mut Store<Noted>,
        node: &Opened<'a, Resolved>,
    ) -> Result<Entry, AllocError> {
        self.here.note = self.note_of(alloc, node)?;
        let inside = Here {
            round: Some(node.form.form),
            at: 0,
            label: self.label_inside(node),
            note: Note::Nothing,
        };
        let outer = mem::replace(&mut self.here, inside);
        self.round.push(outer)?;
        Ok(Entry::Inside)
    }

    fn leave(
        &mut self,
        _alloc: Global,
        out: &mut Store<Noted>,
        node: &Opened<'a, Resolved>,
        parts: u32,
    ) -> Result<u32, AllocError> {
        if let Some(outer) = self.round.pop() {
            self.here = outer;
        }
        let noted = Noted {
            node: node.form,
            note: self.here.note,
        };
        self.here.at = self.here.at.saturating_add(1);
        let made = out.add(noted, node.text, node.place, parts, 0)?;
        Ok(made)
    }
}

/// The notes of a design: at each second or later alternative of a generate, the declaration of its label; at brackets and choices, what is known of them;
/// at the elements of port maps that are by name, the signal that stands for the actual, where one does; at statements with choices, how they are written,
/// and the variable that has the selector's value, where one does. These declarations stand behind those of the design, in the order of the text. What is
/// known are notes in the order of the text, one for brackets each, one for each element of a port map, one for each statement with choices, and one for
/// each choice in a list.
#[tactic(auto, using(crate::proofs::NotingLemmas::noting))]
pub fn note(alloc: Global, tree: &Tree, known: &[Note]) -> Result<Noting, AllocError>
    ensures within { IfOk result (λ made. made.units ≤ length made.trees) }
    ensures declarations { IfOk result (λ made. BeginsWith tree.now.declarations made.declarations.items) }
    ensures trees { IfOk result (λ made. without_notes (at made.trees made.units) ≡ tree.now.units) }
{
    let mut trees = Store::new(alloc);
    let mut walk = Walk {
        declarations: tree.declarations(),
        known,
        given: 0,
        made: Vec::new(alloc),
        here: outside(),
        round: Vec::new(alloc),
    };
    let units = tour(alloc, &tree.cursor(), &mut trees, &mut walk)?;
    let mut declarations = all_copied(alloc, tree.declarations())?;
    declarations.append(&mut walk.made)?;
    Ok(Noting {
        trees,
        units,
        declarations,
    })
}
