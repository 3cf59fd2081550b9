//! The walk over a tree that is written.
#![tactic(auto, using(vd_forest::proofs::StoreLemmas::growing))]

ghost use Rattle.std.specs.Prelude.{◌≡◌, ◌≤◌, IfOk, length};
ghost use Rattle.vd_forest.specs.Store.{Extends};
ghost use Rattle.vd_tours.specs.Tours.{IsWithin};

use crate::levels::{Level, Parts};
use crate::openings::row_with_steps;
use crate::writer::Writer;
use std::alloc::{AllocError, Global};
use vd_forest::{Opened, Store};
use vd_forms::{Form, is_expression};
use vd_name_rows::{Step, row_of};
use vd_names::Chosen;
use vd_notes::Tables;
use vd_resolved::{Resolved, Tree};
use vd_tours::{Entry, Touring, tour};

/// A forest of the syntax of revision 1993: a store, and the number of its units there.
#[derive(Drop)]
pub struct Written {
    pub store: Store<Form>,
    pub units: u32,
}

/// What a step does with a tree.
#[derive(Clone, Copy)]
enum Kind {
    /// Its parts are walked, by its own row.
    Row,
    /// A word, or what has no name in it.
    Word,
    Expression,
    Mark,
    Map,
    Clause,
}

/// Whether a tree stands for what isn't there.
fn is_absent(form: Form) -> bool {
    matches!(form, Form::Absent)
}

/// What an expression's step does with a tree, which may have a row of its own.
fn kind_of_chosen(form: Form) -> Kind {
    if is_absent(form) {
        Kind::Word
    } else if is_expression(form) {
        Kind::Expression
    } else {
        Kind::Row
    }
}

/// What the step of a range does, which may have a row of its own or be no expression by itself.
fn kind_of_range(form: Form) -> Kind {
    match form {
        Form::Absent => Kind::Word,
        Form::UnconstrainedIndex => Kind::Row,
        _ => Kind::Expression,
    }
}

/// What a step does with a tree.
fn kind_of(step: Step, form: Form) -> Kind {
    match step {
        Step::Look | Step::Within | Step::ViewSubtype => Kind::Row,
        Step::Chosen => kind_of_chosen(form),
        Step::Expression(_)
        | Step::Surplus
        | Step::Target
        | Step::Selector
        | Step::Parameter(_)
        | Step::IndexMark
        | Step::ArrayIndex => kind_of_range(form),
        Step::Mark | Step::Result | Step::InstanceEntity => Kind::Mark,
        Step::Generics | Step::Ports => Kind::Map,
        Step::LibraryWord | Step::UseName => Kind::Clause,
        _ => Kind::Word,
    }
}

/// Whether words stand inside a tree that has no steps.
fn has_words(node: &Opened<'_, Resolved>) -> bool {
    node.parts.open().is_some()
}

/// What is done with the elements of a map.
fn elements_of(step: Step) -> Parts {
    match step {
        Step::Ports => Parts::Ports,
        _ => Parts::Generics,
    }
}

impl<'a> Writer<'a> {
    /// A tree with no steps: a word, or words inside.
    fn enter_words(
        &mut self,
        out: &mut Store<Form>,
        node: &Opened<'a, Resolved>,
    ) -> Result<Entry, AllocError>
        ensures within { IfOk result (IsWithin out.new) }
        ensures extends { Extends out.old out.new }
    {
        if has_words(node) {
            self.go_inside(Parts::Words)?;
            return Ok(Entry::Inside);
        }
        Ok(Entry::Done(self.write_other_word(out, node)?))
    }

    /// A tree by its own row.
    fn enter_row(
        &mut self,
        out: &mut Store<Form>,
        step: Step,
        node: &Opened<'a, Resolved>,
    ) -> Result<Entry, AllocError>
        ensures within { IfOk result (IsWithin out.new) }
        ensures extends { Extends out.old out.new }
    {
        match row_with_steps(node.form.form) {
            Some(row) => {
                self.open(step, &row, node)?;
                Ok(Entry::Inside)
            }
            None => self.enter_words(out, node),
        }
    }

    /// A word whose step says what it names.
    fn enter_word(
        &mut self,
        out: &mut Store<Form>,
        level: &Level,
        step: Step,
        node: &Opened<'a, Resolved>,
    ) -> Result<Entry, AllocError>
        ensures within { IfOk result (IsWithin out.new) }
        ensures extends { Extends out.old out.new }
    {
        match step {
            Step::Word => Ok(Entry::Done(self.write_word(out, level.number, node)?)),
            Step::Names => Ok(Entry::Done(self.write_names(out, node)?)),
            Step::Label => Ok(Entry::Done(self.write_label(out, node)?)),
            Step::LabelName | Step::EntityWord | Step::InstanceArchitecture => {
                Ok(Entry::Done(self.write_word(out, None, node)?))
            }
            _ => self.enter_words(out, node),
        }
    }

    /// A mark, or the entity of an instance.
    fn enter_mark(
        &mut self,
        out: &mut Store<Form>,
        step: Step,
        node: &Opened<'a, Resolved>,
    ) -> Result<Entry, AllocError>
        ensures within { IfOk result (IsWithin out.new) }
        ensures extends { Extends out.old out.new }
    {
        if matches!(step, Step::InstanceEntity) {
            self.entity = match node.form.declaration {
                Some(id) => Some(id.number()),
                None => None,
            };
        }
        Ok(Entry::Done(self.write_mark(out, node)?))
    }

    /// A generic map or a port map, where there is one.
    fn enter_map(
        &mut self,
        out: &mut Store<Form>,
        step: Step,
        node: &Opened<'a, Resolved>,
    ) -> Result<Entry, AllocError>
        ensures within { IfOk result (IsWithin out.new) }
        ensures extends { Extends out.old out.new }
    {
        if is_absent(node.form.form) {
            return Ok(Entry::Done(self.copied(out, node)?));
        }
        self.go_inside(elements_of(step))?;
        Ok(Entry::Inside)
    }

    /// A name in a clause.
    fn enter_clause(
        &mut self,
        out: &mut Store<Form>,
        step: Step,
        node: &Opened<'a, Resolved>,
    ) -> Result<Entry, AllocError>
        ensures within { IfOk result (IsWithin out.new) }
        ensures extends { Extends out.old out.new }
    {
        match step {
            Step::LibraryWord => Ok(Entry::Done(self.write_library(out, node)?)),
            _ => Ok(Entry::Done(self.write_use(out, node)?)),
        }
    }

    /// A tree by its step.
    fn enter_step(
        &mut self,
        out: &mut Store<Form>,
        level: &Level,
        step: Step,
        node: &Opened<'a, Resolved>,
    ) -> Result<Entry, AllocError>
        ensures within { IfOk result (IsWithin out.new) }
        ensures extends { Extends out.old out.new }
    {
        match kind_of(step, node.form.form) {
            Kind::Row => self.enter_row(out, step, node),
            Kind::Word => self.enter_word(out, level, step, node),
            Kind::Expression => self.enter_root(out, node, step),
            Kind::Mark => self.enter_mark(out, step, node),
            Kind::Map => self.enter_map(out, step, node),
            Kind::Clause => self.enter_clause(out, step, node),
        }
    }

    /// A tree, by what is done with the parts of the one round it.
    fn enter_tree(
        &mut self,
        out: &mut Store<Form>,
        node: &Opened<'a, Resolved>,
    ) -> Result<Entry, AllocError>
        ensures within { IfOk result (IsWithin out.new) }
        ensures extends { Extends out.old out.new }
    {
        let Some(level) = self.next_part() else {
            return self.enter_row(out, Step::Look, node);
        };
        match level.parts {
            Parts::Steps => self.enter_step(out, &level, level.step(), node),
            Parts::Words => self.enter_words(out, node),
            _ => self.enter_part(out, &level, node),
        }
    }

    /// The node of a tree with steps, whose parts are written. A use clause in which nothing is left is left out.
    fn made_of(
        &mut self,
        out: &mut Store<Form>,
        node: &Opened<'a, Resolved>,
        parts: u32,
    ) -> Result<u32, AllocError>
        requires { parts ≤ length out.old }
        ensures within { IfOk result (λ made. made ≤ length out.new) }
        ensures extends { Extends out.old out.new }
    {
        match node.form.form {
            Form::UseClause if parts == 0 => Ok(0),
            Form::DesignUnit => self.leave_unit(out, parts, node.place),
            form => out.add(form, node.text, node.place, parts, 0),
        }
    }

    /// A tree with steps, whose parts are written.
    fn leave_steps(
        &mut self,
        out: &mut Store<Form>,
        level: &Level,
        node: &Opened<'a, Resolved>,
        parts: u32,
    ) -> Result<u32, AllocError>
        requires { parts ≤ length out.old }
        ensures within { IfOk result (λ made. made ≤ length out.new) }
        ensures extends { Extends out.old out.new }
    {
        self.end(row_of(node.form.form).ending, level, node)?;
        self.restore(level);
        self.made_of(out, node, parts)
    }

    /// A tree whose parts are written.
    fn leave_tree(
        &mut self,
        out: &mut Store<Form>,
        node: &Opened<'a, Resolved>,
        parts: u32,
    ) -> Result<u32, AllocError>
        requires { parts ≤ length out.old }
        ensures within { IfOk result (λ made. made ≤ length out.new) }
        ensures extends { Extends out.old out.new }
    {
        let Some(level) = self.levels.pop() else {
            return out.add(node.form.form, node.text, node.place, parts, 0);
        };
        match level.parts {
            Parts::Steps => self.leave_steps(out, &level, node, parts),
            Parts::Words => out.add(node.form.form, node.text, node.place, parts, 0),
            _ => self.leave_part(out, &level, node, parts),
        }
    }
}

impl<'a> Touring<'a, Resolved, Form> for Writer<'a> {
    ghost knows = { λ _ _ _. Unit {0} };

    ghost Frame = { Unit {0} };

    ghost frame = { λ _. tt };

    ghost replaces = { λ _ _ _ _. Unit {0} };

    ghost becomes = { λ _ _ _ _ _. Unit {0} };

    fn enter(
        &mut self,
        _alloc: Global,
        out: &mut Store<Form>,
        node: &Opened<'a, Resolved>,
    ) -> Result<Entry, AllocError> {
        self.enter_tree(out, node)
    }

    fn leave(
        &mut self,
        _alloc: Global,
        out: &mut Store<Form>,
        node: &Opened<'a, Resolved>,
        parts: u32,
    ) -> Result<u32, AllocError> {
        self.leave_tree(out, node, parts)
    }
}

/// Writes a resolved tree, whose forms are those of revision 1993, with the names that were chosen for its declarations. Each name is written so
/// that it is read as it is meant, as far as there is a way to write it. The only error is that memory ran out.
pub fn write_names(
    alloc: Global,
    tree: &Tree,
    tables: &Tables,
    chosen: &Chosen,
) -> Result<Written, AllocError>
    ensures within { IfOk result (λ written. written.units ≤ length written.store) }
{
    let mut store = Store::new(alloc);
    let mut writer = Writer::new(alloc, tree, tables, chosen)?;
    let units = tour(alloc, &tree.cursor(), &mut store, &mut writer)?;
    Ok(Written { store, units })
}
