//! The walk that expands a design.
#![tactic(auto, using(vd_forest::proofs::StoreLemmas::growing))]

ghost use Rattle.std.specs.Prelude.{◌≡◌, ◌≤◌, IfOk, length};
ghost use Rattle.vd_forest.specs.Store.{Extends};
ghost use Rattle.vd_noting.specs.Notes.{BeginsWith};
ghost use Rattle.vd_tours.specs.Tours.{IsWithin};

use crate::actuals::Actuals;
use crate::declared::Declared;
use crate::fresh::freshen;
use crate::held::Held;
use crate::instances::Instance;
use crate::renaming::Renaming;
use crate::templates::Templates;
use crate::trees::{
    behind, copy_first, copy_of, design_unit, inside, kept, package_body, with_parts,
};
use crate::under::Under;
use crate::units::with_bodies;
use std::alloc::{AllocError, Global};
use std::mem;
use vd_bytes::Place;
use vd_declarations::{Class, DeclId};
use vd_forest::{Cursor, Opened, Store};
use vd_forms::Form;
use vd_notes::{number_at, number_of};
use vd_noting::all_copied;
use vd_resolved::{Resolved, Tree};
use vd_tours::{Entry, Touring, tour};

/// The table of the walk.
#[derive(Drop)]
struct Expansion<'a> {
    declared: Declared<'a>,
    templates: Templates,
    held: Held,
    /// By the number of a package: whether it has a body of its own.
    has_body: Vec<bool>,
    /// The body of a package that stands behind the unit at hand.
    behind: Option<Tree>,
    /// How many units stand round the place at hand.
    depth: u32,
    /// Whether that is in a package declaration.
    is_in_package: bool,
}

/// The functions with generics among some declarations, as far as their bodies are known.
fn functions_among(
    alloc: Global,
    declared: &Declared<'_>,
    templates: &Templates,
    ids: &[DeclId],
) -> Result<Vec<u32>, AllocError> {
    let mut functions = Vec::new(alloc);
    for id in ids {
        let number = id.number();
        let class = declared.class_of(number);
        if matches!(class, Class::UninstantiatedFunction) && templates.header(number).is_some() {
            functions.push(number)?;
        }
    }
    Ok(functions)
}

/// Declares anew what a text makes, where it is known.
fn freshen_text(
    alloc: Global,
    declared: &mut Declared<'_>,
    renaming: &mut Renaming,
    text: Option<&Tree>,
) -> Result<(), AllocError> {
    match text {
        Some(tree) => freshen(alloc, declared, renaming, &tree.cursor()),
        None => Ok(()),
    }
}

/// The actuals of an instance.
fn actuals_of<'t>(
    alloc: Global,
    declared: &Declared<'_>,
    instance: &Instance<'t>,
) -> Result<Actuals<'t>, AllocError> {
    let generics = declared.generics_of(instance.template);
    Actuals::of(alloc, &instance.elements, generics)
}

/// The function of an instance, or in a package its declaration.
fn function_at(
    alloc: Global,
    out: &mut Store<Resolved>,
    under: &Under<'_, '_, '_>,
    is_in_package: bool,
    text: &Opened<'_, Resolved>,
    name: &Cursor<'_, Resolved>,
) -> Result<u32, AllocError>
    ensures within { IfOk result (λ made. made ≤ length out.new) }
    ensures extends { Extends out.old out.new }
{
    if is_in_package {
        under.function_declaration(alloc, out, text, name)
    } else {
        under.function_body(alloc, out, text, name)
    }
}

/// What stands for an instance of a function: constants and subtypes in the place of its generics, and the function.
fn function_trees(
    alloc: Global,
    out: &mut Store<Resolved>,
    under: &Under<'_, '_, '_>,
    is_in_package: bool,
    text: &Opened<'_, Resolved>,
    instance: &Instance<'_>,
) -> Result<u32, AllocError>
    ensures within { IfOk result (λ made. made ≤ length out.new) }
    ensures extends { Extends out.old out.new }
{
    let actuals = actuals_of(alloc, under.declared, instance)?;
    let clause = text.parts.skip(2).parts();
    let front = under.generics(alloc, out, &clause, &actuals)?;
    let function = function_at(alloc, out, under, is_in_package, text, &instance.name)?;
    out.turn(front, function)
}

/// The same names of packages, without those of packages with generics.
fn names_left(
    declared: &Declared<'_>,
    out: &mut Store<Resolved>,
    names: &Cursor<'_, Resolved>,
) -> Result<u32, AllocError>
    ensures within { IfOk result (λ made. made ≤ length out.new) }
    ensures extends { Extends out.old out.new }
{
    let mut made = 0;
    let mut left = names.fork();
    while let Some(first) = left.open() {
        if !declared.is_template(number_of(&first.form.declaration)) {
            made = copy_of(out, &first, made)?;
        }
        left = first.next;
    }
    out.turn(made, 0)
}

impl<'a> Expansion<'a> {
    /// Where the walk over a design begins.
    fn of(alloc: Global, tree: &'a Tree) -> Result<Expansion<'a>, AllocError> {
        let declarations = tree.declarations();
        Ok(Expansion {
            declared: Declared::of(alloc, declarations)?,
            templates: Templates::new(alloc),
            held: Held::new(alloc),
            has_body: with_bodies(alloc, &tree.cursor(), declarations.len())?,
            behind: None,
            depth: 0,
            is_in_package: false,
        })
    }

    /// What stands for the declarations of a package or function in an instance.
    fn renaming(
        &mut self,
        alloc: Global,
        template: u32,
        instance: u32,
    ) -> Result<Renaming, AllocError> {
        let mut renaming = Renaming::paired(alloc, &self.declared, template, instance)?;
        let header = self.templates.header(template);
        freshen_text(alloc, &mut self.declared, &mut renaming, header)?;
        let body = self.templates.body(template);
        freshen_text(alloc, &mut self.declared, &mut renaming, body)?;
        Ok(renaming)
    }

    /// An instance of a function: what stands for the generics, and the function.
    fn function(
        &mut self,
        alloc: Global,
        out: &mut Store<Resolved>,
        instance: &Instance<'_>,
    ) -> Result<u32, AllocError>
        ensures within { IfOk result (λ made. made ≤ length out.new) }
        ensures extends { Extends out.old out.new }
    {
        let renaming = self.renaming(alloc, instance.template, instance.number)?;
        let Some(tree) = self.templates.header(instance.template) else {
            return Ok(0);
        };
        let Some(text) = tree.cursor().open() else {
            return Ok(0);
        };
        let under = Under {
            declared: &self.declared,
            renaming: &renaming,
        };
        let is_in_package = self.is_in_package;
        if is_in_package {
            let body = under.function_tree(alloc, &text, &instance.name)?;
            self.held.push(body)?;
        }
        function_trees(alloc, out, &under, is_in_package, &text, instance)
    }

    /// Keeps the functions with generics of a package as those of its instance.
    fn keep_functions(
        &mut self,
        alloc: Global,
        functions: &[u32],
        renaming: &mut Renaming,
    ) -> Result<(), AllocError> {
        for function in functions {
            self.keep_function(alloc, *function, renaming)?;
        }
        Ok(())
    }

    /// The same for one of them.
    fn keep_function(
        &mut self,
        alloc: Global,
        function: u32,
        renaming: &mut Renaming,
    ) -> Result<(), AllocError> {
        let Some(text) = self.templates.header(function) else {
            return Ok(());
        };
        freshen(alloc, &mut self.declared, renaming, &text.cursor())?;
        let under = Under {
            declared: &self.declared,
            renaming,
        };
        let copy = under.template(alloc, text)?;
        let number = under.number(function);
        self.templates.keep(number, copy)
    }

    /// What else an instance of a package has: its body, and its functions with generics.
    fn package_besides(
        &mut self,
        alloc: Global,
        instance: &Instance<'_>,
        renaming: &mut Renaming,
    ) -> Result<(), AllocError> {
        let ids = self.declared.parameters_of(instance.template);
        let functions = functions_among(alloc, &self.declared, &self.templates, ids)?;
        self.keep_functions(alloc, functions.as_slice(), renaming)?;
        if let Some(body) = self.templates.body(instance.template) {
            let under = Under {
                declared: &self.declared,
                renaming,
            };
            self.behind = Some(under.package_body(alloc, body, instance.number)?);
        }
        Ok(())
    }

    /// An instance of a package.
    fn package(
        &mut self,
        alloc: Global,
        out: &mut Store<Resolved>,
        instance: &Instance<'_>,
    ) -> Result<u32, AllocError>
        ensures within { IfOk result (λ made. made ≤ length out.new) }
        ensures extends { Extends out.old out.new }
    {
        let mut renaming = self.renaming(alloc, instance.template, instance.number)?;
        self.package_besides(alloc, instance, &mut renaming)?;
        let Some(tree) = self.templates.header(instance.template) else {
            return Ok(0);
        };
        let Some(text) = tree.cursor().open() else {
            return Ok(0);
        };
        let actuals = actuals_of(alloc, &self.declared, instance)?;
        let under = Under {
            declared: &self.declared,
            renaming: &renaming,
        };
        under.package(alloc, out, &text, &instance.name, &actuals)
    }

    /// An instance, which is one of something that is known.
    fn known<'t>(&self, instance: Option<Instance<'t>>) -> Option<Instance<'t>> {
        match instance {
            Some(instance) if self.templates.header(instance.template).is_some() => Some(instance),
            _ => None,
        }
    }

    /// What stands for an instance of a function.
    fn enter_function(
        &mut self,
        alloc: Global,
        out: &mut Store<Resolved>,
        node: &Opened<'_, Resolved>,
    ) -> Result<u32, AllocError>
        ensures within { IfOk result (λ made. made ≤ length out.new) }
        ensures extends { Extends out.old out.new }
    {
        match self.known(Instance::of_function(node)) {
            Some(instance) => self.function(alloc, out, &instance),
            None => copy_of(out, node, 0),
        }
    }

    /// What stands for an instance of a package.
    fn enter_package(
        &mut self,
        alloc: Global,
        out: &mut Store<Resolved>,
        node: &Opened<'_, Resolved>,
    ) -> Result<u32, AllocError>
        ensures within { IfOk result (λ made. made ≤ length out.new) }
        ensures extends { Extends out.old out.new }
    {
        match self.known(Instance::of_package(node)) {
            Some(instance) => self.package(alloc, out, &instance),
            None => copy_of(out, node, 0),
        }
    }

    /// A use clause, without the packages with generics.
    fn enter_clause(
        &self,
        out: &mut Store<Resolved>,
        node: &Opened<'_, Resolved>,
    ) -> Result<u32, AllocError>
        ensures within { IfOk result (λ made. made ≤ length out.new) }
        ensures extends { Extends out.old out.new }
    {
        let names = names_left(&self.declared, out, &node.parts)?;
        if names == 0 {
            return Ok(0);
        }
        let made = out.add(node.form, node.text, node.place, names, 0)?;
        Ok(made)
    }

    /// Notes that a unit, or what it declares, begins.
    fn begin(&mut self, form: Form) {
        match form {
            Form::DesignUnit => self.depth = self.depth.saturating_add(1),
            Form::PackageDeclaration => {
                self.is_in_package = true;
                self.held.begin();
            }
            _ => {}
        }
    }

    /// The body of a package by itself that has the bodies alone which wait for it.
    fn body_of_waiting(
        &self,
        alloc: Global,
        package: u32,
        place: Place,
    ) -> Result<Tree, AllocError> {
        let mut store = Store::new(alloc);
        let items = self.held.in_front(&mut store, package, 0)?;
        let name = self.declared.name_of(package);
        let made = package_body(&mut store, package, name, place, items)?;
        Ok(Tree::of(store, made, Vec::new(alloc)))
    }

    /// Whether a package has a body of its own.
    fn has_own_body(&self, package: u32) -> bool {
        match self.has_body.get(package as usize) {
            Some(has) => *has,
            None => false,
        }
    }

    /// A package with generics, in whose declaration bodies may wait for its own.
    fn keep_package(
        &mut self,
        alloc: Global,
        package: u32,
        text: Tree,
        place: Place,
        waits: bool,
    ) -> Result<(), AllocError> {
        self.templates.keep(package, text)?;
        if waits {
            let body = self.body_of_waiting(alloc, package, place)?;
            self.templates.keep_body(package, body)?;
        }
        Ok(())
    }

    /// A package declaration, whose parts are expanded. One with generics is kept, and gone.
    fn leave_package(
        &mut self,
        alloc: Global,
        out: &mut Store<Resolved>,
        node: &Opened<'_, Resolved>,
        parts: u32,
    ) -> Result<u32, AllocError>
        requires { parts ≤ length out.old }
        ensures within { IfOk result (λ made. made ≤ length out.new) }
        ensures extends { Extends out.old out.new }
    {
        self.is_in_package = false;
        let Some(package) = number_at(node) else {
            return out.add(node.form, node.text, node.place, parts, 0);
        };
        let waits = self.held.end(package)?;
        if self.declared.is_template(Some(package)) {
            let text = kept(alloc, out, node, parts)?;
            self.keep_package(alloc, package, text, node.place, waits)?;
            return Ok(0);
        }
        if waits && !self.has_own_body(package) {
            self.behind = Some(self.body_of_waiting(alloc, package, node.place)?);
        }
        out.add(node.form, node.text, node.place, parts, 0)
    }

    /// The parts of the body of a package, with the bodies that wait for it in front of what it declares.
    fn body_parts(
        &self,
        out: &mut Store<Resolved>,
        package: u32,
        parts: u32,
    ) -> Result<u32, AllocError>
        requires { parts ≤ length out.old }
        ensures within { IfOk result (λ made. made ≤ length out.new) }
        ensures extends { Extends out.old out.new }
    {
        let part = behind(out, parts);
        let end = behind(out, part);
        let items = self.held.in_front(out, package, inside(out, part))?;
        let part = with_parts(out, part, items, end)?;
        let made = out.relink(parts, part)?;
        Ok(made)
    }

    /// The body of a package, whose parts are expanded. That of one with generics is kept, and gone.
    fn leave_body(
        &mut self,
        alloc: Global,
        out: &mut Store<Resolved>,
        node: &Opened<'_, Resolved>,
        parts: u32,
    ) -> Result<u32, AllocError>
        requires { parts ≤ length out.old }
        ensures within { IfOk result (λ made. made ≤ length out.new) }
        ensures extends { Extends out.old out.new }
    {
        let Some(package) = number_at(node) else {
            return out.add(node.form, node.text, node.place, parts, 0);
        };
        let parts = self.body_parts(out, package, parts)?;
        if self.declared.is_template(Some(package)) {
            let text = kept(alloc, out, node, parts)?;
            self.templates.keep_body(package, text)?;
            return Ok(0);
        }
        out.add(node.form, node.text, node.place, parts, 0)
    }

    /// A function, whose parts are expanded. One with generics is kept where it has a body, and gone.
    fn leave_function(
        &mut self,
        alloc: Global,
        out: &mut Store<Resolved>,
        node: &Opened<'_, Resolved>,
        parts: u32,
    ) -> Result<u32, AllocError>
        requires { parts ≤ length out.old }
        ensures within { IfOk result (λ made. made ≤ length out.new) }
        ensures extends { Extends out.old out.new }
    {
        match number_at(node) {
            Some(function) if self.declared.is_template(Some(function)) => {
                if matches!(node.form.form, Form::FunctionBody) {
                    let text = kept(alloc, out, node, parts)?;
                    self.templates.keep(function, text)?;
                }
                Ok(0)
            }
            _ => out.add(node.form, node.text, node.place, parts, 0),
        }
    }

    /// The unit that stands behind the one at hand, where one does.
    fn unit_behind(&mut self, out: &mut Store<Resolved>, place: Place) -> Result<u32, AllocError>
        ensures within { IfOk result (λ made. made ≤ length out.new) }
        ensures extends { Extends out.old out.new }
    {
        if self.depth > 0 {
            return Ok(0);
        }
        match mem::replace(&mut self.behind, None) {
            Some(body) => design_unit(out, &body.cursor(), place),
            None => Ok(0),
        }
    }

    /// A unit, or one behind a reference to contexts, whose parts are expanded. Where what it declares is gone, it is gone too.
    fn leave_unit(
        &mut self,
        out: &mut Store<Resolved>,
        node: &Opened<'_, Resolved>,
        parts: u32,
    ) -> Result<u32, AllocError>
        requires { parts ≤ length out.old }
        ensures within { IfOk result (λ made. made ≤ length out.new) }
        ensures extends { Extends out.old out.new }
    {
        if matches!(node.form.form, Form::DesignUnit) {
            self.depth = self.depth.saturating_sub(1);
        }
        if behind(out, parts) == 0 {
            return Ok(0);
        }
        let next = self.unit_behind(out, node.place)?;
        let made = out.add(node.form, node.text, node.place, parts, next)?;
        Ok(made)
    }
}

impl<'a, 'b> Touring<'a, Resolved, Resolved> for Expansion<'b> {
    ghost knows = { λ _ _ _. Unit {0} };

    ghost Frame = { Unit {0} };

    ghost frame = { λ _. tt };

    ghost replaces = { λ _ _ _ _. Unit {0} };

    ghost becomes = { λ _ _ _ _ _. Unit {0} };

    fn enter(
        &mut self,
        alloc: Global,
        out: &mut Store<Resolved>,
        node: &Opened<'a, Resolved>,
    ) -> Result<Entry, AllocError> {
        match node.form.form {
            Form::FunctionInstantiation => {
                Ok(Entry::Done(self.enter_function(alloc, out, node)?))
            }
            Form::PackageInstantiation => Ok(Entry::Done(self.enter_package(alloc, out, node)?)),
            Form::UseClause => Ok(Entry::Done(self.enter_clause(out, node)?)),
            form => {
                self.begin(form);
                Ok(Entry::Inside)
            }
        }
    }

    fn leave(
        &mut self,
        alloc: Global,
        out: &mut Store<Resolved>,
        node: &Opened<'a, Resolved>,
        parts: u32,
    ) -> Result<u32, AllocError> {
        match node.form.form {
            Form::PackageDeclaration => self.leave_package(alloc, out, node, parts),
            Form::PackageBody => self.leave_body(alloc, out, node, parts),
            Form::FunctionBody | Form::FunctionDeclaration => {
                self.leave_function(alloc, out, node, parts)
            }
            Form::DesignUnit | Form::ReferringUnit => self.leave_unit(out, node, parts),
            _ => {
                let made = out.add(node.form, node.text, node.place, parts, 0)?;
                Ok(made)
            }
        }
    }
}

/// Whether a design has packages or functions with generics.
fn has_templates(declared: &Declared<'_>, count: usize) -> bool {
    let mut number = 0;
    for _ in 0..count {
        if declared.is_template(Some(number)) {
            return true;
        }
        number = number.saturating_add(1);
    }
    false
}

/// The units of a design, expanded, where something in it has generics.
#[tactic(auto, using(crate::proofs::TourLemmas::at_start))]
fn units_of(
    alloc: Global,
    tree: &Tree,
    pass: &mut Expansion<'_>,
    out: &mut Store<Resolved>,
) -> Result<u32, AllocError>
    ensures within { IfOk result (λ made. made ≤ length out.new) }
    ensures extends { Extends out.old out.new }
{
    let units = tree.cursor();
    if !has_templates(&pass.declared, tree.declarations().len()) {
        return out.copy(&units);
    }
    tour(alloc, &units, out, pass)
}

/// A design without packages and functions with generics. Each instance of a package is a package with a body at its place, where that which it is an
/// instance of has one so far; each instance of a function is a function there, whose body, where the instance stands in a package, is at the head of
/// the body of the package, which is made right behind the package where there is none. In front of what is copied stand a constant for each generic
/// constant and a subtype for each generic type. What is declared for all that stands behind the declarations of the design.
pub fn expand(alloc: Global, tree: &Tree) -> Result<Tree, AllocError>
    ensures declarations { IfOk result (λ made. BeginsWith tree.now.declarations made.declarations) }
{
    let mut out = Store::new(alloc);
    let mut pass = Expansion::of(alloc, tree)?;
    let units = units_of(alloc, tree, &mut pass, &mut out)?;
    let mut declarations = all_copied(alloc, tree.declarations())?;
    declarations.append(&mut pass.declared.made)?;
    Ok(Tree::of(out, units, declarations))
}
