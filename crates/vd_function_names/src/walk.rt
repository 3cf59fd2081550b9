//! The first name in a function that the function may not use.

ghost use Rattle.std.specs.Prelude.{◌≡◌, IfOk, List, Option, Some, true, ℕ};
ghost use Rattle.vd_function_names.specs.Functions.{is_function as opens_function, names_walker};
ghost use Rattle.vd_value_rules.specs.Groups.{firsts_by, names_in_functions};
ghost use Rattle.vd_value_rules.specs.Designs.{Design, design_of};
ghost use Rattle.vd_value_rules.specs.Standings.{variables_in as variables_of_items, locals_down};

use crate::foreign::name_in_function;
use crate::locals::{Locals, variables_in};
use std::alloc::{AllocError, Global};
use vd_forest::{Opened, Store};
use vd_forms::Form;
use vd_resolved::{Resolved, Tree};
use vd_trees::Revision;
use vd_value_rules::Firsts;
use vd_walks::{Entry, Outcome, Walking, lesser, walk};

/// Whether other variables are declared inside nodes of the form.
fn is_function(form: Form) -> bool
    ensures { result ≡ opens_function form }
{
    matches!(
        form,
        Form::FunctionBody | Form::FunctionDeclaration | Form::GenericFunction
    )
}

/// The variables that a function declares, which only a body does.
fn variables_of(alloc: Global, node: &Opened<'_, Resolved>) -> Result<Locals, AllocError>
    ensures { IfOk result (λ locals. opens_function node.now.form.form ≡ true
        → (d : Design) (before : Option (List ℕ)) → Some locals ≡ locals_down node.now.form.form d node.now.parts before) }
{
    match node.form.form {
        Form::FunctionBody => {
            let items = node.parts.skip(6).parts();
            let numbers = variables_in(alloc, &items)?;
            Locals::of(alloc, numbers)
        }
        _ => Locals::of(alloc, Vec::new(alloc)),
    }
}

/// The names of a design.
#[derive(Clone, Copy)]
struct Names<'a> {
    revision: Revision,
    tree: &'a Tree,
}

impl<'a> Walking<'a, Resolved, u8, Option<Locals>, u8, Option<Option<Locals>>> for Names<'a> {
    ghost walker = { λ names. names_walker (design_of names.revision names.tree.now) };

    fn enter(
        &self,
        alloc: Global,
        node: &Opened<'a, Resolved>,
        at: Option<Locals>,
        _table: &mut u8,
        _out: &mut Store<u8>,
    ) -> Result<Entry<Option<Locals>, Option<Option<Locals>>>, AllocError> {
        if is_function(node.form.form) {
            let locals = variables_of(alloc, node)?;
            Ok(Entry::Inside {
                at: Some(locals),
                kept: Some(at),
            })
        } else {
            Ok(Entry::Inside { at, kept: None })
        }
    }

    fn leave(
        &self,
        _alloc: Global,
        kept: Option<Option<Locals>>,
        node: &Opened<'a, Resolved>,
        outcome: &mut Outcome<Option<Locals>>,
        _table: &mut u8,
        _out: &mut Store<u8>,
    ) -> Result<(), AllocError> {
        let refused = name_in_function(self.tree.declarations(), &outcome.at, node);
        outcome.first = lesser(refused, outcome.first);
        if let Some(before) = kept {
            outcome.at = before;
        }
        Ok(())
    }
}

/// The first refusals of names in functions: there a signal is not named, and no variable that the function doesn't declare.
pub fn foreign_refusals(
    alloc: Global,
    revision: Revision,
    tree: &Tree,
) -> Result<Firsts, AllocError>
    ensures { IfOk result (λ found. found ≡ firsts_by names_in_functions revision tree.now) }
{
    let names = Names { revision, tree };
    let mut out = Store::new(alloc);
    let mut table = 0;
    let outcome = walk(alloc, &tree.cursor(), None, &mut table, &mut out, &names)?;
    Ok(Firsts {
        of_names: None,
        of_rules: outcome.first,
    })
}
