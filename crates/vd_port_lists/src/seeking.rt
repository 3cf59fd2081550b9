//! Where the lists of interfaces stand.

ghost use Rattle.std.specs.Prelude.{◌≡◌};
ghost use Rattle.vd_meaning.specs.Tables.{Table};
ghost use Rattle.vd_port_lists.specs.Seeking.{all_trees as all_of, behind, inside_element as element_inside, inside_names as names_inside, inside_port as port_inside, inside_unit as unit_inside, is_here as stands_here, mode_at as mode_of_first, nothing_sought as nothing_more, one_tree as one_of, plain_mode as mode_of_form};

use crate::modes::{Mode, PortMode};
use vd_forest::Cursor;
use vd_forms::Form;
use vd_operations::{declaration_of, is_present};
use vd_resolved::Resolved;

/// Which of the trees side by side, from this one on, are looked at.
#[derive(Clone, Copy)]
pub(crate) enum Trees {
    AllTrees,
    /// The one behind so many.
    OneTree(u32),
    NoTree,
}

/// What is looked for in them.
#[derive(Clone, Copy)]
pub(crate) enum Sought {
    /// Design units, for the ports of entities.
    Units,
    PortLists,
    ElementLists,
    /// What has this mode.
    Names(PortMode),
    Views,
    PackageInstances,
}

#[derive(Clone, Copy)]
pub(crate) struct Seeking {
    pub(crate) trees: Trees,
    pub(crate) sought: Sought,
}

pub(crate) fn is_here(trees: Trees) -> bool
    ensures { result ≡ stands_here trees }
{
    match trees {
        Trees::AllTrees => true,
        Trees::OneTree(count) => count == 0,
        Trees::NoTree => false,
    }
}

/// For the next tree.
fn further(trees: Trees) -> Trees
    ensures { result ≡ Rattle.vd_port_lists.specs.Seeking.further trees }
{
    match trees {
        Trees::OneTree(count) => {
            if count == 0 {
                Trees::NoTree
            } else {
                Trees::OneTree(count - 1)
            }
        }
        _ => trees,
    }
}

pub(crate) fn for_next(state: &Seeking) -> Seeking
    ensures { result ≡ behind state.now }
{
    Seeking {
        trees: further(state.trees),
        sought: state.sought,
    }
}

pub(crate) fn nothing_sought() -> Seeking
    ensures { result ≡ nothing_more }
{
    Seeking {
        trees: Trees::NoTree,
        sought: Sought::Units,
    }
}

pub(crate) fn all_trees(sought: Sought) -> Seeking
    ensures { result ≡ all_of sought }
{
    Seeking {
        trees: Trees::AllTrees,
        sought,
    }
}

pub(crate) fn one_tree(number: u32, sought: Sought) -> Seeking
    ensures { result ≡ one_of number sought }
{
    Seeking {
        trees: Trees::OneTree(number),
        sought,
    }
}

/// The mode of a word.
fn plain_mode(form: Form) -> PortMode
    ensures { result ≡ mode_of_form form }
{
    match form {
        Form::Out => PortMode::Plain(Mode::Output),
        Form::InOut => PortMode::Plain(Mode::BothWays),
        _ => PortMode::Plain(Mode::Input),
    }
}

/// The mode or view that the first tree gives.
fn mode_at(trees: &Cursor<'_, Resolved>) -> PortMode
    ensures { (t : Table) → result ≡ mode_of_first t trees.now }
{
    let Some(first) = trees.open() else {
        return PortMode::Plain(Mode::Input);
    };
    match first.form.form {
        Form::ViewMode => PortMode::ByView {
            view: declaration_of(&first.parts),
            is_converse: is_present(&first.parts.skip(1)),
        },
        _ => plain_mode(first.form.form),
    }
}

/// Inside a design unit only the ports of an entity are looked for.
pub(crate) fn inside_unit(form: Form) -> Seeking
    ensures { result ≡ unit_inside form }
{
    match form {
        Form::EntityDeclaration => one_tree(2, Sought::PortLists),
        Form::ArchitectureBody
        | Form::PackageDeclaration
        | Form::PackageBody
        | Form::PackageInstantiation => nothing_sought(),
        _ => all_trees(Sought::Units),
    }
}

/// Inside a declaration of ports their names are looked for.
pub(crate) fn inside_port(form: Form, parts: &Cursor<'_, Resolved>) -> Seeking
    ensures { (t : Table) → result ≡ port_inside t form parts.now }
{
    match form {
        Form::PortDeclaration => one_tree(1, Sought::Names(mode_at(&parts.skip(2)))),
        Form::ViewPort => one_tree(
            1,
            Sought::Names(PortMode::ByView {
                view: declaration_of(&parts.skip(2)),
                is_converse: is_present(&parts.skip(3)),
            }),
        ),
        _ => all_trees(Sought::PortLists),
    }
}

/// Inside elements of a view their names are looked for.
pub(crate) fn inside_element(form: Form, parts: &Cursor<'_, Resolved>) -> Seeking
    ensures { (t : Table) → result ≡ element_inside t form parts.now }
{
    match form {
        Form::ViewElement => one_tree(0, Sought::Names(mode_at(&parts.skip(1)))),
        _ => all_trees(Sought::ElementLists),
    }
}

/// Lists of names, and what stands for one.
pub(crate) fn inside_names(form: Form, mode: PortMode) -> Seeking
    ensures { result ≡ names_inside form mode }
{
    match form {
        Form::IdentifierList => all_trees(Sought::Names(mode)),
        Form::Association => one_tree(1, Sought::Names(mode)),
        Form::OthersAssociation | Form::UnconstrainedIndex => one_tree(0, Sought::Names(mode)),
        _ => nothing_sought(),
    }
}
