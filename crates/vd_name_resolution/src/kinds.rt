//! What steps do with a tree.

ghost use Rattle.std.specs.Prelude.{◌≡◌};
ghost use Rattle.vd_name_resolution.specs.Kinds.{kind_of as step_kind, is_open_index as opens_index, goes_inside as walks_parts, is_within as stays_in_region, is_of_view as stands_behind_view};

use vd_forms::{Form, is_expression};
use vd_name_rows::Step;

/// What a step does with a tree.
#[derive(Clone, Copy)]
pub enum Kind {
    /// A word, a label, or the name of a type or view.
    Word,
    /// An expression, a range or a mark.
    Expression,
    /// A name in a clause, of a unit, or of what is instantiated.
    Clause,
    /// A generic map or a port map.
    Map,
    /// Its parts are walked.
    Inside,
}

/// What a step does with a tree whose parts aren't walked.
pub fn kind_of(step: Step) -> Kind
    ensures { result ≡ step_kind step }
{
    match step {
        Step::Skip
        | Step::Word
        | Step::SimpleName
        | Step::Names
        | Step::Label
        | Step::LabelName
        | Step::Mark
        | Step::ViewName
        | Step::Converse => Kind::Word,
        Step::Expression(_)
        | Step::Chosen
        | Step::Surplus
        | Step::Target
        | Step::Selector
        | Step::Parameter(_)
        | Step::IndexMark
        | Step::ArrayIndex
        | Step::Result => Kind::Expression,
        Step::LibraryWord
        | Step::UseName
        | Step::ContextName
        | Step::EntityWord
        | Step::ElementNames
        | Step::InstanceEntity
        | Step::InstanceArchitecture
        | Step::GenericPackage
        | Step::GenericFunctionName => Kind::Clause,
        Step::Generics | Step::Ports => Kind::Map,
        Step::Look | Step::Within | Step::ViewSubtype => Kind::Inside,
    }
}

/// Whether it is the index of an array type of any bounds.
fn is_open_index(form: Form) -> bool
    ensures { result ≡ opens_index form }
{
    matches!(form, Form::UnconstrainedIndex)
}

/// Whether the parts of a tree of this form are walked.
pub fn goes_inside(step: Step, form: Form) -> bool
    ensures { result ≡ walks_parts step form }
{
    match step {
        Step::Look | Step::Within | Step::ViewSubtype => true,
        Step::Chosen => !is_expression(form),
        Step::ArrayIndex => is_open_index(form),
        _ => false,
    }
}

/// Whether a step stays in the region that is open.
pub(crate) fn is_within(step: Step) -> bool
    ensures { result ≡ stays_in_region step }
{
    matches!(step, Step::Within)
}

/// Whether a step is that of the subtype behind a view.
pub(crate) fn is_of_view(step: Step) -> bool
    ensures { result ≡ stands_behind_view step }
{
    matches!(step, Step::ViewSubtype)
}
