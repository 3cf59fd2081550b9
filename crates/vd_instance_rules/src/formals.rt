//! Formals: which ports may be converted.

ghost use Rattle.std.specs.Prelude.{◌≡◌};
ghost use Rattle.vd_instance_rules.specs.Instances.{is_wrongly_converted as is_converted_wrongly, read_association};
ghost use Rattle.vd_meaning.specs.Tables.{is_vector as is_vector_type};
ghost use Rattle.vd_port_associations.specs.Associations.{read_formal};
ghost use Rattle.vd_port_lists.specs.Modes.{read_mode, read_plain};
ghost use Rattle.vd_port_modes.specs.Source.{design_in};
ghost use Rattle.vd_value_rules.specs.Groups.{firsts_of};
ghost use Rattle.vd_value_rules.specs.Actuals.{formal_broken, is_of_vector_type as has_vector_type, is_open_actual as is_open_at, is_open_form as is_form_open, may_be_converted as is_convertible, port_of_formal};

use crate::firsts::firsts_if;
use vd_declarations::DeclId;
use vd_forest::Cursor;
use vd_forms::Form;
use vd_operations::tables::mark_of;
use vd_port_associations::associations::PortAssociation;
use vd_port_associations::formals::FormalSort;
use vd_port_lists::{Mode, PortMode};
use vd_port_modes::Interfaces;
use vd_predefined::numbers::{STD_LOGIC_VECTOR, STD_ULOGIC_VECTOR};
use vd_resolved::Resolved;
use vd_value_rules::{Firsts, nothing_refused};

/// Whether a mark is one of the vector types of IEEE 1164.
pub(crate) fn is_vector(mark: DeclId) -> bool
    ensures { result ≡ is_vector_type mark }
{
    let number = mark.number();
    number == STD_ULOGIC_VECTOR || number == STD_LOGIC_VECTOR
}

/// Whether a port is of one of them.
fn is_of_vector_type(interfaces: &Interfaces<'_>, port: DeclId) -> bool
    ensures { result ≡ has_vector_type (design_in interfaces.now) port }
{
    match mark_of(interfaces.declarations(), port.number()) {
        Some(mark) => is_vector(DeclId::of(mark.number())),
        None => false,
    }
}

/// Whether a conversion of a port to a vector type may stand in front of `=>`, by its mode.
fn may_be_converted(interfaces: &Interfaces<'_>, port: DeclId, mode: PortMode) -> bool
    ensures { result ≡ is_convertible (design_in interfaces.now) port (read_mode mode) }
{
    match mode {
        PortMode::Plain(Mode::Input) => false,
        PortMode::Plain(Mode::Output) => true,
        PortMode::Plain(Mode::BothWays) => is_of_vector_type(interfaces, port),
        PortMode::ByView { .. } => false,
    }
}

/// Whether a tree of a form is `open`.
pub(crate) fn is_open_form(form: Form) -> bool
    ensures { result ≡ is_form_open form }
{
    matches!(form, Form::Open)
}

/// Whether the first of these trees is `open`, or there is none.
fn is_open_actual(actual: &Cursor<'_, Resolved>) -> bool
    ensures { result ≡ is_open_at actual.now }
{
    match actual.open() {
        None => true,
        Some(first) => is_open_form(first.form.form),
    }
}

/// The port that a formal is.
pub(crate) fn port_of(formal: FormalSort) -> Option<DeclId>
    ensures { result ≡ port_of_formal (read_formal formal) }
{
    match formal {
        FormalSort::WholePort { port } => Some(port),
        FormalSort::ConvertedPort { port, .. } => Some(port),
        FormalSort::NoFormal => None,
    }
}

/// Whether a port may be converted to this mark, and has an actual then.
fn is_wrongly_converted(
    interfaces: &Interfaces<'_>,
    mark: DeclId,
    port: DeclId,
    actual: &Cursor<'_, Resolved>,
) -> bool
    ensures { result ≡ is_converted_wrongly (design_in interfaces.now) mark port actual.now }
{
    let mode = interfaces.mode_of_port(port);
    is_open_actual(actual) || !(is_vector(mark) && may_be_converted(interfaces, port, mode))
}

/// What the formal of an association breaks.
pub(crate) fn formal_refusals(
    interfaces: &Interfaces<'_>,
    association: &PortAssociation<'_>,
) -> Firsts
    ensures { result ≡ firsts_of (formal_broken (design_in interfaces.now) (read_formal association.now.formal) (read_association association.now)) }
{
    let place = association.place;
    match association.formal {
        FormalSort::WholePort { .. } => nothing_refused(),
        FormalSort::ConvertedPort { mark, port } => {
            let is_wrong = is_wrongly_converted(interfaces, mark, port, &association.actual);
            firsts_if(is_wrong, place, 310)
        }
        FormalSort::NoFormal => firsts_if(true, place, 310),
    }
}
