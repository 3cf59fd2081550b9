//! What stands at an end and repeats what stands at the head.

ghost use Rattle.std.specs.Prelude.{◌≡◌};
ghost use Rattle.vd_text_rules.specs.Closings.{is_same_designator as same_designator, is_designator as is_designator_at, head_part as part_of_head, closing_part as part_that_closes, name_at_head as head_name, name_in_closing as closing_name, label_part as part_of_label, has_label as is_labelled, is_mark as is_mark_at};
ghost use Rattle.vd_text_rules.specs.TextRules.{refused_unless as refused, other_name as other, other_closing_name as closing_differs, other_label as label_differs, any_name as any, wrong_label as label_is_wrong, mark_without as unmatched, first_mark as unmatched_first, last_mark as unmatched_last};

use vd_bytes::{Place, Refused};
use vd_forest::Cursor;
use vd_forms::Form;

/// A refusal, unless all is well.
pub fn refused_unless(well: bool, place: Place, rule: u16) -> Option<Refused>
    ensures { result ≡ refused well place rule }
{
    if well {
        None
    } else {
        Some(Refused { place, rule })
    }
}

/// Whether two designators are the same.
fn is_same_designator(f: Form, a: &[u8], g: Form, b: &[u8]) -> bool
    ensures { result ≡ same_designator f a.now g b.now }
{
    match (f, g) {
        (Form::Identifier, Form::Identifier) => a == b,
        (Form::Quoted, Form::Quoted) => a.eq_ignore_ascii_case(b),
        _ => false,
    }
}

/// Whether the first tree is this designator.
fn is_designator(head: &Cursor<'_, Form>, form: Form, name: &[u8]) -> bool
    ensures { result ≡ is_designator_at head.now form name.now }
{
    match head.open() {
        None => false,
        Some(first) => is_same_designator(first.form, first.text, form, name),
    }
}

/// The part of a unit or declaration that has the name at its head.
fn head_part(form: Form) -> u32
    ensures { result ≡ part_of_head form }
{
    match form {
        Form::FunctionBody => 1,
        _ => 0,
    }
}

/// The part that closes a unit or declaration.
fn closing_part(form: Form) -> Option<u32>
    ensures { result ≡ part_that_closes form }
{
    match form {
        Form::ContextDeclaration | Form::PackageBody => Some(2),
        Form::EntityDeclaration | Form::PackageDeclaration | Form::ViewDeclaration => Some(3),
        Form::ArchitectureBody => Some(4),
        Form::FunctionBody => Some(8),
        Form::TypeDeclaration => Some(1),
        _ => None,
    }
}

/// The name at the head.
fn name_at_head<'a>(head: &Cursor<'a, Form>) -> Cursor<'a, Form>
    ensures { result ≡ head_name head.now }
{
    match head.form() {
        Some(Form::SelectedName) => head.parts(),
        _ => head.fork(),
    }
}

/// The name in what closes a unit or declaration.
fn name_in_closing<'a>(closing: &Cursor<'a, Form>) -> Cursor<'a, Form>
    ensures { result ≡ closing_name closing.now }
{
    match closing.form() {
        Some(Form::Closing | Form::FunctionClosing | Form::RecordType) => closing.parts().skip(1),
        _ => closing.fork(),
    }
}

/// The part of a statement in which its label may stand again.
fn label_part(form: Form) -> Option<u32>
    ensures { result ≡ part_of_label form }
{
    match form {
        Form::LoopStatement => Some(1),
        Form::WhileLoop | Form::CaseGenerate => Some(2),
        Form::ForLoop | Form::ForGenerate => Some(3),
        Form::IfStatement | Form::CaseStatement | Form::ProcessStatement | Form::IfGenerate => {
            Some(4)
        }
        _ => None,
    }
}

/// Whether a statement has a label in front.
pub fn has_label(form: Form) -> bool
    ensures { result ≡ is_labelled form }
{
    matches!(form, Form::LabelledStatement | Form::LabelledConcurrent)
}

/// The refusal of a name at an end that is another than at the head.
fn other_name(head: &Cursor<'_, Form>, end: &Cursor<'_, Form>) -> Option<Refused>
    ensures { result ≡ other head.now end.now }
{
    let name = end.open()?;
    match name.form {
        Form::Identifier | Form::Quoted => {
            let same = is_designator(head, name.form, name.text);
            refused_unless(same, name.place, 307)
        }
        _ => None,
    }
}

/// The refusal of the name at the end of a unit or declaration.
pub fn other_closing_name(form: Form, parts: &Cursor<'_, Form>) -> Option<Refused>
    ensures { result ≡ closing_differs form parts.now }
{
    match closing_part(form) {
        None => None,
        Some(number) => {
            let head = name_at_head(&parts.skip(head_part(form)));
            let end = name_in_closing(&parts.skip(number));
            other_name(&head, &end)
        }
    }
}

/// The refusal of another label at the end of a statement with a label.
fn other_label(label: &Cursor<'_, Form>, statement: &Cursor<'_, Form>) -> Option<Refused>
    ensures { result ≡ label_differs label.now statement.now }
{
    match statement.open() {
        None => None,
        Some(first) => match label_part(first.form) {
            None => None,
            Some(number) => other_name(label, &first.parts.skip(number)),
        },
    }
}

/// The refusal of a label at the end of a statement without one.
fn any_name(end: &Cursor<'_, Form>) -> Option<Refused>
    ensures { result ≡ any end.now }
{
    match end.open() {
        None => None,
        Some(first) => match first.form {
            Form::Identifier => Some(Refused {
                place: first.place,
                rule: 307,
            }),
            _ => None,
        },
    }
}

/// The refusal of the label at the end of a statement. One behind a label is asked for with that label.
pub fn wrong_label(labelled: bool, form: Form, parts: &Cursor<'_, Form>) -> Option<Refused>
    ensures { result ≡ label_is_wrong labelled form parts.now }
{
    if has_label(form) {
        return other_label(parts, &parts.skip(1));
    }
    if labelled {
        return None;
    }
    match label_part(form) {
        None => None,
        Some(number) => any_name(&parts.skip(number)),
    }
}

/// Whether the first tree is the mark of a matching case.
fn is_mark(tree: &Cursor<'_, Form>) -> bool
    ensures { result ≡ is_mark_at tree.now }
{
    matches!(tree.form(), Some(Form::Matching))
}

/// The refusal of a mark without one at the other end.
fn mark_without(place: Place, mark: &Cursor<'_, Form>, other: &Cursor<'_, Form>) -> Option<Refused>
    ensures { result ≡ unmatched place mark.now other.now }
{
    if is_mark(mark) && !is_mark(other) {
        let at = mark.place().unwrap_or(place);
        return Some(Refused {
            place: at,
            rule: 307,
        });
    }
    None
}

/// The refusal of a mark at the head of a case that its end doesn't have.
pub fn first_mark(form: Form, place: Place, parts: &Cursor<'_, Form>) -> Option<Refused>
    ensures { result ≡ unmatched_first form place parts.now }
{
    match form {
        Form::CaseStatement => mark_without(place, parts, &parts.skip(3)),
        _ => None,
    }
}

/// The refusal of a mark at the end of a case that its head doesn't have.
pub fn last_mark(form: Form, place: Place, parts: &Cursor<'_, Form>) -> Option<Refused>
    ensures { result ≡ unmatched_last form place parts.now }
{
    match form {
        Form::CaseStatement => mark_without(place, &parts.skip(3), parts),
        _ => None,
    }
}
