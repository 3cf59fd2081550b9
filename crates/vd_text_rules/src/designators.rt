//! Operator symbols as designators of functions.

ghost use Rattle.std.specs.Prelude.{◌≡◌, ◌≤◌, min, [], ◌∷◌, codes};
ghost use Rattle.vd_forest.specs.Forest.{tree_count};
ghost use Rattle.vd_text_rules.specs.Designators.{is_one_of, logical, relational, matching, shifts, signs, other_binary, other_unary, is_2019 as is_of_2019, is_unary as is_unary_operator, is_binary as is_binary_operator, is_operator as is_operator_of, parameters_part as part_of_parameters, parameter_count as count_of_parameters};
ghost use Rattle.vd_text_rules.specs.TextRules.{no_operator as is_no_operator, no_operator_of as designator_is_no_operator};

use crate::closings::refused_unless;
use vd_bytes::Refused;
use vd_forest::Cursor;
use vd_forms::Form;
use vd_trees::Revision;

/// Whether a text is one of six symbols, in either case of letters.
fn is_logical(text: &[u8]) -> bool
    ensures { result ≡ is_one_of logical text.now }
{
    text.eq_ignore_ascii_case(b"and".as_slice())
        || text.eq_ignore_ascii_case(b"or".as_slice())
        || text.eq_ignore_ascii_case(b"nand".as_slice())
        || text.eq_ignore_ascii_case(b"nor".as_slice())
        || text.eq_ignore_ascii_case(b"xor".as_slice())
        || text.eq_ignore_ascii_case(b"xnor".as_slice())
}

/// Whether a text is a relational operator of both revisions.
fn is_relational(text: &[u8]) -> bool
    ensures { result ≡ is_one_of relational text.now }
{
    text.eq_ignore_ascii_case(b"=".as_slice())
        || text.eq_ignore_ascii_case(b"/=".as_slice())
        || text.eq_ignore_ascii_case(b"<".as_slice())
        || text.eq_ignore_ascii_case(b"<=".as_slice())
        || text.eq_ignore_ascii_case(b">".as_slice())
        || text.eq_ignore_ascii_case(b">=".as_slice())
}

/// Whether a text is a matching relational operator.
fn is_matching(text: &[u8]) -> bool
    ensures { result ≡ is_one_of matching text.now }
{
    text.eq_ignore_ascii_case(b"?=".as_slice())
        || text.eq_ignore_ascii_case(b"?/=".as_slice())
        || text.eq_ignore_ascii_case(b"?<".as_slice())
        || text.eq_ignore_ascii_case(b"?<=".as_slice())
        || text.eq_ignore_ascii_case(b"?>".as_slice())
        || text.eq_ignore_ascii_case(b"?>=".as_slice())
}

/// Whether a text is a shift.
fn is_shift(text: &[u8]) -> bool
    ensures { result ≡ is_one_of shifts text.now }
{
    text.eq_ignore_ascii_case(b"sll".as_slice())
        || text.eq_ignore_ascii_case(b"srl".as_slice())
        || text.eq_ignore_ascii_case(b"sla".as_slice())
        || text.eq_ignore_ascii_case(b"sra".as_slice())
        || text.eq_ignore_ascii_case(b"rol".as_slice())
        || text.eq_ignore_ascii_case(b"ror".as_slice())
}

/// Whether a text is a sign.
fn is_sign(text: &[u8]) -> bool
    ensures { result ≡ is_one_of signs text.now }
{
    text.eq_ignore_ascii_case(b"+".as_slice()) || text.eq_ignore_ascii_case(b"-".as_slice())
}

/// Whether a text is another operator on two operands.
fn is_other_binary(text: &[u8]) -> bool
    ensures { result ≡ is_one_of other_binary text.now }
{
    text.eq_ignore_ascii_case(b"&".as_slice())
        || text.eq_ignore_ascii_case(b"*".as_slice())
        || text.eq_ignore_ascii_case(b"/".as_slice())
        || text.eq_ignore_ascii_case(b"mod".as_slice())
        || text.eq_ignore_ascii_case(b"rem".as_slice())
        || text.eq_ignore_ascii_case(b"**".as_slice())
}

/// Whether a text is another operator on one operand.
fn is_other_unary(text: &[u8]) -> bool
    ensures { result ≡ is_one_of other_unary text.now }
{
    text.eq_ignore_ascii_case(b"abs".as_slice()) || text.eq_ignore_ascii_case(b"not".as_slice())
}

/// Whether a text is the operator of conditions.
fn is_condition(text: &[u8]) -> bool
    ensures { result ≡ is_one_of (codes "??" ∷ []) text.now }
{
    text.eq_ignore_ascii_case(b"??".as_slice())
}

fn is_2019(revision: Revision) -> bool
    ensures { result ≡ is_of_2019 revision }
{
    matches!(revision, Revision::V2019)
}

/// Whether a text is an operator on one operand.
fn is_unary(revision: Revision, text: &[u8]) -> bool
    ensures { result ≡ is_unary_operator revision text.now }
{
    is_sign(text)
        || is_other_unary(text)
        || (is_2019(revision) && (is_logical(text) || is_condition(text)))
}

/// Whether a text is an operator on two operands.
fn is_binary(revision: Revision, text: &[u8]) -> bool
    ensures { result ≡ is_binary_operator revision text.now }
{
    is_logical(text)
        || is_relational(text)
        || is_shift(text)
        || is_sign(text)
        || is_other_binary(text)
        || (is_2019(revision) && is_matching(text))
}

/// Whether a text is an operator of the revision with so many operands, in either case of letters.
pub fn is_operator(revision: Revision, text: &[u8], operands: u32) -> bool
    ensures { result ≡ is_operator_of revision text.now operands }
{
    (operands == 1 && is_unary(revision, text)) || (operands == 2 && is_binary(revision, text))
}

/// How many trees there are, up to three.
fn few_trees(list: &Cursor<'_, Form>) -> u32
    ensures { result ≡ min (tree_count list.now) 3 }
{
    let mut count: u32 = 0;
    let mut rest = list.fork();
    while let Some(first) = rest.open() {
        count = (count + 1).min(3);
        rest = first.next;
    }
    count
}

/// How many parameters there are, up to three.
fn few_parameters(list: &Cursor<'_, Form>) -> u32
    ensures { result ≡ min (count_of_parameters list.now) 3 }
{
    let mut count: u32 = 0;
    let mut rest = list.fork();
    while let Some(first) = rest.open() {
        let names = few_trees(&first.parts.skip(1).parts());
        count = (count + names).min(3);
        rest = first.next;
    }
    count
}

/// Where the parameters of a function stand.
fn parameters_part(form: Form) -> Option<u32>
    ensures { result ≡ part_of_parameters form }
{
    match form {
        Form::FunctionDeclaration | Form::FunctionBody => Some(4),
        Form::GenericFunction => Some(2),
        _ => None,
    }
}

/// The refusal of a designator in quotation marks.
fn no_operator(
    revision: Revision,
    designator: &Cursor<'_, Form>,
    list: &Cursor<'_, Form>,
) -> Option<Refused>
    ensures { result ≡ is_no_operator revision designator.now list.now }
{
    let name = designator.open()?;
    match name.form {
        Form::Quoted => {
            let operands = few_parameters(&list.parts());
            refused_unless(is_operator(revision, name.text, operands), name.place, 307)
        }
        _ => None,
    }
}

/// The refusal of a function's designator that is no operator with as many operands as the function has parameters.
pub fn no_operator_of(revision: Revision, form: Form, parts: &Cursor<'_, Form>) -> Option<Refused>
    ensures { result ≡ designator_is_no_operator revision (part_of_parameters form) parts.now }
{
    match parameters_part(form) {
        None => None,
        Some(number) => no_operator(revision, &parts.skip(1), &parts.skip(number)),
    }
}
