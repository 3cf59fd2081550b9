//! Bodies, and the texts that are left behind nodes.

ghost use Rattle.std.specs.Prelude.{◌≡◌, IfOk};
ghost use Rattle.vd_body_rules.specs.Texts.{known_texts, or_nothing, texted};
ghost use Rattle.vd_body_rules.specs.Walk.{knowing, texts_left as texts_behind};
ghost use Rattle.vd_walks.specs.Least.{least_of};
ghost use Rattle.vd_meaning.specs.Meanings.{made};
ghost use Rattle.vd_meaning.specs.Names.{number_or};
ghost use Rattle.vd_value_rules.specs.Bodies.{body_broken, differs as differ};
ghost use Rattle.vd_value_rules.specs.Declaring.{declaring};
ghost use Rattle.vd_value_rules.specs.Designs.{Design};
ghost use Rattle.vd_value_rules.specs.Judging.{refused_if as refused_where};
ghost use Rattle.vd_value_rules.specs.Knowledge.{meaning_at};
ghost use Rattle.vd_forms.specs.declared.form.Form.TheVariants as forms;

use crate::declaring::{Declares, declared_by};
use crate::differs;
use crate::texts::Texts;
use std::alloc::{AllocError, Global};
use vd_bytes::{Place, Refused};
use vd_forest::{Cursor, Opened};
use vd_forms::Form;
use vd_operations::number_made;
use vd_resolved::Resolved;
use vd_value_rules::refused_if;

/// The number of the function that a node declares.
fn function_number(node: &Opened<'_, Resolved>) -> u32
    ensures { (d : Design) → result ≡ number_or (made node.now.form (meaning_at d 1 node.now.parts)) }
{
    let name = node.parts.skip(1);
    number_made(&node.form, &name).number()
}

/// The refusal of a body whose function has this text.
fn refused_by(
    alloc: Global,
    text: &Option<Cursor<'_, Resolved>>,
    place: Place,
    parts: &Cursor<'_, Resolved>,
) -> Result<Option<Refused>, AllocError>
    ensures { IfOk result (λ refused. (d : Design) → refused ≡ least_of (refused_where (differ d (or_nothing text.now) parts.now) place 409)) }
{
    match text {
        None => Ok(None),
        Some(own) => {
            let other = differs(alloc, own, parts)?;
            Ok(refused_if(other, place, 409))
        }
    }
}

/// The refusal of a body, where these texts are known.
fn refused_body(
    alloc: Global,
    texts: &Texts<'_>,
    node: &Opened<'_, Resolved>,
) -> Result<Option<Refused>, AllocError>
    ensures { IfOk result (λ refused. (d : Design)
        → refused ≡ least_of (body_broken forms.FunctionBody d (knowing (known_texts texts.now)) node.now.form node.now.place node.now.parts)) }
{
    let number = function_number(node);
    let text = texts.text_of(number);
    let refused = refused_by(alloc, &text, node.place, &node.parts)?;
    Ok(refused)
}

/// The refusal of a node, where these texts are known.
pub fn refused_at(
    alloc: Global,
    texts: &Texts<'_>,
    node: &Opened<'_, Resolved>,
) -> Result<Option<Refused>, AllocError>
    ensures { IfOk result (λ refused. (d : Design)
        → refused ≡ least_of (body_broken node.now.form.form d (knowing (known_texts texts.now)) node.now.form node.now.place node.now.parts)) }
{
    match node.form.form {
        Form::FunctionBody => refused_body(alloc, texts, node),
        _ => Ok(None),
    }
}

/// What is left of the texts behind a node in front of which there were so many.
pub fn texts_left<'a>(
    alloc: Global,
    texts: Texts<'a>,
    count: usize,
    node: &Opened<'a, Resolved>,
) -> Result<Texts<'a>, AllocError>
    ensures { IfOk result (λ left. (d : Design)
        → left ≡ texts_behind (texted (declaring node.now.form.form)) d node.now.form node.now.parts count texts.entry) }
{
    match declared_by(node.form.form) {
        Declares::Inside => Ok(texts),
        Declares::Function => {
            let number = function_number(node);
            let left = texts.add(number, node.parts.fork())?;
            Ok(left)
        }
        Declares::Nothing => {
            let left = texts.back_to(alloc, count)?;
            Ok(left)
        }
    }
}
