//! Several declarations of one class and type.

ghost use Rattle.std.specs.Prelude.{IfOk};
ghost use Rattle.vd_name_rows.specs.Words.{declared_name};
ghost use Rattle.vd_name_rows.specs.Entering.{words_of, declaration_of, entering, entering_words};
ghost use Rattle.vd_name_entering.specs.Entered.{IsEntered};

use crate::declarations::declaration_of as new_declaration;
use crate::entering::enter;
use std::alloc::{AllocError, Global};
use vd_bytes::Refused;
use vd_declarations::{Class, RegionId, TypeId};
use vd_forest::{Cursor, Opened};
use vd_forms::Form;
use vd_name_rows::{Names, Word};
use vd_walks::lesser;

/// Enters the name of a node.
fn enter_word(
    alloc: Global,
    names: &mut Names,
    region: RegionId,
    class: Class,
    mark: Option<TypeId>,
    node: &Opened<'_, Form>,
) -> Result<Option<Refused>, AllocError>
    ensures { IfOk result (λ first. IsEntered names.new first
        (entering region (declaration_of class (record { name = declared_name node.now.form node.now.text.now; place = node.now.place }) mark) names.old)) }
{
    let word = Word {
        form: node.form,
        text: node.text,
    };
    let name = word.name(alloc)?;
    let declared = new_declaration(alloc, class, name.as_slice(), node.place, mark)?;
    enter(names, region, declared)
}

/// Enters the names of a list, each of this class and type, in their order.
pub fn enter_words(
    alloc: Global,
    names: &mut Names,
    region: RegionId,
    class: &Class,
    mark: &Option<TypeId>,
    list: &Cursor<'_, Form>,
) -> Result<Option<Refused>, AllocError>
    ensures { IfOk result (λ first. IsEntered names.new first (entering_words region class.now mark.now (words_of list.now) names.old)) }
{
    let mut first = None;
    let mut left = list.fork();
    while let Some(node) = left.open() {
        let refused = enter_word(alloc, names, region, *class, *mark, &node)?;
        first = lesser(first, refused);
        left = node.next;
    }
    Ok(first)
}
