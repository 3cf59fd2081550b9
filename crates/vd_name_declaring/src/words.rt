//! What is declared under the name that was read last.

ghost use Rattle.std.specs.Prelude.{◌≡◌, IfOk};
ghost use Rattle.vd_name_rows.specs.Entering.{declaration_of};

use std::alloc::{AllocError, Global};
use vd_declarations::{Class, Declaration, TypeId};
use vd_name_entering::{Ended, named_at};

/// A declaration of a class and a type under the name that was read last in the parts of a node.
pub fn declared_word(
    alloc: Global,
    class: &Class,
    ended: &Ended<'_, '_>,
    mark: Option<TypeId>,
) -> Result<Declaration, AllocError>
    ensures { IfOk result (λ made. made ≡
        declaration_of class.now (record { name = ended.now.inner.now.at.word; place = ended.now.inner.now.at.word_place }) mark) }
{
    let inner = ended.inner;
    named_at(alloc, *class, &inner.at, mark)
}
