//! Expressions in postfix form.

ghost use Rattle.std.specs.Prelude.{◌≡◌, ◌++◌, OnOk, IfOk};
ghost use Rattle.vd_forest.specs.Forest.{tree_count};
ghost use Rattle.vd_first_processes.specs.Numbering.{number_in};
ghost use Rattle.vd_first_processes.specs.Operations.{operations};

use crate::numbers::Numbers;
use std::alloc::AllocError;
use vd_first_trees::Form;
use vd_forest::Cursor;
use vd_kernel::SignalId;

/// A node of an expression: its form, the object that its own text names, and how many parts it has.
#[derive(Clone, Copy, Debug)]
pub struct Operation {
    pub form: Form,
    pub object: SignalId,
    pub parts: usize,
}

/// Writes the postfix form of some expressions, and says how many they are.
pub fn write_operations(
    out: &mut Vec<Operation>,
    numbers: &Numbers,
    from: &Cursor<'_, Form>,
) -> Result<usize, AllocError>
    ensures operations { OnOk result (out.new.items ≡ out.old.items ++ operations (number_in numbers.now) from.now) }
    ensures count { IfOk result (λ count. count ≡ tree_count from.now) }
{
    let mut left = from.fork();
    let mut count = 0;
    while let Some(first) = left.open() {
        let parts = write_operations(out, numbers, &first.parts)?;
        out.push(Operation {
            form: first.form,
            object: numbers.number(first.text),
            parts,
        })?;
        count += 1;
        left = first.next;
    }
    Ok(count)
}
