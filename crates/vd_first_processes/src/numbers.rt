//! The numbers that the names of objects stand for.

ghost use Rattle.std.specs.Prelude.{◌≡◌, ℕ, List, [], ◌∷◌, ◌++◌, map, OnOk, IfOk, if◌then◌else◌};
ghost use Rattle.std.specs.List.{list_any};
ghost use Rattle.std.specs.Str.{bytes_eq};
ghost use Rattle.vd_forest.specs.Texts.{with_text};
ghost use Rattle.vd_trees.specs.declared.paths.Path.{Path as PathValue};
ghost use Rattle.vd_first_elaboration.specs.Processes.{number_of};
ghost use Rattle.vd_first_processes.specs.Numbering.{number_in};

use crate::names::Names;
use std::alloc::{AllocError, Global};
use vd_kernel::SignalId;
use vd_trees::Path;

/// Names with the numbers of their objects, and the number for all other names.
#[derive(Drop)]
pub struct Numbers {
    names: Names,
    firsts: Vec<SignalId>,
    count: usize,
}

// Notes a name with its number, unless it is there.
fn note(
    names: &mut Names,
    firsts: &mut Vec<SignalId>,
    name: &[u8],
    number: usize,
) -> Result<(), AllocError>
    ensures names { OnOk result (names.new ≡ with_text names.old name.now) }
    ensures firsts { OnOk result (firsts.new.items ≡ (if list_any (bytes_eq name.now) names.old then firsts.old.items else firsts.old.items ++ number ∷ [])) }
{
    if names.insert(name)? {
        firsts.push(SignalId::of(number))?;
    }
    Ok(())
}

impl Numbers {
    /// The numbers of the objects of these paths, which is their order. Of objects with one name it is the first that counts.
    pub fn of(alloc: Global, paths: &[Path]) -> Result<Numbers, AllocError>
        ensures { IfOk result (λ table. (name : List ℕ) → number_in table name ≡ number_of (map (λ (p : PathValue). p.object) paths.now) name) }
    {
        let mut names = Names::new(alloc);
        let mut firsts = Vec::new(alloc);
        for i in 0..paths.len() {
            note(&mut names, &mut firsts, paths[i].object.as_slice(), i)?;
        }
        Ok(Numbers {
            names,
            firsts,
            count: paths.len(),
        })
    }

    /// The number of a name.
    pub fn number(&self, name: &[u8]) -> SignalId
        ensures { result ≡ number_in self.now name.now }
    {
        let place = self.names.number(name);
        if place < self.firsts.len() {
            self.firsts[place]
        } else {
            SignalId::of(self.count)
        }
    }

    /// The numbers of some names, in order.
    pub fn numbers(&self, alloc: Global, names: &Names) -> Result<Vec<SignalId>, AllocError>
        ensures { IfOk result (λ v. v.items ≡ map (number_in self.now) names.now) }
    {
        let mut numbers = Vec::new(alloc);
        for i in 0..names.len() {
            numbers.push(self.number(names.get(i)))?;
        }
        Ok(numbers)
    }
}
