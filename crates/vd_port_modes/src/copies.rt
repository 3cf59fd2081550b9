//! What an instance of a package declares for what the package declares.

ghost use Rattle.std.specs.Prelude.{◌≡◌, ◌++◌, IfOk, OnOk, ℕ, nat_eq};
ghost use Rattle.std.specs.HashMap.{get};
ghost use Rattle.vd_meaning.specs.Elaborations.{copied, mode_as, number_as};
ghost use Rattle.vd_meaning.specs.Tables.{pairs};
ghost use Rattle.vd_port_lists.specs.Modes.{read_mode};
ghost use Rattle.vd_port_modes.specs.Source.{copies_there, declared_there};

use std::alloc::{AllocError, Global};
use std::collections::HashMap;
use std::marker::Model;
use vd_declarations::{DeclId, Declaration};
use vd_port_lists::{ListedInstance, PortMode};

/// The declarations of a package, each with that which an instance declares for it. Contracts see the list of the pairs, of which
/// the first for a declaration counts.
#[derive(Drop)]
pub struct Copies {
    pairs: Vec<(u32, u32)>,
    table: HashMap<u32, u32>,
}

impl Model for Copies {
    ghost use Rattle.std.specs.Prelude.{◌≡◌, ℕ, List, nat_eq};
    ghost use Rattle.std.specs.Coded.{coded_list, coded×, coded_ℕ};
    ghost use Rattle.std.specs.HashMap.{get};
    ghost use Rattle.vd_meaning.specs.Elaborations.{copied};

    ghost Value = { List (ℕ × ℕ) };

    ghost coded = { coded_list (coded× coded_ℕ coded_ℕ) };

    ghost view = { λ a. a.pairs.items };

    ghost invariant = { λ a. (n : ℕ) → get nat_eq a.table n ≡ copied a.pairs.items n };
}

impl Copies {
    /// Of an instance.
    pub fn of(
        alloc: Global,
        declarations: &[Declaration],
        instance: &ListedInstance,
    ) -> Result<Copies, AllocError>
        ensures { IfOk result (λ copies. copies ≡ copies_there declarations.now instance.now) }
    {
        let pairs = pairs_of(alloc, declarations, instance)?;
        let table = table_of(alloc, &pairs)?;
        Ok(Copies { pairs, table })
    }

    /// What stands for a declaration in the instance.
    pub fn copy(&self, number: DeclId) -> Option<u32>
        ensures { result ≡ copied self.now number }
    {
        self.table.get(&number.number()).copied()
    }

    /// A declaration, or what stands for it in the instance.
    pub fn number(&self, number: Option<DeclId>) -> Option<DeclId>
        ensures { result ≡ number_as self.now number }
    {
        let Some(number) = number else {
            return None;
        };
        match self.copy(number) {
            Some(copy) => Some(DeclId::of(copy)),
            None => Some(number),
        }
    }

    /// A mode as the instance has it.
    pub fn mode(&self, mode: PortMode) -> PortMode
        ensures { read_mode result ≡ mode_as self.now (read_mode mode) }
    {
        match mode {
            PortMode::Plain(plain) => PortMode::Plain(plain),
            PortMode::ByView { view, is_converse } => PortMode::ByView {
                view: self.number(view),
                is_converse,
            },
        }
    }
}

/// What a package or an instance of it declares, its generics first.
fn declared_in(
    alloc: Global,
    declarations: &[Declaration],
    number: DeclId,
) -> Result<Vec<u32>, AllocError>
    ensures { IfOk result (λ ns. ns.items ≡ declared_there declarations.now number) }
{
    let mut numbers = Vec::new(alloc);
    if let Some(declaration) = declarations.get(number.number() as usize) {
        add_numbers(&mut numbers, declaration.generics.as_slice())?;
        add_numbers(&mut numbers, declaration.parameters.as_slice())?;
    }
    Ok(numbers)
}

fn add_numbers(numbers: &mut Vec<u32>, ids: &[DeclId]) -> Result<(), AllocError>
    ensures { OnOk result (numbers.new.items ≡ numbers.old.items ++ ids.now) }
{
    for id in ids {
        numbers.push(id.number())?;
    }
    Ok(())
}

/// The pairs, as far as both lists go.
fn pairs_of(
    alloc: Global,
    declarations: &[Declaration],
    instance: &ListedInstance,
) -> Result<Vec<(u32, u32)>, AllocError>
    ensures { IfOk result (λ pairs. pairs.items ≡ copies_there declarations.now instance.now) }
{
    let generic = declared_in(alloc, declarations, instance.generic)?;
    let copies = declared_in(alloc, declarations, instance.instance)?;
    let pairs = side_by_side(alloc, &generic, &copies)?;
    Ok(pairs)
}

#[tactic(auto, using(crate::proofs::CopyLemmas::pairs_more, crate::proofs::CopyLemmas::pairs_all))]
fn side_by_side(
    alloc: Global,
    generic: &[u32],
    copies: &[u32],
) -> Result<Vec<(u32, u32)>, AllocError>
    ensures { IfOk result (λ made. made.items ≡ pairs generic.now copies.now) }
{
    let mut made = Vec::new(alloc);
    for at in 0..generic.len().min(copies.len()) {
        made.push((generic[at], copies[at]))?;
    }
    Ok(made)
}

/// The table of the pairs. The last is put first, so that the first counts.
fn table_of(alloc: Global, pairs: &[(u32, u32)]) -> Result<HashMap<u32, u32>, AllocError>
    ensures { IfOk result (λ table. (n : ℕ) → get nat_eq table n ≡ copied pairs.now n) }
{
    let mut table = HashMap::new(alloc);
    let mut left = pairs.len();
    while left > 0 {
        left -= 1;
        let (number, copy) = pairs[left];
        table.insert(number, copy)?;
    }
    Ok(table)
}
