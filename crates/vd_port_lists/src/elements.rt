//! Elements of a view.

ghost use Rattle.std.specs.Prelude.{◌≡◌, IfOk, OnOk, None, map, ℕ, List};
ghost use Rattle.vd_meaning.specs.Instances.{element_mode};
ghost use Rattle.vd_port_lists.specs.Listed.{read_element};
ghost use Rattle.vd_port_lists.specs.Modes.{read_mode};
ghost use Rattle.vd_port_lists.specs.Named.{first_named, value_named};

use crate::entries::ListedElement;
use crate::modes::{Mode, PortMode};
use indexmap::IndexMap;
use std::alloc::{AllocError, Global};
use std::marker::Model;

/// The elements of a view, of which of two with one name the first counts. Contracts see the list of them.
#[derive(Drop)]
pub struct Elements {
    listed: Vec<ListedElement>,
    modes: IndexMap<Vec<u8>, PortMode>,
}

impl Model for Elements {
    ghost use Rattle.std.specs.Prelude.{◌≡◌, ℕ, List};
    ghost use Rattle.std.specs.Coded.{coded_list};
    ghost use Rattle.vd_port_lists.specs.declared.entries.ListedElement.{ListedElement};
    ghost use Rattle.vd_port_lists.specs.contracts.entries.ListedElement as entries;
    ghost use Rattle.vd_port_lists.specs.Named.{first_named, value_named};

    ghost Value = { List ListedElement };

    ghost coded = { coded_list entries.the_row.coded };

    ghost view = { λ a. a.listed.items };

    ghost invariant = { λ a. (name : List ℕ) → value_named a.modes.entries (λ key. key.items) name ≡ first_named a.listed.items name };
}

impl Elements {
    /// These elements.
    pub fn of(alloc: Global, listed: Vec<ListedElement>) -> Result<Elements, AllocError>
        ensures { IfOk result (λ elements. elements ≡ listed.items) }
    {
        let modes = modes_by_name(alloc, &listed)?;
        Ok(Elements { listed, modes })
    }

    /// The elements, in the order of the view.
    pub fn listed(&self) -> &[ListedElement]
        ensures { result.now ≡ self.now }
    {
        self.listed.as_slice()
    }

    /// The mode or view of the first element of a name.
    fn named(&self, name: &[u8]) -> Option<PortMode>
        ensures { result ≡ first_named self.now name.now }
    {
        self.modes.get(name).copied()
    }

    /// The mode or view of an element by its name; `in` where there is none of the name.
    #[tactic(auto, using(crate::proofs::ElementLemmas::modes_are_read))]
    pub fn mode(&self, name: &[u8]) -> PortMode
        ensures { read_mode result ≡ element_mode (map read_element self.now) name.now }
    {
        match self.named(name) {
            Some(mode) => mode,
            None => PortMode::Plain(Mode::Input),
        }
    }
}

/// The modes by the names. The last element is put first, so that the first counts.
fn modes_by_name(
    alloc: Global,
    listed: &[ListedElement],
) -> Result<IndexMap<Vec<u8>, PortMode>, AllocError>
    ensures { IfOk result (λ modes. (name : List ℕ) → value_named modes.entries (λ key. key.items) name ≡ first_named listed.now name) }
{
    let mut modes = IndexMap::new(alloc);
    let mut left = listed.len();
    while left > 0 {
        left -= 1;
        let element = &listed[left];
        let name = Vec::from_slice(alloc, element.name.as_slice())?;
        modes.insert(name, element.mode)?;
    }
    Ok(modes)
}
