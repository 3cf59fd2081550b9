//! The elements that a view gives.

ghost use Rattle.std.specs.Prelude.{◌≡◌, Some, IfOk, OnOk, [], ◌∷◌};
ghost use Rattle.vd_naming.specs.Views.{declarations_of, elements_given};
ghost use Rattle.vd_name_declaring.specs.Counted.{count_of, is_counted_ill, AreAdded, AreGiven};

use std::alloc::{AllocError, Global};
use std::collections::HashMap;
use vd_declarations::DeclId;
use vd_forest::Cursor;
use vd_resolved::Resolved;

/// How often each element is given, and whether all that are given are known.
#[derive(Drop)]
pub(crate) struct Given {
    pub(crate) times: HashMap<u32, u32>,
    pub(crate) all_known: bool,
}

impl Given {
    /// None is given.
    fn new(alloc: Global) -> Given
        ensures { AreGiven result [] }
    {
        Given {
            times: HashMap::new(alloc),
            all_known: true,
        }
    }

    /// How often an element is given.
    fn times_given(&self, element: u32) -> u32
        ensures { result ≡ count_of self.now.times element }
    {
        match self.times.get(&element) {
            Some(times) => *times,
            None => 0,
        }
    }

    /// One element more. After an Err nothing is known of any.
    #[tactic(auto, using(crate::proofs::CountLemmas::one_added))]
    fn add(&mut self, element: u32) -> Result<(), AllocError>
        ensures { OnOk result (AreAdded self.old self.new (Some element ∷ [])) }
    {
        let Some(times) = self.times_given(element).checked_add(1) else {
            return Err(AllocError);
        };
        self.times.insert(element, times)?;
        Ok(())
    }

    /// What a name names. After an Err nothing is known of any.
    #[tactic(auto, using(crate::proofs::CountLemmas::none_added))]
    fn add_named(&mut self, named: Option<DeclId>) -> Result<(), AllocError>
        ensures { OnOk result (AreAdded self.old self.new (named ∷ [])) }
    {
        match named {
            Some(element) => self.add(element.number()),
            None => {
                self.all_known = false;
                Ok(())
            }
        }
    }

    /// What some names name. After an Err nothing is known of any.
    #[tactic(auto, using(crate::proofs::CountLemmas::names_begun, crate::proofs::CountLemmas::names_counted, crate::proofs::CountLemmas::all_counted))]
    fn add_names(&mut self, names: &Cursor<'_, Resolved>) -> Result<(), AllocError>
        ensures { OnOk result (AreAdded self.old self.new (declarations_of names.now)) }
    {
        let mut left = names.fork();
        while let Some(name) = left.open() {
            self.add_named(name.form.declaration)?;
            left = name.next;
        }
        Ok(())
    }

    /// Whether an element is given several times, or never where all that are given are known.
    pub(crate) fn is_ill_given(&self, element: DeclId) -> bool
        ensures { result ≡ is_counted_ill self.now element }
    {
        let times = self.times_given(element.number());
        times > 1 || (times == 0 && self.all_known)
    }
}

/// The elements that a view gives.
#[tactic(auto, using(crate::proofs::CountLemmas::elements_begun, crate::proofs::CountLemmas::elements_counted, crate::proofs::CountLemmas::all_given))]
pub(crate) fn elements_given(
    alloc: Global,
    elements: &Cursor<'_, Resolved>,
) -> Result<Given, AllocError>
    ensures { IfOk result (λ given. AreGiven given (elements_given elements.now)) }
{
    let mut given = Given::new(alloc);
    let mut left = elements.fork();
    while let Some(element) = left.open() {
        given.add_names(&element.parts.parts())?;
        left = element.next;
    }
    Ok(given)
}
