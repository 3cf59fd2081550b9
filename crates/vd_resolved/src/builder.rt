//! Building resolved trees from their leaves on.

ghost use Rattle.std.specs.Prelude.{◌≡◌, ◌≤◌, ◌++◌, ◌∷◌, [], OnOk, OnErr, IfOk, length};
ghost use Rattle.vd_resolved.specs.Trees.{Building, with_parent, finished};
ghost use Rattle.vd_resolved.specs.Validity.{IsResolved};
ghost use Rattle.vd_trees.specs.declared.revision.Revision.TheVariants.{V2019, V1993};

use crate::node::Resolved;
use crate::stack::Stack;
use crate::trees::{Resolved19, Resolved93, Tree};
use std::alloc::{AllocError, Global};
use std::marker::Model;
use vd_bytes::Place;
use vd_declarations::{DeclId, Declaration};

/// A resolved tree that is being made, of either revision: some trees, each of whose parts were made before it, and declarations.
#[derive(Drop)]
pub struct Builder {
    stack: Stack,
    declarations: Vec<Declaration>,
}

impl Model for Builder {
    ghost use Rattle.vd_resolved.specs.Trees.{Building};
    ghost use Rattle.std.specs.Coded.{coded_list};
    ghost use Rattle.vd_forest.specs.Code.{coded_forest};
    ghost use Rattle.vd_declarations.specs.contracts.declarations.Declaration as declared;
    ghost use Rattle.vd_resolved.specs.contracts.node.Resolved as nodes;
    ghost use Rattle.vd_resolved.specs.Codes.{coded_building};

    ghost Value = { Building };

    ghost coded = { coded_building (coded_list (coded_forest nodes.the_row.coded)) (coded_list declared.the_row.coded) };

    ghost view = { λ a. record { trees = a.stack; declarations = a.declarations.items } };
}

impl Builder {
    /// No trees and no declarations.
    pub fn new(alloc: Global) -> Builder
        ensures { result ≡ record { trees = []; declarations = [] } }
    {
        Builder {
            stack: Stack::new(alloc),
            declarations: Vec::new(alloc),
        }
    }

    /// How many trees there are that are no parts yet.
    pub fn len(&self) -> usize
        ensures { result ≡ length self.now.trees }
    {
        self.stack.len()
    }

    /// Makes the last trees, as many as `parts` says, the parts of a new one.
    pub fn push(
        &mut self,
        node: Resolved,
        text: &[u8],
        place: Place,
        parts: usize,
    ) -> Result<(), AllocError>
        requires { parts ≤ length self.old.trees }
        ensures pushed { OnOk result (self.new ≡ record self.old { trees = with_parent self.old.trees node text.now place parts }) }
        ensures unchanged { OnErr result (self.new ≡ self.old) }
    {
        self.stack.push(node, text, place, parts)?;
        Ok(())
    }

    /// Puts a declaration behind the others.
    pub fn declare(&mut self, declared: Declaration) -> Result<DeclId, AllocError>
        ensures declared { IfOk result (λ id. (id ≡ length self.old.declarations)
            × (self.new ≡ record self.old { declarations = self.old.declarations ++ declared ∷ [] })) }
        ensures unchanged { OnErr result (self.new ≡ self.old) }
    {
        let Ok(id) = u32::try_from(self.declarations.len()) else {
            return Err(AllocError);
        };
        self.declarations.push(declared)?;
        Ok(DeclId::of(id))
    }

    /// The tree of revision 2019 whose design units are these trees.
    pub fn finish19(self) -> Result<Resolved19, AllocError>
        requires { IsResolved V2019 (finished self) }
        ensures { IfOk result (λ design. design ≡ finished self) }
    {
        let tree = self.finish()?;
        Ok(Resolved19::of(tree))
    }

    /// The tree of revision 1993 whose design units are these trees.
    pub fn finish93(self) -> Result<Resolved93, AllocError>
        requires { IsResolved V1993 (finished self) }
        ensures { IfOk result (λ design. design ≡ finished self) }
    {
        let tree = self.finish()?;
        Ok(Resolved93::of(tree))
    }

    /// The tree whose design units are these trees, valid or not.
    pub fn finish(self) -> Result<Tree, AllocError>
        ensures { IfOk result (λ tree. tree ≡ finished self) }
    {
        let Builder {
            stack,
            declarations,
        } = self;
        let (store, units) = stack.into_store()?;
        Ok(Tree::of(store, units, declarations))
    }
}
