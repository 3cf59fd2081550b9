//! Resolved trees and their declarations.

ghost use Rattle.std.specs.Prelude.{◌≡◌, ◌≤◌, ◌<◌, Some, length, slice_get};
ghost use Rattle.vd_forest.specs.Store.{at};
ghost use Rattle.vd_resolved.specs.Trees.{ResolvedTree};
ghost use Rattle.vd_resolved.specs.Validity.{IsResolved};
ghost use Rattle.vd_trees.specs.declared.revision.Revision.TheVariants.{V2019, V1993};

use crate::node::Resolved;
use std::marker::Model;
use vd_declarations::{DeclId, Declaration};
use vd_forest::{Cursor, Store};

/// Design units whose nodes name declarations, and these declarations. It may be valid or not.
#[derive(Drop)]
pub struct Tree {
    store: Store<Resolved>,
    units: u32,
    declarations: Vec<Declaration>,
}

impl Model for Tree {
    ghost use Rattle.std.specs.Prelude.{◌≤◌, length};
    ghost use Rattle.vd_forest.specs.Store.{at};
    ghost use Rattle.vd_resolved.specs.Trees.{ResolvedTree};
    ghost use Rattle.std.specs.Coded.{coded_list};
    ghost use Rattle.vd_forest.specs.Code.{coded_forest};
    ghost use Rattle.vd_declarations.specs.contracts.declarations.Declaration as declared;
    ghost use Rattle.vd_resolved.specs.contracts.node.Resolved as nodes;
    ghost use Rattle.vd_resolved.specs.Codes.{coded_tree};

    ghost Value = { ResolvedTree };

    ghost coded = { coded_tree (coded_forest nodes.the_row.coded) (coded_list declared.the_row.coded) };

    ghost view = { λ a. record { units = at a.store a.units; declarations = a.declarations.items } };

    ghost invariant = { λ a. a.units ≤ length a.store };
}

impl Tree {
    /// The tree of these design units.
    pub fn of(store: Store<Resolved>, units: u32, declarations: Vec<Declaration>) -> Tree
        requires { units ≤ length store }
        ensures { result ≡ record { units = at store units; declarations = declarations.items } }
    {
        Tree {
            store,
            units,
            declarations,
        }
    }

    /// The design units.
    pub fn cursor(&self) -> Cursor<'_, Resolved>
        ensures { result ≡ self.now.units }
    {
        let store = &self.store;
        store.cursor(self.units)
    }

    /// The declarations in their order.
    pub fn declarations(&self) -> &[Declaration]
        ensures { result.now ≡ self.now.declarations }
    {
        self.declarations.as_slice()
    }

    /// A declaration.
    pub fn declaration(&self, id: DeclId) -> &Declaration
        requires { id < length self.now.declarations }
        ensures { slice_get self.now.declarations id ≡ Some result.now }
    {
        &self.declarations[id.number() as usize]
    }
}

/// A valid resolved tree of revision 2019.
#[derive(Drop)]
pub struct Resolved19 {
    tree: Tree,
}

impl Model for Resolved19 {
    ghost use Rattle.vd_resolved.specs.Trees.{ResolvedTree};
    ghost use Rattle.vd_resolved.specs.Validity.{IsResolved};
    ghost use Rattle.vd_trees.specs.declared.revision.Revision.TheVariants.{V2019};
    ghost use Rattle.std.specs.Coded.{coded_list};
    ghost use Rattle.vd_forest.specs.Code.{coded_forest};
    ghost use Rattle.vd_declarations.specs.contracts.declarations.Declaration as declared;
    ghost use Rattle.vd_resolved.specs.contracts.node.Resolved as nodes;
    ghost use Rattle.vd_resolved.specs.Codes.{coded_tree};

    ghost Value = { ResolvedTree };

    ghost coded = { coded_tree (coded_forest nodes.the_row.coded) (coded_list declared.the_row.coded) };

    ghost view = { λ a. a.tree };

    ghost invariant = { λ a. IsResolved V2019 a.tree };
}

impl Resolved19 {
    /// This tree, which is valid.
    pub fn of(tree: Tree) -> Resolved19
        requires { IsResolved V2019 tree }
        ensures { result ≡ tree }
    {
        Resolved19 { tree }
    }

    /// The design units.
    pub fn cursor(&self) -> Cursor<'_, Resolved>
        ensures units { result ≡ self.now.units }
        ensures valid { IsResolved V2019 self.now }
    {
        let tree = &self.tree;
        tree.cursor()
    }

    /// The declarations in their order.
    pub fn declarations(&self) -> &[Declaration]
        ensures { result.now ≡ self.now.declarations }
    {
        let tree = &self.tree;
        tree.declarations()
    }

    /// A declaration.
    pub fn declaration(&self, id: DeclId) -> &Declaration
        requires { id < length self.now.declarations }
        ensures { slice_get self.now.declarations id ≡ Some result.now }
    {
        let tree = &self.tree;
        tree.declaration(id)
    }
}

/// A valid resolved tree of revision 1993.
#[derive(Drop)]
pub struct Resolved93 {
    tree: Tree,
}

impl Model for Resolved93 {
    ghost use Rattle.vd_resolved.specs.Trees.{ResolvedTree};
    ghost use Rattle.vd_resolved.specs.Validity.{IsResolved};
    ghost use Rattle.vd_trees.specs.declared.revision.Revision.TheVariants.{V1993};
    ghost use Rattle.std.specs.Coded.{coded_list};
    ghost use Rattle.vd_forest.specs.Code.{coded_forest};
    ghost use Rattle.vd_declarations.specs.contracts.declarations.Declaration as declared;
    ghost use Rattle.vd_resolved.specs.contracts.node.Resolved as nodes;
    ghost use Rattle.vd_resolved.specs.Codes.{coded_tree};

    ghost Value = { ResolvedTree };

    ghost coded = { coded_tree (coded_forest nodes.the_row.coded) (coded_list declared.the_row.coded) };

    ghost view = { λ a. a.tree };

    ghost invariant = { λ a. IsResolved V1993 a.tree };
}

impl Resolved93 {
    /// This tree, which is valid.
    pub fn of(tree: Tree) -> Resolved93
        requires { IsResolved V1993 tree }
        ensures { result ≡ tree }
    {
        Resolved93 { tree }
    }

    /// The design units.
    pub fn cursor(&self) -> Cursor<'_, Resolved>
        ensures units { result ≡ self.now.units }
        ensures valid { IsResolved V1993 self.now }
    {
        let tree = &self.tree;
        tree.cursor()
    }

    /// The declarations in their order.
    pub fn declarations(&self) -> &[Declaration]
        ensures { result.now ≡ self.now.declarations }
    {
        let tree = &self.tree;
        tree.declarations()
    }

    /// A declaration.
    pub fn declaration(&self, id: DeclId) -> &Declaration
        requires { id < length self.now.declarations }
        ensures { slice_get self.now.declarations id ≡ Some result.now }
    {
        let tree = &self.tree;
        tree.declaration(id)
    }
}
