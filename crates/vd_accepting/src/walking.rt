//! The walk.

ghost use Rattle.std.specs.Prelude.{◌≡◌, ◌++◌, ◌∷◌, IfOk, List, OnOk};
ghost use Rattle.vd_bytes.specs.declared.answers.Refused.{Refused};
ghost use Rattle.vd_walks.specs.Positions.{Along, Down, IsAtEnd, IsAtPlace, Position, passed, tree_of};
ghost use Rattle.vd_known_designs.specs.Designs.{IsReady, Knows};
ghost use Rattle.vd_port_modes.specs.Source.{design_in};
ghost use Rattle.vd_value_rules.specs.Groups.{firsts_by, firsts_of};
ghost use Rattle.vd_value_rules.specs.Designs.{Design};
ghost use Rattle.vd_value_rules.specs.Knowledge.{Known};
ghost use Rattle.vd_value_rules.specs.Standings.{State, state_down};
ghost use Rattle.vd_accepting.specs.Levels.{IsLevel};
ghost use Rattle.vd_accepting.specs.Walking.{Follows, asked, broken_here};

use crate::groups::refusals;
use crate::insides::{are_parts_copied, label_of_parts};
use crate::levels::{Level, either, go_on, standing, surroundings};
use std::alloc::{AllocError, Global};
use std::mem;
use vd_contexts::standings_of;
use vd_forest::Opened;
use vd_known_designs::KnownDesign;
use vd_known_units::{go_inside, go_outside};
use vd_port_facts::PortFacts;
use vd_port_modes::Interfaces;
use vd_resolved::{Resolved, Tree};
use vd_trees::Revision;
use vd_value_rules::{Firsts, nothing_refused, together};
use vd_walks::{Following, follow};

/// A walk over a resolved design.
#[derive(Drop)]
pub struct Walk<'a, 'i, 't> {
    pub interfaces: &'i Interfaces<'t>,
    pub facts: &'i PortFacts<'t>,
    pub design: KnownDesign<'a, 't>,
    /// The place, and the places that it stands in.
    pub here: Level,
    pub round: Vec<Level>,
    /// What was found so far.
    pub found: Firsts,
}

/// The first of the parts of a node, beside what is known there.
fn first_part(
    design: &mut KnownDesign<'_, '_>,
    interfaces: &Interfaces<'_>,
    alloc: Global,
    here: &Level,
    node: &Opened<'_, Resolved>,
) -> Result<Level, AllocError>
    requires ready { IsReady design.old }
    ensures level { (s : State) (ks : List Known) → Knows (design_in interfaces.now) design.old (s.known ∷ ks) → IsLevel (design_in interfaces.now) here.now s
        → IfOk result (λ x. IsLevel (design_in interfaces.now) x
        (state_down (design_in interfaces.now) s node.now.form node.now.text.now node.now.place node.now.parts)) }
    ensures knows { (d : Design) (ks : List Known) → Knows d design.old ks → OnOk result (Knows d design.new ks) }
{
    let own = standing(here);
    let around = surroundings(here);
    let coming = standings_of(design, interfaces, alloc, own, &node.form, &node.parts)?;
    Ok(Level {
        coming,
        at: 0,
        label: label_of_parts(node.form.form, node.place),
        is_copied: either(
            around.is_copied,
            are_parts_copied(interfaces, &node.form, &node.parts),
        ),
    })
}

impl<'a, 'i, 't> Following<'a, Resolved> for Walk<'a, 'i, 't> {
    ghost follows = { λ x rs ps. Follows x rs ps };

    ghost broken = { λ x p t. broken_here (design_in x.interfaces.now) p t };

    fn enter(&mut self, alloc: Global, node: &Opened<'a, Resolved>) -> Result<(), AllocError> {
        let around = surroundings(&self.here);
        let found = refusals(
            &mut self.design,
            self.interfaces,
            self.facts,
            alloc,
            &around,
            node,
        )?;
        let inside = first_part(&mut self.design, self.interfaces, alloc, &self.here, node)?;
        go_inside(&mut self.design, alloc, &node.form, &node.parts)?;
        self.found = together(self.found, found);
        let outer = mem::replace(&mut self.here, inside);
        self.round.push(outer)?;
        Ok(())
    }

    fn leave(&mut self, alloc: Global, node: &Opened<'a, Resolved>) -> Result<(), AllocError> {
        go_outside(
            &mut self.design,
            self.interfaces,
            alloc,
            &node.form,
            &node.parts,
        )?;
        let Some(mut outer) = self.round.pop() else {
            return Err(AllocError);
        };
        go_on(&mut outer);
        self.here = outer;
        Ok(())
    }
}

/// The least refusals of the rules on choices, aggregates, static expressions, bounds, port maps, and actuals that are types.
pub fn value_refusals(alloc: Global, revision: Revision, tree: &Tree) -> Result<Firsts, AllocError>
    ensures { IfOk result (λ found. found ≡ firsts_by asked revision tree.now) }
{
    let interfaces = Interfaces::of(alloc, revision, tree)?;
    let facts = PortFacts::of(alloc, revision, tree)?;
    let design = KnownDesign::new(alloc, revision, tree.declarations())?;
    let mut walk = Walk {
        interfaces: &interfaces,
        facts: &facts,
        design,
        here: Level {
            coming: Vec::new(alloc),
            at: 0,
            label: None,
            is_copied: false,
        },
        round: Vec::new(alloc),
        found: nothing_refused(),
    };
    follow(alloc, &tree.cursor(), &mut walk)?;
    Ok(walk.found)
}
