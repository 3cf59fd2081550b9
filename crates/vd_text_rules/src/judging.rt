//! The least refusal of a text.

ghost use Rattle.std.specs.Prelude.{◌≡◌, IfOk};
ghost use Rattle.vd_walks.specs.Least.{Judge, least_of};
ghost use Rattle.vd_text_rules.specs.TextRules.{broken_at, text_judge, first_refused};

use crate::closings::{
    first_mark, has_label, last_mark, other_closing_name, refused_unless, wrong_label,
};
use crate::designators::no_operator_of;
use crate::regions::{Region, inside, takes, takes_generic};
use std::alloc::{AllocError, Global};
use vd_bytes::Refused;
use vd_forest::{Cursor, Opened};
use vd_forms::Form;
use vd_trees::Revision;
use vd_walks::{Judging, find_least, lesser};

/// What stands around a node.
#[derive(Clone, Copy, PartialEq, Eq, Debug)]
pub struct Around {
    pub region: Region,
    /// Whether it is a part of a statement with a label.
    pub labelled: bool,
}

/// The rules of a revision that a text breaks by its words alone.
#[derive(Clone, Copy)]
struct TextRules {
    revision: Revision,
}

/// The least refusal of one node.
#[tactic(auto, using(crate::proofs::RuleLemmas::seven_rules))]
fn broken(revision: Revision, around: &Around, node: &Opened<'_, Form>) -> Option<Refused>
    ensures { result ≡ least_of (broken_at revision around.now node.now.form node.now.text.now node.now.place node.now.parts) }
{
    let form = node.form;
    let ends = lesser(
        other_closing_name(form, &node.parts),
        wrong_label(around.labelled, form, &node.parts),
    );
    let marks = lesser(
        first_mark(form, node.place, &node.parts),
        last_mark(form, node.place, &node.parts),
    );
    let taken = lesser(
        refused_unless(takes(around.region, form), node.place, 307),
        refused_unless(takes_generic(around.region, form), node.place, 309),
    );
    let designator = no_operator_of(revision, form, &node.parts);
    lesser(lesser(ends, marks), lesser(taken, designator))
}

impl Judging<Form, Around> for TextRules {
    ghost judge = { λ rules. text_judge rules.revision };

    fn broken(
        &self,
        _alloc: Global,
        around: &Around,
        node: &Opened<'_, Form>,
    ) -> Result<Option<Refused>, AllocError> {
        Ok(broken(self.revision, around, node))
    }

    fn down(
        &self,
        _alloc: Global,
        around: &Around,
        node: &Opened<'_, Form>,
    ) -> Result<Around, AllocError> {
        Ok(Around {
            region: inside(node.form, around.region),
            labelled: has_label(node.form),
        })
    }

    fn along(
        &self,
        _alloc: Global,
        around: &Around,
        _node: &Opened<'_, Form>,
    ) -> Result<Around, AllocError> {
        Ok(*around)
    }
}

/// The least refusal of some design units by the rules that their words break alone.
pub fn first_text_refusal(
    alloc: Global,
    revision: Revision,
    units: &Cursor<'_, Form>,
) -> Result<Option<Refused>, AllocError>
    ensures { IfOk result (λ refused. refused ≡ first_refused revision units.now) }
{
    let rules = TextRules { revision };
    let outside = Around {
        region: Region::Outside,
        labelled: false,
    };
    find_least(alloc, units, outside, &rules)
}
