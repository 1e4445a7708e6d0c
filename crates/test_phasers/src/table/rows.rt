//! Worked runs as rows, and how they are played.

ghost use Rattle.std.specs.Prelude.{◌≡◌};
ghost use Rattle.advance_rule.specs.Stored.{Answers};
ghost use Rattle.advance_rule.specs.Plan.{end_ends_at};
ghost use Rattle.test_phasers.specs.Holders.{tree_of, ThreeOf};

use crate::calls::ask::Ask;
use crate::calls::call::call;
use crate::calls::holders::{Holder, Three};
use std::process::Abort;
use test_groups::reported::Reported;
use test_groups::rules::Rule;
use tier_table::joining::Registered;
use tier_table::tree::Tree;

/// A row of a worked run: the token that is asked, what it is asked, with how many tries, and what it has to answer.
pub type Row = (usize, Ask, u32, Reported);

// A token is asked as this row says, and gives its answer.
fn asked(rt: &impl Abort, tree: &Tree<Rule>, holder: Holder, number: usize, row: Row) -> Holder
    requires own { tree_of holder ≡ tree.now.tree }
    requires rule { Answers (pre tree.now.rule.closure) (post tree.now.rule.closure) (end_ends_at tree.now.rule.plan) }
    ensures { tree_of result ≡ tree.now.tree }
{
    let (_token, ask, tries, want) = row;
    let (holder, reported) = call(rt, tree, holder, ask, tries);
    assert!(rt; reported == want, "row {number}");
    holder
}

// A member joins beside a crew that has an unarrived member, and gets the answer of this row.
fn beside(
    rt: &impl Abort,
    tree: &Tree<Rule>,
    crew: Holder,
    door: Holder,
    row: Row,
) -> (Holder, Holder)
    requires own { (tree_of crew ≡ tree.now.tree) × (tree_of door ≡ tree.now.tree) }
    ensures { (tree_of result.0 ≡ tree.now.tree) × (tree_of result.1 ≡ tree.now.tree) }
{
    let Holder::Inside(mut crew) = crew else {
        panic!(rt; "no crew");
    };
    let Holder::Outside(door) = door else {
        panic!(rt; "no door");
    };
    assert!(rt; crew.unarrived() > 0);
    let (other, reported) = match tree.join_here(&mut crew, door, 1, row.2) {
        Registered::Busy(door) => (Holder::Outside(door), Reported::Busy),
        Registered::Joined(new, phase) => (Holder::Inside(new), Reported::Joined(phase)),
        _ => panic!(rt; "not joined"),
    };
    assert!(rt; reported == row.3);
    (Holder::Inside(crew), other)
}

// Asks the token that a row names what the row says.
fn turned(rt: &impl Abort, tree: &Tree<Rule>, holders: Three, number: usize, row: Row) -> Three
    requires own { ThreeOf tree.now.tree holders }
    requires rule { Answers (pre tree.now.rule.closure) (post tree.now.rule.closure) (end_ends_at tree.now.rule.plan) }
    ensures { ThreeOf tree.now.tree result }
{
    let (zero, one, two) = holders;
    match (row.0, row.1) {
        (_, Ask::Beside) => {
            let (zero, one) = beside(rt, tree, zero, one, row);
            (zero, one, two)
        }
        (0, _) => (asked(rt, tree, zero, number, row), one, two),
        (1, _) => (zero, asked(rt, tree, one, number, row), two),
        _ => (zero, one, asked(rt, tree, two, number, row)),
    }
}

/// Plays these rows one after another with three tokens.
pub fn played(rt: &impl Abort, tree: &Tree<Rule>, mut holders: Three, rows: &[Row]) -> Three
    requires own { ThreeOf tree.now.tree holders }
    requires rule { Answers (pre tree.now.rule.closure) (post tree.now.rule.closure) (end_ends_at tree.now.rule.plan) }
    ensures { ThreeOf tree.now.tree result }
{
    for (number, row) in rows.iter().enumerate() {
        holders = turned(rt, tree, holders, number, *row);
    }
    holders
}
