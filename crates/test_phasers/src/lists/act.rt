//! What a token is asked next, on both sides.

ghost use Rattle.std.specs.Prelude.{◌≡◌};
ghost use Rattle.advance_rule.specs.Stored.{Answers};
ghost use Rattle.advance_rule.specs.Plan.{end_ends_at};
ghost use Rattle.test_phasers.specs.Holders.{tree_of};

use crate::calls::ask::Ask;
use crate::calls::call::call;
use crate::calls::holders::Holder;
use crate::lists::mirror::Mirror;
use std::process::Abort;
use test_groups::numbers::Numbers;
use test_groups::reported::Reported;
use test_groups::rules::Rule;
use tier_table::tree::Tree;

// Returns what a token is asked next; late in a list this may be the end by force, too.
fn next_ask(holder: &Holder, numbers: &mut Numbers, tiers: u32, late: bool) -> Ask {
    match holder {
        Holder::Outside(_) if late && numbers.below(4) == 0 => Ask::Force,
        Holder::Outside(_) => {
            let tier = (numbers.below(tiers) % 64) as u16;
            let few = numbers.below(3).saturating_add(1);
            let members = if numbers.below(16) == 0 { 65530 } else { few };
            Ask::Register(tier, members)
        }
        Holder::Inside(_) => match numbers.below(8) {
            0 => Ask::Leave,
            1 | 2 => Ask::Poll,
            _ => Ask::Arrive,
        },
        Holder::Owing(_) => Ask::Resume,
        Holder::Opening(_) => Ask::Open,
    }
}

// Returns how many tries a call gets: up to 3, and at least one if it was busy. The tree gets two more to end by force, which
// the machine does in one step.
fn next_tries(numbers: &mut Numbers, ask: Ask, again: bool) -> (u32, u32) {
    let tries = if again {
        numbers.below(3).saturating_add(1)
    } else {
        numbers.below(4)
    };
    match ask {
        Ask::Force => (tries, tries.saturating_add(2)),
        _ => (tries, tries),
    }
}

/// A token takes a call with up to 3 tries, which is repeated if it is busy, and gets each time what the machine
/// answers.
pub fn act(
    rt: &impl Abort,
    tree: &Tree<Rule>,
    mirror: &mut Mirror,
    token: usize,
    mut holder: Holder,
    numbers: &mut Numbers,
    late: bool,
) -> Holder
    requires own { tree_of holder ≡ tree.now.tree }
    requires rule { Answers (pre tree.now.rule.closure) (post tree.now.rule.closure) (end_ends_at tree.now.rule.plan) }
    ensures { tree_of result ≡ tree.now.tree }
{
    let ask = next_ask(&holder, numbers, mirror.tiers(), late);
    let mut again = false;
    for _ in 0..8 {
        let (tries, on_the_tree) = next_tries(numbers, ask, again);
        let (next, reported) = call(rt, tree, holder, ask, on_the_tree);
        holder = next;
        assert!(rt; mirror.reported(rt, token, ask, tries, again) == reported);
        if reported != Reported::Busy {
            return holder;
        }
        again = true;
    }
    holder
}
