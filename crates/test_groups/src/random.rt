//! Random lists of what groups do, beside the calls of their members on the tree as a machine.

ghost use Rattle.std.specs.Prelude.{◌≡◌};
ghost use Rattle.advance_rule.specs.Stored.{Answers};
ghost use Rattle.advance_rule.specs.Plan.{end_ends_at};
ghost use Rattle.test_groups.specs.Seats.{tree_at};

use crate::ask::Deed;
use crate::calls::done;
use crate::machine::{machine, view_of};
use crate::mirror::{arrive, arrive_with, force, join, leave, poll, register, word_at};
use crate::numbers::Numbers;
use crate::reported::Reported;
use crate::rules::{Rule, WHEN_EMPTY, is_empty};
use crate::seats::Seat;
use crate::trees::{left, planted};
use advance_rule::StoredAdvance;
use phaser_word::Word;
use std::alloc::Global;
use std::process::Abort;
use std::sync::Wait;
use tier_core::tree::Core;
use tier_table::group_members::RegisteredAll;
use tier_table::tokens::Door;
use tier_table::tree::Tree;

// A place for a group, and its members on the machine.
#[derive(Drop)]
struct Place {
    seat: Seat,
    members: Vec<usize>,
}

// Returns the tier of members, and whether they have arrived in the phase of the machine.
fn state(core: &Core, members: &[usize]) -> Option<(u16, bool)> {
    let view = view_of(core, *members.first()?);
    let arrived = view.arrived == view.size && view.phase == core.root().phase;
    Some((view.tier, arrived))
}

// Returns true if two groups may come together.
fn may_merge(core: &Core, own: &Place, next: &Place) -> bool {
    match (state(core, &own.members), state(core, &next.members)) {
        (Some(own), Some(next)) => own == next && !core.root().ended,
        _ => false,
    }
}

// Returns what a place without a group does next; late in a list this may be the end by force, too. Many members register only
// if there is no room for them beside others.
fn next_outside(rt: &impl Abort, core: &Core, numbers: &mut Numbers, late: bool) -> Deed {
    if late && numbers.below(8) == 0 {
        return Deed::Force;
    }
    let tier = (numbers.below(core.tiers() as u32) % 64) as u16;
    let many = word_at(rt, core, tier).parties > 2 && numbers.below(4) == 0;
    let members = if many {
        65534
    } else {
        numbers.below(4).saturating_add(1)
    };
    Deed::Register(tier, members)
}

// An arrival with new members and without old ones, if that can be.
fn next_exchange(size: u32, numbers: &mut Numbers) -> Deed {
    let come = numbers.below(4);
    let go = numbers.below(size.saturating_add(1));
    match numbers.below(3) {
        _ if go >= size.saturating_add(come) => Deed::Arrive,
        0 => Deed::ArriveWithIn(come, go, 16),
        _ => Deed::ArriveWith(come, go),
    }
}

// Returns what a group does next.
fn next_inside(core: &Core, own: &Place, next: &Place, numbers: &mut Numbers) -> Deed {
    let size = (own.members.len() % 65536) as u32;
    match numbers.below(12) {
        0 => Deed::Leave,
        1 => Deed::Join(numbers.below(4)),
        2 if numbers.below(4) == 0 => Deed::Join(65535),
        2 => Deed::Poll,
        3 | 4 if size > 1 && next.members.is_empty() => {
            Deed::Split(numbers.below(size - 1).saturating_add(1))
        }
        5 | 6 if may_merge(core, own, next) => Deed::Merge,
        7 => Deed::ArriveIn(16),
        8 | 9 => next_exchange(size, numbers),
        _ => Deed::Arrive,
    }
}

// Moves the last members of a group to a new one, and leaves `kept`.
fn part(rt: &impl Abort, own: &mut Vec<usize>, next: &mut Vec<usize>, kept: u32) {
    for _ in 0..own.len() {
        if own.len() > kept as usize {
            let member = own.pop().expect(rt, "a member");
            next.push(member).expect(rt, "memory");
        }
    }
    next.reverse();
}

// Appends the members of the next group to those of a group.
fn append(rt: &impl Abort, own: &mut Vec<usize>, next: &mut Vec<usize>) {
    for member in &*next {
        own.push(*member).expect(rt, "memory");
    }
    next.clear();
}

// Returns what members answer on the machine. Both parts of a group answer the same, and so do two that come together.
fn reported_of(
    rt: &impl Abort,
    alloc: Global,
    core: &mut Core,
    own: &mut Vec<usize>,
    next: &mut Vec<usize>,
    deed: Deed,
) -> Reported {
    let tier = state(core, own).map_or(0, |state| state.0);
    match deed {
        Deed::Register(tier, count) => register(rt, core, own, tier, count),
        Deed::Join(count) => join(rt, core, own, tier, count),
        Deed::Arrive | Deed::ArriveIn(_) => arrive(rt, core, own),
        Deed::ArriveWith(come, go) | Deed::ArriveWithIn(come, go, _) => {
            arrive_with(rt, alloc, core, own, tier, (come, go))
        }
        Deed::Poll => poll(rt, core, own),
        Deed::Leave => leave(rt, core, own),
        Deed::Split(kept) => {
            part(rt, own, next, kept);
            poll(rt, core, own)
        }
        Deed::Merge => {
            append(rt, own, next);
            poll(rt, core, own)
        }
        Deed::Force => force(rt, core),
        Deed::Await | Deed::Meet => panic!(rt; "nobody waits here"),
    }
}

// Returns the answer without whether a token learns of a new phase by this call.
fn plainly(reported: Reported) -> Reported {
    match reported {
        Reported::Passed(phase) => Reported::Here(phase),
        reported => reported,
    }
}

// A registration that the tree holds off as well.
fn held(rt: &impl Abort, tree: &Tree<Rule>, own: Seat, deed: Deed) -> (Seat, Reported)
    requires own { tree_at own ≡ tree.now.tree }
    ensures { tree_at result.0 ≡ tree.now.tree }
{
    match (own, deed) {
        (Seat::Outside(door), Deed::Register(tier, count)) => {
            assert!(rt; usize::from(tier) < tree.shape().count() && count > 0);
            match tree.register_all(door, tier, count, 16) {
                RegisteredAll::Held(door, phase, cause) => {
                    (Seat::Outside(door), Reported::Held(phase, cause))
                }
                _ => panic!(rt; "not held off"),
            }
        }
        _ => panic!(rt; "no registration"),
    }
}

// Returns the size of a group, and 0 for a door.
fn size_of(seat: &Seat) -> usize {
    match seat {
        Seat::Outside(_) => 0,
        Seat::Inside(group) => group.size() as usize,
    }
}

// One deed of a group, which answers what its members answer on the machine.
fn act<R: Wait + Abort>(
    rt: &R,
    alloc: Global,
    tree: &Tree<Rule>,
    core: &mut Core,
    spare: &mut Door,
    places: (Place, Place),
    deed: Deed,
) -> (Place, Place)
    requires own { (spare.old.tree ≡ tree.now.tree) × (tree_at places.0.seat ≡ tree.now.tree) × (tree_at places.1.seat ≡ tree.now.tree) }
    requires rule { Answers (pre tree.now.rule.closure) (post tree.now.rule.closure) (end_ends_at tree.now.rule.plan) }
    ensures spare { spare.new.tree ≡ tree.now.tree }
    ensures own { (tree_at result.0.seat ≡ tree.now.tree) × (tree_at result.1.seat ≡ tree.now.tree) }
{
    let (mut own, mut next) = places;
    let want = reported_of(rt, alloc, core, &mut own.members, &mut next.members, deed);
    let reported;
    if matches!(want, Reported::Held(_, _)) {
        (own.seat, reported) = held(rt, tree, own.seat, deed);
    } else {
        ((own.seat, next.seat), reported) = done(rt, tree, spare, own.seat, next.seat, deed);
    }
    assert!(rt; plainly(reported) == plainly(want));
    assert!(rt; size_of(&own.seat) == own.members.len());
    assert!(rt; size_of(&next.seat) == next.members.len());
    (own, next)
}

// Does the next deed of a group.
fn turn<R: Wait + Abort>(
    rt: &R,
    alloc: Global,
    tree: &Tree<Rule>,
    core: &mut Core,
    spare: &mut Door,
    places: (Place, Place),
    numbers: &mut Numbers,
    late: bool,
) -> (Place, Place)
    requires own { (spare.old.tree ≡ tree.now.tree) × (tree_at places.0.seat ≡ tree.now.tree) × (tree_at places.1.seat ≡ tree.now.tree) }
    requires rule { Answers (pre tree.now.rule.closure) (post tree.now.rule.closure) (end_ends_at tree.now.rule.plan) }
    ensures spare { spare.new.tree ≡ tree.now.tree }
    ensures own { (tree_at result.0.seat ≡ tree.now.tree) × (tree_at result.1.seat ≡ tree.now.tree) }
{
    let deed = match &places.0.seat {
        Seat::Outside(_) => next_outside(rt, core, numbers, late),
        Seat::Inside(_) => next_inside(core, &places.0, &places.1, numbers),
    };
    act(rt, alloc, tree, core, spare, places, deed)
}

// Three places after 200 deeds. Each deed is of one of them, with the next one beside it.
fn played<R: Wait + Abort>(
    rt: &R,
    alloc: Global,
    tree: &Tree<Rule>,
    core: &mut Core,
    spare: &mut Door,
    places: (Place, Place, Place),
    numbers: &mut Numbers,
)
    requires own { (spare.old.tree ≡ tree.now.tree) × (tree_at places.0.seat ≡ tree.now.tree) × (tree_at places.1.seat ≡ tree.now.tree) × (tree_at places.2.seat ≡ tree.now.tree) }
    requires rule { Answers (pre tree.now.rule.closure) (post tree.now.rule.closure) (end_ends_at tree.now.rule.plan) }
{
    let (mut zero, mut one, mut two) = places;
    for number in 0..200 {
        let late = number > 150;
        match numbers.below(3) {
            0 => {
                (zero, one) = turn(rt, alloc, tree, core, spare, (zero, one), numbers, late);
            }
            1 => {
                (one, two) = turn(rt, alloc, tree, core, spare, (one, two), numbers, late);
            }
            _ => {
                (two, zero) = turn(rt, alloc, tree, core, spare, (two, zero), numbers, late);
            }
        }
    }
}

// A place with a door.
fn with_door(alloc: Global, tree: &Tree<Rule>, spare: &mut Door) -> Place
    requires own { spare.old.tree ≡ tree.now.tree }
    ensures spare { spare.new.tree ≡ tree.now.tree }
    ensures own { tree_at result.seat ≡ tree.now.tree }
{
    Place {
        seat: Seat::Outside(tree.split(spare)),
        members: Vec::new(alloc),
    }
}

// Returns true if the words of a closed tree are those of the machine.
fn are_words(rt: &impl Abort, words: &[Word], core: &Core) -> bool {
    for (tier, word) in words.iter().enumerate() {
        if word.pack() != word_at(rt, core, (tier % 64) as u16).pack() {
            return false;
        }
    }
    words.len() == core.tiers()
}

// Checks that the words that a list of deeds leaves on a tree of these widths are the machine's. Returns the machine's last phase.
fn list<R: Wait + Abort>(
    rt: &R,
    alloc: Global,
    rule: StoredAdvance<Rule>,
    widths: &str,
    seed: u32,
) -> u32
    requires rule { Answers (pre rule.closure) (post rule.closure) (end_ends_at rule.plan) }
{
    let mut core = machine(alloc, widths, 0).expect(rt, "a machine");
    let (tree, mut spare) = planted(rt, alloc, widths, 0, rule);
    let mut numbers = Numbers { seed };
    let zero = with_door(alloc, &tree, &mut spare);
    let one = with_door(alloc, &tree, &mut spare);
    let two = with_door(alloc, &tree, &mut spare);
    let places = (zero, one, two);
    played(
        rt,
        alloc,
        &tree,
        &mut core,
        &mut spare,
        places,
        &mut numbers,
    );
    let words = left(rt, alloc, tree, Vec::new(alloc)).words;
    assert!(rt; are_words(rt, &words, &core));
    core.root().phase
}

#[test]
fn groups_are_their_members(rt: HostRuntime) {
    let mut phases = 0u32;
    for seed in 0..60 {
        for widths in ["flat", "2", "1x1", "2x2", "2x2x2"] {
            let rule = StoredAdvance::new(is_empty as Rule, WHEN_EMPTY);
            phases = phases.saturating_add(list(&rt, rt.alloc(), rule, widths, seed));
        }
    }
    // All lists together have passed many phases.
    assert!(rt; phases > 1000, "{phases} phases");
}
