//! What groups do as the calls of their members, one after another, on the tree as a machine.

ghost use Rattle.tier_core.specs.Run.{IsCall};

use crate::machine::{stepped, view_of};
use crate::reported::Reported;
use phaser_word::{MOST_PARTIES, Word};
use std::alloc::Global;
use std::process::Abort;
use tier_core::call::{Call, Played};
use tier_core::tree::Core;

/// Returns the word of a tier.
pub(crate) fn word_at(rt: &impl Abort, core: &Core, tier: u16) -> Word {
    assert!(rt; usize::from(tier) < core.tiers());
    core.word(tier)
}

// A member's whole call.
fn call(rt: &impl Abort, core: &mut Core, member: usize, call: Call) -> Played
    requires { IsCall call }
{
    assert!(rt; core.begin(member, call).is_ok());
    for _ in 0..64 {
        match stepped(core, member).expect(rt, "no step") {
            Played::GoesOn | Played::MustAdvance(_, _) => {}
            answer => return answer,
        }
    }
    panic!(rt; "a call is not over")
}

// A new member joins a tier.
fn joins(rt: &impl Abort, core: &mut Core, members: &mut Vec<usize>, tier: u16) -> Reported {
    let member = core.add_token().expect(rt, "memory");
    match call(rt, core, member, Call::Join { tier, n: 1 }) {
        Played::Done(phase) => {
            members.push(member).expect(rt, "memory");
            Reported::Joined(phase)
        }
        Played::Held(phase, cause) => Reported::Held(phase, cause),
        Played::Full(count) => Reported::Full(count),
        Played::Ended(shown) => Reported::Ended(shown),
        _ => panic!(rt; "no answer of a join"),
    }
}

// Some new members join a tier that has others, or none of them if there is no room for all.
fn join_beside(
    rt: &impl Abort,
    core: &mut Core,
    members: &mut Vec<usize>,
    tier: u16,
    count: u32,
) -> Option<Reported> {
    let parties = word_at(rt, core, tier).parties;
    if count > MOST_PARTIES.saturating_sub(parties) {
        return Some(Reported::Full(parties));
    }
    for _ in 0..count {
        assert!(rt; matches!(joins(rt, core, members, tier), Reported::Joined(_)));
    }
    None
}

/// New members register at a tier: first one, and then the others if there is room for all of them.
pub(crate) fn register(
    rt: &impl Abort,
    core: &mut Core,
    members: &mut Vec<usize>,
    tier: u16,
    count: u32,
) -> Reported {
    let reported = joins(rt, core, members, tier);
    if !matches!(reported, Reported::Joined(_)) {
        return reported;
    }
    join_beside(rt, core, members, tier, count.saturating_sub(1)).unwrap_or(reported)
}

/// All members see whether their phase has passed. All answer the same, or that they are in this phase.
pub(crate) fn poll(rt: &impl Abort, core: &mut Core, members: &[usize]) -> Reported {
    let mut reported = Reported::Busy;
    for member in members {
        let next = match call(rt, core, *member, Call::Poll) {
            Played::Passed(phase) | Played::Done(phase) => Reported::Here(phase),
            Played::Waiting => Reported::Waiting,
            Played::Ended(shown) => Reported::Ended(shown),
            _ => panic!(rt; "no answer of a poll"),
        };
        assert!(rt; reported == Reported::Busy || reported == next);
        reported = next;
    }
    reported
}

// Returns why members that have polled can't arrive, or join others, if they can't.
fn refused(core: &Core, polled: Reported) -> Option<Reported> {
    match polled {
        Reported::Waiting => Some(Reported::AlreadyArrived(core.root().phase)),
        Reported::Ended(shown) => Some(Reported::Ended(shown)),
        _ => None,
    }
}

/// New members join beside others, who have not arrived.
pub(crate) fn join(
    rt: &impl Abort,
    core: &mut Core,
    members: &mut Vec<usize>,
    tier: u16,
    count: u32,
) -> Reported {
    let polled = poll(rt, core, members);
    if let Some(reported) = refused(core, polled) {
        return reported;
    }
    let reported = Reported::Joined(core.root().phase);
    join_beside(rt, core, members, tier, count).unwrap_or(reported)
}

// A member arrives or leaves; whether it has led.
fn passes(rt: &impl Abort, core: &mut Core, member: usize, passage: Call) -> bool
    requires { IsCall passage }
{
    match call(rt, core, member, passage) {
        Played::Done(_) => view_of(core, member).led,
        _ => panic!(rt; "no answer of a passage"),
    }
}

/// All members arrive.
pub(crate) fn arrive(rt: &impl Abort, core: &mut Core, members: &[usize]) -> Reported {
    let polled = poll(rt, core, members);
    if let Some(reported) = refused(core, polled) {
        return reported;
    }
    let phase = core.root().phase;
    let mut led = false;
    for member in members {
        led |= passes(rt, core, *member, Call::Arrive);
    }
    Reported::Done(phase, led)
}

/// All members leave.
pub(crate) fn leave(rt: &impl Abort, core: &mut Core, members: &mut Vec<usize>) -> Reported {
    let polled = poll(rt, core, members);
    if let Some(reported) = refused(core, polled) {
        return reported;
    }
    let phase = core.root().phase;
    let mut led = false;
    for _ in 0..members.len() {
        let member = members.pop().expect(rt, "a member");
        led |= passes(rt, core, member, Call::Leave);
    }
    Reported::Left(phase, led)
}

/// Some new members join and arrive, then some of the old ones leave, and the other old ones arrive. Now the new ones are
/// the first.
pub(crate) fn arrive_with(
    rt: &impl Abort,
    alloc: Global,
    core: &mut Core,
    members: &mut Vec<usize>,
    tier: u16,
    counts: (u32, u32),
) -> Reported {
    let polled = poll(rt, core, members);
    if let Some(reported) = refused(core, polled) {
        return reported;
    }
    let phase = core.root().phase;
    let mut come = Vec::new(alloc);
    if let Some(reported) = join_beside(rt, core, &mut come, tier, counts.0) {
        return reported;
    }
    let mut led = false;
    for member in &come {
        led |= passes(rt, core, *member, Call::Arrive);
    }
    for _ in 0..counts.1 {
        let member = members.pop().expect(rt, "a member");
        led |= passes(rt, core, member, Call::Leave);
    }
    for member in &*members {
        led |= passes(rt, core, *member, Call::Arrive);
        come.push(*member).expect(rt, "memory");
    }
    *members = come;
    Reported::Done(phase, led)
}

/// Ends the machine by force.
pub(crate) fn force(rt: &impl Abort, core: &mut Core) -> Reported {
    let member = core.add_token().expect(rt, "memory");
    match call(rt, core, member, Call::Force) {
        Played::Ended(shown) => Reported::Ended(shown),
        _ => panic!(rt; "not ended"),
    }
}
