//! What a call may answer, by its token before it and after it.

use crate::calls::ask::Ask;
use crate::calls::holders::Holder;
use test_groups::reported::Reported;

/// What a token says of itself.
#[derive(Clone, Copy, PartialEq, Eq)]
pub enum Seen {
    /// No members, in this phase.
    Door(u32),
    /// Its tier, how many members it has, how many of them have not arrived, and its phase.
    Crew(u16, u32, u32, u32),
    /// A climb or an advance is owed.
    Errand,
    /// A path is being opened or given back.
    Opening,
}

/// Returns what a token says of itself.
pub(crate) fn tells(holder: &Holder) -> Seen {
    match holder {
        Holder::Outside(door) => Seen::Door(door.phase()),
        Holder::Inside(crew) => {
            Seen::Crew(crew.tier(), crew.size(), crew.unarrived(), crew.phase())
        }
        Holder::Owing(_) => Seen::Errand,
        Holder::Opening(_) => Seen::Opening,
    }
}

// Returns the phase after this one.
fn next(phase: u32) -> u32 {
    (phase.wrapping_add(1)) % 2147483648
}

// Returns how many members are unarrived, and in which phase, as an arrival finds them: all of them in the next phase if all
// had arrived.
fn found(size: u32, unarrived: u32, phase: u32) -> (u32, u32) {
    if unarrived == 0 {
        (size, next(phase))
    } else {
        (unarrived, phase)
    }
}

// Returns true if a registration of `members` members at a tier may answer this.
fn registered(tier: u16, members: u32, after: Seen, reported: Reported) -> bool {
    match reported {
        Reported::Joined(phase) => after == Seen::Crew(tier, members, members, phase),
        Reported::Held(phase, _) => after == Seen::Door(phase),
        Reported::Full(count) => {
            matches!(after, Seen::Door(_))
                && count <= 65535
                && count.saturating_add(members) > 65535
        }
        Reported::Ended(shown) => matches!(after, Seen::Door(_)) && shown < 0,
        Reported::Busy => matches!(after, Seen::Door(_)),
        Reported::Owing => after == Seen::Opening,
        _ => false,
    }
}

// Returns true if a registration that goes on may answer this.
fn opened(after: Seen, reported: Reported) -> bool {
    match reported {
        Reported::Joined(phase) => {
            matches!(after, Seen::Crew(_, size, unarrived, at) if size == unarrived && at == phase)
        }
        Reported::Held(phase, _) => after == Seen::Door(phase),
        Reported::Full(count) => matches!(after, Seen::Door(_)) && count <= 65535,
        Reported::Ended(shown) => matches!(after, Seen::Door(_)) && shown < 0,
        Reported::Owing => after == Seen::Opening,
        _ => false,
    }
}

// Returns true if an arrival or a departure may answer this. `crew` has the tier, how many members, how many of them are
// unarrived, and the phase.
fn passed(leaves: bool, crew: (u16, u32, u32, u32), after: Seen, reported: Reported) -> bool {
    let (tier, size, unarrived, phase) = crew;
    let (here, now) = found(size, unarrived, phase);
    let left = size.saturating_sub(u32::from(leaves));
    match reported {
        Reported::Done(at, _) => {
            at == now && after == Seen::Crew(tier, left, here.saturating_sub(1), now)
        }
        Reported::Left(at, _) => leaves && size == 1 && at == now && matches!(after, Seen::Door(_)),
        Reported::AlreadyArrived(at) => {
            unarrived == 0 && at == phase && after == Seen::Crew(tier, size, 0, phase)
        }
        Reported::Ended(shown) => {
            shown < 0 && matches!(after, Seen::Crew(at, n, _, _) if at == tier && n == size)
        }
        Reported::Busy => matches!(after, Seen::Crew(at, n, _, _) if at == tier && n == size),
        Reported::Owing => after == Seen::Errand,
        _ => false,
    }
}

// Returns true if an arrival or a departure that goes on may answer this.
fn resumed(after: Seen, reported: Reported) -> bool {
    match reported {
        Reported::Done(phase, _) => matches!(after, Seen::Crew(_, _, _, at) if at == phase),
        Reported::Left(_, _) => matches!(after, Seen::Door(_)),
        Reported::Owing => after == Seen::Errand,
        _ => false,
    }
}

// Returns true if a poll may answer this.
fn polled(crew: (u16, u32, u32, u32), after: Seen, reported: Reported) -> bool {
    let (tier, size, unarrived, phase) = crew;
    let (here, now) = found(size, unarrived, phase);
    match reported {
        Reported::Passed(at) => unarrived == 0
            && at == now
            && after == Seen::Crew(tier, size, here, now),
        Reported::Waiting => unarrived == 0 && after == Seen::Crew(tier, size, 0, phase),
        Reported::Here(at) => unarrived > 0
            && at == phase
            && after == Seen::Crew(tier, size, unarrived, at),
        Reported::Ended(shown) => shown < 0,
        _ => false,
    }
}

/// Returns true if a call may answer this.
pub(crate) fn may_be_reported(ask: Ask, before: Seen, after: Seen, reported: Reported) -> bool {
    match (ask, before) {
        (Ask::Register(tier, members), Seen::Door(_)) => registered(tier, members, after, reported),
        (Ask::Open, Seen::Opening) => opened(after, reported),
        (Ask::Arrive, Seen::Crew(tier, size, unarrived, phase)) => {
            passed(false, (tier, size, unarrived, phase), after, reported)
        }
        (Ask::Leave, Seen::Crew(tier, size, unarrived, phase)) => {
            passed(true, (tier, size, unarrived, phase), after, reported)
        }
        (Ask::Resume, Seen::Errand) => resumed(after, reported),
        (Ask::Poll, Seen::Crew(tier, size, unarrived, phase)) => {
            polled((tier, size, unarrived, phase), after, reported)
        }
        (Ask::Force, Seen::Door(_)) => matches!(reported, Reported::Ended(_) | Reported::Busy),
        _ => false,
    }
}
