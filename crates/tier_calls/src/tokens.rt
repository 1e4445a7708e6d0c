//! The tokens of a tree: doors, crews, and tokens in a call that has run out of tries.

ghost use Rattle.std.specs.Prelude.{◌≡◌, ◌+◌, ◌<◌};

use crate::going::Going;
use crate::seated::Seated;
use std::marker::Model;
use tier_steps::view::View;

/// A token without members. It can register some at a tier, be split, and end the tree.
///
/// Dropping it changes nothing for others.
#[derive(Drop)]
pub struct Door {
    pub(crate) token: Seated,
}

impl Model for Door {
    ghost use Rattle.tier_calls.specs.Holding.{Holding, IsDoor};

    ghost Value = { Holding };

    ghost view = { λ d. d.token };

    ghost invariant = { λ d. IsDoor d.token };
}

/// A token with members, all at one tier. They arrive and leave one at a time.
///
/// If it is dropped, its members stay registered, and the tree waits for them forever. Let all of them leave first.
#[derive(Drop)]
pub struct Crew {
    pub(crate) token: Seated,
}

impl Model for Crew {
    ghost use Rattle.tier_calls.specs.Holding.{Holding, IsCrew};

    ghost Value = { Holding };

    ghost view = { λ c. c.token };

    ghost invariant = { λ c. IsCrew c.token };
}

/// A token in an arrival or a departure that ran out of tries after its member was counted.
///
/// The tiers above don't know of it yet, or the root is still to advance, and everyone else waits for that. So it
/// can't be dropped, only resumed: see [`Tiers::pass_on`](crate::tiers::Tiers::pass_on).
pub struct Errand {
    pub(crate) going: Going,
}

impl Model for Errand {
    ghost use Rattle.tier_calls.specs.declared.going.Going.{Going};
    ghost use Rattle.tier_calls.specs.Calls.{IsErrand};

    ghost Value = { Going };

    ghost view = { λ e. e.going };

    ghost invariant = { λ e. IsErrand e.going };
}

/// A token in a registration that ran out of tries while it opened the path to an empty tier.
///
/// It has claimed tiers of that path, and nobody else can register at them until it is done. So it can't be
/// dropped, only resumed: see [`Tiers::open_on`](crate::tiers::Tiers::open_on).
pub struct Opening {
    pub(crate) going: Going,
}

impl Model for Opening {
    ghost use Rattle.tier_calls.specs.declared.going.Going.{Going};
    ghost use Rattle.tier_calls.specs.Openings.{IsOpening};

    ghost Value = { Going };

    ghost view = { λ o. o.going };

    ghost invariant = { λ o. IsOpening o.going };
}

/// A token that is in no call, as [`Tiers::close`](crate::tiers::Tiers::close) takes them.
#[derive(Drop)]
pub enum Token {
    /// A token with members.
    Crew(Crew),
    /// A token without members.
    Door(Door),
}

impl Token {
    ghost use Rattle.std.specs.Prelude.{◌≡◌};
    ghost use Rattle.tier_calls.specs.Closes.{held};

    /// Returns what the token knows and owes.
    pub(crate) fn view(&self) -> View
        ensures { result ≡ (held self.now).view }
    {
        match self {
            Token::Crew(crew) => crew.token.view(),
            Token::Door(door) => door.token.view(),
        }
    }

    /// Returns the token itself.
    pub(crate) fn into_seated(self) -> Seated
        ensures { result ≡ held self }
    {
        match self {
            Token::Crew(crew) => {
                let Crew { token } = crew;
                token
            }
            Token::Door(door) => {
                let Door { token } = door;
                token
            }
        }
    }
}

impl Door {
    /// Returns the phase of the root when this token last looked at it.
    pub fn phase(&self) -> u32
        ensures phase { result ≡ self.now.view.phase }
        ensures none { self.now.view.size ≡ 0 }
    {
        self.token.view().phase
    }
}

impl Crew {
    /// Returns the tier of the members.
    pub fn tier(&self) -> u16
        ensures { result ≡ self.now.view.tier }
    {
        self.token.view().tier
    }

    /// Returns the number of members, from 1 to 65535.
    pub fn size(&self) -> u32
        ensures size { result ≡ self.now.view.size }
        ensures some { 0 < self.now.view.size }
    {
        self.token.view().size
    }

    /// Returns the number of members that have not arrived in the crew's [`phase`](Crew::phase).
    pub fn unarrived(&self) -> u32
        ensures { result + self.now.view.arrived ≡ self.now.view.size }
    {
        let view = self.token.view();
        view.size - view.arrived
    }

    /// Returns the phase that the crew is in, as of its token's last look at the root.
    pub fn phase(&self) -> u32
        ensures { result ≡ self.now.view.phase }
    {
        self.token.view().phase
    }
}
