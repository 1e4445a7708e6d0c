//! The flat phaser: one list of members, without counts and without tiers.
//!
//! It defines what every other phaser here is proved to do: `specs/Flat.antt` and `specs/Step.antt`. Its rules are those of Java
//! SE 21's `Phaser`. Java's API has no owners of members, and no separate step for the advance.
#![tactic(auto)]

ghost use Rattle.flat_phaser.specs.Laws.{
  AdvancesWhenAllArrived,
  EveryoneIsEachOwner,
  ArrivalsCountOnce,
  NoArrivalIsLost,
  DueTellsEveryone,
  TheLastBringsTheAdvance,
  OneMemberIsLast,
  StepsAreTaken,
  AlikeStaysAlike,
};

/// One registered party.
#[derive(Clone, Copy, PartialEq, Eq)]
pub struct Member {
    /// The number of its owner.
    pub owner: u32,
    /// The phase in which it last arrived, if it ever did.
    pub mark: Option<u32>,
}

/// A step of a flat phaser.
#[derive(Clone, Copy)]
pub enum FlatStep {
    /// Registers this many members of an owner, all unarrived: the owner, then the number.
    Join(u32, u32),
    /// Arrives with an unarrived member of this owner.
    Arrive(u32),
    /// Removes an unarrived member of this owner.
    Leave(u32),
    /// Begins the next phase. If true, this ends the phaser.
    Advance(bool),
    /// Ends the phaser.
    Force,
}

/// In every run, an advance comes only after everyone who is registered has arrived.
pub fn advances_when_all_arrived()
    ensures { AdvancesWhenAllArrived }
{}

/// Everyone has arrived exactly if all members of each owner have.
pub fn everyone_is_each_owner()
    ensures { EveryoneIsEachOwner }
{}

/// An arrival counts in one phase only: right after an advance, nobody has arrived.
pub fn arrivals_count_once()
    ensures { ArrivalsCountOnce }
{}

/// Between two advances no arrival is lost, and nobody has arrived except by an arrival.
pub fn no_arrival_is_lost()
    ensures { NoArrivalIsLost }
{}

/// An arrival or a departure takes some unarrived member of its owner.
pub fn steps_are_taken()
    ensures { StepsAreTaken }
{}

/// Alike flat phasers stay alike after every step, whichever member the step takes in each.
pub fn alike_stays_alike()
    ensures { AlikeStaysAlike }
{}

/// After an arrival or a departure, an advance is due exactly if all members of every owner have arrived.
pub fn due_tells_everyone()
    ensures { DueTellsEveryone }
{}

/// After the last unarrived member arrives or leaves, the advance into the next phase is due.
pub fn the_last_brings_the_advance()
    ensures { TheLastBringsTheAdvance }
{}

/// A phaser of one member exists, and these laws apply to it.
pub fn one_member_is_last()
    ensures { OneMemberIsLast }
{}
