//! The calls of a single phaser as data, and their answers.

use thiserror::Error;

/// Why a call failed. The phaser is unchanged.
#[derive(Clone, Copy, Debug, PartialEq, Eq, Error)]
pub enum OneFault {
    /// From [`PhaserOne::new`](crate::PhaserOne::new): fewer than 0 parties, or more than 65535.
    #[error("fewer than 0 parties, or more than 65535")]
    TooMany,
    /// From a registration: with the new parties there would be more than 65535. Register fewer, or wait until some have
    /// left.
    #[error("no room for so many more parties")]
    Full,
    /// From an arrival or a departure: no party is unarrived. Register a party first.
    #[error("nobody is unarrived")]
    NobodyUnarrived,
    /// From a registration: fewer than 0 parties to add.
    #[error("fewer than 0 parties to add")]
    Negative,
}

/// A call of a single phaser.
#[derive(Clone, Copy, PartialEq, Eq)]
pub enum Call {
    /// Registers one party.
    Register,
    /// Registers this many parties.
    Bulk(i64),
    /// Arrives with one party.
    Arrive,
    /// Arrives with one party and deregisters it.
    Leave,
    /// Asks whether this phase has passed.
    Await(i32),
    /// Ends the phaser.
    Force,
}

/// The answer of a call that is given as data.
#[derive(Clone, Copy, PartialEq, Eq)]
pub enum Reply {
    /// The phase that the call returns, negative if the phaser has ended.
    Number(i32),
    /// The phase that was asked for has not passed.
    Waiting,
    /// The call failed for this reason, and the phaser is unchanged.
    Refused(OneFault),
}

/// The answer of [`PhaserOne::poll_await`](crate::PhaserOne::poll_await).
#[derive(Clone, Copy)]
pub enum Awaited {
    /// There is nothing to wait for. The number is the current phase, negative if the phaser has ended, or the negative
    /// number that was asked for.
    Now(i32),
    /// The phase has not passed. Ask again after other parties have arrived.
    Waiting,
}

/// An advance that a call took.
#[derive(Clone, Copy)]
pub struct Advance {
    /// The phase that ended.
    pub phase: u32,
    /// The number of parties registered when it ended.
    pub parties: u32,
}
