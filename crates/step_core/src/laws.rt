//! Laws on rounds and on what jobs mean. Each function does nothing: its contract is the law.
ghost use Rattle.step_core.specs.Laws.{DeliveryOrderIsFree, LongerLimitsOnlyAdd, JobsEnd, RecordsAgree, LivePathsRise};
ghost use Rattle.step_core.specs.Laws.{LaterPathWins, OthersKeepTheirValues};
ghost use Rattle.step_core.specs.Laws.{MissingTells, OrdersAreOwn, NextLiveSyncedOrSpawned, FormatsMeanTheSame};

/// What a superstep does doesn't depend on the order in which deliveries come.
pub fn delivery_order_is_free()
    ensures { DeliveryOrderIsFree }
{}

/// A longer limit only adds supersteps.
pub fn longer_limits_only_add()
    ensures { LongerLimitsOnlyAdd }
{}

/// Each job ends within as many supersteps as its limit says.
pub fn jobs_end()
    ensures { JobsEnd }
{}

/// Of the parties of a superstep those live on that haven't left.
pub fn records_agree()
    ensures { RecordsAgree }
{}

/// Live paths strictly rise, so that each live task has a path of its own.
pub fn live_paths_rise()
    ensures { LivePathsRise }
{}

/// A put of a later path wins over every put of an earlier one.
pub fn later_path_wins()
    ensures { LaterPathWins }
{}

/// A cell to which no task puts keeps its value.
pub fn others_keep_their_values()
    ensures { OthersKeepTheirValues }
{}

/// Nothing is missing exactly where closing a round doesn't answer `Missing`.
pub fn missing_tells()
    ensures { MissingTells }
{}

/// While a round's job runs, an order of the same job and step is one of its own.
pub fn orders_are_own()
    ensures { OrdersAreOwn }
{}

/// The next live paths are those of the tasks that synced and of the spawned ones, in path order.
pub fn next_live_synced_or_spawned()
    ensures { NextLiveSyncedOrSpawned }
{}

/// What a job leaves within a limit depends on its arrays, bodies and start lines alone: two jobs that have these alike leave the same,
/// whatever their formats.
pub fn formats_mean_the_same()
    ensures { FormatsMeanTheSame }
{}
