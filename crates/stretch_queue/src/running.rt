//! What names a run in contracts.
use std::marker::Brand;

/// Identifies a run in contracts: the mark of its stretches, the number of workers, the tree at which they meet, and the lists of
/// the tickets for stretches, and for workers that have stopped. Each run picks a type for it.
pub trait Running {
    ghost use Rattle.std.specs.Prelude.{ℕ};
    ghost use Rattle.tier_table.specs.Holding.{Named};
    ghost use Rattle.atomic_table.specs.Seated.{TableId};

    ghost mark: { TableId };

    ghost workers: { ℕ };

    ghost tree: { Named };

    ghost passes: { TableId };

    ghost stops: { TableId };
}

impl Running for Brand {
    ghost use Rattle.std.specs.Prelude.{[], false, None};

    ghost mark = { record { words = 0; slots = 0; views_name = 0; atom = 0; block = 0; offset = 0; slot_names = [] } };

    ghost workers = { 1 };

    ghost tree = { record {
      id = record { words = 0; slots = 0; views_name = 0; atom = 0; block = 0; offset = 0; slot_names = [] };
      key = record { shape = []; phase = 0; plan = record { when_empty = false; at = None } };
    } };

    ghost passes = { record { words = 0; slots = 0; views_name = 0; atom = 0; block = 0; offset = 0; slot_names = [] } };

    ghost stops = { record { words = 0; slots = 0; views_name = 0; atom = 0; block = 0; offset = 0; slot_names = [] } };
}
