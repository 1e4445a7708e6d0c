//! The rule by which most trees of the tests end.

ghost use Rattle.std.specs.Prelude.{◌≡◌, ◌==◌};

use advance_rule::EndPlan;

/// A rule of a tree.
pub type Rule = fn(u32, u32) -> bool;

/// A tree ends when nobody is registered.
pub const WHEN_EMPTY: EndPlan = EndPlan {
    when_empty: true,
    at: None,
};

/// Returns true if nobody is registered.
pub fn is_empty(_phase: u32, count: u32) -> bool
    ensures { result ≡ (count == 0) }
{
    count == 0
}
