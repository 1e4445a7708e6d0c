//! The tree as a machine: how it begins, and one step of a call.

use crate::rules::WHEN_EMPTY;
use std::alloc::Global;
use tier_core::call::{Answer, Played, Step};
use tier_core::tree::Core;
use tier_shape::Shape;
use tier_steps::view::View;

/// A machine of these widths with `tokens` tokens; none if that is no shape, or memory runs out.
pub fn machine(alloc: Global, widths: &str, tokens: u32) -> Option<Core> {
    let shape = Shape::from_widths(alloc, widths).ok()?;
    let mut core = Core::new(alloc, shape, 0, WHEN_EMPTY).ok()?;
    for _ in 0..tokens {
        core.add_token().ok()?;
    }
    Some(core)
}

/// Returns what a token knows.
pub fn view_of(core: &Core, token: usize) -> View {
    if token < core.tokens() {
        return core.view(token);
    }
    View::new(0)
}

/// Takes the next step of a token's call, and returns its answer; none if the token has no call.
pub fn stepped(core: &mut Core, token: usize) -> Option<Played> {
    let step = if core.must_advance(token) {
        Step::Finish(token)
    } else {
        Step::Go(token)
    };
    match core.step(step) {
        Answer::Played(answer) => Some(answer),
        _ => None,
    }
}
