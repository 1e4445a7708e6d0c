//! What a step changes in a token's view, written in place.

ghost use Rattle.std.specs.Prelude.{◌≡◌};
ghost use Rattle.tier_steps.specs.Step.{looked, view_after, IsRunnable};

use phaser_word::Word;
use tier_steps::kind::Kind;
use tier_steps::step::{errand_after, look, step_view};
use tier_steps::view::{Errand, Passage, View};

/// Writes what a look at the root changes in a view.
#[inline(always)]
fn look_in(root: Word, view: &mut View)
    ensures { view.new ≡ looked root view.old }
{
    if root.ended || matches!(view.errand, Errand::Opening { .. }) {
        *view = look(root, *view);
        return;
    }
    view.led = false;
    view.note = None;
    if view.arrived == view.size && view.phase != root.phase {
        view.phase = root.phase;
        view.arrived = 0;
    }
}

/// Writes what a step changes in a view, and nothing else. `above` is the parent of the tier.
#[inline(always)]
pub(crate) fn step_in(kind: Kind, tier: u16, above: u16, word: Word, view: &mut View)
    requires { IsRunnable kind tier word view.old }
    ensures { view.new ≡ view_after above kind tier word view.old }
{
    match kind {
        Kind::Look => look_in(word, view),
        Kind::Glance | Kind::Refresh => {}
        Kind::Arrive => {
            view.arrived += 1;
            view.errand = errand_after(above, tier, Passage::Arrival, word);
        }
        Kind::Climb(passage) => view.errand = errand_after(above, tier, passage, word),
        Kind::Advance(_) => {
            view.errand = Errand::Rest;
            view.led = true;
        }
        _ => *view = step_view(kind, tier, above, word, *view),
    }
}
