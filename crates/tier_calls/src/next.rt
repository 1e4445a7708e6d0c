//! What a call looks for, and which steps only look.

ghost use Rattle.std.specs.Prelude.{◌≡◌};
ghost use Rattle.tier_core.specs.Machine.{is_going};
ghost use Rattle.tier_calls.specs.Next.{meant, is_look};
ghost use Rattle.tier_calls.specs.Goes.{is_back};

use tier_core::call::Progress;
use tier_core::turn::claims;
use tier_steps::kind::Kind;
use tier_steps::view::View;

/// Returns the step that a call means to take when it looks.
pub fn meant_step(progress: Progress, view: View) -> Kind
    ensures { result ≡ meant progress view }
{
    match progress {
        Progress::Seeking { tier, size } => Kind::Join {
            tier,
            claimed: claims(view.errand),
            size,
        },
        _ => Kind::Look,
    }
}

/// Returns true if the call has looked at the root and still has steps to take.
pub fn goes_on(progress: Progress) -> bool
    ensures { result ≡ is_going progress }
{
    !matches!(progress, Progress::Idle | Progress::Begun(_))
}

/// Returns true if the call is releasing a path that it claimed.
pub fn gives_back(progress: Progress) -> bool
    ensures { result ≡ is_back progress }
{
    matches!(progress, Progress::GivingBack(_))
}

/// Returns true if a step of this kind changes no word.
pub fn only_looks(kind: Kind) -> bool
    ensures { result ≡ is_look kind }
{
    matches!(kind, Kind::Look | Kind::Glance | Kind::Refuse { .. })
}
