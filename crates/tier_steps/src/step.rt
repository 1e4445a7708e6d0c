//! The steps: what each kind does to one word and to one view. Nothing here depends on the number of tiers or tokens.

ghost use Rattle.std.specs.Prelude.{◌≡◌, ◌+◌, ◌≤◌};
ghost use Rattle.tier_steps.specs.View.{Arrival, Departure};
ghost use Rattle.tier_steps.specs.Word.{IsLegal, joined, advanced, settled, refreshed};
ghost use Rattle.tier_steps.specs.Step.{
  passed,
  owed,
  added,
  opening,
  looked,
  refused,
  given_up,
  dropped,
  moved,
  arrived_view,
  left_view,
  joined_view,
  word_after,
  view_after,
  IsRunnable,
};

use crate::kind::Kind;
use crate::view::{Errand, OpeningStage, Passage, View};
use phaser_word::{LAST_PHASE, MOST_PARTIES, Word, next_phase};

/// Returns how many parties a join adds to a tier: the members, or one party if `claimed` tiers below it are claimed.
pub fn parties_added(claimed: u16, size: u32) -> u32
    ensures { result ≡ added claimed size }
{
    if claimed == 0 { size } else { 1 }
}

/// Returns what a token owes after a party arrives at or leaves a tier. `word` is the tier's word before, and `above`
/// its parent.
pub fn errand_after(above: u16, tier: u16, passage: Passage, word: Word) -> Errand
    ensures { result ≡ owed above tier passage word }
{
    if tier == 0 {
        return if word.unarrived == 1 {
            Errand::Advancing
        } else {
            Errand::Rest
        };
    }
    match passage {
        Passage::Departure if word.parties == 1 => Errand::Climbing {
            tier: above,
            passage: Passage::Departure,
        },
        _ if word.unarrived == 1 => Errand::Climbing {
            tier: above,
            passage: Passage::Arrival,
        },
        _ => Errand::Rest,
    }
}

/// Returns the word of a tier after a party arrives or leaves.
pub fn word_passed(tier: u16, passage: Passage, word: Word) -> Word
    ensures { result ≡ passed tier passage word }
{
    let unarrived = word.unarrived.saturating_sub(1);
    match passage {
        Passage::Arrival => Word { unarrived, ..word },
        Passage::Departure => Word {
            parties: word.parties.saturating_sub(1),
            unarrived: if tier != 0 && word.parties == 1 {
                1
            } else {
                unarrived
            },
            ..word
        },
    }
}

/// Returns the word of a tier after `more` parties join.
fn word_joined(word: Word, more: u32) -> Word
    requires capacity { word.parties + more ≤ MOST_PARTIES }
    ensures { result ≡ joined word more }
{
    let unarrived = if word.parties == 0 {
        more
    } else {
        word.unarrived + more
    };
    Word {
        parties: word.parties + more,
        unarrived,
        ..word
    }
}

/// Returns the root's word in the next phase, in which nobody has arrived.
fn word_advanced(word: Word, ended: bool) -> Word
    ensures { result ≡ advanced word ended }
{
    Word {
        phase: next_phase(word.phase),
        parties: word.parties,
        unarrived: if word.parties == 0 { 1 } else { word.parties },
        ended,
    }
}

/// Returns the word of a claimed tier after it gets its first parties, in `phase`.
fn word_settled(word: Word, phase: u32, parties: u32) -> Word
    requires legal { IsLegal (settled word phase parties) }
    ensures { result ≡ settled word phase parties }
{
    Word {
        phase,
        parties,
        unarrived: parties,
        ..word
    }
}

/// Returns the word of a tier without parties: `unarrived` is the mark that says whether it is empty or being opened.
fn word_without(word: Word, unarrived: u32) -> Word
    requires few { unarrived ≤ 2 }
    ensures { result ≡ record word { parties = 0; unarrived = unarrived } }
{
    Word {
        parties: 0,
        unarrived,
        ..word
    }
}

/// Returns the word of a lagging tier after it comes into `phase`: all its parties are unarrived.
fn word_refreshed(word: Word, phase: u32) -> Word
    requires legal { phase ≤ LAST_PHASE }
    ensures { result ≡ refreshed word phase }
{
    Word {
        phase,
        unarrived: word.parties,
        ..word
    }
}

/// Returns the word after a step.
pub fn step_word(kind: Kind, tier: u16, word: Word, view: &View) -> Word
    requires { IsRunnable kind tier word view.now }
    ensures { result ≡ word_after kind tier word view.now }
{
    match kind {
        Kind::Look | Kind::Glance | Kind::Refuse { .. } => word,
        Kind::Join { claimed, size, .. } => word_joined(word, parties_added(claimed, size)),
        Kind::Arrive => word_passed(tier, Passage::Arrival, word),
        Kind::Leave => word_passed(tier, Passage::Departure, word),
        Kind::Advance(ends) => word_advanced(word, ends),
        Kind::Force => Word {
            ended: true,
            ..word
        },
        Kind::Claim { .. } => word_without(word, 2),
        Kind::Settle { claimed, size, .. } => {
            word_settled(word, view.phase, parties_added(claimed, size))
        }
        Kind::SettleBack { .. } => word_without(word, 1),
        Kind::Climb(passage) => word_passed(tier, passage, word),
        Kind::Refresh => word_refreshed(word, view.phase),
    }
}

/// Returns the errand of a path with `claimed` claimed tiers. Without claims there is none.
fn path(tier: u16, claimed: u16, stage: OpeningStage, size: u32) -> Errand
    ensures { result ≡ opening tier claimed stage size }
{
    if claimed == 0 {
        return Errand::Rest;
    }
    Errand::Opening {
        tier,
        claimed,
        stage,
        size,
    }
}

/// Returns the errand after a join is refused: claimed tiers are released from now on.
fn give_up(errand: Errand) -> Errand
    ensures { result ≡ given_up errand }
{
    match errand {
        Errand::Opening {
            tier,
            claimed,
            stage: OpeningStage::Seeking,
            size,
        } => Errand::Opening {
            tier,
            claimed,
            stage: OpeningStage::GoingBack,
            size,
        },
        _ => errand,
    }
}

/// Returns what is left of an errand after the tree has ended.
fn drop_errand(errand: Errand) -> Errand
    ensures { result ≡ dropped errand }
{
    match errand {
        Errand::Advancing | Errand::Climbing { tier: 0, .. } => Errand::Rest,
        Errand::Rest | Errand::Climbing { .. } | Errand::Opening { .. } => give_up(errand),
    }
}

/// Moves a token whose members have all arrived into the root's phase.
fn go_on(root: Word, view: View) -> View
    ensures { result ≡ moved root view }
{
    if view.arrived != view.size || view.phase == root.phase {
        return view;
    }
    View {
        phase: root.phase,
        arrived: 0,
        ..view
    }
}

/// Returns a view after a look at the root.
pub fn look(root: Word, view: View) -> View
    ensures { result ≡ looked root view }
{
    let going_back = matches!(
        view.errand,
        Errand::Opening {
            stage: OpeningStage::GoingBack,
            ..
        }
    );
    let view = View {
        led: false,
        note: if going_back { view.note } else { None },
        ..view
    };
    if !root.ended {
        return go_on(root, view);
    }
    View {
        end_seen: Some(root.phase),
        errand: drop_errand(view.errand),
        ..view
    }
}

/// Returns a view after a refusal at a tier. At the root, this is a look as well.
pub fn refuse(tier: u16, word: Word, view: View) -> View
    ensures { result ≡ refused tier word view }
{
    let view = if tier == 0 { look(word, view) } else { view };
    View {
        note: Some((tier, word)),
        errand: give_up(view.errand),
        ..view
    }
}

/// Returns a view after one member arrives or leaves.
fn pass(passage: Passage, above: u16, tier: u16, word: Word, view: View) -> View
    requires few { view.arrived ≤ MOST_PARTIES }
    ensures arrived { passage ≡ Arrival → result ≡ arrived_view above tier word view }
    ensures left { passage ≡ Departure → result ≡ left_view above tier word view }
{
    let errand = errand_after(above, tier, passage, word);
    match passage {
        Passage::Arrival => View {
            arrived: view.arrived + 1,
            errand,
            ..view
        },
        Passage::Departure => View {
            size: view.size.saturating_sub(1),
            errand,
            ..view
        },
    }
}

/// Returns a view after its members are admitted, all unarrived.
fn admit(tier: u16, claimed: u16, size: u32, word: Word, view: View) -> View
    ensures { result ≡ joined_view tier claimed size word view }
{
    View {
        tier,
        size,
        phase: word.phase,
        arrived: 0,
        errand: path(tier, claimed, OpeningStage::Joined, size),
        ..view
    }
}

/// Returns the view after a step. `above` is the parent of the tier.
#[inline(always)]
pub fn step_view(kind: Kind, tier: u16, above: u16, word: Word, view: View) -> View
    requires { IsRunnable kind tier word view }
    ensures { result ≡ view_after above kind tier word view }
{
    let errand = match kind {
        Kind::Look => return look(word, view),
        Kind::Refuse { .. } => return refuse(tier, word, view),
        Kind::Join {
            tier,
            claimed,
            size,
        } => return admit(tier, claimed, size, word, view),
        Kind::Arrive => return pass(Passage::Arrival, above, tier, word, view),
        Kind::Leave => return pass(Passage::Departure, above, tier, word, view),
        Kind::Force => {
            let end_seen = Some(word.phase);
            return View { end_seen, ..view };
        }
        Kind::Glance | Kind::Refresh => view.errand,
        Kind::Advance(_) => Errand::Rest,
        Kind::Claim {
            tier,
            claimed,
            size,
        } => path(tier, claimed + 1, OpeningStage::Seeking, size),
        Kind::Settle {
            tier,
            claimed,
            size,
        } => path(tier, claimed, OpeningStage::Joined, size),
        Kind::SettleBack {
            tier,
            claimed,
            size,
        } => path(tier, claimed, OpeningStage::GoingBack, size),
        Kind::Climb(passage) => errand_after(above, tier, passage, word),
    };
    let led = view.led || matches!(kind, Kind::Advance(_));
    View {
        errand,
        led,
        ..view
    }
}
