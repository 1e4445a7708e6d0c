//! Threads that make random calls beside each other.

ghost use Rattle.std.specs.Prelude.{◌≡◌, All, false};
ghost use Rattle.advance_rule.specs.Stored.{Answers};
ghost use Rattle.advance_rule.specs.Plan.{end_ends_at};
ghost use Rattle.tier_table.specs.Closes.{held};
ghost use Rattle.test_phasers.specs.Holders.{tree_of};

use crate::calls::ask::Ask;
use crate::calls::call::{at_rest, call};
use crate::calls::holders::Holder;
use crate::shared::reported::{may_be_reported, tells};
use crate::trees::{left, planted, put};
use advance_rule::{EndPlan, StoredAdvance};
use std::alloc::Global;
use std::process::Abort;
use std::thread;
use std::thread::Threads;
use test_groups::counts::tally;
use test_groups::numbers::Numbers;
use test_groups::reported::Reported;
use test_groups::rules::{Rule, WHEN_EMPTY, is_empty};
use tier_shape::Shape;
use tier_table::tokens::{Door, Token};
use tier_table::tree::Tree;

// A token, where its numbers begin, and how many advances it has taken.
#[derive(Drop)]
struct Player {
    token: Token,
    seed: u32,
    led: u32,
}

// A tree never ends but by force.
const NEVER: EndPlan = EndPlan {
    when_empty: false,
    at: None,
};

fn is_never(_phase: u32, _count: u32) -> bool
    ensures { result ≡ false }
{
    false
}

// Returns what a token is asked next; late, and with a few of the numbers, this is the end by force or more members than will
// arrive.
fn next_ask(holder: &Holder, numbers: &mut Numbers, tiers: u32, late: bool) -> Ask {
    match holder {
        Holder::Outside(_) if late && numbers.below(400) == 0 => Ask::Force,
        Holder::Outside(_) => {
            let tier = (numbers.below(tiers) % 64) as u16;
            let few = numbers.below(3).saturating_add(1);
            let many = late && numbers.below(32) == 0;
            let members = if many { 65533 } else { few };
            Ask::Register(tier, members)
        }
        Holder::Inside(_) => match numbers.below(8) {
            0 => Ask::Leave,
            1 | 2 => Ask::Poll,
            _ => Ask::Arrive,
        },
        Holder::Owing(_) => Ask::Resume,
        Holder::Opening(_) => Ask::Open,
    }
}

// One call with up to 4 tries, whose answer is one that it may have; and whether its token took an advance.
fn turn(rt: &impl Abort, tree: &Tree<Rule>, holder: Holder, ask: Ask, tries: u32) -> (Holder, bool)
    requires own { tree_of holder ≡ tree.now.tree }
    requires rule { Answers (pre tree.now.rule.closure) (post tree.now.rule.closure) (end_ends_at tree.now.rule.plan) }
    ensures { tree_of result.0 ≡ tree.now.tree }
{
    let before = tells(&holder);
    let (holder, reported) = call(rt, tree, holder, ask, tries);
    assert!(rt; may_be_reported(ask, before, tells(&holder), reported));
    let led = matches!(reported, Reported::Done(_, true) | Reported::Left(_, true));
    (holder, led)
}

// Makes a number of random calls of a token. Returns also how many advances it took.
fn turns(
    rt: &impl Abort,
    tree: &Tree<Rule>,
    mut holder: Holder,
    seed: u32,
    count: u32,
) -> (Holder, u32)
    requires own { tree_of holder ≡ tree.now.tree }
    requires rule { Answers (pre tree.now.rule.closure) (post tree.now.rule.closure) (end_ends_at tree.now.rule.plan) }
    ensures { tree_of result.0 ≡ tree.now.tree }
{
    let mut numbers = Numbers { seed };
    let mut led = 0u32;
    for number in 0..count {
        let late = number > count / 2;
        let ask = next_ask(&holder, &mut numbers, tree.shape().count() as u32, late);
        let (next, leads) = turn(rt, tree, holder, ask, numbers.below(5));
        holder = next;
        led = led.saturating_add(u32::from(leads));
    }
    (holder, led)
}

// Goes on with what a token owes until it is at rest; and how many advances it took.
fn settled(rt: &impl Abort, tree: &Tree<Rule>, mut holder: Holder) -> (Token, u32)
    requires own { tree_of holder ≡ tree.now.tree }
    requires rule { Answers (pre tree.now.rule.closure) (post tree.now.rule.closure) (end_ends_at tree.now.rule.plan) }
    ensures { (held result.0).tree ≡ tree.now.tree }
{
    let mut led = 0u32;
    for _ in 0..1000000u32 {
        let ask = match &holder {
            Holder::Owing(_) => Ask::Resume,
            Holder::Opening(_) => Ask::Open,
            _ => break,
        };
        let (next, leads) = turn(rt, tree, holder, ask, 16);
        holder = next;
        led = led.saturating_add(u32::from(leads));
    }
    (at_rest(rt, holder), led)
}

// A token as one in a state.
fn holder_of(token: Token) -> Holder
    ensures { tree_of result ≡ (held token).tree }
{
    match token {
        Token::Door(door) => Holder::Outside(door),
        Token::Crew(crew) => Holder::Inside(crew),
    }
}

// All random calls of a player.
fn plays(rt: &impl Abort, tree: &Tree<Rule>, player: Player) -> Player
    requires own { (held player.token).tree ≡ tree.now.tree }
    requires rule { Answers (pre tree.now.rule.closure) (post tree.now.rule.closure) (end_ends_at tree.now.rule.plan) }
    ensures { (held result.token).tree ≡ tree.now.tree }
{
    let Player {
        token,
        seed,
        led: _,
    } = player;
    let (holder, some) = turns(rt, tree, holder_of(token), seed, 2000);
    let (token, more) = settled(rt, tree, holder);
    Player {
        token,
        seed,
        led: some.saturating_add(more),
    }
}

// All players, each in its thread.
fn all_play<R: Threads + Abort + Sync>(
    rt: &R,
    tree: &Tree<Rule>,
    players: Vec<Player>,
) -> Vec<Player>
    requires own { All (λ p. (held p.token).tree ≡ tree.now.tree) players.items }
    requires rule { Answers (pre tree.now.rule.closure) (post tree.now.rule.closure) (end_ends_at tree.now.rule.plan) }
    ensures { All (λ p. (held p.token).tree ≡ tree.now.tree) result.items }
{
    let played = thread::map_vec(
        rt,
        players,
        &|player: Player| -> Player
            requires { ((held player.token).tree ≡ tree.now.tree) × Answers (pre tree.now.rule.closure) (post tree.now.rule.closure) (end_ends_at tree.now.rule.plan) }
            ensures { (held result.token).tree ≡ tree.entry.now.tree }
        { plays(rt, tree, player) },
    );
    played.expect(rt, "memory")
}

// A number of players, split off a token.
#[tactic(auto, using(crate::proofs::Held::all_pushed))]
fn players(
    rt: &impl Abort,
    alloc: Global,
    tree: &Tree<Rule>,
    mut door: Door,
    seed: u32,
) -> Vec<Player>
    requires own { door.tree ≡ tree.now.tree }
    ensures { All (λ p. (held p.token).tree ≡ tree.now.tree) result.items }
{
    let mut players = Vec::new(alloc);
    for number in 0..8u32 {
        let token = Token::Door(tree.split(&mut door));
        let player = Player {
            token,
            seed: seed.wrapping_mul(8).wrapping_add(number),
            led: 0,
        };
        players.push(player).expect(rt, "memory");
    }
    players
}

// Returns the tokens of all players, and how many advances they took.
fn tokens_of(
    rt: &impl Abort,
    alloc: Global,
    tree: &Tree<Rule>,
    mut players: Vec<Player>,
) -> (Vec<Token>, u32)
    requires own { All (λ p. (held p.token).tree ≡ tree.now.tree) players.items }
    ensures { All (λ t. (held t).tree ≡ tree.now.tree) result.0.items }
{
    let mut tokens = Vec::new(alloc);
    let mut led = 0u32;
    while let Some(player) = players.pop() {
        led = led.saturating_add(player.led);
        put(rt, tree, &mut tokens, player.token);
    }
    (tokens, led)
}

// Eight threads call at random. At the end the root has advanced as often as the answers say, and each word counts the
// tokens at its tier and the tiers below it. Returns how often it advanced; a game may end before it does.
fn game<R: Threads + Abort + Sync>(
    rt: &R,
    alloc: Global,
    rule: StoredAdvance<Rule>,
    widths: &str,
    seed: u32,
) -> u32
    requires { Answers (pre rule.closure) (post rule.closure) (end_ends_at rule.plan) }
{
    let (tree, door) = planted(rt, alloc, widths, 0, rule);
    let players = players(rt, alloc, &tree, door, seed);
    let players = all_play(rt, &tree, players);
    let (tokens, led) = tokens_of(rt, alloc, &tree, players);
    let shape = Shape::from_widths(alloc, widths).expect(rt, "a shape");
    let closed = left(rt, alloc, tree, tokens);
    assert!(rt; closed.words.first().map(|root| root.phase) == Some(led));
    assert!(rt; tally(&shape, &closed.words, &closed.tokens));
    led
}

#[test]
fn random_calls_are_reported_as_the_table_says(rt: HostRuntime) {
    let mut led = 0u32;
    for seed in 0..4 {
        for widths in ["flat", "2", "2x2x2", "1x1x1x1x1x1", "3x3"] {
            let rule = StoredAdvance::new(is_never as Rule, NEVER);
            led = led.saturating_add(game(&rt, rt.alloc(), rule, widths, seed));
            let rule = StoredAdvance::new(is_empty as Rule, WHEN_EMPTY);
            led = led.saturating_add(game(&rt, rt.alloc(), rule, widths, seed));
        }
    }
    // Of all games together some have advanced.
    assert!(rt; led > 0);
}
