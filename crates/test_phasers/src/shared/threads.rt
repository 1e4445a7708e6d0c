//! Threads that share a tree.

ghost use Rattle.std.specs.Prelude.{◌≡◌, All};
ghost use Rattle.advance_rule.specs.Stored.{Answers};
ghost use Rattle.advance_rule.specs.Plan.{end_ends_at};
ghost use Rattle.tier_table.specs.Closes.{held};

use crate::shared::duties::Duty::{Arrives, ComesAndGoes, Joins, Meets, MeetsByCrew, Stays};
use crate::shared::duties::{Actor, Duty, all_act};
use crate::trees::{left, planted, put};
use advance_rule::StoredAdvance;
use std::alloc::Global;
use std::process::Abort;
use std::sync::Wait;
use std::thread::Threads;
use test_groups::rules::{Rule, WHEN_EMPTY, is_empty};
use tier_table::closing::Closed;
use tier_table::tokens::{Door, Token};
use tier_table::tree::Tree;

// What some threads do on a tree, stage after stage, each with a token. The first token is given apart from the others.
// Then what is left: how many tiers, the root's phase and its parties, none of which has arrived, and the least number
// of tokens that have one member in that phase.
struct Scene {
    widths: &'static str,
    first: &'static [Duty],
    others: &'static [&'static [Duty]],
    tiers: usize,
    phase: u32,
    parties: u32,
    members: usize,
}

// Four threads register a party each, and then arrive.
const FOUR_ARRIVE: Scene = Scene {
    widths: "flat",
    first: &[Joins(0), Arrives],
    others: &[
        &[Joins(0), Arrives],
        &[Joins(0), Arrives],
        &[Joins(0), Arrives],
    ],
    tiers: 1,
    phase: 1,
    parties: 4,
    members: 0,
};

// Two threads join a flat tree and leave, 10000 times each, beside one that meets 1000 phases alone.
const TWO_COME_AND_GO: Scene = Scene {
    widths: "flat",
    first: &[Joins(0), Meets(1000)],
    others: &[
        &[Stays, Stays],
        &[Stays, ComesAndGoes(0, 10000)],
        &[Stays, ComesAndGoes(0, 10000)],
    ],
    tiers: 1,
    phase: 1000,
    parties: 1,
    members: 1,
};

// The same at leaves.
const TWO_COME_AND_GO_AT_LEAVES: Scene = Scene {
    widths: "2x3",
    first: &[Joins(3), Meets(1000)],
    others: &[
        &[Stays, Stays],
        &[Stays, ComesAndGoes(3, 10000)],
        &[Stays, ComesAndGoes(7, 10000)],
    ],
    tiers: 9,
    phase: 1000,
    parties: 1,
    members: 1,
};

// Eight threads meet 1000 times, each at the leaf of its number modulo the number of leaves. The last four join after
// the first four.
const EIGHT_MEET: Scene = Scene {
    widths: "2x3",
    first: &[Joins(3), Stays, Meets(1000)],
    others: &[
        &[Joins(4), Stays, Meets(1000)],
        &[Joins(5), Stays, Meets(1000)],
        &[Joins(6), Stays, Meets(1000)],
        &[Stays, Joins(7), Meets(1000)],
        &[Stays, Joins(8), Meets(1000)],
        &[Stays, Joins(3), Meets(1000)],
        &[Stays, Joins(4), Meets(1000)],
    ],
    tiers: 9,
    phase: 1000,
    parties: 2,
    members: 8,
};

// Eight threads below the root meet 1000 times, each by a call that takes its crew.
const EIGHT_MEET_BY_CREW: Scene = Scene {
    widths: "2x3",
    first: &[Joins(3), MeetsByCrew(1000)],
    others: &[
        &[Joins(4), MeetsByCrew(1000)],
        &[Joins(5), MeetsByCrew(1000)],
        &[Joins(6), MeetsByCrew(1000)],
        &[Joins(7), MeetsByCrew(1000)],
        &[Joins(8), MeetsByCrew(1000)],
        &[Joins(3), MeetsByCrew(1000)],
        &[Joins(4), MeetsByCrew(1000)],
    ],
    tiers: 9,
    phase: 1000,
    parties: 2,
    members: 8,
};

// Creates the actors of a scene. The first has this token, and those of the others are split off it.
#[tactic(auto, using(crate::proofs::Held::all_pushed))]
fn actors_of(
    rt: &impl Abort,
    alloc: Global,
    tree: &Tree<Rule>,
    mut door: Door,
    scene: &Scene,
) -> Vec<Actor>
    requires own { door.tree ≡ tree.now.tree }
    ensures { All (λ a. (held a.token).tree ≡ tree.now.tree) result.items }
{
    let mut actors = Vec::new(alloc);
    for duties in scene.others {
        let token = Token::Door(tree.split(&mut door));
        actors
            .push(Actor {
                token,
                duties: *duties,
            })
            .expect(rt, "memory");
    }
    let token = Token::Door(door);
    let duties = scene.first;
    actors.push(Actor { token, duties }).expect(rt, "memory");
    actors
}

// All stages, one after another.
fn staged<R: Threads + Wait + Abort + Sync>(
    rt: &R,
    tree: &Tree<Rule>,
    mut actors: Vec<Actor>,
    stages: usize,
) -> Vec<Actor>
    requires own { All (λ a. (held a.token).tree ≡ tree.now.tree) actors.items }
    requires rule { Answers (pre tree.now.rule.closure) (post tree.now.rule.closure) (end_ends_at tree.now.rule.plan) }
    ensures { All (λ a. (held a.token).tree ≡ tree.now.tree) result.items }
{
    for stage in 0..stages {
        actors = all_act(rt, tree, actors, stage);
    }
    actors
}

// Returns the tokens of all actors.
fn tokens_of(
    rt: &impl Abort,
    alloc: Global,
    tree: &Tree<Rule>,
    mut actors: Vec<Actor>,
) -> Vec<Token>
    requires own { All (λ a. (held a.token).tree ≡ tree.now.tree) actors.items }
    ensures { All (λ t. (held t).tree ≡ tree.now.tree) result.items }
{
    let mut tokens = Vec::new(alloc);
    while let Some(actor) = actors.pop() {
        put(rt, tree, &mut tokens, actor.token);
    }
    tokens
}

// Returns true if this is left of a scene.
fn is_left(closed: &Closed, scene: &Scene) -> bool {
    let mut members = 0usize;
    for token in &closed.tokens {
        if token.size == 1 && token.phase == scene.phase {
            members = members.saturating_add(1);
        }
    }
    let Some(root) = closed.words.first() else {
        return false;
    };
    (root.phase, root.parties, root.unarrived, root.ended)
        == (scene.phase, scene.parties, scene.parties, false)
        && closed.words.len() == scene.tiers
        && closed.tokens.len().checked_sub(1) == Some(scene.others.len())
        && members >= scene.members
}

// Plays a scene.
fn plays<R: Threads + Wait + Abort + Sync>(
    rt: &R,
    alloc: Global,
    rule: StoredAdvance<Rule>,
    scene: &Scene,
)
    requires rule { Answers (pre rule.closure) (post rule.closure) (end_ends_at rule.plan) }
{
    let (tree, door) = planted(rt, alloc, scene.widths, 0, rule);
    let actors = actors_of(rt, alloc, &tree, door, scene);
    let actors = staged(rt, &tree, actors, scene.first.len());
    let tokens = tokens_of(rt, alloc, &tree, actors);
    let closed = left(rt, alloc, tree, tokens);
    assert!(rt; is_left(&closed, scene));
}

const SCENES: [&Scene; 4] = [
    &FOUR_ARRIVE,
    &TWO_COME_AND_GO,
    &TWO_COME_AND_GO_AT_LEAVES,
    &EIGHT_MEET,
];

#[test]
fn threads_share_a_tree(rt: HostRuntime) {
    for scene in SCENES {
        let rule = StoredAdvance::new(is_empty as Rule, WHEN_EMPTY);
        plays(&rt, rt.alloc(), rule, scene);
    }
}

#[test]
fn eight_threads_meet_by_crews(rt: HostRuntime) {
    let rule = StoredAdvance::new(is_empty as Rule, WHEN_EMPTY);
    plays(&rt, rt.alloc(), rule, &EIGHT_MEET_BY_CREW);
}
