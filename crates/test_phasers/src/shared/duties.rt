//! What a thread does with its token, and threads beside each other.

ghost use Rattle.std.specs.Prelude.{◌≡◌, All};
ghost use Rattle.advance_rule.specs.Stored.{Answers};
ghost use Rattle.advance_rule.specs.Plan.{end_ends_at};
ghost use Rattle.tier_table.specs.Closes.{held};

use std::process::Abort;
use std::sync::Wait;
use std::thread;
use std::thread::Threads;
use test_groups::rules::Rule;
use tier_table::in_place::ArrivedInPlace;
use tier_table::tokens::{Crew, Door, Token};
use tier_table::tree::Tree;
use tier_table::waiting::{ArrivedAtLast, AwaitedAdvance, RegisteredAtLast};

/// What a thread does.
#[derive(Clone, Copy)]
pub enum Duty {
    /// Nothing.
    Stays,
    /// A member joins this tier.
    Joins(u16),
    /// A member arrives.
    Arrives,
    /// A member joins this tier and leaves, a number of times.
    ComesAndGoes(u16, u32),
    /// A member arrives in place and waits for the next phase, from phase 0 on this many times.
    Meets(u32),
    /// A member arrives by a call that takes the crew and waits for the next phase, from phase 0 on this many times.
    MeetsByCrew(u32),
}

/// A token, and what is done with it in each stage, each time in a separate thread.
#[derive(Drop)]
pub struct Actor {
    /// The token.
    pub token: Token,
    /// What is done with it.
    pub duties: &'static [Duty],
}

// A member joins a tier.
fn joins<R: Wait + Abort>(rt: &R, tree: &Tree<Rule>, door: Door, tier: u16) -> Crew
    requires own { door.tree ≡ tree.now.tree }
    ensures { result.tree ≡ tree.now.tree }
{
    assert!(rt; usize::from(tier) < tree.shape().count());
    match tree.register_wait(rt, door, tier, 1) {
        RegisteredAtLast::Joined(crew, _) => crew,
        _ => panic!(rt; "not joined"),
    }
}

// A member arrives.
fn arrives<R: Wait + Abort>(rt: &R, tree: &Tree<Rule>, crew: Crew) -> Crew
    requires own { crew.tree ≡ tree.now.tree }
    requires rule { Answers (pre tree.now.rule.closure) (post tree.now.rule.closure) (end_ends_at tree.now.rule.plan) }
    ensures { result.tree ≡ tree.now.tree }
{
    match tree.arrive_wait(rt, crew) {
        ArrivedAtLast::Done(crew, _, _) => crew,
        _ => panic!(rt; "not arrived"),
    }
}

// Lets the last member of a crew leave.
fn leaves<R: Wait + Abort>(rt: &R, tree: &Tree<Rule>, crew: Crew) -> Door
    requires own { crew.tree ≡ tree.now.tree }
    requires rule { Answers (pre tree.now.rule.closure) (post tree.now.rule.closure) (end_ends_at tree.now.rule.plan) }
    ensures { result.tree ≡ tree.now.tree }
{
    match tree.leave_wait(rt, crew) {
        ArrivedAtLast::Left(door, _, _) => door,
        _ => panic!(rt; "not left"),
    }
}

// A member joins a tier and leaves, `times` times.
fn comes_and_goes<R: Wait + Abort>(
    rt: &R,
    tree: &Tree<Rule>,
    mut door: Door,
    tier: u16,
    times: u32,
) -> Door
    requires own { door.tree ≡ tree.now.tree }
    requires rule { Answers (pre tree.now.rule.closure) (post tree.now.rule.closure) (end_ends_at tree.now.rule.plan) }
    ensures { result.tree ≡ tree.now.tree }
{
    for _ in 0..times {
        let crew = joins(rt, tree, door, tier);
        door = leaves(rt, tree, crew);
    }
    door
}

// A member of a crew arrives, and the crew isn't moved.
fn arrives_in_place<R: Wait + Abort>(rt: &R, tree: &Tree<Rule>, crew: &mut Crew)
    requires own { crew.old.tree ≡ tree.now.tree }
    requires rule { Answers (pre tree.now.rule.closure) (post tree.now.rule.closure) (end_ends_at tree.now.rule.plan) }
    ensures { crew.new.tree ≡ tree.now.tree }
{
    match tree.arrive_in_place(rt, crew) {
        ArrivedInPlace::Done { .. } => {}
        _ => panic!(rt; "not arrived"),
    }
}

// A member arrives and waits for the next phase, `times` times, beginning with phase 0.
fn meets<R: Wait + Abort>(rt: &R, tree: &Tree<Rule>, mut crew: Crew, times: u32) -> Crew
    requires own { crew.tree ≡ tree.now.tree }
    requires rule { Answers (pre tree.now.rule.closure) (post tree.now.rule.closure) (end_ends_at tree.now.rule.plan) }
    ensures { result.tree ≡ tree.now.tree }
{
    for phase in 0..times {
        arrives_in_place(rt, tree, &mut crew);
        assert!(rt; tree.await_advance(rt, &mut crew) == AwaitedAdvance::Passed(phase + 1));
    }
    crew
}

// A member arrives by a call that takes the crew and waits for the next phase, from phase 0 on this many times.
fn meets_by_crew<R: Wait + Abort>(rt: &R, tree: &Tree<Rule>, mut crew: Crew, times: u32) -> Crew
    requires own { crew.tree ≡ tree.now.tree }
    requires rule { Answers (pre tree.now.rule.closure) (post tree.now.rule.closure) (end_ends_at tree.now.rule.plan) }
    ensures { result.tree ≡ tree.now.tree }
{
    for phase in 0..times {
        crew = arrives(rt, tree, crew);
        assert!(rt; tree.await_advance(rt, &mut crew) == AwaitedAdvance::Passed(phase + 1));
    }
    crew
}

// Does what is to be done.
fn does<R: Wait + Abort>(rt: &R, tree: &Tree<Rule>, token: Token, duty: Duty) -> Token
    requires own { (held token).tree ≡ tree.now.tree }
    requires rule { Answers (pre tree.now.rule.closure) (post tree.now.rule.closure) (end_ends_at tree.now.rule.plan) }
    ensures { (held result).tree ≡ tree.now.tree }
{
    match (token, duty) {
        (token, Duty::Stays) => token,
        (Token::Door(door), Duty::Joins(tier)) => Token::Crew(joins(rt, tree, door, tier)),
        (Token::Door(door), Duty::ComesAndGoes(tier, times)) => {
            Token::Door(comes_and_goes(rt, tree, door, tier, times))
        }
        (Token::Crew(crew), Duty::Arrives) => Token::Crew(arrives(rt, tree, crew)),
        (Token::Crew(crew), Duty::Meets(times)) => Token::Crew(meets(rt, tree, crew, times)),
        (Token::Crew(crew), Duty::MeetsByCrew(times)) => {
            Token::Crew(meets_by_crew(rt, tree, crew, times))
        }
        _ => panic!(rt; "it can't be done"),
    }
}

// Does what an actor has to do in a stage.
fn acts<R: Wait + Abort>(rt: &R, tree: &Tree<Rule>, actor: Actor, stage: usize) -> Actor
    requires own { (held actor.token).tree ≡ tree.now.tree }
    requires rule { Answers (pre tree.now.rule.closure) (post tree.now.rule.closure) (end_ends_at tree.now.rule.plan) }
    ensures { (held result.token).tree ≡ tree.now.tree }
{
    let Actor { token, duties } = actor;
    assert!(rt; stage < duties.len());
    let token = does(rt, tree, token, duties[stage]);
    Actor { token, duties }
}

/// All do at once, each in its thread, what they have to do in a stage.
pub fn all_act<R: Threads + Wait + Abort + Sync>(
    rt: &R,
    tree: &Tree<Rule>,
    actors: Vec<Actor>,
    stage: usize,
) -> Vec<Actor>
    requires own { All (λ a. (held a.token).tree ≡ tree.now.tree) actors.items }
    requires rule { Answers (pre tree.now.rule.closure) (post tree.now.rule.closure) (end_ends_at tree.now.rule.plan) }
    ensures { All (λ a. (held a.token).tree ≡ tree.now.tree) result.items }
{
    let acted = thread::map_vec(
        rt,
        actors,
        &|actor: Actor| -> Actor
            requires { ((held actor.token).tree ≡ tree.now.tree) × Answers (pre tree.now.rule.closure) (post tree.now.rule.closure) (end_ends_at tree.now.rule.plan) }
            ensures { (held result.token).tree ≡ tree.entry.now.tree }
        { acts(rt, tree, actor, stage) },
    );
    acted.expect(rt, "memory")
}
