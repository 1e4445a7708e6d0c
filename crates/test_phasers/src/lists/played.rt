//! Random lists of calls of eight tokens.

ghost use Rattle.std.specs.Prelude.{◌≡◌, ◌≤◌, All};
ghost use Rattle.advance_rule.specs.Stored.{Answers};
ghost use Rattle.advance_rule.specs.Plan.{end_ends_at};
ghost use Rattle.test_phasers.specs.Holders.{tree_of, FourOf, EightOf};
ghost use Rattle.tier_table.specs.Closes.{held};

use crate::calls::call::at_rest;
use crate::calls::holders::{Eight, Four, Holder};
use crate::lists::act::act;
use crate::lists::mirror::{Mirror, words_of};
use crate::trees::{left, planted, put};
use advance_rule::StoredAdvance;
use phaser_word::Word;
use std::alloc::Global;
use std::process::Abort;
use test_groups::machine::machine;
use test_groups::numbers::Numbers;
use test_groups::rules::{Rule, WHEN_EMPTY, is_empty};
use tier_table::tokens::{Door, Token};
use tier_table::tree::Tree;

// Goes on with what a token owes, to its end.
fn settled(
    rt: &impl Abort,
    tree: &Tree<Rule>,
    mirror: &mut Mirror,
    token: usize,
    mut holder: Holder,
    numbers: &mut Numbers,
) -> Token
    requires own { tree_of holder ≡ tree.now.tree }
    requires rule { Answers (pre tree.now.rule.closure) (post tree.now.rule.closure) (end_ends_at tree.now.rule.plan) }
    ensures { (held result).tree ≡ tree.now.tree }
{
    for _ in 0..64 {
        match holder {
            Holder::Outside(door) => return Token::Door(door),
            Holder::Inside(crew) => return Token::Crew(crew),
            other => holder = act(rt, tree, mirror, token, other, numbers, false),
        }
    }
    at_rest(rt, holder)
}

// Returns true if the words of a closed tree are those of the machine.
fn are_words(words: &[Word], numbers: &[u64; 9]) -> bool {
    for (word, number) in words.iter().zip(numbers) {
        if word.pack() != *number {
            return false;
        }
    }
    words.len() <= 9
}

// One call of the token with this number among its four, which are the first or the last.
fn act_in_four(
    rt: &impl Abort,
    tree: &Tree<Rule>,
    mirror: &mut Mirror,
    token: usize,
    holders: Four,
    numbers: &mut Numbers,
    late: bool,
) -> Four
    requires own { FourOf tree.now.tree holders }
    requires rule { Answers (pre tree.now.rule.closure) (post tree.now.rule.closure) (end_ends_at tree.now.rule.plan) }
    ensures { FourOf tree.now.tree result }
{
    let (mut zero, mut one, mut two, mut three) = holders;
    match token % 4 {
        0 => zero = act(rt, tree, mirror, token, zero, numbers, late),
        1 => one = act(rt, tree, mirror, token, one, numbers, late),
        2 => two = act(rt, tree, mirror, token, two, numbers, late),
        _ => three = act(rt, tree, mirror, token, three, numbers, late),
    }
    (zero, one, two, three)
}

// One call of the token with this number.
fn act_one(
    rt: &impl Abort,
    tree: &Tree<Rule>,
    mirror: &mut Mirror,
    token: usize,
    holders: Eight,
    numbers: &mut Numbers,
    late: bool,
) -> Eight
    requires own { EightOf tree.now.tree holders }
    requires rule { Answers (pre tree.now.rule.closure) (post tree.now.rule.closure) (end_ends_at tree.now.rule.plan) }
    ensures { EightOf tree.now.tree result }
{
    let Eight { front, back } = holders;
    if token < 4 {
        let front = act_in_four(rt, tree, mirror, token, front, numbers, late);
        return Eight { front, back };
    }
    let back = act_in_four(rt, tree, mirror, token, back, numbers, late);
    Eight { front, back }
}

// Four tokens split off one, as the calls of a list take them.
fn four_holders(tree: &Tree<Rule>, mut door: Door) -> Four
    requires own { door.tree ≡ tree.now.tree }
    ensures { FourOf tree.now.tree result }
{
    let one = Holder::Outside(tree.split(&mut door));
    let two = Holder::Outside(tree.split(&mut door));
    let three = Holder::Outside(tree.split(&mut door));
    (Holder::Outside(door), one, two, three)
}

// Eight tokens after 300 calls in some order.
fn played(
    rt: &impl Abort,
    tree: &Tree<Rule>,
    mirror: &mut Mirror,
    mut holders: Eight,
    numbers: &mut Numbers,
) -> Eight
    requires own { EightOf tree.now.tree holders }
    requires rule { Answers (pre tree.now.rule.closure) (post tree.now.rule.closure) (end_ends_at tree.now.rule.plan) }
    ensures { EightOf tree.now.tree result }
{
    for turn in 0..300 {
        let token = numbers.below(8) as usize;
        holders = act_one(rt, tree, mirror, token, holders, numbers, turn > 250);
    }
    holders
}

// Puts four tokens beside others, after each of them has done what it owes.
fn settle_four(
    rt: &impl Abort,
    tree: &Tree<Rule>,
    mirror: &mut Mirror,
    first: usize,
    holders: Four,
    numbers: &mut Numbers,
    tokens: &mut Vec<Token>,
)
    requires own { FourOf tree.now.tree holders × All (λ t. (held t).tree ≡ tree.now.tree) tokens.old.items }
    requires first { first ≤ 4 }
    requires rule { Answers (pre tree.now.rule.closure) (post tree.now.rule.closure) (end_ends_at tree.now.rule.plan) }
    ensures { All (λ t. (held t).tree ≡ tree.now.tree) tokens.new.items }
{
    let (zero, one, two, three) = holders;
    let zero = settled(rt, tree, mirror, first, zero, numbers);
    put(rt, tree, tokens, zero);
    let one = settled(rt, tree, mirror, first + 1, one, numbers);
    put(rt, tree, tokens, one);
    let two = settled(rt, tree, mirror, first + 2, two, numbers);
    put(rt, tree, tokens, two);
    let three = settled(rt, tree, mirror, first + 3, three, numbers);
    put(rt, tree, tokens, three);
}

// Eight tokens split off one, after a list of calls.
fn listed(
    rt: &impl Abort,
    alloc: Global,
    tree: &Tree<Rule>,
    mirror: &mut Mirror,
    mut door: Door,
    seed: u32,
) -> Vec<Token>
    requires own { door.tree ≡ tree.now.tree }
    requires rule { Answers (pre tree.now.rule.closure) (post tree.now.rule.closure) (end_ends_at tree.now.rule.plan) }
    ensures { All (λ t. (held t).tree ≡ tree.now.tree) result.items }
{
    let mut numbers = Numbers { seed };
    let back = four_holders(tree, tree.split(&mut door));
    let front = four_holders(tree, door);
    let holders = Eight { front, back };
    let Eight { front, back } = played(rt, tree, mirror, holders, &mut numbers);
    let mut tokens = Vec::new(alloc);
    settle_four(rt, tree, mirror, 0, front, &mut numbers, &mut tokens);
    settle_four(rt, tree, mirror, 4, back, &mut numbers, &mut tokens);
    tokens
}

// Checks that the words that a list of calls leaves on a tree of these widths are the machine's.
fn list(rt: &impl Abort, alloc: Global, rule: StoredAdvance<Rule>, widths: &str, seed: u32)
    requires rule { Answers (pre rule.closure) (post rule.closure) (end_ends_at rule.plan) }
{
    let mut mirror = Mirror {
        core: machine(alloc, widths, 8).expect(rt, "a machine"),
        last: [None; 8],
    };
    let (tree, door) = planted(rt, alloc, widths, 0, rule);
    let tokens = listed(rt, alloc, &tree, &mut mirror, door, seed);
    let words = left(rt, alloc, tree, tokens).words;
    assert!(rt; are_words(&words, &words_of(&mirror.core)));
}

#[test]
fn answers_are_the_machines(rt: HostRuntime) {
    for seed in 0..60 {
        for widths in ["flat", "2", "3", "1x1", "2x2", "2x3"] {
            let rule = StoredAdvance::new(is_empty as Rule, WHEN_EMPTY);
            list(&rt, rt.alloc(), rule, widths, seed);
        }
    }
}
