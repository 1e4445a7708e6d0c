//! Commands of a trace of a tree, done on the tree.
ghost use Rattle.std.specs.Prelude.{◌≡◌, ◌++◌, ◌<◌, ℕ, List, nat_lt, if◌then◌else◌, codes, Option, Some, None, MatchResult, IfOk, OnOk, length, true, false};
ghost use Rattle.tier_core.specs.Run.{after, answer_to, may_begin, IsCall, IsStepOfCalls};
ghost use Rattle.tier_core.specs.declared.call.Step.TheVariants as step;
ghost use Rattle.tier_steps.specs.Tally.{word_at};
ghost use Rattle.trace_text.specs.declared.tree_words.TreeCommand.TheVariants as TreeCommand;
ghost use Rattle.trace_text.specs.TreeWords.{InRange, HasMembers};
ghost use Rattle.trace_text.specs.TreeAnswers as spec;

use crate::print::push_advance;
use crate::tree_print::{push_answer, push_number_line, push_tier};
use crate::tree_words::{TokenCall, TreeCommand};
use phaser_one::Advance;
use std::alloc::AllocError;
use tier_core::call::{Answer, Call, Played, Step};
use tier_core::tree::Core;

// The largest number of steps of a call.
const MOST_STEPS: usize = 16;

// Returns true if there is such a token.
fn is_token(core: &Core, token: u32) -> bool
    ensures { result ≡ spec.is_token core.now token }
{
    (token as usize) < core.tokens()
}

// Returns the machine's call, if its tier exists.
fn call_of(core: &Core, call: TokenCall) -> Option<Call>
    ensures { result ≡ (if spec.has_tier core.now call then Some (spec.call_of call) else None) }
{
    let tiers = core.tiers();
    match call {
        TokenCall::Join { tier, n } => match u16::try_from(tier) {
            Ok(tier) if usize::from(tier) < tiers => Some(Call::Join { tier, n }),
            _ => None,
        },
        TokenCall::Arrive => Some(Call::Arrive),
        TokenCall::Leave => Some(Call::Leave),
        TokenCall::Poll => Some(Call::Poll),
        TokenCall::Force => Some(Call::Force),
    }
}

// Appends the line of the advance that a token takes now, if it takes one.
fn push_advance_of(out: &mut Vec<u8>, core: &Core, token: usize) -> Result<(), AllocError>
    ensures { OnOk result (out.new.items ≡ out.old.items ++ spec.advance_reported core.now token) }
{
    let root = core.root();
    if !core.must_advance(token) || root.ended {
        return Ok(());
    }
    let (phase, parties) = (root.phase, root.parties);
    push_advance(out, Some(Advance { phase, parties }))
}

// Returns how a token goes on with its call.
fn going_on(core: &Core, token: usize) -> Step
    ensures { result ≡ spec.going_on core.now token }
{
    if core.must_advance(token) {
        Step::Finish(token)
    } else {
        Step::Go(token)
    }
}

// Returns true if a call continues after this answer.
fn is_underway(answer: Answer) -> bool
    ensures { result ≡ spec.is_underway answer }
{
    matches!(
        answer,
        Answer::Played(Played::GoesOn | Played::MustAdvance(_, _))
    )
}

// Goes on with a call to its end.
fn push_rest(out: &mut Vec<u8>, core: &mut Core, token: usize) -> Result<(), AllocError>
    ensures text { OnOk result (out.new.items ≡ out.old.items ++ spec.rest_text 16 token core.old) }
    ensures after { OnOk result (core.new ≡ spec.rest_after 16 token core.old) }
{
    for _ in 0..MOST_STEPS {
        push_advance_of(out, core, token)?;
        let answer = core.step(going_on(core, token));
        if !is_underway(answer) {
            return push_answer(out, answer);
        }
    }
    Ok(())
}

// Appends the line of a tier, or the line that there is no such tier.
fn push_show_tier(out: &mut Vec<u8>, core: &Core, tier: u32) -> Result<(), AllocError>
    ensures { OnOk result (out.new.items ≡ out.old.items
        ++ (if nat_lt tier (length core.now.parents) then spec.tier_text tier (word_at core.now.words tier) else codes "no tier\n")) }
{
    let tiers = core.tiers();
    match u16::try_from(tier) {
        Ok(place) if usize::from(place) < tiers => push_tier(out, tier, core.word(place)),
        _ => out.extend_from_slice(b"no tier\n"),
    }
}

// Takes a step, and appends its answer.
fn push_step(out: &mut Vec<u8>, core: &mut Core, step: Step) -> Result<(), AllocError>
    requires { IsStepOfCalls step }
    ensures text { OnOk result (out.new.items ≡ out.old.items ++ spec.answer_text (answer_to core.old step)) }
    ensures after { OnOk result (core.new ≡ after core.old step) }
{
    let answer = core.step(step);
    push_answer(out, answer)
}

// Begins a call and goes on with it to its end.
fn push_call(out: &mut Vec<u8>, core: &mut Core, token: usize, call: Call) -> Result<(), AllocError>
    requires { IsCall call }
    ensures text { OnOk result (out.new.items ≡ out.old.items
        ++ (if may_begin core.old token call then spec.rest_text 16 token (after core.old (step.Begin token call)) else codes "not now\n")) }
    ensures after { OnOk result (core.new ≡ (if may_begin core.old token call then spec.rest_after 16 token (after core.old (step.Begin token call)) else core.old)) }
{
    match core.begin(token, call) {
        Ok(()) => push_rest(out, core, token),
        Err(_) => out.extend_from_slice(b"not now\n"),
    }
}

// Appends the refusal of an unknown token or tier, if there is one.
fn known_call(core: &Core, token: u32, call: TokenCall) -> Result<Call, &'static str>
    requires { HasMembers call }
    ensures value { MatchResult result
        (λ c. (spec.is_token core.now token ≡ true) × (spec.has_tier core.now call ≡ true) × (c ≡ spec.call_of call))
        (λ refusal. ((text : List ℕ) → spec.if_known core.now token call text ≡ refusal.now) × (may_begin core.now token (spec.call_of call) ≡ false)) }
    ensures range { IfOk result (λ c. IsCall c) }
{
    if !is_token(core, token) {
        return Err("no token\n");
    }
    call_of(core, call).ok_or("no tier\n")
}

// Makes a new token, and appends its line.
fn push_token(out: &mut Vec<u8>, core: &mut Core) -> Result<(), AllocError>
    ensures text { OnOk result (out.new.items ≡ out.old.items ++ spec.tree_text TreeCommand.Token core.old) }
    ensures after { OnOk result (core.new ≡ spec.tree_after TreeCommand.Token core.old) }
{
    let token = core.add_token()?;
    push_number_line(out, b"token ", token)
}

// Begins a call of a token, and appends what it prints.
fn push_begin(
    out: &mut Vec<u8>,
    core: &mut Core,
    token: u32,
    call: TokenCall,
) -> Result<(), AllocError>
    requires { HasMembers call }
    ensures text { OnOk result (out.new.items ≡ out.old.items ++ spec.tree_text (TreeCommand.Begin token call) core.old) }
    ensures after { OnOk result (core.new ≡ spec.tree_after (TreeCommand.Begin token call) core.old) }
{
    match known_call(core, token, call) {
        Ok(call) => push_step(out, core, Step::Begin(token as usize, call)),
        Err(refusal) => out.extend_from_slice(refusal.as_bytes()),
    }
}

// Does a whole call of a token, and appends what it prints.
fn push_do(
    out: &mut Vec<u8>,
    core: &mut Core,
    token: u32,
    call: TokenCall,
) -> Result<(), AllocError>
    requires { HasMembers call }
    ensures text { OnOk result (out.new.items ≡ out.old.items ++ spec.tree_text (TreeCommand.Do token call) core.old) }
    ensures after { OnOk result (core.new ≡ spec.tree_after (TreeCommand.Do token call) core.old) }
{
    match known_call(core, token, call) {
        Ok(call) => push_call(out, core, token as usize, call),
        Err(refusal) => out.extend_from_slice(refusal.as_bytes()),
    }
}

// Takes the advance of a token, and appends what it prints.
fn push_finish(out: &mut Vec<u8>, core: &mut Core, token: usize) -> Result<(), AllocError>
    ensures text { OnOk result (out.new.items ≡ out.old.items ++ spec.advance_reported core.old token ++ spec.answer_text (answer_to core.old (step.Finish token))) }
    ensures after { OnOk result (core.new ≡ after core.old (step.Finish token)) }
{
    push_advance_of(out, core, token)?;
    push_step(out, core, Step::Finish(token))
}

/// Does a command, and appends what it prints.
pub(crate) fn push_tree_command(
    out: &mut Vec<u8>,
    core: &mut Core,
    command: TreeCommand,
) -> Result<(), AllocError>
    requires { InRange command }
    ensures text { OnOk result (out.new.items ≡ out.old.items ++ spec.tree_text command core.old) }
    ensures after { OnOk result (core.new ≡ spec.tree_after command core.old) }
{
    match command {
        TreeCommand::Token => push_token(out, core),
        TreeCommand::Begin(token, call) => push_begin(out, core, token, call),
        TreeCommand::Do(token, call) => push_do(out, core, token, call),
        TreeCommand::Show(tier) => push_show_tier(out, core, tier),
        TreeCommand::Go(token) | TreeCommand::Finish(token) | TreeCommand::Run(token)
            if !is_token(core, token) => { out.extend_from_slice(b"no token\n") }
        TreeCommand::Go(token) => push_step(out, core, Step::Go(token as usize)),
        TreeCommand::Finish(token) => push_finish(out, core, token as usize),
        TreeCommand::Run(token) => push_rest(out, core, token as usize),
    }
}
