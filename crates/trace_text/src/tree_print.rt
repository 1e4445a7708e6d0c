//! The lines that a trace of a tree prints.
ghost use Rattle.std.specs.Prelude.{◌≡◌, ◌++◌, OnOk, codes};
ghost use Rattle.trace_text.specs.TreeAnswers.{cause_text, number_pair, played_text, answer_text, state_text, tier_front, tier_rest, tier_text, shape_fault_text};

use crate::print::push_field;
use itoa::Integer;
use phaser_word::Word;
use std::alloc::AllocError;
use tier_core::call::{Answer, Cause, Played};
use tier_shape::ShapeFault;

/// Returns the line of a refused shape. Running out of memory has none.
pub(crate) fn shape_fault_line(fault: &ShapeFault) -> &'static str
    ensures { result.now ≡ shape_fault_text fault.now }
{
    match fault {
        ShapeFault::NoTier => "refused 1 NoTier\n",
        ShapeFault::TooManyTiers => "refused 2 TooManyTiers\n",
        ShapeFault::ParentNotEarlier => "refused 3 ParentNotEarlier\n",
        ShapeFault::TooDeep => "refused 4 TooDeep\n",
        ShapeFault::BadText => "refused 5 BadText\n",
        ShapeFault::Memory(_) => "",
    }
}

// Returns the end of the line of a join that is held off.
fn cause_line(cause: Cause) -> &'static str
    ensures { result.now ≡ cause_text cause }
{
    match cause {
        Cause::BeingOpened => "opening\n",
        Cause::AllArrived => "arrived\n",
        Cause::Lagging => "lagging\n",
        Cause::Advancing => "advancing\n",
    }
}

/// Appends a name and a number as a line.
pub(crate) fn push_number_line<I: Integer>(
    out: &mut Vec<u8>,
    name: &[u8],
    n: I,
) -> Result<(), AllocError>
    ensures { OnOk result (out.new.items ≡ out.old.items ++ name.now ++ I.text n ++ codes "\n") }
{
    push_field(out, name, n)?;
    out.extend_from_slice(b"\n")
}

// Appends the line of a join that is held off.
fn push_held(out: &mut Vec<u8>, phase: u32, cause: Cause) -> Result<(), AllocError>
    ensures { OnOk result (out.new.items ≡ out.old.items ++ played_text (Played.Held phase cause)) }
{
    push_field(out, b"held ", phase)?;
    out.extend_from_slice(b" ")?;
    out.extend_from_slice(cause_line(cause).as_bytes())
}

// Appends the line of an ended tree.
fn push_ended(out: &mut Vec<u8>, shown: i32) -> Result<(), AllocError>
    ensures { OnOk result (out.new.items ≡ out.old.items ++ played_text (Played.Ended shown)) }
{
    push_field(out, b"ended ", shown)?;
    out.extend_from_slice(b"\n")
}

// Appends a name and two numbers.
fn push_pair(out: &mut Vec<u8>, name: &[u8], m: u32, n: u32) -> Result<(), AllocError>
    ensures { OnOk result (out.new.items ≡ out.old.items ++ number_pair name.now m n) }
{
    push_field(out, name, m)?;
    push_field(out, b" ", n)
}

// Appends the line of an advance that is still to be taken.
fn push_must_advance(out: &mut Vec<u8>, phase: u32, parties: u32) -> Result<(), AllocError>
    ensures { OnOk result (out.new.items ≡ out.old.items ++ played_text (Played.MustAdvance phase parties)) }
{
    push_pair(out, b"must advance ", phase, parties)?;
    out.extend_from_slice(b"\n")
}

// Appends the line of what a step answers.
fn push_played(out: &mut Vec<u8>, played: Played) -> Result<(), AllocError>
    ensures { OnOk result (out.new.items ≡ out.old.items ++ played_text played) }
{
    match played {
        Played::GoesOn => out.extend_from_slice(b"goes on\n"),
        Played::Done(phase) => push_number_line(out, b"done ", phase),
        Played::Passed(phase) => push_number_line(out, b"passed ", phase),
        Played::Waiting => out.extend_from_slice(b"waiting\n"),
        Played::Held(phase, cause) => push_held(out, phase, cause),
        Played::Full(parties) => push_number_line(out, b"full ", parties),
        Played::AlreadyArrived(phase) => { push_number_line(out, b"already arrived ", phase) }
        Played::Ended(shown) => push_ended(out, shown),
        Played::MustAdvance(phase, parties) => push_must_advance(out, phase, parties),
    }
}

/// Appends the line of an answer.
pub(crate) fn push_answer(out: &mut Vec<u8>, answer: Answer) -> Result<(), AllocError>
    ensures { OnOk result (out.new.items ≡ out.old.items ++ answer_text answer) }
{
    match answer {
        Answer::Begun => out.extend_from_slice(b"begun\n"),
        Answer::Played(played) => push_played(out, played),
        Answer::NotNow => out.extend_from_slice(b"not now\n"),
    }
}

// Returns the end of the line of a tier.
fn state_line(word: Word) -> &'static str
    ensures { result.now ≡ state_text word }
{
    if word.ended {
        " ended\n"
    } else if word.parties == 0 && word.unarrived == 1 {
        " empty\n"
    } else if word.parties == 0 && word.unarrived == 2 {
        " opening\n"
    } else {
        " open\n"
    }
}

// Appends the front of the line of a tier.
fn push_tier_front(out: &mut Vec<u8>, tier: u32, word: Word) -> Result<(), AllocError>
    ensures { OnOk result (out.new.items ≡ out.old.items ++ tier_front tier word) }
{
    push_field(out, b"tier ", tier)?;
    push_field(out, b" phase ", word.shown())
}

// Appends the rest of the line of a tier.
fn push_tier_rest(out: &mut Vec<u8>, word: Word) -> Result<(), AllocError>
    ensures { OnOk result (out.new.items ≡ out.old.items ++ tier_rest word) }
{
    let unarrived = if word.parties == 0 { 0 } else { word.unarrived };
    push_field(out, b" parties ", word.parties)?;
    push_field(out, b" unarrived ", unarrived)?;
    out.extend_from_slice(state_line(word).as_bytes())
}

/// Appends the line of a tier.
pub(crate) fn push_tier(out: &mut Vec<u8>, tier: u32, word: Word) -> Result<(), AllocError>
    ensures { OnOk result (out.new.items ≡ out.old.items ++ tier_text tier word) }
{
    push_tier_front(out, tier, word)?;
    push_tier_rest(out, word)
}
