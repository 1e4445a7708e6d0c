//! Traces run on a phaser, a tree of phasers or a barrier.
ghost use Rattle.std.specs.Prelude.{◌≡◌, ◌≤◌, ℕ, List, [], ◌++◌, length, All, OnOk, Option, IfSome, Err, IfOk, MatchResult, ⊤};
ghost use Rattle.advance_rule.specs.Plan.{count_ends};
ghost use Rattle.advance_rule.specs.Action.{AnswersAction};
ghost use Rattle.advance_rule.specs.Stored.{Answers};
ghost use Rattle.flat_phaser.specs.Flat.{Flat};
ghost use Rattle.flat_phaser.specs.Alike.{IsAlike};
ghost use Rattle.phaser_one.specs.Seen.{flat_of};
ghost use Rattle.text_lines.specs.Limits.{most_bytes};
ghost use Rattle.trace_text.specs.BarrierAnswers.{barrier_text, barrier_after, barrier_opened_text};
ghost use Rattle.trace_text.specs.Answers.{command_text, command_after, opened_text, output_of};
ghost use Rattle.trace_text.specs.Runs.{run_text};
ghost use Rattle.trace_text.specs.TreeAnswers.{tree_text, tree_after, tree_opened_text};
ghost use Rattle.trace_text.specs.TreeWords.{InRange};
ghost use Rattle.trace_text.specs.Parts.{tree_asked};
ghost use Rattle.trace_text.specs.Views.{asked, start_phase, commands_fit};
ghost use Rattle.trace_text.specs.Outcome.{WriteCause, Writes, Moves, ReadsCause, Traces};

use crate::barrier::push_barrier_command;
use crate::barrier_print::barrier_fault_line;
use crate::barrier_words::{BarrierCommand, BarrierHead};
use crate::fault::TraceFault;
use crate::print::{fault_line, push_advance, push_reply, push_show};
use crate::trace::{Trace, read_trace};
use crate::tree::push_tree_command;
use crate::tree_print::shape_fault_line;
use crate::tree_words::{TreeCommand, TreeHead};
use crate::words::{PhaserCommand, PhaserHead};
use advance_rule::{StoredAction, StoredCount};
use cyclic_gate::BarrierCore;
use phase_records::{CountedRead, CountedWrite, ReadFault, read_all, write_all};
use phaser_one::PhaserOne;
use std::alloc::{AllocError, Global};
use text_lines::{Code, Refusal};
use tier_core::tree::Core;
use tier_shape::{Shape, ShapeFault};

// The number of bytes of answers that are written at once.
const PIECE: usize = 8192;

// Does a command, and adds what it prints to `out`.
fn push_command<F: Fn(u32, u32) -> bool>(
    out: &mut Vec<u8>,
    phaser: &mut PhaserOne<F>,
    command: PhaserCommand,
) -> Result<(), AllocError>
    requires { Answers (F.pre phaser.old.rule.closure) (F.post phaser.old.rule.closure) (count_ends phaser.old.rule.plan) }
    ensures text { OnOk result ((f : Flat) → IsAlike f (flat_of phaser.old.word) → out.new.items ≡ out.old.items ++ command_text command f) }
    ensures after { OnOk result ((f : Flat) → IsAlike f (flat_of phaser.old.word) → IsAlike (command_after phaser.old.rule.plan command f) (flat_of phaser.new.word)) }
    ensures rule { phaser.new.rule ≡ phaser.old.rule }
{
    match command {
        PhaserCommand::Call(call) => {
            let (reply, advance) = phaser.call_reported(call);
            push_advance(out, advance)?;
            push_reply(out, reply)
        }
        PhaserCommand::Show => push_show(
            out,
            phaser.phase(),
            phaser.registered(),
            phaser.unarrived(),
            phaser.ended(),
        ),
    }
}

// Writes a text.
fn write_text<W: CountedWrite>(writer: &mut W, text: &[u8]) -> Result<(), TraceFault>
    ensures writes { Writes (W.contents writer.old) (W.contents writer.new) result text.now }
    ensures failures { WriteCause (W.failures writer.old) (W.failures writer.new) result }
{
    write_all(writer, text).map_err(|_| TraceFault::Write)
}

// Writes the text that waits.
fn flush<W: CountedWrite>(writer: &mut W, out: &mut Vec<u8>) -> Result<(), TraceFault>
    ensures writes { Writes (W.contents writer.old) (W.contents writer.new) result out.old.items }
    ensures empty { OnOk result (out.new.items ≡ []) }
    ensures failures { WriteCause (W.failures writer.old) (W.failures writer.new) result }
{
    match write_all(writer, out) {
        Ok(()) => {
            out.clear();
            Ok(())
        }
        Err(_) => Err(TraceFault::Write),
    }
}

// Writes the text that waits if it has the length of a piece.
fn flush_piece<W: CountedWrite>(writer: &mut W, out: &mut Vec<u8>) -> Result<(), TraceFault>
    ensures moves { Moves (W.contents writer.old) (W.contents writer.new) out.old.items out.new.items result [] }
    ensures failures { WriteCause (W.failures writer.old) (W.failures writer.new) result }
{
    if out.len() < PIECE {
        return Ok(());
    }
    flush(writer, out)
}

// Does a command of a phaser, and writes the text that waits if it has the length of a piece.
fn run_command<F: Fn(u32, u32) -> bool, W: CountedWrite>(
    writer: &mut W,
    out: &mut Vec<u8>,
    phaser: &mut PhaserOne<F>,
    command: PhaserCommand,
) -> Result<(), TraceFault>
    requires { Answers (F.pre phaser.old.rule.closure) (F.post phaser.old.rule.closure) (count_ends phaser.old.rule.plan) }
    ensures moves { (f : Flat) → IsAlike f (flat_of phaser.old.word)
        → Moves (W.contents writer.old) (W.contents writer.new) out.old.items out.new.items result (command_text command f) }
    ensures after { OnOk result ((f : Flat) → IsAlike f (flat_of phaser.old.word) → IsAlike (command_after phaser.old.rule.plan command f) (flat_of phaser.new.word)) }
    ensures rule { phaser.new.rule ≡ phaser.old.rule }
    ensures failures { WriteCause (W.failures writer.old) (W.failures writer.new) result }
{
    push_command(out, phaser, command)?;
    flush_piece(writer, out)
}

// Does the commands of a phaser in turn.
fn run_commands<F: Fn(u32, u32) -> bool, W: CountedWrite>(
    alloc: Global,
    writer: &mut W,
    phaser: &mut PhaserOne<F>,
    commands: &[PhaserCommand],
) -> Result<(), TraceFault>
    requires { Answers (F.pre phaser.old.rule.closure) (F.post phaser.old.rule.closure) (count_ends phaser.old.rule.plan) }
    ensures writes { (f : Flat) → IsAlike f (flat_of phaser.old.word)
        → Writes (W.contents writer.old) (W.contents writer.new) result (run_text command_text (command_after phaser.old.rule.plan) commands.now f) }
    ensures failures { WriteCause (W.failures writer.old) (W.failures writer.new) result }
{
    let mut out = Vec::new(alloc);
    for command in commands {
        run_command(writer, &mut out, phaser, *command)?;
    }
    flush(writer, &mut out)
}

// Runs the commands on the phaser of a head.
fn run_opened<F: Fn(u32, u32) -> bool + Drop, W: CountedWrite>(
    alloc: Global,
    writer: &mut W,
    head: PhaserHead,
    rule: StoredCount<F>,
    commands: &[PhaserCommand],
) -> Result<(), TraceFault>
    requires answers { Answers (F.pre rule.closure) (F.post rule.closure) (count_ends rule.plan) }
    requires plan { rule.plan ≡ head.plan }
    requires phase { head.phase ≤ 2147483647 }
    ensures writes { Writes (W.contents writer.old) (W.contents writer.new) result (opened_text head.plan commands.now head.phase head.parties) }
    ensures failures { WriteCause (W.failures writer.old) (W.failures writer.new) result }
{
    match PhaserOne::new(head.parties, head.phase, rule) {
        Ok(mut phaser) => run_commands(alloc, writer, &mut phaser, commands),
        Err(fault) => write_text(writer, fault_line(fault).as_bytes()),
    }
}

// Does a command of a tree, and writes the text that waits if it has the length of a piece.
fn run_tree_command<W: CountedWrite>(
    writer: &mut W,
    out: &mut Vec<u8>,
    core: &mut Core,
    command: TreeCommand,
) -> Result<(), TraceFault>
    requires { InRange command }
    ensures moves { Moves (W.contents writer.old) (W.contents writer.new) out.old.items out.new.items result (tree_text command core.old) }
    ensures after { OnOk result (core.new ≡ tree_after command core.old) }
    ensures failures { WriteCause (W.failures writer.old) (W.failures writer.new) result }
{
    push_tree_command(out, core, command)?;
    flush_piece(writer, out)
}

// Does the commands of a tree in turn.
fn run_tree_commands<W: CountedWrite>(
    alloc: Global,
    writer: &mut W,
    core: &mut Core,
    commands: &[TreeCommand],
) -> Result<(), TraceFault>
    requires { All InRange commands.now }
    ensures writes { Writes (W.contents writer.old) (W.contents writer.new) result (run_text tree_text tree_after commands.now core.old) }
    ensures failures { WriteCause (W.failures writer.old) (W.failures writer.new) result }
{
    let mut lines = Vec::new(alloc);
    for command in commands {
        run_tree_command(writer, &mut lines, core, *command)?;
    }
    flush(writer, &mut lines)
}

// Runs the commands on the tree of a head.
fn run_tree<W: CountedWrite>(
    alloc: Global,
    writer: &mut W,
    head: TreeHead<'_>,
    commands: &[TreeCommand],
) -> Result<(), TraceFault>
    requires phase { head.phase ≤ 2147483647 }
    requires range { All InRange commands.now }
    ensures writes { Writes (W.contents writer.old) (W.contents writer.new) result (tree_opened_text (tree_asked head.entry) commands.now) }
    ensures failures { WriteCause (W.failures writer.old) (W.failures writer.new) result }
{
    let shape = match Shape::from_width_bytes(alloc, head.widths) {
        Ok(shape) => shape,
        Err(ShapeFault::Memory(_)) => return Err(TraceFault::Memory),
        Err(fault) => {
            return write_text(writer, shape_fault_line(&fault).as_bytes());
        }
    };
    match Core::new(alloc, shape, head.phase, head.plan) {
        Ok(mut core) => run_tree_commands(alloc, writer, &mut core, commands),
        Err(_) => Err(TraceFault::Memory),
    }
}

// Does a command of a barrier, and writes the text that waits if it has the length of a piece.
fn run_barrier_command<F: Fn(u64) -> bool, W: CountedWrite>(
    writer: &mut W,
    out: &mut Vec<u8>,
    core: &mut BarrierCore<F>,
    command: BarrierCommand,
) -> Result<(), TraceFault>
    requires { AnswersAction (F.pre core.old.action.closure) (F.post core.old.action.closure) core.old.action.plan }
    ensures moves { Moves (W.contents writer.old) (W.contents writer.new) out.old.items out.new.items result (barrier_text core.old.action.plan command core.old.barrier) }
    ensures after { OnOk result (core.new.barrier ≡ barrier_after core.old.action.plan command core.old.barrier) }
    ensures action { core.new.action ≡ core.old.action }
    ensures failures { WriteCause (W.failures writer.old) (W.failures writer.new) result }
{
    push_barrier_command(out, core, command)?;
    flush_piece(writer, out)
}

// Does the commands of a barrier in turn.
fn run_barrier_commands<F: Fn(u64) -> bool, W: CountedWrite>(
    alloc: Global,
    writer: &mut W,
    core: &mut BarrierCore<F>,
    commands: &[BarrierCommand],
) -> Result<(), TraceFault>
    requires { AnswersAction (F.pre core.old.action.closure) (F.post core.old.action.closure) core.old.action.plan }
    ensures writes { Writes (W.contents writer.old) (W.contents writer.new) result
        (run_text (barrier_text core.old.action.plan) (barrier_after core.old.action.plan) commands.now core.old.barrier) }
    ensures failures { WriteCause (W.failures writer.old) (W.failures writer.new) result }
{
    let mut lines = Vec::new(alloc);
    for command in commands {
        run_barrier_command(writer, &mut lines, core, *command)?;
    }
    flush(writer, &mut lines)
}

// Runs the commands on the barrier of a head.
fn run_opened_barrier<F: Fn(u64) -> bool + Drop, W: CountedWrite>(
    alloc: Global,
    writer: &mut W,
    head: BarrierHead,
    action: StoredAction<F>,
    commands: &[BarrierCommand],
) -> Result<(), TraceFault>
    requires answers { AnswersAction (F.pre action.closure) (F.post action.closure) action.plan }
    requires plan { action.plan ≡ head.fails }
    ensures writes { Writes (W.contents writer.old) (W.contents writer.new) result (barrier_opened_text head commands.now) }
    ensures failures { WriteCause (W.failures writer.old) (W.failures writer.new) result }
{
    match BarrierCore::new(alloc, head.parties, action) {
        Ok(mut core) => run_barrier_commands(alloc, writer, &mut core, commands),
        Err(fault) => write_text(writer, barrier_fault_line(fault).as_bytes()),
    }
}

// Runs the commands on the phaser of a head, by its rule.
fn run_phaser<W: CountedWrite>(
    alloc: Global,
    writer: &mut W,
    head: PhaserHead,
    commands: &[PhaserCommand],
) -> Result<(), TraceFault>
    requires { head.phase ≤ 2147483647 }
    ensures writes { Writes (W.contents writer.old) (W.contents writer.new) result (opened_text head.plan commands.now head.phase head.parties) }
    ensures failures { WriteCause (W.failures writer.old) (W.failures writer.new) result }
{
    let plan = head.plan;
    let rule = StoredCount::new(|phase: u32, count: u32| plan.ends(phase, count), plan);
    run_opened(alloc, writer, head, rule, commands)
}

// Runs the commands on the barrier of a head, with its action.
fn run_barrier<W: CountedWrite>(
    alloc: Global,
    writer: &mut W,
    head: BarrierHead,
    commands: &[BarrierCommand],
) -> Result<(), TraceFault>
    ensures writes { Writes (W.contents writer.old) (W.contents writer.new) result (barrier_opened_text head commands.now) }
    ensures failures { WriteCause (W.failures writer.old) (W.failures writer.new) result }
{
    let fails = head.fails;
    let action = StoredAction::new(|generation: u64| fails == Some(generation), fails);
    run_opened_barrier(alloc, writer, head, action, commands)
}

// Runs what a text asks for.
#[tactic(auto, unfolding(crate::specs::Answers::output_of))]
fn run_asked<W: CountedWrite>(
    alloc: Global,
    writer: &mut W,
    trace: &Trace<'_>,
) -> Result<(), TraceFault>
    requires phase { start_phase trace.now ≤ 2147483647 }
    requires range { commands_fit trace.now }
    ensures writes { Writes (W.contents writer.old) (W.contents writer.new) result (output_of (asked trace.now)) }
    ensures failures { WriteCause (W.failures writer.old) (W.failures writer.new) result }
{
    match trace {
        Trace::Phaser(head, commands) => run_phaser(alloc, writer, *head, commands),
        Trace::Tree(head, commands) => run_tree(alloc, writer, *head, commands),
        Trace::Barrier(head, commands) => run_barrier(alloc, writer, *head, commands),
    }
}

// Reads the reader's text to its end.
fn read_text<R: CountedRead>(alloc: Global, reader: &mut R) -> Result<Vec<u8>, TraceFault>
    ensures text { MatchResult result
        (λ text. IfSome (R.remaining reader.old) (λ bytes. text.items ≡ bytes))
        (λ fault. (written : Option (List ℕ)) → Traces (R.remaining reader.old) written written (Err fault)) }
    ensures short { IfOk result (λ text. length text.items ≤ most_bytes) }
    ensures write_failures { MatchResult result (λ _. ⊤) (λ fault. (n : ℕ) → WriteCause {T = Unit {0}} n n (Err fault)) }
    ensures failures { ReadsCause (R.failures reader.old) (R.failures reader.new) result }
{
    match read_all(alloc, reader) {
        Ok(text) => Ok(text),
        Err(ReadFault::TooLong) => {
            let code = Code::TooLong;
            Err(TraceFault::Text(Refusal { line: 1, code }))
        }
        Err(ReadFault::Read) => Err(TraceFault::Read),
        Err(ReadFault::Memory) => Err(TraceFault::Memory),
    }
}

/// Reads a trace to the reader's end, and writes what it prints. Checks the whole text before it writes anything.
pub fn run_trace<R: CountedRead, W: CountedWrite>(
    alloc: Global,
    reader: &mut R,
    writer: &mut W,
) -> Result<(), TraceFault>
    ensures traces { Traces (R.remaining reader.old) (W.contents writer.old) (W.contents writer.new) result }
    ensures read_failures { ReadsCause (R.failures reader.old) (R.failures reader.new) result }
    ensures write_failures { WriteCause (W.failures writer.old) (W.failures writer.new) result }
{
    let text = read_text(alloc, reader)?;
    let trace = read_trace(alloc, &text)?;
    run_asked(alloc, writer, &trace)
}
