//! The parser of the command line: its subcommands with their options, and help.
ghost use Rattle.std.specs.Prelude.{◌≡◌, false, true, codes, IfOk, IfErr};
ghost use Rattle.clap.specs.Words.{App, Rule, app_of, with_rule, with_subcommand, kind_of, new_app, rule_of};
ghost use Rattle.clap.specs.declared.builder.command.Command.TheViews.{out-Command as fields_of};
ghost use Rattle.clap.specs.declared.error.kind.ErrorKind.TheVariants as kinds;
ghost use Rattle.bsp_words.specs.CommandLine.{all_rule, bare, check_app, code_rule, draw_app, explain_app, file_rule, flag_rule, job_app, json_rule, number_rule, numbers_rule, program, progress_rule, run_app, stream_rule, text_app, text_rule, tree_rule, version_line};

use crate::help::{CHECK_LINES, DRAW_LINES, EXAMPLES, RUN_LINES, TRACE_LINES, UPGRADE_LINES};
use clap::builder::ValueParser;
use clap::{Arg, ArgAction, Command, Error};
use std::alloc::Global;

macro_rules! version {
    ($before:literal, $behind:literal) => {
        concat!($before, "0.2.0, reads jobs of formats 1 and 2", $behind)
    };
}

// The version of the program and the formats that it reads.
const VERSION: &str = version!("", "");

// What `--version` prints.
const VERSION_LINE: &str = version!("bsp ", "\n");

/// Returns what `--version` prints, a line.
pub fn version_text() -> &'static str
    ensures { result.now ≡ version_line }
{
    VERSION_LINE
}

// Makes an argument that is one of these numbers.
fn number_argument<'a>(
    alloc: Global,
    name: &'a str,
    value: &'a str,
    help: &'a str,
    numbers: ValueParser<'a>,
) -> Arg<'a>
    ensures rule { rule_of result ≡ numbers_rule name.entry.now numbers.entry }
    ensures local { result.global ≡ false }
{
    Arg::new(alloc, name)
        .value_name(value)
        .help(help)
        .action(ArgAction::Set)
        .value_parser(numbers)
}

// Makes the option `--workers`.
fn workers_option<'a>(alloc: Global) -> Arg<'a>
    ensures rule { rule_of result ≡ number_rule (codes "workers") 64 }
    ensures local { result.global ≡ false }
{
    let help = "Number of worker threads, 1 to 64 [default: 1]";
    let numbers = clap::value_parser!(u32).range(1..=64);
    number_argument(alloc, "workers", "N", help, numbers).long("workers")
}

// Makes the option `--limit`.
fn limit_option<'a>(alloc: Global) -> Arg<'a>
    ensures rule { rule_of result ≡ number_rule (codes "limit") 1000000 }
    ensures local { result.global ≡ false }
{
    let help = "Most supersteps, 1 to 1000000 [default: 1000000]";
    let numbers = clap::value_parser!(u32).range(1..=1_000_000);
    number_argument(alloc, "limit", "N", help, numbers).long("limit")
}

// Makes an option with any text.
fn text_option<'a>(alloc: Global, name: &'a str, value: &'a str, help: &'a str) -> Arg<'a>
    ensures rule { rule_of result ≡ text_rule name.entry.now }
    ensures local { result.global ≡ false }
{
    Arg::new(alloc, name)
        .long(name)
        .value_name(value)
        .help(help)
        .action(ArgAction::Set)
}

// Makes an option without a value.
fn flag<'a>(alloc: Global, name: &'a str, help: &'a str) -> Arg<'a>
    ensures rule { rule_of result ≡ flag_rule name.entry.now }
    ensures local { result.global ≡ false }
{
    Arg::new(alloc, name)
        .long(name)
        .help(help)
        .action(ArgAction::SetTrue)
}

// Makes the option `--tree`.
fn tree_option<'a>(alloc: Global) -> Arg<'a>
    ensures rule { rule_of result ≡ tree_rule }
    ensures local { result.global ≡ false }
{
    let help =
        "Tree at which workers meet: flat, or widths from the root such as 2x3 [default: flat]";
    text_option(alloc, "tree", "WIDTHS", help)
}

// Makes the option `--file`.
fn file_option<'a>(alloc: Global) -> Arg<'a>
    ensures rule { rule_of result ≡ file_rule }
    ensures local { result.global ≡ false }
{
    let help = "File to read; - is standard input [default: -]";
    text_option(alloc, "file", "FILE", help).short('f')
}

// Makes the option `--width`.
fn width_option<'a>(alloc: Global) -> Arg<'a>
    ensures rule { rule_of result ≡ text_rule (codes "width") }
    ensures local { result.global ≡ false }
{
    let help = "Draws array NAME in rows of N cells; separate several with commas";
    text_option(alloc, "width", "NAME=N", help)
}

// Makes the option `--over-time`.
fn over_time_option<'a>(alloc: Global) -> Arg<'a>
    ensures rule { rule_of result ≡ text_rule (codes "over-time") }
    ensures local { result.global ≡ false }
{
    let help = "Also draws these arrays over supersteps";
    text_option(alloc, "over-time", "NAME[,NAME]", help)
}

// Makes the option `--title`.
fn title_option<'a>(alloc: Global) -> Arg<'a>
    ensures rule { rule_of result ≡ text_rule (codes "title") }
    ensures local { result.global ≡ false }
{
    let help = "Title of the picture [default: the file]";
    text_option(alloc, "title", "TEXT", help)
}

// Makes the option `--progress`.
fn progress_option<'a>(alloc: Global) -> Arg<'a>
    ensures rule { rule_of result ≡ progress_rule }
    ensures local { result.global ≡ false }
{
    let help = "Prints progress to standard error about once a second";
    flag(alloc, "progress", help)
}

// Makes the option `--all`.
fn all_option<'a>(alloc: Global) -> Arg<'a>
    ensures rule { rule_of result ≡ all_rule }
    ensures local { result.global ≡ false }
{
    let help = "Lists the faulty lines, at most 20, on standard output";
    flag(alloc, "all", help)
}

// Makes the option `--json`.
fn json_option<'a>(alloc: Global) -> Arg<'a>
    ensures rule { rule_of result ≡ json_rule }
    ensures local { result.global ≡ false }
{
    let help = "Prints the report as one JSON object, for other programs to read";
    flag(alloc, "json", help)
}

// Makes the option `--stream`.
fn stream_option<'a>(alloc: Global) -> Arg<'a>
    ensures rule { rule_of result ≡ stream_rule }
    ensures local { result.global ≡ false }
{
    let help = "Prints each superstep as soon as it has ended; not with --json";
    flag(alloc, "stream", help)
}

// Makes the argument for the code of a refusal.
fn code_argument<'a>(alloc: Global) -> Arg<'a>
    ensures rule { rule_of result ≡ code_rule }
    ensures local { result.global ≡ false }
{
    let help =
        "Code of a job's refusal, 1 to 14; without it, all of these and all faults are listed";
    let numbers = clap::value_parser!(u32).range(1..=14);
    number_argument(alloc, "code", "CODE", help, numbers)
}

// Makes the option `--fault`.
fn fault_option<'a>(alloc: Global) -> Arg<'a>
    ensures rule { rule_of result ≡ number_rule (codes "fault") 8 }
    ensures local { result.global ≡ false }
{
    let help = "Number of a task's fault, 1 to 8";
    let numbers = clap::value_parser!(u32).range(1..=8);
    number_argument(alloc, "fault", "CODE", help, numbers).long("fault")
}

// Makes the option `--trace`.
fn trace_option<'a>(alloc: Global) -> Arg<'a>
    ensures rule { rule_of result ≡ number_rule (codes "trace") 12 }
    ensures local { result.global ≡ false }
{
    let help = "Code of a trace's refusal, 1 to 12";
    let numbers = clap::value_parser!(u32).range(1..=12);
    number_argument(alloc, "trace", "CODE", help, numbers).long("trace")
}

// Adds an argument to a command, unless making the command failed.
fn with_argument<'a>(
    command: Result<Command<'a>, Error>,
    argument: Arg<'a>,
) -> Result<Command<'a>, Error>
    requires { argument.global ≡ false }
    ensures app { (before : App) (rule : Rule) → IfOk command.entry (λ c. app_of c ≡ before)
        → rule_of argument.entry ≡ rule → IfOk result (λ c. app_of c ≡ with_rule before rule) }
    ensures local { IfOk command.entry (λ c. (fields_of c).has_globals ≡ false)
        → IfOk result (λ c. (fields_of c).has_globals ≡ false) }
    ensures memory { IfErr command.entry (λ e. kind_of e ≡ kinds.OutOfMemory)
        → IfErr result (λ e. kind_of e ≡ kinds.OutOfMemory) }
{
    let with_argument = command?.arg(argument)?;
    Ok(with_argument)
}

// Adds a subcommand to a command, unless making one of them failed.
fn with_subcommand<'a>(
    command: Result<Command<'a>, Error>,
    subcommand: Result<Command<'a>, Error>,
) -> Result<Command<'a>, Error>
    requires { IfOk subcommand (λ c. (fields_of c).has_globals ≡ false) }
    ensures app { (before added : App) → IfOk command.entry (λ c. app_of c ≡ before)
        → IfOk subcommand.entry (λ c. app_of c ≡ added)
        → IfOk result (λ c. app_of c ≡ with_subcommand before added.top) }
    ensures memory { IfErr command.entry (λ e. kind_of e ≡ kinds.OutOfMemory)
        → IfErr subcommand.entry (λ e. kind_of e ≡ kinds.OutOfMemory)
        → IfErr result (λ e. kind_of e ≡ kinds.OutOfMemory) }
{
    let with_subcommand = command?.subcommand(subcommand?)?;
    Ok(with_subcommand)
}

// Makes a subcommand that reads a text, without its options.
fn bare_text<'a>(alloc: Global, name: &'a str, about: &'a str, lines: &'a str) -> Command<'a>
    ensures app { app_of result ≡ new_app name.entry.now }
    ensures local { (fields_of result).has_globals ≡ false }
{
    Command::new(alloc, name)
        .about(about)
        .after_long_help(lines)
}

// Makes a subcommand that reads a text, with the option `--file`.
fn text_command<'a>(
    alloc: Global,
    name: &'a str,
    about: &'a str,
    lines: &'a str,
) -> Result<Command<'a>, Error>
    ensures app { IfOk result (λ c. app_of c ≡ text_app name.entry.now) }
    ensures local { IfOk result (λ c. (fields_of c).has_globals ≡ false) }
    ensures memory { IfErr result (λ e. kind_of e ≡ kinds.OutOfMemory) }
{
    with_argument(Ok(bare_text(alloc, name, about, lines)), file_option(alloc))
}

// Makes a subcommand that runs a job, with its options.
fn job_command<'a>(
    alloc: Global,
    name: &'a str,
    about: &'a str,
    lines: &'a str,
) -> Result<Command<'a>, Error>
    ensures app { IfOk result (λ c. app_of c ≡ job_app name.entry.now) }
    ensures local { IfOk result (λ c. (fields_of c).has_globals ≡ false) }
    ensures memory { IfErr result (λ e. kind_of e ≡ kinds.OutOfMemory) }
{
    let with_file = text_command(alloc, name, about, lines);
    let with_workers = with_argument(with_file, workers_option(alloc));
    let with_tree = with_argument(with_workers, tree_option(alloc));
    with_argument(with_tree, limit_option(alloc))
}

// Makes the subcommand `run`.
fn run_command<'a>(alloc: Global) -> Result<Command<'a>, Error>
    ensures app { IfOk result (λ c. app_of c ≡ run_app) }
    ensures local { IfOk result (λ c. (fields_of c).has_globals ≡ false) }
    ensures memory { IfErr result (λ e. kind_of e ≡ kinds.OutOfMemory) }
{
    let about =
        "Runs a job, and prints its supersteps with what they print, its arrays, and how it ended";
    let bare = job_command(alloc, "run", about, RUN_LINES);
    let with_progress = with_argument(bare, progress_option(alloc));
    let with_json = with_argument(with_progress, json_option(alloc));
    with_argument(with_json, stream_option(alloc))
}

// Makes the subcommand `draw`.
fn draw_command<'a>(alloc: Global) -> Result<Command<'a>, Error>
    ensures app { IfOk result (λ c. app_of c ≡ draw_app) }
    ensures local { IfOk result (λ c. (fields_of c).has_globals ≡ false) }
    ensures memory { IfErr result (λ e. kind_of e ≡ kinds.OutOfMemory) }
{
    let about = "Runs a job, and prints a picture of its supersteps and arrays, an SVG file";
    let bare = job_command(alloc, "draw", about, DRAW_LINES);
    let with_width = with_argument(bare, width_option(alloc));
    let with_time = with_argument(with_width, over_time_option(alloc));
    with_argument(with_time, title_option(alloc))
}

// Makes the subcommand `trace`.
fn trace_command<'a>(alloc: Global) -> Result<Command<'a>, Error>
    ensures app { IfOk result (λ c. app_of c ≡ text_app (codes "trace")) }
    ensures local { IfOk result (λ c. (fields_of c).has_globals ≡ false) }
    ensures memory { IfErr result (λ e. kind_of e ≡ kinds.OutOfMemory) }
{
    let about =
        "Runs the calls of a trace, one per line, on a phaser, a tree of phasers or a barrier, and prints their answers";
    text_command(alloc, "trace", about, TRACE_LINES)
}

// Makes the subcommand `check`.
fn check_command<'a>(alloc: Global) -> Result<Command<'a>, Error>
    ensures app { IfOk result (λ c. app_of c ≡ check_app) }
    ensures local { IfOk result (λ c. (fields_of c).has_globals ≡ false) }
    ensures memory { IfErr result (λ e. kind_of e ≡ kinds.OutOfMemory) }
{
    let about = "Checks the text of a job, and prints it in canonical form";
    let bare = text_command(alloc, "check", about, CHECK_LINES);
    with_argument(bare, all_option(alloc))
}

// Makes the subcommand `upgrade`.
fn upgrade_command<'a>(alloc: Global) -> Result<Command<'a>, Error>
    ensures app { IfOk result (λ c. app_of c ≡ text_app (codes "upgrade")) }
    ensures local { IfOk result (λ c. (fields_of c).has_globals ≡ false) }
    ensures memory { IfErr result (λ e. kind_of e ≡ kinds.OutOfMemory) }
{
    let about = "Reads the text of a job of either format, and prints the job in format 2";
    text_command(alloc, "upgrade", about, UPGRADE_LINES)
}

// Makes the subcommand `explain` without its arguments.
fn bare_explain<'a>(alloc: Global) -> Command<'a>
    ensures app { app_of result ≡ new_app (codes "explain") }
    ensures local { (fields_of result).has_globals ≡ false }
{
    Command::new(alloc, "explain").about(
        "Explains a code of a job's refusal, or a fault, with an example and a fix; reads nothing",
    )
}

// Makes the subcommand `explain`.
fn explain_command<'a>(alloc: Global) -> Result<Command<'a>, Error>
    ensures app { IfOk result (λ c. app_of c ≡ explain_app) }
    ensures local { IfOk result (λ c. (fields_of c).has_globals ≡ false) }
    ensures memory { IfErr result (λ e. kind_of e ≡ kinds.OutOfMemory) }
{
    let with_code = with_argument(Ok(bare_explain(alloc)), code_argument(alloc));
    let with_fault = with_argument(with_code, fault_option(alloc));
    with_argument(with_fault, trace_option(alloc))
}

// Makes the program's command line without its subcommands.
fn bare_program<'a>(alloc: Global) -> Command<'a>
    ensures { app_of result ≡ record bare { top = record bare.top { subcommand_required = true; has_version = true } } }
{
    Command::new(alloc, "bsp")
        .about("Phasers and bulk-synchronous jobs, from standard input to standard output")
        .after_long_help(EXAMPLES)
        .version(VERSION)
        .subcommand_required(true)
}

/// Makes the parser of the command line.
pub(crate) fn parser<'a>(alloc: Global) -> Result<Command<'a>, Error>
    ensures app { IfOk result (λ c. app_of c ≡ program) }
    ensures memory { IfErr result (λ e. kind_of e ≡ kinds.OutOfMemory) }
{
    let with_trace = with_subcommand(Ok(bare_program(alloc)), trace_command(alloc));
    let with_check = with_subcommand(with_trace, check_command(alloc));
    let with_upgrade = with_subcommand(with_check, upgrade_command(alloc));
    let with_run = with_subcommand(with_upgrade, run_command(alloc));
    let with_draw = with_subcommand(with_run, draw_command(alloc));
    with_subcommand(with_draw, explain_command(alloc))
}
