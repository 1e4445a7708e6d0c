//! What a command line asks for.
ghost use Rattle.std.specs.Prelude.{◌≡◌, ◌≤◌, [], codes, option_map, None, IfOk};
ghost use Rattle.clap.specs.Words.{first_of, found_of, one_of, rows_of, subcommand_rows_of};
ghost use Rattle.bsp_words.specs.CommandLine.{are_two, asked_by, asks_both, asks_two, check_by, chosen, clash_in, clashes_by, file_by, file_in, flag_in, is_set, limit_in, look_by, look_in, no_look, number_from, run_by, title_or, topic_in, tree_by, tree_in, unless_hyphen, workers_in};
ghost use Rattle.bsp_words.specs.Ranges.{IsAsked, IsTopic};
ghost use Rattle.bsp_words.specs.Topics.{topic_by};
ghost use Rattle.std.specs.Option.{unwrap_or};
ghost use Rattle.job_view.specs.Look.{look_value};

use clap::ArgMatches;
use job_view::{Look, says_widths};
use std::alloc::{AllocError, Global};

/// What `explain` explains.
#[derive(Clone, Copy)]
pub enum Topic {
    /// Lists all codes and faults.
    All,
    /// The code of a refusal, 1 to 14.
    Code(u32),
    /// The number of a fault, 1 to 8.
    Fault(u32),
    /// The code of a trace's refusal, 1 to 12.
    TraceCode(u32),
}

/// A subcommand of the command line, with its numbers.
#[derive(Clone, Copy)]
pub enum Asked {
    /// Runs a trace.
    Trace,
    /// Checks a job's text.
    Check,
    /// Checks a job's text, and lists its faulty lines.
    CheckAll,
    /// Writes a job in format 2.
    Upgrade,
    /// Runs a job.
    Run {
        /// The number of worker threads, 1 to 64.
        workers: u32,
        /// The largest number of supersteps.
        limit: u32,
    },
    /// Runs a job, and writes its report as JSON.
    RunJson {
        /// The number of worker threads, 1 to 64.
        workers: u32,
        /// The largest number of supersteps.
        limit: u32,
    },
    /// Runs a job, and writes its report superstep by superstep.
    RunStream {
        /// The number of worker threads, 1 to 64.
        workers: u32,
        /// The largest number of supersteps.
        limit: u32,
    },
    /// Explains codes and faults.
    Explain(Topic),
    /// Draws a job.
    Draw {
        /// The number of worker threads, 1 to 64.
        workers: u32,
        /// The largest number of supersteps.
        limit: u32,
    },
}

/// A command line: its subcommand, the text of the tree at which workers meet, the file that it names, what it asks of a
/// picture, and whether to report progress.
#[derive(Clone, Copy)]
pub struct Request<'a> {
    /// The subcommand, with its numbers.
    pub asked: Asked,
    /// The text of the tree, `flat` if none is given.
    pub tree: &'a str,
    /// The file that the text is read from. `None` is standard input.
    pub file: Option<&'a str>,
    /// What is asked of a picture.
    pub look: Look<'a>,
    /// Whether to report progress. No contract depends on it.
    pub progress: bool,
}

/// The number of codes of refusals.
const MOST_CODES: u32 = 14;

/// The number of faults.
const MOST_FAULTS: u32 = 8;

/// The largest code of a trace's refusal.
const MOST_TRACE_CODES: u32 = 12;

/// The largest number of supersteps of a job. Also the default.
const MOST_STEPS: u32 = 1_000_000;

/// The largest number of workers.
const MOST_WORKERS: u32 = 64;

// Returns the number that was read if it is one of 1 to `most`, and else the usual one.
fn within(given: Option<u32>, most: u32, usual: u32) -> u32
    requires usual { usual ≤ most }
    ensures number { result ≡ chosen most usual given }
    ensures least { 1 ≤ usual → 1 ≤ result }
    ensures most { result ≤ most }
{
    match given {
        Some(number) if 1 <= number && number <= most => number,
        _ => usual,
    }
}

// Returns the number of workers.
fn workers_of(matches: &ArgMatches<'_>) -> u32
    ensures workers { result ≡ workers_in (rows_of (found_of matches.now)) }
    ensures least { 1 ≤ result }
    ensures most { result ≤ 64 }
{
    within(matches.get_one::<u32>("workers"), MOST_WORKERS, 1)
}

// Returns the limit of supersteps.
fn limit_of(matches: &ArgMatches<'_>) -> u32
    ensures limit { result ≡ limit_in (rows_of (found_of matches.now)) }
    ensures least { 1 ≤ result }
    ensures most { result ≤ 1000000 }
{
    within(matches.get_one::<u32>("limit"), MOST_STEPS, MOST_STEPS)
}

// Returns the text of the tree.
fn tree_of<'a>(matches: &ArgMatches<'a>) -> &'a str
    ensures { result.now ≡ tree_in (rows_of (found_of matches.now)) }
{
    match matches.get_str("tree") {
        Some(text) => text,
        None => "flat",
    }
}

// Returns true if this text says that a flag is given.
fn is_set(text: Option<&str>) -> bool
    ensures { result ≡ is_set (option_map (λ s. s.now) text.entry) }
{
    match text {
        Some(text) => text == "true",
        None => false,
    }
}

// Returns true if all faulty lines are to be listed.
fn all_of(matches: &ArgMatches<'_>) -> bool
    ensures { result ≡ flag_in (codes "all") (rows_of (found_of matches.now)) }
{
    is_set(matches.get_str("all"))
}

// Returns what `check` asks for.
fn check_by(all: bool) -> Asked
    ensures asked { result ≡ check_by all }
    ensures known { IsAsked result }
{
    if all {
        return Asked::CheckAll;
    }
    Asked::Check
}

// Returns true if the report is to be written as JSON.
fn json_of(matches: &ArgMatches<'_>) -> bool
    ensures { result ≡ flag_in (codes "json") (rows_of (found_of matches.now)) }
{
    is_set(matches.get_str("json"))
}

// Returns true if the report is to be written superstep by superstep.
fn stream_of(matches: &ArgMatches<'_>) -> bool
    ensures { result ≡ flag_in (codes "stream") (rows_of (found_of matches.now)) }
{
    is_set(matches.get_str("stream"))
}

// Returns true if more than one of these numbers is given.
fn are_two(code: u32, fault: u32, trace: u32) -> bool
    ensures { result ≡ are_two code fault trace }
{
    (code > 0 && fault > 0) || ((code > 0 || fault > 0) && trace > 0)
}

// Returns true if the words after `explain` ask for more than one topic.
fn asks_two(matches: &ArgMatches<'_>) -> bool
    ensures { result ≡ asks_two (rows_of (found_of matches.now)) }
{
    are_two(code_of(matches), fault_of(matches), trace_code_of(matches))
}

// Returns true if the words after `run` ask for a report both as JSON and superstep by superstep.
fn asks_both(matches: &ArgMatches<'_>) -> bool
    ensures { result ≡ asks_both (rows_of (found_of matches.now)) }
{
    json_of(matches) && stream_of(matches)
}

// Returns true if the words after a command of this name ask for two things at once, or for widths that are none.
fn clash_in(alloc: Global, name: &str, options: &ArgMatches<'_>) -> Result<bool, AllocError>
    ensures { IfOk result (λ clash. clash ≡ clash_in name.now (rows_of (found_of options.now))) }
{
    if name == "run" {
        return Ok(asks_both(options));
    }
    if name == "explain" {
        return Ok(asks_two(options));
    }
    if name == "draw" {
        let says = says_widths(alloc, widths_of(options))?;
        return Ok(!says);
    }
    Ok(false)
}

/// Returns true if parsed words ask for a report both as JSON and superstep by superstep, for two topics, or for widths that are
/// none.
pub(crate) fn clashes(alloc: Global, matches: &ArgMatches<'_>) -> Result<bool, AllocError>
    ensures { IfOk result (λ clash. clash ≡ clashes_by (subcommand_rows_of matches.now)) }
{
    match matches.subcommand() {
        Some((name, options)) => clash_in(alloc, name, options),
        None => Ok(false),
    }
}

// Returns the name of a file, or `None` if there is none, or it is a hyphen.
fn unless_hyphen<'a>(text: Option<&'a str>) -> Option<&'a str>
    ensures { option_map (λ s. s.now) result ≡ unless_hyphen (option_map (λ s. s.now) text.entry) }
{
    match text {
        Some(name) if name == "-" => None,
        _ => text,
    }
}

// Returns the file that the text is read from, or `None` for standard input.
fn file_of<'a>(matches: &ArgMatches<'a>) -> Option<&'a str>
    ensures { option_map (λ s. s.now) result ≡ file_in (rows_of (found_of matches.now)) }
{
    unless_hyphen(matches.get_str("file"))
}

// Returns a text, or the empty one if none is given.
fn or_empty<'a>(text: Option<&'a str>) -> &'a str
    ensures { result.now ≡ unwrap_or (option_map (λ s. s.now) text.entry) [] }
{
    match text {
        Some(text) => text,
        None => "",
    }
}

// Returns the widths of arrays in a picture.
fn widths_of<'a>(matches: &ArgMatches<'a>) -> &'a str
    ensures { result.now ≡ unwrap_or (first_of (codes "width") (rows_of (found_of matches.now))) [] }
{
    or_empty(matches.get_str("width"))
}

// Returns the names of the arrays that are drawn over supersteps.
fn over_time_of<'a>(matches: &ArgMatches<'a>) -> &'a str
    ensures { result.now ≡ unwrap_or (first_of (codes "over-time") (rows_of (found_of matches.now))) [] }
{
    or_empty(matches.get_str("over-time"))
}

// Returns the title, or else the file's name.
fn title_or<'a>(title: Option<&'a str>, file: Option<&'a str>) -> Option<&'a str>
    ensures { option_map (λ s. s.now) result ≡ title_or (option_map (λ s. s.now) title.entry) (option_map (λ s. s.now) file.entry) }
{
    match title {
        Some(_) => title,
        None => file,
    }
}

// Returns the title of a picture.
fn title_of<'a>(matches: &ArgMatches<'a>) -> Option<&'a str>
    ensures { option_map (λ s. s.now) result ≡ title_or (first_of (codes "title") (rows_of (found_of matches.now))) (file_in (rows_of (found_of matches.now))) }
{
    title_or(matches.get_str("title"), file_of(matches))
}

// Returns what is asked of a picture.
fn look_of<'a>(matches: &ArgMatches<'a>) -> Look<'a>
    ensures { look_value result ≡ look_in (rows_of (found_of matches.now)) }
{
    Look {
        title: title_of(matches),
        widths: widths_of(matches),
        over_time: over_time_of(matches),
    }
}

// Returns that nothing is asked of a picture.
fn no_look<'a>() -> Look<'a>
    ensures { look_value result ≡ no_look }
{
    Look {
        title: None,
        widths: "",
        over_time: "",
    }
}

// Returns the number of the code to be explained, or 0 if none is given.
fn code_of(matches: &ArgMatches<'_>) -> u32
    ensures code { result ≡ number_from 14 0 (one_of (codes "code") (rows_of (found_of matches.now))) }
    ensures most { result ≤ 14 }
{
    within(matches.get_one::<u32>("code"), MOST_CODES, 0)
}

// Returns the number of the fault to be explained, or 0 if none is given.
fn fault_of(matches: &ArgMatches<'_>) -> u32
    ensures fault { result ≡ number_from 8 0 (one_of (codes "fault") (rows_of (found_of matches.now))) }
    ensures most { result ≤ 8 }
{
    within(matches.get_one::<u32>("fault"), MOST_FAULTS, 0)
}

// Returns the code of a trace's refusal to be explained, or 0 if none is given.
fn trace_code_of(matches: &ArgMatches<'_>) -> u32
    ensures code { result ≡ number_from 12 0 (one_of (codes "trace") (rows_of (found_of matches.now))) }
    ensures most { result ≤ 12 }
{
    within(matches.get_one::<u32>("trace"), MOST_TRACE_CODES, 0)
}

// Returns what is to be explained, by the numbers of a code, of a fault and of a code of a trace. 0 means that none is given.
fn topic_by(code: u32, fault: u32, trace: u32) -> Topic
    requires code { code ≤ 14 }
    requires fault { fault ≤ 8 }
    requires trace { trace ≤ 12 }
    ensures topic { result ≡ topic_by code fault trace }
    ensures known { IsTopic result }
{
    if code > 0 {
        return Topic::Code(code);
    }
    if fault > 0 {
        return Topic::Fault(fault);
    }
    if trace > 0 {
        return Topic::TraceCode(trace);
    }
    Topic::All
}

// Returns what `explain` asks for.
fn topic_of(matches: &ArgMatches<'_>) -> Topic
    ensures topic { result ≡ topic_in (rows_of (found_of matches.now)) }
    ensures known { IsTopic result }
{
    topic_by(code_of(matches), fault_of(matches), trace_code_of(matches))
}

// Returns what `run` asks for.
fn run_by(json: bool, stream: bool, workers: u32, limit: u32) -> Asked
    requires workers { (1 ≤ workers) × (workers ≤ 64) }
    requires limit { (1 ≤ limit) × (limit ≤ 1000000) }
    ensures asked { result ≡ run_by json stream workers limit }
    ensures limit { IsAsked result }
{
    if json {
        return Asked::RunJson { workers, limit };
    }
    if stream {
        return Asked::RunStream { workers, limit };
    }
    Asked::Run { workers, limit }
}

// Returns the request of a subcommand that runs no job.
fn without_tree<'a>(asked: Asked, options: &ArgMatches<'a>) -> Request<'a>
    ensures asked { result.asked ≡ asked }
    ensures tree { result.tree.now ≡ codes "flat" }
    ensures file { option_map (λ s. s.now) result.file ≡ file_in (rows_of (found_of options.now)) }
    ensures look { look_value result.look ≡ no_look }
{
    Request {
        asked,
        tree: "flat",
        file: file_of(options),
        look: no_look(),
        progress: false,
    }
}

// Returns the request of a subcommand that runs a job.
fn with_tree<'a>(
    asked: Asked,
    options: &ArgMatches<'a>,
    look: Look<'a>,
    progress: bool,
) -> Request<'a>
    ensures asked { result.asked ≡ asked }
    ensures tree { result.tree.now ≡ tree_in (rows_of (found_of options.now)) }
    ensures file { option_map (λ s. s.now) result.file ≡ file_in (rows_of (found_of options.now)) }
    ensures look { look_value result.look ≡ look_value look.entry }
{
    Request {
        asked,
        tree: tree_of(options),
        file: file_of(options),
        look,
        progress,
    }
}

// Returns the request of no subcommand, which the parser never gives.
fn nothing_asked<'a>() -> Request<'a>
    ensures asked { result.asked ≡ Asked.Trace }
    ensures tree { result.tree.now ≡ codes "flat" }
    ensures file { result.file ≡ None }
    ensures look { look_value result.look ≡ no_look }
{
    Request {
        asked: Asked::Trace,
        tree: "flat",
        file: None,
        look: no_look(),
        progress: false,
    }
}

/// Returns what parsed words ask for.
pub(crate) fn asked_for<'a>(matches: &ArgMatches<'a>) -> Request<'a>
    ensures asked { result.asked ≡ asked_by (subcommand_rows_of matches.now) }
    ensures tree { result.tree.now ≡ tree_by (subcommand_rows_of matches.now) }
    ensures file { option_map (λ s. s.now) result.file ≡ file_by (subcommand_rows_of matches.now) }
    ensures look { look_value result.look ≡ look_by (subcommand_rows_of matches.now) }
    ensures limit { IsAsked result.asked }
{
    match matches.subcommand() {
        Some((name, options)) => {
            if name == "check" {
                return without_tree(check_by(all_of(options)), options);
            }
            if name == "upgrade" {
                return without_tree(Asked::Upgrade, options);
            }
            if name == "explain" {
                return without_tree(Asked::Explain(topic_of(options)), options);
            }
            let (workers, limit) = (workers_of(options), limit_of(options));
            if name == "run" {
                let asked = run_by(json_of(options), stream_of(options), workers, limit);
                return with_tree(asked, options, no_look(), options.get_flag("progress"));
            }
            if name == "draw" {
                let asked = Asked::Draw { workers, limit };
                return with_tree(asked, options, look_of(options), false);
            }
            without_tree(Asked::Trace, options)
        }
        None => nothing_asked(),
    }
}
