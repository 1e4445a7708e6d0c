//! Words that the parser takes, and that ask for two things at once, or for widths that are none.
ghost use Rattle.std.specs.Prelude.{[], ◌∷◌};
ghost use Rattle.clap.specs.Words.{HasKind};
ghost use Rattle.clap.specs.declared.error.kind.ErrorKind.TheVariants as kinds;

use crate::parser::parser;
use clap::error::ErrorKind;
use clap::{ArgMatches, Error};
use std::alloc::Global;

// Why two forms of a report are refused, for people.
const TWO_FORMS: &str = "error: the argument '--json' cannot be used with '--stream'

For more information, try '--help'.
";

// Why two topics are refused, for people.
const TWO_TOPICS: &str = "error: only one of a code, '--fault' and '--trace' can be explained

For more information, try '--help'.
";

// Why widths are refused, for people.
const NO_WIDTHS: &str =
    "error: the text of '--width' is NAME=N, several with commas between them, each N from 1 to 4096 and each NAME once

For more information, try '--help'.
";

/// Returns why words that ask for two things at once are refused, for people.
pub(crate) fn clash_text(matches: &ArgMatches<'_>) -> &'static str {
    match matches.subcommand() {
        Some((name, _)) if name == "explain" => TWO_TOPICS,
        Some((name, _)) if name == "draw" => NO_WIDTHS,
        _ => TWO_FORMS,
    }
}

/// Returns the error of words that ask for two things at once, with this text, or that memory has run out.
pub(crate) fn refuse_clash(alloc: Global, text: &'static str) -> Error
    ensures { HasKind (kinds.ArgumentConflict ∷ []) result }
{
    let mut command = match parser(alloc) {
        Ok(command) => command,
        Err(fault) => return fault.into(),
    };
    match command.error(ErrorKind::ArgumentConflict, text) {
        Ok(error) => error,
        Err(fault) => fault.into(),
    }
}
