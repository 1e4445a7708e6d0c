//! What the words of a command line ask for, or why they are refused.
ghost use Rattle.std.specs.Prelude.{◌≡◌, [], IfOk, IfErr, map, option_map};
ghost use Rattle.clap.specs.Words.{HasKind};
ghost use Rattle.job_view.specs.Look.{look_value};
ghost use Rattle.bsp_words.specs.CommandLine.{asked_in, file_asked, look_asked, refused_by, tree_asked};
ghost use Rattle.bsp_words.specs.Ranges.{IsAsked};

use crate::asked::{Request, asked_for, clashes};
use crate::clash::{clash_text, refuse_clash};
use crate::parser::parser;
use clap::Error;
use std::alloc::Global;
use std::convert::AsStr;

/// Returns what the words of a command line ask for. The first is the program's name. The text of the tree may be none.
///
/// # Errors
///
/// The parser's error, by its kind: a call for help or for the version, words that are refused, or
/// that an allocation failed. Its text is help, or why the words are refused.
pub fn parse<'a, S: AsStr>(alloc: Global, words: &'a [S]) -> Result<Request<'a>, Error>
    ensures taken { IfOk result (λ r. refused_by (map S.text words.entry.now) ≡ []) }
    ensures asked { IfOk result (λ r. r.asked ≡ asked_in (map S.text words.entry.now)) }
    ensures tree { IfOk result (λ r. r.tree.now ≡ tree_asked (map S.text words.entry.now)) }
    ensures file { IfOk result (λ r. option_map (λ s. s.now) r.file ≡ file_asked (map S.text words.entry.now)) }
    ensures look { IfOk result (λ r. look_value r.look ≡ look_asked (map S.text words.entry.now)) }
    ensures limit { IfOk result (λ r. IsAsked r.asked) }
    ensures err { IfErr result (HasKind (refused_by (map S.text words.entry.now))) }
{
    let command = parser(alloc)?;
    match command.try_get_matches_from(words) {
        Ok(matches) => {
            let clash = clashes(alloc, &matches)?;
            if clash {
                return Err(refuse_clash(alloc, clash_text(&matches)));
            }
            Ok(asked_for(&matches))
        }
        Err(error) => Err(error),
    }
}
