//! Why a command line is refused, in words for people.
use crate::asked::clashes;
use crate::clash::clash_text;
use crate::parser::parser;
use std::alloc::{AllocError, Global};

// What is wrong with words that the parser takes: the text of the tree.
const TREE: &str =
    "error: the text of '--tree' is 'flat', or up to six numbers from 1 to 64 joined by 'x', of at most 64 tiers

For more information, try '--help'.
";

// Returns the last word if it may be meant as a file: neither it nor the word before it begins with a hyphen.
fn bare_file<'a>(words: &[&'a str]) -> Option<&'a str> {
    let (last, before) = words.split_last()?;
    let previous = before.last()?;
    if before.len() < 2 || last.starts_with('-') || previous.starts_with('-') {
        return None;
    }
    Some(last)
}

// Returns true if a subcommand reads a text.
fn reads_text(command: &str) -> bool {
    ["run", "draw", "check", "upgrade", "trace"]
        .iter()
        .any(|name| *name == command)
}

// Returns how to read a file, if the last word may be meant as one.
fn file_hint(alloc: Global, words: &[&str]) -> Result<Option<String>, AllocError> {
    let (Some(command), Some(file)) = (words.get(1), bare_file(words)) else {
        return Ok(None);
    };
    if !reads_text(command) {
        return Ok(None);
    }
    let quote = if file.contains(' ') { "'" } else { "" };
    Ok(Some(format!(in alloc; "\nto read a file: bsp {command} -f {quote}{file}{quote}\n")?))
}

/// Returns why a command line of these words is refused: what the parser says, with the usage, and how to read a file if
/// one is named without `-f`. Of words that the parser takes, it says that the text of the tree is none. The first word is
/// the program's name.
pub fn reason_of(alloc: Global, words: &[&str]) -> Result<String, AllocError> {
    let Ok(command) = parser(alloc) else {
        return Err(AllocError);
    };
    let mut reason = match command.try_get_matches_from(words) {
        Ok(matches) => {
            let text = if clashes(alloc, &matches)? {
                clash_text(&matches)
            } else {
                TREE
            };
            return String::from_str(alloc, text);
        }
        Err(error) => error.to_string(alloc)?,
    };
    if let Some(hint) = file_hint(alloc, words)? {
        reason.push_str(hint.as_str())?;
    }
    Ok(reason)
}
