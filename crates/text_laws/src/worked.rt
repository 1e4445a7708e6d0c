//! Laws on names and on refusals, in numbers and worked out. Each function does nothing: its contract is the law.
ghost use Rattle.text_laws.specs.WorkedNames.{BytesAreSpelledOut, FirstBytesAreSpelledOut, NamesAreSpelledOut, NamesAreWorkedOut};
ghost use Rattle.text_laws.specs.WorkedRefusals.{FaultsCountInOrder, CodesAreNumbered, RefusalsAreWorkedOut};

/// A text may have the line end and the 95 bytes from the space to the tilde, and no others.
pub fn bytes_are_spelled_out()
    ensures { BytesAreSpelledOut }
{}

/// A line is a comment exactly if its first word begins with a number sign, and a word is meant as a number exactly if it
/// begins with a digit or a minus: of the 95 bytes one by one, too.
pub fn first_bytes_are_spelled_out()
    ensures { FirstBytesAreSpelledOut }
{}

/// A name has 1 to 16 bytes out of 37, of which 26 may come first, and is none of 17 words.
pub fn names_are_spelled_out()
    ensures { NamesAreSpelledOut }
{}

/// Why some lines are refused that have a word which is no name, worked out by hand.
pub fn names_are_worked_out()
    ensures { NamesAreWorkedOut }
{}

/// Of two faults of a line that counts whose code comes first in one list.
pub fn faults_count_in_order()
    ensures { FaultsCountInOrder }
{}

/// Each code has its number, from 1 to 14.
pub fn codes_are_numbered()
    ensures { CodesAreNumbered }
{}

/// Which fault of a line with several counts, and which of a text in which bodies are missing, worked out by hand.
pub fn refusals_are_worked_out()
    ensures { RefusalsAreWorkedOut }
{}
