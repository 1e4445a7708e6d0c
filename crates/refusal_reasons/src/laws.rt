//! Laws of places, of reasons, and of faulty lines. Each function does nothing: its contract is the law.
ghost use Rattle.refusal_reasons.specs.Places.{PlacesAreOfRefusals};
ghost use Rattle.refusal_reasons.specs.Reasons.{ReasonsAreOfRefusals, ReasonsAreShort};
ghost use Rattle.refusal_reasons.specs.WordFaults.{MarksAreRefused, WordFaultsAreMarked};
ghost use Rattle.refusal_reasons.specs.WorkedPlaces.{PlacesAreWorkedOut};
ghost use Rattle.refusal_reasons.specs.WorkedReasons.{ReasonsAreWorkedOut};
ghost use Rattle.refusal_reasons.specs.Laws.{FaultsAreFew, TheFirstFaultIsTheRefusal};
ghost use Rattle.refusal_reasons.specs.Worked.{FaultsAreWorkedOut};

/// The line and the code that are shown of a refused text are those of its refusal.
pub fn places_are_of_refusals()
    ensures { PlacesAreOfRefusals }
{}

/// If a line in a body is refused by a name or a number, with any names above it, a word of it or a part of one is marked.
pub fn word_faults_are_marked()
    ensures { WordFaultsAreMarked }
{}

/// What is marked of a line in a body, a word or a part of one, is refused by the line's fault when it is read by itself.
pub fn marks_are_refused()
    ensures { MarksAreRefused }
{}

/// Where faults are shown: the word at fault, also where others look like it, the array or the index of a cell, a whole line, a
/// byte.
pub fn places_are_worked_out()
    ensures { PlacesAreWorkedOut }
{}

/// A reason begins with the line and the code of the refusal.
pub fn reasons_are_of_refusals()
    ensures { ReasonsAreOfRefusals }
{}

/// A reason has at most 4096 bytes and the name of its source, however long the refused line is.
pub fn reasons_are_short()
    ensures { ReasonsAreShort }
{}

/// Why some texts are refused: a word, a byte, blocks that aren't closed, a text without a line, a trace, a long line, and a text
/// that is too long; and bytes that a terminal doesn't print.
pub fn reasons_are_worked_out()
    ensures { ReasonsAreWorkedOut }
{}

/// A text that is a job has no faulty line, and the first of any other is its refusal.
pub fn the_first_fault_is_the_refusal()
    ensures { TheFirstFaultIsTheRefusal }
{}

/// At most twenty faulty lines are listed.
pub fn faults_are_few()
    ensures { FaultsAreFew }
{}

/// Texts with several faulty lines, and which are listed: lines of blocks, names that aren't there, faults that end the list.
pub fn faults_are_worked_out()
    ensures { FaultsAreWorkedOut }
{}
