//! What a trace asks for, in the words of its lines.
ghost use Rattle.trace_text.specs.Faulty.{NumberFaultsAreFound, NumbersAreWorkedOut};
ghost use Rattle.trace_text.specs.Laws.{LinesSayWhatIsAsked, CommandsAreSpelled, FaultsOfLinesComeFirst};

/// Lines ask for a head and commands exactly if those that aren't skipped are that head and those commands, in their
/// order.
pub fn lines_say_what_is_asked()
    ensures { LinesSayWhatIsAsked }
{}

/// Each command of a phaser, of a tree and of a barrier whose numbers fit is written in one way, which is read as that
/// command, and no other words are read as a command.
pub fn commands_are_spelled()
    ensures { CommandsAreSpelled }
{}

/// A line whose words are no command is refused by the fault of those words, however many commands and tokens are above
/// it.
pub fn faults_of_lines_come_first()
    ensures { FaultsOfLinesComeFirst }
{}

/// If the words of a command are refused by a number, one of its numbers is found that doesn't fit.
pub fn number_faults_are_found()
    ensures { NumberFaultsAreFound }
{}

/// Which word of a line is no number of its range: values of a head's options, its phase and its parties, and the numbers of
/// commands.
pub fn faulty_numbers_are_worked_out()
    ensures { NumbersAreWorkedOut }
{}
