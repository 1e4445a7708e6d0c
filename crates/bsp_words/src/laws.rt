//! Laws on the words of a command line. Each function does nothing: its contract is the law.
ghost use Rattle.bsp_words.specs.Laws.{EachNameAsks, EachNameHelps, EachNameLooks, EachNameNamesFiles, EachNameRefuses, EachNameTellsVersion};
ghost use Rattle.bsp_words.specs.Laws.{EachLimitAsks, EachNumberAsks, EachNumberOfWorkersAsks, EachOtherNumberIsRefused};

/// The words `trace`, `check`, `upgrade`, and `run` with its limits, after any name of the program, ask for that.
pub fn words_ask()
    ensures { EachNameAsks }
{}

/// The words `-f FILE` and `--file FILE` of `run`, `draw`, `check`, `upgrade` and `trace` name that file, and `-f -` or neither
/// names standard input.
pub fn words_name_files()
    ensures { EachNameNamesFiles }
{}

/// These words are refused: no subcommand or an unknown one, too many words, a limit that isn't one, and options that
/// `run` doesn't have.
pub fn words_are_refused()
    ensures { EachNameRefuses }
{}

/// What these words ask of a picture: nothing but what a width, arrays over supersteps, a title or a file says.
pub fn words_look()
    ensures { EachNameLooks }
{}

/// The words `--help` and `-h`, alone and after each subcommand, ask for help.
pub fn words_help()
    ensures { EachNameHelps }
{}

/// The words `--version` and `-V` ask for the version.
pub fn words_tell_the_version()
    ensures { EachNameTellsVersion }
{}

/// The number after `run --limit`, from 1 to 1000000, in digits with or without a plus before them, is the limit.
pub fn limits_ask()
    ensures { EachLimitAsks }
{}

/// The number after `run --workers`, from 1 to 64, in digits with or without a plus before them, is the number of workers.
pub fn workers_ask()
    ensures { EachNumberOfWorkersAsks }
{}

/// For each number `n`, this is what `run --limit` and `run --workers` ask for with `n` in decimal.
pub fn numbers_ask()
    ensures { EachNumberAsks }
{}

/// Any other text after `run --limit` or `run --workers` is refused, if it doesn't begin with a hyphen.
pub fn other_numbers_are_refused()
    ensures { EachOtherNumberIsRefused }
{}
