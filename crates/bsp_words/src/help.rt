//! The texts of help: what `--help` has, and `-h` hasn't. Examples come last.

/// Reasons and two worked examples, at the end of the program's help.
pub(crate) const EXAMPLES: &str =
    "With --why anywhere in the command line, or if standard error is a terminal, bsp also prints
there why the command line or the text was refused, why a fault ended the job, why the limit
was reached, or which file can't be opened or read. For a fault and for the limit it runs the job
again, on one thread.

Two tasks swap their cells, on four threads:

  $ cat examples/swap.job
  bsp 1
  array a 2 10 20
  body swap
    let other = 1 - arg
    put a[arg] = a[other]
    sync
    print a[arg]
  end
  start swap 0
  start swap 1
  $ bsp run --workers 4 --tree 2x2 -f examples/swap.job
  phase 0 parties 2 left 0 spawned 0
  print 1 0 20
  print 1 1 10
  phase 1 parties 2 left 2 spawned 0
  array a 20 10
  ended 2

Two parties arrive at a phaser, and the second advances it:

  $ cat examples/first.trace
  phaser 2
  arrive
  arrive
  show
  $ bsp trace -f examples/first.trace
  0
  advance 0 parties 2
  0
  phase 1 parties 2 unarrived 2 ended no";

// The lines of a trace and the statuses, for the help of `trace`.
pub(crate) const TRACE_LINES: &str = "The first line: phaser PARTIES [PHASE] [least L] [at Q]
Then, one per line:
  register      one party registers
  bulk N        N parties register
  arrive        one party arrives
  leave         one party arrives and deregisters
  await P       asks whether phase P is over
  force         ends the phaser
  show          shows phase, parties, unarrived, ended
Or the first line: tree WIDTHS [PHASE] [keep] [at Q]
Then, one per line, with CALL: join T N, arrive, leave, poll or force:
  token         adds a token
  begin K CALL  token K begins a call
  go K          token K takes the next step of its call
  finish K      token K takes the advance that it must take
  run K         token K takes steps until its answer
  do K CALL     begin and run
  show T        shows tier T
Or the first line: barrier PARTIES [fails G]
Then, one per line:
  await C       caller C arrives
  abandon C     caller C, which waits, leaves early
  break         a party that won't come breaks the barrier
  reset         the barrier starts over
  show          shows parties, waiting, generation, broken
A line that begins with # is a comment.

Statuses, and the line on standard error:
  0  the trace ran
  4  the text is refused: refused line L code C
  5  command line refused
  6  out of memory; the answers written so far stay
  8  read or write failed

Codes of refusals:
  1   over 1048576 bytes
  2   a byte that isn't allowed
  3   the first line is no phaser, tree or barrier
  4   a line whose first word is no command
  6   not a number, or one out of its range
  7   words too few, too many or misplaced
  12  over 4096 commands, or over 256 tokens of a tree

Two parties arrive at a phaser, and the second advances it:

  $ cat examples/first.trace
  phaser 2
  arrive
  arrive
  show
  $ bsp trace -f examples/first.trace
  0
  advance 0 parties 2
  0
  phase 1 parties 2 unarrived 2 ended no";

// The lines of a job, the statuses and the codes of refusals, for the help of `check`, `upgrade` and `run`.
macro_rules! job_help {
    ($ends:literal, $example:literal) => {
        concat!(
            "The first line: bsp 1, or bsp 2
Then, one per line:
  array NAME LENGTH [VALUE ..]  an array; values left out are 0
  body NAME [LOCAL ..]          a body begins, and a line end ends it; bsp 2 lists its locals
  start NAME N                  starts a task of that body, with the argument N
In a body:
  let NAME = EXPR               sets a local
  put ARRAY[INDEX] = EXPR       sets the cell when the superstep ends
  add ARRAY[INDEX] = EXPR       adds to the cell when the superstep ends; bsp 2 only
  print EXPR                    prints a value
  spawn NAME EXPR               starts a task of that body in the next superstep
  sync, stop                    waits for the superstep's end; ends the task
  if EXPR, else, end            runs one branch or the other
  while EXPR, end               repeats while EXPR isn't 0
EXPR is a value, or two with one of + - * / % < <= == != between; a value is a number,
a local, arg, step or ARRAY[INDEX]. A line that begins with # is a comment.",
            $ends,
            "Codes of refusals:
  1   over 1048576 bytes
  2   a byte that isn't allowed
  3   the first line is neither bsp 1 nor bsp 2
  4   a line whose first word isn't allowed there
  5   not a name
  6   not a number, or one out of its range
  7   words too few, too many or misplaced
  8   an array or a body declared twice, or a local listed twice
  9   no such array above, no such body, or in bsp 2 no such local
  10  the text ends in a body
  11  an else that fits no if
  12  past a limit of the language
  13  a length outside 1 to 4096, or more values than the length
  14  a reserved word as a name

",
            $example
        )
    };
}

// The help of `check`.
pub(crate) const CHECK_LINES: &str = job_help!(
    "

Statuses, and the line on standard error:
  0  the text is a job
  4  the text is refused: refused line L code C
  5  command line refused
  6  out of memory
  8  read or write failed

With --all, standard output lists the faulty lines of a refused text, at most 20, each as
line L code C NAME. The first is the one on standard error. The lines after a faulty line
are checked as if it weren't there, except that with codes 5, 6, 7, 9 and 14 it still opens
or closes its if or while. The list ends after a fault of the whole text (codes 1, 3, 10), or
of a line that opens a body.

",
    "A job in its canonical form:

  $ cat examples/swap.job
  bsp 1
  array a 2 10 20
  body swap
    let other = 1 - arg
    put a[arg] = a[other]
    sync
    print a[arg]
  end
  start swap 0
  start swap 1
  $ bsp check -f examples/swap.job
  bsp 1
  array a 2 10 20
  body swap
  let other = 1 - arg
  put a[arg] = a[other]
  sync
  print a[arg]
  end
  start swap 0
  start swap 1"
);

// The help of `upgrade`.
pub(crate) const UPGRADE_LINES: &str = job_help!(
    "

Statuses, and the line on standard error:
  0  the job is written with bsp 2
  4  the text is refused: refused line L code C
  5  command line refused
  6  out of memory
  8  read or write failed

",
    "A job in format 2:

  $ cat examples/swap.job
  bsp 1
  array a 2 10 20
  body swap
    let other = 1 - arg
    put a[arg] = a[other]
    sync
    print a[arg]
  end
  start swap 0
  start swap 1
  $ bsp upgrade -f examples/swap.job
  bsp 2
  array a 2 10 20
  body swap other
  let other = 1 - arg
  put a[arg] = a[other]
  sync
  print a[arg]
  end
  start swap 0
  start swap 1"
);

// The statuses and the faults of a job that is run.
macro_rules! run_help {
    ($example:literal) => {
        job_help!(
            "

Statuses, and the line on standard error:
  0  the job ended
  2  a task faulted; the report or the picture is printed
  3  the limit was reached with live tasks; the report or the picture is printed
  4  the text is refused: refused line L code C
  5  command line refused
  6  out of memory
  7  worker K not started
  8  read or write failed
  9  internal error: a bug in bsp, please report it

Faults, as the report's last line numbers them:
  1  a result doesn't fit 64 bits
  2  a division by 0
  3  an index outside its array
  4  statement number 100001 of a task in one superstep
  5  a spawn by a task whose path has 8 numbers
  6  the ninth spawn of a task in one superstep, or its 65536th in all
  7  over 4096 tasks would live on
  8  a cell's sum doesn't fit 64 bits as its values are added

",
            $example
        )
    };
}

// The help of `run`.
pub(crate) const RUN_LINES: &str = run_help!(
    "Two tasks swap their cells, on four threads:

  $ cat examples/swap.job
  bsp 1
  array a 2 10 20
  body swap
    let other = 1 - arg
    put a[arg] = a[other]
    sync
    print a[arg]
  end
  start swap 0
  start swap 1
  $ bsp run --workers 4 --tree 2x2 -f examples/swap.job
  phase 0 parties 2 left 0 spawned 0
  print 1 0 20
  print 1 1 10
  phase 1 parties 2 left 2 spawned 0
  array a 20 10
  ended 2

The report as a JSON object, for other programs:

  $ bsp run --json -f examples/swap.job > swap.json

The lines of each superstep as soon as it has ended, so that a long run keeps only its arrays,
its tasks and one superstep in memory; after status 6 or 9, complete supersteps may have been
printed:

  $ bsp run --stream -f examples/swap.job > swap.txt"
);

// The help of `draw`.
pub(crate) const DRAW_LINES: &str = run_help!(
    "A picture of a search in a graph, for a browser:

  $ bsp draw -f examples/breadth.job > breadth.svg

A game of life, a board a superstep:

  $ bsp draw --width cell=12 --over-time cell -f examples/gallery/life.job > life.svg"
);
