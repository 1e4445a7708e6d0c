//! What codes of refusals and numbers of faults mean, as `bsp explain` prints it.
ghost use Rattle.std.specs.Prelude.{◌≡◌, ◌≤◌, true};
ghost use Rattle.bsp_words.specs.Ranges.{IsTopic};
ghost use Rattle.bsp_words.specs.Topics.{goes_on, heading};
ghost use Rattle.bsp_words.specs.declared.asked.Topic.TheVariants.{Code, Fault, TraceCode};

use crate::asked::Topic;

// What can be asked for.
const TOPICS: &str = "Codes of a job's refusals, by bsp explain CODE:
  1   TooLong      over 1048576 bytes
  2   BadByte      a byte that isn't allowed
  3   BadHeader    the first line is neither bsp 1 nor bsp 2
  4   UnknownLine  a line whose first word isn't allowed there
  5   BadName      not a name
  6   BadNumber    not a number, or one out of its range
  7   BadLine      words too few, too many or misplaced
  8   Twice        an array or a body declared twice, or a local listed twice
  9   UnknownName  no such array above, no such body, or in bsp 2 no such local
  10  Unclosed     the text ends in a body
  11  BadNesting   an else that fits no if
  12  TooMany      past a limit of the language
  13  BadLength    a length outside 1 to 4096, or more values than the length
  14  Reserved     a reserved word as a name

Faults of a task, by bsp explain --fault CODE:
  1   a result doesn't fit 64 bits
  2   a division by 0
  3   an index outside its array
  4   statement number 100001 of a task in one superstep
  5   a spawn by a task whose path has 8 numbers
  6   the ninth spawn of a task in one superstep, or its 65536th in all
  7   over 4096 tasks would live on
  8   a cell's sum doesn't fit 64 bits as its values are added
";

const TOO_LONG: &str = "code 1 TooLong: over 1048576 bytes

The text is longer than the 1048576 bytes that a text may have. The reported
line is always 1.

Start fewer tasks with larger parts of the work, or leave out array values
that are 0.
";

const BAD_BYTE: &str = "code 2 BadByte: a byte that isn't allowed

The line has a byte that is neither a line end nor one from space to ~: a tab,
a carriage return or a letter with an accent, also in a comment.

A text that gets it:

    bsp 1
    body b
    \tprint 1
    end

Write spaces in place of tabs, and line ends as a line feed alone.
";

const BAD_HEADER: &str = "code 3 BadHeader: the first line is neither bsp 1 nor bsp 2

The first line that is neither empty nor a comment has to be the format.

A text that gets it:

    array a 4

Put the line bsp 1 or bsp 2 on top.
";

const UNKNOWN_LINE: &str = "code 4 UnknownLine: a line whose first word isn't allowed there

Outside bodies, a line begins with array, body or start; inside, with the word
of a statement. Only format 2 has add.

A text that gets it:

    bsp 1
    print 1

Move the line into a body, or after its end. To use add, begin the text with
bsp 2.
";

const BAD_NAME: &str = "code 5 BadName: not a name

The line has a word that isn't a name where it must have one. A name is a
lower-case letter and up to 15 lower-case letters, digits or _.

A text that gets it:

    bsp 1
    array Sum 1

Write the name in lower case, begin it with a letter, and use at most 16
characters.
";

const BAD_NUMBER: &str = "code 6 BadNumber: not a number, or one out of its range

A number is a whole number of 64 signed bits, without a plus in front and
without leading zeros.

A text that gets it:

    bsp 1
    body b
    print 05
    end

Write 5 for 05 and for +5, and numbers below 9223372036854775808.
";

const BAD_LINE: &str = "code 7 BadLine: words too few, too many or misplaced

The line begins well, but its other words don't fit: an expression with two
operators, a comment after a statement, a cell without its brackets.

A text that gets it:

    bsp 1
    body b
    let x = 1 + 2 + 3
    end

Use another let for a part of the expression, and a separate line for a
comment.
";

const TWICE: &str = "code 8 Twice: an array or a body declared twice, or a local listed twice

Two arrays, or two bodies, have one name, or the first line of a body lists a
local twice.

A text that gets it:

    bsp 1
    array a 1
    array a 2

Give one of them another name. An array and a body may share one.
";

const UNKNOWN_NAME: &str =
    "code 9 UnknownName: no such array above, no such body, or in bsp 2 no such local

The line names an array that isn't declared above it, a body that isn't
declared, or in format 2 a local that the first line of the body doesn't list.

A text that gets it:

    bsp 1
    start main 0

Correct the spelling, move the array line up, or list the local after the
body's name.
";

const UNCLOSED: &str = "code 10 Unclosed: the text ends in a body

The last body isn't closed: each if, while and body needs an end.

A text that gets it:

    bsp 1
    body b
    while 1
    sync
    end

From the body's line on, count body, if and while on one side and end on the
other, and add the missing end.
";

const BAD_NESTING: &str = "code 11 BadNesting: an else that fits no if

There is an else, but the innermost open line isn't an if, or that if has an
else already.

A text that gets it:

    bsp 1
    body b
    else
    end

Remove the else, or put an if before it.
";

const TOO_MANY: &str = "code 12 TooMany: past a limit of the language

At most 16 arrays, 64 bodies, 4096 starts, 1024 statements and 32 locals a
body, and 16 lines if and while open at once. The line is the first past a
limit.

A text that gets it:

    bsp 2
    body b x0 x1 x2 x3 x4 x5 x6 x7 x8 x9 x10 x11 x12 x13 x14 x15 x16 x17 x18 x19 x20 x21 x22 x23 x24 x25 x26 x27 x28 x29 x30 x31 x32
    end

Split the body, keep values in an array, or start fewer tasks with more work
each.
";

const BAD_LENGTH: &str =
    "code 13 BadLength: a length outside 1 to 4096, or more values than the length

An array has 1 to 4096 cells, and its line at most as many values.

A text that gets it:

    bsp 1
    array a 2 1 2 3

Make the array longer, or split it in two.
";

const RESERVED: &str = "code 14 Reserved: a reserved word as a name

The words of the language can't name an array, a body or a local.

A text that gets it:

    bsp 1
    body b
    let step = 1
    end

Use another name. In expressions, arg is the task's argument and step the
superstep.
";

// Returns what a code of a refusal means, a text that gets it, and how to mend it.
fn code_text(number: u32) -> &'static str
    requires { (1 ≤ number) × (number ≤ 14) }
    ensures { goes_on (heading (Code number)) result.now ≡ true }
{
    match number {
        1 => TOO_LONG,
        2 => BAD_BYTE,
        3 => BAD_HEADER,
        4 => UNKNOWN_LINE,
        5 => BAD_NAME,
        6 => BAD_NUMBER,
        7 => BAD_LINE,
        8 => TWICE,
        9 => UNKNOWN_NAME,
        10 => UNCLOSED,
        11 => BAD_NESTING,
        12 => TOO_MANY,
        13 => BAD_LENGTH,
        14 => RESERVED,
        _ => unreachable!(),
    }
}

const OVERFLOW: &str = "fault 1: a result doesn't fit 64 bits

A sum, a difference, a product or a quotient is below -9223372036854775808 or
above 9223372036854775807.

A text that gets it:

    bsp 1
    body b
    let x = 9223372036854775807 + 1
    end
    start b 0

Take remainders on the way, or keep a large number as two.
";

const DIVIDE_BY_ZERO: &str = "fault 2: a division by 0

The right side of / or % is 0.

A text that gets it:

    bsp 1
    body b
    print 1 / 0
    end
    start b 0

Test the right side with if before the division.
";

const INDEX: &str = "fault 3: an index outside its array

A cell is read, put or added to whose index is negative, or not below the
array's length.

A text that gets it:

    bsp 1
    array a 4
    body b
    print a[arg]
    end
    start b 4

Cells are numbered from 0: the last of 4 is a[3]. Test the index with if.
";

const BUDGET: &str = "fault 4: statement number 100001 of a task in one superstep

A task runs at most 100000 statements between two syncs. Usually a while never
ends.

A text that gets it:

    bsp 1
    body b
    while 1
    end
    end
    start b 0

Put a sync into the loop, or share the work among more tasks or supersteps.
";

const DEPTH: &str = "fault 5: a spawn by a task whose path has 8 numbers

A task's path has one number for its start line and one for each spawn. With 8
numbers a task can't spawn.

A text that gets it:

    bsp 1
    body b
    spawn b 0
    end
    start b 0

Begin with more start lines, and let those tasks wait until they have something
to do.
";

const SPAWNS: &str = "fault 6: the ninth spawn of a task in one superstep, or its 65536th in all

A task spawns at most 8 tasks between two syncs, and 65535 in its life.

A text that gets it:

    bsp 1
    body b
    let i = 0
    while i < 9
    spawn c i
    let i = i + 1
    end
    end
    body c
    end
    start b 0

Put a sync between the spawns, or let the spawned tasks spawn.
";

const MANY_TASKS: &str = "fault 7: over 4096 tasks would live on

At the end of a superstep more than 4096 tasks would go on. The fault is no
single task's, so the report has - as its path.

Let tasks stop before others are spawned, or give each more of the work.
";

const SUM: &str = "fault 8: a cell's sum doesn't fit 64 bits as its values are added

The values that tasks add to one cell in a superstep, in the order of their
paths, give a sum outside 64 signed bits.

A text that gets it:

    bsp 2
    array a 1 9223372036854775807
    body b
    add a[0] = 1
    end
    start b 0

Add to several cells, or add less: the sum is checked after each value.
";

// Returns what a fault means, a text that gets it, and how to mend it.
fn fault_text(number: u32) -> &'static str
    requires { (1 ≤ number) × (number ≤ 8) }
    ensures { goes_on (heading (Fault number)) result.now ≡ true }
{
    match number {
        1 => OVERFLOW,
        2 => DIVIDE_BY_ZERO,
        3 => INDEX,
        4 => BUDGET,
        5 => DEPTH,
        6 => SPAWNS,
        7 => MANY_TASKS,
        8 => SUM,
        _ => unreachable!(),
    }
}

const TRACE_TOO_LONG: &str = "trace code 1 TooLong: over 1048576 bytes

The text is longer than the 1048576 bytes that a text may have. The reported
line is always 1.

Split the trace into several.
";

const TRACE_BAD_BYTE: &str = "trace code 2 BadByte: a byte that isn't allowed

The line has a byte that is neither a line end nor one from space to ~: a tab,
a carriage return or a letter with an accent, also in a comment.

A trace that gets it:

    phaser 1
    arrive\t

Write spaces in place of tabs, and line ends as a line feed alone.
";

const TRACE_BAD_HEADER: &str = "trace code 3 BadHeader: the first line is no phaser, tree or barrier

The first line that is neither empty nor a comment has to begin with phaser,
tree or barrier.

A trace that gets it:

    arrive

Put the line phaser 1 on top, or another of the three.
";

const TRACE_UNKNOWN_LINE: &str = "trace code 4 UnknownLine: a line whose first word is no command

A line after the first begins with a command. Each of the three kinds of trace
has different commands; bsp trace --help lists them.

A trace that gets it:

    phaser 1
    hop

Write one of the commands.
";

const TRACE_BAD_NAME: &str = "trace code 5 BadName: no code of a trace

Only the text of a job gets this code; bsp explain 5 describes it.
";

const TRACE_BAD_NUMBER: &str = "trace code 6 BadNumber: not a number, or one out of its range

A number is a whole number without a plus in front and without leading zeros,
and each has a range.

A trace that gets it:

    phaser x

Write a number of parties, or of what else the line needs.
";

const TRACE_BAD_LINE: &str = "trace code 7 BadLine: words too few, too many or misplaced

The line begins well, but its other words don't fit.

A trace that gets it:

    phaser 1
    arrive twice

Write one command per line, and put each comment on a separate line.
";

const TRACE_TWICE: &str = "trace code 8 Twice: no code of a trace

Only the text of a job gets this code; bsp explain 8 describes it.
";

const TRACE_UNKNOWN_NAME: &str = "trace code 9 UnknownName: no code of a trace

Only the text of a job gets this code; bsp explain 9 describes it.
";

const TRACE_UNCLOSED: &str = "trace code 10 Unclosed: no code of a trace

Only the text of a job gets this code; bsp explain 10 describes it.
";

const TRACE_BAD_NESTING: &str = "trace code 11 BadNesting: no code of a trace

Only the text of a job gets this code; bsp explain 11 describes it.
";

const TRACE_TOO_MANY: &str =
    "trace code 12 TooMany: over 4096 commands, or over 256 tokens of a tree

A trace has at most 4096 commands after its first line, and a trace of a tree
at most 256 tokens.

Split the trace into several.
";

// Returns what a code of a trace's refusal means, a trace that gets it, and how to mend it.
fn trace_code_text(number: u32) -> &'static str
    requires { (1 ≤ number) × (number ≤ 12) }
    ensures { goes_on (heading (TraceCode number)) result.now ≡ true }
{
    match number {
        1 => TRACE_TOO_LONG,
        2 => TRACE_BAD_BYTE,
        3 => TRACE_BAD_HEADER,
        4 => TRACE_UNKNOWN_LINE,
        5 => TRACE_BAD_NAME,
        6 => TRACE_BAD_NUMBER,
        7 => TRACE_BAD_LINE,
        8 => TRACE_TWICE,
        9 => TRACE_UNKNOWN_NAME,
        10 => TRACE_UNCLOSED,
        11 => TRACE_BAD_NESTING,
        12 => TRACE_TOO_MANY,
        _ => unreachable!(),
    }
}

/// Returns the text on a topic: what a code or a fault means, with an example and a fix, or the list of all.
pub fn text_on(topic: Topic) -> &'static str
    requires { IsTopic topic }
    ensures { goes_on (heading topic) result.now ≡ true }
{
    match topic {
        Topic::All => TOPICS,
        Topic::Code(number) => code_text(number),
        Topic::Fault(number) => fault_text(number),
        Topic::TraceCode(number) => trace_code_text(number),
    }
}
