//! Landing: the later put that sets wins, puts that add add up, and what is refused leaves the arrays as they were.
use smallvec::SmallVec;
use std::alloc::{AllocError, Global};
use std::process::Abort;
use std::test::Fail;
use superstep_memory::arrays::PutKind::{Add, Set};
use superstep_memory::arrays::{Arrays, Put, PutKind};
use superstep_memory::landing::{Entry, LandFault, land};
use superstep_memory::runs::{Run, land_runs};

// Arrays `a` with the cells 10 and 20, and `b` with 30.
const ARRAYS: [(&str, &[i64]); 2] = [("a", &[10, 20]), ("b", &[30])];

// What a task has put: its path, and an array, a cell and a value of each put.
type Log = (&'static [u16], &'static [(u16, u32, PutKind, i64)]);

// What landing says.
#[derive(Clone, Copy, PartialEq, Eq)]
enum Said {
    Landed,
    NotInOrder,
    // The last number of the path of the task that has put to no cell, and the place of that put.
    OutOfRange(u16, usize),
    // The last number of the path of the task that has a put that overflows, and the place of that put.
    Overflow(u16, usize),
    NoMemory,
}

// The logs of each run, what landing says, and the three cells after it.
type Row = (&'static [&'static [Log]], Said, [Option<i64>; 3]);

const UNCHANGED: [Option<i64>; 3] = [Some(10), Some(20), Some(30)];

// Puts of three tasks; none; paths that don't rise; a put to no cell, which isn't the last of those. Then two runs.
// Their last log has a later path than all others, the path of one in the other run, or an earlier one than the log in
// front of it. Then puts that add: after one that sets, and in both runs; one that overflows, though it would be
// covered; and one that is followed by a put to no cell. At last puts that set and add, as one run and as two.
const ROWS: [Row; 12] = [
    (
        &[&[
            (&[0], &[(0, 0, Set, 1), (0, 0, Set, 2), (0, 1, Set, 3)]),
            (&[0, 3], &[(1, 0, Set, 4)]),
            (&[1], &[(0, 0, Set, 5)]),
        ]],
        Said::Landed,
        [Some(5), Some(3), Some(4)],
    ),
    (&[&[]], Said::Landed, UNCHANGED),
    (
        &[&[(&[1], &[(2, 0, Set, 1)]), (&[1], &[(0, 0, Set, 2)])]],
        Said::NotInOrder,
        UNCHANGED,
    ),
    (
        &[&[
            (&[0], &[(0, 0, Set, 1)]),
            (&[0, 7], &[(0, 1, Set, 2), (0, 2, Set, 3)]),
            (&[2], &[(9, 0, Set, 4)]),
        ]],
        Said::OutOfRange(7, 1),
        UNCHANGED,
    ),
    (
        &[TWO_LOGS, &[(&[0, 0], &[(1, 0, Set, 8)]), (&[2], &[])]],
        Said::Landed,
        [Some(7), Some(9), Some(8)],
    ),
    (
        &[TWO_LOGS, &[(&[0, 0], &[(1, 0, Set, 8)]), (&[1], &[])]],
        Said::NotInOrder,
        UNCHANGED,
    ),
    (
        &[TWO_LOGS, &[(&[0, 0], &[(1, 0, Set, 8)]), (&[0], &[])]],
        Said::NotInOrder,
        UNCHANGED,
    ),
    (
        &[TWO_LOGS, &[(&[0, 0], &[(0, 0, Add, 8), (1, 0, Add, -3)])]],
        Said::Landed,
        [Some(15), Some(9), Some(3)],
    ),
    (
        &[&[
            (&[0], &[(0, 1, Add, 1), (0, 0, Set, i64::MAX)]),
            (&[0, 4], &[(0, 1, Set, 0), (0, 0, Add, 1), (0, 0, Set, 0)]),
        ]],
        Said::Overflow(4, 1),
        UNCHANGED,
    ),
    (
        &[&[
            (&[0], &[(0, 0, Set, i64::MAX), (0, 0, Add, 1)]),
            (&[2], &[(9, 0, Add, 4)]),
        ]],
        Said::OutOfRange(2, 0),
        UNCHANGED,
    ),
    (&[THREE_LOGS], Said::Landed, [Some(9), Some(22), Some(8)]),
    (
        &[THREE_LOGS, &[(&[0, 2], &[(1, 0, Set, 0)])]],
        Said::Landed,
        [Some(9), Some(22), Some(8)],
    ),
];

const THREE_LOGS: &[Log] = &[
    (&[0], &[(0, 0, Set, 5), (1, 0, Set, 6), (0, 0, Set, 7)]),
    (&[0, 3], &[(1, 0, Set, 8), (0, 1, Add, 2)]),
    (&[1], &[(0, 0, Add, 2)]),
];

const TWO_LOGS: &[Log] = &[
    (&[0], &[(0, 0, Set, 5), (1, 0, Set, 6), (0, 0, Set, 7)]),
    (&[1], &[(0, 1, Set, 9)]),
];

// Returns the path and the puts of a log.
fn entry_of(
    alloc: Global,
    path: &[u16],
    puts: &[(u16, u32, PutKind, i64)],
) -> Result<Entry, AllocError> {
    let mut all = Vec::new(alloc);
    for (array, index, kind, value) in puts {
        all.push(Put {
            array: *array,
            index: *index,
            kind: *kind,
            value: *value,
        })?;
    }
    Ok((SmallVec::from_slice(alloc, path)?, all))
}

// Runs of these logs.
fn runs_of(alloc: Global, all: &[&[Log]]) -> Result<Vec<Run>, AllocError> {
    let mut runs = Vec::new(alloc);
    for logs in all {
        let mut run = Vec::new(alloc);
        for (path, puts) in *logs {
            run.push(entry_of(alloc, path, puts)?)?;
        }
        runs.push(run)?;
    }
    Ok(runs)
}

// Returns what a landing has said.
fn said_of(done: &Result<(), LandFault>) -> Said {
    match done {
        Ok(()) => Said::Landed,
        Err(LandFault::NotInOrder) => Said::NotInOrder,
        Err(LandFault::OutOfRange(path, place)) => {
            Said::OutOfRange(path.last().copied().unwrap_or(u16::MAX), *place)
        }
        Err(LandFault::Overflow(path, place)) => {
            Said::Overflow(path.last().copied().unwrap_or(u16::MAX), *place)
        }
        Err(LandFault::Memory(_)) => Said::NoMemory,
    }
}

// Lands runs: one by itself, or several together.
fn land_all(alloc: Global, arrays: &mut Arrays, runs: &[Run]) -> Result<(), LandFault> {
    match runs {
        [run] => land(alloc, arrays, run),
        _ => land_runs(alloc, arrays, runs),
    }
}

// Returns those arrays.
fn three_cells(alloc: Global) -> Result<Arrays, AllocError> {
    let mut arrays = Arrays::new(alloc);
    for (name, cells) in &ARRAYS {
        let _added = arrays.add(
            String::from_str(alloc, name)?,
            Vec::from_slice(alloc, cells)?,
        )?;
    }
    Ok(arrays)
}

// Returns the three cells.
fn cells_of(arrays: &Arrays) -> [Option<i64>; 3] {
    [arrays.cell(0, 0), arrays.cell(0, 1), arrays.cell(1, 0)]
}

// Lands runs, and again if there was no memory and the cells are as they were. Returns what landing says in the end.
fn said_in_the_end(alloc: Global, arrays: &mut Arrays, runs: &[Run]) -> Said {
    let said = said_of(&land_all(alloc, arrays, runs));
    if said == Said::NoMemory && cells_of(arrays) == UNCHANGED {
        return said_of(&land_all(alloc, arrays, runs));
    }
    said
}

// Returns true if runs of a row's logs end as the row says, and leave its cells.
fn is_so(
    alloc: Global,
    logs: &[&[Log]],
    said: Said,
    cells: [Option<i64>; 3],
) -> Result<bool, AllocError> {
    let runs = runs_of(alloc, logs)?;
    let mut arrays = three_cells(alloc)?;
    let ended = said_in_the_end(alloc, &mut arrays, &runs);
    Ok(ended == said && cells_of(&arrays) == cells)
}

#[test]
fn runs_land_as_the_rows_say(rt: HostRuntime) -> Result<(), Fail> {
    for (logs, said, cells) in &ROWS {
        assert!(rt; is_so(rt.alloc(), logs, *said, *cells)?);
    }
    Ok(())
}
