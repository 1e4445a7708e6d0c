//! A body that is open: its lines one by one.
ghost use Rattle.std.specs.Prelude.{◌≡◌, ◌≤◌, ◌+◌, length, slice_get, IfOk, OnOk};
ghost use Rattle.job_reader.specs.Views.{lent};
ghost use Rattle.job_reader.specs.Lines as lines;
ghost use Rattle.task_code.specs.Open.{step_of};
ghost use Rattle.task_code.specs.Limits.{opened};
ghost use Rattle.job_reader.specs.Above.{Inside, begun, can_else, belongs, statements_behind};
ghost use Rattle.job_reader.specs.Reading as spec;
ghost use Rattle.job_reader.specs.Relates.{IsInside, IsGrown};

use crate::exprs::Scope;
use crate::lines::{Keyword, line_behind};
use crate::mentions::note_behind;
use std::alloc::{AllocError, Global};
use task_code::body::{MOST_LOCALS, MOST_OPEN, MOST_STATEMENTS};
use task_code::builder::Builder;
use task_code::code::Line;
use text_lines::Code;

/// A body whose end isn't read yet.
#[derive(Drop)]
pub(crate) struct OpenBody<'a> {
    pub name: &'a [u8],
    pub locals: Vec<&'a [u8]>,
    pub builder: Builder,
    pub statements: usize,
}

// Returns true if one more line exceeds a limit of a body.
fn is_over(statements: usize, locals: usize, open_lines: usize, line: Line) -> bool
    ensures { result ≡ spec.is_over (statements_behind statements line) locals (opened open_lines line) }
{
    match line {
        Line::Do(_) => statements >= MOST_STATEMENTS
            || locals > MOST_LOCALS
            || open_lines > MOST_OPEN,
        Line::If(_, _) | Line::While(_, _) => {
            statements >= MOST_STATEMENTS || locals > MOST_LOCALS || open_lines >= MOST_OPEN
        }
        Line::Else(_) => statements > MOST_STATEMENTS
            || locals > MOST_LOCALS
            || open_lines > MOST_OPEN,
        Line::EndIf | Line::EndWhile(_, _) => {
            statements > MOST_STATEMENTS || locals > MOST_LOCALS || open_lines > MOST_OPEN + 1
        }
    }
}

// Returns the open line at a place.
fn open_line(code: &[Line], place: usize) -> Option<Line>
    ensures { result ≡ slice_get code.now place }
{
    code.get(place).copied()
}

// Reads a line from its keyword and the words after it, with these names.
fn line_in<'x>(
    arrays: &'x [&'x [u8]],
    bodies: &'x [&'x [u8]],
    locals: &'x [&'x [u8]],
    fits: bool,
    keyword: Option<Keyword>,
    words: &[&[u8]],
) -> Result<Line, Code>
    requires arrays { length arrays.now ≤ 65536 }
    requires bodies { length bodies.now ≤ 65536 }
    requires locals { length locals.now ≤ 256 }
    ensures { result ≡ lines.line_behind (record { arrays = lent arrays.now; bodies = lent bodies.now; locals = lent locals.now })
        fits keyword (lent words.now) }
{
    let scope = Scope {
        arrays,
        bodies,
        locals,
    };
    line_behind(&scope, fits, keyword, words)
}

impl<'a> OpenBody<'a> {
    /// Returns a body after its first line.
    pub(crate) fn begin(alloc: Global, name: &'a [u8], locals: Vec<&'a [u8]>) -> Self
        ensures begun { IsInside (begun (name.entry.now, lent locals.entry.items)) result }
        ensures locals { result.locals ≡ locals.entry }
    {
        OpenBody {
            name,
            locals,
            builder: Builder {
                code: Vec::new(alloc),
                places: Vec::new(alloc),
            },
            statements: 0,
        }
    }

    // Returns true if an `else` may be here.
    fn can_else(&self) -> bool
        ensures { (o : Inside) → IsInside o self.now → result ≡ can_else o.frames }
    {
        let Some(place) = self.builder.places.last() else {
            return false;
        };
        matches!(open_line(&self.builder.code, *place), Some(Line::If(_, _)))
    }

    // Returns the number of open lines.
    #[tactic(auto, using(crate::proofs::OpenLemmas::depth_steps))]
    fn depth(&self) -> usize
        ensures { (o : Inside) → IsInside o self.now → result ≡ length o.frames }
    {
        self.builder.places.len()
    }

    /// Notes the locals that a line mentions, if the format doesn't list them.
    pub(crate) fn note(
        &mut self,
        format: u32,
        keyword: Option<Keyword>,
        words: &[&'a [u8]],
    ) -> Result<(), AllocError>
        ensures noted { OnOk result ((o : Inside) → IsInside o self.old
            → IsInside (spec.mentioning format o keyword (lent words.entry.now)) self.new) }
        ensures few { OnOk result (length self.new.locals.items ≤ length self.old.locals.items + 3) }
    {
        note_behind(&mut self.locals, format, keyword, words)
    }

    /// Reads a line from its keyword and the words after it. The locals are those after the line.
    pub(crate) fn said(
        &self,
        arrays: &[&'a [u8]],
        bodies: &[&'a [u8]],
        keyword: Option<Keyword>,
        words: &[&'a [u8]],
    ) -> Result<Line, Code>
        requires arrays { length arrays.now ≤ 65536 }
        requires bodies { length bodies.now ≤ 65536 }
        requires few { length self.now.locals.items ≤ 256 }
        ensures said { (o : Inside) → IsInside o self.now
            → result ≡ spec.said (lent arrays.now) (lent bodies.now) o keyword (lent words.now) }
        ensures small { IfOk result (λ line. statements_behind self.now.statements line ≤ 1024) }
        ensures still_few { OnOk result (length self.now.locals.items ≤ 32) }
    {
        let fits = self.can_else();
        let depth = self.depth();
        let line = line_in(arrays, bodies, &self.locals, fits, keyword, words)?;
        if is_over(self.statements, self.locals.len(), depth, line) {
            return Err(Code::TooMany);
        }
        Ok(line)
    }

    /// Returns true if a line belongs to the body, and doesn't end it.
    pub(crate) fn belongs(&self, line: Line) -> bool
        ensures { (o : Inside) → IsInside o self.now → result ≡ belongs line o.frames }
    {
        match line {
            Line::Do(_) | Line::If(_, _) | Line::While(_, _) => true,
            Line::Else(_) => self.can_else(),
            Line::EndIf | Line::EndWhile(_, _) => self.depth() > 0,
        }
    }

    /// Adds a line at the end.
    pub(crate) fn push(&mut self, line: Line) -> Result<(), AllocError>
        requires { statements_behind self.old.statements line ≤ 1024 }
        ensures grown { OnOk result ((o : Inside) → IsInside o self.old
            → IsGrown o (statements_behind o.statements line) (step_of line o.frames o.block) self.new) }
        ensures locals { OnOk result (self.new.locals ≡ self.old.locals) }
    {
        self.builder.line(line)?;
        match line {
            Line::Do(_) | Line::If(_, _) | Line::While(_, _) => self.statements += 1,
            Line::Else(_) | Line::EndIf | Line::EndWhile(_, _) => {}
        }
        Ok(())
    }
}
