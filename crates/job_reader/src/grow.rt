//! Lines that the job grows by.
ghost use Rattle.std.specs.Prelude.{◌≡◌, ◌≤◌, ◌∷◌, [], ◌++◌, length, map, string_bytes, IfOk, IfSome, IsTrue, OnOk, ◌<◌, Option, true};
ghost use Rattle.std.specs.Option.{ForSome};
ghost use Rattle.std.specs.List.{list_all};
ghost use Rattle.text_lines.specs.Text.{words_of};
ghost use Rattle.superstep_memory.specs.Cells.{IsNew};
ghost use Rattle.task_code.specs.Names.{is_free};
ghost use Rattle.job_reader.specs.Views.{lent};
ghost use Rattle.job_reader.specs.Lines as lines;
ghost use Rattle.job_reader.specs.Trees.{JobTree, job_tree};
ghost use Rattle.job_reader.specs.Legal.{flat_body};
ghost use Rattle.job_reader.specs.Above.{Inside, nothing, can_else, sits, ended, statements_behind};
ghost use Rattle.job_reader.specs.Kept.{HasJob, HasSoFar, HasKept, HasKeptInside, HasWhole, HasEnding};
ghost use Rattle.job_reader.specs.Reading as spec;
ghost use Rattle.job_reader.specs.Relates.{IsSoFar, IsInside, IsOpened, IsBehind};
ghost use Rattle.job_reader.specs.Gives.{LineGives};

use crate::fault::LineFault;
use crate::inside::OpenBody;
use crate::lines::{Keyword, keyword_of, known_in};
use crate::outer::{Outer, are_apart, array_of, body_of, outer_of, start_of, words_in};
use crate::so_far::SoFar;
use crate::words::is_among;
use std::alloc::{AllocError, Global};
use superstep_memory::arrays::Arrays;
use task_code::body::{Body, MOST_LOCALS};
use task_code::code::Line;
use task_code::job::{Job, MOST_ARRAYS, MOST_BODIES, MOST_TASKS};
use text_lines::Code;

// Copies a name into a string.
#[tactic(auto, using(crate::proofs::AsciiNames::ascii_steps))]
fn name_text(alloc: Global, name: &[u8]) -> Result<String, AllocError>
    requires { IsTrue (is_free name.now) }
    ensures { IfOk result (λ text. string_bytes text ≡ name.now) }
{
    match str::from_utf8(name) {
        Ok(text) => String::from_str(alloc, text),
        Err(_) => unreachable!(),
    }
}

// Copies names into strings.
fn name_texts(alloc: Global, names: &[&[u8]]) -> Result<Vec<String>, AllocError>
    requires { IsTrue (list_all is_free (lent names.now)) }
    ensures { IfOk result (λ texts. map string_bytes texts.items ≡ lent names.now) }
{
    let mut texts = Vec::new(alloc);
    for name in names {
        texts.push(name_text(alloc, name)?)?;
    }
    Ok(texts)
}

// Closes a body in which no line is open.
fn finished(alloc: Global, inner: OpenBody<'_>) -> Result<Body, AllocError>
    requires { HasWhole inner }
    ensures { IfOk result (λ body. (o : Inside) → IsInside o inner.entry → o.frames ≡ [] → body ≡ flat_body (ended o)) }
{
    let OpenBody {
        name,
        locals,
        builder,
        statements: _,
    } = inner;
    let name = name_text(alloc, name)?;
    let locals = name_texts(alloc, &locals)?;
    match Body::new(alloc, name, locals, builder.code)? {
        Some(body) => Ok(body),
        None => unreachable!(),
    }
}

impl<'a> SoFar<'a> {
    /// Returns the state before any line of a job of this format.
    pub(crate) fn new(alloc: Global, format: u32) -> Self
        ensures { IsSoFar (nothing format).job result }
    {
        SoFar {
            format,
            arrays: Arrays::new(alloc),
            array_names: Vec::new(alloc),
            bodies: Vec::new(alloc),
            body_names: Vec::new(alloc),
            starts: Vec::new(alloc),
        }
    }

    /// Returns the job.
    pub(crate) fn job(self) -> Job
        requires { HasJob self }
        ensures { (j : JobTree) → IsSoFar j self.entry → job_tree result ≡ j }
    {
        let SoFar {
            format,
            arrays,
            array_names: _,
            bodies,
            body_names: _,
            starts,
        } = self;
        match Job::new(format, arrays, bodies, starts) {
            Some(job) => job,
            None => unreachable!(),
        }
    }

    // Adds an array at the end.
    fn push_array(
        &mut self,
        text: String,
        name: &'a [u8],
        cells: Vec<i64>,
    ) -> Result<(), AllocError>
        requires text { string_bytes text ≡ name.now }
        requires few { length self.old.array_names.items < 16 }
        requires new { IsNew self.old.arrays (string_bytes text) cells.items }
        ensures { OnOk result ((j : JobTree) → IsSoFar j self.old
            → IsSoFar (record j { arrays = j.arrays ++ (name.entry.now, cells.items) ∷ [] }) self.new) }
    {
        if !self.arrays.add(text, cells)? {
            unreachable!();
        }
        self.array_names.push(name)?;
        Ok(())
    }

    // Reads the line of an array and adds it.
    fn add_array(&mut self, alloc: Global, line: &'a [u8]) -> Result<(), LineFault>
        requires { HasSoFar self.old }
        ensures { (j : JobTree) → IsSoFar j self.old
            → LineGives (λ _ k. IsSoFar k self.new) result (spec.array_line j (words_of line.entry.now)) }
    {
        let (name, cells) = array_of(alloc, line)?;
        if is_among(&self.array_names, name) {
            return Err(LineFault::Refused(Code::Twice));
        }
        if self.array_names.len() >= MOST_ARRAYS {
            return Err(LineFault::Refused(Code::TooMany));
        }
        let text = name_text(alloc, name)?;
        self.push_array(text, name, cells)?;
        Ok(())
    }

    // Reads the first line of a body and opens the body.
    fn begin_body(&self, alloc: Global, line: &'a [u8]) -> Result<OpenBody<'a>, LineFault>
        ensures begun { (j : JobTree) → IsSoFar j self.now
            → LineGives (λ w o. IsInside o w) result (spec.body_line j (words_of line.entry.now)) }
        ensures few { IfOk result (λ w. length w.locals.items ≤ 32) }
    {
        let (name, locals) = body_of(alloc, self.format, line)?;
        let apart = are_apart(alloc, &locals)?;
        if is_among(&self.body_names, name) || !apart {
            return Err(LineFault::Refused(Code::Twice));
        }
        if self.body_names.len() >= MOST_BODIES || locals.len() > MOST_LOCALS {
            return Err(LineFault::Refused(Code::TooMany));
        }
        Ok(OpenBody::begin(alloc, name, locals))
    }

    // Reads a start line and adds it.
    fn add_start(&mut self, bodies: &[&'a [u8]], line: &'a [u8]) -> Result<(), LineFault>
        requires { length bodies.now ≤ 65536 }
        ensures { (j : JobTree) → IsSoFar j self.old
            → LineGives (λ _ k. IsSoFar k self.new) result (spec.start_line (lent bodies.now) j (words_of line.entry.now)) }
    {
        let start = start_of(bodies, line)?;
        if self.starts.len() >= MOST_TASKS {
            return Err(LineFault::Refused(Code::TooMany));
        }
        self.starts.push(start)?;
        Ok(())
    }

    // Closes a body and adds it.
    fn add_body(&mut self, alloc: Global, inner: OpenBody<'a>) -> Result<(), AllocError>
        requires { HasWhole inner }
        ensures { OnOk result ((j : JobTree) (o : Inside) → IsSoFar j self.old → IsInside o inner.entry → o.frames ≡ []
            → IsSoFar (record j { bodies = j.bodies ++ ended o ∷ [] }) self.new) }
    {
        let name = inner.name;
        let body = finished(alloc, inner)?;
        self.bodies.push(body)?;
        self.body_names.push(name)?;
        Ok(())
    }

    // Reads a line outside bodies, from its first word and the rest of the line.
    fn outer_line(
        &mut self,
        alloc: Global,
        bodies: &[&'a [u8]],
        begins: Option<Outer>,
        line: &'a [u8],
    ) -> Result<Option<OpenBody<'a>>, LineFault>
        requires bodies { length bodies.now ≤ 64 }
        requires kept { HasSoFar self.old }
        ensures line { (j : JobTree) → IsSoFar j self.old
            → LineGives (λ w p. IsBehind p self.new w) result (spec.outer_line (lent bodies.now) j begins (words_of line.entry.now)) }
        ensures few { IfOk result (λ o. IfSome o (λ w. length w.locals.items ≤ 32)) }
    {
        let Some(begins) = begins else {
            return Err(LineFault::Refused(Code::UnknownLine));
        };
        match begins {
            Outer::Array => {
                self.add_array(alloc, line)?;
                Ok(None)
            }
            Outer::Body => Ok(Some(self.begin_body(alloc, line)?)),
            Outer::Start => {
                self.add_start(bodies, line)?;
                Ok(None)
            }
        }
    }

    // Adds a line to an open body, or closes the body.
    fn put_line(
        &mut self,
        alloc: Global,
        mut inner: OpenBody<'a>,
        line: Line,
    ) -> Result<Option<OpenBody<'a>>, AllocError>
        requires few { statements_behind inner.statements line ≤ 1024 }
        requires ends { HasEnding inner line }
        ensures line { IfOk result (λ w. (j : JobTree) (o : Inside) → IsSoFar j self.old → IsInside o inner.entry
            → sits (can_else o.frames) line ≡ true → IsBehind (spec.with_line j o line) self.new w) }
        ensures few { IfOk result (λ o. IfSome o (λ w. w.locals ≡ inner.entry.locals)) }
    {
        if inner.belongs(line) {
            inner.push(line)?;
            Ok(Some(inner))
        } else {
            self.add_body(alloc, inner)?;
            Ok(None)
        }
    }

    // Reads a line in an open body, from its keyword and the words after it.
    fn inner_line(
        &mut self,
        alloc: Global,
        bodies: &[&'a [u8]],
        mut inner: OpenBody<'a>,
        keyword: Option<Keyword>,
        words: &[&'a [u8]],
    ) -> Result<Option<OpenBody<'a>>, LineFault>
        requires bodies { length bodies.now ≤ 64 }
        requires few { length inner.locals.items ≤ 32 }
        requires known { lines.known_in self.old.format keyword ≡ keyword }
        requires kept { HasKeptInside self.old inner }
        ensures line { (j : JobTree) (o : Inside) → IsSoFar j self.old → IsInside o inner.entry
            → LineGives (λ w p. IsBehind p self.new w) result (spec.inner_line (lent bodies.now) j o keyword (lent words.now)) }
        ensures few { IfOk result (λ o. IfSome o (λ w. length w.locals.items ≤ 32)) }
    {
        inner.note(self.format, keyword, words)?;
        let line = inner.said(&self.array_names, bodies, keyword, words)?;
        Ok(self.put_line(alloc, inner, line)?)
    }

    /// Reads a line that isn't skipped, from its first word and the rest of the line. A body may be open.
    pub(crate) fn any_line(
        &mut self,
        alloc: Global,
        bodies: &[&'a [u8]],
        inside: Option<OpenBody<'a>>,
        first: &'a [u8],
        rest: &'a [u8],
    ) -> Result<Option<OpenBody<'a>>, LineFault>
        requires bodies { length bodies.now ≤ 64 }
        requires few { ForSome inside (λ w. length w.locals.items ≤ 32) }
        requires kept { HasKept self.old inside }
        ensures line { (j : JobTree) (i : Option Inside) → IsSoFar j self.old → IsOpened i inside.entry
            → LineGives (λ w p. IsBehind p self.new w) result (spec.any_line (lent bodies.now) j i (first.entry.now ∷ words_of rest.entry.now)) }
        ensures few { IfOk result (λ o. IfSome o (λ w. length w.locals.items ≤ 32)) }
    {
        match inside {
            None => self.outer_line(alloc, bodies, outer_of(first), rest),
            Some(inner) => {
                let words = words_in(alloc, rest)?;
                let keyword = known_in(self.format, keyword_of(first));
                self.inner_line(alloc, bodies, inner, keyword, &words)
            }
        }
    }
}
