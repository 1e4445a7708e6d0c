//! Flat code from lines in order. The jump of a line is written when that line is closed.
ghost use Rattle.std.specs.Prelude.{
  ◌≡◌,
  ◌<◌,
  [],
  ◌∷◌,
  ◌++◌,
  List,
  ℕ,
  length,
  slice_get,
  OnOk,
  IfOk,
  IfSome,
  IsTrue,
  ◌↔◌,
};
ghost use Rattle.task_code.specs.Tree as tree;
ghost use Rattle.task_code.specs.Tree.{Block, ◌⨾◌};
ghost use Rattle.task_code.specs.Reading.{IsMatched};
ghost use Rattle.task_code.specs.Open as spec;
ghost use Rattle.task_code.specs.Open.{Frame, IsOpen};

use crate::code::{Action, Expr, Line};
use crate::same::same_code;
use std::alloc::{AllocError, Global};

/// The beginning of flat code.
#[derive(Drop)]
pub struct Builder {
    pub code: Vec<Line>,
    pub places: Vec<usize>,
}

impl Builder {
    /// Adds the next line, whatever its jump. Returns `false` if it belongs to no open line.
    pub fn line(&mut self, line: Line) -> Result<bool, AllocError>
        ensures { IfOk result (λ fits. (fs : List Frame) (b : Block) → IsOpen fs b self.old
            → spec.IsStep fits (spec.step_of line fs b) self.new) }
    {
        match line {
            Line::Do(action) => {
                self.action(action)?;
                Ok(true)
            }
            Line::If(test, _) => {
                self.open_if(test)?;
                Ok(true)
            }
            Line::While(test, _) => {
                self.open_while(test)?;
                Ok(true)
            }
            Line::Else(_) => self.otherwise(),
            Line::EndIf | Line::EndWhile(_, _) => self.end(),
        }
    }

    /// Adds an action to the innermost block.
    pub fn action(&mut self, action: Action) -> Result<(), AllocError>
        ensures { OnOk result ((fs : List Frame) (b : Block) → IsOpen fs b self.old → IsOpen fs (b ⨾ tree.Do action tree.Done) self.new) }
    {
        self.code.push(Line::Do(action))?;
        Ok(())
    }

    /// Opens an `if`.
    pub fn open_if(&mut self, test: Expr) -> Result<(), AllocError>
        ensures { OnOk result ((fs : List Frame) (b : Block) → IsOpen fs b self.old → IsOpen (spec.InIf test b ∷ fs) tree.Done self.new) }
    {
        self.places.push(self.code.len())?;
        self.code.push(Line::If(test, 0))?;
        Ok(())
    }

    /// Opens a `while`.
    pub fn open_while(&mut self, test: Expr) -> Result<(), AllocError>
        ensures { OnOk result ((fs : List Frame) (b : Block) → IsOpen fs b self.old → IsOpen (spec.InWhile test b ∷ fs) tree.Done self.new) }
    {
        self.places.push(self.code.len())?;
        self.code.push(Line::While(test, 0))?;
        Ok(())
    }

    /// Closes the innermost open line. Returns `false` if none is open.
    pub fn end(&mut self) -> Result<bool, AllocError>
        ensures { IfOk result (λ fits. (fs : List Frame) (b : Block) → IsOpen fs b self.old
            → spec.IsStep fits (spec.step_of Line.EndIf fs b) self.new) }
    {
        let Some(place) = self.places.pop() else {
            return Ok(false);
        };
        close(&mut self.code, place)?;
        Ok(true)
    }

    /// Adds an `else`. Returns `false` if the innermost open line isn't an `if` without one.
    pub fn otherwise(&mut self) -> Result<bool, AllocError>
        ensures { IfOk result (λ fits. (fs : List Frame) (b : Block) (n : ℕ) → IsOpen fs b self.old
            → spec.IsStep fits (spec.step_of (Line.Else n) fs b) self.new) }
    {
        let here = self.code.len();
        let Some(place) = self.places.pop() else {
            return Ok(false);
        };
        let Some(Line::If(test, _)) = line_of(&self.code, place) else {
            self.places.push(place)?;
            return Ok(false);
        };
        self.code[place] = Line::If(test, here - place);
        self.places.push(here)?;
        self.code.push(Line::Else(0))?;
        Ok(true)
    }
}

// Returns the line at a place, if there is one.
fn line_of(code: &Vec<Line>, place: usize) -> Option<Line>
    ensures line { result ≡ slice_get code.now.items place }
    ensures within { IfSome result (λ _. place < length code.now.items) }
{
    code.get(place).copied()
}

// Writes the jump of the open line at this place, and its end.
fn close(code: &mut Vec<Line>, place: usize) -> Result<(), AllocError>
    ensures { OnOk result ((f : Frame) (fs : List Frame) (b : Block) → code.old.items ≡ spec.open_code (f ∷ fs) b
        → place ≡ spec.place_of f fs → code.new.items ≡ spec.open_code fs (spec.closed f b)) }
{
    let here = code.len();
    let Some(line) = line_of(code, place) else {
        return Ok(());
    };
    match line {
        Line::If(test, _) => {
            code[place] = Line::If(test, here - place);
            code.push(Line::EndIf)?;
            Ok(())
        }
        Line::Else(_) => {
            code[place] = Line::Else(here - place);
            code.push(Line::EndIf)?;
            Ok(())
        }
        Line::While(test, _) => {
            code[place] = Line::While(test, here - place);
            code.push(Line::EndWhile(test, here - place - 1))?;
            Ok(())
        }
        _ => Ok(()),
    }
}

/// Returns true if each jump of these lines leads to its line, and each open line has its end.
pub fn is_matched(alloc: Global, code: &[Line]) -> Result<bool, AllocError>
    ensures { IfOk result (λ fits. IsTrue fits ↔ IsMatched code.now) }
{
    let mut builder = Builder {
        code: Vec::new(alloc),
        places: Vec::new(alloc),
    };
    for line in code {
        if !builder.line(*line)? {
            return Ok(false);
        }
    }
    if builder.places.len() != 0 {
        return Ok(false);
    }
    Ok(same_code(builder.code.as_slice(), code))
}
