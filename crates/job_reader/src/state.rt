//! What the reader knows above a line.
ghost use Rattle.std.specs.Prelude.{◌≤◌, length};
ghost use Rattle.std.specs.Option.{ForSome};

use crate::inside::OpenBody;
use crate::so_far::SoFar;

/// The job so far, the open body, and the first line that names a body that doesn't exist.
#[derive(Drop)]
pub(crate) struct State<'a> {
    pub so_far: SoFar<'a>,
    pub inside: Option<OpenBody<'a>>,
    pub missing: Option<usize>,
    ghost few: { ForSome inside (λ w. length w.locals.items ≤ 32) },
}
