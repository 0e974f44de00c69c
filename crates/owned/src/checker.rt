ghost use Rattle.std.specs.Prelude.{◌≤◌, length};

use crate::procs::Procedure;
use crate::program::Program;

// A procedure whose rules are looked at, among the others of its program. That a statement stands at a place is asked
// of each call, since the place is another each time; what is full changes with each statement and is handed on.
#[derive(Clone, Copy)]
pub(crate) struct Checker<'a> {
    pub program: Program<'a>,
    pub procedure: Procedure<'a>,
    ghost few: { length procedure.kinds.now ≤ 32 },
}
