ghost use Rattle.std.specs.Prelude.{ℕ, ◌<◌, ◌≤◌, length, slice_index};
ghost use Rattle.owned.specs.Ends.{SignatureIn};

use crate::procs::{Procedure, procedures};

// A program in its rows, and where its procedures begin.
#[derive(Clone, Copy)]
pub(crate) struct Program<'a> {
    pub rows: &'a [u32],
    pub starts: &'a [u32],
    ghost short: { length rows.now ≤ 16384 },
    ghost begins: { (f : ℕ) → f < length starts.now → SignatureIn rows.now (slice_index starts.now f) },
}

impl<'a> Program<'a> {
    ghost use Rattle.owned.specs.Views.{ReadAs, Found, seen_in};

    // The program that the rows are, if they are one. Where its procedures begin is written into lent words.
    pub fn read(rows: &'a [u32], work: &'a mut [u32]) -> Option<Program<'a>>
        requires { (length rows.now ≤ 16384) × (64 ≤ length work.old) }
        ensures { ReadAs rows.now result }
    {
        let count = procedures(rows, work)?;
        Some(Program {
            rows,
            starts: &work[..count],
        })
    }

    // The procedure with a number.
    pub fn procedure(&self, f: usize) -> Procedure<'a>
        requires { f < length self.now.starts.now }
        ensures { Found self.now.rows.now self.now.starts.now f (seen_in self.now.rows.now self.now.starts.now result) }
    {
        Procedure::at(self.rows, self.starts[f] as usize)
    }
}
