ghost use Rattle.std.specs.Prelude.{◌≡◌, ℕ, ◌+◌, ◌<◌, ◌≤◌, List, length, drop, nat_le, slice_index};
ghost use Rattle.std.specs.List.{list_all};
ghost use Rattle.owned.specs.Decode.{many, below1, read_sig, read_p};
ghost use Rattle.owned.specs.Ends.{Ended, WordUpTo, Tabled, SignatureIn};
ghost use Rattle.owned.specs.Kept.{there};
ghost use Rattle.owned.specs.Program.{kind, is_lent};
ghost use Rattle.owned.specs.Views.{sig_of, SeenAt};

use crate::decode::statements_end;
use crate::names::{Kind, Var};

// The most that a program may have of each.
pub const MAX_WORDS: usize = 16384;

pub const MAX_PROCEDURES: usize = 64;

const MAX_VARIABLES: u32 = 32;

const MAX_ARGUMENTS: u32 = 8;

const MAX_KIND: u32 = 8;

const MAX_NESTING: u32 = 128;

// The mark of an argument that is lent; 0 is handed over. A mark stays the word that it is in the rows: the rules
// compare these words, and an enum would ask that each is one of the two wherever one is looked at.
pub(crate) const LENT: u32 = 1;

// The word at a place, if it is there and at most `most`.
fn word_up_to(rows: &[u32], at: usize, most: u32) -> Option<u32>
    ensures { WordUpTo rows.now at most result }
{
    rows.get(at).copied().filter(|word| *word <= most)
}

// Whether words are at most `most`.
fn are_up_to(words: &[u32], most: u32) -> bool
    ensures { result ≡ list_all (λ w. nat_le w most) words.now }
{
    words.iter().all(|word| *word <= most)
}

// Where n words end that are at most `most`.
fn words_end(rows: &[u32], at: usize, n: u32, most: u32) -> Option<usize>
    requires { at ≤ length rows.now }
    ensures { Ended rows.now (many (below1 (most + 1)) n (drop at rows.now)) result }
{
    let end = at + n as usize;
    let words = rows.get(at..end)?;
    if are_up_to(words, most) {
        Some(end)
    } else {
        None
    }
}

// Where the signature of a procedure ends that begins at a place.
fn signature_end(rows: &[u32], at: usize) -> Option<usize>
    requires { at ≤ length rows.now }
    ensures { Ended rows.now (read_sig (drop at rows.now)) result }
{
    let vars = word_up_to(rows, at, MAX_VARIABLES)?;
    let middle = words_end(rows, at + 1, vars, MAX_KIND)?;
    let args = word_up_to(rows, middle, MAX_ARGUMENTS.min(vars))?;
    let result = words_end(rows, middle + 1, args, LENT)?;
    if result < rows.len() {
        Some(result + 1)
    } else {
        None
    }
}

// Where the procedure ends that begins at a place.
fn procedure_end(rows: &[u32], at: usize) -> Option<usize>
    requires { at ≤ length rows.now }
    ensures { Ended rows.now (read_p (drop at rows.now)) result }
{
    let body = signature_end(rows, at)?;
    statements_end(rows, body, 1, MAX_NESTING)
}

// How many procedures the rows are, to their end, and where each begins.
pub(crate) fn procedures(rows: &[u32], starts: &mut [u32]) -> Option<usize>
    requires { (length rows.now ≤ 16384) × (64 ≤ length starts.old) }
    ensures { Tabled rows.now starts.new result }
{
    let mut at = 0;
    for (n, start) in starts[..MAX_PROCEDURES].iter_mut().enumerate() {
        if at == rows.len() {
            return Some(n);
        }
        *start = at as u32;
        at = procedure_end(rows, at)?;
    }
    if at == rows.len() {
        Some(MAX_PROCEDURES)
    } else {
        None
    }
}

// A procedure in the rows: its signature, and where its body begins.
#[derive(Clone, Copy)]
pub struct Procedure<'a> {
    pub kinds: &'a [u32],
    pub args: &'a [u32],
    pub result: Var,
    pub body: usize,
}

impl<'a> Procedure<'a> {
    // The procedure that begins at a place.
    pub fn at(rows: &'a [u32], at: usize) -> Procedure<'a>
        requires { SignatureIn rows.now at }
        ensures { SeenAt rows.now at (sig_of result) result.body }
    {
        let middle = at + 1 + rows[at] as usize;
        let last = middle + 1 + rows[middle] as usize;
        Procedure {
            kinds: &rows[at + 1..middle],
            args: &rows[middle + 1..last],
            result: Var(rows[last]),
            body: last + 1,
        }
    }

    // Whether a variable is there.
    pub(crate) fn has(&self, x: Var) -> bool
        ensures { result ≡ there (sig_of self.now) x.0 }
    {
        (x.0 as usize) < self.kinds.len()
    }

    // A variable's kind; of one that is not there, 0.
    pub fn kind(&self, x: Var) -> Kind
        ensures { result.0 ≡ kind (sig_of self.now) x.0 }
    {
        Kind(self.kinds.get(x.0 as usize).copied().unwrap_or(0))
    }

    // The mark of an argument; of another variable, 0.
    pub(crate) fn mark(&self, x: Var) -> u32
        ensures { result ≡ slice_index (sig_of self.now).args x.0 }
    {
        self.args.get(x.0 as usize).copied().unwrap_or(0)
    }

    pub fn is_lent(&self, x: Var) -> bool
        ensures { result ≡ is_lent (sig_of self.now) x.0 }
    {
        self.mark(x) == LENT
    }
}
