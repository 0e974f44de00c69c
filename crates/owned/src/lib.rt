#![tactic(auto)]

ghost use Rattle.std.specs.Prelude.{◌≡◌, ◌+◌, ◌*◌, length, nat_le};
ghost use Rattle.owned.specs.Says.{JudgedPost, named};

pub mod cells;
mod checker;
pub mod decode;
pub mod names;
mod passing;
pub mod procs;
mod program;
mod rules;
pub mod varset;

pub use procs::MAX_WORDS;
use program::Program;
use std::fmt;

// What is said of a program: it keeps the rules or not; the rows are none; or there are too few work words to tell. These
// four are the project's interface, so they are no Result.
#[derive(Clone, Copy, Debug, PartialEq, Eq)]
pub enum Judged {
    Keeps,
    Careless,
    NoProgram,
    Few,
}

impl Judged {
    // The words for it.
    pub fn name(self) -> &'static str
        ensures { result.now ≡ named self }
    {
        match self {
            Self::Keeps => "keeps",
            Self::Careless => "careless",
            Self::NoProgram => "no program",
            Self::Few => "few",
        }
    }
}

impl fmt::Display for Judged {
    fn fmt<W: fmt::Write>(&self, f: &mut fmt::Formatter<W>) -> fmt::Result {
        f.write_str(self.name())
    }
}

// Work words with which every program can be judged.
pub const WORK_WORDS: usize = 8192 + 4 * (MAX_WORDS + 1);

// Whether there are enough work words: 8,192, and 4 for each word of the program.
pub fn enough(words: usize, work: usize) -> bool
    ensures { result ≡ nat_le (8192 + 4 * words) work }
{
    work >= 8192 && (work - 8192) / 4 >= words
}

// Whether rows are a program, and whether it keeps the ownership rules.
pub fn judge(program: &[u32], work: &mut [u32]) -> Judged
    ensures { JudgedPost program.now (length work.old) result }
{
    if !enough(program.len(), work.len()) {
        return Judged::Few;
    }
    if program.len() > MAX_WORDS {
        return Judged::NoProgram;
    }
    let Some(program) = Program::read(program, work) else {
        return Judged::NoProgram;
    };
    if program.keeps_rules() {
        Judged::Keeps
    } else {
        Judged::Careless
    }
}
