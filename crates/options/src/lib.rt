#![tactic(auto)]

ghost use Rattle.std.specs.Prelude.{◌≡◌, false, is_some, Some, None, fold};
ghost use Rattle.options.specs.Parse.{grown, decimal as decimal_of, most as most_of, word as word_of, given as given_to, defaults, valued, named, taken, ended};

use std::fmt;
use thiserror::Error;

// The most that may be asked for.
pub const MAX_CELLS: u32 = 50_000;

pub const MAX_DEPTH: u32 = 1_250;

pub const MAX_TURNS: u64 = 1_000_000_000_000_000_000;

// How far a run may go: its cells, the calls that may be open at once, its turns.
#[derive(Clone, Copy, Debug, PartialEq, Eq)]
pub struct Options {
    pub cells: u32,
    pub depth: u32,
    pub turns: u64,
}

// How far a run may go if nothing is said.
impl Default for Options {
    ghost is_default = { λ o. o ≡ defaults };

    fn default() -> Self {
        Options {
            cells: 1_000,
            depth: 1_000,
            turns: 1_000_000_000,
        }
    }
}

// What is asked for: how the program is used, or a run.
#[derive(Clone, Copy, Debug, PartialEq, Eq)]
pub enum Request {
    Usage,
    Run(Options),
}

// A limit that an option sets.
#[derive(Clone, Copy, Debug, PartialEq, Eq)]
pub enum Limit {
    Cells,
    Depth,
    Turns,
}

// What is wrong with a word.
#[derive(Clone, Copy, Debug, PartialEq, Eq, Error)]
pub enum Slip {
    #[error("unknown option")]
    Unknown,
    #[error("extra word, since rows are read from standard input")]
    Extra,
    #[error("{0} has no value")]
    Missing(Limit),
    #[error("the value of {0} is no decimal number")]
    NoNumber(Limit),
    #[error("the value of {0} is more than {most}", most = .0.most())]
    TooLarge(Limit),
    #[error("{0} is given twice")]
    Twice(Limit),
}

// What a word is where an option may stand.
#[derive(Clone, Copy)]
enum Word {
    Sets(Limit),
    Help,
    Dashed,
    Other,
}

impl Limit {
    // The most that the option may ask for.
    fn most(self) -> u64
        ensures { result ≡ most_of self }
    {
        match self {
            Limit::Cells => u64::from(MAX_CELLS),
            Limit::Depth => u64::from(MAX_DEPTH),
            Limit::Turns => MAX_TURNS,
        }
    }
}

impl fmt::Display for Limit {
    fn fmt<W: fmt::Write>(&self, f: &mut fmt::Formatter<W>) -> fmt::Result {
        f.write_str(match *self {
            Limit::Cells => "--cells",
            Limit::Depth => "--depth",
            Limit::Turns => "--turns",
        })
    }
}

impl<'a> From<&'a str> for Word {
    ghost from_gives = { λ text w. w ≡ word_of text.now };

    fn from(text: &'a str) -> Self {
        match text {
            "--cells" => Word::Sets(Limit::Cells),
            "--depth" => Word::Sets(Limit::Depth),
            "--turns" => Word::Sets(Limit::Turns),
            "--help" => Word::Help,
            _ if text.starts_with("-") => Word::Dashed,
            _ => Word::Other,
        }
    }
}

// A number with one digit more, as far as 64 bits count.
// It saturates, so that a number that is too large is told from a word that is none.
fn grow(value: Option<u64>, byte: u8) -> Option<u64>
    ensures { result ≡ grown value byte }
{
    let digit = char::from(byte).to_digit(10)?;
    Some(value?.saturating_mul(10).saturating_add(u64::from(digit)))
}

// The number that a word is: one digit at least, and nothing but digits.
// `parse` would take a sign, and refuse a number that is too large as it refuses a word.
fn decimal(text: &[u8]) -> Option<u64>
    ensures { result ≡ decimal_of text.now }
{
    if text.is_empty() {
        return None;
    }
    text.iter().fold(Some(0), |value, byte| grow(value, *byte))
}

// Takes words one by one. An option whose value is still to come is pending.
#[derive(Clone, Copy, Default)]
pub struct Parser {
    cells: Option<u32>,
    depth: Option<u32>,
    turns: Option<u64>,
    pending: Option<Limit>,
    help: bool,
}

impl Parser {
    pub fn new() -> Self
        ensures cells { result.cells ≡ None }
        ensures depth { result.depth ≡ None }
        ensures turns { result.turns ≡ None }
        ensures pending { result.pending ≡ None }
        ensures help { result.help ≡ false }
    {
        Parser::default()
    }

    // Whether an option was given before.
    fn has(self, limit: Limit) -> bool
        ensures { result ≡ is_some (given_to self limit) }
    {
        match limit {
            Limit::Cells => self.cells.is_some(),
            Limit::Depth => self.depth.is_some(),
            Limit::Turns => self.turns.is_some(),
        }
    }

    // Takes the value of an option.
    fn value(self, limit: Limit, number: Option<u64>) -> Result<Parser, Slip>
        ensures { result ≡ valued self limit number }
    {
        let n = number.ok_or(Slip::NoNumber(limit))?;
        if n > limit.most() {
            return Err(Slip::TooLarge(limit));
        }
        let mut next = Parser {
            pending: None,
            ..self
        };
        match limit {
            Limit::Cells => next.cells = Some(n as u32),
            Limit::Depth => next.depth = Some(n as u32),
            Limit::Turns => next.turns = Some(n),
        }
        Ok(next)
    }

    // Takes a word where an option may stand.
    fn option(self, word: Word) -> Result<Parser, Slip>
        ensures { result ≡ named self word }
    {
        match word {
            Word::Sets(limit) if self.has(limit) => Err(Slip::Twice(limit)),
            Word::Sets(limit) => Ok(Parser {
                pending: Some(limit),
                ..self
            }),
            Word::Help => Ok(Parser { help: true, ..self }),
            Word::Dashed => Err(Slip::Unknown),
            Word::Other => Err(Slip::Extra),
        }
    }

    // Takes one word more.
    pub fn take(self, text: &str) -> Result<Parser, Slip>
        ensures { result ≡ taken self text.now }
    {
        match self.pending {
            Some(limit) => self.value(limit, decimal(text.as_bytes())),
            None => self.option(Word::from(text)),
        }
    }

    // What all words together ask for.
    pub fn finish(self) -> Result<Request, Slip>
        ensures { result ≡ ended self }
    {
        if let Some(limit) = self.pending {
            return Err(Slip::Missing(limit));
        }
        if self.help {
            return Ok(Request::Usage);
        }
        let default = Options::default();
        Ok(Request::Run(Options {
            cells: self.cells.unwrap_or(default.cells),
            depth: self.depth.unwrap_or(default.depth),
            turns: self.turns.unwrap_or(default.turns),
        }))
    }
}
