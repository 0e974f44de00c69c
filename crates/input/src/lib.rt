#![tactic(auto)]

ghost use Rattle.std.specs.Prelude.{◌≡◌, ◌==◌, ◌+◌, ◌≤◌, [], replicate, IfOk, Some, vec_len, OnOk};
ghost use Rattle.input.specs.Scan.{is_white_space, grown, past, back, emptied, longer, finished, noted, Begun, Pushed, Taken, Ended, Parsed};

mod exit;

pub use exit::Exit;
use std::alloc::Global;
use std::fmt;
use std::io::Read;
use thiserror::Error;

// How many bytes of a word a message shows.
const SHOWN: usize = 24;

// A place in a text: lines, and the columns of a line, count from 1.
#[derive(Clone, Copy, Debug)]
struct Place {
    line: usize,
    column: usize,
}

impl Place {
    const START: Place = Place { line: 1, column: 1 };

    // The place after a byte that stands here.
    fn past(self, byte: u8) -> Self
        ensures { result ≡ past self byte }
    {
        if byte == b'\n' {
            Place {
                line: self.line.saturating_add(1),
                column: 1,
            }
        } else {
            Place {
                line: self.line,
                column: self.column.saturating_add(1),
            }
        }
    }

    // The place so many bytes before, in the same line.
    fn back(self, bytes: usize) -> Self
        ensures { result ≡ back self bytes }
    {
        Place {
            line: self.line,
            column: self.column.saturating_sub(bytes),
        }
    }
}

impl fmt::Display for Place {
    fn fmt<W: fmt::Write>(&self, f: &mut fmt::Formatter<W>) -> fmt::Result {
        let Place { line, column } = *self;
        write!(f, "line {line}, column {column}")
    }
}

// A word as a message shows it: its first bytes and its length.
// An `ArrayVec` would not be `Copy`, and would not count the bytes that it has no room for.
#[derive(Clone, Copy, Debug, Default)]
struct Word {
    kept: [u8; SHOWN],
    len: usize,
}

impl Word {
    fn is_empty(&self) -> bool
        ensures { result ≡ (self.now.len == 0) }
    {
        self.len == 0
    }

    fn clear(&mut self)
        ensures { self.new ≡ emptied self.old }
    {
        self.len = 0;
    }

    fn push(&mut self, byte: u8)
        ensures { self.new ≡ longer self.old byte }
    {
        if self.len < SHOWN {
            self.kept[self.len] = byte;
        }
        self.len = self.len.saturating_add(1);
    }
}

impl fmt::Display for Word {
    fn fmt<W: fmt::Write>(&self, f: &mut fmt::Formatter<W>) -> fmt::Result {
        for byte in self.kept.iter().take(self.len) {
            f.write_char(printable(*byte))?;
        }
        if self.len > SHOWN {
            f.write_str("..")?;
        }
        Ok(())
    }
}

// A byte as it may be shown in a message.
fn printable(byte: u8) -> char {
    if byte.is_ascii_graphic() {
        char::from(byte)
    } else {
        '?'
    }
}

// A word that is no number below 2^32, and where it begins.
#[derive(Clone, Copy, Debug, Error)]
#[error("{place}: '{word}' is no decimal number below 4294967296")]
pub struct BadWord {
    place: Place,
    word: Word,
}

// The white space of C. `is_ascii_whitespace` leaves out the vertical tab.
fn is_white(byte: u8) -> bool
    ensures { result ≡ is_white_space byte }
{
    matches!(byte, b' ' | b'\t'..=b'\r')
}

// The number that a word is with one byte more, if it is one below 2^32.
fn grow(value: Option<u32>, byte: u8) -> Option<u32>
    ensures { result ≡ grown value byte }
{
    let digit = char::from(byte).to_digit(10)?;
    value?.checked_mul(10)?.checked_add(digit)
}

// Reads text byte by byte: decimal numbers, separated by white space.
#[derive(Drop)]
pub struct Scanner {
    place: Place,
    word: Word,
    value: Option<u32>,
}

impl Scanner {
    // At the beginning of a text.
    pub fn new() -> Self
        ensures { Begun result }
    {
        Scanner {
            place: Place::START,
            word: Word::default(),
            value: Some(0),
        }
    }

    // The number that the text's last word is, if there is one.
    pub fn finish(&self) -> Result<Option<u32>, BadWord>
        ensures { result ≡ finished self.now }
    {
        if self.word.is_empty() {
            return Ok(None);
        }
        let Some(m) = self.value else {
            return Err(BadWord {
                place: self.place.back(self.word.len),
                word: self.word,
            });
        };
        Ok(Some(m))
    }

    // Begins a word, and gives what is known of the one before.
    fn end_word(&mut self) -> Result<Option<u32>, BadWord>
        ensures says { result ≡ finished self.old }
        ensures word { self.new.word ≡ emptied self.old.word }
        ensures value { self.new.value ≡ Some 0 }
        ensures place { self.new.place ≡ self.old.place }
    {
        let says = self.finish();
        self.word.clear();
        self.value = Some(0);
        says
    }

    // Takes one byte more; the number of the word that it ends, if it ends one.
    pub fn push(&mut self, byte: u8) -> Result<Option<u32>, BadWord>
        ensures { Pushed self.old byte result self.new }
    {
        let says = if is_white(byte) {
            self.end_word()
        } else {
            self.word.push(byte);
            self.value = grow(self.value, byte);
            Ok(None)
        };
        self.place = self.place.past(byte);
        says
    }
}

// The numbers of a text that comes in pieces. Once there are more than `most`, the others are looked at and not kept.
#[derive(Drop)]
pub struct Numbers {
    scanner: Scanner,
    found: Vec<u32>,
    most: usize,
    ghost few: { vec_len found ≤ most + 1 },
}

impl Numbers {
    pub fn new(heap: Global, most: usize) -> Self
        ensures found { result.found.items ≡ [] }
        ensures most { result.most ≡ most }
        ensures scanner { Begun result.scanner }
    {
        Numbers {
            scanner: Scanner::new(),
            found: Vec::new(heap),
            most,
        }
    }

    // Keeps a number, if there is one and room for it.
    fn note(&mut self, number: Option<u32>) -> anyhow::Result<()>
        ensures items { OnOk result (self.new.found.items ≡ noted self.old.most self.old.found.items number) }
        ensures most { self.new.most ≡ self.old.most }
        ensures scanner { self.new.scanner ≡ self.old.scanner }
    {
        if let Some(m) = number
            && self.found.len() <= self.most
        {
            self.found.push(m)?;
        }
        Ok(())
    }

    // Takes the next piece of the text, or says which word is no number.
    pub fn take(&mut self, piece: &[u8]) -> anyhow::Result<()>
        ensures taken { OnOk result (Taken self.old.most self.old.scanner self.old.found.items piece.now self.new.scanner self.new.found.items) }
        ensures most { self.new.most ≡ self.old.most }
    {
        for byte in piece {
            let number = self.scanner.push(*byte)?;
            self.note(number)?;
        }
        Ok(())
    }

    // All numbers, at the end of the text.
    pub fn finish(mut self) -> anyhow::Result<Vec<u32>>
        ensures items { IfOk result (λ v. Ended self.most self.scanner self.found.items v.items) }
        ensures few { IfOk result (λ v. vec_len v ≤ self.most + 1) }
    {
        let number = self.scanner.finish()?;
        self.note(number)?;
        Ok(self.found)
    }
}

// The numbers of a text that is there as a whole.
pub fn parse_numbers(heap: Global, text: &[u8], most: usize) -> anyhow::Result<Vec<u32>>
    ensures { IfOk result (λ v. Parsed most text.now v.items) }
{
    let mut found = Numbers::new(heap, most);
    found.take(text)?;
    found.finish()
}

// The numbers of a text, read to its end in pieces of a page.
pub fn read_numbers<R: Read>(heap: Global, input: &mut R, most: usize) -> anyhow::Result<Vec<u32>>
    ensures { IfOk result (λ v. vec_len v ≤ most + 1) }
{
    let mut numbers = Numbers::new(heap, most);
    let mut page = [0u8; 4096];
    // A count, since a reader may give bytes for ever.
    for _ in 0..u64::MAX {
        let n = input.read(&mut page)?;
        if n == 0 {
            break;
        }
        numbers.take(&page[0..n])?;
    }
    numbers.finish()
}
