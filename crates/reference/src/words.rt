use crate::tree::{Mark, Operator, Statement, Transfer};
use std::fmt;

// A word that stands for nothing of the sort that is read.
#[derive(Clone, Copy, Debug, PartialEq, Eq)]
pub struct UnknownWord(pub u32);

// The forms of statements, in the order of the words that they begin with.
#[derive(Clone, Copy, Debug, PartialEq, Eq, PartialOrd, Ord)]
pub enum Form {
    Skip,
    Then,
    Set,
    Box,
    Unbox,
    Look,
    Fill,
    Move,
    Drop,
    If,
    While,
    Call,
    Show,
}

impl Form {
    pub const ALL: [Form; 13] = [
        Form::Skip,
        Form::Then,
        Form::Set,
        Form::Box,
        Form::Unbox,
        Form::Look,
        Form::Fill,
        Form::Move,
        Form::Drop,
        Form::If,
        Form::While,
        Form::Call,
        Form::Show,
    ];
}

impl From<Transfer> for Form {
    fn from(transfer: Transfer) -> Form {
        match transfer {
            Transfer::Box => Form::Box,
            Transfer::Unbox => Form::Unbox,
            Transfer::Look => Form::Look,
            Transfer::Fill => Form::Fill,
            Transfer::Move => Form::Move,
        }
    }
}

impl From<Statement> for Form {
    fn from(statement: Statement) -> Form {
        match statement {
            Statement::Skip => Form::Skip,
            Statement::Then(_, _) => Form::Then,
            Statement::Set(_, _) => Form::Set,
            Statement::Between(transfer, _, _) => Form::from(transfer),
            Statement::Drop(_) => Form::Drop,
            Statement::If(_, _, _) => Form::If,
            Statement::While(_, _) => Form::While,
            Statement::Call(_) => Form::Call,
            Statement::Show(_) => Form::Show,
        }
    }
}

impl From<Form> for u32 {
    fn from(form: Form) -> u32 {
        form as u32
    }
}

impl TryFrom<u32> for Form {
    type Error = UnknownWord;

    fn try_from(word: u32) -> Result<Form, UnknownWord> {
        Form::ALL
            .get(word as usize)
            .copied()
            .ok_or(UnknownWord(word))
    }
}

impl fmt::Display for Form {
    fn fmt<W: fmt::Write>(&self, f: &mut fmt::Formatter<W>) -> fmt::Result {
        f.write_str(match self {
            Form::Skip => "skip",
            Form::Then => "s; t",
            Form::Set => "set",
            Form::Box => "box",
            Form::Unbox => "unbox",
            Form::Look => "look",
            Form::Fill => "fill",
            Form::Move => "move",
            Form::Drop => "drop",
            Form::If => "if",
            Form::While => "while",
            Form::Call => "call",
            Form::Show => "show",
        })
    }
}

impl From<Mark> for u32 {
    fn from(mark: Mark) -> u32 {
        mark as u32
    }
}

impl TryFrom<u32> for Mark {
    type Error = UnknownWord;

    fn try_from(word: u32) -> Result<Mark, UnknownWord> {
        Mark::ALL
            .get(word as usize)
            .copied()
            .ok_or(UnknownWord(word))
    }
}

// What an expression begins with.
#[derive(Clone, Copy, Debug, PartialEq, Eq)]
pub enum Head {
    Number,
    Variable,
    Reckoned(Operator),
}

// The word for the first operator.
const FIRST_OPERATOR: u32 = 2;

impl Head {
    // In the order of their words.
    pub(crate) const ALL: [Head; 6] = [
        Head::Number,
        Head::Variable,
        Head::Reckoned(Operator::Add),
        Head::Reckoned(Operator::Subtract),
        Head::Reckoned(Operator::Multiply),
        Head::Reckoned(Operator::Less),
    ];
}

impl From<Head> for u32 {
    fn from(head: Head) -> u32 {
        match head {
            Head::Number => 0,
            Head::Variable => 1,
            Head::Reckoned(operator) => FIRST_OPERATOR + operator as u32,
        }
    }
}

impl TryFrom<u32> for Head {
    type Error = UnknownWord;

    fn try_from(word: u32) -> Result<Head, UnknownWord> {
        Head::ALL
            .get(word as usize)
            .copied()
            .ok_or(UnknownWord(word))
    }
}
