ghost use Rattle.std.specs.Prelude.{◌≡◌, ℕ, Option, ◌+◌, ◌≤◌, length, drop, nat_lt, slice_index, Some};
ghost use Rattle.std.specs.List.{list_all};
ghost use Rattle.owned.specs.declared.decode.Shape.{Shape};
ghost use Rattle.owned.specs.Decode.{head_of_by, node_by, node_shape, head_by, head_shape, many, read_a, read_e, read_s};
ghost use Rattle.owned.specs.Ends.{Ended, FitsAt, IsReadAt};

use crate::names::Var;

#[derive(Clone, Copy)]
pub enum Operator {
    Add,
    Sub,
    Mul,
    Less,
}

// An expression without its operands.
#[derive(Clone, Copy)]
pub enum Expression {
    Number(u32),
    Variable(Var),
    Binary(Operator),
}

// The statements that have a destination and a source, in this order.
#[derive(Clone, Copy)]
pub enum Transfer {
    Box,
    Unbox,
    Look,
    Fill,
    Move,
}

// A statement without the expressions, arguments and statements that follow it. A call has its destination, the
// procedure and how many arguments follow.
#[derive(Clone, Copy)]
pub enum Statement {
    Skip,
    Then,
    Set(Var),
    Between(Transfer, Var, Var),
    Drop(Var),
    If,
    While,
    Call(Var, u32, u32),
    Show,
}

// How many words an expression or a statement has of its own, and how many expressions, arguments and statements follow.
#[derive(Clone, Copy)]
pub struct Shape {
    pub words: usize,
    pub exprs: u32,
    pub args: u32,
    pub subs: u32,
}

impl Shape {
    fn of(words: usize, exprs: u32, args: u32, subs: u32) -> Shape
        ensures { result ≡ record { words = words; exprs = exprs; args = args; subs = subs } }
    {
        Shape {
            words,
            exprs,
            args,
            subs,
        }
    }
}

// What an expression or a statement begins with. It is said by its first four words at most, so this is no conversion of
// one value.
pub trait Head: Copy {
    ghost said_by: { ℕ → ℕ → ℕ → ℕ → Option Self };

    ghost shape_of: { Self → Shape };

    fn from_words(code: u32, x: u32, y: u32, n: u32) -> Option<Self>
        ensures { result ≡ said_by code x y n };

    fn shape(self) -> Shape
        ensures { result ≡ shape_of self };
}

impl Head for Expression {
    ghost said_by = { λ w x y n. node_by w x };

    ghost shape_of = { node_shape };

    fn from_words(code: u32, x: u32, _y: u32, _n: u32) -> Option<Expression>
        ensures { result ≡ node_by code x }
    {
        match code {
            0 => Some(Expression::Number(x)),
            1 => Some(Expression::Variable(Var(x))),
            2 => Some(Expression::Binary(Operator::Add)),
            3 => Some(Expression::Binary(Operator::Sub)),
            4 => Some(Expression::Binary(Operator::Mul)),
            5 => Some(Expression::Binary(Operator::Less)),
            6..=u32::MAX => None,
        }
    }

    fn shape(self) -> Shape
        ensures { result ≡ node_shape self }
    {
        match self {
            Expression::Number(_) | Expression::Variable(_) => Shape::of(2, 0, 0, 0),
            Expression::Binary(_) => Shape::of(1, 2, 0, 0),
        }
    }
}

impl Head for Statement {
    ghost said_by = { head_by };

    ghost shape_of = { head_shape };

    fn from_words(code: u32, x: u32, y: u32, n: u32) -> Option<Statement>
        ensures { result ≡ head_by code x y n }
    {
        match code {
            0 => Some(Statement::Skip),
            1 => Some(Statement::Then),
            2 => Some(Statement::Set(Var(x))),
            3 => Some(Statement::Between(Transfer::Box, Var(x), Var(y))),
            4 => Some(Statement::Between(Transfer::Unbox, Var(x), Var(y))),
            5 => Some(Statement::Between(Transfer::Look, Var(x), Var(y))),
            6 => Some(Statement::Between(Transfer::Fill, Var(x), Var(y))),
            7 => Some(Statement::Between(Transfer::Move, Var(x), Var(y))),
            8 => Some(Statement::Drop(Var(x))),
            9 => Some(Statement::If),
            10 => Some(Statement::While),
            11 => Some(Statement::Call(Var(x), y, n)),
            12 => Some(Statement::Show),
            13..=u32::MAX => None,
        }
    }

    fn shape(self) -> Shape
        ensures { result ≡ head_shape self }
    {
        match self {
            Statement::Skip => Shape::of(1, 0, 0, 0),
            Statement::Then => Shape::of(1, 0, 0, 2),
            Statement::Set(_) => Shape::of(2, 1, 0, 0),
            Statement::Between(_, _, _) => Shape::of(3, 0, 0, 0),
            Statement::Drop(_) => Shape::of(2, 0, 0, 0),
            Statement::If => Shape::of(1, 1, 0, 2),
            Statement::While => Shape::of(1, 1, 0, 1),
            Statement::Call(_, _, n) => Shape::of(4, 0, n, 0),
            Statement::Show => Shape::of(1, 1, 0, 0),
        }
    }
}

// The word at a place, 0 past the end.
pub(crate) fn word(rows: &[u32], at: usize) -> u32
    ensures { result ≡ slice_index rows.now at }
{
    rows.get(at).copied().unwrap_or(0)
}

// The head that begins at a place. Places are numbers, and not slices of what is left, since the rules and the tables go
// back to them.
pub fn head_at<H: Head>(rows: &[u32], at: usize) -> Option<H>
    requires { at ≤ length rows.now }
    ensures { FitsAt H.shape_of (head_of_by H.shape_of H.said_by) rows.now at result }
{
    let head = H::from_words(
        word(rows, at),
        word(rows, at + 1),
        word(rows, at + 2),
        word(rows, at + 3),
    )?;
    if head.shape().words <= rows.len() - at {
        Some(head)
    } else {
        None
    }
}

// The head that stands at a place.
pub fn standing<H: Head>(rows: &[u32], at: usize) -> H
    requires { IsReadAt H.shape_of (head_of_by H.shape_of H.said_by) rows.now at }
    ensures { FitsAt H.shape_of (head_of_by H.shape_of H.said_by) rows.now at (Some result) }
{
    head_at::<H>(rows, at).unwrap()
}

// Where n expressions end that stand one after the other from a place on, each at most so deep. Its loop and that of
// statements are alike, but an expression has expressions alone, and a statement all three.
fn expressions_end(rows: &[u32], at: usize, n: u32, depth: u32) -> Option<usize>
    requires { at ≤ length rows.now }
    ensures { Ended rows.now (many (λ us. read_e depth us) n (drop at rows.now)) result }
{
    let mut end = at;
    for _i in 0..n {
        if depth == 0 {
            return None;
        }
        let shape = head_at::<Expression>(rows, end)?.shape();
        end = expressions_end(rows, end + shape.words, shape.exprs, depth - 1)?;
    }
    Some(end)
}

// Whether arguments of a call have marks: each is a variable, then 0 or 1.
fn are_marked(arguments: &[[u32; 2]]) -> bool
    ensures { result ≡ list_all (λ w. nat_lt (slice_index w 1) 2) arguments.now }
{
    arguments.iter().all(|[_, mark]| *mark < 2)
}

// Where n arguments of a call end.
fn arguments_end(rows: &[u32], at: usize, n: u32) -> Option<usize>
    requires { at ≤ length rows.now }
    ensures { Ended rows.now (many read_a n (drop at rows.now)) result }
{
    let end = at + 2 * n as usize;
    let words = rows.get(at..end)?;
    if are_marked(words.as_chunks::<2>().0) {
        Some(end)
    } else {
        None
    }
}

// Where n statements end that stand one after the other from a place on, each at most so deep.
pub(crate) fn statements_end(rows: &[u32], at: usize, n: u32, depth: u32) -> Option<usize>
    requires { at ≤ length rows.now }
    ensures { Ended rows.now (many (λ us. read_s depth us) n (drop at rows.now)) result }
{
    let mut end = at;
    for _i in 0..n {
        if depth == 0 {
            return None;
        }
        let shape = head_at::<Statement>(rows, end)?.shape();
        let args = expressions_end(rows, end + shape.words, shape.exprs, depth - 1)?;
        let subs = arguments_end(rows, args, shape.args)?;
        end = statements_end(rows, subs, shape.subs, depth - 1)?;
    }
    Some(end)
}
