use crate::build::{pair, reckoned};
use crate::rows::Rows;
use crate::tree::{Call, Expression, Statement};
use reference::tree::{Argument, Mark, Operator, Signature, Var};
use std::alloc::{AllocError, Global};

// What a program may have only so many of, or so deep.
#[derive(Clone, Copy, Debug, PartialEq, Eq)]
enum Limit {
    Pairs,
    Sums,
    Words,
    Procedures,
    Variables,
    Arguments,
    Kind,
}

const LIMITS: [Limit; 7] = [
    Limit::Pairs,
    Limit::Sums,
    Limit::Words,
    Limit::Procedures,
    Limit::Variables,
    Limit::Arguments,
    Limit::Kind,
];

// How many rows there are at each limit, on both sides of it.
const AT_EACH: u32 = 16;

// How many rows there are at limits.
pub const AT_LIMITS: u32 = LIMITS.len() as u32 * AT_EACH;

// A procedure with so many numbers for variables, no arguments, and the first for a result.
fn numbers(heap: Global, many: u32) -> Result<Signature, AllocError> {
    Ok(Signature {
        kinds: vec![in heap; 0; many as usize]?,
        marks: Vec::new(heap),
        result: Var(0),
    })
}

// Pairs in one another.
fn pairs(heap: Global, depth: u32) -> Result<Statement, AllocError> {
    (1..depth).try_fold(Statement::Skip, |whole, _| {
        pair(heap, whole, Statement::Skip)
    })
}

// Sums in one another, in a statement.
fn sums(heap: Global, depth: u32) -> Result<Statement, AllocError> {
    let sum = (2..depth).try_fold(Expression::Number(7), |whole, _| {
        reckoned(heap, Operator::Add, whole, Expression::Number(7))
    })?;
    Ok(Statement::Show(sum))
}

// A call with so many arguments that there are this many words.
fn words(heap: Global, count: u32) -> Result<Statement, AllocError> {
    let is_odd = count % 2 == 1;
    let before = if is_odd { 11 } else { 8 };
    let many = count.saturating_sub(before) / 2;
    let argument = Argument {
        var: Var(0),
        mark: Mark::Over,
    };
    let call = Statement::Call(Call {
        into: Var(0),
        procedure: 0,
        arguments: vec![in heap; argument; many as usize]?,
    });
    if is_odd {
        pair(heap, Statement::Drop(Var(0)), call)
    } else {
        Ok(call)
    }
}

// A procedure with 17 numbers for variables, the last for its result, and so many arguments.
fn with_arguments(heap: Global, many: u32) -> Result<Signature, AllocError> {
    Ok(Signature {
        kinds: vec![in heap; 0; 17]?,
        marks: vec![in heap; Mark::Lent; many as usize]?,
        result: Var(16),
    })
}

// A procedure with a variable of such a kind.
fn with_kind(heap: Global, kind: u32) -> Result<Signature, AllocError> {
    Ok(Signature {
        kinds: vec![in heap; 0, kind]?,
        marks: Vec::new(heap),
        result: Var(0),
    })
}

// Rows near a limit of what is a program.
pub fn rows_at_limit(heap: Global, number: u32) -> Result<Vec<u32>, AllocError> {
    let mut rows = Rows::new(heap);
    let small = numbers(heap, 1)?;
    let step = number % AT_EACH;
    let limit = LIMITS.get((number / AT_EACH) as usize).copied();
    match limit.unwrap_or(Limit::Kind) {
        Limit::Pairs => rows.procedure(&small, &pairs(heap, step.saturating_add(120))?)?,
        Limit::Sums => rows.procedure(&small, &sums(heap, step.saturating_add(120))?)?,
        Limit::Words => rows.procedure(&small, &words(heap, step.saturating_add(16_376))?)?,
        Limit::Procedures => {
            for _ in 0..step.saturating_add(56) {
                rows.procedure(&small, &Statement::Skip)?;
            }
        }
        Limit::Variables => {
            let many = numbers(heap, step.saturating_add(24))?;
            rows.procedure(&many, &Statement::Skip)?;
        }
        Limit::Arguments => {
            rows.procedure(&small, &Statement::Skip)?;
            rows.procedure(&with_arguments(heap, step)?, &Statement::Skip)?;
        }
        Limit::Kind => rows.procedure(&with_kind(heap, step)?, &Statement::Skip)?,
    }
    Ok(rows.words)
}
