use crate::tree::{Expression, Statement};
use reference::tree::Operator;
use std::alloc::{AllocError, Global};

pub(crate) fn pair(heap: Global, s: Statement, t: Statement) -> Result<Statement, AllocError> {
    Ok(Statement::Then(Box::new(heap, s)?, Box::new(heap, t)?))
}

pub(crate) fn branch(
    heap: Global,
    test: Expression,
    s: Statement,
    t: Statement,
) -> Result<Statement, AllocError> {
    Ok(Statement::If(test, Box::new(heap, s)?, Box::new(heap, t)?))
}

pub(crate) fn repeated(
    heap: Global,
    test: Expression,
    s: Statement,
) -> Result<Statement, AllocError> {
    Ok(Statement::While(test, Box::new(heap, s)?))
}

// Like `branch` in shape alone: the two make things of two types.
pub(crate) fn reckoned(
    heap: Global,
    operator: Operator,
    a: Expression,
    b: Expression,
) -> Result<Expression, AllocError> {
    Ok(Expression::Reckoned(operator, Box::new(heap, a)?, Box::new(heap, b)?))
}

// Statements one after the other: each is paired with all behind it.
pub(crate) fn in_order(
    heap: Global,
    statements: Vec<Statement>,
    last: Statement,
) -> Result<Statement, AllocError> {
    let mut backward = statements.into_iter().rev();
    backward.try_fold(last, |whole, statement| pair(heap, statement, whole))
}

// Statements one after the other: each is paired with all before it.
pub(crate) fn in_order_leftward(
    heap: Global,
    statements: Vec<Statement>,
    last: Statement,
) -> Result<Statement, AllocError> {
    let mut forward = statements.into_iter();
    let Some(first) = forward.next() else {
        return Ok(last);
    };
    let whole = forward.try_fold(first, |whole, statement| pair(heap, whole, statement))?;
    pair(heap, whole, last)
}
