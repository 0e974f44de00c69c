// What a program consists of while it is made: each thing owns its parts, and the whole is written once as words. In a
// program that was read, things name their parts by places in it, and here there is no such program yet.
use reference::tree::{Argument, Operator, Transfer, Var};
use reference::words::{Form, Head};

#[derive(Drop)]
pub enum Expression {
    Number(u32),
    Variable(Var),
    Reckoned(Operator, Box<Expression>, Box<Expression>),
}

#[derive(Drop)]
pub struct Call {
    pub into: Var,
    pub procedure: u32,
    pub arguments: Vec<Argument>,
}

#[derive(Drop)]
pub enum Statement {
    Skip,
    Then(Box<Statement>, Box<Statement>),
    Set(Var, Expression),
    Between(Transfer, Var, Var),
    Drop(Var),
    If(Expression, Box<Statement>, Box<Statement>),
    While(Expression, Box<Statement>),
    Call(Call),
    Show(Expression),
}

impl From<&Expression> for Head {
    fn from(e: &Expression) -> Head {
        match e {
            Expression::Number(_) => Head::Number,
            Expression::Variable(_) => Head::Variable,
            Expression::Reckoned(operator, _, _) => Head::Reckoned(*operator),
        }
    }
}

impl From<&Statement> for Form {
    fn from(statement: &Statement) -> Form {
        match statement {
            Statement::Skip => Form::Skip,
            Statement::Then(_, _) => Form::Then,
            Statement::Set(_, _) => Form::Set,
            Statement::Between(transfer, _, _) => Form::from(*transfer),
            Statement::Drop(_) => Form::Drop,
            Statement::If(_, _, _) => Form::If,
            Statement::While(_, _) => Form::While,
            Statement::Call(_) => Form::Call,
            Statement::Show(_) => Form::Show,
        }
    }
}
