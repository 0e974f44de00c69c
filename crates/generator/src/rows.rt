use crate::tree::{Call, Expression, Statement};
use reference::tree::{Signature, Var};
use reference::words::{Form, Head};
use std::alloc::{AllocError, Global};

// A program's words, as far as they are written.
#[derive(Drop)]
pub struct Rows {
    pub words: Vec<u32>,
}

impl Rows {
    pub(crate) fn new(heap: Global) -> Rows {
        Rows {
            words: Vec::new(heap),
        }
    }

    fn count(&mut self, many: usize) -> Result<(), AllocError> {
        self.words.push(u32::try_from(many).unwrap_or(0))?;
        Ok(())
    }

    fn signature(&mut self, signature: &Signature) -> Result<(), AllocError> {
        self.count(signature.kinds.len())?;
        self.words.extend_from_slice(signature.kinds.as_slice())?;
        self.count(signature.marks.len())?;
        let marks = signature.marks.iter().map(|mark| u32::from(*mark));
        self.words.extend(marks)?;
        self.words.push(signature.result.0)?;
        Ok(())
    }

    fn expression(&mut self, e: &Expression) -> Result<(), AllocError> {
        self.words.push(u32::from(Head::from(e)))?;
        match e {
            Expression::Number(word) | Expression::Variable(Var(word)) => {
                self.words.push(*word)?;
                Ok(())
            }
            Expression::Reckoned(_, a, b) => {
                self.expression(a)?;
                self.expression(b)
            }
        }
    }

    fn call(&mut self, call: &Call) -> Result<(), AllocError> {
        self.words
            .extend_from_slice(&[call.into.0, call.procedure])?;
        self.count(call.arguments.len())?;
        for argument in call.arguments.iter() {
            self.words
                .extend_from_slice(&[argument.var.0, u32::from(argument.mark)])?;
        }
        Ok(())
    }

    fn statement(&mut self, statement: &Statement) -> Result<(), AllocError> {
        self.words.push(u32::from(Form::from(statement)))?;
        match statement {
            Statement::Skip => Ok(()),
            Statement::Then(s, t) => {
                self.statement(s)?;
                self.statement(t)
            }
            Statement::Set(x, e) => {
                self.words.push(x.0)?;
                self.expression(e)
            }
            Statement::Between(_, x, y) => self.words.extend_from_slice(&[x.0, y.0]),
            Statement::Drop(x) => {
                self.words.push(x.0)?;
                Ok(())
            }
            Statement::If(e, s, t) => {
                self.expression(e)?;
                self.statement(s)?;
                self.statement(t)
            }
            Statement::While(e, s) => {
                self.expression(e)?;
                self.statement(s)
            }
            Statement::Call(call) => self.call(call),
            Statement::Show(e) => self.expression(e),
        }
    }

    pub(crate) fn procedure(
        &mut self,
        signature: &Signature,
        body: &Statement,
    ) -> Result<(), AllocError> {
        self.signature(signature)?;
        self.statement(body)
    }
}
