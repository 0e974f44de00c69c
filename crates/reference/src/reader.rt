use crate::tree::{
    Argument, Call, Expression, Mark, Node, NodeId, Procedure, Program, Signature, Statement,
    Token, Transfer, Var,
};
use crate::words::{Form, Head, UnknownWord};
use std::alloc::{AllocError, AllocFailed, Global};

const MAX_WORDS: usize = 16384;

const MAX_PROCEDURES: u32 = 64;

const MAX_VARIABLES: u32 = 32;

const MAX_ARGUMENTS: u32 = 8;

const MAX_KIND: u32 = 8;

// How many statements and expressions may stand in one another.
pub const MAX_NESTING: u32 = 128;

// Why there is no tree.
#[derive(Clone, Copy, Debug, PartialEq, Eq)]
pub enum Unread {
    NoProgram,
    NoMemory,
}

impl From<AllocError> for Unread {
    fn from(_error: AllocError) -> Unread {
        Unread::NoMemory
    }
}

impl<T: Drop> From<AllocFailed<T>> for Unread {
    fn from(_error: AllocFailed<T>) -> Unread {
        Unread::NoMemory
    }
}

impl From<UnknownWord> for Unread {
    fn from(_error: UnknownWord) -> Unread {
        Unread::NoProgram
    }
}

// The rows, where reading has come, and what was read.
#[derive(Drop)]
struct Reader<'a> {
    rows: &'a [u32],
    at: usize,
    heap: Global,
    program: Program,
}

impl<'a> Reader<'a> {
    fn word(&mut self) -> Result<u32, Unread> {
        let word = self.rows.get(self.at).ok_or(Unread::NoProgram)?;
        self.at = self.at.saturating_add(1);
        Ok(*word)
    }

    // A word that has a limit.
    fn word_to(&mut self, most: u32) -> Result<u32, Unread> {
        let word = self.word()?;
        if word > most {
            return Err(Unread::NoProgram);
        }
        Ok(word)
    }

    fn var(&mut self) -> Result<Var, Unread> {
        Ok(Var(self.word()?))
    }

    fn mark(&mut self) -> Result<Mark, Unread> {
        Ok(Mark::try_from(self.word()?)?)
    }

    fn argument(&mut self) -> Result<Argument, Unread> {
        let var = self.var()?;
        let mark = self.mark()?;
        Ok(Argument { var, mark })
    }

    // So many of what is read in one way.
    fn many<T: Drop, F: Fn(&mut Reader<'a>) -> Result<T, Unread>>(
        &mut self,
        count: u32,
        read: F,
    ) -> Result<Vec<T>, Unread>
        requires { F.IsAlwaysCallable read }
    {
        let mut all = Vec::new(self.heap);
        for _ in 0..count {
            all.push(read(self)?)?;
        }
        Ok(all)
    }

    fn token(&mut self) -> Result<Token, Unread> {
        Ok(match Head::try_from(self.word()?)? {
            Head::Number => Token::Number(self.word()?),
            Head::Variable => Token::Variable(self.var()?),
            Head::Reckoned(operator) => Token::Operator(operator),
        })
    }

    // The tokens of an expression that may nest so deep.
    fn operand(&mut self, depth: u32) -> Result<(), Unread> {
        let inner = depth.checked_sub(1).ok_or(Unread::NoProgram)?;
        let token = self.token()?;
        self.program.tokens.push(token)?;
        if let Token::Operator(_) = token {
            self.operand(inner)?;
            self.operand(inner)?;
        }
        Ok(())
    }

    fn expression(&mut self, depth: u32) -> Result<Expression, Unread> {
        let first = self.program.tokens.len();
        self.operand(depth)?;
        let end = self.program.tokens.len();
        Ok(Expression { first, end })
    }

    fn between(&mut self, what: Transfer) -> Result<Statement, Unread> {
        let x = self.var()?;
        let y = self.var()?;
        Ok(Statement::Between(what, x, y))
    }

    fn call(&mut self) -> Result<Call, Unread> {
        let into = self.var()?;
        let procedure = self.word()?;
        let count = self.word()?;
        let first = self.program.arguments.len();
        for _ in 0..count {
            let argument = self.argument()?;
            self.program.arguments.push(argument)?;
        }
        let end = self.program.arguments.len();
        Ok(Call {
            into,
            procedure,
            first,
            end,
        })
    }

    // A statement that may nest so deep.
    fn node(&mut self, depth: u32) -> Result<NodeId, Unread> {
        let inner = depth.checked_sub(1).ok_or(Unread::NoProgram)?;
        let at = self.at;
        let statement = match Form::try_from(self.word()?)? {
            Form::Skip => Statement::Skip,
            Form::Then => Statement::Then(self.node(inner)?, self.node(inner)?),
            Form::Set => Statement::Set(self.var()?, self.expression(inner)?),
            Form::Box => self.between(Transfer::Box)?,
            Form::Unbox => self.between(Transfer::Unbox)?,
            Form::Look => self.between(Transfer::Look)?,
            Form::Fill => self.between(Transfer::Fill)?,
            Form::Move => self.between(Transfer::Move)?,
            Form::Drop => Statement::Drop(self.var()?),
            Form::If => Statement::If(
                self.expression(inner)?,
                self.node(inner)?,
                self.node(inner)?,
            ),
            Form::While => Statement::While(self.expression(inner)?, self.node(inner)?),
            Form::Call => Statement::Call(self.call()?),
            Form::Show => Statement::Show(self.expression(inner)?),
        };
        let id = NodeId(self.program.nodes.len());
        self.program.nodes.push(Node { at, statement })?;
        Ok(id)
    }

    fn signature(&mut self) -> Result<Signature, Unread> {
        let variables = self.word_to(MAX_VARIABLES)?;
        let kinds = self.many(variables, |reader| reader.word_to(MAX_KIND))?;
        let arguments = self.word_to(MAX_ARGUMENTS.min(variables))?;
        let marks = self.many(arguments, |reader| reader.mark())?;
        let result = self.var()?;
        Ok(Signature {
            kinds,
            marks,
            result,
        })
    }

    fn procedure(&mut self) -> Result<Procedure<NodeId>, Unread> {
        let signature = self.signature()?;
        let body = self.node(MAX_NESTING)?;
        Ok(Procedure { signature, body })
    }
}

// Reads rows, if they are a program.
pub fn read_program(heap: Global, rows: &[u32]) -> Result<Program, Unread> {
    if rows.len() > MAX_WORDS {
        return Err(Unread::NoProgram);
    }
    let mut reader = Reader {
        rows,
        at: 0,
        heap,
        program: Program::new(heap),
    };
    for _ in 0..MAX_PROCEDURES {
        if reader.at >= rows.len() {
            break;
        }
        let procedure = reader.procedure()?;
        reader.program.procedures.push(procedure)?;
    }
    if reader.at < rows.len() {
        return Err(Unread::NoProgram);
    }
    Ok(reader.program)
}
