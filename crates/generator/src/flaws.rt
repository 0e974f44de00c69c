use crate::author::{Author, drawn_transfer};
use crate::tree::{Call, Expression, Statement};
use reference::rules::Rule;
use reference::tree::{Argument, Mark, Signature, Token, Var};
use std::alloc::AllocError;

// How many statements are tried until one breaks the rule.
const CANDIDATES: u32 = 300;

// A statement, and the rule that it breaks.
#[derive(Drop)]
struct Candidate {
    statement: Statement,
    breaks: Option<Rule>,
}

impl<'a> Author<'a> {
    // Any variable, now and then one that is not there.
    fn any(&mut self) -> Var {
        let many = self.variables().saturating_add(1);
        Var(self.rng.place(many))
    }

    // Mostly a variable of a kind.
    fn any_of(&mut self, kind: u32) -> Var {
        let found = (0..40).find_map(|_| {
            let x = self.any();
            (self.scope.procedure.signature.kind(x) == Some(kind)).then_some(x)
        });
        match found {
            Some(x) => x,
            None => self.any(),
        }
    }

    fn candidate_set(&mut self) -> Candidate {
        let x = self.any();
        let y = self.any();
        let token = Token::Variable(y);
        let scope = self.scope;
        Candidate {
            breaks: scope.set(x).and_then(|()| scope.reckon(&[token])).err(),
            statement: Statement::Set(x, Expression::Variable(y)),
        }
    }

    fn candidate_show(&mut self) -> Candidate {
        let y = self.any();
        let scope = self.scope;
        Candidate {
            breaks: scope.reckon(&[Token::Variable(y)]).err(),
            statement: Statement::Show(Expression::Variable(y)),
        }
    }

    fn candidate_drop(&mut self) -> Candidate {
        let x = self.any();
        Candidate {
            breaks: self.scope.drop_box(self.full, x).err(),
            statement: Statement::Drop(x),
        }
    }

    fn candidate_transfer(&mut self) -> Candidate {
        let what = drawn_transfer(self.rng);
        let x = self.any();
        let y = if self.rng.once_in(6) { x } else { self.any() };
        Candidate {
            breaks: self.scope.transfer(what, self.full, x, y).err(),
            statement: Statement::Between(what, x, y),
        }
    }

    // An argument that mostly fits.
    fn careless_argument(&mut self, kind: u32, mark: Mark) -> Argument {
        let var = if self.rng.once_in(10) {
            self.any()
        } else {
            self.any_of(kind)
        };
        let other = match mark {
            Mark::Over => Mark::Lent,
            Mark::Lent => Mark::Over,
        };
        let mark = if self.rng.once_in(10) { other } else { mark };
        Argument { var, mark }
    }

    fn careless_arguments(&mut self, called: &Signature) -> Result<Vec<Argument>, AllocError> {
        let mut arguments = Vec::new(self.heap);
        for (mark, kind) in called.marks.iter().zip(called.kinds.iter()) {
            arguments.push(self.careless_argument(*kind, *mark))?;
        }
        if self.rng.once_in(10) {
            arguments.push(Argument {
                var: self.any(),
                mark: Mark::Over,
            })?;
        }
        if self.rng.once_in(10) {
            arguments.pop();
        }
        Ok(arguments)
    }

    // Where the result goes: over an argument, into a variable of its kind, or anywhere.
    fn careless_target(&mut self, arguments: &[Argument], called: &Signature) -> Var {
        if self.rng.once_in(4)
            && let Some(argument) = arguments.first()
        {
            return argument.var;
        }
        if self.rng.once_in(4) {
            return self.any();
        }
        self.any_of(called.kind(called.result).unwrap_or(0))
    }

    // A call of a procedure, now and then of one that is not there.
    fn candidate_call(&mut self) -> Result<Candidate, AllocError> {
        let many = self.scope.procedures.len().saturating_add(1);
        let procedure = self.rng.place(many);
        let (into, arguments) = match self.scope.procedures.get(procedure as usize) {
            Some(called) => {
                let arguments = self.careless_arguments(&called.signature)?;
                let into = self.careless_target(arguments.as_slice(), &called.signature);
                (into, arguments)
            }
            None => (self.any_of(0), Vec::new(self.heap)),
        };
        let scope = self.scope;
        let after = scope.call(self.full, into, procedure, arguments.as_slice());
        let call = Call {
            into,
            procedure,
            arguments,
        };
        Ok(Candidate {
            breaks: after.err(),
            statement: Statement::Call(call),
        })
    }

    // A statement that breaks a rule here, if one was found.
    pub fn flawed(&mut self, rule: Rule) -> Result<Option<Statement>, AllocError> {
        for _ in 0..CANDIDATES {
            // The arms are the weights of the draw.
            let candidate = match self.rng.below(8) {
                0 => self.candidate_set(),
                1 => self.candidate_show(),
                2 => self.candidate_drop(),
                3..=4 => self.candidate_call()?,
                _ => self.candidate_transfer(),
            };
            let Candidate { statement, breaks } = candidate;
            if breaks == Some(rule) {
                return Ok(Some(statement));
            }
        }
        Ok(None)
    }
}
