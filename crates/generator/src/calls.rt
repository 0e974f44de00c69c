use crate::author::{Author, TRIES};
use crate::build::{in_order, reckoned};
use crate::plan::Roles;
use crate::tree::{Call, Expression, Statement};
use reference::tree::{Argument, Mark, Operator, Procedure, Var};
use std::alloc::AllocError;

impl<'a> Author<'a> {
    // Whether a variable can be made to pass for an argument behind these others.
    fn fits(&self, argument: Argument, kind: u32, others: &[Argument]) -> bool {
        let free = argument.mark == Mark::Lent || !self.is_lent(argument.var);
        let alone = !others.iter().any(|other| other.var == argument.var);
        self.kind(argument.var) == kind && (kind == 0 || free && alone)
    }

    // A variable that statements may name. What is lent is often lent on.
    fn lendable(&mut self, mark: Mark) -> Var {
        let own = self.scope.procedure.signature.marks.len();
        if mark == Mark::Lent && own > 0 && self.rng.once_in(2) {
            return Var(self.rng.place(own));
        }
        self.usable()
    }

    // A variable to pass for an argument.
    fn argument(&mut self, mark: Mark, kind: u32, others: &[Argument]) -> Option<Argument> {
        (0..TRIES).find_map(|_| {
            let var = self.lendable(mark);
            let argument = Argument { var, mark };
            self.fits(argument, kind, others).then_some(argument)
        })
    }

    // The fuel for a call: the procedure's own, if it has any, and one less for a call that may come back.
    fn fuel(&mut self, f: u32) -> Result<Expression, AllocError> {
        match self.role().fuel {
            Some(own) if f > self.number => Ok(Expression::Variable(own)),
            Some(own) => reckoned(
                self.heap,
                Operator::Subtract,
                Expression::Variable(own),
                Expression::Number(1),
            ),
            None => Ok(Expression::Number(self.rng.below(4))),
        }
    }

    // Chooses arguments, and makes full what is empty before the call. Fewer come back where one was not found.
    fn arguments(
        &mut self,
        f: u32,
        called: &Procedure<Roles>,
        before: &mut Vec<Statement>,
    ) -> Result<Vec<Argument>, AllocError> {
        let ladder = self.role().ladder;
        let fueled = called.body.fuel.is_some();
        let signature = &called.signature;
        let mut chosen = Vec::new(self.heap);
        for (i, (mark, kind)) in signature
            .marks
            .iter()
            .zip(signature.kinds.iter())
            .enumerate()
        {
            if fueled && i == 0 {
                chosen.push(Argument {
                    var: ladder,
                    mark: *mark,
                })?;
            } else if let Some(argument) = self.argument(*mark, *kind, chosen.as_slice()) {
                if !self.full.has(argument.var) {
                    before.push(self.make(argument.var)?)?;
                }
                chosen.push(argument)?;
            }
        }
        if fueled {
            before.push(Statement::Set(ladder, self.fuel(f)?))?;
        }
        Ok(chosen)
    }

    // A call, with what it needs before it.
    fn call_of(&mut self, f: u32) -> Result<Statement, AllocError> {
        let Some(called) = self.scope.procedures.get(f as usize) else {
            return Ok(Statement::Skip);
        };
        let mut before = Vec::new(self.heap);
        let arguments = self.arguments(f, called, &mut before)?;
        let found = (0..TRIES).find_map(|_| {
            let x = self.usable();
            let after = self.scope.call(self.full, x, f, arguments.as_slice());
            Some((x, after.ok()?))
        });
        let Some((into, after)) = found else {
            return in_order(self.heap, before, Statement::Skip);
        };
        self.full = after;
        let call = Call {
            into,
            procedure: f,
            arguments,
        };
        in_order(self.heap, before, Statement::Call(call))
    }

    // A procedure to call: a later one, unless fuel keeps calls from going round for ever.
    fn callee(&mut self) -> u32 {
        let count = u32::try_from(self.scope.procedures.len()).unwrap_or(0);
        let next = self.number.saturating_add(1);
        if next < count && (self.role().fuel.is_none() || self.rng.once_in(2)) {
            return self
                .rng
                .below(count.saturating_sub(next))
                .saturating_add(next);
        }
        self.rng.below(count)
    }

    // A call of the next procedure, so that it is reached; a skip where there is none.
    pub fn call_next(&mut self) -> Result<Statement, AllocError> {
        self.call_of(self.number.saturating_add(1))
    }

    // A call. One that may come back to this procedure is mostly made only while there is fuel.
    pub fn call(&mut self) -> Result<Statement, AllocError> {
        let f = self.callee();
        if f > self.number || self.rng.once_in(20) {
            return self.call_of(f);
        }
        let Some(fuel) = self.role().fuel else {
            return Ok(Statement::Skip);
        };
        let before = self.full;
        let call = self.call_of(f)?;
        let after = self.full;
        self.full = before;
        self.join(Expression::Variable(fuel), call, after, Statement::Skip)
    }
}
