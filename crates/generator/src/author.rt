ghost use Rattle.std.specs.Prelude.{◌≤◌, IfOk};

use crate::build::{branch, in_order, in_order_leftward, pair, reckoned, repeated};
use crate::flaw::Flaw;
use crate::plan::{LOOPS, Roles};
use crate::rng::Rng;
use crate::tree::{Expression, Statement};
use reference::full::Full;
use reference::rules::{Rule, Scope};
use reference::tree::{Operator, Transfer, Var};
use std::alloc::{AllocError, Global};

// How often something that fits is looked for at random.
pub const TRIES: u32 = 60;

// Statements before the first branch or loop.
const OPENING: u32 = 4;

// How many places of an expression may have an operator.
const OPERATORS: u32 = 5;

const NO_VARIABLE: Var = Var(u32::MAX);

// Writes the body of a procedure, statement by statement, and knows what is full after each.
#[derive(Drop)]
pub struct Author<'a> {
    pub rng: &'a mut Rng,
    pub heap: Global,
    pub scope: Scope<'a, Roles>,
    pub number: u32,
    pub full: Full,
    // broken once so many statements are written
    pub flaw: &'a mut Flaw,
    pub wait: u32,
}

// Which statement comes next in a block.
#[derive(Clone, Copy, Debug, PartialEq, Eq)]
enum Choice {
    Plain,
    Branch,
    Loop,
}

// The variables that are full in the first and not in the second.
fn only_in(heap: Global, full: &Full, other: &Full) -> Result<Vec<Var>, AllocError> {
    (0u32..32)
        .map(Var)
        .filter(|x| full.has(*x) && !other.has(*x))
        .collect(heap)
}

impl<'a> Author<'a> {
    pub(crate) fn role(&self) -> &'a Roles {
        &self.scope.procedure.body
    }

    pub fn kind(&self, x: Var) -> u32 {
        self.scope.procedure.signature.kind(x).unwrap_or(0)
    }

    pub(crate) fn is_lent(&self, x: Var) -> bool {
        self.scope.procedure.signature.is_lent(x)
    }

    // How many variables the procedure has.
    pub(crate) fn variables(&self) -> usize {
        self.scope.procedure.signature.kinds.len()
    }

    // A variable that statements may name.
    pub fn usable(&mut self) -> Var {
        let usable = self.role().usable.as_slice();
        let chosen = self.rng.place(usable.len()) as usize;
        usable.get(chosen).copied().unwrap_or(NO_VARIABLE)
    }

    // A box variable that statements may name, or none.
    fn usable_box(&mut self) -> Option<Var> {
        (0..TRIES).find_map(|_| {
            let x = self.usable();
            (self.kind(x) > 0 && !self.is_lent(x)).then_some(x)
        })
    }

    // Whether it is time to break the rule in a way that a statement of this form can.
    fn is_due(&self, rule: Rule) -> bool {
        self.wait == 0 && *self.flaw == Flaw::Wanted(rule)
    }

    fn constant(&mut self) -> u32 {
        if self.rng.once_in(12) {
            self.rng.word()
        } else {
            self.rng.below(6)
        }
    }

    // A constant or a number variable.
    fn operand(&mut self) -> Expression {
        let many = self.variables();
        let found = (0..4).find_map(|_| {
            let x = Var(self.rng.place(many));
            (self.kind(x) == 0 && !self.rng.once_in(3)).then_some(x)
        });
        match found {
            Some(x) => Expression::Variable(x),
            None => Expression::Number(self.constant()),
        }
    }

    // An expression, of which so many places may have an operator, the first in rows first. Says how many are left.
    fn expression_within(&mut self, places: u32) -> Result<(Expression, u32), AllocError>
        ensures { IfOk result (λ r. r.1 ≤ places) }
    {
        let Some(left) = places.checked_sub(1) else {
            return Ok((self.operand(), 0));
        };
        if !self.rng.once_in(2) {
            return Ok((self.operand(), left));
        }
        let operator = drawn(self.rng, &Operator::ALL, Operator::Less);
        let (a, left) = self.expression_within(left)?;
        let (b, left) = self.expression_within(left)?;
        Ok((reckoned(self.heap, operator, a, b)?, left))
    }

    pub fn expression(&mut self) -> Result<Expression, AllocError> {
        let (e, _) = self.expression_within(OPERATORS)?;
        Ok(e)
    }

    // Makes a variable full from nothing, by the ladder.
    pub fn make(&mut self, x: Var) -> Result<Statement, AllocError> {
        let kind = self.kind(x);
        let first = Expression::Number(self.constant());
        if kind == 0 {
            return Ok(Statement::Set(x, first));
        }
        let mut rung = self.role().ladder;
        let mut steps = vec![in self.heap; Statement::Set(rung, first)]?;
        for _ in 1..kind {
            let next = Var(rung.0.saturating_add(1));
            steps.push(Statement::Between(Transfer::Box, next, rung))?;
            rung = next;
        }
        self.full.add(x);
        in_order(self.heap, steps, Statement::Between(Transfer::Box, x, rung))
    }

    fn set(&mut self) -> Result<Statement, AllocError> {
        let scope = self.scope;
        let found = (0..TRIES).find_map(|_| {
            let x = self.usable();
            scope.set(x).is_ok().then_some(x)
        });
        match found {
            Some(x) => Ok(Statement::Set(x, self.expression()?)),
            None => Ok(Statement::Skip),
        }
    }

    fn drop_box(&mut self) -> Statement {
        let Some(x) = self.usable_box() else {
            return Statement::Skip;
        };
        self.full.remove(x);
        Statement::Drop(x)
    }

    fn make_some(&mut self) -> Result<Statement, AllocError> {
        match self.usable_box() {
            Some(x) => self.make(x),
            None => Ok(Statement::Skip),
        }
    }

    // A box made, opened, looked into, filled or moved.
    fn transfer(&mut self) -> Result<Statement, AllocError> {
        let what = drawn_transfer(self.rng);
        let found = (0..TRIES).find_map(|_| {
            let x = self.usable();
            let y = self.usable();
            let after = self.scope.transfer(what, self.full, x, y).ok()?;
            Some((x, y, after))
        });
        let Some((x, y, after)) = found else {
            return self.make_some();
        };
        self.full = after;
        Ok(Statement::Between(what, x, y))
    }

    // A statement without branches of its own, or the broken one.
    fn plain(&mut self) -> Result<Statement, AllocError> {
        if self.wait == 0
            && let Flaw::Wanted(rule) = *self.flaw
            && let Some(statement) = self.flawed(rule)?
        {
            *self.flaw = Flaw::Broken(rule);
            return Ok(statement);
        }
        self.wait = self.wait.saturating_sub(1);
        // The arms are the weights of the draw.
        match self.rng.below(24) {
            0 => Ok(Statement::Skip),
            1..=2 => self.set(),
            3..=4 => Ok(Statement::Show(self.expression()?)),
            5 => Ok(self.drop_box()),
            6..=7 => self.make_some(),
            8..=11 => self.call(),
            _ => self.transfer(),
        }
    }

    fn choose(&mut self) -> Choice {
        // The arms are the weights of the draw.
        match self.rng.below(7) {
            0 => Choice::Branch,
            1 => Choice::Loop,
            _ => Choice::Plain,
        }
    }

    // Gives back what is full in the first and not in the second, and ends with a skip.
    fn drops(&self, full: &Full, other: &Full) -> Result<Statement, AllocError> {
        let drops = only_in(self.heap, full, other)?
            .into_iter()
            .map(Statement::Drop)
            .collect(self.heap)?;
        in_order(self.heap, drops, Statement::Skip)
    }

    // A branch, after both parts of which the same variables are full, unless that is the rule to break.
    pub fn join(
        &mut self,
        test: Expression,
        s: Statement,
        after_s: Full,
        t: Statement,
    ) -> Result<Statement, AllocError> {
        let after_t = self.full;
        if self.is_due(Rule::BranchesDiffer) && after_s != after_t {
            self.full.add_all(&after_s);
            *self.flaw = Flaw::Broken(Rule::BranchesDiffer);
            return branch(self.heap, test, s, t);
        }
        let s = pair(self.heap, s, self.drops(&after_s, &after_t)?)?;
        let t = pair(self.heap, t, self.drops(&after_t, &after_s)?)?;
        self.full.keep_only(&after_s);
        branch(self.heap, test, s, t)
    }

    // Makes full what a loop's body has emptied, and gives back what it has filled.
    fn restore(&mut self, before: &Full) -> Result<Statement, AllocError> {
        let after = self.full;
        let mut steps = Vec::new(self.heap);
        for x in only_in(self.heap, before, &after)? {
            steps.push(self.make(x)?)?;
        }
        let drops = self.drops(&after, before)?;
        self.full = *before;
        in_order(self.heap, steps, drops)
    }

    // A loop's body, which leaves full what was so before, unless that is the rule to break.
    fn closed(&mut self, before: Full, body: Statement) -> Result<Statement, AllocError> {
        if self.is_due(Rule::LoopChanges) && before != self.full {
            self.full = before;
            *self.flaw = Flaw::Broken(Rule::LoopChanges);
            return Ok(body);
        }
        let restored = self.restore(&before)?;
        pair(self.heap, body, restored)
    }

    // A loop that counts down, or one that may go on for ever.
    fn repeat(
        &mut self,
        depth: u32,
        before: Full,
        body: Statement,
    ) -> Result<Statement, AllocError> {
        let level = depth.min(LOOPS).saturating_sub(1);
        let counter = Var(self.role().counters.0.saturating_add(level));
        let turns = self.rng.below(5);
        let test = if self.rng.once_in(16) {
            self.expression()?
        } else {
            Expression::Variable(counter)
        };
        let less = reckoned(
            self.heap,
            Operator::Subtract,
            Expression::Variable(counter),
            Expression::Number(1),
        )?;
        let body = self.closed(before, body)?;
        let turn = pair(self.heap, Statement::Set(counter, less), body)?;
        let whole = repeated(self.heap, test, turn)?;
        let start = Statement::Set(counter, Expression::Number(turns));
        pair(self.heap, start, whole)
    }

    // Statements one after the other, with branches and loops that nest at most so deep.
    pub fn block(&mut self, depth: u32) -> Result<Statement, AllocError> {
        let mut statements = Vec::new(self.heap);
        let length = self.rng.below(6).saturating_add(1);
        let leftward = self.rng.once_in(3);
        for _ in 0..length {
            let choice = self.choose();
            let before = self.full;
            let statement = match (choice, depth.checked_sub(1)) {
                (Choice::Branch, Some(inner)) => {
                    let test = self.expression()?;
                    let s = self.block(inner)?;
                    let after_s = self.full;
                    self.full = before;
                    let t = self.block(inner)?;
                    self.join(test, s, after_s, t)?
                }
                (Choice::Loop, Some(inner)) => {
                    let body = self.block(inner)?;
                    self.repeat(depth, before, body)?
                }
                _ => self.plain()?,
            };
            statements.push(statement)?;
        }
        if leftward {
            in_order_leftward(self.heap, statements, Statement::Skip)
        } else {
            in_order(self.heap, statements, Statement::Skip)
        }
    }

    // A few statements that are reached whenever the procedure is.
    fn opening(&mut self) -> Result<Statement, AllocError> {
        let mut statements = vec![in self.heap; self.call_next()?]?;
        for _ in 0..OPENING {
            statements.push(self.plain()?)?;
        }
        in_order(self.heap, statements, Statement::Skip)
    }

    // The last statement: the result is full after it, unless that is the rule to break.
    fn ending(&mut self) -> Result<Statement, AllocError> {
        let result = self.scope.procedure.signature.result;
        if self.full.has(result) {
            return Ok(Statement::Skip);
        }
        if *self.flaw == Flaw::Wanted(Rule::ResultEmpty) {
            *self.flaw = Flaw::Broken(Rule::ResultEmpty);
            return Ok(Statement::Skip);
        }
        self.make(result)
    }

    // A whole body.
    pub fn body(&mut self, depth: u32) -> Result<Statement, AllocError> {
        let opening = self.opening()?;
        let block = self.block(depth)?;
        let ending = self.ending()?;
        let before = pair(self.heap, opening, block)?;
        pair(self.heap, before, ending)
    }
}

// One of these, each as often as the others.
fn drawn<T: Copy>(rng: &mut Rng, all: &[T], last: T) -> T {
    let chosen = rng.place(all.len()) as usize;
    all.get(chosen).copied().unwrap_or(last)
}

pub fn drawn_transfer(rng: &mut Rng) -> Transfer {
    drawn(rng, &Transfer::ALL, Transfer::Move)
}
