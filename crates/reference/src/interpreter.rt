use crate::boxes::{Boxes, Fault, Name, Value};
use crate::reader::MAX_NESTING;
use crate::tally::{Event, Tally};
use crate::tree::{
    Argument, Call, Expression, Mark, NodeId, Operator, Program, Signature, Statement, Token,
    Transfer, Var,
};
use std::alloc::{AllocError, AllocFailed, Global};
use std::mem;

// How a run ends. The last is no ending of the language: this program has no memory left.
#[derive(Clone, Copy, Debug, PartialEq, Eq)]
pub enum Stop {
    Done(u32),
    Full,
    Spent,
    Deep,
    Faulted(Fault),
    NoMemory,
}

impl From<AllocError> for Stop {
    fn from(_error: AllocError) -> Stop {
        Stop::NoMemory
    }
}

impl<T: Drop> From<AllocFailed<T>> for Stop {
    fn from(_error: AllocFailed<T>) -> Stop {
        Stop::NoMemory
    }
}

impl From<Fault> for Stop {
    fn from(fault: Fault) -> Stop {
        Stop::Faulted(fault)
    }
}

// What the host allows.
#[derive(Clone, Copy)]
pub struct Limits {
    pub cells: u32,
    pub calls: u32,
    pub turns: u64,
}

// An open procedure: what is still to be done in it, the last first, and where the result of its call goes.
#[derive(Drop)]
pub struct Frame {
    pub procedure: u32,
    pub variables: Vec<Value>,
    pub to_do: Vec<NodeId>,
    pub into: Var,
}

impl Frame {
    // What a variable holds; nothing, if it is not there.
    pub fn get(&self, x: Var) -> Value {
        self.variables
            .get(usize::from(x))
            .copied()
            .unwrap_or(Value::Empty)
    }

    // A variable that is not there stays away, here as in a set of full ones: the two hold different things.
    fn put(&mut self, x: Var, value: Value) {
        if let Some(place) = self.variables.get_mut(usize::from(x)) {
            *place = value;
        }
    }
}

// A run that is under way.
#[derive(Drop)]
pub struct Run<'a> {
    program: &'a Program,
    heap: Global,
    pub running: Frame,
    pub callers: Vec<Frame>,
    pub boxes: Boxes,
    pub limits: Limits,
    pub shown: Vec<u32>,
    pub tally: Tally,
}

impl<'a> Run<'a> {
    // A run at its start. The first procedure is not open yet.
    pub fn new(program: &'a Program, heap: Global, limits: Limits) -> Run<'a> {
        let running = Frame {
            procedure: 0,
            variables: Vec::new(heap),
            to_do: Vec::new(heap),
            into: Var(0),
        };
        Run {
            program,
            heap,
            running,
            callers: Vec::new(heap),
            boxes: Boxes::new(heap),
            limits,
            shown: Vec::new(heap),
            tally: Tally::default(),
        }
    }

    fn signature(&self) -> Option<&'a Signature> {
        let procedure = self
            .program
            .procedures
            .get(self.running.procedure as usize)?;
        Some(&procedure.signature)
    }

    // The kind of a variable of the running procedure; one that is not there counts as a number.
    pub fn kind(&self, x: Var) -> u32 {
        self.signature()
            .and_then(|signature| signature.kind(x))
            .unwrap_or(0)
    }

    fn number(&self, x: Var) -> Result<u32, Fault> {
        u32::try_from(self.running.get(x))
    }

    // Reckons from the last token to the first, so that operands come before their operator.
    fn value(&self, e: Expression) -> Result<u32, Stop> {
        let mut operands = Vec::new(self.heap);
        for token in self.program.tokens_of(e).iter().rev() {
            let number = match token {
                Token::Number(number) => *number,
                Token::Variable(x) => self.number(*x)?,
                Token::Operator(operator) => {
                    let a = operands.pop().unwrap_or(0);
                    let b = operands.pop().unwrap_or(0);
                    reckon(*operator, a, b)
                }
            };
            operands.push(number)?;
        }
        Ok(operands.pop().unwrap_or(0))
    }

    // Takes from a variable: copies a number, moves a box.
    fn take(&mut self, x: Var) -> Result<Value, Fault> {
        if self.kind(x) == 0 {
            return Ok(Value::Number(self.number(x)?));
        }
        let name = Name::try_from(self.running.get(x))?;
        self.running.put(x, Value::Empty);
        Ok(Value::Boxed(name))
    }

    // Puts into a variable, and gives back the box that it held.
    fn put(&mut self, x: Var, value: Value) -> Result<(), Fault> {
        let old = self.running.get(x);
        let kind = self.kind(x);
        if old != Value::Empty && value != Value::Empty && kind > 0 {
            self.tally.meet(Event::GivenBack);
        }
        self.boxes.give_back(kind, old)?;
        self.running.put(x, value);
        Ok(())
    }

    fn make_box(&mut self, x: Var, y: Var) -> Result<(), Stop> {
        let inner = self.take(y)?;
        if self.boxes.count() >= self.limits.cells as usize {
            return Err(Stop::Full);
        }
        let made = self.boxes.make(inner)?;
        let kind = self.kind(x);
        self.tally.count_box(kind);
        self.put(x, made)?;
        Ok(())
    }

    fn unbox(&mut self, x: Var, y: Var) -> Result<(), Fault> {
        let holder = self.running.get(y);
        let inner = self.boxes.free(holder)?;
        self.running.put(y, Value::Empty);
        self.put(x, inner)
    }

    fn look(&mut self, x: Var, y: Var) -> Result<(), Fault> {
        let inner = self.boxes.open(self.running.get(y))?;
        let number = u32::try_from(inner)?;
        self.put(x, Value::Number(number))
    }

    fn fill(&mut self, x: Var, y: Var) -> Result<(), Fault> {
        let value = self.take(y)?;
        let holder = self.running.get(x);
        let old = self.boxes.open(holder)?;
        let kind = self.kind(x);
        self.boxes.give_back(kind.saturating_sub(1), old)?;
        self.boxes.store(holder, value)
    }

    fn transfer(&mut self, what: Transfer, x: Var, y: Var) -> Result<(), Stop> {
        match what {
            Transfer::Box => self.make_box(x, y)?,
            Transfer::Unbox => self.unbox(x, y)?,
            Transfer::Look => self.look(x, y)?,
            Transfer::Fill => self.fill(x, y)?,
            Transfer::Move => {
                let value = self.take(y)?;
                self.put(x, value)?;
            }
        }
        Ok(())
    }

    // A turn of a loop or the beginning of a call.
    fn take_turn(&mut self) -> Result<(), Stop> {
        self.limits.turns = self.limits.turns.checked_sub(1).ok_or(Stop::Spent)?;
        Ok(())
    }

    // Opens a procedure with these arguments: the running one waits for it.
    fn open(&mut self, procedure: u32, arguments: &[Value]) -> Result<Frame, Stop> {
        let opened = self
            .program
            .procedures
            .get(procedure as usize)
            .ok_or(Fault::NoProcedure)?;
        self.take_turn()?;
        let kinds = opened.signature.kinds.iter().enumerate();
        let variables = kinds
            .map(|(x, kind)| arguments.get(x).copied().unwrap_or(Value::blank(*kind)))
            .collect(self.heap)?;
        Ok(Frame {
            procedure,
            variables,
            to_do: vec![in self.heap; opened.body]?,
            into: Var(0),
        })
    }

    // Begins the first procedure.
    pub fn start(&mut self) -> Result<(), Stop> {
        if self.limits.calls == 0 {
            return Err(Stop::Deep);
        }
        self.running = self.open(0, &[])?;
        self.enter()
    }

    fn argument(&mut self, argument: Argument) -> Result<Value, Fault> {
        if self.kind(argument.var) > 0 {
            let event = match argument.mark {
                Mark::Over => Event::BoxHandedOver,
                Mark::Lent if self.is_lent(argument.var) => Event::LentOn,
                Mark::Lent => Event::BoxLent,
            };
            self.tally.meet(event);
        }
        match argument.mark {
            Mark::Over => self.take(argument.var),
            Mark::Lent => Ok(self.running.get(argument.var)),
        }
    }

    fn call(&mut self, call: Call) -> Result<(), Stop> {
        if self.open_calls() >= self.limits.calls as usize {
            return Err(Stop::Deep);
        }
        let mut arguments = Vec::new(self.heap);
        for argument in self.program.arguments_of(call) {
            arguments.push(self.argument(*argument)?)?;
        }
        let called = self.open(call.procedure, arguments.as_slice())?;
        self.running.into = call.into;
        self.enter()?;
        let caller = mem::replace(&mut self.running, called);
        self.callers.push(caller)?;
        if self.is_open(call.procedure) {
            self.tally.meet(Event::Recursion);
        }
        Ok(())
    }

    // Whether a procedure is among the callers.
    fn is_open(&self, procedure: u32) -> bool {
        self.callers
            .iter()
            .any(|frame| frame.procedure == procedure)
    }

    // How many procedures are open.
    pub fn open_calls(&self) -> usize {
        self.callers.len().saturating_add(1)
    }

    // Ends a procedure: gives back its variables but the result and what was lent. Gives the result.
    fn close(&mut self) -> Result<Value, Stop> {
        let signature = self.signature().ok_or(Fault::NoProcedure)?;
        let result = signature.result;
        let value = self.take(result)?;
        for (x, kind) in (0u32..).map(Var).zip(signature.kinds.iter()) {
            if x != result && !signature.is_lent(x) {
                self.boxes.give_back(*kind, self.running.get(x))?;
                self.blank(x);
            }
        }
        Ok(value)
    }

    fn is_lent(&self, x: Var) -> bool {
        self.signature()
            .is_some_and(|signature| signature.is_lent(x))
    }

    // A box variable that was given back is empty.
    fn blank(&mut self, x: Var) {
        if self.kind(x) > 0 {
            self.running.put(x, Value::Empty);
        }
    }

    fn end(&mut self) -> Result<(), Stop> {
        let result = self.close()?;
        match self.callers.pop() {
            Some(caller) => {
                if let Value::Boxed(_) = result {
                    self.tally.meet(Event::BoxResult);
                }
                self.running = caller;
                let into = self.running.into;
                self.put(into, result)?;
                Ok(())
            }
            None => Err(Stop::Done(u32::try_from(result)?)),
        }
    }

    // A turn of a loop, if its test says so. The loop comes again after its body.
    fn repeat(&mut self, whole: NodeId, e: Expression, body: NodeId) -> Result<(), Stop> {
        if self.value(e)? != 0 {
            self.take_turn()?;
            self.running.to_do.push(whole)?;
            self.running.to_do.push(body)?;
        }
        Ok(())
    }

    fn execute(&mut self, id: NodeId) -> Result<(), Stop> {
        let statement = self.program.node(id).statement;
        self.tally.count(statement);
        match statement {
            Statement::Skip | Statement::Then(_, _) => {}
            Statement::Set(x, e) => {
                let number = self.value(e)?;
                self.put(x, Value::Number(number))?;
            }
            Statement::Between(what, x, y) => self.transfer(what, x, y)?,
            Statement::Drop(x) => self.put(x, Value::Empty)?,
            Statement::If(e, s, t) => {
                let part = if self.value(e)? != 0 { s } else { t };
                self.running.to_do.push(part)?;
            }
            Statement::While(e, s) => self.repeat(id, e, s)?,
            Statement::Call(call) => self.call(call)?,
            Statement::Show(e) => {
                let number = self.value(e)?;
                self.shown.push(number)?;
            }
        }
        Ok(())
    }

    // A pair takes no step: it is entered at once, and so are pairs at its beginning.
    fn enter(&mut self) -> Result<(), Stop> {
        let Some(mut id) = self.running.to_do.pop() else {
            return Ok(());
        };
        for _ in 0..MAX_NESTING {
            let statement = self.program.node(id).statement;
            let Statement::Then(s, t) = statement else {
                break;
            };
            self.tally.count(statement);
            self.running.to_do.push(t)?;
            id = s;
        }
        self.running.to_do.push(id)?;
        Ok(())
    }

    // One step: the next statement, or the end of the running procedure.
    pub fn step(&mut self) -> Result<(), Stop> {
        match self.running.to_do.pop() {
            Some(id) => self.execute(id)?,
            None => self.end()?,
        }
        self.enter()
    }

    // Where a procedure goes on in the rows, unless it is at its end.
    pub fn place(&self, frame: &Frame) -> Option<usize> {
        let id = frame.to_do.last()?;
        Some(self.program.node(*id).at)
    }
}

fn reckon(operator: Operator, a: u32, b: u32) -> u32 {
    match operator {
        Operator::Add => a.wrapping_add(b),
        Operator::Subtract => a.wrapping_sub(b),
        Operator::Multiply => a.wrapping_mul(b),
        Operator::Less => u32::from(a < b),
    }
}
