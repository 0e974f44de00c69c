use crate::full::Full;
use crate::reader::MAX_NESTING;
use crate::tree::{
    Argument, Mark, NodeId, Procedure, Program, Signature, Statement, Token, Transfer, Var,
};
use std::fmt;

// What a careless program does that the rules forbid.
#[derive(Clone, Copy, Debug, PartialEq, Eq)]
pub enum Rule {
    NoVariable,
    SetsBox,
    PutsIntoLent,
    ReckonsWithBox,
    TakesFromEmpty,
    TakesFromLent,
    NamesOneTwice,
    MixesKinds,
    LooksIntoEmpty,
    FillsEmpty,
    DropsNumber,
    BranchesDiffer,
    LoopChanges,
    NoProcedure,
    ArgumentCount,
    ArgumentMark,
    ArgumentKind,
    ArgumentEmpty,
    ArgumentTwice,
    ResultKind,
    ResultIntoLoan,
    ResultEmpty,
    ResultIsArgument,
    FirstHasArguments,
    FirstGivesBox,
    NoFirst,
}

impl Rule {
    // Every rule, in the order of the page on the language.
    pub const ALL: [Rule; 26] = [
        Rule::NoVariable,
        Rule::SetsBox,
        Rule::PutsIntoLent,
        Rule::ReckonsWithBox,
        Rule::TakesFromEmpty,
        Rule::TakesFromLent,
        Rule::NamesOneTwice,
        Rule::MixesKinds,
        Rule::LooksIntoEmpty,
        Rule::FillsEmpty,
        Rule::DropsNumber,
        Rule::BranchesDiffer,
        Rule::LoopChanges,
        Rule::NoProcedure,
        Rule::ArgumentCount,
        Rule::ArgumentMark,
        Rule::ArgumentKind,
        Rule::ArgumentEmpty,
        Rule::ArgumentTwice,
        Rule::ResultKind,
        Rule::ResultIntoLoan,
        Rule::ResultEmpty,
        Rule::ResultIsArgument,
        Rule::FirstHasArguments,
        Rule::FirstGivesBox,
        Rule::NoFirst,
    ];
}

impl fmt::Display for Rule {
    fn fmt<W: fmt::Write>(&self, f: &mut fmt::Formatter<W>) -> fmt::Result {
        f.write_str(match self {
            Rule::NoVariable => "a variable is not there",
            Rule::SetsBox => "sets a box variable",
            Rule::PutsIntoLent => "puts into a lent argument",
            Rule::ReckonsWithBox => "reckons with a box",
            Rule::TakesFromEmpty => "takes from an empty variable",
            Rule::TakesFromLent => "takes from a lent argument",
            Rule::NamesOneTwice => "names one variable twice",
            Rule::MixesKinds => "mixes kinds",
            Rule::LooksIntoEmpty => "looks into an empty variable",
            Rule::FillsEmpty => "fills an empty variable",
            Rule::DropsNumber => "drops a number",
            Rule::BranchesDiffer => "branches leave other variables full",
            Rule::LoopChanges => "a loop changes what is full",
            Rule::NoProcedure => "a procedure is not there",
            Rule::ArgumentCount => "too few or too many arguments",
            Rule::ArgumentMark => "lends what is handed over or so",
            Rule::ArgumentKind => "an argument of another kind",
            Rule::ArgumentEmpty => "an empty argument",
            Rule::ArgumentTwice => "a box twice among arguments",
            Rule::ResultKind => "a result of another kind",
            Rule::ResultIntoLoan => "a result into what is lent",
            Rule::ResultEmpty => "an empty result",
            Rule::ResultIsArgument => "a result that is an argument",
            Rule::FirstHasArguments => "the first has arguments",
            Rule::FirstGivesBox => "the first gives a box",
            Rule::NoFirst => "no procedures",
        })
    }
}

// The rules at a place of a procedure. Full variables come in and go out by value.
#[derive_where(Clone, Copy)]
pub struct Scope<'a, B> {
    pub procedures: &'a [Procedure<B>],
    pub procedure: &'a Procedure<B>,
}

impl<'a, B> Scope<'a, B> {
    fn signature(&self) -> &Signature {
        &self.procedure.signature
    }

    fn kind(&self, x: Var) -> Result<u32, Rule> {
        self.signature().kind(x).ok_or(Rule::NoVariable)
    }

    // The kind of a variable that can give.
    fn giver(&self, full: &Full, y: Var) -> Result<u32, Rule> {
        let kind = self.kind(y)?;
        if kind == 0 {
            return Ok(0);
        }
        if self.signature().is_lent(y) {
            return Err(Rule::TakesFromLent);
        }
        if !full.has(y) {
            return Err(Rule::TakesFromEmpty);
        }
        Ok(kind)
    }

    // The kind of a variable that can take.
    fn taker(&self, x: Var) -> Result<u32, Rule> {
        let kind = self.kind(x)?;
        if self.signature().is_lent(x) {
            return Err(Rule::PutsIntoLent);
        }
        Ok(kind)
    }

    // An expression is over number variables.
    pub fn reckon(&self, tokens: &[Token]) -> Result<(), Rule> {
        for token in tokens {
            if let Token::Variable(x) = token
                && self.kind(*x)? > 0
            {
                return Err(Rule::ReckonsWithBox);
            }
        }
        Ok(())
    }

    pub fn set(&self, x: Var) -> Result<(), Rule> {
        if self.taker(x)? > 0 {
            return Err(Rule::SetsBox);
        }
        Ok(())
    }

    pub fn drop_box(&self, full: Full, x: Var) -> Result<Full, Rule> {
        if self.taker(x)? == 0 {
            return Err(Rule::DropsNumber);
        }
        let mut after = full;
        after.remove(x);
        Ok(after)
    }

    fn look(&self, full: Full, x: Var, y: Var) -> Result<Full, Rule> {
        let into = self.taker(x)?;
        let from = self.kind(y)?;
        if into != 0 || from != 1 {
            return Err(Rule::MixesKinds);
        }
        if !full.has(y) {
            return Err(Rule::LooksIntoEmpty);
        }
        Ok(full)
    }

    fn fill(&self, full: Full, x: Var, y: Var) -> Result<Full, Rule> {
        let into = self.kind(x)?;
        let from = self.giver(&full, y)?;
        if into != from.saturating_add(1) {
            return Err(Rule::MixesKinds);
        }
        if !full.has(x) {
            return Err(Rule::FillsEmpty);
        }
        Ok(taken(full, y, from))
    }

    // A box is made, opened or moved.
    fn pass(&self, what: Transfer, full: Full, x: Var, y: Var) -> Result<Full, Rule> {
        let into = self.taker(x)?;
        let from = self.giver(&full, y)?;
        if x == y {
            return Err(Rule::NamesOneTwice);
        }
        let fits = match what {
            Transfer::Box => into == from.saturating_add(1),
            Transfer::Unbox => from == into.saturating_add(1),
            _ => into == from,
        };
        if !fits {
            return Err(Rule::MixesKinds);
        }
        let mut after = taken(full, y, from);
        after.add(x);
        Ok(after)
    }

    pub fn transfer(&self, what: Transfer, full: Full, x: Var, y: Var) -> Result<Full, Rule> {
        match what {
            Transfer::Look => self.look(full, x, y),
            Transfer::Fill => self.fill(full, x, y),
            _ => self.pass(what, full, x, y),
        }
    }

    // An argument that the called procedure marks so and gives this kind.
    fn argument(
        &self,
        full: Full,
        a: Argument,
        mark: Mark,
        kind: Option<u32>,
    ) -> Result<Full, Rule> {
        let given = self.kind(a.var)?;
        if a.mark != mark {
            return Err(Rule::ArgumentMark);
        }
        if kind != Some(given) {
            return Err(Rule::ArgumentKind);
        }
        if !full.has(a.var) {
            return Err(Rule::ArgumentEmpty);
        }
        if mark == Mark::Lent {
            return Ok(full);
        }
        let from = self.giver(&full, a.var)?;
        Ok(taken(full, a.var, from))
    }

    // No box stands twice among the arguments.
    fn once_each(&self, arguments: &[Argument]) -> Result<(), Rule> {
        for (i, a) in arguments.iter().enumerate() {
            let mut before = arguments.iter().take(i);
            if before.any(|b| b.var == a.var) && self.kind(a.var)? > 0 {
                return Err(Rule::ArgumentTwice);
            }
        }
        Ok(())
    }

    // The result goes into a variable of its kind that is no box lent in this call.
    fn result_into(&self, x: Var, arguments: &[Argument], kind: Option<u32>) -> Result<(), Rule> {
        let into = self.taker(x)?;
        if kind != Some(into) {
            return Err(Rule::ResultKind);
        }
        let lent = Argument {
            var: x,
            mark: Mark::Lent,
        };
        if into > 0 && arguments.contains(&lent) {
            return Err(Rule::ResultIntoLoan);
        }
        Ok(())
    }

    pub fn call(&self, full: Full, x: Var, f: u32, arguments: &[Argument]) -> Result<Full, Rule> {
        let procedure = self.procedures.get(f as usize);
        let called = &procedure.ok_or(Rule::NoProcedure)?.signature;
        if arguments.len() != called.marks.len() {
            return Err(Rule::ArgumentCount);
        }
        self.once_each(arguments)?;
        let mut given = (0u32..)
            .map(Var)
            .zip(arguments.iter().zip(called.marks.iter()));
        let mut after = given.try_fold(full, |after, (x, (a, mark))| {
            self.argument(after, *a, *mark, called.kind(x))
        })?;
        self.result_into(x, arguments, called.kind(called.result))?;
        after.add(x);
        Ok(after)
    }

    // At its end the result is full, a variable that is there and no argument.
    pub fn end(&self, full: &Full) -> Result<(), Rule> {
        let result = self.signature().result;
        self.kind(result)?;
        if self.signature().is_argument(result) {
            return Err(Rule::ResultIsArgument);
        }
        if !full.has(result) {
            return Err(Rule::ResultEmpty);
        }
        Ok(())
    }

    // What is full after a statement that nests so deep at most.
    fn node(&self, program: &Program, id: NodeId, full: Full, depth: u32) -> Result<Full, Rule> {
        let Some(inner) = depth.checked_sub(1) else {
            return Ok(full);
        };
        match program.node(id).statement {
            Statement::Skip => Ok(full),
            Statement::Then(s, t) => {
                let between = self.node(program, s, full, inner)?;
                self.node(program, t, between, inner)
            }
            Statement::Set(x, e) => {
                self.set(x)?;
                self.reckon(program.tokens_of(e))?;
                Ok(full)
            }
            Statement::Between(what, x, y) => self.transfer(what, full, x, y),
            Statement::Drop(x) => self.drop_box(full, x),
            Statement::If(e, s, t) => {
                self.reckon(program.tokens_of(e))?;
                let after = self.node(program, s, full, inner)?;
                let other = self.node(program, t, full, inner)?;
                same_or(after, other, Rule::BranchesDiffer)
            }
            Statement::While(e, s) => {
                self.reckon(program.tokens_of(e))?;
                let after = self.node(program, s, full, inner)?;
                same_or(full, after, Rule::LoopChanges)
            }
            Statement::Call(call) => {
                let arguments = program.arguments_of(call);
                self.call(full, call.into, call.procedure, arguments)
            }
            Statement::Show(e) => {
                self.reckon(program.tokens_of(e))?;
                Ok(full)
            }
        }
    }
}

// What is full once a variable of this kind was taken from.
fn taken(full: Full, y: Var, kind: u32) -> Full {
    let mut after = full;
    if kind > 0 {
        after.remove(y);
    }
    after
}

fn same_or(full: Full, other: Full, rule: Rule) -> Result<Full, Rule> {
    if full == other { Ok(full) } else { Err(rule) }
}

// Procedure 0 is there, has no arguments, and gives a number.
fn first_procedure(program: &Program) -> Result<(), Rule> {
    let first = &program.procedures.first().ok_or(Rule::NoFirst)?.signature;
    if !first.marks.is_empty() {
        return Err(Rule::FirstHasArguments);
    }
    match first.kind(first.result) {
        None => Err(Rule::NoVariable),
        Some(0) => Ok(()),
        Some(_) => Err(Rule::FirstGivesBox),
    }
}

// Whether a program keeps the rules, or the first that it breaks.
pub fn keeps_rules(program: &Program) -> Result<(), Rule> {
    first_procedure(program)?;
    let procedures = program.procedures.as_slice();
    for procedure in procedures {
        let scope = Scope {
            procedures,
            procedure,
        };
        let full = Full::at_start(&procedure.signature);
        let after = scope.node(program, procedure.body, full, MAX_NESTING)?;
        scope.end(&after)?;
    }
    Ok(())
}
