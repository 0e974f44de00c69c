use crate::flaw::Flaw;
use crate::rng::Rng;
use reference::rules::Rule;
use reference::tree::{Mark, Procedure, Signature, Var};
use std::alloc::{AllocError, Global};

// Loops nest at most so deep.
pub const LOOPS: u32 = 3;

// What a procedure's variables are for.
#[derive(Drop)]
pub struct Roles {
    // what any statement may name
    pub usable: Vec<Var>,
    // the first of the numbers that loops count down, one for each depth
    pub counters: Var,
    // a number and a box of each kind below the deepest, empty between statements: boxes are made by it
    pub ladder: Var,
    // the argument that says how often calls may go round
    pub fuel: Option<Var>,
}

// What is decided before bodies are written.
#[derive(Drop)]
pub struct Plan {
    pub procedures: Vec<Procedure<Roles>>,
    pub flaw: Flaw,
}

// The variables of a procedure while they are laid out.
#[derive(Drop)]
struct Layout {
    kinds: Vec<u32>,
    usable: Vec<Var>,
}

impl Layout {
    fn next(&self) -> Var {
        Var(u32::try_from(self.kinds.len()).unwrap_or(u32::MAX))
    }

    fn reserve(&mut self, kind: u32) -> Result<(), AllocError> {
        self.kinds.push(kind)?;
        Ok(())
    }

    fn offer(&mut self, kind: u32) -> Result<(), AllocError> {
        let x = self.next();
        self.usable.push(x)?;
        self.reserve(kind)
    }
}

// Draws signatures.
#[derive(Drop)]
struct Planner<'a> {
    rng: &'a mut Rng,
    heap: Global,
    deepest: u32,
    wanted: Option<Rule>,
}

impl<'a> Planner<'a> {
    // Arguments, of which the first may be fuel. Gives their marks.
    fn arguments(
        &mut self,
        layout: &mut Layout,
        count: u32,
        fueled: bool,
    ) -> Result<Vec<Mark>, AllocError> {
        let mut marks = Vec::new(self.heap);
        for x in 0..count {
            let mark = if self.rng.once_in(2) {
                Mark::Over
            } else {
                Mark::Lent
            };
            marks.push(mark)?;
            let kind = self.rng.below(self.deepest.saturating_add(1));
            if fueled && x == 0 {
                layout.reserve(0)?;
            } else {
                layout.offer(kind)?;
            }
        }
        Ok(marks)
    }

    // Variables that are neither arguments nor result. Gives the counters and the ladder.
    fn locals(&mut self, layout: &mut Layout) -> Result<(Var, Var), AllocError> {
        let counters = layout.next();
        for _ in 0..LOOPS {
            layout.reserve(0)?;
        }
        let ladder = layout.next();
        for kind in 0..self.deepest {
            layout.reserve(kind)?;
        }
        layout.offer(0)?;
        for kind in 0..=self.deepest {
            layout.offer(kind)?;
        }
        // 32 variables in all
        let more = self.rng.below(if self.deepest > 5 { 3 } else { 5 });
        for _ in 0..more {
            let kind = self.rng.below(self.deepest).saturating_add(1);
            layout.offer(kind)?;
        }
        Ok((counters, ladder))
    }

    fn argument_count(&mut self, first: bool) -> u32 {
        if first {
            return u32::from(self.wanted == Some(Rule::FirstHasArguments));
        }
        if self.rng.once_in(8) {
            return self.rng.below(9);
        }
        self.rng.below(4).saturating_add(1)
    }

    fn result_kind(&mut self, first: bool) -> u32 {
        if first {
            return u32::from(self.wanted == Some(Rule::FirstGivesBox));
        }
        if self.rng.once_in(3) {
            return 0;
        }
        self.rng.below(self.deepest).saturating_add(1)
    }

    // A signature, and what its variables are for.
    fn procedure(&mut self, first: bool) -> Result<Procedure<Roles>, AllocError> {
        let mut layout = Layout {
            kinds: Vec::new(self.heap),
            usable: Vec::new(self.heap),
        };
        let arguments = self.argument_count(first);
        let fueled = arguments > 0 && !self.rng.once_in(6);
        let marks = self.arguments(&mut layout, arguments, fueled)?;
        let own_result = layout.next();
        let kind = self.result_kind(first);
        layout.offer(kind)?;
        let (counters, ladder) = self.locals(&mut layout)?;
        let result = if self.wanted == Some(Rule::ResultIsArgument) && arguments > 0 {
            Var(0)
        } else {
            own_result
        };
        let Layout { kinds, usable } = layout;
        Ok(Procedure {
            signature: Signature {
                kinds,
                marks,
                result,
            },
            body: Roles {
                usable,
                counters,
                ladder,
                fuel: fueled.then_some(Var(0)),
            },
        })
    }
}

// What the signatures make of the rule that is wanted: some rules only they can break.
fn flaw_of(procedures: &[Procedure<Roles>], wanted: Option<Rule>) -> Flaw {
    let Some(rule) = wanted else {
        return Flaw::Nothing;
    };
    let broken = match rule {
        Rule::FirstHasArguments | Rule::FirstGivesBox => true,
        Rule::ResultIsArgument => procedures.iter().any(|procedure| procedure
            .signature
            .is_argument(procedure.signature.result)),
        _ => false,
    };
    if broken {
        Flaw::Broken(rule)
    } else {
        Flaw::Wanted(rule)
    }
}

// Signatures for a program, one of which breaks a rule if that is wanted and the rule is about signatures.
pub fn make_plan(rng: &mut Rng, heap: Global, wanted: Option<Rule>) -> Result<Plan, AllocError> {
    let deepest = if rng.once_in(3) {
        rng.below(4).saturating_add(4)
    } else {
        rng.below(3)
    }
    .saturating_add(1);
    let count = rng.below(5).saturating_add(1);
    let mut planner = Planner {
        rng,
        heap,
        deepest,
        wanted,
    };
    let mut procedures = Vec::new(heap);
    for number in 0..count {
        procedures.push(planner.procedure(number == 0)?)?;
    }
    let flaw = flaw_of(procedures.as_slice(), wanted);
    Ok(Plan { procedures, flaw })
}
