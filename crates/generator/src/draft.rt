use crate::author::Author;
use crate::plan::make_plan;
use crate::rng::Rng;
use crate::rows::Rows;
use reference::full::Full;
use reference::rules::{Rule, Scope};
use std::alloc::{AllocError, Global};

// How many programs are tried for one that breaks a rule.
const ATTEMPTS: u32 = 20;

// A program, and the rule that it was made to break.
#[derive(Drop)]
pub struct Draft {
    pub rows: Vec<u32>,
    pub broken: Option<Rule>,
}

// Writes a program that keeps the rules, or one that breaks this one if a place for that is found.
fn attempt(heap: Global, seed: u32, wanted: Option<Rule>) -> Result<Draft, AllocError> {
    let mut rng = Rng::new(seed);
    let mut rows = Rows::new(heap);
    let plan = make_plan(&mut rng, heap, wanted)?;
    let mut flaw = plan.flaw;
    let procedures = plan.procedures.as_slice();
    for (number, procedure) in (0u32..).zip(procedures) {
        let wait = rng.below(5);
        let depth = rng.below(3).saturating_add(1);
        let mut author = Author {
            rng: &mut rng,
            heap,
            scope: Scope {
                procedures,
                procedure,
            },
            number,
            full: Full::at_start(&procedure.signature),
            flaw: &mut flaw,
            wait,
        };
        let body = author.body(depth)?;
        rows.procedure(&procedure.signature, &body)?;
    }
    Ok(Draft {
        rows: rows.words,
        broken: flaw.broken(),
    })
}

// A program for a number. Where the rule that it should break found no place, others are tried.
pub fn generate(heap: Global, number: u32, wanted: Option<Rule>) -> Result<Draft, AllocError> {
    if wanted == Some(Rule::NoFirst) {
        return Ok(Draft {
            rows: Vec::new(heap),
            broken: wanted,
        });
    }
    let mut draft = attempt(heap, number, wanted)?;
    for again in 1..ATTEMPTS {
        if draft.broken == wanted {
            break;
        }
        let other = number.wrapping_add(again.wrapping_mul(10_000));
        draft = attempt(heap, other, wanted)?;
    }
    Ok(draft)
}
