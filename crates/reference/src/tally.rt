use crate::tree::Statement;
use crate::words::Form;
use std::fmt;

// What a trial should come to besides statements.
#[derive(Clone, Copy, Debug, PartialEq, Eq)]
pub enum Event {
    BoxHandedOver,
    BoxLent,
    LentOn,
    Recursion,
    BoxResult,
    GivenBack,
}

impl Event {
    pub const ALL: [Event; 6] = [
        Event::BoxHandedOver,
        Event::BoxLent,
        Event::LentOn,
        Event::Recursion,
        Event::BoxResult,
        Event::GivenBack,
    ];
}

impl fmt::Display for Event {
    fn fmt<W: fmt::Write>(&self, f: &mut fmt::Formatter<W>) -> fmt::Result {
        f.write_str(match self {
            Event::BoxHandedOver => "boxes handed over",
            Event::BoxLent => "boxes lent",
            Event::LentOn => "loans lent on",
            Event::Recursion => "calls of an open procedure",
            Event::BoxResult => "results that are boxes",
            Event::GivenBack => "boxes given back where one is put",
        })
    }
}

// How often statements of each form were executed, boxes of each kind made, and events met, each in the order of its
// enum or of kinds. Arrays and no maps, since counting may not run out of memory.
#[derive(Clone, Copy, Default)]
pub struct Tally {
    pub forms: [u64; Form::ALL.len()],
    pub kinds: [u64; 9],
    pub events: [u64; Event::ALL.len()],
}

fn bump(counts: &mut [u64], at: usize) {
    if let Some(count) = counts.get_mut(at) {
        *count = count.saturating_add(1);
    }
}

fn add_each(counts: &mut [u64], others: &[u64]) {
    for (count, other) in counts.iter_mut().zip(others.iter()) {
        *count = count.saturating_add(*other);
    }
}

impl Tally {
    pub fn count(&mut self, statement: Statement) {
        bump(&mut self.forms, Form::from(statement) as usize);
    }

    pub fn count_box(&mut self, kind: u32) {
        bump(&mut self.kinds, kind as usize);
    }

    pub fn meet(&mut self, event: Event) {
        bump(&mut self.events, event as usize);
    }

    pub fn add(&mut self, other: &Tally) {
        add_each(&mut self.forms, &other.forms);
        add_each(&mut self.kinds, &other.kinds);
        add_each(&mut self.events, &other.events);
    }
}
