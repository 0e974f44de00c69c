use interpreter::Ran;

// How often `go` gave each ending, or said why there is none.
#[derive(Clone, Copy, Debug, Default)]
pub struct Endings {
    done: u32,
    full: u32,
    spent: u32,
    deep: u32,
    out_full: u32,
    careless: u32,
    no_program: u32,
    small: u32,
}

impl Endings {
    fn counter(&mut self, ending: Ran) -> &mut u32 {
        match ending {
            Ran::Done(_, _, _) => &mut self.done,
            Ran::Full => &mut self.full,
            Ran::Spent => &mut self.spent,
            Ran::Deep => &mut self.deep,
            Ran::OutFull => &mut self.out_full,
            Ran::Unkept => &mut self.careless,
            Ran::Unread => &mut self.no_program,
            Ran::Small => &mut self.small,
        }
    }

    pub(crate) fn count(&mut self, ending: Ran) {
        let counter = self.counter(ending);
        *counter = counter.saturating_add(1);
    }

    pub(crate) fn named(&self) -> [(&'static str, u32); 8] {
        [
            ("done", self.done),
            ("full", self.full),
            ("spent", self.spent),
            ("deep", self.deep),
            ("out full", self.out_full),
            ("careless", self.careless),
            ("no program", self.no_program),
            ("small", self.small),
        ]
    }
}
