use reference::rules::Rule;

// The rule that a program is to break, until it does.
#[derive(Clone, Copy, Debug, PartialEq, Eq)]
pub enum Flaw {
    Nothing,
    Wanted(Rule),
    Broken(Rule),
}

impl Flaw {
    pub(crate) fn broken(self) -> Option<Rule> {
        match self {
            Flaw::Broken(rule) => Some(rule),
            Flaw::Nothing | Flaw::Wanted(_) => None,
        }
    }
}
