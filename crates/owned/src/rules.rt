ghost use Rattle.std.specs.Prelude.{◌≡◌, ℕ, ◌+◌, ◌-◌, ◌<◌, ◌≤◌, true, false, ◌&&◌, ◌||◌, length, set, Some, ◌==◌, nat_le, nat_lt, slice_set};
ghost use Rattle.owned.specs.declared.decode.Statement.TheVariants.{Then, Set, If, While};
ghost use Rattle.owned.specs.Program.{Prog, kind};
ghost use Rattle.owned.specs.Kept.{is_num, is_full, there, takes, gives, full_after_give, alike, starts as starts_by_rule, kept_all, kept, begins};
ghost use Rattle.owned.specs.Ends.{HeadAt, Placed};
ghost use Rattle.owned.specs.Views.{seen, full_of, SaysE, ThereE, SaysS, ThereS, allows, leaves, SaysKept, Fine};

use crate::checker::Checker;
use crate::decode::{Expression, Statement, Transfer, standing};
use crate::names::{Kind, Var};
use crate::program::Program;
use crate::varset::VarSet;

impl Checker<'_> {
    pub(crate) fn is_number(&self, x: Var) -> bool
        ensures { result ≡ is_num (seen self.now).sig x.0 }
    {
        self.procedure.kind(x).0 == 0
    }

    // Whether the kind of x is a box of the kind of y.
    fn boxes(&self, x: Var, y: Var) -> bool
        ensures { result ≡ (kind (seen self.now).sig x.0 == kind (seen self.now).sig y.0 + 1) }
    {
        u64::from(self.procedure.kind(x).0) == u64::from(self.procedure.kind(y).0) + 1
    }

    pub(crate) fn is_full(&self, full: VarSet, x: Var) -> bool
        ensures { result ≡ is_full (full_of (seen self.now) full) x.0 }
    {
        if self.procedure.has(x) {
            full.has(x)
        } else {
            false
        }
    }

    pub(crate) fn filled(&self, full: VarSet, x: Var) -> VarSet
        ensures { full_of (seen self.now) result ≡ slice_set (full_of (seen self.now) full) x.0 true }
    {
        if self.procedure.has(x) {
            full.with(x)
        } else {
            full
        }
    }

    pub(crate) fn emptied(&self, full: VarSet, x: Var) -> VarSet
        ensures { full_of (seen self.now) result ≡ slice_set (full_of (seen self.now) full) x.0 false }
    {
        if self.is_full(full, x) {
            full.without(x)
        } else {
            full
        }
    }

    // Whether a variable can give what it holds.
    pub(crate) fn gives(&self, full: VarSet, x: Var) -> bool
        ensures { result ≡ gives (seen self.now).sig (full_of (seen self.now) full) x.0 }
    {
        self.procedure.has(x)
            && (self.is_number(x) || (self.is_full(full, x) && !self.procedure.is_lent(x)))
    }

    // Whether a variable can take a value.
    pub(crate) fn takes(&self, x: Var) -> bool
        ensures { result ≡ takes (seen self.now).sig x.0 }
    {
        self.procedure.has(x) && !self.procedure.is_lent(x)
    }

    // What is full after a variable gave what it held: a number stays.
    pub(crate) fn after_give(&self, full: VarSet, x: Var) -> VarSet
        ensures { full_of (seen self.now) result ≡ full_after_give (seen self.now).sig (full_of (seen self.now) full) x.0 }
    {
        if self.is_number(x) {
            full
        } else {
            self.emptied(full, x)
        }
    }

    // What a statement with a destination x and a source y asks. The two are parts of the head that says the statement:
    // one name for both would be no plainer.
    fn allows(&self, how: Transfer, x: Var, y: Var, full: VarSet) -> bool
        ensures { result ≡ allows how (seen self.now).sig (full_of (seen self.now) full) x.0 y.0 }
    {
        match how {
            Transfer::Box => self.takes(x) && self.gives(full, y) && self.boxes(x, y) && x != y,
            Transfer::Unbox => self.takes(x) && self.gives(full, y) && self.boxes(y, x) && x != y,
            Transfer::Look => self.takes(x)
                && self.is_number(x)
                && self.procedure.kind(y).0 == 1
                && self.is_full(full, y)
                && self.procedure.has(y),
            Transfer::Fill => self.is_full(full, x)
                && self.procedure.has(x)
                && self.gives(full, y)
                && self.boxes(x, y)
                && x != y,
            Transfer::Move => self.takes(x)
                && self.gives(full, y)
                && self.procedure.kind(x) == self.procedure.kind(y)
                && x != y,
        }
    }

    // What is full after it.
    fn leaves(&self, how: Transfer, x: Var, y: Var, full: VarSet) -> VarSet
        ensures { full_of (seen self.now) result ≡ leaves how (seen self.now).sig (full_of (seen self.now) full) x.0 y.0 }
    {
        match how {
            Transfer::Box => self.filled(self.after_give(full, y), x),
            Transfer::Unbox => self.filled(self.emptied(full, y), x),
            Transfer::Look => full,
            Transfer::Fill => self.after_give(full, y),
            Transfer::Move => self.filled(self.after_give(full, y), x),
        }
    }

    // Whether a variable is a number that is there.
    fn is_operand(&self, x: Var) -> bool
        ensures { result ≡ (there (seen self.now).sig x.0 && is_num (seen self.now).sig x.0) }
    {
        self.procedure.has(x) && self.is_number(x)
    }

    // Where the expression at a place ends, if it is over number variables.
    pub(crate) fn numbers(&self, at: usize) -> Option<usize>
        requires { ThereE (seen self.now) at }
        ensures { SaysE (seen self.now) at result }
    {
        match standing::<Expression>(self.program.rows, at) {
            Expression::Number(_) => Some(at + 2),
            Expression::Variable(x) => {
                if self.is_operand(x) {
                    Some(at + 2)
                } else {
                    None
                }
            }
            Expression::Binary(_) => {
                let right = self.numbers(at + 1)?;
                self.numbers(right)
            }
        }
    }

    // Whether the same variables are full.
    fn alike(&self, a: VarSet, b: VarSet) -> bool
        ensures { result ≡ alike (full_of (seen self.now) a) (full_of (seen self.now) b) }
    {
        let n = self.procedure.kinds.len() as u32;
        a.first_difference(b, n) == n
    }

    fn stores(&self, x: Var) -> bool
        ensures { result ≡ (takes (seen self.now).sig x.0 && is_num (seen self.now).sig x.0) }
    {
        self.takes(x) && self.is_number(x)
    }

    fn drops(&self, x: Var) -> bool
        ensures { result ≡ (takes (seen self.now).sig x.0 && nat_le 1 (kind (seen self.now).sig x.0)) }
    {
        self.takes(x) && 1 <= self.procedure.kind(x).0
    }

    // What is full after the statement at a place, and where it ends, if it keeps the rules.
    #[cycle(branch_repeat_sequence_statement)]
    fn statement(&self, at: usize, full: VarSet) -> Option<(VarSet, usize)>
        requires { ThereS (seen self.now) at }
        ensures { SaysS (seen self.now) at full result }
    {
        match standing::<Statement>(self.program.rows, at) {
            Statement::Skip => Some((full, at + 1)),
            Statement::Then => self.sequence(at, full),
            Statement::Set(x) => self.set(at, x, full),
            Statement::Between(how, x, y) => {
                if self.allows(how, x, y, full) {
                    Some((self.leaves(how, x, y, full), at + 3))
                } else {
                    None
                }
            }
            Statement::Drop(x) => {
                if self.drops(x) {
                    Some((self.emptied(full, x), at + 2))
                } else {
                    None
                }
            }
            Statement::If => self.branch(at, full),
            Statement::While => self.repeat(at, full),
            Statement::Call(x, f, n) => self.call(at, x, f, n, full),
            Statement::Show => {
                let end = self.numbers(at + 1)?;
                Some((full, end))
            }
        }
    }

    // One statement after the other.
    #[cycle(branch_repeat_sequence_statement)]
    fn sequence(&self, at: usize, full: VarSet) -> Option<(VarSet, usize)>
        requires { (ThereS (seen self.now) at) × (HeadAt (seen self.now).rows at (Some Then)) }
        ensures { SaysS (seen self.now) at full result }
    {
        let (after, next) = self.statement(at + 1, full)?;
        self.statement(next, after)
    }

    // A number variable set to an expression.
    fn set(&self, at: usize, x: Var, full: VarSet) -> Option<(VarSet, usize)>
        requires { (ThereS (seen self.now) at) × (HeadAt (seen self.now).rows at (Some (Set x))) }
        ensures { SaysS (seen self.now) at full result }
    {
        if !self.stores(x) {
            return None;
        }
        let end = self.numbers(at + 2)?;
        Some((full, end))
    }

    // Two ways, after which the same variables are full.
    #[cycle(branch_repeat_sequence_statement)]
    fn branch(&self, at: usize, full: VarSet) -> Option<(VarSet, usize)>
        requires { (ThereS (seen self.now) at) × (HeadAt (seen self.now).rows at (Some If)) }
        ensures { SaysS (seen self.now) at full result }
    {
        let begin = self.numbers(at + 1)?;
        let (first, other) = self.statement(begin, full)?;
        let (second, end) = self.statement(other, full)?;
        if self.alike(first, second) {
            Some((first, end))
        } else {
            None
        }
    }

    // A loop, whose body leaves full what was full.
    #[cycle(branch_repeat_sequence_statement)]
    fn repeat(&self, at: usize, full: VarSet) -> Option<(VarSet, usize)>
        requires { (ThereS (seen self.now) at) × (HeadAt (seen self.now).rows at (Some While)) }
        ensures { SaysS (seen self.now) at full result }
    {
        let begin = self.numbers(at + 1)?;
        let (after, end) = self.statement(begin, full)?;
        if self.alike(full, after) {
            Some((full, end))
        } else {
            None
        }
    }

    // Whether a variable is full as the procedure begins.
    fn begins_full(&self, x: Var) -> bool
        ensures { result ≡ (nat_lt x.0 (length (seen self.now).sig.args) || is_num (seen self.now).sig x.0) }
    {
        (x.0 as usize) < self.procedure.args.len() || self.is_number(x)
    }

    // What is full as the procedure begins: its arguments, and numbers.
    fn begins(&self) -> VarSet
        ensures { full_of (seen self.now) result ≡ begins 0 (seen self.now).sig (seen self.now).sig.kinds }
    {
        VarSet::of_those(self.procedure.kinds.len() as u32, |x| self.begins_full(x))
    }

    // Whether the procedure keeps the rules.
    fn is_kept(&self) -> bool
        requires { ThereS (seen self.now) (seen self.now).body }
        ensures { SaysKept (seen self.now) result }
    {
        if (self.procedure.result.0 as usize) < self.procedure.args.len() {
            return false;
        }
        if !self.procedure.has(self.procedure.result) {
            return false;
        }
        match self.statement(self.procedure.body, self.begins()) {
            Some((after, _)) => self.is_full(after, self.procedure.result),
            None => false,
        }
    }
}

impl Program<'_> {
    // Whether the first procedure has no arguments and a number for a result.
    fn starts_well(&self) -> bool
        ensures { (g : Prog) → Placed self.now.rows.now self.now.starts.now g → result ≡ starts_by_rule g }
    {
        if self.starts.is_empty() {
            return false;
        }
        let first = self.procedure(0);
        first.args.is_empty() && first.kind(first.result) == Kind(0)
    }

    // Whether each procedure keeps the rules.
    fn all_kept(&self) -> bool
        requires { Fine self.now.rows.now self.now.starts.now }
        ensures { (g : Prog) → Placed self.now.rows.now self.now.starts.now g → result ≡ kept_all g g }
    {
        // A procedure is found by its number.
        for f in 0..self.starts.len() {
            let checker = Checker {
                program: *self,
                procedure: self.procedure(f),
            };
            if !checker.is_kept() {
                return false;
            }
        }
        true
    }

    // Whether the program keeps the rules.
    pub fn keeps_rules(&self) -> bool
        requires { Fine self.now.rows.now self.now.starts.now }
        ensures { (g : Prog) → Placed self.now.rows.now self.now.starts.now g → result ≡ kept g }
    {
        self.starts_well() && self.all_kept()
    }
}
