ghost use Rattle.std.specs.Prelude.{◌≡◌, ◌^◌, ◌<◌, ◌&&◌, length, drop, if◌then◌else◌, Some, ◌==◌, nat_eq, slice_index};
ghost use Rattle.std.specs.List.{list_any};
ghost use Rattle.owned.specs.declared.decode.Statement.TheVariants.{Call};
ghost use Rattle.owned.specs.Kept.{full_after_give, handed, hands};
ghost use Rattle.owned.specs.Ends.{HeadAt};
ghost use Rattle.owned.specs.Views.{seen, sig_of, full_of, After, SaysS, ThereS, args_of, ThereArgs, ArgumentsAt};

use crate::checker::Checker;
use crate::names::Var;
use crate::procs::{LENT, Procedure};
use crate::varset::VarSet;

// Whether a variable stands among arguments from one on. Each is a variable, then its mark.
fn stands_among(x: Var, arguments: &[[u32; 2]], from: usize) -> bool
    ensures { result ≡ list_any (λ w. x.0 == (slice_index w 0)) (drop from arguments.now) }
{
    arguments.iter().skip(from).any(|[of, _]| x.0 == *of)
}

// Whether a variable is lent by one of the arguments.
fn is_lent_by(x: Var, arguments: &[[u32; 2]]) -> bool
    ensures { result ≡ list_any (λ w. slice_index w 1 == 1 && x.0 == (slice_index w 0)) arguments.now }
{
    arguments
        .iter()
        .any(|[of, lent]| *lent == LENT && x.0 == *of)
}

impl<'a> Checker<'a> {
    // The arguments of a call, from a place on.
    fn arguments(&self, at: usize, n: u32) -> &'a [[u32; 2]]
        requires { ThereArgs (seen self.now) at n }
        ensures { ArgumentsAt (seen self.now) at n result.now }
    {
        let end = at + 2 * n as usize;
        let rows = self.program.rows;
        rows[at..end].as_chunks::<2>().0
    }

    // Whether a variable can be argument i of a procedure.
    fn hands_over(&self, callee: &Procedure, i: u32, of: Var, lent: u32, full: VarSet) -> bool
        ensures { result ≡ handed (seen self.now).sig (sig_of callee.now) i (record { of = of.0; lent = lent }) (full_of (seen self.now) full) }
    {
        (i as usize) < callee.args.len()
            && lent == callee.mark(Var(i))
            && self.procedure.kind(of) == callee.kind(Var(i))
            && self.procedure.has(of)
            && self.is_full(full, of)
            && (lent == LENT || self.gives(full, of))
    }

    // What is full after an argument: what is lent stays.
    fn after_argument(&self, of: Var, lent: u32, full: VarSet) -> VarSet
        ensures { full_of (seen self.now) result ≡ (if nat_eq lent 1 then full_of (seen self.now) full else full_after_give (seen self.now).sig (full_of (seen self.now) full) of.0) }
    {
        if lent == LENT {
            full
        } else {
            self.after_give(full, of)
        }
    }

    // What is full after arguments, if they are those of a procedure and keep the rules.
    fn hands(&self, callee: &Procedure, arguments: &[[u32; 2]], full: VarSet) -> Option<VarSet>
        requires { length arguments.now < 2 ^ 32 }
        ensures { After (seen self.now) (hands (seen self.now).sig (sig_of callee.now) 0 (args_of arguments.now) (full_of (seen self.now) full)) result }
    {
        if arguments.len() != callee.args.len() {
            return None;
        }
        let mut left = full;
        for (i, [of, lent]) in arguments.iter().enumerate() {
            let x = Var(*of);
            if !self.hands_over(callee, i as u32, x, *lent, left) {
                return None;
            }
            if !self.is_number(x) && stands_among(x, arguments, i + 1) {
                return None;
            }
            left = self.after_argument(x, *lent, left);
        }
        Some(left)
    }

    // A call of procedure f with n arguments, whose result goes to x.
    pub(crate) fn call(
        &self,
        at: usize,
        x: Var,
        f: u32,
        n: u32,
        full: VarSet,
    ) -> Option<(VarSet, usize)>
        requires { (ThereS (seen self.now) at) × (HeadAt (seen self.now).rows at (Some (Call x f n))) }
        ensures { SaysS (seen self.now) at full result }
    {
        if !self.takes(x) {
            return None;
        }
        if f as usize >= self.program.starts.len() {
            return None;
        }
        let callee = self.program.procedure(f as usize);
        if self.procedure.kind(x) != callee.kind(callee.result) {
            return None;
        }
        let arguments = self.arguments(at + 4, n);
        let after = self.hands(&callee, arguments, full)?;
        if !self.is_number(x) && is_lent_by(x, arguments) {
            return None;
        }
        Some((self.filled(after, x), at + 4 + 2 * n as usize))
    }
}
