ghost use Rattle.std.specs.Prelude.{ℕ, ◌≡◌, ◌^◌, ◌<◌, ◌≤◌, true, false, bit_or, bit_xor};
ghost use Rattle.owned.specs.VarSets.{bit_of, FirstDifference};
ghost use Rattle.owned.specs.Decode.{variable};

use crate::names::Var;

// The full variables of a procedure, a bit for each: one word, since there is no heap for a set.
#[derive(Clone, Copy)]
pub struct VarSet(pub u32);

impl VarSet {
    pub(crate) fn has(self, x: Var) -> bool
        requires { x.0 < 32 }
        ensures { result ≡ bit_of self.0 x.0 }
    {
        (self.0 >> x.0) & 1 == 1
    }

    pub fn with(self, x: Var) -> VarSet
        requires { x.0 < 32 }
        ensures { result.0 ≡ bit_or self.0 (2 ^ x.0) }
    {
        VarSet(self.0 | (1 << x.0))
    }

    // Without a variable that it has.
    pub(crate) fn without(self, x: Var) -> VarSet
        requires { (x.0 < 32) × (bit_of self.0 x.0 ≡ true) }
        ensures { result.0 ≡ bit_xor self.0 (2 ^ x.0) }
    {
        VarSet(self.0 ^ (1 << x.0))
    }

    // The first of n variables that one of two sets has and the other has not, or n if there is none.
    pub(crate) fn first_difference(self, other: VarSet, n: u32) -> u32
        requires { n ≤ 32 }
        ensures { FirstDifference self.0 other.0 n result }
    {
        let mut first = n;
        for x in 0..n {
            if self.has(Var(x)) != other.has(Var(x)) {
                first = x;
                break;
            }
        }
        first
    }

    // Those of the first n variables that are meant.
    pub fn of_those<F: Fn(Var) -> bool>(n: u32, is_meant: F) -> VarSet
        requires few { n ≤ 32 }
        requires callable { F.IsAlwaysCallable is_meant }
        ensures those { (x : ℕ) → x < n → F.post is_meant (variable x) (bit_of result.0 x) }
        ensures others { (x : ℕ) → n ≤ x → bit_of result.0 x ≡ false }
    {
        let mut those = VarSet(0);
        for x in 0..n {
            if is_meant(Var(x)) {
                those = those.with(Var(x));
            }
        }
        those
    }
}
