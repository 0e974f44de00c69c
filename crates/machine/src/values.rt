ghost use Rattle.std.specs.Prelude.{◌≡◌, ◌+◌, ◌<◌, ◌≤◌, false, length, slice_index};
ghost use Rattle.machine.specs.Memory.{control, memory};
ghost use Rattle.machine.specs.Operations.{CanEvaluate, Evaluated, combined, nests};

use crate::machine::Machine;
use owned::names::Var;

// Two numbers added, subtracted, multiplied or compared, by the word of the operator. Numbers wrap. The word is looked at
// once, where it is used: an enum made from it would be matched again at once.
fn combine(code: u32, a: u32, b: u32) -> u32
    requires { 2 ≤ code }
    ensures { result ≡ combined code a b }
{
    match code {
        0..=2 => a.wrapping_add(b),
        3 => a.wrapping_sub(b),
        4 => (u64::from(a) * u64::from(b) % 4_294_967_296) as u32,
        5..=u32::MAX => u32::from(a < b),
    }
}

// A word below 2 begins a leaf, 0 a number and 1 a variable, as the rows have it: an enum made from it would be matched
// again at once here too. That an expression can be evaluated is asked for: it is so at the places of expressions alone,
// and the machine, which lies here, knows only the place of its step.
impl<'a> Machine<'a> {
    // The number at a place, or the value of the variable there.
    fn leaf(&self, at: usize) -> u32
        requires can { CanEvaluate (control self.now) (memory self.now) at }
        requires leaf { slice_index (control self.now).code.rows at < 2 }
        ensures { Evaluated (control self.now) (memory self.now) at result }
    {
        let word = self.rows[at + 1];
        if self.rows[at] == 0 {
            word
        } else {
            self.load(Var(word))
        }
    }

    // Whether an operand of the expression at a place has operands itself.
    fn is_nested(&self, at: usize) -> bool
        requires { CanEvaluate (control self.now) (memory self.now) at }
        ensures { result ≡ nests (control self.now).code.rows at }
    {
        self.rows[at] >= 2 && (self.rows[at + 1] >= 2 || self.rows[at + 3] >= 2)
    }

    // The value of an expression that is a leaf, or has two leaves for operands.
    fn shallow(&self, at: usize) -> u32
        requires can { CanEvaluate (control self.now) (memory self.now) at }
        requires shallow { nests (control self.now).code.rows at ≡ false }
        ensures { Evaluated (control self.now) (memory self.now) at result }
    {
        if self.rows[at] < 2 {
            return self.leaf(at);
        }
        let a = self.leaf(at + 1);
        let b = self.leaf(at + 3);
        combine(self.rows[at], a, b)
    }

    // The value of an expression with operands. It calls nothing but itself that could call it back, so that all else
    // can be inlined.
    fn nested(&self, at: usize) -> u32
        requires can { CanEvaluate (control self.now) (memory self.now) at }
        requires operator { 2 ≤ slice_index (control self.now).code.rows at }
        ensures { Evaluated (control self.now) (memory self.now) at result }
    {
        let right = self.tables.inner[at] as usize;
        let a = if self.is_nested(at + 1) {
            self.nested(at + 1)
        } else {
            self.shallow(at + 1)
        };
        let b = if self.is_nested(right) {
            self.nested(right)
        } else {
            self.shallow(right)
        };
        combine(self.rows[at], a, b)
    }

    // The value of the expression at a place.
    pub(crate) fn value(&self, at: usize) -> u32
        requires { CanEvaluate (control self.now) (memory self.now) at }
        ensures { Evaluated (control self.now) (memory self.now) at result }
    {
        if self.is_nested(at) {
            self.nested(at)
        } else {
            self.shallow(at)
        }
    }
}
