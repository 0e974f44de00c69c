#![tactic(auto)]

ghost use Rattle.std.specs.Prelude.{◌≡◌, ℕ, ◌+◌, ◌<◌, ◌≤◌, true, not, ◌&&◌, length, set, if◌then◌else◌, Some, slice_set};
ghost use Rattle.owned.specs.Program.{Prog};
ghost use Rattle.owned.specs.Runs.{stays};
ghost use Rattle.owned.specs.Rows.{Rows};
ghost use Rattle.owned.specs.Kept.{is_num};
ghost use Rattle.owned.specs.Ends.{HeadAt, StandsE, StandsS};
ghost use Rattle.owned.specs.Views.{sig_of};
ghost use Rattle.owned.specs.VarSets.{bits};
ghost use Rattle.linker.specs.Code.{released as released_of};
ghost use Rattle.linker.specs.Links.{code, Held, Room, Enters, MarkedE, PartsMarked, MarkedTo, StandsMarked, LinkedTo, HeaderAt, Noted, StandsP, ProcedureTo, RoomAll, LinkedAll};

use owned::decode::{Expression, Head, Statement, standing};
use owned::names::{Kind, Var};
use owned::procs::Procedure;
use owned::varset::VarSet;

mod tables;

use tables::Linker;

// How many words the table of procedures has for each. The first says where its kinds stand, the others how many
// variables it has, its result, where its body is entered, and what is given back as it ends.
pub const PROC_WORDS: usize = 8;

pub const MANY: usize = 1;

pub const RESULT: usize = 2;

pub const BODY: usize = 3;

pub const RELEASED: usize = 4;

// Where the statement at a place is entered: a pair is entered where its first part is. How many pairs lie in a row is
// known only as they are read, so there is no range to run over.
fn entry(rows: &[u32], at: usize) -> usize
    requires { StandsS rows.now at }
    ensures enters { Enters rows.now at result }
    ensures near { result < length rows.now }
{
    let mut place = at;
    while let Statement::Then = standing::<Statement>(rows, place) {
        place += 1;
    }
    place
}

// Whether a variable is given back as its procedure ends: a box that is neither the result nor lent.
fn is_released(found: &Procedure, x: Var) -> bool
    ensures { result ≡ (not (is_num (sig_of found.now) x.0) && not (stays (sig_of found.now) x.0)) }
{
    found.kind(x) != Kind(0) && x != found.result && !found.is_lent(x)
}

// The variables that are given back as a procedure ends.
fn released(found: &Procedure) -> VarSet
    requires { length (sig_of found.now).kinds ≤ 32 }
    ensures { bits (length (sig_of found.now).kinds) result.0 ≡ released_of (sig_of found.now) 0 (sig_of found.now).kinds }
{
    VarSet::of_those(found.kinds.len() as u32, |x| is_released(found, x))
}

// What the table of procedures says of one, but for where its body is entered: where its kinds stand, how many variables
// it has, its result and what is given back as it ends. And where its body begins.
#[derive(Clone, Copy)]
struct Header {
    kinds: u32,
    many: u32,
    result: Var,
    released: VarSet,
    body: usize,
}

// The header of the procedure that begins at a place.
fn header_at(rows: &[u32], at: usize) -> Header
    requires { (length rows.now ≤ 16384) × (StandsP rows.now at) }
    ensures { HeaderAt rows.now at result }
{
    let found = Procedure::at(rows, at);
    Header {
        kinds: at as u32 + 1,
        many: found.kinds.len() as u32,
        result: found.result,
        released: released(&found),
        body: found.body,
    }
}

impl Linker<'_> {
    // Writes where second operands begin, in the expression at a place and each in it. Gives where it ends.
    fn mark_expression(&mut self, at: usize) -> usize
        requires { StandsE (code self.old).rows at }
        ensures marks { MarkedE (code self.old) (code self.new) at result }
        ensures held { Held self.old self.new }
    {
        match standing::<Expression>(self.rows, at) {
            Expression::Binary(_) => {
                let right = self.mark_expression(at + 1);
                self.inner[at] = right as u32;
                self.mark_expression(right)
            }
            _ => at + 2,
        }
    }

    // Marks the expression in the statement at a place. Gives where the statements in it begin, or where it ends if there
    // are none.
    fn mark_parts(&mut self, at: usize, head: Statement) -> usize
        requires { (StandsS (code self.old).rows at) × (HeadAt (code self.old).rows at (Some head)) }
        ensures marks { PartsMarked (code self.old) (code self.new) at result }
        ensures held { Held self.old self.new }
    {
        let shape = head.shape();
        let next = at + shape.words;
        if shape.exprs == 1 {
            self.mark_expression(next)
        } else {
            next + 2 * shape.args as usize
        }
    }

    // Writes where the parts of the statement at a place begin, and of each statement in it. Gives where it ends.
    fn mark(&mut self, at: usize) -> usize
        requires { StandsS (code self.old).rows at }
        ensures marks { MarkedTo (code self.old) (code self.new) at result }
        ensures held { Held self.old self.new }
    {
        let head = standing::<Statement>(self.rows, at);
        let first = self.mark_parts(at, head);
        match head {
            Statement::Then | Statement::If => {
                self.inner[at] = first as u32;
                let second = self.mark(first);
                self.other[at] = second as u32;
                self.mark(second)
            }
            Statement::While => {
                self.inner[at] = first as u32;
                self.mark(first)
            }
            _ => first,
        }
    }

    // Links the statement at a place, whose parts are marked, to go on at `next`.
    fn link(&mut self, at: usize, next: usize)
        requires { (StandsMarked (code self.old) at) × (next ≤ 16384) }
        ensures links { LinkedTo (code self.old) (code self.new) at next }
        ensures held { Held self.old self.new }
    {
        let first = self.inner[at] as usize;
        let second = self.other[at] as usize;
        match standing::<Statement>(self.rows, at) {
            Statement::Then => {
                self.link(first, entry(self.rows, second));
                self.link(second, next);
            }
            Statement::If => {
                self.follow[at] = next as u32;
                self.inner[at] = entry(self.rows, first) as u32;
                self.other[at] = entry(self.rows, second) as u32;
                self.link(first, next);
                self.link(second, next);
            }
            Statement::While => {
                self.follow[at] = next as u32;
                self.inner[at] = entry(self.rows, first) as u32;
                self.link(first, at);
            }
            _ => {
                self.follow[at] = next as u32;
            }
        }
    }

    // Writes the words of procedure f, whose body is entered at a place.
    fn note(&mut self, f: usize, header: Header, body: usize)
        requires { (f < 64) × (body ≤ 16384) }
        ensures notes { Noted (code self.old) (code self.new) f header body }
        ensures held { Held self.old self.new }
    {
        let place = PROC_WORDS * f;
        self.procs[place] = header.kinds;
        self.procs[place + MANY] = header.many;
        self.procs[place + RESULT] = header.result.0;
        self.procs[place + BODY] = body as u32;
        self.procs[place + RELEASED] = header.released.0;
    }

    // Links procedure f, which begins at a place. Gives where it ends.
    fn procedure(&mut self, f: usize, at: usize) -> usize
        requires { (f < 64) × (StandsP (code self.old).rows at) }
        ensures links { ProcedureTo (code self.old) (code self.new) f at result }
        ensures held { Held self.old self.new }
    {
        let header = header_at(self.rows, at);
        let end = self.mark(header.body);
        self.link(header.body, self.rows.len());
        let body = entry(self.rows, header.body);
        self.note(f, header, body);
        end
    }

    // Links every procedure, one after the other.
    fn program(&mut self)
        requires { (g : Prog) × Rows (code self.old).rows g }
        ensures links { LinkedAll (code self.new) }
        ensures rows { (code self.new).rows ≡ (code self.old).rows }
        ensures held { Held self.old self.new }
    {
        let mut f = 0;
        let mut at = 0;
        // Where the next begins is known only once this one is linked.
        while at < self.rows.len() {
            at = self.procedure(f, at);
            f += 1;
        }
    }
}

// Fills the tables of the program that the rows are. Each table is lent for itself, with a word for each word of the
// rows: a step of a run reads one or two of them, never a whole row of all.
pub fn link(
    rows: &[u32],
    follow: &mut [u32],
    inner: &mut [u32],
    other: &mut [u32],
    procs: &mut [u32],
)
    requires { (((g : Prog) × Rows rows.now g)) × (RoomAll (record { rows = rows.now; follow = follow.old; inner = inner.old; other = other.old; procs = procs.old })) }
    ensures { LinkedAll (record { rows = rows.entry.now; follow = follow.new; inner = inner.new; other = other.new; procs = procs.new }) }
{
    let mut linker = Linker {
        rows,
        follow,
        inner,
        other,
        procs,
    };
    linker.program();
}
