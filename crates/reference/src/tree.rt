use std::alloc::Global;

// A variable, by its place among the variables of its procedure.
#[derive(Clone, Copy, Debug, PartialEq, Eq, PartialOrd, Ord)]
pub struct Var(pub u32);

impl From<Var> for usize {
    fn from(x: Var) -> usize {
        x.0 as usize
    }
}

// How an argument is passed.
#[derive(Clone, Copy, Debug, PartialEq, Eq)]
pub enum Mark {
    Over,
    Lent,
}

impl Mark {
    pub(crate) const ALL: [Mark; 2] = [Mark::Over, Mark::Lent];
}

// An argument of a call: a variable of the caller.
#[derive(Clone, Copy, Debug, PartialEq, Eq)]
pub struct Argument {
    pub var: Var,
    pub mark: Mark,
}

#[derive(Clone, Copy, Debug, PartialEq, Eq)]
pub enum Operator {
    Add,
    Subtract,
    Multiply,
    Less,
}

impl Operator {
    pub const ALL: [Operator; 4] = [
        Operator::Add,
        Operator::Subtract,
        Operator::Multiply,
        Operator::Less,
    ];
}

#[derive(Clone, Copy, Debug, PartialEq, Eq)]
pub enum Token {
    Number(u32),
    Variable(Var),
    Operator(Operator),
}

// An expression: these of the program's tokens, in prefix order.
#[derive(Clone, Copy, Debug, PartialEq, Eq)]
pub struct Expression {
    pub first: usize,
    pub end: usize,
}

// What goes from the second variable of a statement to the first.
#[derive(Clone, Copy, Debug, PartialEq, Eq)]
pub enum Transfer {
    Box,
    Unbox,
    Look,
    Fill,
    Move,
}

impl Transfer {
    pub const ALL: [Transfer; 5] = [
        Transfer::Box,
        Transfer::Unbox,
        Transfer::Look,
        Transfer::Fill,
        Transfer::Move,
    ];
}

// A statement of the program, by its place among the nodes.
#[derive(Clone, Copy, Debug, PartialEq, Eq)]
pub struct NodeId(pub usize);

// A call: its arguments are these of the program's.
#[derive(Clone, Copy, Debug, PartialEq, Eq)]
pub struct Call {
    pub into: Var,
    pub procedure: u32,
    pub first: usize,
    pub end: usize,
}

#[derive(Clone, Copy, Debug, PartialEq, Eq)]
pub enum Statement {
    Skip,
    Then(NodeId, NodeId),
    Set(Var, Expression),
    Between(Transfer, Var, Var),
    Drop(Var),
    If(Expression, NodeId, NodeId),
    While(Expression, NodeId),
    Call(Call),
    Show(Expression),
}

// A statement and where it stands in the rows.
#[derive(Clone, Copy, Debug, PartialEq, Eq)]
pub struct Node {
    pub at: usize,
    pub statement: Statement,
}

// What a caller knows of a procedure.
#[derive(Drop)]
pub struct Signature {
    // A kind is a number, which falls by one with each box that is opened.
    pub kinds: Vec<u32>,
    pub marks: Vec<Mark>,
    pub result: Var,
}

impl Signature {
    // The kind of a variable, if it is there.
    pub fn kind(&self, x: Var) -> Option<u32> {
        self.kinds.get(usize::from(x)).copied()
    }

    pub fn is_argument(&self, x: Var) -> bool {
        usize::from(x) < self.marks.len()
    }

    pub fn is_lent(&self, x: Var) -> bool {
        self.marks.get(usize::from(x)) == Some(&Mark::Lent)
    }
}

// A procedure, with its body or with what stands for that until it is written.
#[derive(Drop)]
pub struct Procedure<B> {
    pub signature: Signature,
    pub body: B,
}

// A program as a tree. What it is made of names its parts by their places here, so that each is a value to copy.
#[derive(Drop)]
pub struct Program {
    pub procedures: Vec<Procedure<NodeId>>,
    pub nodes: Vec<Node>,
    pub tokens: Vec<Token>,
    pub arguments: Vec<Argument>,
}

impl Program {
    pub(crate) fn new(heap: Global) -> Program {
        Program {
            procedures: Vec::new(heap),
            nodes: Vec::new(heap),
            tokens: Vec::new(heap),
            arguments: Vec::new(heap),
        }
    }

    // A node that is not there is taken for a skip.
    pub fn node(&self, id: NodeId) -> Node {
        let none = Node {
            at: usize::MAX,
            statement: Statement::Skip,
        };
        self.nodes.get(id.0).copied().unwrap_or(none)
    }

    pub fn tokens_of(&self, e: Expression) -> &[Token] {
        part(self.tokens.as_slice(), e.first, e.end)
    }

    pub fn arguments_of(&self, call: Call) -> &[Argument] {
        part(self.arguments.as_slice(), call.first, call.end)
    }
}

// What stands from one place to another; nothing, if it is not all there.
fn part<T>(all: &[T], first: usize, end: usize) -> &[T] {
    all.get(first..end).unwrap_or(&[])
}
