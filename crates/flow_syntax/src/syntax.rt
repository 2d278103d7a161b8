//! What flows and classes are written in.

use dura_value::{Name, Scalar};

/// An operation of one part.
#[derive(Clone, Copy)]
pub enum UnaryOp {
    /// The other truth value.
    Not,
    /// The bytes of a text or the scalars of a list.
    Len,
    /// An integer as a text.
    Str,
}

/// An operation of two parts.
#[derive(Clone, Copy)]
pub enum BinaryOp {
    /// The sum of integers.
    Add,
    /// Their difference.
    Sub,
    /// Their product.
    Mul,
    /// The quotient, towards zero.
    Div,
    /// The remainder, with the sign of the first.
    Rem,
    /// Whether two values are equal.
    Eq,
    /// Whether the first integer is less, or the first text comes before the other.
    Lt,
    /// Whether both are true.
    And,
    /// Whether one is true.
    Or,
    /// Two texts joined.
    Cat,
    /// The scalar at a place of a list.
    At,
    /// A list with one scalar more.
    Push,
}

/// An expression.
#[derive(Drop)]
pub enum Expr {
    /// A scalar, which stands for itself.
    Scalar(Scalar),
    /// A variable.
    Variable(Name),
    /// A list of parts.
    List(Vec<Expr>),
    /// An operation of one part.
    Unary(UnaryOp, Box<Expr>),
    /// An operation of two parts.
    Binary(BinaryOp, Box<Expr>, Box<Expr>),
}

/// An entity that is to be locked.
#[derive(Drop)]
pub struct Locked {
    /// Its class.
    pub class: Name,
    /// What gives its key.
    pub key: Expr,
}

/// A statement. The variable that it sets comes first.
#[derive(Drop)]
pub enum Stmt {
    /// Sets a variable.
    Let(Name, Expr),
    /// Schedules an activity with an argument; the variable is its handle.
    Spawn(Name, Name, Expr),
    /// Schedules an activity and awaits it.
    Call(Name, Name, Expr),
    /// Starts an instance of a flow with a key and an argument.
    Sub(Name, Name, Expr, Expr),
    /// Asks an entity of a class and key for an operation with an argument.
    Ask(Name, Name, Expr, Name, Expr),
    /// A timer that is due after so long.
    Timer(Name, Expr),
    /// The next event of a name.
    Event(Name, Name),
    /// Waits for a handle's result.
    Await(Name, Expr),
    /// Waits for the results of all handles.
    All(Name, Expr),
    /// Waits for the first result of some handles.
    Any(Name, Expr),
    /// Sends an entity of a class and key an operation with an argument.
    Signal(Name, Expr, Name, Expr),
    /// Locks entities for as long as the body runs.
    Lock(Vec<Locked>, Vec<Stmt>),
    /// One of two bodies, as the test is true or false.
    If(Expr, Vec<Stmt>, Vec<Stmt>),
    /// The body as long as the test is true.
    While(Expr, Vec<Stmt>),
    /// The body; a fault in it sets the variable and goes on with the handler.
    Try(Vec<Stmt>, Name, Vec<Stmt>),
    /// Ends with a value.
    Return(Expr),
    /// Throws a text.
    Fail(Expr),
}
