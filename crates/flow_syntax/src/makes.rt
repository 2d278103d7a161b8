//! Expressions and statements with lists in them.

ghost use Rattle.std.specs.Prelude.{◌≡◌, map};
ghost use Rattle.flow_syntax.specs.Syntax.{list, lock_in, if_then, while, try};
ghost use Rattle.flow_syntax.specs.Views.{expression_of, parts_of, locked_of, statement_of, block_of};

use crate::syntax::{Expr, Locked, Stmt};
use dura_value::Name;

impl Expr {
    /// A list of parts.
    pub fn list(parts: Vec<Expr>) -> Expr
        ensures { expression_of result ≡ list (parts_of parts.items) }
    {
        Expr::List(parts)
    }
}

impl Stmt {
    /// Locks entities for as long as the body runs.
    pub fn lock(entities: Vec<Locked>, body: Vec<Stmt>) -> Stmt
        ensures { statement_of result ≡ lock_in (map locked_of entities.items)
            (block_of body.items) }
    {
        Stmt::Lock(entities, body)
    }

    /// One of two bodies, as the test is true or false.
    pub fn if_else(test: Expr, yes: Vec<Stmt>, no: Vec<Stmt>) -> Stmt
        ensures { statement_of result ≡ if_then (expression_of test) (block_of yes.items)
            (block_of no.items) }
    {
        Stmt::If(test, yes, no)
    }

    /// The body as long as the test is true.
    pub fn repeat(test: Expr, body: Vec<Stmt>) -> Stmt
        ensures { statement_of result ≡ while (expression_of test) (block_of body.items) }
    {
        Stmt::While(test, body)
    }

    /// The body; a fault in it sets the variable and goes on with the handler.
    pub fn catch(body: Vec<Stmt>, variable: Name, handler: Vec<Stmt>) -> Stmt
        ensures { statement_of result ≡ try (block_of body.items) variable
            (block_of handler.items) }
    {
        Stmt::Try(body, variable, handler)
    }
}
