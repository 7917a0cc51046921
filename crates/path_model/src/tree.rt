//! The tree of a path expression.

use crate::ids::OpId;
use std::alloc::{Allocator, Global};

/// A path expression (Campbell and Habermann, 1974). It has no trace of parentheses.
#[derive(Drop)]
pub enum Expr<A: Allocator + Copy = Global> {
    /// One execution of the operation.
    Op(OpId),
    /// `S ; T`: first the one, then the other.
    Seq(Box<Expr<A>, A>, Box<Expr<A>, A>),
    /// `S , T`: one of the two.
    Alt(Box<Expr<A>, A>, Box<Expr<A>, A>),
    /// `{ S }`: executions that overlap, any number of them.
    Burst(Box<Expr<A>, A>),
    /// `{ S : n }`: executions that overlap, at most n at any time.
    Counted(Box<Expr<A>, A>, u32),
}
