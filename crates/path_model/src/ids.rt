//! Numbers of things, all counted from 0 through the whole declaration.

/// An operation, by its index among all operations of the declaration.
#[derive(Clone, Copy, Debug, PartialEq, Eq)]
pub struct OpId(pub u32);

/// A path, by its index among all paths of the declaration.
#[derive(Clone, Copy, Debug, PartialEq, Eq)]
pub struct PathId(pub u32);

/// A resource, by its index in the declaration.
#[derive(Clone, Copy, Debug, PartialEq, Eq)]
pub struct ResId(pub u32);

/// An activation, by the number of starts that were admitted before its own.
#[derive(Clone, Copy, Debug, PartialEq, Eq)]
pub struct ActId(pub u64);
