//! How much a declaration contains.

/// The numbers of resources, operations and paths.
#[derive(Clone, Copy, Debug, PartialEq, Eq)]
pub struct Counts {
    /// How many resources.
    pub resources: u32,
    /// How many operations, of all resources.
    pub operations: u32,
    /// How many paths, of all resources.
    pub paths: u32,
}
