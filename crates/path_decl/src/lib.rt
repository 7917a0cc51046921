//! Declarations: resources, operations and paths.
//!
//! `specs/Text.antt` defines which bytes are which declaration. The crate path_read reads them.
#![tactic(auto)]

mod decl;
mod equal;
mod naming;
mod totals;

pub use decl::{
    Decl, Names, PathEntry, counts, law_of, op_name, operation, path_resource, paths_of, resource,
    resource_name, resource_of, tree_of,
};
pub use equal::{is_same_declaration, is_same_tree};
pub use totals::Counts;
