//! A declaration in, its paths and operations in words out.

use crate::tests::explanations::endings::{Asked, Row};
use tell_base::Status;

/// A path of each resource, an operation that two paths name, and one that none names.
pub const DECLARATIONS: &[Row] = &[(
    "resource r cell operation a, b, c path a ; b end path { a : 2 } end end resource s tally operation d end",
    Asked::Declaration,
    Status::Done,
    "path 0 of r: path a; b end\npath 1 of r: path { a: 2 } end\na of r obeys path 0, path 1\nb of r obeys path 0\n\
         c of r obeys no path\nd of s obeys no path\n",
    "",
)];
