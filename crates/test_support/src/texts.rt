//! Texts that several crates of tests give to a command, and what comes of them.

/// A declaration whose one path is a burst of its one operation.
pub const LONE_BURST: &str = "resource r cell operation a path { a } end end";

/// What it is compiled to.
pub const LONE_BURST_COMPILED: &str =
    "path 0 of r\ns0 = 1\nc0 = 0\nm0 = 1\na: PP(c0,m0,P(s0)) | VV(c0,m0,V(s0))\ntrimmed\n\
     path 0 of r\nremoved s0 c0 m0\na: - | -\n";
