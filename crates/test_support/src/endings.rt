//! How calls end that write an output and tell faults.

/// How a call ends: its status, its output, and its standard error.
pub type Ending<'a, S> = (S, &'a str, &'a str);

/// An ending in bytes, as a call leaves them.
pub fn in_bytes<'a, S>(ending: Ending<'a, S>) -> (S, &'a [u8], &'a [u8]) {
    let (status, out, err) = ending;
    (status, out.as_bytes(), err.as_bytes())
}
