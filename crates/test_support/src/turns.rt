//! The loop that refuses each request of a call in turn: a test can check what follows when allocation fails at any point.

use crate::refusing::Refusing;
use std::alloc::Allocator;

/// More requests than any call of a test makes.
const ENOUGH: u64 = 1_000;

/// Whether a call of this answer passed, where one request of it may have been refused; `None` where it has answered wrongly.
fn passed<E: Copy + PartialEq>(
    number: u64,
    has_refused: bool,
    answer: Result<bool, E>,
    wanting: E,
) -> Option<bool> {
    match answer {
        Ok(is_right) => (is_right && number > 1 && !has_refused).then_some(true),
        Err(fault) => (fault == wanting && has_refused).then_some(false),
    }
}

/// Refuses the first request of a call, then the second, and so on until the call passes. `Ok` has how many requests were
/// refused, at least one, if each refusal was answered `wanting`, and where none was left to refuse the call answered `true`. Else
/// `Err` has the number of the request that was to be refused when it answered otherwise.
pub fn count_refusals<B, E, F>(heap: B, wanting: E, call: F) -> Result<u64, u64>
where
    B: Allocator + Copy,
    E: Copy + PartialEq,
    F: Fn(&Refusing<B>) -> Result<bool, E> + Drop,
    requires { F.IsAlwaysCallable call }
{
    for number in 1..ENOUGH {
        let refusing = Refusing::new(heap, number);
        let answer = call(&refusing);
        match passed(number, refusing.has_refused(), answer, wanting) {
            Some(true) => return Ok(number - 1),
            Some(false) => {}
            None => return Err(number),
        }
    }
    Err(ENOUGH)
}

/// Refuses each request of a call in turn, as `count_refusals` does. `Ok` if at least one was refused and each call answered as
/// it must, else `Err` has the number of the request that was to be refused when it answered otherwise.
pub fn refuse_in_turn<B, E, F>(heap: B, wanting: E, call: F) -> Result<(), u64>
where
    B: Allocator + Copy,
    E: Copy + PartialEq,
    F: Fn(&Refusing<B>) -> Result<bool, E> + Drop,
    requires { F.IsAlwaysCallable call }
{
    count_refusals(heap, wanting, call)?;
    Ok(())
}
