//! What the loop that refuses each request in turn finds of a call.

use path_model::OutOfMemory;
use std::alloc::{Allocator, Global};
use std::process::Abort;
use test_support::{Refusing, refuse_in_turn};

// Makes one request, and answers this.
fn one_request<A: Allocator + Copy>(alloc: A, answer: bool) -> Result<bool, OutOfMemory> {
    let bytes: Vec<u8, A> = Vec::with_capacity(alloc, 8)?;
    drop(bytes);
    Ok(answer)
}

// What is found of a call that makes one request and answers this.
fn found(heap: Global, answer: bool) -> Result<(), u64> {
    refuse_in_turn(heap, OutOfMemory, |refusing: &Refusing<Global>| {
        one_request(refusing, answer)
    })
}

// What is found of a call that tells its refusal so.
fn found_of_refusal(heap: Global, told: u8) -> Result<(), u64> {
    refuse_in_turn(heap, 6u8, |refusing: &Refusing<Global>| {
        match one_request(refusing, true) {
            Ok(is_right) => Ok(is_right),
            Err(_) => Err(told),
        }
    })
}

// What is found of a call that makes no request.
fn found_of_none(heap: Global) -> Result<(), u64> {
    refuse_in_turn(heap, OutOfMemory, |_refusing: &Refusing<Global>| Ok(true))
}

// Checks what was found.
fn expect_found(rt: &impl Abort, found: Result<(), u64>, want: Result<(), u64>) {
    assert_eq!(rt; found, want);
}

#[test]
fn a_call_that_answers_as_it_must(rt: HostRuntime) {
    expect_found(&rt, found(rt.alloc(), true), Ok(()));
    expect_found(&rt, found_of_refusal(rt.alloc(), 6), Ok(()));
}

#[test]
fn calls_that_answer_otherwise(rt: HostRuntime) {
    expect_found(&rt, found(rt.alloc(), false), Err(2));
    expect_found(&rt, found_of_refusal(rt.alloc(), 5), Err(1));
    expect_found(&rt, found_of_none(rt.alloc()), Err(1));
}
