//! Measures the calls of a system: `bench_calls ROUNDS`. In each round one worker starts and finishes a deposit and a removal of a slot,
//! first by attempts, then by `start` and `finish`. Standard output has how many were admitted, standard error the times.
#![tactic(auto)]

mod rounds;

use crate::rounds::timed;
use anyhow::{Context, Result};
use std::env;

fn main(rt: HostRuntime) -> Result<()> {
    let words: Vec<String> = env::args(&rt)?.collect(rt.alloc())?;
    let word = words.get(1).context("usage: bench_calls ROUNDS")?;
    let rounds: u32 = word.parse()?;
    let times = timed(&rt, rt.alloc(), rounds)?;
    println!(rt; "calls: {} admitted", times.admitted)?;
    let half = (times.admitted / 2).max(1);
    eprintln!(rt;
        "{} ps an attempt by step, {} ps by start and finish",
        times.steps.saturating_mul(1_000) / half,
        times.calls.saturating_mul(1_000) / half
    )?;
    Ok(())
}
