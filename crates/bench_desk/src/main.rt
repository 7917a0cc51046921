//! Measures a desk: `bench_desk THREADS ROUNDS`. Each thread starts and finishes a read in each round; then the desk is
//! settled. Standard output has the number of receipts, standard error the times.
#![tactic(auto)]

mod readers;

use crate::readers::timed;
use anyhow::{Context, Result};
use std::env;

fn number(words: &[String], place: usize) -> Result<u32> {
    let word = words
        .get(place)
        .context("usage: bench_desk THREADS ROUNDS")?;
    Ok(word.parse()?)
}

fn main(rt: HostRuntime) -> Result<()> {
    let words: Vec<String> = env::args(&rt)?.collect(rt.alloc())?;
    let threads = number(words.as_slice(), 1)?;
    let rounds = number(words.as_slice(), 2)?;
    let times = timed(&rt, rt.alloc(), threads, rounds)?;
    println!(rt; "desk: {threads} threads, {} receipts", times.receipts)?;
    eprintln!(rt;
        "{} ns an attempt, {} ns a line to settle",
        times.attempts / times.receipts.max(1),
        times.settling / times.receipts.max(1)
    )?;
    Ok(())
}
