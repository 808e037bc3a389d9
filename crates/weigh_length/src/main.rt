//! `weigh-length` reads a sheet's entries from standard input and prints what it read, or where and why it was refused.
#![tactic(auto)]

use lengths::weight::Length;
use lines::Lines;
use program::run::{LONGEST_INPUT, run};
use std::io::Read;

fn main(rt: HostRuntime) -> anyhow::Result<()> {
    let heap = rt.alloc();
    let mut input = Vec::new(heap);
    // One byte more than a run takes, so that a longer input shows.
    rt.stdin()
        .take(LONGEST_INPUT as u64 + 1)
        .read_to_end(&mut input)?;
    let answer = run::<Length>(heap, &input)?;
    print!(rt; "{}", Lines(&answer))?;
    Ok(())
}
