//! Runs the whole of `exchange` and `describe` on inputs, one after the other: each stands on standard input behind a letter for the program and its length in three bytes, the highest first. Each comes from a stream that gives a part at a time and is interrupted before each.
#![tactic(auto)]

mod failing;
mod frame;
mod stream;
mod subject;

use anyhow::bail;
use failing::tell_failures;
use frame::{Frame, take_frame};
use std::io::{Read, Write};
use stream::Pieces;

/// The sum of the bytes.
fn sum_of(bytes: &[u8]) -> u64 {
    let mut sum = 0u64;
    for byte in bytes {
        sum = sum.wrapping_add(u64::from(*byte));
    }
    sum
}

/// Runs on one input, and prints what was written, or its sum alone, and how the program ends.
fn tell_run(rt: &HostRuntime, run: usize, frame: &Frame<'_>) -> anyhow::Result<()> {
    let Frame {
        subject,
        is_whole,
        input,
    } = frame;
    println!(rt; "run {run}, {subject}, {} bytes", input.len())?;
    let mut written: Vec<u8> = Vec::new(rt.alloc());
    let mut pieces = Pieces::new(input);
    let ended = subject.run(rt, &mut pieces, &mut written);
    if pieces.interrupted() == 0 {
        bail!("an input came without an interruption");
    }
    if *is_whole {
        rt.stdout().write_all(&written)?;
    } else {
        println!(rt; "{} bytes of sum {}", written.len(), sum_of(&written))?;
    }
    match ended {
        Ok(ending) => println!(rt; "status {}", ending.status())?,
        Err(failure) => println!(rt; "{failure}")?,
    }
    Ok(())
}

fn main(rt: HostRuntime) -> anyhow::Result<()> {
    let mut bytes = Vec::new(rt.alloc());
    rt.stdin().read_to_end(&mut bytes)?;
    tell_failures(&rt)?;
    let mut rest: &[u8] = &bytes;
    for run in 0..bytes.len() {
        if rest.is_empty() {
            return Ok(());
        }
        let Some((frame, behind)) = take_frame(rest) else {
            bail!("an input is cut short");
        };
        tell_run(&rt, run, &frame)?;
        rest = behind;
    }
    Ok(())
}
