//! Reports on many inputs of `exchange`, one after the other in the same memory: each stands on standard input behind its length in two bytes, the higher first.
#![tactic(auto)]

use anyhow::bail;
use report::{Memory, report};
use std::io::{Read, Write};

/// The first input, and what stands behind it; none where the bytes do not begin with one.
fn take_input(bytes: &[u8]) -> Option<(&[u8], &[u8])> {
    let [high, low, rest @ ..] = bytes else {
        return None;
    };
    rest.split_at_checked(usize::from(u16::from_be_bytes([*high, *low])))
}

/// Prints the report on one input.
fn tell_report(
    rt: &HostRuntime,
    case: usize,
    input: &[u8],
    memory: &mut Memory,
) -> anyhow::Result<()> {
    println!(rt; "case {case}, {} bytes", input.len())?;
    // the lines tell whether it is refused
    let _ = report(input, memory);
    rt.stdout().write_all(memory.lines())?;
    Ok(())
}

fn main(rt: HostRuntime) -> anyhow::Result<()> {
    let mut bytes = Vec::new(rt.alloc());
    rt.stdin().read_to_end(&mut bytes)?;
    let mut memory = Memory::new(rt.alloc())?;
    let mut rest: &[u8] = &bytes;
    for case in 0..bytes.len() {
        if rest.is_empty() {
            return Ok(());
        }
        let Some((input, behind)) = take_input(rest) else {
            bail!("an input is cut short");
        };
        tell_report(&rt, case, input, &mut memory)?;
        rest = behind;
    }
    Ok(())
}
