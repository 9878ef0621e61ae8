//! Describes inputs of `exchange`, one after the other: each stands on standard input behind its length in two bytes, the higher first.
#![tactic(auto)]

use anyhow::bail;
use description::print_input;
use std::io::Read;

/// The first input, and what stands behind it; none where the bytes do not begin with one.
fn take_input(bytes: &[u8]) -> Option<(&[u8], &[u8])> {
    let [high, low, rest @ ..] = bytes else {
        return None;
    };
    rest.split_at_checked(usize::from(u16::from_be_bytes([*high, *low])))
}

/// Prints the description of one input.
fn tell_description(rt: &HostRuntime, case: usize, input: &[u8]) -> anyhow::Result<()> {
    println!(rt; "case {case}, {} bytes", input.len())?;
    if let Err(failure) = print_input(rt.alloc(), input, &mut rt.stdout()) {
        bail!("{failure}");
    }
    Ok(())
}

fn main(rt: HostRuntime) -> anyhow::Result<()> {
    let mut bytes = Vec::new(rt.alloc());
    rt.stdin().read_to_end(&mut bytes)?;
    let mut rest: &[u8] = &bytes;
    for case in 0..bytes.len() {
        if rest.is_empty() {
            return Ok(());
        }
        let Some((input, behind)) = take_input(rest) else {
            bail!("an input is cut short");
        };
        tell_description(&rt, case, input)?;
        rest = behind;
    }
    Ok(())
}
