//! Decides the exchange of a buffer of capacity 1 for one of capacity 2, and the other way round.
#![tactic(auto)]

use anyhow::bail;
use arena::Exchange;
use docket::Docket;
use likeness::Exact;
use systems::Buffer;

/// How many pairs there are: two states with three.
const PAIRS: usize = 6;

/// Decides with no strike proposed, and prints what was decided.
fn report(rt: &HostRuntime, old: u8, new: u8) -> anyhow::Result<()> {
    let old_buffer = Buffer::new(old);
    let new_buffer = Buffer::new(new);
    let exchange = Exchange {
        old: &old_buffer,
        new: &new_buffer,
        likeness: &Exact,
    };
    let mut table = [0; PAIRS];
    // with room for every answer, since nothing is proposed
    let mut answers = Vec::new(rt.alloc());
    println!(rt; "old capacity {old}, new capacity {new}")?;
    match Docket::new().decide(&exchange, &mut table, &[], &mut answers) {
        Ok(outcome) => {
            println!(rt; "swept {}", outcome.swept)?;
            println!(rt; "standing {}", outcome.standing)?;
            let verdict = if outcome.replaces {
                "replaces"
            } else {
                "differs"
            };
            println!(rt; "{verdict}")?;
            Ok(())
        }
        Err(error) => {
            println!(rt; "{error:?}")?;
            bail!("nothing is decided");
        }
    }
}

fn main(rt: HostRuntime) -> anyhow::Result<()> {
    report(&rt, 1, 2)?;
    report(&rt, 2, 1)
}
