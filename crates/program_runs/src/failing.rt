//! Runs over streams that fail.
use crate::stream::{Outlet, Pieces};
use crate::subject::Subject;
use report::tell_no_memory;
use std::io::{ErrorKind, Write};
use streams::{Ending, Failure};

/// The sample of `exchange`.
static INPUT: [u8; 29] = [
    0x03, 0x01, 0x01, 0x0A, 0x01, 0x01, 0x00, 0x02, 0x01, 0x0A, 0x01, 0x02, 0x00, 0x01, 0x12, 0x01,
    0x01, 0x01, 0x56, 0x00, 0x00, 0x00, 0x53, 0x00, 0x01, 0x56, 0x00, 0x00, 0x00,
];

/// The sample of `describe`.
static FILE: [u8; 15] = [
    0x02, 0x02, 0x0A, 0x01, 0x02, 0x01, 0x00, 0x01, 0x13, 0x80, 0x7D, 0x01, 0x02, 0x01, 0x00,
];

/// How an input fails.
const KINDS: [ErrorKind; 3] = [
    ErrorKind::ConnectionReset,
    ErrorKind::TimedOut,
    ErrorKind::WouldBlock,
];

/// How many bytes of output there is room for, once for all and once for a part.
const ROOMS: [usize; 2] = [1_000, 20];

/// Prints how a run ended, what the output took and how much of it was passed on.
fn tell_end(
    rt: &HostRuntime,
    ended: Result<Ending, Failure>,
    output: &Outlet,
) -> anyhow::Result<()> {
    match ended {
        Ok(ending) => println!(rt; "status {}", ending.status())?,
        Err(failure) => println!(rt; "{failure}")?,
    }
    println!(rt;
        "{} bytes taken, {} passed on",
        output.taken.len(),
        output.passed
    )?;
    rt.stdout().write_all(&output.taken)?;
    println!(rt; "")?;
    Ok(())
}

/// Runs on an input that fails once, at its beginning, in its middle and at its end, each time in other ways.
fn tell_failing_inputs(rt: &HostRuntime, subject: Subject, input: &[u8]) -> anyhow::Result<()> {
    for left in [input.len(), input.len() / 2, 0] {
        for kind in KINDS {
            println!(rt; "{subject}, and the input fails with {left} bytes left")?;
            let mut output = Outlet::new(rt.alloc(), ROOMS[0]);
            let ended = subject.run(rt, &mut Pieces::failing(input, kind, left), &mut output);
            tell_end(rt, ended, &output)?;
        }
    }
    Ok(())
}

/// Runs on an input with outputs that have room for so many bytes, and with one that does not pass on what it took.
fn tell_outputs(rt: &HostRuntime, subject: Subject, input: &[u8]) -> anyhow::Result<()> {
    for room in ROOMS {
        println!(rt; "{subject}, and room for {room} bytes of output")?;
        let mut output = Outlet::new(rt.alloc(), room);
        let ended = subject.run(rt, &mut Pieces::new(input), &mut output);
        tell_end(rt, ended, &output)?;
    }
    println!(rt; "{subject}, and output that is not passed on")?;
    let mut output = Outlet::failing(rt.alloc());
    let ended = subject.run(rt, &mut Pieces::new(input), &mut output);
    tell_end(rt, ended, &output)
}

/// Tells that there is no memory, to outputs with more room and with less.
fn tell_no_memory_runs(rt: &HostRuntime) -> anyhow::Result<()> {
    for room in [ROOMS[0], 3] {
        println!(rt; "no memory, and room for {room} bytes of output")?;
        let mut output = Outlet::new(rt.alloc(), room);
        let ended = tell_no_memory(&mut output);
        tell_end(rt, ended, &output)?;
    }
    Ok(())
}

/// Runs each program on its sample over streams that fail.
pub(crate) fn tell_failures(rt: &HostRuntime) -> anyhow::Result<()> {
    for subject in [Subject::Exchange, Subject::File, Subject::Input] {
        let input: &[u8] = match subject {
            Subject::Exchange | Subject::Input => &INPUT,
            Subject::File => &FILE,
        };
        tell_failing_inputs(rt, subject, input)?;
        tell_outputs(rt, subject, input)?;
    }
    tell_no_memory_runs(rt)
}
