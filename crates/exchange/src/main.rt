//! Decides whether a new controller may float where an old one does: standard input has a tolerance, the two types and the strikes that are proposed.
#![tactic(auto)]

use report::exchange;
use std::process::ExitCode;
use streams::finish;

fn main(rt: HostRuntime) -> ExitCode {
    finish(&rt, exchange(rt.alloc(), &mut rt.stdin(), &mut rt.stdout()))
}
