//! Prints what the system file on standard input describes, or with the argument `exchange` what an input of that program holds.
#![tactic(auto)]

use description::{describe_from, describe_input_from};
use std::env::{self, Args};
use std::process::ExitCode;
use streams::finish;

/// The status of a program whose arguments are refused.
const FAILED: u8 = 1;

/// What is to be described.
#[derive(Clone, Copy)]
enum Subject {
    SystemFile,
    Input,
}

/// What the arguments behind the name of the program ask for, if there is a description of it.
fn subject_of(mut arguments: Args) -> Option<Subject> {
    arguments.next();
    let Some(word) = arguments.next() else {
        return Some(Subject::SystemFile);
    };
    if word.as_str() == "exchange" && arguments.next().is_none() {
        Some(Subject::Input)
    } else {
        None
    }
}

fn main(rt: HostRuntime) -> ExitCode {
    let Ok(arguments) = env::args(&rt) else {
        // a message that cannot be printed changes nothing
        let _ = rt.eprintln("the arguments cannot be read");
        return ExitCode::from(FAILED);
    };
    let heap = rt.alloc();
    match subject_of(arguments) {
        Some(Subject::SystemFile) => finish(
            &rt,
            describe_from(heap, &mut rt.stdin(), &mut rt.stdout()),
        ),
        Some(Subject::Input) => finish(
            &rt,
            describe_input_from(heap, &mut rt.stdin(), &mut rt.stdout()),
        ),
        None => {
            let _ = rt.eprintln("usage: describe [exchange]");
            ExitCode::from(FAILED)
        }
    }
}
