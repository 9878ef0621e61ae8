//! Writes the joint of two buffers as a system file, and prints what that file describes.
#![tactic(auto)]

use description::print_file;
use files::write_system;
use std::process::ExitCode;
use streams::finish;
use systems::{Buffer, Joint};

/// Room for the file of the joint.
const ROOM: usize = 256;

/// The status of a program whose file is not written.
const FAILED: u8 = 1;

fn main(rt: HostRuntime) -> ExitCode {
    let joint = Joint::new(Buffer::new(1), Buffer::new(1));
    let mut bytes = [0; ROOM];
    if let Err(fault) = write_system(&joint, &mut bytes) {
        // a refusal is known by its number
        let _ = rt.println(format_args!("fault {}", fault.number()));
        return ExitCode::from(FAILED);
    }
    finish(&rt, print_file(rt.alloc(), &bytes, &mut rt.stdout()))
}
