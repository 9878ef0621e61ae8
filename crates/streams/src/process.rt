//! What a program's `main` comes back with.
ghost use Rattle.std.specs.Prelude.{◌≡◌};
ghost use Rattle.std.specs.Process.{exit_status};
ghost use Rattle.streams.specs.Ending.{ended_status};

use crate::ending::Ending;
use crate::failure::Failure;
use std::process::ExitCode;

/// The status of a program that could not read or write.
const FAILED: u8 = 1;

/// The status to end with. Where reading or writing failed, standard error is told of it, if it can be.
pub fn finish<R: Eprint>(rt: &R, ended: Result<Ending, Failure>) -> ExitCode
    ensures { exit_status result ≡ ended_status ended }
{
    match ended {
        Ok(ending) => ExitCode::from(ending.status()),
        Err(failure) => {
            let _ = rt.eprintln(failure);
            ExitCode::from(FAILED)
        }
    }
}
