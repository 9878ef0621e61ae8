//! The programs that are run.
use description::{describe_from, describe_input_from};
use report::exchange;
use std::fmt;
use std::io::{Read, Write};
use streams::{Ending, Failure};

/// A program, and of `describe` what it describes.
#[derive(Clone, Copy)]
pub(crate) enum Subject {
    Exchange,
    File,
    Input,
}

impl Subject {
    /// Runs the program over the streams.
    pub(crate) fn run<R: Read, W: Write>(
        self,
        rt: &HostRuntime,
        reader: &mut R,
        writer: &mut W,
    ) -> Result<Ending, Failure> {
        match self {
            Subject::Exchange => exchange(rt.alloc(), reader, writer),
            Subject::File => describe_from(rt.alloc(), reader, writer),
            Subject::Input => describe_input_from(rt.alloc(), reader, writer),
        }
    }
}

impl fmt::Display for Subject {
    fn fmt<W: fmt::Write>(&self, f: &mut fmt::Formatter<W>) -> fmt::Result {
        match self {
            Subject::Exchange => write!(f, "E"),
            Subject::File => write!(f, "F"),
            Subject::Input => write!(f, "I"),
        }
    }
}
