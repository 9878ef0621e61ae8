//! What fails outside of a program.
use std::{fmt, io};

/// What fails outside of a program that reads an input and prints what it makes of it.
#[derive(Debug, Drop)]
pub enum Failure {
    /// The input cannot be read.
    Input(io::Error),
    /// The output cannot be written.
    Output(io::Error),
}

impl fmt::Display for Failure {
    fn fmt<W: fmt::Write>(&self, f: &mut fmt::Formatter<W>) -> fmt::Result {
        match self {
            Failure::Input(error) => write!(f, "the input cannot be read: {error}"),
            Failure::Output(error) => write!(f, "the output cannot be written: {error}"),
        }
    }
}
