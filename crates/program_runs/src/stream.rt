//! Streams that do what streams may do.
use std::alloc::Global;
use std::io::{Error, ErrorKind, Read, Result, Write};

/// How often each part is interrupted before it goes through.
const INTERRUPTIONS: u32 = 3;

/// Parts that grow: the first has one byte, the next two, and so on. Each is interrupted some times before.
#[derive(Drop)]
struct Parts {
    length: usize,
    interruptions_left: u32,
    interrupted: u32,
}

impl Parts {
    /// Before the first.
    fn new() -> Parts {
        Parts {
            length: 1,
            interruptions_left: INTERRUPTIONS,
            interrupted: 0,
        }
    }

    /// The length of the next part, or an interruption before it.
    fn next(&mut self) -> Result<usize> {
        if self.interruptions_left > 0 {
            self.interruptions_left -= 1;
            self.interrupted = self.interrupted.saturating_add(1);
            return Err(Error::from(ErrorKind::Interrupted));
        }
        let length = self.length;
        self.length = length.saturating_add(1);
        self.interruptions_left = INTERRUPTIONS;
        Ok(length)
    }
}

/// Bytes that come in parts.
#[derive(Drop)]
pub(crate) struct Pieces<'a> {
    left: &'a [u8],
    parts: Parts,
    /// How it fails, once, and how many bytes are left then. After that it goes on.
    failure: Option<(ErrorKind, usize)>,
}

impl<'a> Pieces<'a> {
    /// These bytes, and then the end.
    pub(crate) fn new(bytes: &'a [u8]) -> Pieces<'a> {
        Pieces {
            left: bytes,
            parts: Parts::new(),
            failure: None,
        }
    }

    /// These bytes, with one failure of that kind where so many of them are left.
    pub(crate) fn failing(bytes: &'a [u8], kind: ErrorKind, left: usize) -> Pieces<'a> {
        Pieces {
            left: bytes,
            parts: Parts::new(),
            failure: Some((kind, left)),
        }
    }

    /// How often it was interrupted so far.
    pub(crate) fn interrupted(&self) -> u32 {
        self.parts.interrupted
    }
}

impl Read for Pieces<'_> {
    fn read(&mut self, buf: &mut [u8]) -> Result<usize> {
        let mut count = self.parts.next()?.min(self.left.len()).min(buf.len());
        if let Some((kind, left)) = self.failure {
            if self.left.len() <= left {
                self.failure = None;
                return Err(Error::from(kind));
            }
            count = count.min(self.left.len() - left);
        }
        let (part, rest) = self.left.split_at(count);
        buf[..count].copy_from_slice(part);
        self.left = rest;
        Ok(count)
    }
}

/// An output that takes bytes in parts, and passes them on when it is flushed.
#[derive(Drop)]
pub(crate) struct Outlet {
    room: usize,
    parts: Parts,
    fails_to_flush: bool,
    /// All that it took.
    pub(crate) taken: Vec<u8>,
    /// How many bytes of that it has passed on.
    pub(crate) passed: usize,
}

impl Outlet {
    /// An output with room for so many bytes.
    pub(crate) fn new(heap: Global, room: usize) -> Outlet {
        Outlet {
            room,
            parts: Parts::new(),
            fails_to_flush: false,
            taken: Vec::new(heap),
            passed: 0,
        }
    }

    /// An output that takes everything, and fails where it is to pass it on.
    pub(crate) fn failing(heap: Global) -> Outlet {
        Outlet {
            fails_to_flush: true,
            ..Outlet::new(heap, usize::MAX)
        }
    }
}

impl Write for Outlet {
    fn write(&mut self, buf: &[u8]) -> Result<usize> {
        let count = self.parts.next()?.min(buf.len()).min(self.room);
        self.taken.extend_from_slice(&buf[..count])?;
        self.room -= count;
        Ok(count)
    }

    fn flush(&mut self) -> Result<()> {
        if self.fails_to_flush {
            return Err(Error::from(ErrorKind::BrokenPipe));
        }
        self.passed = self.taken.len();
        Ok(())
    }
}
