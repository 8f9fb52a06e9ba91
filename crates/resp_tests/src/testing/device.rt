//! A device that moves as many bytes a call as it is told, and fails at a chosen call.

use std::alloc::Global;
use std::io;
use std::io::{ErrorKind, Read, Write};

/// A reader that gives the bytes of a text and then ends, and a writer that keeps what it takes. It
/// counts its calls and its flushes, and notes the most bytes that it was asked for.
#[derive(Drop)]
pub struct Device {
    text: &'static [u8],
    /// How many bytes a call moves at most.
    each: usize,
    /// The call that fails, counted from 1, and how: with this kind, or by moving nothing.
    fails_at: usize,
    fault: Option<ErrorKind>,
    /// How each flush fails, if it does.
    pub flush_fault: Option<ErrorKind>,
    pub taken: Vec<u8>,
    pub calls: usize,
    pub flushes: usize,
    pub most: usize,
}

impl Device {
    /// A device that moves at most so many bytes a call.
    pub fn new(alloc: Global, text: &'static [u8], each: usize) -> Device {
        Device::failing(alloc, text, each, 0, None)
    }

    /// A device that also fails at the call of this number: with this kind, or by moving nothing.
    pub fn failing(
        alloc: Global,
        text: &'static [u8],
        each: usize,
        fails_at: usize,
        fault: Option<ErrorKind>,
    ) -> Device {
        Device {
            text,
            each,
            fails_at,
            fault,
            flush_fault: None,
            taken: Vec::new(alloc),
            calls: 0,
            flushes: 0,
            most: 0,
        }
    }

    /// Counts a call, and how many bytes it may move, or how it fails.
    fn call(&mut self, len: usize) -> io::Result<usize> {
        self.calls = self.calls.saturating_add(1);
        if self.calls != self.fails_at {
            return Ok(len.min(self.each));
        }
        match self.fault {
            Some(kind) => Err(io::Error::from(kind)),
            None => Ok(0),
        }
    }
}

impl Read for Device {
    fn read(&mut self, buf: &mut [u8]) -> io::Result<usize> {
        self.most = self.most.max(buf.len());
        let n = self.call(buf.len())?.min(buf.len()).min(self.text.len());
        let (given, left) = self.text.split_at(n);
        buf[..n].copy_from_slice(given);
        self.text = left;
        Ok(n)
    }
}

impl Write for Device {
    fn write(&mut self, bytes: &[u8]) -> io::Result<usize> {
        let n = self.call(bytes.len())?.min(bytes.len());
        self.taken.extend_from_slice(&bytes[..n])?;
        Ok(n)
    }

    fn flush(&mut self) -> io::Result<()> {
        self.flushes = self.flushes.saturating_add(1);
        match self.flush_fault {
            Some(kind) => Err(io::Error::from(kind)),
            None => Ok(()),
        }
    }
}
