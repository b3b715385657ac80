//! Readers and writers that are slow, or fail.
use std::io;
use std::io::{ErrorKind, Read, Write};

/// Gives the bytes one by one, each after an interruption. It fails after as many reads as its patience.
#[derive(Drop)]
pub struct Slow<'a> {
    bytes: &'a [u8],
    ready: bool,
    patience: usize,
    fault: ErrorKind,
}

impl<'a> Slow<'a> {
    pub fn new(bytes: &'a [u8], patience: usize, fault: ErrorKind) -> Slow<'a> {
        Slow {
            bytes,
            ready: true,
            patience,
            fault,
        }
    }
}

impl<'a> Read for Slow<'a> {
    fn read(&mut self, buf: &mut [u8]) -> io::Result<usize> {
        if self.patience == 0 {
            return Err(io::Error::from(self.fault));
        }
        self.patience -= 1;
        self.ready = !self.ready;
        if !self.ready {
            return Err(io::Error::from(ErrorKind::Interrupted));
        }
        match (self.bytes, buf.first_mut()) {
            ([first, others @ ..], Some(place)) => {
                *place = *first;
                self.bytes = others;
                Ok(1)
            }
            _ => Ok(0),
        }
    }
}

/// Takes `room` bytes, and may refuse to be flushed.
#[derive(Drop)]
pub struct Full {
    pub room: usize,
    pub flushes: bool,
}

impl Write for Full {
    fn write(&mut self, buf: &[u8]) -> io::Result<usize> {
        if self.room == 0 {
            return Err(io::Error::from(ErrorKind::StorageFull));
        }
        let count = self.room.min(buf.len());
        self.room -= count;
        Ok(count)
    }

    fn flush(&mut self) -> io::Result<()> {
        if self.flushes {
            return Ok(());
        }
        Err(io::Error::from(ErrorKind::StorageFull))
    }
}

/// Takes no byte, and reports no error.
#[derive(Drop)]
pub struct Stuck {}

impl Write for Stuck {
    fn write(&mut self, _buf: &[u8]) -> io::Result<usize> {
        Ok(0)
    }

    fn flush(&mut self) -> io::Result<()> {
        Ok(())
    }
}
