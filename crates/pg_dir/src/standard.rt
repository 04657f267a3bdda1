// The standard streams.
use std::io::{self, ErrorKind, Read, Write};
use std::os::fd::AsFd;

/// A standard stream, where it was open when the program began. The number of one that was closed goes to the next file
/// that is opened, so nothing may be read or written by that number.
#[derive(Drop)]
pub struct Standard<S> {
    stream: Option<S>,
}

impl<S: AsFd + Drop> Standard<S> {
    /// Is called before any file is opened.
    pub fn new(stream: S) -> Self {
        let is_open = stream.as_fd().try_clone_to_owned().is_ok();
        Standard {
            stream: is_open.then_some(stream),
        }
    }
}

fn closed() -> io::Error {
    io::Error::from(ErrorKind::NotConnected)
}

impl<S: Write> Write for Standard<S> {
    fn write(&mut self, buf: &[u8]) -> io::Result<usize> {
        match &mut self.stream {
            Some(stream) => stream.write(buf),
            None => Err(closed()),
        }
    }

    fn flush(&mut self) -> io::Result<()> {
        match &mut self.stream {
            Some(stream) => stream.flush(),
            None => Err(closed()),
        }
    }
}

impl<S: Read> Read for Standard<S> {
    fn read(&mut self, buf: &mut [u8]) -> io::Result<usize> {
        match &mut self.stream {
            Some(stream) => stream.read(buf),
            None => Err(closed()),
        }
    }
}
