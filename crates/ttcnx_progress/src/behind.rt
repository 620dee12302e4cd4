//! A writer that takes the line of progress away before it writes.
use crate::Showing;
use std::io::{self, Write};

/// Passes each call on to a writer, and takes the line of progress away before.
#[derive(Drop)]
pub struct Behind<'a, G, W> {
    gate: &'a G,
    writer: W,
}

impl<'a, G, W> Behind<'a, G, W> {
    /// A writer behind a line of progress.
    pub fn new(gate: &'a G, writer: W) -> Behind<'a, G, W> {
        Behind { gate, writer }
    }
}

impl<'a, G: Showing, W: Write> Write for Behind<'a, G, W> {
    fn write(&mut self, buf: &[u8]) -> io::Result<usize> {
        self.gate.clear();
        self.writer.write(buf)
    }

    fn flush(&mut self) -> io::Result<()> {
        self.writer.flush()
    }
}
