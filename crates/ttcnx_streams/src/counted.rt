//! A reader or a writer whose failed calls are counted.
ghost use Rattle.std.specs.Prelude.{◌≡◌, OnOk};
ghost use Rattle.std.specs.Io.{ReadsAtMost, WritesAtMost};
ghost use Rattle.std.specs.Io.KnownBytes.{Appends, Consumes, Keeps, ReadConsumes, WriteAppends};
ghost use Rattle.ttcnx_streams.specs.Counts.{behind, behind_write, one_more};

use std::io::{self, Read, Write};

/// A reader or a writer, to which each call is passed on, and how many of the calls failed.
#[derive(Debug, Drop)]
pub struct Counted<D> {
    device: D,
    failed: u64,
}

impl<D> Counted<D> {
    /// The device of which no call has failed yet.
    pub fn new(device: D) -> Counted<D>
        ensures device { result.device ≡ device }
        ensures failed { result.failed ≡ 0 }
    {
        Counted { device, failed: 0 }
    }

    /// How many calls failed. The count stays at its greatest once it is there.
    pub fn failed(&self) -> u64
        ensures { result ≡ self.now.failed }
    {
        self.failed
    }

    /// The device itself.
    pub fn into_inner(self) -> D
        ensures { result ≡ self.device }
    {
        self.device
    }

    fn count(&mut self)
        ensures device { self.new.device ≡ self.old.device }
        ensures failed { self.new.failed ≡ one_more self.old.failed }
    {
        self.failed = self.failed.saturating_add(1);
    }
}

impl<D: Read> Read for Counted<D> {
    ghost remaining = { λ counted. D.remaining counted.device };

    fn read(&mut self, buf: &mut [u8]) -> io::Result<usize>
        ensures bound { ReadsAtMost result buf.new }
        ensures bytes { ReadConsumes (D.remaining self.old.device) (D.remaining self.new.device) result buf.new }
        ensures failed { self.new.failed ≡ behind result self.old.failed }
    {
        let given = self.device.read(buf);
        if given.is_err() {
            self.count();
        }
        given
    }

    fn read_exact(&mut self, buf: &mut [u8]) -> io::Result<()>
        ensures bytes { OnOk result (Consumes (D.remaining self.old.device) (D.remaining self.new.device) buf.new) }
        ensures failed { self.new.failed ≡ behind result self.old.failed }
    {
        let filled = self.device.read_exact(buf);
        if filled.is_err() {
            self.count();
        }
        filled
    }
}

/// A write that takes no byte counts as failed, too.
impl<D: Write> Write for Counted<D> {
    ghost contents = { λ counted. D.contents counted.device };

    fn write(&mut self, buf: &[u8]) -> io::Result<usize>
        ensures bound { WritesAtMost result buf.now }
        ensures bytes { WriteAppends (D.contents self.old.device) (D.contents self.new.device) result buf.now }
        ensures failed { self.new.failed ≡ behind_write result self.old.failed }
    {
        let taken = self.device.write(buf);
        if matches!(&taken, Ok(0) | Err(_)) {
            self.count();
        }
        taken
    }

    fn flush(&mut self) -> io::Result<()>
        ensures bytes { Keeps (D.contents self.old.device) (D.contents self.new.device) }
        ensures failed { self.new.failed ≡ behind result self.old.failed }
    {
        let flushed = self.device.flush();
        if flushed.is_err() {
            self.count();
        }
        flushed
    }

    fn write_all(&mut self, buf: &[u8]) -> io::Result<()>
        ensures bytes { OnOk result (Appends (D.contents self.old.device) (D.contents self.new.device) buf.now) }
        ensures failed { self.new.failed ≡ behind result self.old.failed }
    {
        let taken = self.device.write_all(buf);
        if taken.is_err() {
            self.count();
        }
        taken
    }
}
