//! Devices whose calls are counted and whose failures are noted.
ghost use Rattle.std.specs.Prelude.{◌≡◌, ◌-◌, ◌^◌, ◌<◌, ◌++◌, ℕ, List, [], true, false, length, IsOk, IfOk, OnOk, OnErr};
ghost use Rattle.std.specs.Bool.{OnTrue, OnFalse};
ghost use Rattle.std.specs.Io.{ReadsAtMost, WritesAtMost};
ghost use Rattle.std.specs.Io.KnownBytes.{Keeps, Appends, ReadConsumes, WriteAppends};
ghost use Rattle.mls_wire.specs.Watches.{IsCalled};

use crate::ServeFault;
use std::io;
use std::io::{ErrorKind, Read, Write};
use std::marker::Model;
use thiserror::Error;

/// The input failed, or had no calls left.
#[derive(Clone, Copy, Debug, PartialEq, Eq, Error)]
#[error("{}", ServeFault::Read.text())]
pub struct ReadFault;

/// The output failed, or had no calls left.
#[derive(Clone, Copy, Debug, PartialEq, Eq, Error)]
#[error("{}", ServeFault::Write.text())]
pub struct WriteFault;

/// A device that is called at most `u64::MAX` times, with a note of whether a call has failed.
///
/// A call that was interrupted is made again, and is no failure.
#[derive(Drop)]
pub struct Watched<D> {
    device: D,
    calls_left: u64,
    failed: bool,
}

impl<D> Model for Watched<D> {
    ghost use Rattle.std.specs.Prelude.{◌^◌, ◌<◌};
    ghost use Rattle.mls_wire.specs.Watches.{Watched};

    ghost Value = { Watched D };

    ghost view = { λ w. record { device = w.device; calls_left = w.calls_left; failed = w.failed } };

    ghost invariant = { λ w. w.calls_left < 2 ^ 64 };
}

impl<D> Watched<D> {
    /// Creates a watched device none of whose calls has failed.
    pub fn new(device: D) -> Watched<D>
        ensures { result ≡ record { device = device; calls_left = 2 ^ 64 - 1; failed = false } }
    {
        Watched {
            device,
            calls_left: u64::MAX,
            failed: false,
        }
    }

    /// Returns whether a call has failed.
    pub fn failed(&self) -> bool
        ensures value { result ≡ self.now.failed }
        ensures counted { self.now.calls_left < 2 ^ 64 }
    {
        self.failed
    }

    /// Returns the device.
    pub fn into_inner(self) -> D
        ensures { result ≡ self.device }
    {
        self.device
    }
}

impl<R: Read> Watched<R> {
    /// Reads once into the buffer, and returns the number of bytes read. If the buffer has room, none are read only
    /// at the end of the input. At an `Err` no byte is lost.
    pub fn read_some(&mut self, buffer: &mut [u8]) -> Result<usize, ReadFault>
        ensures bound { ReadsAtMost result buffer.new }
        ensures bytes { ReadConsumes (R.remaining self.old.device) (R.remaining self.new.device)
            result buffer.new }
        ensures fewer { OnOk result (self.new.calls_left < self.old.calls_left) }
        ensures called { IsCalled result self.old self.new }
    {
        'tries: while self.calls_left > 0 {
            self.calls_left -= 1;
            match self.device.read(buffer) {
                Ok(count) => return Ok(count),
                Err(error) => {
                    if !is_interruption(&error, &mut self.failed) {
                        return Err(ReadFault);
                    }
                }
            }
        }
        Err(ReadFault)
    }
}

impl<W: Write> Watched<W> {
    /// Writes all the bytes; for no bytes the device isn't called. At an `Err` a beginning of them was written.
    pub fn write_whole(&mut self, bytes: &[u8]) -> Result<(), WriteFault>
        ensures ok { OnOk result
            (Appends (W.contents self.old.device) (W.contents self.new.device) bytes.now) }
        ensures err { OnErr result ((front missing : List ℕ) × (bytes.now ≡ front ++ missing)
            × Appends (W.contents self.old.device) (W.contents self.new.device) front) }
        ensures empty { bytes.now ≡ [] → IsOk result × (self.new ≡ self.old) }
        ensures called { IsCalled result self.old self.new }
    {
        let mut rest = bytes;
        'chunks: while !rest.is_empty() {
            let count = self.write_some(rest)?;
            rest = &rest[count..];
        }
        Ok(())
    }

    /// Writes once, and returns the number of bytes written: at least one.
    fn write_some(&mut self, bytes: &[u8]) -> Result<usize, WriteFault>
        requires { 0 < length bytes.now }
        ensures bound { WritesAtMost result bytes.now }
        ensures some { IfOk result (λ count. 0 < count) }
        ensures bytes { WriteAppends (W.contents self.old.device) (W.contents self.new.device)
            result bytes.now }
        ensures called { IsCalled result self.old self.new }
    {
        'tries: while self.calls_left > 0 {
            self.calls_left -= 1;
            match self.device.write(bytes) {
                Ok(0) => {
                    self.failed = true;
                    return Err(WriteFault);
                }
                Ok(count) => return Ok(count),
                Err(error) => {
                    if !is_interruption(&error, &mut self.failed) {
                        return Err(WriteFault);
                    }
                }
            }
        }
        Err(WriteFault)
    }

    /// Flushes the device.
    pub fn flush(&mut self) -> Result<(), WriteFault>
        ensures bytes { Keeps (W.contents self.old.device) (W.contents self.new.device) }
        ensures fewer { OnOk result (self.new.calls_left < self.old.calls_left) }
        ensures called { IsCalled result self.old self.new }
    {
        'tries: while self.calls_left > 0 {
            self.calls_left -= 1;
            match self.device.flush() {
                Ok(()) => return Ok(()),
                Err(error) => {
                    if !is_interruption(&error, &mut self.failed) {
                        return Err(WriteFault);
                    }
                }
            }
        }
        Err(WriteFault)
    }
}

/// Returns whether a call was only interrupted and is to be made again. If not, the device has failed.
fn is_interruption(error: &io::Error, failed: &mut bool) -> bool
    ensures again { OnTrue result (failed.new ≡ failed.old) }
    ensures noted { OnFalse result (failed.new ≡ true) }
{
    let interrupted = error.kind() == ErrorKind::Interrupted;
    *failed |= !interrupted;
    interrupted
}
