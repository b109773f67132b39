//! Serving a script.
ghost use Rattle.std.specs.Prelude.{◌≡◌, ◌≢◌, false, OnOk, OnErr, IfErr};
ghost use Rattle.std.specs.Io.KnownBytes.{Appends};
ghost use Rattle.mls_server.specs.Servers.{world_of};
ghost use Rattle.mls_server.specs.Worlds.{MarksAreExact, MarksAreRight};
ghost use Rattle.mls_wire.specs.ReadBack.{JournalsReadBack};
ghost use Rattle.mls_wire.specs.ScriptLines.{bytes_of_line};
ghost use Rattle.mls_wire.specs.Serving.{AppendsFront, WritesRun, WritesCutRun, WritesLine, WritesCutLine, HasReason};
ghost use Rattle.mls_wire.specs.Watches.{HasCause};

use crate::reader::{LineReader, NextLine};
use crate::{ReadFault, ScriptLine, Watched, WriteFault, push_response, respond};
use mls_server::Server;
use std::alloc::{AllocError, Global};
use std::io::{Read, Write};
use thiserror::Error;

/// How many bytes the memory for a reply may have to stay for the next one.
const KEPT_BYTES: usize = 65_536;

/// Why a script was left before its end.
#[derive(Clone, Copy, Debug, PartialEq, Eq, Error)]
#[error("{}", self.text())]
pub enum ServeFault {
    /// The input failed.
    Read,
    /// The output failed.
    Write,
    /// Memory ran out.
    Memory,
}

impl ServeFault {
    ghost use Rattle.mls_wire.specs.Serving.{serve_fault_text};

    /// Returns the fault's text.
    pub fn text(self) -> &'static str
        ensures { result.now ≡ serve_fault_text self }
    {
        match self {
            ServeFault::Read => "input failed",
            ServeFault::Write => "output failed",
            ServeFault::Memory => "memory",
        }
    }
}

impl From<ReadFault> for ServeFault {
    ghost use Rattle.mls_wire.specs.declared.serving.ServeFault.TheVariants.{Read as ReadVariant};

    ghost from_gives = { λ _ fault. fault ≡ ReadVariant };

    fn from(_fault: ReadFault) -> ServeFault {
        ServeFault::Read
    }
}

impl From<WriteFault> for ServeFault {
    ghost use Rattle.mls_wire.specs.declared.serving.ServeFault.TheVariants.{Write as WriteVariant};

    ghost from_gives = { λ _ fault. fault ≡ WriteVariant };

    fn from(_fault: WriteFault) -> ServeFault {
        ServeFault::Write
    }
}

impl From<AllocError> for ServeFault {
    ghost use Rattle.mls_wire.specs.declared.serving.ServeFault.TheVariants.{Memory};

    ghost from_gives = { λ _ fault. fault ≡ Memory };

    fn from(_fault: AllocError) -> ServeFault {
        ServeFault::Memory
    }
}

/// Serves a script: runs its lines one after another, and writes and flushes the reply to each before more is read.
///
/// The lines that `%journal` writes for a command say that command, and those for check steps do as many.
///
/// At a [`ServeFault::Read`] the whole lines that were read have their replies, and a line of which only a beginning
/// was read is lost. At the other faults the last line was run too, and a beginning of its reply was written, or
/// nothing where memory ran out.
pub fn serve<R: Read, W: Write>(
    alloc: Global,
    server: &mut Server,
    input: &mut Watched<R>,
    output: &mut Watched<W>,
) -> Result<(), ServeFault>
    requires input_sound { input.old.failed ≡ false }
    requires output_sound { output.old.failed ≡ false }
    ensures run { OnOk result (WritesRun (world_of server.old) (R.remaining input.old.device)
        (W.contents output.old.device) (W.contents output.new.device) (world_of server.new)) }
    ensures cut { IfErr result (λ fault. WritesCutRun (world_of server.old) fault
        (R.remaining input.old.device) (R.remaining input.new.device)
        (W.contents output.old.device) (W.contents output.new.device) (world_of server.new)) }
    ensures cause { IfErr result (λ fault. HasReason fault input.new output.new) }
    ensures sound { OnOk result ((input.new.failed ≡ false) × (output.new.failed ≡ false)) }
    ensures marks_right { MarksAreRight (world_of server.new) }
    ensures marks_exact { MarksAreExact (world_of server.new) }
    ensures setting { (world_of server.new).setting ≡ (world_of server.old).setting }
    ensures reads_back { JournalsReadBack (world_of server.old).setting }
{
    prove!(!input.failed() && !output.failed());
    // For its contract alone: the marks are exact at first, where nothing is read.
    server.stays_sound();
    // For its contract alone: a journal's lines play it again.
    server.tech().types();
    let mut reader = LineReader::new();
    let mut text = Vec::new(alloc);
    let mut n: u128 = 1;
    'lines: loop {
        match reader.next_line(input)? {
            NextLine::End => return Ok(()),
            NextLine::LastLine => return serve_line(
                alloc,
                server,
                n,
                reader.line(),
                &mut text,
                output,
            ),
            NextLine::Line => serve_line(alloc, server, n, reader.line(), &mut text, output)?,
        }
        n += 1;
    }
}

/// Runs line `n`, and writes and flushes its reply.
fn serve_line<W: Write>(
    alloc: Global,
    server: &mut Server,
    n: u128,
    line: ScriptLine<'_>,
    text: &mut Vec<u8>,
    output: &mut Watched<W>,
) -> Result<(), ServeFault>
    ensures done { OnOk result (WritesLine (world_of server.old) n (bytes_of_line line.entry)
        (W.contents output.old.device) (W.contents output.new.device) (world_of server.new)) }
    ensures cut { IfErr result (λ fault. WritesCutLine (world_of server.old) n (bytes_of_line line.entry) fault
        (W.contents output.old.device) (W.contents output.new.device) (world_of server.new)) }
    ensures marks_right { MarksAreRight (world_of server.new) }
    ensures marks_exact { MarksAreExact (world_of server.new) }
    ensures setting { (world_of server.new).setting ≡ (world_of server.old).setting }
    ensures failed { OnOk result (output.new.failed ≡ output.old.failed) }
    ensures kind { IfErr result (λ fault. fault ≢ ServeFault.Read) }
    ensures cause { IfErr result (λ fault. fault ≡ ServeFault.Write → HasCause output.new) }
{
    let pushed = {
        let response = respond(alloc, server, line);
        // For its contract alone: the marks are exact after the line.
        server.stays_sound();
        text.clear();
        push_response(server, n, &response, text)
    };
    pushed?;
    send(text, output)?;
    if text.capacity() > KEPT_BYTES {
        *text = Vec::new(alloc);
    }
    Ok(())
}

/// Writes bytes and flushes them.
///
/// # Errors
///
/// The output failed. A beginning of the bytes was written then.
pub fn send<W: Write>(bytes: &[u8], output: &mut Watched<W>) -> Result<(), WriteFault>
    ensures ok { OnOk result (Appends (W.contents output.old.device) (W.contents output.new.device) bytes.now) }
    ensures err { OnErr result (AppendsFront (W.contents output.old.device) (W.contents output.new.device) bytes.now) }
    ensures failed { OnOk result (output.new.failed ≡ output.old.failed) }
    ensures cause { OnErr result (HasCause output.new) }
{
    output.write_whole(bytes)?;
    output.flush()
}
