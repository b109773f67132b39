//! The lines of a script, read from a device.
ghost use Rattle.std.specs.Prelude.{◌≡◌, ◌+◌, ◌<◌, ◌≤◌, ◌==◌, ℕ, List, true, false, [], ◌∷◌, ◌++◌, ◌⊎◌, length, take, position, IsTrue, IfOk, OnOk, OnErr};
ghost use Rattle.std.specs.Bool.{OnTrue, OnFalse};
ghost use Rattle.std.specs.Io.KnownBytes.{Keeps, IsAtEnd};
ghost use Rattle.mls_text.specs.Lines.{IsUnbroken};
ghost use Rattle.mls_wire.specs.LineReaders.{script_ahead, lines_left};
ghost use Rattle.mls_wire.specs.Lines as spec;
ghost use Rattle.mls_wire.specs.NextLines.{BeginsKnownLine, TakesKnownLine};
ghost use Rattle.mls_wire.specs.Watches.{IsCalled};

use crate::{ReadFault, ScriptLine, Watched};
use mls_text::{line_feed_at, without_return};
use std::io::Read;
use std::marker::Model;

/// The most bytes that a line may have, without its line feed and a carriage return before that.
const LINE_LIMIT: usize = 1024;

/// The most bytes that are kept of a line: enough to see that it is too long, even where the last of them is a
/// carriage return.
const KEPT: usize = LINE_LIMIT + 2;

/// The most bytes that are read ahead.
const AHEAD: usize = 4096;

/// What a script has next.
#[derive(Clone, Copy)]
pub enum NextLine {
    /// Nothing: the script has ended.
    End,
    /// A line that ends with a line feed.
    Line,
    /// A line that ends with the script.
    LastLine,
}

/// Reads the lines of a script one by one.
///
/// It reads from the device only where no whole line is ahead, and it keeps at most 4096 bytes ahead and 1026 of a
/// line.
#[derive(Drop)]
pub struct LineReader {
    bytes: [u8; AHEAD],
    start: usize,
    end: usize,
    kept: [u8; KEPT],
    len: usize,
}

impl Model for LineReader {
    ghost use Rattle.std.specs.Prelude.{◌≤◌, take, slice_range};
    ghost use Rattle.mls_wire.specs.LineReaders.{LineReader};
    ghost use Rattle.mls_wire.specs.declared.reader.TheConstants.{AHEAD, KEPT};

    ghost Value = { LineReader };

    ghost view = { λ r. record { ahead = slice_range r.bytes r.start r.end; line = take r.len r.kept } };

    ghost invariant = { λ r. (r.start ≤ r.end) × (r.end ≤ AHEAD) × (r.len ≤ KEPT) };
}

impl LineReader {
    ghost use Rattle.mls_wire.specs.ScriptLines.{bytes_of_line};

    /// Creates a reader that has read nothing yet.
    pub fn new() -> LineReader
        ensures { result ≡ record { ahead = []; line = [] } }
    {
        LineReader {
            bytes: [0; AHEAD],
            start: 0,
            end: 0,
            kept: [0; KEPT],
            len: 0,
        }
    }

    /// Returns the line that was read last.
    pub fn line(&self) -> ScriptLine<'_>
        ensures { bytes_of_line result ≡ spec.line_if_short self.now.line }
    {
        let line = without_return(&self.kept[..self.len]);
        if line.len() > LINE_LIMIT {
            ScriptLine::TooLong
        } else {
            ScriptLine::Text(line)
        }
    }

    /// Reads the next line, which `line` then returns. At an `Err` what was read of the line is lost.
    pub fn next_line<R: Read>(&mut self, input: &mut Watched<R>) -> Result<NextLine, ReadFault>
        ensures taken { IfOk result (λ next. TakesKnownLine
            (script_ahead self.old (R.remaining input.old.device))
            (script_ahead self.new (R.remaining input.new.device)) next self.new.line) }
        ensures begun { OnErr result (BeginsKnownLine
            (script_ahead self.old (R.remaining input.old.device)) (R.remaining input.new.device)) }
        ensures within { OnOk result (length self.new.ahead ≤ AHEAD) }
        ensures needed { IsUnbroken self.old.ahead ⊎ (input.new ≡ input.old) }
        ensures fewer { OnOk result (lines_left self.new input.new < lines_left self.old input.old) }
        ensures called { IsCalled result input.old input.new }
    {
        self.len = 0;
        'chunks: while !self.take_to_newline() {
            if !self.read_ahead(input)? {
                if self.len > 0 {
                    return Ok(NextLine::LastLine);
                }
                return Ok(NextLine::End);
            }
        }
        Ok(NextLine::Line)
    }

    /// Moves what was read ahead to the line, up to the first line feed, which is dropped. Returns whether there was
    /// one.
    fn take_to_newline(&mut self) -> bool
        ensures fed { OnTrue result ((chunk : List ℕ) × IsUnbroken chunk
            × (self.old.ahead ≡ chunk ++ 10 ∷ self.new.ahead)
            × (self.new.line ≡ take KEPT (self.old.line ++ chunk))) }
        ensures all { OnFalse result (IsUnbroken self.old.ahead
            × (self.new.ahead ≡ [])
            × (self.new.line ≡ take KEPT (self.old.line ++ self.old.ahead))) }
        ensures within { length self.new.ahead ≤ AHEAD }
    {
        let kept = &mut self.kept;
        let bytes = &self.bytes[..];
        let ahead = &bytes[self.start..self.end];
        match line_feed_at(ahead) {
            Some(count) => {
                self.len = append_within(kept, self.len, &ahead[..count]);
                self.start += count + 1;
                true
            }
            None => {
                self.len = append_within(kept, self.len, ahead);
                self.start = self.end;
                false
            }
        }
    }

    /// Reads once, and returns whether any bytes came.
    fn read_ahead<R: Read>(&mut self, input: &mut Watched<R>) -> Result<bool, ReadFault>
        requires { self.old.ahead ≡ [] }
        ensures line { self.new.line ≡ self.old.line }
        ensures kept { Keeps (script_ahead self.old (R.remaining input.old.device))
            (script_ahead self.new (R.remaining input.new.device)) }
        ensures end { IfOk result (λ came. came ≡ false
            → IsAtEnd (script_ahead self.new (R.remaining input.new.device))) }
        ensures none { OnErr result (self.new.ahead ≡ []) }
        ensures within { length self.new.ahead ≤ AHEAD }
        ensures fewer { OnOk result (input.new.calls_left < input.old.calls_left) }
        ensures called { IsCalled result input.old input.new }
    {
        let count = input.read_some(&mut self.bytes)?;
        self.start = 0;
        self.end = count;
        Ok(count > 0)
    }
}

/// Copies a chunk after the first `len` bytes of a line, as far as there is room, and returns the line's length with
/// it.
fn append_within(line: &mut [u8], len: usize, chunk: &[u8]) -> usize
    requires { len ≤ length line.old }
    ensures within { result ≤ length line.old }
    ensures bytes { take result line.new ≡ take (length line.old) (take len line.old ++ chunk.now) }
{
    let room = line.len() - len;
    let count = room.min(chunk.len());
    line[len..len + count].copy_from_slice(&chunk[..count]);
    len + count
}
