//! The reading of a whole technology file.
ghost use Rattle.std.specs.Prelude.{◌≡◌, ◌+◌, ◌==◌, None, Ok, Err, OnOk, IfErr, count_by};
ghost use Rattle.mls_tech.specs.FileLines.{content_lines};
ghost use Rattle.mls_tech.specs.Readings.{ReadsUnlessMemory, UnlessMemory, nothing_read, reading_of};
ghost use Rattle.mls_tech.specs.Readings as spec;

use super::Tech;
use crate::file_lines::FileLines;
use crate::{TechFault, TechFaultKind};
use std::alloc::Global;

impl Tech {
    /// Reads a technology file.
    ///
    /// # Errors
    ///
    /// The first fault of the file, or `Memory` if memory runs out before it is found.
    #[tactic(auto, unfolding(crate::specs::Readings::reading_of))]
    pub fn read(alloc: Global, bytes: &[u8]) -> Result<Tech, TechFault>
        ensures { ReadsUnlessMemory result (reading_of bytes.now) }
    {
        if let Err(error) = str::from_utf8(bytes) {
            return Err(TechFault {
                line: line_after(&bytes[..error.valid_up_to()]),
                kind: TechFaultKind::NotUtf8,
            });
        }
        read_lines(alloc, bytes)
    }

    /// Adds what the lines ahead state.
    fn add_lines(&mut self, alloc: Global, lines: &mut FileLines<'_>) -> Result<(), TechFault>
        ensures ok { OnOk result (spec.read_lines None self.old lines.old.ahead ≡ Ok self.new) }
        ensures err { IfErr result (λ fault.
            UnlessMemory fault.kind (spec.read_lines None self.old lines.old.ahead ≡ Err fault)) }
    {
        let mut inside = None;
        while let Some(line) = lines.advance()? {
            inside = match self.read_line(alloc, inside, line, lines) {
                Ok(section) => section,
                Err(kind) => return Err(TechFault { line, kind }),
            };
        }
        Ok(())
    }
}

/// Returns the number of the line that follows the bytes, from 1.
fn line_after(bytes: &[u8]) -> usize
    ensures { result ≡ count_by (λ b. b == 10) bytes.now + 1 }
{
    bytes.iter().filter(|b| **b == b'\n').count() + 1
}

/// Reads the lines of a file.
fn read_lines(alloc: Global, bytes: &[u8]) -> Result<Tech, TechFault>
    ensures { ReadsUnlessMemory result (spec.read_lines None nothing_read (content_lines bytes.now)) }
{
    let mut tech = Tech::new(alloc)?;
    tech.add_lines(alloc, &mut FileLines::new(alloc, bytes))?;
    Ok(tech)
}
