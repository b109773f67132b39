//! The lines of a technology file that have content.
ghost use Rattle.std.specs.Prelude.{◌≡◌, [], ◌∷◌, MatchOption, IfOk, OnErr};
ghost use Rattle.std.specs.List.{list_any};
ghost use Rattle.mls_tech.specs.FileLines.{begins_content, content_lines};
ghost use Rattle.mls_tech.specs.Readings as spec;
ghost use Rattle.mls_text.specs.Lines.{IsUnbroken};
ghost use Rattle.mls_text.specs.Words.{words_of};

use crate::joined_lines::read_line;
use mls_text::Words;
use std::alloc::{AllocError, Global};
use std::marker::Model;

/// The lines of a technology file that are left, and the current line. They are the lines with
/// words that aren't comments, each that ends with `\` joined with the next.
#[derive(Drop)]
pub(crate) struct FileLines<'a> {
    rest: &'a [u8],
    /// The number of the line that `rest` begins with, from 1.
    number: usize,
    /// The current line, whose memory is used again for the next.
    line: Vec<u8>,
}

impl<'a> Model for FileLines<'a> {
    ghost use Rattle.std.specs.Prelude.{◌+◌, ◌^◌, ◌<◌, length};
    ghost use Rattle.std.specs.List.{filter};
    ghost use Rattle.mls_text.specs.Lines.{raw_lines};
    ghost use Rattle.mls_tech.specs.FileLines.{FileLines, has_content, joined_from};

    ghost Value = { FileLines };

    ghost view = { λ lines. record {
      line = lines.line.items;
      ahead = filter has_content (joined_from lines.number (raw_lines lines.rest.now));
    } };

    ghost invariant = { λ lines. lines.number + length lines.rest.now < 2 ^ 64 };
}

impl<'a> FileLines<'a> {
    /// Creates the lines of a file. The current line is empty.
    #[tactic(auto, unfolding(crate::specs::FileLines::content_lines))]
    pub fn new(alloc: Global, bytes: &'a [u8]) -> FileLines<'a>
        ensures { result ≡ record { line = []; ahead = content_lines bytes.now } }
    {
        FileLines {
            rest: bytes,
            number: 1,
            line: Vec::new(alloc),
        }
    }

    /// Reads the next line and returns its number, from 1; a joined line has the number of its first.
    /// At the end the current line is empty. After an error the same lines are ahead.
    pub fn advance(&mut self) -> Result<Option<usize>, AllocError>
        ensures ok { IfOk result (λ found. MatchOption found
            ((self.old.ahead ≡ []) × (self.new ≡ record { line = []; ahead = [] }))
            (λ number. self.old.ahead ≡ record { line = number; bytes = self.new.line } ∷ self.new.ahead)) }
        ensures unbroken { IfOk result (λ _. IsUnbroken self.new.line) }
        ensures err { OnErr result (self.new.ahead ≡ self.old.ahead) }
    {
        while !self.rest.is_empty() {
            let number = self.number;
            let (rest, next) = read_line(&mut self.line, self.rest, number)?;
            self.rest = rest;
            self.number = next;
            if has_content(&self.line) {
                return Ok(Some(number));
            }
        }
        self.line.clear();
        Ok(None)
    }

    /// Returns the current line.
    pub fn line(&self) -> &[u8]
        ensures { result.now ≡ self.now.line }
    {
        self.line.as_slice()
    }

    /// Returns whether `end` is the only word of some line ahead.
    pub fn end_is_ahead(&self, alloc: Global) -> Result<bool, AllocError>
        ensures { IfOk result (λ found. found ≡ list_any spec.is_end self.now.ahead) }
    {
        let mut lines = FileLines {
            rest: self.rest,
            number: self.number,
            line: Vec::new(alloc),
        };
        while lines.advance()?.is_some() {
            if is_end(lines.line()) {
                return Ok(true);
            }
        }
        Ok(false)
    }
}

/// Returns whether the line's only word is `end`.
pub(crate) fn is_end(line: &[u8]) -> bool
    ensures { result ≡ spec.is_end_word (words_of line.now) }
{
    let mut words = Words::new(line);
    words.next().is_some_and(|word| word == b"end".as_slice()) && words.next().is_none()
}

/// Returns whether the line has words and isn't a comment.
fn has_content(line: &[u8]) -> bool
    ensures { result ≡ begins_content (words_of line.now) }
{
    Words::new(line)
        .next()
        .is_some_and(|word| !word.starts_with(b"#"))
}
