//! Lines of a script as they are read.

/// A line of a script, without its line feed and a carriage return before that.
#[derive(Clone, Copy)]
pub enum ScriptLine<'a> {
    /// A line of more than 1024 bytes.
    TooLong,
    /// The bytes of any other line.
    Text(&'a [u8]),
}
