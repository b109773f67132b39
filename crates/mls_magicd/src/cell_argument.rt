//! Arguments that name cells.
ghost use Rattle.std.specs.Prelude.{◌≡◌, option_map};
ghost use Rattle.mls_magicd.specs.CommandLines.{file_of, named_file};

/// An argument `NAME=FILE`, cut at its first `=`.
#[derive(Clone, Copy, Debug)]
pub struct CellArgument<'a> {
    /// The cell's name, of any form.
    pub name: &'a str,
    /// The path of its file.
    pub path: &'a str,
}

impl<'a> CellArgument<'a> {
    /// Returns what a word of the command line names, if it has a `=`.
    pub fn cut(word: &'a str) -> Option<CellArgument<'a>>
        ensures { option_map file_of result ≡ named_file word.entry.now }
    {
        let (name, path) = word.split_once('=')?;
        Some(CellArgument { name, path })
    }
}
