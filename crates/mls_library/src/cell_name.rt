//! Names of cells.
ghost use Rattle.std.specs.Prelude.{◌≡◌};
ghost use Rattle.std.specs.List.{list_all};
ghost use Rattle.mls_library.specs.Libraries as spec;

/// The most bytes that a cell's name may have.
const NAME_LIMIT: usize = 64;

/// Returns whether the word can name a cell: 1 to 64 letters, digits, `_`, `-`, `.` and `$` of ASCII.
pub(crate) fn is_cell_name(word: &[u8]) -> bool
    ensures { result ≡ spec.is_cell_name word.now }
{
    (1..=NAME_LIMIT).contains(&word.len()) && has_name_bytes(word)
}

/// Returns whether each byte can stand in a name.
fn has_name_bytes(word: &[u8]) -> bool
    ensures { result ≡ list_all spec.is_name_byte word.now }
{
    word.iter().all(|byte| is_name_byte(*byte))
}

/// Returns whether the byte can stand in a name.
fn is_name_byte(byte: u8) -> bool
    ensures { result ≡ spec.is_name_byte byte }
{
    byte.is_ascii_alphanumeric() || byte == b'_' || byte == b'-' || byte == b'.' || byte == b'$'
}
