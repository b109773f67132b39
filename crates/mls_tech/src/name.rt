//! The spelling of names.
ghost use Rattle.std.specs.Prelude.{◌≡◌};
ghost use Rattle.std.specs.List.{list_all, list_any};
ghost use Rattle.mls_tech.specs.Names as spec;
ghost use Rattle.mls_text.specs.Words.{same_word};

/// Returns whether the word can name a plane.
#[tactic(auto, using(crate::proofs::NameLemmas::spelling), unfolding(crate::specs::Names::is_name))]
pub(crate) fn is_name(word: &[u8]) -> bool
    ensures { result ≡ spec.is_name word.now }
{
    !word.is_empty() && has_name_bytes(word) && word != b"0".as_slice()
}

/// Returns whether each byte can stand in a name.
fn has_name_bytes(word: &[u8]) -> bool
    ensures { result ≡ list_all spec.is_name_byte word.now }
{
    word.iter().all(|byte| is_name_byte(*byte))
}

/// Returns whether the byte can stand in a name.
fn is_name_byte(byte: u8) -> bool
    ensures { result ≡ spec.is_name_byte byte }
{
    !matches!(
        byte,
        b' ' | b'\t' | b'\n' | b',' | b'~' | b'(' | b')' | b'/' | b'"'
    )
}

/// Returns whether the word can name a type; some words have another meaning in cell files.
#[tactic(auto, unfolding(crate::specs::Names::is_type_name))]
pub(crate) fn is_type_name(word: &[u8]) -> bool
    ensures { result ≡ spec.is_type_name word.now }
{
    is_name(word) && !is_cell_file_word(word) && !word.starts_with(b"error_")
}

/// Returns whether the word has another meaning in cell files.
fn is_cell_file_word(word: &[u8]) -> bool
    ensures { result ≡ list_any (same_word word.now) spec.cell_file_words }
{
    word == b"end".as_slice()
        || word == b"labels".as_slice()
        || word == b"properties".as_slice()
        || word == b"elements".as_slice()
        || word == b"checkpaint".as_slice()
        || word == b"checksubcell".as_slice()
}
