//! Words that name a file or spell a number.
ghost use Rattle.std.specs.Prelude.{◌≡◌, map, string_bytes, option_map};
ghost use Rattle.cola_words.specs.Options.{is_path, number_in};
ghost use Rattle.cola_words.specs.Modes.{behind_path};

use cola_line::number as decimal;

/// A word names a file where it has at least one byte and does not begin with `-`.
pub fn is_path(word: &[u8]) -> bool
    ensures { result ≡ is_path word.now }
{
    match word.first() {
        None => false,
        Some(byte) => *byte != b'-',
    }
}

/// A number of 1 to 10 decimal digits.
pub fn number(word: &[u8]) -> Option<u64>
    ensures { result ≡ number_in word.now }
{
    decimal(word, 10)
}

/// The words behind a first one that names a file.
pub fn behind_path(words: &[String]) -> Option<&[String]>
    ensures { option_map (λ rest. map string_bytes rest.now) result ≡ behind_path
        (map string_bytes words.now) }
{
    let (path, rest) = words.split_first()?;
    if is_path(path.as_bytes()) {
        Some(rest)
    } else {
        None
    }
}
