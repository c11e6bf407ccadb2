//! What a line says, whatever stands before it.
ghost use Rattle.std.specs.Prelude.{◌≡◌, ℕ, option_copied, Some, None, if◌then◌else◌, IfSome};
ghost use Rattle.cola_cell.specs.Format.{KeyFits, ValueFits};
ghost use Rattle.cola_spec.specs.Map.{is_key, is_value};
ghost use Rattle.cola_shapes.specs.Shapes.{shape_of};
ghost use Rattle.cola_line.specs.Words.{words_left};
ghost use Rattle.cola_load.specs.Said.{said, text_said, verb_said, row_said, pair_said, end_said, as_line, SaidFits};

use crate::words::{cut, one, two};
use cola_cell::{Format, Key, Value};
use cola_line::number;

/// What a line says.
#[derive(Clone, Copy, Debug, PartialEq, Eq, Drop)]
pub enum Said {
    /// The line is empty.
    Nothing,
    /// `row K V`, within the limits of the format.
    Row(Key, Value),
    /// `end M`.
    End(u64),
    /// None of these.
    Other,
}

/// The key of a word, where its length is within the format's limit.
fn key_of(word: &[u8], format: Format) -> Option<Key>
    ensures fits { IfSome result (KeyFits format) }
    ensures tested { (limit : ℕ) →
        result ≡ (if is_key (shape_of format limit) word.now then Some word.now else None) }
{
    let key = Key::of(word)?;
    if key.fits(format) { Some(key) } else { None }
}

/// The value of a word, where its length is within the format's limit.
fn value_of(word: &[u8], format: Format) -> Option<Value>
    ensures fits { IfSome result (ValueFits format) }
    ensures tested { (limit : ℕ) →
        result ≡ (if is_value (shape_of format limit) word.now then Some word.now else None) }
{
    let value = Value::of(word)?;
    if value.fits(format) {
        Some(value)
    } else {
        None
    }
}

/// What a row of these two words says.
fn pair(key: &[u8], value: &[u8], format: Format) -> Said
    ensures means { (limit : ℕ) → result ≡ pair_said (shape_of format limit) key.now value.now }
    ensures fits { SaidFits format result }
{
    let Some(key) = key_of(key, format) else {
        return Said::Other;
    };
    match value_of(value, format) {
        Some(value) => Said::Row(key, value),
        None => Said::Other,
    }
}

/// What the words after `row` say.
fn row(words: Option<&[u8]>, format: Format) -> Said
    ensures means { (limit : ℕ) →
        result ≡ row_said (shape_of format limit) (words_left (option_copied words.entry)) }
    ensures fits { SaidFits format result }
{
    match two(words) {
        Some((key, value)) => pair(key, value, format),
        None => Said::Other,
    }
}

/// What the words after `end` say.
fn end(words: Option<&[u8]>, format: Format) -> Said
    ensures means { result ≡ end_said (words_left (option_copied words.entry)) }
    ensures fits { SaidFits format result }
{
    let Some(word) = one(words) else {
        return Said::Other;
    };
    match number(word, 10) {
        Some(rows) => Said::End(rows),
        None => Said::Other,
    }
}

/// What a verb and the words after it say.
fn verb(verb: &[u8], words: Option<&[u8]>, format: Format) -> Said
    ensures means { (limit : ℕ) →
        result ≡ verb_said (shape_of format limit) verb.now (words_left (option_copied words.entry)) }
    ensures fits { SaidFits format result }
{
    if verb == b"row".as_slice() {
        return row(words, format);
    }
    if verb == b"end".as_slice() {
        return end(words, format);
    }
    Said::Other
}

/// What a text that is not empty says.
fn some_text(text: &[u8], format: Format) -> Said
    ensures means { (limit : ℕ) → result ≡ text_said (shape_of format limit) text.now }
    ensures fits { SaidFits format result }
{
    if text.contains(&0) {
        return Said::Other;
    }
    let (first, words) = cut(text);
    verb(first, words, format)
}

/// What a line says, of which the text is given, or none where it was too long.
pub fn said_by(text: Option<&[u8]>, format: Format) -> Said
    ensures means { (limit : ℕ) →
        result ≡ said (shape_of format limit) (as_line (option_copied text.entry)) }
    ensures fits { SaidFits format result }
{
    let Some(text) = text else {
        return Said::Other;
    };
    if text.is_empty() {
        return Said::Nothing;
    }
    some_text(text, format)
}
