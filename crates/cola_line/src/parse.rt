//! The command of a line.
ghost use Rattle.std.specs.Prelude.{◌≡◌, ◌≤◌, ℕ, option_map, option_copied, Some, None, if◌then◌else◌, IfSome};
ghost use Rattle.std.specs.List.{list_all};
ghost use Rattle.cola_cell.specs.declared.format.Format.TheVariants.{Two};
ghost use Rattle.cola_cell.specs.Format.{KeyFits, ValueFits};
ghost use Rattle.cola_spec.specs.Map.{is_key, is_value};
ghost use Rattle.cola_spec.specs.Command.{command_of, verb_of, put_of, put_if_of, del_of, get_of, stamp_of, range_of, scan_of, is_number, number_of, alone as alone_of};
ghost use Rattle.cola_shapes.specs.Shapes.{shape_of};
ghost use Rattle.cola_line.specs.Spoken.{spoken, CommandFits};
ghost use Rattle.cola_line.specs.Words.{words_left};

use crate::command::Command;
use crate::words::{cut, one, three, two};
use cola_cell::{Format, Key, Value};

/// The key of a word, where its length is within the format's limit.
fn key_of(word: &[u8], format: Format) -> Option<Key>
    ensures fits { IfSome result (KeyFits format) }
    ensures tested { (limit : ℕ) →
        result ≡ (if is_key (shape_of format limit) word.now then Some word.now else None) }
{
    let key = Key::of(word)?;
    if key.fits(format) { Some(key) } else { None }
}

/// The value of a word, where its length is within the format's limit.
fn value_of(word: &[u8], format: Format) -> Option<Value>
    ensures fits { IfSome result (ValueFits format) }
    ensures tested { (limit : ℕ) →
        result ≡ (if is_value (shape_of format limit) word.now then Some word.now else None) }
{
    let value = Value::of(word)?;
    if value.fits(format) {
        Some(value)
    } else {
        None
    }
}

/// A word of 1 to `most` decimal digits, of which there are at most 19, as a number.
pub fn number(word: &[u8], most: usize) -> Option<u64>
    requires { most ≤ 19 }
    ensures { result ≡ (if is_number most word.now then Some (number_of word.now) else None) }
{
    if word.is_empty() || word.len() > most {
        return None;
    }
    let mut value: u64 = 0;
    for digit in word {
        if !digit.is_ascii_digit() {
            return None;
        }
        value = value * 10 + (*digit - b'0') as u64;
    }
    Some(value)
}

fn put(words: Option<&[u8]>, format: Format) -> Option<Command>
    ensures means { (limit : ℕ) →
        option_map spoken result ≡ put_of (shape_of format limit)
        (words_left (option_copied words.entry)) }
    ensures fits { IfSome result (CommandFits format) }
{
    let (key, value) = two(words)?;
    let key = key_of(key, format)?;
    let value = value_of(value, format)?;
    Some(Command::Put(key, value))
}

/// The command of a conditional put in format Two.
fn put_if_two(words: Option<&[u8]>) -> Option<Command>
    ensures means { (limit : ℕ) →
        option_map spoken result ≡ put_if_of (shape_of Two limit)
        (words_left (option_copied words.entry)) }
    ensures fits { IfSome result (CommandFits Two) }
{
    let (key, seen, value) = three(words)?;
    let key = key_of(key, Format::Two)?;
    let seen = number(seen, 19)?;
    let value = value_of(value, Format::Two)?;
    Some(Command::PutIf(key, seen, value))
}

fn del(words: Option<&[u8]>, format: Format) -> Option<Command>
    ensures means { (limit : ℕ) →
        option_map spoken result ≡ del_of (shape_of format limit)
        (words_left (option_copied words.entry)) }
    ensures fits { IfSome result (CommandFits format) }
{
    let key = key_of(one(words)?, format)?;
    Some(Command::Del(key))
}

fn get(words: Option<&[u8]>, format: Format) -> Option<Command>
    ensures means { (limit : ℕ) →
        option_map spoken result ≡ get_of (shape_of format limit)
        (words_left (option_copied words.entry)) }
    ensures fits { IfSome result (CommandFits format) }
{
    let key = key_of(one(words)?, format)?;
    Some(Command::Get(key))
}

fn put_if(words: Option<&[u8]>, format: Format) -> Option<Command>
    ensures means { (limit : ℕ) →
        option_map spoken result ≡ put_if_of (shape_of format limit)
        (words_left (option_copied words.entry)) }
    ensures fits { IfSome result (CommandFits format) }
{
    match format {
        Format::One => None,
        Format::Two => put_if_two(words),
    }
}

/// The command of a stamp in format Two.
fn stamp_two(words: Option<&[u8]>) -> Option<Command>
    ensures means { (limit : ℕ) →
        option_map spoken result ≡ stamp_of (shape_of Two limit)
        (words_left (option_copied words.entry)) }
    ensures fits { IfSome result (CommandFits Two) }
{
    let key = key_of(one(words)?, Format::Two)?;
    Some(Command::Stamp(key))
}

fn stamp(words: Option<&[u8]>, format: Format) -> Option<Command>
    ensures means { (limit : ℕ) →
        option_map spoken result ≡ stamp_of (shape_of format limit)
        (words_left (option_copied words.entry)) }
    ensures fits { IfSome result (CommandFits format) }
{
    match format {
        Format::One => None,
        Format::Two => stamp_two(words),
    }
}

fn range(words: Option<&[u8]>, format: Format) -> Option<Command>
    ensures means { (limit : ℕ) →
        option_map spoken result ≡ range_of (shape_of format limit)
        (words_left (option_copied words.entry)) }
    ensures fits { IfSome result (CommandFits format) }
{
    let (low, high) = two(words)?;
    let low = key_of(low, format)?;
    let high = key_of(high, format)?;
    Some(Command::Range(low, high))
}

fn scan(words: Option<&[u8]>, format: Format) -> Option<Command>
    ensures means { (limit : ℕ) →
        option_map spoken result ≡ scan_of (shape_of format limit)
        (words_left (option_copied words.entry)) }
    ensures fits { IfSome result (CommandFits format) }
{
    let (low, most) = two(words)?;
    let low = key_of(low, format)?;
    let most = number(most, 10)?;
    Some(Command::Scan(low, most))
}

/// The command of a verb that stands alone.
fn alone(words: Option<&[u8]>, command: Command) -> Option<Command>
    ensures means { option_map spoken result ≡ alone_of (spoken command)
        (words_left (option_copied words.entry)) }
    ensures same { IfSome result (λ answer. answer ≡ command) }
{
    match words {
        None => Some(command),
        Some(_) => None,
    }
}

/// The command of a verb and the words after it.
fn verb(verb: &[u8], words: Option<&[u8]>, format: Format) -> Option<Command>
    ensures means { (limit : ℕ) →
        option_map spoken result ≡ verb_of (shape_of format limit) verb.now
        (words_left (option_copied words.entry)) }
    ensures fits { IfSome result (CommandFits format) }
{
    if verb == b"put".as_slice() {
        return put(words, format);
    }
    if verb == b"putif".as_slice() {
        return put_if(words, format);
    }
    if verb == b"del".as_slice() {
        return del(words, format);
    }
    if verb == b"get".as_slice() {
        return get(words, format);
    }
    if verb == b"stamp".as_slice() {
        return stamp(words, format);
    }
    if verb == b"range".as_slice() {
        return range(words, format);
    }
    if verb == b"scan".as_slice() {
        return scan(words, format);
    }
    if verb == b"count".as_slice() {
        return alone(words, Command::Count);
    }
    if verb == b"close".as_slice() {
        return alone(words, Command::Close);
    }
    if verb == b"open".as_slice() {
        return alone(words, Command::Reopen);
    }
    None
}

/// The command of a line's text, with the limits of the format; none where the text is no command.
/// Verbs are in lower case. A text with a NUL byte is no command. `putif` and `stamp` are commands in
/// format Two alone.
pub fn parse_line(text: &[u8], format: Format) -> Option<Command>
    ensures means { (limit : ℕ) →
        option_map spoken result ≡ command_of (shape_of format limit) text.now }
    ensures fits { IfSome result (CommandFits format) }
{
    if text.contains(&0) {
        return None;
    }
    let (first, rest) = cut(text);
    verb(first, rest, format)
}
