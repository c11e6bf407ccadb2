//! The command of a line, by a table of grammars.

ghost use Rattle.std.specs.Prelude.{◌≡◌, ◌≤◌, ◌-◌, Some, None, IfOk, IfSome, map, option_map, if◌then◌else◌};
ghost use Rattle.std.specs.Char.{is_ascii_digit};
ghost use Rattle.std.specs.Int.{IsInRange};
ghost use Rattle.std.specs.Option.{is_some};
ghost use Rattle.cola_spec.specs.Map.{is_key, is_value};
ghost use Rattle.cola_spec.specs.Command.{command_of, is_number, number_of, verb_of};
ghost use Rattle.cola_plain.specs.Lines.{texts};
ghost use Rattle.cola_plain.specs.Command.{request_with, shape_of};
ghost use Rattle.cola_plain.specs.Grammar.{are_of, built, by_form, form_of, is_of, named};

use crate::lines::words;
use crate::shape::Shape;
use std::alloc::{AllocError, Global};

/// What a line may ask for. Keys and values are the bytes of the line.
#[derive(Clone, Copy, Drop)]
pub enum Command<'a> {
    Put(&'a [u8], &'a [u8]),
    PutIf(&'a [u8], u64, &'a [u8]),
    Del(&'a [u8]),
    Get(&'a [u8]),
    Stamp(&'a [u8]),
    Range(&'a [u8], &'a [u8]),
    Scan(&'a [u8], u64),
    Count,
    Close,
    Reopen,
}

/// What a word after a verb may be: a key, a value, a stamp of at most 19 digits or a number of pairs of at
/// most 10.
#[derive(Clone, Copy, Drop)]
enum Kind {
    Key,
    Value,
    Stamp,
    Pairs,
}

/// What a line's first word asks for.
#[derive(Clone, Copy, Drop)]
enum Verb {
    Put,
    PutIf,
    Del,
    Get,
    Stamp,
    Range,
    Scan,
    Count,
    Close,
    Reopen,
}

/// A verb with its name and the kinds of the words after it; where it is `stamped`, in a shape with stamps
/// alone.
#[derive(Clone, Copy, Drop)]
struct Grammar {
    name: &'static [u8],
    verb: Verb,
    stamped: bool,
    kinds: &'static [Kind],
}

const GRAMMARS: [Grammar; 10] = [
    Grammar {
        name: b"put",
        verb: Verb::Put,
        stamped: false,
        kinds: &[Kind::Key, Kind::Value],
    },
    Grammar {
        name: b"putif",
        verb: Verb::PutIf,
        stamped: true,
        kinds: &[Kind::Key, Kind::Stamp, Kind::Value],
    },
    Grammar {
        name: b"del",
        verb: Verb::Del,
        stamped: false,
        kinds: &[Kind::Key],
    },
    Grammar {
        name: b"get",
        verb: Verb::Get,
        stamped: false,
        kinds: &[Kind::Key],
    },
    Grammar {
        name: b"stamp",
        verb: Verb::Stamp,
        stamped: true,
        kinds: &[Kind::Key],
    },
    Grammar {
        name: b"range",
        verb: Verb::Range,
        stamped: false,
        kinds: &[Kind::Key, Kind::Key],
    },
    Grammar {
        name: b"scan",
        verb: Verb::Scan,
        stamped: false,
        kinds: &[Kind::Key, Kind::Pairs],
    },
    Grammar {
        name: b"count",
        verb: Verb::Count,
        stamped: false,
        kinds: &[],
    },
    Grammar {
        name: b"close",
        verb: Verb::Close,
        stamped: false,
        kinds: &[],
    },
    Grammar {
        name: b"open",
        verb: Verb::Reopen,
        stamped: false,
        kinds: &[],
    },
];

impl Shape {
    /// Whether a map of the shape may have the key.
    pub fn is_key(&self, key: &[u8]) -> bool
        ensures { result ≡ is_key (shape_of self.now) key.now }
    {
        !key.is_empty() && key.len() <= self.key_limit
    }

    /// Whether a map of the shape may have the value.
    pub fn is_value(&self, value: &[u8]) -> bool
        ensures { result ≡ is_value (shape_of self.now) value.now }
    {
        value.len() <= self.value_limit
    }
}

/// The value of a decimal digit.
fn digit_of(byte: u8) -> Option<u64>
    ensures digit { IfSome result (λ digit. IsInRange 48 57 byte × (digit ≡ byte - 48)) }
    ensures tested { is_ascii_digit byte ≡ is_some result }
{
    if byte.is_ascii_digit() {
        Some(u64::from(byte - b'0'))
    } else {
        None
    }
}

/// The number that a word of 1 to `most` decimal digits spells.
fn number(word: &[u8], most: usize) -> Option<u64>
    requires { most ≤ 19 }
    ensures { result ≡ (if is_number most word.now then Some (number_of word.now) else None) }
{
    if word.is_empty() || most < word.len() {
        return None;
    }
    let mut value = 0;
    for byte in word {
        match digit_of(*byte) {
            Some(digit) => value = value * 10 + digit,
            None => return None,
        }
    }
    Some(value)
}

/// Whether a word is of a kind.
fn is_of(shape: &Shape, kind: Kind, word: &[u8]) -> bool
    ensures { result ≡ is_of (shape_of shape.now) kind word.now }
{
    match kind {
        Kind::Key => shape.is_key(word),
        Kind::Value => shape.is_value(word),
        Kind::Stamp => number(word, 19).is_some(),
        Kind::Pairs => number(word, 10).is_some(),
    }
}

/// Whether words are of these kinds, one of each, in order.
fn are_of(shape: &Shape, kinds: &[Kind], words: &[&[u8]]) -> bool
    ensures { result ≡ are_of (shape_of shape.now) kinds.now (texts words.now) }
{
    match kinds {
        [] => words.is_empty(),
        [kind, kinds @ ..] => match words {
            [] => false,
            [word, words @ ..] => is_of(shape, *kind, word) && are_of(shape, kinds, words),
        },
    }
}

/// The command of a verb and as many words as it takes.
fn built<'a>(verb: Verb, words: &[&'a [u8]]) -> Option<Command<'a>>
    ensures { request_with result ≡ built verb (texts words.now) }
{
    match (verb, words) {
        (Verb::Put, &[key, value]) => Some(Command::Put(key, value)),
        (Verb::PutIf, &[key, seen, value]) => Some(Command::PutIf(key, number(seen, 19)?, value)),
        (Verb::Del, &[key]) => Some(Command::Del(key)),
        (Verb::Get, &[key]) => Some(Command::Get(key)),
        (Verb::Stamp, &[key]) => Some(Command::Stamp(key)),
        (Verb::Range, &[low, high]) => Some(Command::Range(low, high)),
        (Verb::Scan, &[low, most]) => Some(Command::Scan(low, number(most, 10)?)),
        (Verb::Count, &[]) => Some(Command::Count),
        (Verb::Close, &[]) => Some(Command::Close),
        (Verb::Reopen, &[]) => Some(Command::Reopen),
        _ => None,
    }
}

/// The first grammar of a name.
fn named<'a>(grammars: &'a [Grammar], name: &[u8]) -> Option<&'a Grammar>
    ensures { option_map (λ grammar. form_of grammar.now) result ≡ named
        (map form_of grammars.now) name.now }
{
    match grammars {
        [] => None,
        [grammar, rest @ ..] => if name == grammar.name {
            Some(grammar)
        } else {
            named(rest, name)
        },
    }
}

/// What a line asks by a grammar, with the words after its name.
fn by_grammar<'a>(shape: &Shape, grammar: &Grammar, words: &[&'a [u8]]) -> Option<Command<'a>>
    ensures { request_with result ≡ by_form (shape_of shape.now) (form_of grammar.now)
        (texts words.now) }
{
    let stamps = !grammar.stamped || shape.stamped;
    if stamps && are_of(shape, grammar.kinds, words) {
        built(grammar.verb, words)
    } else {
        None
    }
}

/// What a line asks, by its first word and the others.
fn asked<'a>(shape: &Shape, name: &[u8], words: &[&'a [u8]]) -> Option<Command<'a>>
    ensures { request_with result ≡ verb_of (shape_of shape.now) name.now (texts words.now) }
{
    match named(&GRAMMARS, name) {
        Some(grammar) => by_grammar(shape, grammar, words),
        None => None,
    }
}

/// The command of a text, in the shape's limits; none where the text has a NUL byte or is in no other
/// way a command. An error comes only for want of memory.
pub fn parse<'a>(
    alloc: Global,
    shape: &Shape,
    text: &'a [u8],
) -> Result<Option<Command<'a>>, AllocError>
    ensures { IfOk result
        (λ request. request_with request ≡ command_of (shape_of shape.now) text.now) }
{
    if text.contains(&0) {
        return Ok(None);
    }
    let words = words(alloc, text)?;
    match words.as_slice() {
        [name, words @ ..] => Ok(asked(shape, name, words)),
        [] => Ok(None),
    }
}
