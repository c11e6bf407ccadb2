//! The options of the command line, read one after another.
ghost use Rattle.std.specs.Prelude.{◌≡◌, ◌+◌, ◌<◌, ◌≤◌, map, length, string_bytes, IfSome};
ghost use Rattle.std.specs.Option.{option_and_then};
ghost use Rattle.cola_words.specs.Options.{given_of, before, options_of, no_options, with_given, options_in};
ghost use Rattle.cola_words.specs.Counts.{given_count};

use crate::options::{Given, Options};
use crate::words::{is_path, number};

/// An option that was read, how many words it took, and the words behind it.
#[derive(Drop)]
struct Next<'a> {
    given: Given,
    taken: u8,
    rest: &'a [String],
}

/// The option of a name and its value. The value stands at a place among all words.
fn given_of(name: &[u8], value: &[u8], place: u8) -> Option<Given>
    ensures { result ≡ given_of name.now value.now place }
{
    if name == b"--keys".as_slice() {
        return number(value).map(Given::Keys);
    }
    if name == b"--block".as_slice() {
        return number(value).map(Given::Block);
    }
    if name == b"--version".as_slice() {
        return number(value).map(Given::Version);
    }
    if name == b"--cache".as_slice() {
        return number(value).map(Given::Cache);
    }
    if name == b"--mirror".as_slice() && is_path(value) {
        return Some(Given::Mirror(place));
    }
    None
}

/// The first option of words that begin at a place, of which there are some.
fn next_option(words: &[String], place: u8) -> Option<Next>
    requires some { 0 < length words.now }
    requires near { place < 100 }
    ensures read { options_of place (map string_bytes words.now) ≡ option_and_then
        (λ next. before
        (options_of (place + next.taken) (map string_bytes next.rest.now)) next.given) result }
    ensures fewer { IfSome result (λ next. length next.rest.now < length words.now) }
    ensures taken { IfSome result (λ next. next.taken ≤ 2) }
{
    let (name, behind) = words.split_first()?;
    if name.as_bytes() == b"--cost".as_slice() {
        return Some(Next {
            given: Given::Cost,
            taken: 1,
            rest: behind,
        });
    }
    let (value, rest) = behind.split_first()?;
    let given = given_of(name.as_bytes(), value.as_bytes(), place + 1)?;
    Some(Next {
        given,
        taken: 2,
        rest,
    })
}

impl Options {
    /// No option was given.
    fn none() -> Options
        ensures { result ≡ no_options }
    {
        Options {
            keys: None,
            block: None,
            version: None,
            cache: None,
            cost: false,
            mirror: None,
        }
    }

    /// One more option; none where it was given before.
    fn with(self, given: Given) -> Option<Options>
        ensures value { result ≡ with_given self given }
        ensures counted { IfSome result (λ more. given_count more ≡ given_count self + 1) }
    {
        let mut more = self;
        let twice = match given {
            Given::Keys(keys) => more.keys.replace(keys).is_some(),
            Given::Block(block) => more.block.replace(block).is_some(),
            Given::Version(version) => more.version.replace(version).is_some(),
            Given::Cache(cache) => more.cache.replace(cache).is_some(),
            Given::Cost => std::mem::replace(&mut more.cost, true),
            Given::Mirror(place) => more.mirror.replace(place).is_some(),
        };
        if twice { None } else { Some(more) }
    }
}

/// The options that all these words are, each at most once. The first of them stands at a place among
/// the words of the command line.
pub fn read_options(words: &[String], first: u8) -> Option<Options>
    requires { first ≤ 3 }
    ensures { result ≡ options_in first (map string_bytes words.now) }
{
    let mut options = Options::none();
    let mut rest = words;
    let mut place = first;
    'options: while !rest.is_empty() {
        let next = next_option(rest, place)?;
        options = options.with(next.given)?;
        place += next.taken;
        rest = next.rest;
    }
    Some(options)
}
