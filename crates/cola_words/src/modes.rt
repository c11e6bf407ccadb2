//! The mode that the words of the command line name.
ghost use Rattle.std.specs.Prelude.{◌≡◌, map, string_bytes, IfSome};
ghost use Rattle.cola_words.specs.Modes as spec;
ghost use Rattle.cola_words.specs.Modes.{HasSizes};

use crate::given::read_options;
use crate::mode::Mode;
use crate::options::Options;
use crate::sizes::new_file;
use crate::words::{behind_path, number};

/// The mode, where there are no more words.
fn ended(mode: Mode, words: &[String]) -> Option<Mode>
    requires { HasSizes mode }
    ensures value { result ≡ spec.ended mode (map string_bytes words.now) }
    ensures sizes { IfSome result HasSizes }
{
    if words.is_empty() { Some(mode) } else { None }
}

fn mem(words: &[String]) -> Option<Mode>
    ensures value { result ≡ spec.mem_of (map string_bytes words.now) }
    ensures sizes { IfSome result HasSizes }
{
    if words.len() != 1 {
        return None;
    }
    let keys = number(words[0].as_bytes())?;
    if keys == 0 || keys > 65536 {
        return None;
    }
    Some(Mode::Mem { keys: keys as u32 })
}

fn create(words: &[String]) -> Option<Mode>
    ensures value { result ≡ spec.create_of (map string_bytes words.now) }
    ensures sizes { IfSome result HasSizes }
{
    let rest = behind_path(words)?;
    let options = read_options(rest, 2)?;
    let file = new_file(&options)?;
    Some(Mode::Create {
        keys: file.keys,
        block_exp: file.block_exp,
        format: file.format,
    })
}

fn load(words: &[String]) -> Option<Mode>
    ensures value { result ≡ spec.load_of (map string_bytes words.now) }
    ensures sizes { IfSome result HasSizes }
{
    let rest = behind_path(words)?;
    let options = read_options(rest, 2)?;
    let file = new_file(&options)?;
    Some(Mode::Load {
        keys: file.keys,
        block_exp: file.block_exp,
        format: file.format,
    })
}

/// A session with its options.
fn run_with(options: &Options) -> Option<Mode>
    ensures value { result ≡ spec.run_with options.now }
    ensures sizes { IfSome result HasSizes }
{
    if options.keys.is_some() || options.block.is_some() || options.version.is_some() {
        return None;
    }
    let cache = options.cache.unwrap_or(0);
    if cache > 4096 {
        return None;
    }
    Some(Mode::Run {
        cache: cache as u32,
        cost: options.cost,
        mirror: options.mirror,
    })
}

fn run(words: &[String]) -> Option<Mode>
    ensures value { result ≡ spec.run_of (map string_bytes words.now) }
    ensures sizes { IfSome result HasSizes }
{
    let rest = behind_path(words)?;
    let options = read_options(rest, 2)?;
    run_with(&options)
}

/// The stated workload with its options: neither the block nor the version can be chosen.
fn gen_with(options: &Options) -> Option<Mode>
    ensures value { result ≡ spec.gen_with options.now }
    ensures sizes { IfSome result HasSizes }
{
    if options.block.is_some() || options.version.is_some() {
        return None;
    }
    let file = new_file(options)?;
    Some(Mode::Gen {
        keys: file.keys as u32,
    })
}

fn generate(words: &[String]) -> Option<Mode>
    ensures value { result ≡ spec.gen_of (map string_bytes words.now) }
    ensures sizes { IfSome result HasSizes }
{
    let rest = behind_path(words)?;
    let options = read_options(rest, 2)?;
    gen_with(&options)
}

/// A copy with its options: the version is that of the file, and cannot be chosen.
fn grow_with(options: &Options) -> Option<Mode>
    ensures value { result ≡ spec.grow_with options.now }
    ensures sizes { IfSome result HasSizes }
{
    if options.version.is_some() {
        return None;
    }
    let file = new_file(options)?;
    Some(Mode::Grow {
        keys: file.keys,
        block_exp: file.block_exp,
    })
}

fn grow(words: &[String]) -> Option<Mode>
    ensures value { result ≡ spec.grow_of (map string_bytes words.now) }
    ensures sizes { IfSome result HasSizes }
{
    let rest = behind_path(behind_path(words)?)?;
    let options = read_options(rest, 3)?;
    grow_with(&options)
}

fn check(words: &[String]) -> Option<Mode>
    ensures value { result ≡ spec.check_of (map string_bytes words.now) }
    ensures sizes { IfSome result HasSizes }
{
    let rest = behind_path(words)?;
    ended(Mode::Check, rest)
}

/// A mode of two files with no options.
fn two_files(mode: Mode, words: &[String]) -> Option<Mode>
    requires { HasSizes mode }
    ensures value { result ≡ spec.two_files mode (map string_bytes words.now) }
    ensures sizes { IfSome result HasSizes }
{
    let rest = behind_path(behind_path(words)?)?;
    ended(mode, rest)
}

/// The mode of a first word and the words behind it.
fn named(first: &[u8], words: &[String]) -> Option<Mode>
    ensures value { result ≡ spec.named first.now (map string_bytes words.now) }
    ensures sizes { IfSome result HasSizes }
{
    if first == b"mem".as_slice() {
        return mem(words);
    }
    if first == b"create".as_slice() {
        return create(words);
    }
    if first == b"run".as_slice() {
        return run(words);
    }
    if first == b"gen".as_slice() {
        return generate(words);
    }
    if first == b"upgrade".as_slice() {
        return two_files(Mode::Upgrade, words);
    }
    if first == b"check".as_slice() {
        return check(words);
    }
    if first == b"load".as_slice() {
        return load(words);
    }
    if first == b"grow".as_slice() {
        return grow(words);
    }
    if first == b"rebuild".as_slice() {
        return two_files(Mode::Rebuild, words);
    }
    None
}

/// The mode that the words behind the program's name are, and none where they are no mode.
///
/// FILE is the second word, and TO, where there is one, the third. Both and OTHER have at least one
/// byte and do not begin with `-`. Behind them stand options in any order, each at most once, with its
/// value as the next word. A number is 1 to 10 decimal digits.
///
/// `create` and `load` want `--keys`, from 1 to 2^24, and take `--block`, from 3 to the smaller of 9
/// and the lowest level plus 2, else 5, and `--version`, 1 or 2, else 1. `grow` is the same without
/// `--version`, and `gen` wants `--keys` alone. `run` takes `--cache`, from 0 to 4096, else 0, `--cost`
/// and `--mirror`.
pub fn read_words(words: &[String]) -> Option<Mode>
    ensures value { result ≡ spec.mode_of (map string_bytes words.now) }
    ensures sizes { IfSome result HasSizes }
{
    let (first, rest) = words.split_first()?;
    named(first.as_bytes(), rest)
}
