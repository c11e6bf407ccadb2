//! The sizes of a new file, as its options say them.
ghost use Rattle.std.specs.Prelude.{◌≡◌, ◌≤◌, ◌^◌, IfSome};
ghost use Rattle.cola_words.specs.Sizes.{SuitStore, block_exp_for, format_of, file_for, new_file_of};

use crate::options::{NewFile, Options};
use cola_cell::Format;
use cola_layout::Geometry;

/// The exponent of a block, where it suits a store for so many keys.
fn block_exp_for(keys: u64, block: u64) -> Option<u8>
    ensures value { result ≡ block_exp_for keys block }
    ensures few { IfSome result (λ exponent. keys ≤ 2 ^ 24) }
    ensures suit { IfSome result (λ exponent. SuitStore keys exponent) }
{
    let Ok(block_exp) = u8::try_from(block) else {
        return None;
    };
    match Geometry::of(keys, block_exp) {
        Ok(_) => Some(block_exp),
        Err(_) => None,
    }
}

/// The format of a version.
fn format_of(version: u64) -> Option<Format>
    ensures { result ≡ format_of version }
{
    match version {
        1 => Some(Format::One),
        2 => Some(Format::Two),
        _ => None,
    }
}

/// The new file of a number of keys and the options beside it.
fn file_for(options: &Options, keys: u64) -> Option<NewFile>
    ensures value { result ≡ file_for options.now keys }
    ensures few { IfSome result (λ file. file.keys ≤ 2 ^ 24) }
    ensures suit { IfSome result (λ file. SuitStore file.keys file.block_exp) }
{
    let block_exp = block_exp_for(keys, options.block.unwrap_or(5))?;
    let format = format_of(options.version.unwrap_or(1))?;
    Some(NewFile {
        keys,
        block_exp,
        format,
    })
}

/// The new file of options: the number of keys has to be there, and no option of a session.
pub fn new_file(options: &Options) -> Option<NewFile>
    ensures value { result ≡ new_file_of options.now }
    ensures few { IfSome result (λ file. file.keys ≤ 2 ^ 24) }
    ensures suit { IfSome result (λ file. SuitStore file.keys file.block_exp) }
{
    if options.cache.is_some() || options.cost || options.mirror.is_some() {
        return None;
    }
    file_for(options, options.keys?)
}
