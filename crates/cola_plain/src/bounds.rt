//! The bounds on cell accesses.

ghost use Rattle.std.specs.Prelude.{◌≡◌, ◌≤◌, ◌<◌, ◌*◌, ◌^◌, ℕ};
ghost use Rattle.cola_spec.specs.Bounds.{ceiling_log, command_bound, get_bound, levels_of, put_bound, range_bound, request_bound};
ghost use Rattle.cola_plain.specs.Command.{command_with, request_with};

use crate::command::Command;

/// The exponent of the least power of two that is not below a number: 0 for 0 and 1, and 64 at most.
pub fn ceiling_log(number: u64) -> u64
    ensures { result ≡ ceiling_log number }
{
    let mut reached: u64 = 1;
    for power in 0..64u64 {
        if number <= reached {
            return power;
        }
        reached = reached.saturating_mul(2);
    }
    64
}

/// The levels of a store for so many keys: 4 at least, and 63 at most.
pub fn levels_of(keys: u64) -> u64
    ensures { result ≡ levels_of keys }
{
    ceiling_log(keys).saturating_sub(2).max(3) + 1
}

/// The most cell accesses of a put, a put that depends on a stamp, or a delete, in a store of so many
/// levels.
pub fn put_bound(levels: u64) -> u64
    requires { 40 * levels < 2 ^ 64 }
    ensures { result ≡ put_bound levels }
{
    40 * levels
}

/// The most cell accesses of a get or a stamp, in a store of so many levels.
pub fn get_bound(levels: u64) -> u64
    requires { 8 * levels < 2 ^ 64 }
    ensures { result ≡ get_bound levels }
{
    8 * levels
}

/// A power of two.
fn power_of_two(power: u64) -> u64
    requires { power ≤ 63 }
    ensures { result ≡ 2 ^ power }
{
    let mut reached: u64 = 1;
    for _ in 0..power {
        reached *= 2;
    }
    reached
}

/// The most cell accesses of a whole range, in a store of so many levels. Of more than 61 levels 64 bits
/// do not hold it.
pub fn range_bound(levels: u64) -> u64
    requires { levels ≤ 61 }
    ensures { result ≡ range_bound levels }
{
    9 * levels + power_of_two(levels + 2)
}

/// The most cell accesses of a command, in a store of so many levels, 61 at most.
pub fn command_bound(levels: u64, command: &Command) -> u64
    requires { levels ≤ 61 }
    ensures { result ≡ command_bound levels (command_with command.now) }
{
    match command {
        Command::Put(_, _) => put_bound(levels),
        Command::PutIf(_, _, _) => put_bound(levels),
        Command::Del(_) => put_bound(levels),
        Command::Get(_) => get_bound(levels),
        Command::Stamp(_) => get_bound(levels),
        Command::Range(_, _) => range_bound(levels),
        Command::Scan(_, _) => range_bound(levels),
        Command::Count => 0,
        Command::Close => 0,
        Command::Reopen => 0,
    }
}

/// The most cell accesses of a request, which may be no command, in a store of so many levels, 61 at most.
pub fn request_bound(levels: u64, request: &Option<Command>) -> u64
    requires { levels ≤ 61 }
    ensures { result ≡ request_bound levels (request_with request.now) }
{
    match request {
        Some(command) => command_bound(levels, command),
        None => 0,
    }
}
