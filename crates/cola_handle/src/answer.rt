//! What a call from C answers.
use cola_kv::Error;

/// What a call answers. Its number is [`Answer::code`]; `include/cola.h` has the same numbers.
#[derive(Clone, Copy, Debug, PartialEq, Eq, Drop)]
pub enum Answer {
    /// The call was carried out.
    Done,
    /// The key is absent, or no row is left.
    Absent,
    /// The key has another stamp than the one that was seen.
    Other,
    /// The key is new, and the store has as many keys as it is for.
    Full,
    /// No stamp is left to give.
    Worn,
    /// The handle is not open.
    Closed,
    /// The handle is open already.
    InUse,
    /// A key has no bytes, or a key or a value has more than the version allows.
    Length,
    /// The number of keys, the block or the version is none that a store can have.
    Options,
    /// The bytes in which a store was to be made are not all zero.
    NotEmpty,
    /// The bytes have no store's header.
    NotStore,
    /// There are fewer bytes than the store has.
    Small,
    /// The store was not closed.
    NotClosed,
    /// A cell is damaged.
    BadCell,
    /// The levels are damaged: a run has no room.
    Overfull,
    /// There was no memory.
    Memory,
}

impl Answer {
    ghost use Rattle.std.specs.Prelude.{◌≡◌, pos};
    ghost use Rattle.cola_handle.specs.Numbers.{number, refused};

    /// Its number in C. The numbers 8 and 17 are those of answers that the C side gives by itself.
    pub fn code(self) -> i32
        ensures { result ≡ pos (number self) }
    {
        match self {
            Answer::Done => 0,
            Answer::Absent => 1,
            Answer::Other => 2,
            Answer::Full => 3,
            Answer::Worn => 4,
            Answer::Closed => 5,
            Answer::InUse => 6,
            Answer::Length => 7,
            Answer::Options => 9,
            Answer::NotEmpty => 10,
            Answer::NotStore => 11,
            Answer::Small => 12,
            Answer::NotClosed => 13,
            Answer::BadCell => 14,
            Answer::Overfull => 15,
            Answer::Memory => 16,
        }
    }

    /// The answer that tells an error. `Device` has none of its own: a device over lent bytes does not fail.
    pub fn of(error: Error) -> Answer
        ensures { result ≡ refused error }
    {
        match error {
            Error::KeyLength | Error::ValueLength => Answer::Length,
            Error::Keys | Error::Block => Answer::Options,
            Error::NotEmpty => Answer::NotEmpty,
            Error::NotStore => Answer::NotStore,
            Error::Small | Error::Device => Answer::Small,
            Error::NotClosed => Answer::NotClosed,
            Error::BadCell(_) => Answer::BadCell,
            Error::OutOfMemory => Answer::Memory,
            Error::Full => Answer::Full,
            Error::Worn => Answer::Worn,
            Error::Overfull(_) => Answer::Overfull,
        }
    }
}
