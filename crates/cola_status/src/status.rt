//! The statuses that the program ends with: the number of each, and what it means.
ghost use Rattle.std.specs.Prelude.{◌≡◌};
ghost use Rattle.std.specs.Array.Iter.{array_into_iter_items};
ghost use Rattle.cola_status.specs.Statuses.{all_statuses, number_of};
ghost use Rattle.cola_status.specs.Texts.{text_of};

use std::array;

/// How the program ends.
#[derive(Clone, Copy, Debug, PartialEq, Eq, Drop)]
pub enum Status {
    Done = 0,
    OutOfMemory = 1,
    WrongWords = 2,
    SourceFailed = 3,
    SinkFailed = 4,
    DeviceFailed = 5,
    NotStore = 6,
    NotClosed = 7,
    NotEmpty = 8,
    Spent = 9,
    BadCell = 10,
    NoRoom = 11,
    AlreadyWide = 12,
    Broken = 13,
    BadLine = 14,
    TooFewKeys = 15,
    FilesDiffer = 16,
    FirstLost = 17,
    SecondLost = 18,
}

impl Status {
    /// All of them, in the order of their numbers.
    pub fn all() -> array::IntoIter<Status, 19>
        ensures { array_into_iter_items result ≡ all_statuses }
    {
        [
            Status::Done,
            Status::OutOfMemory,
            Status::WrongWords,
            Status::SourceFailed,
            Status::SinkFailed,
            Status::DeviceFailed,
            Status::NotStore,
            Status::NotClosed,
            Status::NotEmpty,
            Status::Spent,
            Status::BadCell,
            Status::NoRoom,
            Status::AlreadyWide,
            Status::Broken,
            Status::BadLine,
            Status::TooFewKeys,
            Status::FilesDiffer,
            Status::FirstLost,
            Status::SecondLost,
        ]
        .into_iter()
    }

    /// The exit status.
    pub fn number(self) -> u8
        ensures { result ≡ number_of self }
    {
        self as u8
    }

    /// What it means, in a few words.
    pub fn text(self) -> &'static str
        ensures { result.now ≡ text_of self }
    {
        match self {
            Status::Done => {
                "all was done; a session read its input to the end, wrote all replies and closed its file"
            }
            Status::OutOfMemory => {
                "there was no memory, or the words could not be taken; no line was read"
            }
            Status::WrongWords => "the words are none of its modes; nothing was read or written",
            Status::SourceFailed => "reading the input failed; the lines before were answered",
            Status::SinkFailed => {
                "writing the replies failed; what was written is the beginning of them"
            }
            Status::DeviceFailed => {
                "a file could not be opened, read, laid out, written or closed; one that was empty may have a part of its bytes"
            }
            Status::NotStore => "the file has no store, or not all of one",
            Status::NotClosed => "the store in the file was not closed",
            Status::NotEmpty => "the file that was to be made is not empty; it was not changed",
            Status::Spent => {
                "2^40 bytes of input were read; every line among them that a line feed ends was answered"
            }
            Status::BadCell => "a cell of the file is damaged",
            Status::NoRoom => "there was no room for a put or a delete",
            Status::AlreadyWide => "the file is of version 2 already; it was not changed",
            Status::Broken => {
                "the file stands for no map; the line that was written says why; it was not changed"
            }
            Status::BadLine => {
                "a line of the input is no row, is out of order or has no room; the line that was written says which; the new file is no store"
            }
            Status::TooFewKeys => {
                "the file has more keys than the new one is for; nothing was written"
            }
            Status::FilesDiffer => "the two files of a mirror differ; nothing was read or written",
            Status::FirstLost => {
                "all was done, and the first file of the mirror was lost: the second one has what was written"
            }
            Status::SecondLost => {
                "all was done, and the second file of the mirror was lost: the first one has what was written"
            }
        }
    }
}
