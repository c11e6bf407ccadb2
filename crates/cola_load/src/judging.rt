//! The rows of lines that come one after another.
ghost use Rattle.std.specs.Prelude.{◌≡◌, ◌<◌, ◌^◌, ℕ, None, option_copied};
ghost use Rattle.cola_load.specs.Said.{as_line, SaidFits};
ghost use Rattle.cola_load.specs.Rows.{is_bad, is_not_above, is_out_of_order, is_too_many, word_at};
ghost use Rattle.cola_load.specs.Judged.{AnswerFits, Judged, given, settled, start, telling};

use crate::answer::{RowLine, Word};
use crate::said::{Said, said_by};
use cola_cell::{Format, Key};
use std::marker::Model;

/// Judges the lines of a list, one after another, for a store of so many keys in a format.
///
/// Its rows are the lines `row K V`, by strictly rising keys. Empty lines are left out, and the last line that is not empty may
/// be `end M`, where M is the number of rows in 1 to 10 decimal digits. It takes no memory.
#[derive(Drop)]
pub struct Rows {
    keys: u64,
    format: Format,
    lines: u64,
    rows: u64,
    last: Option<Key>,
    ended: bool,
    word: Option<Word>,
}

impl Model for Rows {
    ghost use Rattle.std.specs.Prelude.{◌≤◌};
    ghost use Rattle.cola_load.specs.Judged.{Judging};

    ghost Value = { Judging };

    ghost view = { λ r. record {
      keys = r.keys;
      format = r.format;
      before = record { lines = r.lines; rows = r.rows; last = r.last; ended = r.ended };
      word = r.word;
    } };

    ghost invariant = { λ r. r.rows ≤ r.lines };
}

/// The answer that tells a word.
fn told(word: Word) -> RowLine
    ensures { result ≡ telling word }
{
    match word {
        Word::Bad(line) => RowLine::Bad(line),
        Word::Order(line) => RowLine::Order(line),
        Word::Full(line) => RowLine::Full(line),
    }
}

impl Rows {
    /// Before the first line.
    pub fn begin(keys: u64, format: Format) -> Rows
        ensures { result ≡ start keys format }
    {
        Rows {
            keys,
            format,
            lines: 0,
            rows: 0,
            last: None,
            ended: false,
            word: None,
        }
    }

    /// Whether the form is broken by what a line says.
    fn is_bad(&self, says: &Said) -> bool
        ensures { result ≡ is_bad self.now.before says.now }
    {
        match says {
            Said::Nothing => false,
            Said::Row(_, _) => self.ended,
            Said::End(rows) => self.ended || *rows != self.rows,
            Said::Other => true,
        }
    }

    /// Whether a key is not above the last one.
    fn is_not_above(&self, key: &Key) -> bool
        ensures { result ≡ is_not_above self.now.before.last key.now }
    {
        match &self.last {
            Some(last) => key.cmp(last).is_le(),
            None => false,
        }
    }

    /// Whether a row that is said has a key that is not above that of the row before.
    fn is_out_of_order(&self, says: &Said) -> bool
        ensures { result ≡ is_out_of_order self.now.before says.now }
    {
        match says {
            Said::Row(key, _) => self.is_not_above(key),
            _ => false,
        }
    }

    /// Whether a row is said and there is no room for one more.
    fn is_too_many(&self, says: &Said) -> bool
        ensures { result ≡ is_too_many self.now.keys self.now.before says.now }
    {
        match says {
            Said::Row(_, _) => self.rows >= self.keys,
            _ => false,
        }
    }

    /// The word of the next line, where it says this.
    fn word_at(&self, says: &Said) -> Option<Word>
        requires { self.now.before.lines < 2 ^ 40 }
        ensures { result ≡ word_at self.now.keys self.now.before says.now }
    {
        let number = self.lines + 1;
        if self.is_bad(says) {
            Some(Word::Bad(number))
        } else if self.is_out_of_order(says) {
            Some(Word::Order(number))
        } else if self.is_too_many(says) {
            Some(Word::Full(number))
        } else {
            None
        }
    }

    /// Counts a line that says this and has no word, and gives its answer.
    fn count(&mut self, says: &Said) -> RowLine
        requires no_word { self.old.word ≡ None }
        requires few { self.old.before.lines < 2 ^ 40 }
        ensures answer { result ≡ given says.now }
        ensures state { self.new ≡ settled None self.old says.now }
    {
        self.lines += 1;
        match says {
            Said::Row(key, value) => {
                self.rows += 1;
                self.last = Some(*key);
                RowLine::Row(*key, *value)
            }
            Said::End(_) => {
                self.ended = true;
                RowLine::Nothing
            }
            _ => RowLine::Nothing,
        }
    }

    /// Judges the next line, of which the text is given, or none where it is longer than 160 bytes.
    ///
    /// `Row` for a row; `Nothing` for an empty line or an end that has the number of the rows before it. The first of these that
    /// is so is answered with the line's number, and then no line may be given any more: `Bad` where the line is neither, or
    /// stands behind an end; `Order` where the key is not above the last one; `Full` behind as many rows as there are keys.
    pub fn line(&mut self, text: Option<&[u8]>) -> RowLine
        requires no_word { self.old.word ≡ None }
        requires few { self.old.before.lines < 2 ^ 40 }
        ensures judged { Judged self.old (as_line (option_copied text.entry)) result self.new }
        ensures fits { AnswerFits self.old.format result }
    {
        let says = said_by(text, self.format);
        match self.word_at(&says) {
            Some(word) => {
                self.word = Some(word);
                told(word)
            }
            None => self.count(&says),
        }
    }

    /// The word of the last line, where it had one.
    pub fn word(&self) -> Option<Word>
        ensures { result ≡ self.now.word }
    {
        self.word
    }
}
