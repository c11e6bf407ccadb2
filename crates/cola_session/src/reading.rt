//! The lines of a source, as the sessions take them.
ghost use Rattle.std.specs.Prelude.{◌≡◌, ◌∷◌, [], option_copied};
ghost use Rattle.cola_io.specs.Law.{line_told};
ghost use Rattle.cola_session.specs.Reading.{HoldsLine, line_read};

use cola_io::{LineReader, Next};

/// The most bytes of input: 2^40.
pub const INPUT_LIMIT: u64 = 1_099_511_627_776;

/// The text of the line that was answered, or none where it was too long.
pub fn text_of(reader: &LineReader, next: Next) -> Option<&[u8]>
    requires { HoldsLine next reader.now.line }
    ensures { line_read (option_copied result) ∷ [] ≡ line_told next reader.now.line }
{
    match next {
        Next::Line => Some(reader.text()),
        _ => None,
    }
}
