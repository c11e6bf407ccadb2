//! What the definitions of a session say in plain terms. Each function does nothing: its clauses are the law.
ghost use Rattle.std.specs.Prelude.{◌≡◌, ℕ, ◌-◌, ◌^◌, ◌≤◌, ◌<◌, min, true, List, [], ◌∷◌, length, take, Option};
ghost use Rattle.std.specs.Io.KnownBytes.{IsAtEnd};
ghost use Rattle.cola_io.specs.Law.{all_ended_lines};
ghost use Rattle.cola_io.specs.Reads.{Read, WasRead, GaveSome, bytes_read, met_end};
ghost use Rattle.cola_io.specs.Streams.{Taken, Appended};
ghost use Rattle.cola_spec.specs.Lines.{Line, Text};
ghost use Rattle.cola_session.specs.Ends.{WroteFront};
ghost use Rattle.cola_session.specs.Reading.{AllAnswered, ReadFor};

use cola_io::Source;

/// All lines that have ended are answered: with a line that ended and no answer they are not, nor with two lines and one
/// answer; a line that has not ended needs none.
pub fn all_answered_is_no_line_ahead()
    ensures none { AllAnswered [] (97 ∷ 10 ∷ []) → ⊥ }
    ensures one_of_two { AllAnswered (Text (97 ∷ []) ∷ []) (97 ∷ 10 ∷ 98 ∷ 10 ∷ 99 ∷ []) → ⊥ }
    ensures pending { AllAnswered (Text (97 ∷ []) ∷ []) (97 ∷ 10 ∷ 98 ∷ []) }
{}

/// The reads for lines: each asks for 512 bytes or for what is left of 2^40, while no line that has ended is unanswered and
/// behind reads that gave bytes alone; the source lost the bytes that they gave, and is at its end where the last met it.
pub fn reads_are_for_lines<S: Source>()
    ensures last { (answered : List Line) (source source' : S) (read : Read) (earlier : List Read) →
        ReadFor S.Source answered source (read ∷ earlier) source' →
        (length (all_ended_lines (bytes_read earlier)) ≤ length answered) × ((read.asked ≡ min 512 (2 ^ 40 - length (bytes_read earlier))) × ((length (bytes_read earlier) < 2 ^ 40) × GaveSome earlier)) }
    ensures reads { (answered : List Line) (source source' : S) (reads : List Read) →
        ReadFor S.Source answered source reads source' →
        WasRead S.Source source reads source' × (Taken (bytes_read reads) (S.left source) (S.left source') × (met_end reads ≡ true → IsAtEnd (S.left source'))) }
{}

/// Of a text that was not written whole some front was, of as many bytes at least as are said.
pub fn fronts_have_the_least()
    ensures { (text : List ℕ) (least : ℕ) (written written' : Option (List ℕ)) →
        WroteFront text least written written' →
        (size : ℕ) × ((least ≤ size) × Appended (take size text) written written') }
{}
