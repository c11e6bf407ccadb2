//! What follows from how a line is written. The function does nothing: its clause is the law.
ghost use Rattle.std.specs.Prelude.{ℕ, List};
ghost use Rattle.cola_report.specs.Laws.{LineSays};
ghost use Rattle.cola_report.specs.Line.{LineEnds};

use cola_io::Sink;

/// A line is written whole, and the status is that of success; or some front of it is, the sink failed, and the status is 4.
pub fn lines_are_written<K: Sink>()
    ensures { (text : List ℕ) (success status : ℕ) (sink sink' : K) →
        LineEnds K.Sink text success sink sink' status →
        LineSays K.Sink sink sink' text success status }
{}
