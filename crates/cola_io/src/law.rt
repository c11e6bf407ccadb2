//! The law of a line reader.
ghost use Rattle.std.specs.Prelude.{ℕ};
ghost use Rattle.cola_io.specs.Law.{LinesAreRead};

/// However a source cuts its bytes, and whatever its faults, the lines that a reader tells, in
/// order, are those of the bytes that it took.
///
/// For every list of calls of a new reader of `limit` bytes: where one more answers `End`, the
/// lines told are all lines of the bytes, which are fewer than `limit`; where it answers `Fault`,
/// they are the lines of the bytes that a line feed ends; where it answers `Budget`, they are that
/// too, and the bytes are `limit` in number.
///
/// A loop of calls keeps `HasRead limit bytes told now`, of `specs/Law.antt`: it holds of a new
/// reader by `HasRead-fresh`, and after one more call by `HasRead-then`; `told-last` gives what the
/// last answer tells. These stand in `proofs/LineLaws.antt`, which also has what `raw_lines` and
/// `ended_lines` are of joined bytes.
pub fn lines_are_read()
    ensures { (limit : ℕ) → LinesAreRead limit }
{}
