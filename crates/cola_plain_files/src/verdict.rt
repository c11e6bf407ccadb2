//! The verdict on a file by a plain slow program, which holds the file's bytes and all cells of its levels in memory: whole lists,
//! one test after the other, with no care of blocks or time. It is for tests.

ghost use Rattle.std.specs.Prelude.{IfOk};
ghost use Rattle.cola_layout.specs.Fields.{fields_of};
ghost use Rattle.cola_plain_files.specs.File.{file_of};
ghost use Rattle.cola_verdict.specs.Tests.{tested_of};
ghost use Rattle.cola_verdict.specs.Verdict.{IsVerdict};

mod cells;
mod file;
mod flaws;
mod level;
mod levels;
mod runs;
mod seen;
mod tests;
mod verdicts;

use crate::verdict::file::{levels_of_file, lowest_bad};
use crate::verdict::flaws::{first_flaw, verdict_of_keys};
use cola_layout::Header;
use cola_verdict::{Flaw, Verdict};
use std::alloc::{AllocError, Global};

// The verdict, by the name that the proofs give the file: so they need not look into its cells.
fn verdict_of_file(alloc: Global, header: &Header, bytes: &[u8]) -> Result<Verdict, AllocError>
    ensures { IfOk result (IsVerdict (file_of header.now bytes.now)) }
{
    match lowest_bad(alloc, header, bytes)? {
        Some(at) => return Ok(Verdict::Broken(Flaw::Cell, at.0, at.1)),
        None => {}
    }
    let levels = levels_of_file(alloc, header, bytes)?;
    match first_flaw(alloc, header, levels.as_slice())? {
        Some(verdict) => Ok(verdict),
        None => verdict_of_keys(alloc, header, levels.as_slice()),
    }
}

/// The verdict on the file with this header and these bytes, all of them, the header's among them. A header says nothing of the
/// bytes: cells that they end before are bad. The time grows with the square of the number of cells. An error comes only for want
/// of memory.
pub fn verdict_of(alloc: Global, header: &Header, bytes: &[u8]) -> Result<Verdict, AllocError>
    ensures { IfOk result (IsVerdict (tested_of (fields_of header.now) bytes.now)) }
{
    verdict_of_file(alloc, header, bytes)
}
