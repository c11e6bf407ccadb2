//! Laws of what a device asks of its file. Each is a function with nothing to run: what it ensures is the law, for files of
//! any type.
ghost use Rattle.std.specs.Prelude.{ℕ, List};
ghost use Rattle.cola_filedev.specs.Laws.{OpensAsWanted, StaysRefused, HidesNone, LaysOutTheSize, RefusedLayoutIsSmall, ReadsWhole, WritesWhole, HeaderIsLast};
ghost use Rattle.cola_filedev.specs.Work.{InPieces, Written, Laid};

use crate::access::{OpenedFile, Opener};

/// A file is opened to be read and written, and made where that was wanted. It is not emptied, nor appended to.
pub fn opens_as_wanted()
    ensures { OpensAsWanted }
{}

/// After a refused opening the call that made it is a fault, and so is every later one.
pub fn stays_refused<O: Opener>()
    ensures size { StaysRefused O.opened O.File.sized }
    ensures layout { (size : ℕ) → StaysRefused O.opened (Laid O.File.cut size) }
    ensures read { (at : ℕ) (before after : List ℕ) → StaysRefused O.opened (λ old answer new. InPieces O.File.gave old at before answer after new) }
    ensures write { (at : ℕ) (from : List ℕ) → StaysRefused O.opened (λ old answer new. Written O.File.took O.File.synced old at from answer new) }
    ensures settle { StaysRefused O.opened O.File.synced }
{}

/// A call is carried out only where the file was open, and answered so itself.
pub fn hides_no_refusal<O: Opener>()
    ensures size { HidesNone O.opened O.File.sized }
    ensures layout { (size : ℕ) → HidesNone O.opened (Laid O.File.cut size) }
    ensures read { (at : ℕ) (before after : List ℕ) → HidesNone O.opened (λ old answer new. InPieces O.File.gave old at before answer after new) }
    ensures write { (at : ℕ) (from : List ℕ) → HidesNone O.opened (λ old answer new. Written O.File.took O.File.synced old at from answer new) }
    ensures settle { HidesNone O.opened O.File.synced }
{}

/// A layout leaves exactly the size asked for, and one that was refused no more than that.
pub fn lays_out_the_size<F: OpenedFile>()
    ensures laid { LaysOutTheSize F.cut }
    ensures refused { RefusedLayoutIsSmall F.cut }
{}

/// A read that is carried out, in however many pieces, gave the bytes of its range.
pub fn reads_whole<F: OpenedFile>()
    ensures { ReadsWhole F.gave }
{}

/// A write that is carried out, in however many pieces, put its bytes there and left all others.
pub fn writes_whole<F: OpenedFile>()
    ensures { WritesWhole F.took F.synced }
{}

/// A write that has byte 0 leaves the first 512 bytes as they are until all its other bytes stand in the file and are synced.
pub fn header_is_last<F: OpenedFile>()
    ensures { HeaderIsLast F.took F.synced }
{}
