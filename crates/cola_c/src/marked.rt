//! A store whose pages are marked before they are written, in bytes that the caller lends for that.
ghost use Rattle.std.specs.Prelude.{◌≡◌, pos, None, IsSome};
ghost use Rattle.cola_handle.specs.declared.answer.Answer.TheVariants as answer;
ghost use Rattle.cola_handle.specs.Numbers.{number};
ghost use Rattle.cola_c.specs.Exports.{IfClosed, IfOpen, Tells};
ghost use Rattle.cola_c.specs.Marked.{OpensMarked, IsMarkedRefused};

use cola_handle::{Answer, Cola, LentMarks};
use cola_mapped::Region;
use std::alloc::Global;

/// Opens the store in the region, with a mark for each page of 4,096 bytes, as many as there are. Both become the store's: then
/// two empty regions are left. An error gives both back.
#[unsafe(no_mangle)]
pub extern "C" fn cola_core_open_marked(
    alloc: Global,
    cola: &mut Cola,
    region: &mut Region,
    marks: &mut Region,
) -> i32
    requires bytes { IsSome region.old.bytes }
    requires marks { IsSome marks.old.bytes }
    ensures in_use { IfOpen cola.old (λ _. (result ≡ pos (number answer.InUse)) × (cola.new ≡ cola.old)
        × (region.new ≡ region.old) × (marks.new ≡ marks.old)) }
    ensures opened { IfClosed cola.old (IfOpen cola.new (λ session. (result ≡ pos (number answer.Done))
        × (region.new.bytes ≡ None) × (marks.new.bytes ≡ None) × OpensMarked region.old marks.old session)) }
    ensures refused { IfClosed cola.old (IfClosed cola.new
        (Tells result (IsMarkedRefused region.old marks.old region.new marks.new))) }
{
    if cola.is_open() {
        return Answer::InUse.code();
    }
    let bytes = std::mem::replace(region, Region::none());
    let lent = LentMarks::of(std::mem::replace(marks, Region::none()));
    match cola_handle::open(alloc, bytes, lent) {
        Ok(session) => {
            cola.put(alloc, session);
            Answer::Done.code()
        }
        Err((bytes, lent, answer)) => {
            *region = bytes;
            *marks = lent.into_region();
            answer.code()
        }
    }
}
