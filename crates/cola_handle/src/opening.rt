//! How the store in a region is opened and closed.
ghost use Rattle.std.specs.Prelude.{◌≡◌, Some, IsSome, IfOk, IfErr};
ghost use Rattle.cola_image.specs.Standing.{FileStandsFor, with_state};
ghost use Rattle.cola_spec.specs.Map.{Map};
ghost use Rattle.cola_store.specs.Store.{terms_of};
ghost use Rattle.cola_kv.specs.Kv as kv_words;
ghost use Rattle.cola_kv.specs.Kv.{Holds};
ghost use Rattle.cola_kv.specs.Opened.{IsOpen};
ghost use Rattle.cola_mapped.specs.Mapped.{IsLent};
ghost use Rattle.cola_mapped.specs.Region.{bytes_in};
ghost use Rattle.cola_handle.specs.declared.answer.Answer.TheVariants.{Memory};
ghost use Rattle.cola_handle.specs.Lent.{StandsFor, HasTerms, HasClosed, OpenCause, AreLeft};
ghost use Rattle.cola_handle.specs.Marks.{AreMarked, refused_blocks, marks_in, place_in};
ghost use Rattle.cola_handle.specs.Open.{lent_device, lent_with, HoldsMap, place_of, device_of, first_of, first_marks_of, closing_blocks, marks_place_of};

use crate::answer::Answer;
use crate::marks::{LentDevice, LentMarks};
use crate::session::Session;
use cola_kv::Kv;
use cola_mapped::{Lent, MappedDevice, Region};
use cola_marks::MarkedDevice;
use std::alloc::Global;

/// No block is kept in a cache: the device is memory, and a copy there would be one more of the same bytes.
const CACHE: u32 = 0;

/// What was lent to a device: the bytes and their marks.
fn give_back(device: LentDevice) -> (Region, LentMarks)
    ensures bytes { result.0.bytes ≡ Some device.device.bytes }
    ensures at { result.0.at ≡ device.device.at }
    ensures len { result.0.len ≡ device.device.len }
    ensures marks { result.1 ≡ device.marks }
    ensures marked { AreMarked (marks_in device.first_marks) device.first.bytes device.writes (marks_in result.1) device.device.bytes }
{
    let (mapped, marks) = device.into_parts();
    (mapped.into_region(), marks)
}

/// Opens the store on a device over lent bytes, which gives these back where it was refused.
fn open_device(
    alloc: Global,
    device: LentDevice,
) -> Result<Kv<LentDevice>, (Region, LentMarks, Answer)>
    ensures opens { IfOk result (IsOpen lent_device device 0) }
    ensures holds { (m : Map) → FileStandsFor device.device.bytes m →
        IfOk result (λ kv. Holds lent_device kv m) }
    ensures terms { IfOk result (λ kv. HasTerms (terms_of kv.store) device.device.bytes) }
    ensures marked { IfOk result
        (λ kv. (kv_words.device_of kv).device.bytes ≡ with_state 1 device.device.bytes) }
    ensures kept { IfOk result (λ kv. lent_device.kept (kv_words.device_of kv) ≡ lent_device.kept device) }
    ensures cause { IfErr result (λ refusal. OpenCause device.device.bytes refusal.2) }
    ensures only { (m : Map) → FileStandsFor device.device.bytes m →
        IfErr result (λ refusal. refusal.2 ≡ Memory) }
    ensures back { IfErr result (λ refusal. refusal.0.bytes ≡ Some device.device.bytes) }
    ensures back_at { IfErr result (λ refusal. refusal.0.at ≡ device.device.at) }
    ensures back_len { IfErr result (λ refusal. refusal.0.len ≡ device.device.len) }
    ensures back_marks { IfErr result (λ refusal. place_in refusal.1 ≡ place_in device.marks) }
    ensures back_marked { IfErr result
        (λ refusal. AreMarked (marks_in device.first_marks) device.first.bytes device.writes (marks_in refusal.1) (bytes_in refusal.0.bytes)) }
{
    match Kv::open(alloc, device, CACHE) {
        Ok(kv) => Ok(kv),
        Err((device, error)) => {
            let (region, marks) = give_back(device);
            Err((region, marks, Answer::of(error)))
        }
    }
}

/// Opens the store in bytes that were lent, of which there are some.
fn open_lent(
    alloc: Global,
    lent: Lent,
    marks: LentMarks,
) -> Result<Box<Session>, (Region, LentMarks, Answer)>
    requires lent { IsLent lent.bytes }
    ensures holds { (m : Map) → StandsFor lent.bytes m →
        IfOk result (λ session. HoldsMap session.value m) }
    ensures marked { IfOk result
        (λ session. (device_of session.value).bytes ≡ with_state 1 (bytes_in lent.bytes)) }
    ensures place { IfOk result (λ session. place_of session.value ≡ (lent.at, lent.len)) }
    ensures first { IfOk result (λ session. first_of session.value ≡ bytes_in lent.bytes) }
    ensures first_marks { IfOk result (λ session. first_marks_of session.value ≡ marks_in marks) }
    ensures marks_place { IfOk result (λ session. marks_place_of session.value ≡ place_in marks) }
    ensures terms { IfOk result
        (λ session. HasTerms (terms_of session.value.kv.store) (bytes_in lent.bytes)) }
    ensures opens { IfOk result (λ session. IsOpen lent_device
        (lent_with lent.at lent.len (bytes_in lent.bytes) marks) 0 session.value.kv) }
    ensures cause { IfErr result (λ refusal. OpenCause (bytes_in lent.bytes) refusal.2) }
    ensures only { (m : Map) → StandsFor lent.bytes m →
        IfErr result (λ refusal. refusal.2 ≡ Memory) }
    ensures left { IfErr result
        (λ refusal. AreLeft (bytes_in lent.bytes) (bytes_in refusal.0.bytes) refusal.2) }
    ensures stands { (m : Map) → StandsFor lent.bytes m →
        IfErr result (λ refusal. StandsFor refusal.0.bytes m) }
    ensures back { IfErr result (λ refusal. IsSome refusal.0.bytes) }
    ensures back_at { IfErr result (λ refusal. refusal.0.at ≡ lent.at) }
    ensures back_len { IfErr result (λ refusal. refusal.0.len ≡ lent.len) }
    ensures back_marks { IfErr result (λ refusal. place_in refusal.1 ≡ place_in marks) }
    ensures back_marked { IfErr result
        (λ refusal. AreMarked (marks_in marks) (bytes_in lent.bytes) refused_blocks (marks_in refusal.1) (bytes_in refusal.0.bytes)) }
{
    let device = MarkedDevice::over(MappedDevice::over(lent), marks);
    let kv = match open_device(alloc, device) {
        Ok(kv) => kv,
        Err(refusal) => return Err(refusal),
    };
    match Box::new(alloc, Session { kv }) {
        Ok(session) => Ok(session),
        Err(refused) => {
            let (region, marks) = close(refused.value);
            Err((region, marks, Answer::Memory))
        }
    }
}

/// Opens the store in a region, which becomes the store's, with marks of its pages, as many as there are. An error gives both
/// back. A page behind the last mark has none.
///
/// `Small`, `NotStore`, `NotClosed`: the bytes are none of a store that was closed. `BadCell`: one of the cells that are read
/// here is damaged. These leave the bytes. `Memory`: there was none, and the bytes are those of the same store; where they
/// stand for a map, this is the only refusal.
pub fn open(
    alloc: Global,
    region: Region,
    marks: LentMarks,
) -> Result<Box<Session>, (Region, LentMarks, Answer)>
    requires bytes { IsSome region.bytes }
    ensures holds { (m : Map) → StandsFor region.bytes m →
        IfOk result (λ session. HoldsMap session.value m) }
    ensures marked { IfOk result
        (λ session. (device_of session.value).bytes ≡ with_state 1 (bytes_in region.bytes)) }
    ensures place { IfOk result (λ session. place_of session.value ≡ (region.at, region.len)) }
    ensures first { IfOk result (λ session. first_of session.value ≡ bytes_in region.bytes) }
    ensures first_marks { IfOk result (λ session. first_marks_of session.value ≡ marks_in marks) }
    ensures marks_place { IfOk result (λ session. marks_place_of session.value ≡ place_in marks) }
    ensures terms { IfOk result
        (λ session. HasTerms (terms_of session.value.kv.store) (bytes_in region.bytes)) }
    ensures opens { IfOk result (λ session. IsOpen lent_device
        (lent_with region.at region.len (bytes_in region.bytes) marks) 0 session.value.kv) }
    ensures cause { IfErr result (λ refusal. OpenCause (bytes_in region.bytes) refusal.2) }
    ensures only { (m : Map) → StandsFor region.bytes m →
        IfErr result (λ refusal. refusal.2 ≡ Memory) }
    ensures left { IfErr result
        (λ refusal. AreLeft (bytes_in region.bytes) (bytes_in refusal.0.bytes) refusal.2) }
    ensures stands { (m : Map) → StandsFor region.bytes m →
        IfErr result (λ refusal. StandsFor refusal.0.bytes m) }
    ensures back { IfErr result (λ refusal. IsSome refusal.0.bytes) }
    ensures back_at { IfErr result (λ refusal. refusal.0.at ≡ region.at) }
    ensures back_len { IfErr result (λ refusal. refusal.0.len ≡ region.len) }
    ensures back_marks { IfErr result (λ refusal. place_in refusal.1 ≡ place_in marks) }
    ensures back_marked { IfErr result
        (λ refusal. AreMarked (marks_in marks) (bytes_in region.bytes) refused_blocks (marks_in refusal.1) (bytes_in refusal.0.bytes)) }
{
    let lent = Lent::of(region);
    if lent.size() == 0 {
        return Err((lent.into_region(), marks, Answer::Small));
    }
    open_lent(alloc, lent, marks)
}

/// Closes the store: the region has its file, and is where it was; so are the marks. A page that has no mark is as it was when
/// the store was opened, and each block that was written since has marked at most 17.
pub fn close(session: Session) -> (Region, LentMarks)
    ensures given { HasClosed session (bytes_in result.0.bytes) }
    ensures stands { (m : Map) → HoldsMap session m → StandsFor result.0.bytes m }
    ensures terms { HasTerms (terms_of session.kv.store) (bytes_in result.0.bytes) }
    ensures place { (result.0.at, result.0.len) ≡ place_of session }
    ensures lent { IsSome result.0.bytes }
    ensures marked { AreMarked (first_marks_of session) (first_of session) (closing_blocks session) (marks_in result.1) (bytes_in result.0.bytes) }
    ensures marks_place { place_in result.1 ≡ marks_place_of session }
{
    let Session { kv } = session;
    match kv.close() {
        Ok(device) => give_back(device),
        Err(_) => unreachable!(),
    }
}
