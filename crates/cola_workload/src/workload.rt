//! The stated workload over a new file.
ghost use Rattle.std.specs.Prelude.{◌≡◌, ◌⊎◌, ◌+◌, ◌≤◌, ◌++◌, ℕ, length, decimal, IfOk, IsSomeAnd};
ghost use Rattle.cola_outside.specs.Faults.{Rose};
ghost use Rattle.cola_cell.specs.declared.format.Format.TheVariants.{One};
ghost use Rattle.cola_gen.specs.Turns.{HasCounted};
ghost use Rattle.cola_report.specs.Line.{LineEnds};
ghost use Rattle.cola_store.specs.Create.{Made};
ghost use Rattle.cola_store.specs.Sessions.{IsStoreOpened, IsStoreOwed};
ghost use Rattle.cola_store.specs.Store.{Stored, device_in};
ghost use Rattle.cola_words.specs.Sizes.{SuitStore};
ghost use Rattle.cola_workload.specs.Workload as spec;
ghost use Rattle.cola_workload.specs.Workload.{workload_line, ClosedOnce, ClosedLate, AskEnds, FillEnds, FillFaults, filled_device, GenEnds, FaultsCaused, EndsOnEmpty};
ghost use Rattle.cola_run.specs.Store as run;

use crate::refused::opening_status;
use cola_cell::{Format, ReadFault};
use cola_device::Device;
use cola_gen::{Tally, generate, verify};
use cola_io::Sink;
use cola_outside::Steps;
use cola_report::{Text, push_bytes, push_number, write_line};
use cola_status::Status;
use cola_store::{Closing, CreateFault, Store, create_as};
use cola_table::{PutFault, Table};
use std::alloc::Global;
use std::sync::ledger::Ledger;

/// A word and a number.
fn push_part(text: &mut Text, word: &[u8], number: u64)
    requires { length text.old.items + length word.now ≤ 140 }
    ensures text { text.new.items ≡ text.old.items ++ word.now ++ decimal number }
    ensures short { length text.new.items ≤ length text.old.items + length word.now + 20 }
{
    push_bytes(text, word);
    push_number(text, number);
}

/// The line of a tally and the number of keys that are left.
fn line_of(tally: &Tally, left: u64) -> Text
    ensures { result.items ≡ workload_line tally.now left }
{
    let mut text = Text::new();
    push_part(&mut text, b"new ", tally.fresh);
    push_part(&mut text, b" gone ", tally.gone);
    push_part(&mut text, b" left ", left);
    push_part(&mut text, b" wrong ", tally.wrong);
    push_part(&mut text, b" over ", tally.over);
    push_bytes(&mut text, b"\n");
    text
}

/// Writes the line, and gives the status.
fn write_tally<K: Sink>(tally: &Tally, left: u64, sink: &mut K) -> u8
    ensures { LineEnds K.Sink (workload_line tally.now left) 0 sink.old sink.new result }
{
    let text = line_of(tally, left);
    write_line(text.as_slice(), Status::Done as u8, sink)
}

/// The status where the file was not made.
fn making_status(fault: CreateFault) -> u8
    ensures { result ≡ spec.making_status fault }
{
    match fault {
        CreateFault::Device => Status::DeviceFailed as u8,
        CreateFault::NotEmpty => Status::NotEmpty as u8,
        // (there is a store of these sizes)
        CreateFault::Keys => Status::WrongWords as u8,
        CreateFault::Block => Status::WrongWords as u8,
    }
}

/// The status where a put or a delete was refused.
fn filling_status(fault: PutFault) -> u8
    ensures { result ≡ spec.filling_status fault }
{
    match fault {
        PutFault::Device => Status::DeviceFailed as u8,
        PutFault::BadCell(_) => Status::BadCell as u8,
        PutFault::Overfull(_) => Status::NoRoom as u8,
        PutFault::Full => Status::NoRoom as u8,
        PutFault::Worn => Status::NoRoom as u8,
    }
}

/// The status where a get was refused.
fn asking_status(fault: ReadFault) -> u8
    ensures { result ≡ spec.asking_status fault }
{
    match fault {
        ReadFault::Device => Status::DeviceFailed as u8,
        ReadFault::BadCell(_) => Status::BadCell as u8,
    }
}

/// Closes a store, in one attempt, and gives the device, whatever it answers.
fn close_once<D: Device>(store: Store<D>) -> D
    ensures closed { ClosedOnce D.Device store result }
    ensures faults_stay { (D.counts (device_in store)).faults ≤
        (D.counts result).faults }
    ensures kept { D.kept result ≡ D.kept (device_in store) }
{
    match store.close() {
        Ok(device) => device,
        Err(closing) => closing.into_device(),
    }
}

/// Tries once more to close a store, and gives the device, whatever it answers.
fn close_again<D: Device>(closing: Closing<D>) -> D
    ensures closed { (store : Stored D) → IsStoreOwed D.Device store closing →
        ClosedLate D.Device store result }
    ensures faults_stay { (D.counts (run.device_of closing.runs)).faults ≤
        (D.counts result).faults }
    ensures kept { D.kept result ≡ D.kept (run.device_of closing.runs) }
{
    match closing.close() {
        Ok(device) => device,
        Err(closing) => closing.into_device(),
    }
}

/// Asks an open store for each key, closes it, and writes the line.
fn ask_store<K: Sink, D: Device, L: Ledger>(
    keys: u32,
    tally: Tally,
    store: Store<D>,
    sink: &mut K,
    steps: &mut Steps<L>,
) -> (D, u8)
    requires { HasCounted 0 tally }
    ensures ends { (before : D) → IsStoreOpened D.Device before 0 store →
        AskEnds K.Sink D.Device ⟦<Store<D> as Table>⟧ keys before result.0 tally sink.old sink.new steps.old steps.new result.1 }
    ensures faults { FaultsCaused result.1 (D.counts (device_in store)).faults
        (D.counts result.0).faults }
    ensures kept { D.kept result.0 ≡ D.kept (device_in store) }
{
    let mut tally = tally;
    let mut store = store;
    let levels = store.levels();
    match verify(&mut store, keys, levels, &mut tally, steps) {
        Ok(()) => {}
        Err(fault) => return (close_once(store), asking_status(fault)),
    }
    let left = store.count();
    match store.close() {
        Ok(device) => (device, write_tally(&tally, left, sink)),
        Err(closing) => (close_again(closing), Status::DeviceFailed as u8),
    }
}

/// Opens the file again, asks for each key, closes it, and writes the line.
fn ask_file<K: Sink, D: Device, L: Ledger>(
    alloc: Global,
    keys: u32,
    tally: Tally,
    device: D,
    sink: &mut K,
    steps: &mut Steps<L>,
) -> (D, u8)
    requires { HasCounted 0 tally }
    ensures ends { AskEnds K.Sink D.Device ⟦<Store<D> as Table>⟧ keys device result.0 tally sink.old sink.new steps.old steps.new result.1 }
    ensures faults { FaultsCaused result.1 (D.counts device).faults (D.counts result.0).faults }
    ensures kept { D.kept result.0 ≡ D.kept device }
{
    match Store::open_on(alloc, device, 0, steps) {
        Ok(store) => ask_store(keys, tally, store, sink, steps),
        Err((device, fault)) => (device, opening_status(fault)),
    }
}

/// Puts and deletes the keys in an open store, and closes it.
fn fill_store<D: Device, L: Ledger>(
    keys: u32,
    store: Store<D>,
    steps: &mut Steps<L>,
) -> Result<(D, Tally), (D, u8)>
    ensures ends { (before made : D) → Made D.Device One keys 5 before made →
        IsStoreOpened D.Device made 0 store →
        FillEnds D.Device ⟦<Store<D> as Table>⟧ keys before steps.old steps.new result }
    ensures faults { FillFaults D.Device
        (D.counts (device_in store)).faults result }
    ensures counted { IfOk result (λ filled. HasCounted 0 filled.1) }
    ensures kept { D.kept (filled_device result) ≡ D.kept (device_in store) }
{
    let mut tally = Tally {
        fresh: 0,
        gone: 0,
        wrong: 0,
        over: 0,
    };
    let mut store = store;
    let levels = store.levels();
    match generate(&mut store, keys, levels, &mut tally, steps) {
        Ok(()) => {}
        Err(fault) => return Err((close_once(store), filling_status(fault))),
    }
    match store.close() {
        Ok(device) => Ok((device, tally)),
        Err(closing) => Err((close_again(closing), Status::DeviceFailed as u8)),
    }
}

/// Opens a new file, puts and deletes the keys, and closes it.
fn fill_file<D: Device, L: Ledger>(
    alloc: Global,
    keys: u32,
    device: D,
    steps: &mut Steps<L>,
) -> Result<(D, Tally), (D, u8)>
    ensures ends { FillEnds D.Device ⟦<Store<D> as Table>⟧ keys device steps.old steps.new result }
    ensures faults { FillFaults D.Device (D.counts device).faults result }
    ensures counted { IfOk result (λ filled. HasCounted 0 filled.1) }
    ensures kept { D.kept (filled_device result) ≡ D.kept device }
{
    let mut device = device;
    match create_as(&mut device, keys as u64, 5, Format::One) {
        Ok(()) => {}
        Err(fault) => return Err((device, making_status(fault))),
    }
    match Store::open_on(alloc, device, 0, steps) {
        Ok(store) => fill_store(keys, store, steps),
        Err((device, fault)) => Err((device, opening_status(fault))),
    }
}

/// Completeness: on a device that tells that it is empty, with no fault of it or of the sink, the workload ends with status 0,
/// or with 1 where there was no memory to open its file.
pub fn new_workloads_complete<K: Sink, D: Device>()
    ensures { (keys status : ℕ) (sink sink' : K) (device device' : D) →
        EndsOnEmpty K.Sink keys sink sink' (D.bytes device') status →
        FaultsCaused status (D.counts device).faults (D.counts device').faults →
        (Rose (D.counts device).faults (D.counts device').faults → ⊥) → (Rose (K.faults sink) (K.faults sink') → ⊥) → (status ≡ 0) ⊎ (status ≡ 1) }
{}

/// Makes a file for so many keys in format One, with blocks of 32 cells, and carries out the stated workload on it: opens
/// it, puts and deletes the keys, closes it, opens it again, gets each key, and closes it. Then it writes one line: the puts
/// that made a key, the deletes that found theirs, the keys that are left, the gets with another answer than the expected
/// one, and the calls that made more steps than their bounds.
///
/// The first call that is refused ends it. A store that is not closed then is closed in one attempt, nothing is written,
/// and the status says which call it was: 1 where there was no memory to open the file, 5 where the device failed, 6 where
/// an opening found no store, 7 where it found one in use, 8 where the device has bytes at the start, 10 where a cell is no
/// spelling, and 11 where a put or a delete found no room. It is 4 where the sink failed, and else 0.
pub fn serve_workload<K: Sink, D: Device, L: Ledger>(
    alloc: Global,
    keys: u32,
    sink: &mut K,
    device: D,
    steps: &mut Steps<L>,
) -> (D, u8)
    requires { SuitStore keys 5 }
    ensures ends { GenEnds K.Sink D.Device ⟦<Store<D> as Table>⟧ keys device result.0 sink.old sink.new steps.old steps.new result.1 }
    ensures faults { FaultsCaused result.1 (D.counts device).faults (D.counts result.0).faults }
    ensures kept { D.kept result.0 ≡ D.kept device }
    ensures on_empty { IsSomeAnd (D.bytes device) (λ bytes. length bytes ≡ 0) →
        EndsOnEmpty K.Sink keys sink.old sink.new (D.bytes result.0) result.1 }
{
    match fill_file(alloc, keys, device, steps) {
        Ok((device, tally)) => ask_file(alloc, keys, tally, device, sink, steps),
        Err(refused) => refused,
    }
}
