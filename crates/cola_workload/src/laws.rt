//! What the definitions of how a workload ends say in plain terms, with the numbers of four
//! keys. Each function does nothing: its clauses are the law.
ghost use Rattle.std.specs.Prelude.{◌≡◌, ◌⊎◌, ℕ, ◌+◌, ◌*◌, ◌≤◌, List, [], ◌∷◌, ◌++◌, length, take, codes, Option, Result, Ok, Err, IsSomeAnd};
ghost use Rattle.cola_outside.specs.Faults.{Rose};
ghost use Rattle.cola_cell.specs.declared.fault.ReadFault.{ReadFault};
ghost use Rattle.cola_cell.specs.declared.fault.ReadFault.TheVariants as read;
ghost use Rattle.cola_cell.specs.declared.format.Format.TheVariants.{One};
ghost use Rattle.cola_gen.specs.Answered.{AllAnswered, State, Stopped, at, read_refused};
ghost use Rattle.cola_gen.specs.Commands.{deletes, gets, puts};
ghost use Rattle.cola_gen.specs.Keys.{HasOdd};
ghost use Rattle.cola_gen.specs.Turns.{wrong_in};
ghost use Rattle.cola_gen.specs.declared.Tally.{Tally};
ghost use Rattle.cola_image.specs.Standing.{FileStandsFor};
ghost use Rattle.cola_io.specs.Counted.{after_fault};
ghost use Rattle.cola_io.specs.Streams.{Appended};
ghost use Rattle.cola_spec.specs.Bounds.{get_bound, put_bound};
ghost use Rattle.cola_spec.specs.Map.{Map, empty_map};
ghost use Rattle.cola_store.specs.Close.{IsClosed, StillOwes};
ghost use Rattle.cola_store.specs.Create.{Created, Made};
ghost use Rattle.cola_store.specs.Sessions.{IsStoreClosed, IsStoreOpened, IsStoreOwed, OpensStore};
ghost use Rattle.cola_store.specs.Store.{Holds, Stored, kept_of, spent_of, terms_of};
ghost use Rattle.cola_store.specs.Table.{store_table};
ghost use Rattle.cola_store.specs.declared.closing.Closing.{Closing};
ghost use Rattle.cola_store.specs.declared.fault.CreateFault.{CreateFault};
ghost use Rattle.cola_store.specs.declared.fault.CreateFault.TheVariants as create;
ghost use Rattle.cola_store.specs.declared.fault.OpenFault.{OpenFault};
ghost use Rattle.cola_workload.specs.Refused.{refusal_status};
ghost use Rattle.cola_table.specs.Answers.{PutFaults, ReadFaults};
ghost use Rattle.cola_table.specs.Replies.{put_refused};
ghost use Rattle.cola_table.specs.declared.PutFault.{PutFault};
ghost use Rattle.cola_table.specs.declared.PutFault.TheVariants as put;
ghost use Rattle.cola_workload.specs.Workload.{Asked, Asks, AskingRefused, ClosedLate, ClosedOnce, EndsOnEmpty, FaultsCaused, Filled, FillingRefused, Fills, GenEnds, IsFileOfOdd, WasAsked, WasFilled, asking_status, filling_status, making_status, no_tally, right_line, workload_line};
ghost use Rattle.cola_run.specs.Store as run;

use cola_device::Device;
use cola_io::Sink;

/// The line of a tally and of the keys that are left, and that of four keys where every call answers as a map does: three
/// keys are put, two of them deleted, and one is left.
pub fn worked_lines()
    ensures each { (tally : Tally) → tally.fresh ≡ 1 → tally.gone ≡ 2 → tally.wrong ≡ 4 →
        tally.over ≡ 5 →
        workload_line tally 3 ≡ codes "new 1 gone 2 left 3 wrong 4 over 5" ++ 10 ∷ [] }
    ensures right { right_line 4 ≡ codes "new 3 gone 2 left 1 wrong 0 over 0" ++ 10 ∷ [] }
    ensures begun { (no_tally.fresh ≡ 0)
        × ((no_tally.gone ≡ 0) × ((no_tally.wrong ≡ 0) × (no_tally.over ≡ 0))) }
{}

/// The status of each refusal of a call, beside those of an opening; with 5 a count of faults rose.
pub fn refusals_have_statuses()
    ensures making { (making_status create.NotEmpty ≡ 8)
        × ((making_status create.Device ≡ 5)
        × ((making_status create.Keys ≡ 2) × (making_status create.Block ≡ 2))) }
    ensures filling { (filling_status put.Device ≡ 5)
        × ((filling_status put.Full ≡ 11) × (filling_status put.Worn ≡ 11)) }
    ensures filling_cells { (number : ℕ) →
        (filling_status (put.BadCell number) ≡ 10) × (filling_status (put.Overfull number) ≡ 11) }
    ensures asking { (number : ℕ) →
        (asking_status read.Device ≡ 5) × (asking_status (read.BadCell number) ≡ 10) }
    ensures device { (before now : ℕ) → FaultsCaused 5 before now → Rose before now }
{}

/// What is left of a store that was closed in one attempt, and of one whose closing was refused: that attempt, or one more,
/// closed it, or the device failed and is the one that the store had.
pub fn stores_are_closed_anyhow<D: Device>()
    ensures once { (store : Stored D) (now : D) → ClosedOnce D.Device store now →
        IsStoreClosed D.Device store now ⊎ ((closing : Closing D D.Device) × (IsStoreOwed D.Device store closing × (now ≡ run.device_of closing.runs))) }
    ensures late { (store : Stored D) (now : D) → ClosedLate D.Device store now →
        (closing : Closing D D.Device) × (IsStoreOwed D.Device store closing × (IsClosed D.Device closing.header closing.runs now
        ⊎ ((still : Closing D D.Device) × (StillOwes D.Device closing.header closing.runs still.runs still.header × (now ≡ run.device_of still.runs))))) }
{}

/// The puts and deletes of four keys on a store: three puts and two deletes, of which the first that was refused ended the
/// rest. No get is made, and no call is over its bound.
pub fn four_keys_are_filled<D: Device>()
    ensures done { (store : Stored D) (steps : ℕ) (new : State (Stored D)) →
        Fills D.Device (store_table D.Device) 4 (Ok tt) (at store no_tally steps) new →
        (between : State (Stored D)) × (AllAnswered (store_table D.Device) puts (put_bound (terms_of store).depth)
        (terms_of store).depth 3 (at store no_tally steps) between
        × AllAnswered (store_table D.Device) deletes (put_bound (terms_of store).depth) (terms_of store).depth 2 between new) }
    ensures refused { (store : Stored D) (steps : ℕ) (fault : PutFault) (new : State (Stored D)) →
        Fills D.Device (store_table D.Device) 4 (Err fault) (at store no_tally steps) new →
        Stopped (store_table D.Device) puts (put_bound (terms_of store).depth) (terms_of store).depth 3 (put_refused fault) (at store no_tally steps) new
        ⊎ ((between : State (Stored D)) × (AllAnswered (store_table D.Device) puts (put_bound (terms_of store).depth)
        (terms_of store).depth 3 (at store no_tally steps) between
        × Stopped (store_table D.Device) deletes (put_bound (terms_of store).depth) (terms_of store).depth 2 (put_refused fault) between new)) }
    ensures left { (store : Stored D) (steps : ℕ) (new : State (Stored D)) →
        Fills D.Device (store_table D.Device) 4 (Ok tt) (at store no_tally steps) new →
        Holds D.bytes store empty_map → 3 ≤ (terms_of store).limit →
        (new.tally.fresh ≡ 3) × ((new.tally.gone ≡ 2) × ((map : Map) × (Holds D.bytes new.table map × HasOdd 3 map))) }
    ensures only_device { (store : Stored D) (steps : ℕ) (fault : PutFault) (new : State (Stored D)) →
        Fills D.Device (store_table D.Device) 4 (Err fault) (at store no_tally steps) new →
        Holds D.bytes store empty_map → 3 ≤ (terms_of store).limit → fault ≡ put.Device }
    ensures tallied { (store : Stored D) (steps : ℕ) (result : Result (Unit {0}) PutFault) (new : State (Stored D)) →
        Fills D.Device (store_table D.Device) 4 result (at store no_tally steps) new →
        (new.tally.fresh ≤ 3) × ((new.tally.gone ≤ 2) × ((new.tally.wrong ≡ 0) × (new.tally.over ≡ 0))) }
    ensures cost { (store : Stored D) (steps : ℕ) (result : Result (Unit {0}) PutFault) (new : State (Stored D)) →
        Fills D.Device (store_table D.Device) 4 result (at store no_tally steps) new →
        (steps ≤ new.steps) × (new.steps ≤ steps + 5 * put_bound (terms_of store).depth) }
    ensures keeps { (store : Stored D) (steps : ℕ) (result : Result (Unit {0}) PutFault) (new : State (Stored D)) →
        Fills D.Device (store_table D.Device) 4 result (at store no_tally steps) new →
        (kept_of D.bytes D.counts D.kept new.table ≡ kept_of D.bytes D.counts D.kept store)
        × ((terms_of new.table ≡ terms_of store) × PutFaults result (spent_of D.counts store).faults (spent_of D.counts new.table).faults) }
{}

/// The gets of four keys on a store: three, of which the first that was refused ended the rest. They change no map and count
/// no put and no delete; on the map that the puts and deletes leave none is wrong.
pub fn four_keys_are_asked<D: Device>()
    ensures done { (old new : State (Stored D)) →
        Asks D.Device (store_table D.Device) 4 (Ok tt) old new →
        AllAnswered (store_table D.Device) gets (get_bound (terms_of old.table).depth)
        (terms_of old.table).depth 3 old new }
    ensures refused { (fault : ReadFault) (old new : State (Stored D)) →
        Asks D.Device (store_table D.Device) 4 (Err fault) old new →
        Stopped (store_table D.Device) gets (get_bound (terms_of old.table).depth) (terms_of old.table).depth 3 (read_refused fault) old new }
    ensures holds { (result : Result (Unit {0}) ReadFault) (old new : State (Stored D)) (m : Map) →
        Asks D.Device (store_table D.Device) 4 result old new → Holds D.bytes old.table m →
        Holds D.bytes new.table m }
    ensures wrong { (old new : State (Stored D)) (m : Map) →
        Asks D.Device (store_table D.Device) 4 (Ok tt) old new → Holds D.bytes old.table m →
        new.tally.wrong ≡ old.tally.wrong + wrong_in m 3 }
    ensures none_wrong { (old new : State (Stored D)) (m : Map) →
        Asks D.Device (store_table D.Device) 4 (Ok tt) old new → Holds D.bytes old.table m →
        HasOdd 3 m → new.tally.wrong ≡ old.tally.wrong }
    ensures only_device { (fault : ReadFault) (old new : State (Stored D)) (m : Map) →
        Asks D.Device (store_table D.Device) 4 (Err fault) old new → Holds D.bytes old.table m →
        fault ≡ read.Device }
    ensures tallied { (result : Result (Unit {0}) ReadFault) (old new : State (Stored D)) →
        Asks D.Device (store_table D.Device) 4 result old new →
        (new.tally.fresh ≡ old.tally.fresh) × ((new.tally.gone ≡ old.tally.gone)
        × ((new.tally.wrong ≤ old.tally.wrong + 3) × (new.tally.over ≡ old.tally.over))) }
    ensures cost { (result : Result (Unit {0}) ReadFault) (old new : State (Stored D)) →
        Asks D.Device (store_table D.Device) 4 result old new →
        (old.steps ≤ new.steps) × (new.steps ≤ old.steps + 3 * get_bound (terms_of old.table).depth) }
    ensures keeps { (result : Result (Unit {0}) ReadFault) (old new : State (Stored D)) →
        Asks D.Device (store_table D.Device) 4 result old new →
        (kept_of D.bytes D.counts D.kept new.table ≡ kept_of D.bytes D.counts D.kept old.table)
        × ((terms_of new.table ≡ terms_of old.table) × ReadFaults result (spent_of D.counts old.table).faults (spent_of D.counts new.table).faults) }
{}

/// The two halves that were carried out: a file was made in format One with blocks of 32 cells, opened, filled and closed; and
/// it was opened, asked and closed. Neither opening has a cache, and the tally of the first begins with nothing.
pub fn halves_are_carried_out<D: Device>()
    ensures filled { (keys steps : ℕ) (before now : D) (filled : State (Stored D)) →
        WasFilled D.Device (store_table D.Device) keys before steps filled now →
        (made : D) × ((store : Stored D) × (Made D.Device One keys 5 before made × (IsStoreOpened D.Device made 0 store
        × (Fills D.Device (store_table D.Device) keys (Ok tt) (at store no_tally steps) filled × IsStoreClosed D.Device filled.table now)))) }
    ensures asked { (keys steps : ℕ) (tally : Tally) (before now : D) (asked : State (Stored D)) →
        WasAsked D.Device (store_table D.Device) keys before tally steps asked now →
        (store : Stored D) × (IsStoreOpened D.Device before 0 store
        × (Asks D.Device (store_table D.Device) keys (Ok tt) (at store tally steps) asked × IsStoreClosed D.Device asked.table now)) }
    ensures filled_so_far { (keys steps : ℕ) (before : D) (result : Result (Unit {0}) PutFault) (last : State (Stored D)) →
        Filled D.Device (store_table D.Device) keys before steps result last →
        (store : Stored D) × (IsStoreOpened D.Device before 0 store × Fills D.Device (store_table D.Device) keys result (at store no_tally steps) last) }
    ensures asked_so_far { (keys steps : ℕ) (tally : Tally) (before : D) (result : Result (Unit {0}) ReadFault) (last : State (Stored D)) →
        Asked D.Device (store_table D.Device) keys before tally steps result last →
        (store : Stored D) × (IsStoreOpened D.Device before 0 store × Asks D.Device (store_table D.Device) keys result (at store tally steps) last) }
{}

/// The first refused call of each half, with its status, the cell accesses up to it, and what is done then.
pub fn halves_are_refused<D: Device>()
    ensures filling { (keys steps steps' status : ℕ) (before now : D) →
        FillingRefused D.Device (store_table D.Device) keys before now steps steps' status →
        ((fault : CreateFault) × ((status ≡ making_status fault) × (Created D.Device One keys 5 before now (Err fault) × (steps' ≡ steps))))
        ⊎ (((fault : OpenFault) × ((made : D) × ((status ≡ refusal_status fault)
        × (Made D.Device One keys 5 before made × (OpensStore D.Device made 0 (Err (now, fault)) × (steps' ≡ steps))))))
        ⊎ (((fault : PutFault) × ((made : D) × ((last : State (Stored D))
        × ((status ≡ filling_status fault) × (Made D.Device One keys 5 before made
        × (Filled D.Device (store_table D.Device) keys made steps (Err fault) last × (ClosedOnce D.Device last.table now × (steps' ≡ last.steps))))))))
        ⊎ ((made : D) × ((last : State (Stored D)) × ((status ≡ 5)
        × (Made D.Device One keys 5 before made × (Filled D.Device (store_table D.Device) keys made steps (Ok tt) last
        × (ClosedLate D.Device last.table now × (steps' ≡ last.steps))))))))) }
    ensures asking { (keys steps steps' status : ℕ) (tally : Tally) (before now : D) →
        AskingRefused D.Device (store_table D.Device) keys before now tally steps steps' status →
        ((fault : OpenFault) × ((status ≡ refusal_status fault) × (OpensStore D.Device before 0 (Err (now, fault)) × (steps' ≡ steps))))
        ⊎ (((fault : ReadFault) × ((last : State (Stored D))
        × ((status ≡ asking_status fault) × (Asked D.Device (store_table D.Device) keys before tally steps (Err fault) last
        × (ClosedOnce D.Device last.table now × (steps' ≡ last.steps))))))
        ⊎ ((last : State (Stored D)) × ((status ≡ 5) × (Asked D.Device (store_table D.Device) keys before tally steps (Ok tt) last
        × (ClosedLate D.Device last.table now × (steps' ≡ last.steps)))))) }
    ensures not_empty { (keys steps steps' : ℕ) (before now : D) →
        FillingRefused D.Device (store_table D.Device) keys before now steps steps' 8 →
        Created D.Device One keys 5 before now (Err create.NotEmpty) × (steps' ≡ steps) }
{}

/// How a workload ends, by its status: with 0 both halves were carried out and the line was written whole, with 4 both were
/// and the sink failed behind some front of it, and with every other status one was refused and nothing was written.
pub fn workloads_end<K: Sink, D: Device>()
    ensures status_0 { (keys steps steps' : ℕ) (before now : D) (sink sink' : K) →
        GenEnds K.Sink D.Device (store_table D.Device) keys before now sink sink' steps steps' 0 →
        (filled : State (Stored D)) × ((between : D) × (WasFilled D.Device (store_table D.Device) keys before steps filled between
        × ((asked : State (Stored D)) × (WasAsked D.Device (store_table D.Device) keys between filled.tally filled.steps asked now × ((steps' ≡ asked.steps)
        × (Appended (workload_line asked.tally asked.table.count) (K.written sink) (K.written sink') × (K.faults sink' ≡ K.faults sink))))))) }
    ensures status_4 { (keys steps steps' : ℕ) (before now : D) (sink sink' : K) →
        GenEnds K.Sink D.Device (store_table D.Device) keys before now sink sink' steps steps' 4 →
        (filled : State (Stored D)) × ((between : D) × (WasFilled D.Device (store_table D.Device) keys before steps filled between
        × ((asked : State (Stored D)) × (WasAsked D.Device (store_table D.Device) keys between filled.tally filled.steps asked now × ((steps' ≡ asked.steps)
        × ((size : ℕ) × (Appended (take size (workload_line asked.tally asked.table.count)) (K.written sink) (K.written sink')
        × (K.faults sink' ≡ after_fault (K.faults sink))))))))) }
    ensures others { (keys steps steps' status : ℕ) (before now : D) (sink sink' : K) →
        GenEnds K.Sink D.Device
        (store_table D.Device) keys before now sink sink' steps steps' status →
        (status ≡ 0 → ⊥) → (status ≡ 4 → ⊥) → (sink' ≡ sink) × (FillingRefused D.Device (store_table D.Device) keys before now steps steps' status
        ⊎ ((filled : State (Stored D)) × ((between : D) × (WasFilled D.Device (store_table D.Device) keys before steps filled between
        × AskingRefused D.Device (store_table D.Device) keys between now filled.tally filled.steps steps' status)))) }
{}

/// How a workload ends on a device that tells that it is empty; four keys leave a file of 128 cells of 64 bytes, with the key
/// of place 1 alone.
pub fn new_files_end<K: Sink>()
    ensures status_0 { (keys : ℕ) (sink sink' : K) (told : Option (List ℕ)) →
        EndsOnEmpty K.Sink keys sink sink' told 0 →
        Appended (right_line keys) (K.written sink) (K.written sink')
        × IsSomeAnd told (IsFileOfOdd keys) }
    ensures status_4 { (keys : ℕ) (sink sink' : K) (told : Option (List ℕ)) →
        EndsOnEmpty K.Sink keys sink sink' told 4 →
        ((size : ℕ) × Appended (take size (right_line keys)) (K.written sink) (K.written sink'))
        × ((K.faults sink' ≡ after_fault (K.faults sink)) × IsSomeAnd told (IsFileOfOdd keys)) }
    ensures others { (keys status : ℕ) (sink sink' : K) (told : Option (List ℕ)) →
        EndsOnEmpty K.Sink keys sink sink' told status →
        (status ≡ 0) ⊎ ((status ≡ 1) ⊎ ((status ≡ 4) ⊎ (status ≡ 5))) }
    ensures file { (bytes : List ℕ) → IsFileOfOdd 4 bytes →
        (length bytes ≡ 8192) × ((map : Map) × (FileStandsFor bytes map × HasOdd 3 map)) }
{}
