//! The table of the session machine, row by row, for plain and faulted steps and for those
//! short of memory. Each function does nothing: its clauses are the law.

ghost use Rattle.std.specs.Prelude.{ℕ, ◌≡◌, ◌<◌, ◌↔◌, ◌||◌, true, List, Option, Some, None, take};
ghost use Rattle.cola_spec.specs.Map.{Shape, Map, value_of, stamp_of, count, range, scan, put_outcome, put_if_outcome, after_put, after_put_if, after_delete};
ghost use Rattle.cola_spec.specs.Command.{Command, Put, PutIf, Del, Get, Stamp, Range, Scan, Count, Close, Reopen};
ghost use Rattle.cola_spec.specs.Reply.{Reply, Fault, NotStore, NotClosed, Memory, Deleted, Got, Stamped, Rows, Cut, Counted, Failed, Opened, Refused, Already, Shut, Bad};
ghost use Rattle.cola_spec.specs.Reply as reply;
ghost use Rattle.cola_spec.specs.Machine.{State, Turn, Open, Closing, Closed};
ghost use Rattle.cola_spec.specs.Table.{Answers, Faults, MeetsNoFault};
ghost use Rattle.cola_spec.specs.Kinds.{IsFaulted, IsPlain, IsShort, is_for_open, is_look_up, is_mutation, rows_asked, turn_of};

/// A request that is no command is answered bad in every state, meets no fault, and keeps the state.
pub fn no_command()
    ensures plain { (shape : Shape) (state next : State) (answer : Reply) (ticks : ℕ) →
        IsPlain shape state (turn_of None answer ticks) next ↔ ((answer ≡ Bad) × (next ≡ state)) }
    ensures faulted { (shape : Shape) (state next : State) (answer : Reply) (ticks : ℕ) →
        IsFaulted shape state (turn_of None answer ticks) next → ⊥ }
{}

/// An open store answers each command but close and open as its map does, and stays open with the new map.
pub fn open_plain()
    ensures put { (shape : Shape) (m : Map) (key value : List ℕ) →
        Answers shape (Open m) (Put key value) (reply.Put (put_outcome shape m key)) (Open (after_put shape m key value)) }
    ensures put_if { (shape : Shape) (m : Map) (key value : List ℕ) (seen : ℕ) →
        Answers shape (Open m) (PutIf key seen value)
        (reply.Put (put_if_outcome shape m key seen)) (Open (after_put_if shape m key seen value)) }
    ensures delete { (shape : Shape) (m : Map) (key : List ℕ) →
        Answers shape (Open m) (Del key) (Deleted (value_of m key)) (Open (after_delete m key)) }
    ensures get { (shape : Shape) (m : Map) (key : List ℕ) →
        Answers shape (Open m) (Get key) (Got (value_of m key)) (Open m) }
    ensures stamp { (shape : Shape) (m : Map) (key : List ℕ) →
        Answers shape (Open m) (Stamp key) (Stamped (stamp_of m key)) (Open m) }
    ensures range { (shape : Shape) (m : Map) (low high : List ℕ) →
        Answers shape (Open m) (Range low high) (Rows (range m low high)) (Open m) }
    ensures scan { (shape : Shape) (m : Map) (low : List ℕ) (most : ℕ) →
        Answers shape (Open m) (Scan low most) (Rows (scan m low most)) (Open m) }
    ensures count { (shape : Shape) (m : Map) → Answers shape (Open m) Count (Counted (count m)) (Open m) }
{}

/// Where the device fails, an open store answers a put, a put that depends on a stamp, a delete, a get or a stamp with fault,
/// and a range or a scan with the first of its rows and then fault; it stays open with the same map. A count meets no fault.
pub fn open_faulted()
    ensures one_key { (shape : Shape) (m : Map) (command : Command) →
        (is_mutation command || is_look_up command) ≡ true → Faults shape (Open m) command (Failed Fault) (Open m) }
    ensures rows { (shape : Shape) (m : Map) (command : Command) (rows : List (List ℕ × List ℕ)) →
        rows_asked m command ≡ Some rows →
        (next : State) (answer : Reply) (ticks : ℕ) → IsFaulted shape (Open m) (turn_of (Some command) answer ticks) next
        ↔ (((most : ℕ) × (answer ≡ Cut (take most rows) Fault)) × (next ≡ Open m)) }
    ensures count { (shape : Shape) (m : Map) → MeetsNoFault shape (Open m) Count }
{}

/// A store that is not open is shut to each command but close and open, meets no fault there, and keeps its state.
pub fn not_open()
    ensures closing { (shape : Shape) (m : Map) (command : Command) → is_for_open command ≡ true →
        Answers shape (Closing m) command Shut (Closing m) }
    ensures closed { (shape : Shape) (m : Map) (byte : ℕ) (command : Command) → is_for_open command ≡ true →
        Answers shape (Closed m byte) command Shut (Closed m byte) }
    ensures closing_faulted { (shape : Shape) (m : Map) (command : Command) → is_for_open command ≡ true →
        MeetsNoFault shape (Closing m) command }
    ensures closed_faulted { (shape : Shape) (m : Map) (byte : ℕ) (command : Command) → is_for_open command ≡ true →
        MeetsNoFault shape (Closed m byte) command }
{}

/// A close closes an open store and one whose closing met a fault, with 0 as its state byte. Where it meets a fault it is
/// to be done again. A closed store is closed already, and meets no fault there.
pub fn closes()
    ensures open { (shape : Shape) (m : Map) → Answers shape (Open m) Close reply.Closed (Closed m 0) }
    ensures open_faulted { (shape : Shape) (m : Map) → Faults shape (Open m) Close (Failed Fault) (Closing m) }
    ensures closing { (shape : Shape) (m : Map) → Answers shape (Closing m) Close reply.Closed (Closed m 0) }
    ensures closing_faulted { (shape : Shape) (m : Map) → Faults shape (Closing m) Close (Failed Fault) (Closing m) }
    ensures closed { (shape : Shape) (m : Map) (byte : ℕ) → Answers shape (Closed m byte) Close Already (Closed m byte) }
    ensures closed_faulted { (shape : Shape) (m : Map) (byte : ℕ) → MeetsNoFault shape (Closed m byte) Close }
{}

/// An open line opens a closed store with state byte 0, with the count of its keys, and refuses one with state byte 1 as
/// not closed and one with a greater byte as no store. Where it meets a fault, any byte may be left. A store that is open
/// or closing is open already, and meets no fault there.
pub fn opens()
    ensures open { (shape : Shape) (m : Map) → Answers shape (Open m) Reopen Already (Open m) }
    ensures open_faulted { (shape : Shape) (m : Map) → MeetsNoFault shape (Open m) Reopen }
    ensures closing { (shape : Shape) (m : Map) → Answers shape (Closing m) Reopen Already (Closing m) }
    ensures closing_faulted { (shape : Shape) (m : Map) → MeetsNoFault shape (Closing m) Reopen }
    ensures closed { (shape : Shape) (m : Map) → Answers shape (Closed m 0) Reopen (Opened (count m)) (Open m) }
    ensures not_closed { (shape : Shape) (m : Map) →
        Answers shape (Closed m 1) Reopen (Refused NotClosed) (Closed m 1) }
    ensures not_store { (shape : Shape) (m : Map) (byte : ℕ) → 1 < byte →
        Answers shape (Closed m byte) Reopen (Refused NotStore) (Closed m byte) }
    ensures closed_faulted { (shape : Shape) (m : Map) (byte : ℕ) (next : State) (answer : Reply) (ticks : ℕ) →
        IsFaulted shape (Closed m byte) (turn_of (Some Reopen) answer ticks) next ↔
        ((answer ≡ Failed Fault) × ((left : ℕ) × (left < 256) × (next ≡ Closed m left))) }
{}

/// A step is short of memory exactly where it is an open line at a closed store with state byte
/// 0. It is answered memory, and keeps the map and the state.
pub fn short_of_memory()
    ensures { (shape : Shape) (state next : State) (request : Option Command) (answer : Reply) (ticks : ℕ) →
        IsShort shape state (turn_of request answer ticks) next ↔
        ((m : Map) × (state ≡ Closed m 0) × (request ≡ Some Reopen) × (answer ≡ Refused Memory) × (next ≡ state)) }
{}
