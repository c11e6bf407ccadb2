//! Laws of the workload: they hold of all values of their variables, and running them does nothing.
ghost use Rattle.std.specs.Prelude.{◌≡◌, ◌⊎◌, ◌≤◌, ◌<◌, ◌+◌, ◌-◌, ◌*◌, ℕ, true, false, List, [], ◌∷◌, length, codes, Option, Some, None, Result, Ok, Err};
ghost use Rattle.cola_cell.specs.declared.fault.ReadFault.{ReadFault};
ghost use Rattle.cola_cell.specs.declared.fault.ReadFault.TheVariants as read;
ghost use Rattle.cola_spec.specs.Bounds.{command_bound};
ghost use Rattle.cola_spec.specs.Command.{Command, Put, Del, Get};
ghost use Rattle.cola_spec.specs.Machine.{Turn, open_reply, ticks_of};
ghost use Rattle.cola_spec.specs.Map.{Shape, Map, New, Old, Full, Worn, empty_map, value_of, count};
ghost use Rattle.cola_spec.specs.Reply.{Reply, Deleted, Got, Failed, Fault, Damaged};
ghost use Rattle.cola_spec.specs.Reply as reply;
ghost use Rattle.cola_table.specs.Replies.{turn_of, put_refused};
ghost use Rattle.cola_table.specs.Terms.{shape};
ghost use Rattle.cola_table.specs.declared.PutFault.{PutFault};
ghost use Rattle.cola_gen.specs.declared.Tally.{Tally};
ghost use Rattle.cola_gen.specs.Answered.{State, AllAnswered, Answered, Generated, MadeOdd, Ran, Refused, Spent, Stopped, read_refused};
ghost use Rattle.cola_gen.specs.Commands.{deletes, gets, left_by, map_after, puts};
ghost use Rattle.cola_gen.specs.Keys as spec;
ghost use Rattle.cola_gen.specs.Keys.{HasOdd, evens};
ghost use Rattle.cola_gen.specs.Turns.{RisesBy, Tallied, accepts, is_found, is_new, is_over, is_wrong, refuses, wrong_in};

use cola_table::Table;

/// No two places below 2^32 have the same key, since the factor is odd.
pub fn keys_differ()
    ensures { (a b : ℕ) → a < 4294967296 → b < 4294967296 → spec.key_text a ≡ spec.key_text b →
        a ≡ b }
{}

/// From the empty map the puts and deletes leave the keys of the odd places, each with its value, and no
/// other, where the map may have as many keys as are put.
pub fn odd_keys_are_left()
    ensures { (shape : Shape) (number : ℕ) → number < 4294967296 → number ≤ shape.limit →
        HasOdd number (left_by shape empty_map number) }
{}

/// Keys that were worked out by hand, and what is expected of them; six keys are made for eight, and
/// 49,152 for 65,536, of which every second one is deleted.
pub fn worked_keys()
    ensures at_0 { spec.key_text 0 ≡ codes "00000000" }
    ensures at_1 { spec.key_text 1 ≡ codes "9e3779b1" }
    ensures at_2 { spec.key_text 2 ≡ codes "3c6ef362" }
    ensures at_3 { spec.key_text 3 ≡ codes "daa66d13" }
    ensures even { spec.expected 2 ≡ None }
    ensures odd { spec.expected 3 ≡ Some (spec.value_text 3) }
    ensures eight { spec.made 8 ≡ 6 }
    ensures eight_deleted { spec.evens 6 ≡ 3 }
    ensures many { spec.made 65536 ≡ 49152 }
    ensures many_deleted { spec.evens 49152 ≡ 24576 }
{}

/// The calls of the workload for four keys: three are made, of places 0 to 2, and those of places 0 and 2 are deleted.
pub fn worked_calls()
    ensures made { spec.made 4 ≡ 3 }
    ensures deleted { evens 3 ≡ 2 }
    ensures first_put { puts 0 ≡ Put (codes "00000000") (codes "0") }
    ensures last_put { puts 2 ≡ Put (codes "3c6ef362") (codes "2") }
    ensures first_delete { deletes 0 ≡ Del (codes "00000000") }
    ensures last_delete { deletes 1 ≡ Del (codes "3c6ef362") }
    ensures get { gets 1 ≡ Get (codes "9e3779b1") }
{}

/// What three keys leave: the key of place 1 with its value, and no other. Of three answers none is wrong then; one is where
/// no key is left, and two are where nothing was deleted.
pub fn worked_map()
    ensures left { (m : Map) → HasOdd 3 m → value_of m (codes "9e3779b1") ≡ Some (codes "1") }
    ensures first_gone { (m : Map) → HasOdd 3 m → value_of m (codes "00000000") ≡ None }
    ensures last_gone { (m : Map) → HasOdd 3 m → value_of m (codes "3c6ef362") ≡ None }
    ensures no_other { (m : Map) (key : List ℕ) → HasOdd 3 m → (key ≡ codes "00000000" → ⊥) →
        (key ≡ codes "9e3779b1" → ⊥) → (key ≡ codes "3c6ef362" → ⊥) → value_of m key ≡ None }
    ensures counted { (m : Map) → HasOdd 3 m → count m ≡ 1 }
    ensures right { (m : Map) → HasOdd 3 m → wrong_in m 3 ≡ 0 }
    ensures none_left { (m : Map) → ((key : List ℕ) → value_of m key ≡ None) → wrong_in m 3 ≡ 1 }
    ensures none_gone { (m : Map) →
        ((place : ℕ) → value_of m (spec.key_text place) ≡ Some (spec.value_text place)) →
        wrong_in m 3 ≡ 2 }
{}

/// Which turn is one that a tally counts: a put of a new key, a delete that finds its key, a get with another answer than
/// the expected one, and a call above 40 cell accesses a level, or 8 for a get, here of two levels.
pub fn turns_count()
    ensures new { (is_new (reply.Put New) ≡ true)
        × ((value : List ℕ) → is_new (reply.Put (Old value)) ≡ false) }
    ensures found { ((value : List ℕ) → is_found (Deleted (Some value)) ≡ true)
        × (is_found (Deleted None) ≡ false) }
    ensures right { (is_wrong 1 (Got (Some (codes "1"))) ≡ false)
        × (is_wrong 2 (Got None) ≡ false) }
    ensures wrong { (is_wrong 1 (Got None) ≡ true)
        × ((is_wrong 1 (Got (Some (codes "2"))) ≡ true)
        × (is_wrong 2 (Got (Some (codes "2"))) ≡ true)) }
    ensures put_within { (key value : List ℕ) (answer : Reply) →
        is_over 2 (turn_of (Put key value) answer 80) ≡ false }
    ensures put_over { (key value : List ℕ) (answer : Reply) →
        is_over 2 (turn_of (Put key value) answer 81) ≡ true }
    ensures delete_over { (key : List ℕ) (answer : Reply) →
        (is_over 2 (turn_of (Del key) answer 80) ≡ false)
        × (is_over 2 (turn_of (Del key) answer 81) ≡ true) }
    ensures get_over { (key : List ℕ) (answer : Reply) →
        (is_over 2 (turn_of (Get key) answer 16) ≡ false)
        × (is_over 2 (turn_of (Get key) answer 17) ≡ true) }
{}

/// Which reply accepts a command, and which refuses it: full and worn refuse a put alone.
pub fn replies_accept_or_refuse()
    ensures puts { (key value old : List ℕ) →
        (accepts (reply.Put New) (Put key value) ≡ true)
        × (accepts (reply.Put (Old old)) (Put key value) ≡ true) }
    ensures others { (key : List ℕ) (value : Option (List ℕ)) →
        (accepts (Deleted value) (Del key) ≡ true) × (accepts (Got value) (Get key) ≡ true) }
    ensures mixed { (key : List ℕ) (value : Option (List ℕ)) →
        (accepts (Got value) (Del key) ≡ false) × (accepts (Deleted value) (Get key) ≡ false) }
    ensures full { (key value : List ℕ) →
        (refuses (reply.Put Full) (Put key value) ≡ true)
        × (refuses (reply.Put Worn) (Put key value) ≡ true) }
    ensures no_full { (key : List ℕ) →
        (refuses (reply.Put Full) (Del key) ≡ false)
        × (refuses (reply.Put Worn) (Get key) ≡ false) }
    ensures never_both { (answer : Reply) (command : Command) → accepts answer command ≡ true →
        refuses answer command ≡ true → ⊥ }
{}

/// What a tally counts of two turns, the newer first: of a put that made a key and one that replaced a value, of a get at
/// place 1 that was answered wrongly and one at place 0 that was right.
pub fn worked_tallies()
    ensures puts { (key value was : List ℕ) (old new : Tally) →
        Tallied 2 (turn_of (Put key value) (reply.Put (Old was)) 81 ∷ turn_of (Put key value)
        (reply.Put New) 80 ∷ []) old new →
        (new.fresh ≡ old.fresh + 1) × ((new.gone ≡ old.gone) × ((new.wrong ≡ old.wrong) × (new.over ≡ old.over + 1))) }
    ensures deletes { (key was : List ℕ) (old new : Tally) →
        Tallied 2 (turn_of (Del key) (Deleted (Some was)) 81 ∷ turn_of (Del key)
        (Deleted None) 81 ∷ []) old new →
        (new.fresh ≡ old.fresh) × ((new.gone ≡ old.gone + 1) × ((new.wrong ≡ old.wrong) × (new.over ≡ old.over + 2))) }
    ensures gets { (key : List ℕ) (old new : Tally) →
        Tallied 2 (turn_of (Get key) (Got None) 17 ∷ turn_of (Get key) (Got None) 16 ∷ []) old new →
        (new.fresh ≡ old.fresh) × ((new.gone ≡ old.gone) × ((new.wrong ≡ old.wrong + 1) × (new.over ≡ old.over + 1))) }
    ensures rises { (fresh gone wrong over : ℕ) (old new : Tally) →
        RisesBy fresh gone wrong over old new →
        ((old.fresh ≤ new.fresh) × (new.fresh ≤ old.fresh + fresh)) × (((old.gone ≤ new.gone) × (new.gone ≤ old.gone + gone))
        × (((old.wrong ≤ new.wrong) × (new.wrong ≤ old.wrong + wrong)) × ((old.over ≤ new.over) × (new.over ≤ old.over + over)))) }
{}

/// How a workload ends: every put was answered, and then every delete, or every get; or the first call that was refused
/// ended it, and those before it were answered.
pub fn workloads_end<T: Table>()
    ensures done { (bound levels number : ℕ) (old new : State T) →
        Generated T.Table bound levels number (Ok tt) old new →
        (between : State T) × (AllAnswered T.Table puts bound levels number old between × AllAnswered T.Table deletes bound levels (evens number) between new) }
    ensures refused { (bound levels number : ℕ) (fault : PutFault) (old new : State T) →
        Generated T.Table bound levels number (Err fault) old new →
        Stopped T.Table puts bound levels number (put_refused fault) old new
        ⊎ ((between : State T) × (AllAnswered T.Table puts bound levels number old between
        × Stopped T.Table deletes bound levels (evens number) (put_refused fault) between new)) }
    ensures got { (bound levels number : ℕ) (old new : State T) →
        Ran T.Table gets read_refused bound levels number (Ok tt) old new →
        AllAnswered T.Table gets bound levels number old new }
    ensures not_got { (bound levels number : ℕ) (fault : ReadFault) (old new : State T) →
        Ran T.Table gets read_refused bound levels number (Err fault) old new →
        Stopped T.Table gets bound levels number (read_refused fault) old new }
    ensures answered { (command : ℕ → Command) (bound levels count : ℕ) (old new : State T) →
        AllAnswered T.Table command bound levels count old new →
        (turns : List Turn) × (Answered T.Table command bound levels count old new turns × (length turns ≡ count)) }
    ensures stopped { (command : ℕ → Command) (bound levels count : ℕ) (answer : Reply) (old new : State T) →
        Stopped T.Table command bound levels count answer old new →
        (place : ℕ) × ((place < count) × ((before : State T)
        × ((turns : List Turn) × (Answered T.Table command bound levels place old before turns × Refused T.Table (command place) answer before new)))) }
    ensures reads { (cell : ℕ) →
        (read_refused read.Device ≡ Failed Fault)
        × (read_refused (read.BadCell cell) ≡ Failed (Damaged cell)) }
    ensures left { (number : ℕ) (old new : State T) → MadeOdd T.Table number old new →
        (map : Map) × (T.holds new.table map × (HasOdd number map
        × ((new.tally.fresh ≡ old.tally.fresh + number) × (new.tally.gone ≡ old.tally.gone + evens number)))) }
    ensures spent { (most : ℕ) (old new : State T) → Spent T.Table most old new →
        (T.kept new.table ≡ T.kept old.table) × ((T.terms new.table ≡ T.terms old.table) × ((old.steps ≤ new.steps) × (new.steps ≤ old.steps + most))) }
{}

/// Two commands that a table answered, the first and then the second: what each was asked, that it was accepted within the
/// bound, and that a table which held a map answered as the map does, and holds the map after both.
pub fn two_commands_are_answered<T: Table>()
    ensures given { (command : ℕ → Command) (bound levels count : ℕ) (old new : State T) (first second : Turn) →
        Answered T.Table command bound levels count old new (second ∷ first ∷ []) →
        (count ≡ 2) × ((between : T) × (T.answers old.table first between × T.answers between second new.table)) }
    ensures first { (command : ℕ → Command) (bound levels count : ℕ) (old new : State T) (first second : Turn) →
        Answered T.Table command bound levels count old new (second ∷ first ∷ []) →
        (first.request ≡ Some (command 0)) × ((accepts first.answer (command 0) ≡ true) × (first.ticks ≤ bound)) }
    ensures second { (command : ℕ → Command) (bound levels count : ℕ) (old new : State T) (first second : Turn) →
        Answered T.Table command bound levels count old new (second ∷ first ∷ []) →
        (second.request ≡ Some (command 1)) × ((accepts second.answer (command 1) ≡ true) × (second.ticks ≤ bound)) }
    ensures counted { (command : ℕ → Command) (bound levels count : ℕ) (old new : State T) (first second : Turn) →
        Answered T.Table command bound levels count old new (second ∷ first ∷ []) →
        Tallied levels (second ∷ first ∷ []) old.tally new.tally × (new.steps ≡ old.steps + first.ticks + second.ticks) }
    ensures calm { (command : ℕ → Command) (bound levels count : ℕ) (old new : State T) (first second : Turn) →
        Answered T.Table command bound levels count old new (second ∷ first ∷ []) →
        (T.faults new.table ≡ T.faults old.table) × ((T.kept new.table ≡ T.kept old.table) × (T.terms new.table ≡ T.terms old.table)) }
    ensures as_map { (command : ℕ → Command) (bound levels count : ℕ) (old new : State T) (first second : Turn) (m : Map) →
        Answered T.Table command bound levels count old new (second ∷ first ∷ []) → T.holds old.table m →
        (first.answer ≡ open_reply (shape (T.terms old.table)) m (command 0))
        × ((second.answer ≡ open_reply (shape (T.terms old.table)) (map_after (shape (T.terms old.table)) m (command 0)) (command 1))
        × T.holds new.table (map_after (shape (T.terms old.table)) (map_after (shape (T.terms old.table)) m (command 0)) (command 1))) }
{}

/// A command that was refused: the tally is as it was, the cell accesses are within the command's bound, and a table that
/// held a map refused as the map does or by a fault of its device, and holds the map still.
pub fn commands_are_refused<T: Table>()
    ensures given { (command : Command) (answer : Reply) (old new : State T) →
        Refused T.Table command answer old new →
        (refuses answer command ≡ true) × T.answers old.table (turn_of command answer (new.steps - old.steps)) new.table }
    ensures counted { (command : Command) (answer : Reply) (old new : State T) →
        Refused T.Table command answer old new →
        (new.tally ≡ old.tally) × ((old.steps ≤ new.steps) × (new.steps ≤ old.steps + command_bound (T.terms old.table).depth command)) }
    ensures keeps { (command : Command) (answer : Reply) (old new : State T) →
        Refused T.Table command answer old new →
        (T.kept new.table ≡ T.kept old.table) × (T.terms new.table ≡ T.terms old.table) }
    ensures as_map { (command : Command) (answer : Reply) (old new : State T) (m : Map) →
        Refused T.Table command answer old new → T.holds old.table m →
        ((answer ≡ Failed Fault) ⊎ (answer ≡ open_reply (shape (T.terms old.table)) m command)) × T.holds new.table m }
{}
