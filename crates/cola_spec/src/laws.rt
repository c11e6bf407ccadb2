//! The laws that show that the definitions mean what their names say. Each function does nothing: its clauses are the law.

ghost use Rattle.std.specs.Prelude.{ℕ, ◌≡◌, ◌≢◌, ◌≤◌, ◌<◌, ◌+◌, ◌-◌, ◌^◌, ◌↔◌, Bool, true, false, if◌then◌else◌, List, [], ◌∷◌, ◌++◌, Option, Some, None, is_some, length, map, take, All, Contains};
ghost use Rattle.std.specs.List.{flat_map};
ghost use Rattle.std.specs.FinMap as finite;
ghost use Rattle.cola_spec.specs.Map.{Shape, Map, IsMap, is_key, is_value, empty_map, value_of, stamp_of, stamp_or_zero, count, pairs, pairs_between, is_from, is_before, scan, put_outcome, put_if_outcome, is_worn, next_stamp, after_put, after_put_if, after_delete, PutOutcome, New, Old, Full, Worn, Other};
ghost use Rattle.cola_spec.specs.Lines.{raw_lines, ended_lines, all_but_last};
ghost use Rattle.cola_spec.specs.Command.{Command, requests};
ghost use Rattle.cola_spec.specs.Reply.{Reply, line};
ghost use Rattle.cola_spec.specs.Machine.{State, Turn, Step, History, PlainStep, FaultedStep, ShortStep, kind_of, plain_reply, plain_after, plain_turn, plain_turns, plain_last, turns_text};
ghost use Rattle.cola_spec.specs.Bounds.{ceiling_log, levels_of, put_bound, get_bound, range_bound};
ghost use Rattle.cola_spec.specs.Laws.{is_accepted, Rises, map_of, RequestFits};

/// After an accepted put its key has the value and the next stamp, and every other key has what
/// it had. A refused put changes nothing.
pub fn get_after_put()
    ensures value { (shape : Shape) (m : Map) (key value : List ℕ) →
        is_accepted (put_outcome shape m key) ≡ true →
        value_of (after_put shape m key value) key ≡ Some value }
    ensures stamp { (shape : Shape) (m : Map) (key value : List ℕ) →
        is_accepted (put_outcome shape m key) ≡ true →
        stamp_of (after_put shape m key value) key ≡ Some (next_stamp shape m) }
    ensures others { (shape : Shape) (m : Map) (key value other : List ℕ) → other ≢ key →
        finite.get (after_put shape m key value).entries other ≡ finite.get m.entries other }
    ensures last { (shape : Shape) (m : Map) (key value : List ℕ) →
        is_accepted (put_outcome shape m key) ≡ true →
        (after_put shape m key value).last ≡ (if shape.stamped then m.last + 1 else m.last) }
    ensures refused { (shape : Shape) (m : Map) (key value : List ℕ) →
        is_accepted (put_outcome shape m key) ≡ false → after_put shape m key value ≡ m }
{}

/// A put that depends on the stamp seen is refused with the stamp that there is, exactly where
/// that is another one, and changes nothing then. Else it is the put.
pub fn get_after_put_if()
    ensures other { (shape : Shape) (m : Map) (key : List ℕ) (seen stamp : ℕ) →
        (put_if_outcome shape m key seen ≡ Other stamp)
        ↔ ((stamp_or_zero m key ≡ stamp) × (stamp ≢ seen)) }
    ensures put { (shape : Shape) (m : Map) (key : List ℕ) (seen : ℕ) → stamp_or_zero m key ≡ seen →
        put_if_outcome shape m key seen ≡ put_outcome shape m key }
    ensures accepted { (shape : Shape) (m : Map) (key : List ℕ) (seen : ℕ) (value : List ℕ) →
        is_accepted (put_if_outcome shape m key seen) ≡ true →
        after_put_if shape m key seen value ≡ after_put shape m key value }
    ensures refused { (shape : Shape) (m : Map) (key : List ℕ) (seen : ℕ) (value : List ℕ) →
        is_accepted (put_if_outcome shape m key seen) ≡ false →
        after_put_if shape m key seen value ≡ m }
{}

/// Which answer a put has: full exactly at a new key where the map has as many keys as it may,
/// worn exactly where it is not full and no stamp is left, and else the value replaced, or new.
pub fn put_answers()
    ensures full { (shape : Shape) (m : Map) (key : List ℕ) →
        (put_outcome shape m key ≡ Full) ↔ ((value_of m key ≡ None) × (shape.limit ≤ count m)) }
    ensures worn { (shape : Shape) (m : Map) (key : List ℕ) →
        (put_outcome shape m key ≡ Worn)
        ↔ ((is_worn shape m ≡ true) × (value_of m key ≡ None → count m < shape.limit)) }
    ensures new { (shape : Shape) (m : Map) (key : List ℕ) →
        (put_outcome shape m key ≡ New)
        ↔ ((value_of m key ≡ None) × (count m < shape.limit) × (is_worn shape m ≡ false)) }
    ensures old { (shape : Shape) (m : Map) (key value : List ℕ) →
        (put_outcome shape m key ≡ Old value)
        ↔ ((value_of m key ≡ Some value) × (is_worn shape m ≡ false)) }
    ensures never_other { (shape : Shape) (m : Map) (key : List ℕ) (stamp : ℕ) →
        put_outcome shape m key ≢ Other stamp }
{}

/// After a delete its key has nothing, every other key has what it had, and the last stamp is the same.
pub fn get_after_delete()
    ensures absent { (m : Map) (key : List ℕ) → value_of (after_delete m key) key ≡ None }
    ensures others { (m : Map) (key other : List ℕ) → other ≢ key →
        finite.get (after_delete m key).entries other ≡ finite.get m.entries other }
    ensures last { (m : Map) (key : List ℕ) → (after_delete m key).last ≡ m.last }
{}

/// The count is the number of pairs. A new key adds one, a replaced one none, and a delete that finds its key takes one.
pub fn counts()
    ensures pairs { (m : Map) → count m ≡ length (pairs m) }
    ensures put { (shape : Shape) (m : Map) (key value : List ℕ) →
        is_accepted (put_outcome shape m key) ≡ true →
        count (after_put shape m key value) ≡
        (if is_some (value_of m key) then count m else count m + 1) }
    ensures delete { (m : Map) (key : List ℕ) →
        count (after_delete m key) ≡ (if is_some (value_of m key) then count m - 1 else count m) }
{}

/// The empty map is of every shape, and a map of a shape stays so under puts and deletes of keys and values that fit.
pub fn maps_keep_their_shape()
    ensures empty { (shape : Shape) → IsMap shape empty_map }
    ensures put { (shape : Shape) (m : Map) (key value : List ℕ) → IsMap shape m →
        is_key shape key ≡ true → is_value shape value ≡ true →
        IsMap shape (after_put shape m key value) }
    ensures put_if { (shape : Shape) (m : Map) (key : List ℕ) (seen : ℕ) (value : List ℕ) →
        IsMap shape m → is_key shape key ≡ true → is_value shape value ≡ true →
        IsMap shape (after_put_if shape m key seen value) }
    ensures delete { (shape : Shape) (m : Map) (key : List ℕ) → IsMap shape m →
        IsMap shape (after_delete m key) }
{}

/// The pairs of a map are what its keys have, those of an interval are the ones whose key lies in
/// it, and the first of those are what a scan gives. Their keys strictly rise, so each stands once.
pub fn ranges()
    ensures pairs { (m : Map) (row : List ℕ × List ℕ) →
        Contains (pairs m) row ↔ (value_of m row.0 ≡ Some row.1) }
    ensures pairs_rise { (m : Map) → Rises (pairs m) }
    ensures interval { (m : Map) (low : List ℕ) (high : Option (List ℕ)) (row : List ℕ × List ℕ) →
        Contains (pairs_between m low high) row
        ↔ ((value_of m row.0 ≡ Some row.1) × (is_from low row.0 ≡ true)
        × (is_before high row.0 ≡ true)) }
    ensures interval_rises { (m : Map) (low : List ℕ) (high : Option (List ℕ)) →
        Rises (pairs_between m low high) }
    ensures scan { (m : Map) (low : List ℕ) (most : ℕ) →
        scan m low most ≡ take most (pairs_between m low None) }
    ensures scan_rises { (m : Map) (low : List ℕ) (most : ℕ) → Rises (scan m low most) }
{}

/// The lines of bytes, each with a line feed, are the bytes again, with one line feed added where they do not end in
/// one. No line has a line feed, and bytes that go on after a line feed have the lines before and the lines after.
pub fn lines()
    ensures none { raw_lines [] ≡ [] }
    ensures ended { (bytes : List ℕ) →
        flat_map line (raw_lines (bytes ++ 10 ∷ [])) ≡ bytes ++ 10 ∷ [] }
    ensures not_ended { (bytes : List ℕ) (byte : ℕ) → byte ≢ 10 →
        flat_map line (raw_lines (bytes ++ byte ∷ [])) ≡ bytes ++ byte ∷ 10 ∷ [] }
    ensures apart { (bytes : List ℕ) →
        All (λ text. All (λ byte. byte ≢ 10) text) (raw_lines bytes) }
    ensures all_ended { (bytes : List ℕ) →
        ended_lines (bytes ++ 10 ∷ []) ≡ raw_lines (bytes ++ 10 ∷ []) }
    ensures but_the_last { (bytes : List ℕ) (byte : ℕ) → byte ≢ 10 →
        ended_lines (bytes ++ byte ∷ []) ≡ all_but_last (raw_lines (bytes ++ byte ∷ [])) }
    ensures go_on { (front rest : List ℕ) →
        raw_lines (front ++ 10 ∷ rest) ≡ raw_lines (front ++ 10 ∷ []) ++ raw_lines rest }
    ensures go_on_ended { (front rest : List ℕ) →
        ended_lines (front ++ 10 ∷ rest) ≡ raw_lines (front ++ 10 ∷ []) ++ ended_lines rest }
{}

/// The keys and values of every request that lines make fit the shape.
pub fn requests_fit()
    ensures { (shape : Shape) (raws : List (List ℕ)) →
        All (RequestFits shape) (requests shape raws) }
{}

/// In each state each request has exactly one plain step. A step that met a fault or found no memory keeps the map.
pub fn plain_steps()
    ensures exists { (shape : Shape) (state : State) (request : Option Command) →
        Step shape state (plain_turn shape state request) (plain_after shape state request) }
    ensures kind { (shape : Shape) (state : State) (request : Option Command) →
        kind_of (plain_reply shape state request) ≡ PlainStep }
    ensures only { (shape : Shape) (state : State) (turn : Turn) (next : State) →
        kind_of turn.answer ≡ PlainStep → Step shape state turn next →
        (turn.answer ≡ plain_reply shape state turn.request)
        × (next ≡ plain_after shape state turn.request) }
    ensures faulted { (shape : Shape) (state : State) (turn : Turn) (next : State) →
        kind_of turn.answer ≡ FaultedStep → Step shape state turn next →
        map_of next ≡ map_of state }
    ensures short { (shape : Shape) (state : State) (turn : Turn) (next : State) →
        kind_of turn.answer ≡ ShortStep → Step shape state turn next → map_of next ≡ map_of state }
{}

/// A run over requests that fit leads from a map of the shape to a map of the shape. The plain run is a
/// run, and a run whose steps are all plain has its answers, its last state and, without costs, its text.
pub fn runs()
    ensures shape { (shape : Shape) (state : State) (turns : List Turn) (last : State) →
        History shape state turns last → All (λ turn. RequestFits shape turn.request) turns →
        IsMap shape (map_of state) → IsMap shape (map_of last) }
    ensures plain { (shape : Shape) (state : State) (asked : List (Option Command)) →
        History shape state (plain_turns shape state asked) (plain_last shape state asked) }
    ensures only { (shape : Shape) (state : State) (turns : List Turn) (last : State) →
        History shape state turns last → All (λ turn. kind_of turn.answer ≡ PlainStep) turns →
        (map (λ turn. turn.answer) turns ≡ map (λ turn. turn.answer)
        (plain_turns shape state (map (λ turn. turn.request) turns)))
        × (last ≡ plain_last shape state (map (λ turn. turn.request) turns)) }
    ensures text { (shape : Shape) (state : State) (turns : List Turn) (last : State) →
        History shape state turns last → All (λ turn. kind_of turn.answer ≡ PlainStep) turns →
        turns_text false turns ≡ turns_text false
        (plain_turns shape state (map (λ turn. turn.request) turns)) }
{}

/// The power is the least that is not below the number. A store has the fewest levels, four at
/// least, whose last one has room for all keys. The numbers for 1, 32, 33, 1,000 and 65,536 keys.
pub fn bounds()
    ensures fits { (number : ℕ) → number ≤ 2 ^ ceiling_log number }
    ensures least { (number power : ℕ) → number ≤ 2 ^ power → ceiling_log number ≤ power }
    ensures at_least { (keys : ℕ) → 4 ≤ levels_of keys }
    ensures room { (keys : ℕ) → keys ≤ 2 ^ (levels_of keys + 1) }
    ensures fewest { (keys : ℕ) → 4 < levels_of keys → 2 ^ levels_of keys < keys }
    ensures at_1 { (put_bound (levels_of 1) ≡ 160) × (get_bound (levels_of 1) ≡ 32)
        × (range_bound (levels_of 1) ≡ 100) }
    ensures at_32 { (put_bound (levels_of 32) ≡ 160) × (get_bound (levels_of 32) ≡ 32)
        × (range_bound (levels_of 32) ≡ 100) }
    ensures at_33 { (put_bound (levels_of 33) ≡ 200) × (get_bound (levels_of 33) ≡ 40)
        × (range_bound (levels_of 33) ≡ 173) }
    ensures at_1000 { (put_bound (levels_of 1000) ≡ 360) × (get_bound (levels_of 1000) ≡ 72)
        × (range_bound (levels_of 1000) ≡ 2129) }
    ensures at_65536 { (put_bound (levels_of 65536) ≡ 600) × (get_bound (levels_of 65536) ≡ 120)
        × (range_bound (levels_of 65536) ≡ 131207) }
{}
