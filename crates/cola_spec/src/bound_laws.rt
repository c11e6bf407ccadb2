//! The laws of the bounds on cell accesses, and of the counts of a run. Each function does nothing: its clauses are the law.

ghost use Rattle.std.specs.Prelude.{ℕ, ◌≡◌, ◌≢◌, ◌≤◌, ◌+◌, ◌*◌, ◌^◌, true, List, [], ◌∷◌, ◌++◌, Option, Some, None, map, All};
ghost use Rattle.cola_spec.specs.Map.{Map, last_stamp};
ghost use Rattle.cola_spec.specs.Command.{Command, Count, Close, Reopen};
ghost use Rattle.cola_spec.specs.Machine.{Turn, FaultedStep, faulted_steps, kind_of, ticks_of};
ghost use Rattle.cola_spec.specs.Bounds.{get_bound, put_bound, range_bound, request_bound};
ghost use Rattle.cola_spec.specs.Kinds.{is_look_up, is_mutation, requests_bound, rows_asked};

/// A put, a put that depends on a stamp and a delete have 40 cell accesses a level, a get and a stamp
/// 8, a whole range or scan 9 and the cells of the widest level twice, and everything else none.
pub fn bounds_of_commands()
    ensures mutation { (levels : ℕ) (command : Command) → is_mutation command ≡ true →
        request_bound levels (Some command) ≡ 40 * levels }
    ensures look_up { (levels : ℕ) (command : Command) → is_look_up command ≡ true →
        request_bound levels (Some command) ≡ 8 * levels }
    ensures rows { (levels : ℕ) (m : Map) (command : Command) (rows : List (List ℕ × List ℕ)) →
        rows_asked m command ≡ Some rows →
        request_bound levels (Some command) ≡ 9 * levels + 2 ^ (levels + 2) }
    ensures count { (levels : ℕ) → request_bound levels (Some Count) ≡ 0 }
    ensures close { (levels : ℕ) → request_bound levels (Some Close) ≡ 0 }
    ensures reopen { (levels : ℕ) → request_bound levels (Some Reopen) ≡ 0 }
    ensures no_command { (levels : ℕ) → request_bound levels None ≡ 0 }
{}

/// The numbers that the definitions name.
pub fn numbers()
    ensures put { (levels : ℕ) → put_bound levels ≡ 40 * levels }
    ensures get { (levels : ℕ) → get_bound levels ≡ 8 * levels }
    ensures range { (levels : ℕ) → range_bound levels ≡ 9 * levels + 2 ^ (levels + 2) }
    ensures stamp { last_stamp ≡ 9223372036854775808 }
{}

/// The bound of many requests is the sum of their bounds. A run in which each turn is within
/// the bound of its request is within the bound of all its requests.
pub fn bounds_of_runs()
    ensures none { (levels : ℕ) → requests_bound levels [] ≡ 0 }
    ensures one { (levels : ℕ) (request : Option Command) →
        requests_bound levels (request ∷ []) ≡ request_bound levels request }
    ensures both { (levels : ℕ) (front rest : List (Option Command)) →
        requests_bound levels
        (front ++ rest) ≡ requests_bound levels front + requests_bound levels rest }
    ensures run { (levels : ℕ) (turns : List Turn) →
        All (λ turn. turn.ticks ≤ request_bound levels turn.request) turns →
        ticks_of turns ≤ requests_bound levels (map (λ turn. turn.request) turns) }
{}

/// The faulted steps of a run are counted, and its cell accesses summed.
pub fn counts_of_runs()
    ensures no_steps { (faulted_steps [] ≡ 0) × (ticks_of [] ≡ 0) }
    ensures faulted { (turn : Turn) (turns : List Turn) → kind_of turn.answer ≡ FaultedStep →
        faulted_steps (turn ∷ turns) ≡ 1 + faulted_steps turns }
    ensures others { (turn : Turn) (turns : List Turn) → kind_of turn.answer ≢ FaultedStep →
        faulted_steps (turn ∷ turns) ≡ faulted_steps turns }
    ensures ticks { (turn : Turn) (turns : List Turn) →
        ticks_of (turn ∷ turns) ≡ turn.ticks + ticks_of turns }
{}
