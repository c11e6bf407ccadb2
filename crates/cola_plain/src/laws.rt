//! The laws of steps that may be chosen: they are the machine's. Each function does nothing: its clauses are the law.

ghost use Rattle.std.specs.Prelude.{ℕ, ◌≡◌, ◌<◌, ◌↔◌, List, [], map, All, Option, Some, None};
ghost use Rattle.cola_spec.specs.Map.{Shape};
ghost use Rattle.cola_spec.specs.Command.{Command};
ghost use Rattle.cola_spec.specs.Reply.{Reply, Memory, Refused};
ghost use Rattle.cola_spec.specs.Machine.{State, Turn, Step, History, Faulted, ShortOfMemory, plain_last, plain_turns};
ghost use Rattle.cola_plain.specs.declared.script.Choice.{Choice};
ghost use Rattle.cola_plain.specs.declared.script.Move.{Move};
ghost use Rattle.cola_plain.specs.Scripts.{IsChoice, chosen_after, chosen_reply, scripted_after, scripted_last, scripted_turn, scripted_turns};
ghost use Rattle.cola_plain.specs.Faults.{faulted_after, faulted_reply, short_reply};

/// A step that meets a fault is one that comes after some number of rows and leaves some byte in the file, and each such step is one of the machine's. It has no answer exactly where the machine has no such step, and the state is then kept.
pub fn faulted_steps_are_chosen()
    ensures chosen { (state : State) (request : Option Command) (answer : Reply) (next : State) →
        Faulted state request answer next
        ↔ ((rows : ℕ) × (byte : ℕ) × (byte < 256) × (faulted_reply rows state request ≡ Some answer)
        × (next ≡ faulted_after byte state request)) }
    ensures never { (rows : ℕ) (state : State) (request : Option Command) →
        (faulted_reply rows state request ≡ None)
        ↔ ((answer : Reply) (next : State) → Faulted state request answer next → ⊥) }
    ensures kept { (rows byte : ℕ) (state : State) (request : Option Command) →
        faulted_reply rows state request ≡ None → faulted_after byte state request ≡ state }
{}

/// A step that finds no memory is answered so, and keeps the state, and each such step is one of the machine's.
pub fn short_steps_are_chosen()
    ensures chosen { (state : State) (request : Option Command) (next : State) →
        ShortOfMemory state request next
        ↔ ((short_reply state request ≡ Some (Refused Memory)) × (next ≡ state)) }
    ensures only { (state : State) (request : Option Command) (answer : Reply) →
        short_reply state request ≡ Some answer → answer ≡ Refused Memory }
{}

/// Each step of the machine goes as some choice says, and each step that goes as a choice says is one of the machine's. Where a step cannot go so, the state is kept. The step of a script is one of the machine's in any case.
pub fn steps_are_chosen()
    ensures chosen { (shape : Shape) (state : State) (turn : Turn) (next : State) →
        Step shape state turn next
        ↔ ((choice : Choice) × IsChoice choice
        × (chosen_reply choice shape state turn.request ≡ Some turn.answer)
        × (next ≡ chosen_after choice shape state turn.request)) }
    ensures kept { (choice : Choice) (shape : Shape) (state : State) (request : Option Command) →
        chosen_reply choice shape state request ≡ None →
        chosen_after choice shape state request ≡ state }
    ensures scripted { (next : Move) (shape : Shape) (state : State) (request : Option Command) →
        IsChoice next.choice →
        Step shape state (scripted_turn next shape state request)
        (scripted_after next.choice shape state request) }
{}

/// The turns of a script are a history of the machine, and each history of the machine is that of some script. The one of an empty script is the plain history.
pub fn runs_are_scripted()
    ensures run { (script : List Move) (shape : Shape) (state : State) (asked : List (Option Command)) → All (λ move. IsChoice move.choice) script → History shape state (scripted_turns script shape state asked) (scripted_last script shape state asked) }
    ensures scripted { (shape : Shape) (state : State) (turns : List Turn) (last : State) →
        History shape state turns last →
        (script : List Move) × All (λ move. IsChoice move.choice) script
        × (turns ≡ scripted_turns script shape state (map (λ turn. turn.request) turns))
        × (last ≡ scripted_last script shape state (map (λ turn. turn.request) turns)) }
    ensures plain { (shape : Shape) (state : State) (asked : List (Option Command)) →
        (scripted_turns [] shape state asked ≡ plain_turns shape state asked)
        × (scripted_last [] shape state asked ≡ plain_last shape state asked) }
{}
