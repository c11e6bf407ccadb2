//! The laws of the texts of replies. Each function does nothing: its clauses are the law.

ghost use Rattle.std.specs.Prelude.{ℕ, ◌≡◌, ◌↔◌, Bool, true, false, List, [], ◌∷◌, ◌++◌, Option, Some, None, length, map, All, codes, decimal};
ghost use Rattle.cola_spec.specs.Map.{Shape, New, Old, Full, Worn, Other};
ghost use Rattle.cola_spec.specs.Reply.{Reply, Failure, Fault, Damaged, Overfull, NotStore, NotClosed, Small, Memory, Put, Deleted, Got, Stamped, Rows, Cut, Counted, Failed, Closed, Opened, Refused, Already, Shut, Bad, reply_text, rows_text};
ghost use Rattle.cola_spec.specs.Machine.{History, State, Turn, turns_text};
ghost use Rattle.cola_spec.specs.Told.{IsReadable, IsReadableTurn, IsWritten, is_costed, told, told_turn};

/// The text of the replies to many lines tells each reply, up to what is one text whatever was asked, and the costs
/// that are printed: two texts are the same exactly where both tell the same. So do the texts of two replies.
pub fn texts_tell_replies()
    ensures turns { (cost : Bool) (turns others : List Turn) → All IsReadableTurn turns →
        All IsReadableTurn others →
        (turns_text cost turns ≡ turns_text cost others)
        ↔ (map (told_turn cost) turns ≡ map (told_turn cost) others) }
    ensures replies { (cost : Bool) (ticks others : ℕ) (answer other : Reply) → IsReadable answer →
        IsWritten ticks → IsReadable other → IsWritten others →
        reply_text cost ticks answer ≡ reply_text cost others other → told answer ≡ told other }
{}

/// For the requests that were made the text tells the replies whole: two runs over the same
/// requests, whatever their steps met, have the same text only where they have the same replies.
pub fn texts_tell_runs()
    ensures { (cost : Bool) (shape other_shape : Shape) (state other_state : State) (turns others : List Turn) (last other_last : State) →
        History shape state turns last → History other_shape other_state others other_last → All IsReadableTurn turns →
        All IsReadableTurn others → map (λ turn. turn.request) turns ≡ map (λ turn. turn.request) others →
        turns_text cost turns ≡ turns_text cost others → map (λ turn. turn.answer) turns ≡ map (λ turn. turn.answer) others }
{}

/// The words of the replies, without costs.
pub fn replies_have_words()
    ensures new { (ticks : ℕ) → reply_text false ticks (Put New) ≡ codes "new" ++ 10 ∷ [] }
    ensures old { (ticks : ℕ) (value : List ℕ) →
        reply_text false ticks (Put (Old value)) ≡ codes "old " ++ value ++ 10 ∷ [] }
    ensures full { (ticks : ℕ) → reply_text false ticks (Put Full) ≡ codes "full" ++ 10 ∷ [] }
    ensures worn { (ticks : ℕ) → reply_text false ticks (Put Worn) ≡ codes "worn" ++ 10 ∷ [] }
    ensures other { (ticks stamp : ℕ) →
        reply_text false ticks (Put (Other stamp)) ≡ codes "other " ++ decimal stamp ++ 10 ∷ [] }
    ensures gone { (ticks : ℕ) (value : List ℕ) →
        reply_text false ticks (Deleted (Some value)) ≡ codes "gone " ++ value ++ 10 ∷ [] }
    ensures not_gone { (ticks : ℕ) →
        reply_text false ticks (Deleted None) ≡ codes "none" ++ 10 ∷ [] }
    ensures found { (ticks : ℕ) (value : List ℕ) →
        reply_text false ticks (Got (Some value)) ≡ codes "val " ++ value ++ 10 ∷ [] }
    ensures not_found { (ticks : ℕ) → reply_text false ticks (Got None) ≡ codes "none" ++ 10 ∷ [] }
    ensures stamp { (ticks stamp : ℕ) →
        reply_text false ticks (Stamped (Some stamp)) ≡ codes "at " ++ decimal stamp ++ 10 ∷ [] }
    ensures no_stamp { (ticks : ℕ) →
        reply_text false ticks (Stamped None) ≡ codes "none" ++ 10 ∷ [] }
    ensures count { (ticks keys : ℕ) →
        reply_text false ticks (Counted keys) ≡ codes "count " ++ decimal keys ++ 10 ∷ [] }
    ensures fault { (ticks : ℕ) → reply_text false ticks (Failed Fault) ≡ codes "fault" ++ 10 ∷ [] }
    ensures damaged { (ticks cell : ℕ) →
        reply_text false ticks
        (Failed (Damaged cell)) ≡ codes "damaged " ++ decimal cell ++ 10 ∷ [] }
    ensures overfull { (ticks level : ℕ) →
        reply_text false ticks
        (Failed (Overfull level)) ≡ codes "overfull " ++ decimal level ++ 10 ∷ [] }
    ensures closed { (ticks : ℕ) → reply_text false ticks Closed ≡ codes "closed" ++ 10 ∷ [] }
    ensures opened { (ticks keys : ℕ) →
        reply_text false ticks (Opened keys) ≡ codes "open " ++ decimal keys ++ 10 ∷ [] }
    ensures not_store { (ticks : ℕ) →
        reply_text false ticks (Refused NotStore) ≡ codes "notstore" ++ 10 ∷ [] }
    ensures not_closed { (ticks : ℕ) →
        reply_text false ticks (Refused NotClosed) ≡ codes "notclosed" ++ 10 ∷ [] }
    ensures small { (ticks : ℕ) →
        reply_text false ticks (Refused Small) ≡ codes "small" ++ 10 ∷ [] }
    ensures memory { (ticks : ℕ) →
        reply_text false ticks (Refused Memory) ≡ codes "memory" ++ 10 ∷ [] }
    ensures already { (ticks : ℕ) → reply_text false ticks Already ≡ codes "already" ++ 10 ∷ [] }
    ensures shut { (ticks : ℕ) → reply_text false ticks Shut ≡ codes "shut" ++ 10 ∷ [] }
    ensures bad { (ticks : ℕ) → reply_text false ticks Bad ≡ codes "bad" ++ 10 ∷ [] }
{}

/// Rows are told one a line, in order, and after them how many there are, or why they were cut.
pub fn rows_have_lines()
    ensures none { rows_text [] ≡ [] }
    ensures row { (key value : List ℕ) (rows : List (List ℕ × List ℕ)) →
        rows_text ((key, value) ∷ rows) ≡ codes "row " ++ key ++ 32 ∷ value ++ 10 ∷ rows_text rows }
    ensures whole { (cost : Bool) (ticks : ℕ) (rows : List (List ℕ × List ℕ)) →
        reply_text cost ticks (Rows rows) ≡ rows_text rows ++ codes "end " ++ decimal
        (length rows) ++ 10 ∷ [] }
    ensures cut { (cost : Bool) (ticks : ℕ) (rows : List (List ℕ × List ℕ)) (failure : Failure) →
        reply_text cost ticks (Cut rows failure) ≡ rows_text rows ++ reply_text cost ticks
        (Failed failure) }
{}

/// Where costs are asked for, ` # ` and the cost stand behind what a put, a delete, a get and a
/// stamp answer, and behind no other reply, as full and worn.
pub fn replies_have_costs()
    ensures new { (ticks : ℕ) →
        reply_text true ticks (Put New) ≡ codes "new # " ++ decimal ticks ++ 10 ∷ [] }
    ensures old { (ticks : ℕ) (value : List ℕ) →
        reply_text true ticks
        (Put (Old value)) ≡ codes "old " ++ value ++ codes " # " ++ decimal ticks ++ 10 ∷ [] }
    ensures other { (ticks stamp : ℕ) →
        reply_text true ticks
        (Put (Other stamp))
        ≡ codes "other " ++ decimal stamp ++ codes " # " ++ decimal ticks ++ 10 ∷ [] }
    ensures gone { (ticks : ℕ) (value : List ℕ) →
        reply_text true ticks
        (Deleted (Some value)) ≡ codes "gone " ++ value ++ codes " # " ++ decimal ticks ++ 10 ∷ [] }
    ensures not_gone { (ticks : ℕ) →
        reply_text true ticks (Deleted None) ≡ codes "none # " ++ decimal ticks ++ 10 ∷ [] }
    ensures found { (ticks : ℕ) (value : List ℕ) →
        reply_text true ticks
        (Got (Some value)) ≡ codes "val " ++ value ++ codes " # " ++ decimal ticks ++ 10 ∷ [] }
    ensures not_found { (ticks : ℕ) →
        reply_text true ticks (Got None) ≡ codes "none # " ++ decimal ticks ++ 10 ∷ [] }
    ensures stamp { (ticks stamp : ℕ) →
        reply_text true ticks
        (Stamped (Some stamp))
        ≡ codes "at " ++ decimal stamp ++ codes " # " ++ decimal ticks ++ 10 ∷ [] }
    ensures no_stamp { (ticks : ℕ) →
        reply_text true ticks (Stamped None) ≡ codes "none # " ++ decimal ticks ++ 10 ∷ [] }
    ensures without { (ticks : ℕ) (answer : Reply) → is_costed answer ≡ false →
        reply_text true ticks answer ≡ reply_text false 0 answer }
{}
