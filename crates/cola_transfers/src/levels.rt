//! What a level may be ahead, what a window costs, and what the work of the levels leaves.

ghost use Rattle.std.specs.Prelude.{◌≡◌, ◌≤◌, ◌^◌, ◌*◌, ◌+◌, ℕ, suc, true, Bool, List, ◌∷◌, if◌then◌else◌};
ghost use Rattle.cola_clock.specs.Clock.{works, ends};
ghost use Rattle.cola_clock.specs.Marks.{Marks, merge_steps, AreAllMarks};
ghost use Rattle.cola_transfers.specs.Credit.{credit, credits, begins};
ghost use Rattle.cola_transfers.specs.Blocks.{slot_cells, block_cells};
ghost use Rattle.cola_transfers.specs.Chain.{Readers, Transfers, merge_left, reads_left, has_ended, shadow_left, writes_left, IsTidy, AreTidy, AreLevelsWorked};

/// A level's credit falls by one with each mutation, and rises by a whole period where its window begins, so a level
/// that works has a period's at least; and the levels 1 to n never have more than `4 * 2^n - 4` together. The lemmas are
/// `credit-next`, `credit-working` and `credits_all` of `proofs/CreditLaws.antt`.
pub fn credits_go_on()
    ensures next { (t i : ℕ) → credit (suc t) (suc i) + 1 ≡ credit t (suc i) + (if begins t (suc i) then 2 ^ suc i else 0) }
    ensures working { (t i : ℕ) → works t (suc i) ≡ true → 2 ^ suc i ≤ credit t (suc i) }
    ensures together { (t n : ℕ) → credits t 0 n + 4 ≤ 4 * 2 ^ n }
{}

/// A merge of level `i + 1` has at most `14 * 2^(i+1)` cells left to read, in whole blocks, and its shadow at most
/// `4 * 2^(i+1)` to write, wherever its cursors stand and whatever its readers hold. The lemmas are `merge_few` and
/// `shadow_few` of `proofs/FlipLaws.antt`.
pub fn windows_cost_little()
    ensures reads { (doublings steps t u i above : ℕ) (readers : Readers) (marks : Marks) (below : List Marks) → above ≤ slot_cells i →
        AreAllMarks steps t (suc i) above (marks ∷ below) → block_cells doublings * merge_left doublings readers u i above marks below ≤ 14 * 2 ^ suc i }
    ensures writes { (doublings u i above : ℕ) (marks : Marks) (below : List Marks) →
        block_cells doublings * shadow_left doublings u i above marks below ≤ 4 * 2 ^ suc i }
{}

/// The work of all levels adds up: what a chain has read and has still to read in the windows that are open comes to no
/// more than before, and so does what it writes, where the shadows were tidy; they stay tidy. The lemmas are `work-reads`
/// of `proofs/WorkLaws.antt` and `work-writes` of `proofs/WriteLaws.antt`.
pub fn work_adds_up()
    ensures reads { (doublings t i above : ℕ) (levels worked : List Marks) (old new : Transfers) → AreLevelsWorked doublings t i above levels worked old new →
        new.reads + reads_left doublings new.readers t i above worked ≤ old.reads + reads_left doublings old.readers t i above levels }
    ensures writes { (doublings t i above : ℕ) (levels worked : List Marks) (old new : Transfers) → AreLevelsWorked doublings t i above levels worked old new →
        AreAllMarks merge_steps t (suc i) above worked → AreTidy doublings old.kept t i above levels →
        new.writes + writes_left doublings t i above worked ≤ old.writes + writes_left doublings t i above levels }
    ensures tidy { (doublings t i above : ℕ) (levels worked : List Marks) (old new : Transfers) → AreLevelsWorked doublings t i above levels worked old new →
        AreAllMarks merge_steps t (suc i) above worked → AreTidy doublings old.kept t i above levels → AreTidy doublings new.kept t i above worked }
{}

/// A merge has ended where its window ends: the rules on marks, for the steps of one mutation more, leave no source cell.
/// So a tidy shadow is then kept. The lemmas are `done-all` and `kept-all` of `proofs/PaidLaws.antt`.
pub fn merges_end_in_time()
    ensures ended { (t i above : ℕ) (marks : Marks) (below : List Marks) → ends t (suc i) ≡ true → above ≤ slot_cells i →
        AreAllMarks merge_steps t (suc i) above (marks ∷ below) → has_ended t i above marks below ≡ true }
    ensures kept { (doublings t i above : ℕ) (kept : ℕ → Bool) (marks : Marks) (below : List Marks) → ends t (suc i) ≡ true → above ≤ slot_cells i →
        AreAllMarks merge_steps t (suc i) above (marks ∷ below) → IsTidy doublings kept t i above marks below → kept (suc i) ≡ true }
{}
