//! The account of a chain: how it begins, how a mutation keeps it, and which bounds it gives.

ghost use Rattle.std.specs.Prelude.{◌≡◌, ◌≤◌, ◌/◌, ◌%◌, ◌^◌, ◌*◌, ◌+◌, ℕ, suc, min, true, List, length};
ghost use Rattle.cola_clock.specs.Clock.{SameSchedule};
ghost use Rattle.cola_clock.specs.Marks.{Marks, merge_steps, AreAllMarks, all_marks_after};
ghost use Rattle.cola_transfers.specs.Credit.{parts, file_cells, last_value};
ghost use Rattle.cola_transfers.specs.Blocks.{slot_cells, block_cells};
ghost use Rattle.cola_transfers.specs.Chain.{Transfers, IsPaid, IsPaidCounting, IsMutated, counted};

/// A chain that has read and written nothing is paid at any clock, in the middle of any windows and whatever its readers
/// hold, where each shadow is kept. The lemma is `paid-new` of `proofs/PaidLaws.antt`.
pub fn new_chain_is_paid()
    ensures { (doublings t above : ℕ) (ahead : List Marks) (chain : Transfers) → chain.reads ≡ 0 → chain.writes ≡ 0 → above ≤ slot_cells 0 →
        AreAllMarks 0 t 1 above ahead → ((level : ℕ) → level ≤ length ahead → chain.kept level ≡ true) → IsPaid doublings 0 t above ahead chain }
{}

/// One accepted mutation of a paid chain leaves it paid, at the next clock, and also where the clock counts modulo
/// `2^(L+1)` with `L` levels below level 0: no level can tell. A chain that counts by numbers which stop at the last
/// value of 64 bits stays paid as long as none of them stands there. The lemmas are `paid-next`, `paid-wrapped`,
/// `paid-same` and `counting-next` of `proofs/PaidLaws.antt`.
pub fn one_mutation_is_paid()
    ensures next { (doublings mutations t above above_next : ℕ) (ahead worked : List Marks) (old new : Transfers) → above_next ≤ slot_cells 0 →
        AreAllMarks merge_steps t 1 above worked → IsMutated doublings t above ahead worked old new → IsPaid doublings mutations t above ahead old →
        IsPaid doublings (suc mutations) (suc t) above_next (all_marks_after t 1 worked) new }
    ensures wrapped { (doublings mutations t above above_next : ℕ) (ahead worked : List Marks) (old new : Transfers) → above_next ≤ slot_cells 0 →
        AreAllMarks merge_steps t 1 above worked → IsMutated doublings t above ahead worked old new → IsPaid doublings mutations t above ahead old →
        IsPaid doublings (suc mutations) (suc t % 2 ^ suc (length worked)) above_next (all_marks_after t 1 worked) new }
    ensures same_schedule { (doublings mutations t u above : ℕ) (ahead : List Marks) (chain : Transfers) → ((k : ℕ) → k ≤ length ahead → SameSchedule u t k) →
        IsPaid doublings mutations t above ahead chain → IsPaid doublings mutations u above ahead chain }
    ensures counting { (doublings mutations t above above_next : ℕ) (ahead worked : List Marks) (old new : Transfers) → above_next ≤ slot_cells 0 →
        AreAllMarks merge_steps t 1 above worked → IsMutated doublings t above ahead worked old new → old.reads ≤ new.reads → old.writes ≤ new.writes →
        IsPaidCounting doublings mutations t above ahead old →
        IsPaidCounting doublings (min (suc mutations) last_value) (suc t % 2 ^ suc (length worked)) above_next (all_marks_after t 1 worked) (counted new) }
{}

/// A paid chain has read at most 14 cells for each mutation and level, in blocks, and four times the blocks of its file
/// besides; and it has written at most 4 cells for each, and once the blocks of its file. A block is no larger than the
/// file's `2^(L+4)` cells. The lemmas are `bound-reads` and `bound-writes` of `proofs/PaidLaws.antt`.
pub fn paid_chains_are_bounded()
    ensures reads { (doublings mutations t above : ℕ) (ahead : List Marks) (chain : Transfers) → doublings ≤ suc (length ahead) →
        IsPaid doublings mutations t above ahead chain →
        chain.reads ≤ parts (14 * (mutations * suc (length ahead))) (block_cells doublings) + 4 * (file_cells (length ahead) / block_cells doublings) }
    ensures writes { (doublings mutations t above : ℕ) (ahead : List Marks) (chain : Transfers) → doublings ≤ suc (length ahead) →
        IsPaid doublings mutations t above ahead chain →
        chain.writes ≤ parts (4 * (mutations * suc (length ahead))) (block_cells doublings) + file_cells (length ahead) / block_cells doublings }
{}
