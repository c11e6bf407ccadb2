//! Levels in their slots, and their marks: lengths and cursors.

ghost use Rattle.std.specs.Prelude.{◌≡◌, ℕ, ◌+◌, ◌%◌, ◌^◌, ◌≤◌, suc, List, [], ◌∷◌, length};
ghost use Rattle.cola_clock.specs.Marks.{Marks, marks_after, all_marks_after, AreAllMarks, AreChainMarks};
ghost use Rattle.std.specs.declared.option.Option.{Option};
ghost use Rattle.cola_runs.specs.Cells.{Item, Cell};
ghost use Rattle.cola_laws.specs.Chain.{Level, updated};
ghost use Rattle.cola_laws.specs.Sound.{HasAtMost, IsSoundFrom, IsSound};
ghost use Rattle.cola_laws.specs.Mutation.{levels_after, AreAdvanced, IsBuilt};
ghost use Rattle.cola_laws.specs.Slots.{marks_of, all_marks_of, level_of, levels_of, AreHeld};

/// Flipping the marks flips the chain and moves no cell: what stands in the slots gives, with the marks and the visible
/// slots of the next clock, the levels after the flips. `cells j s n` are the first `n` cells of slot `s` of level `j`.
pub fn flips_move_no_cell<K, V>()
    ensures { (cells : ℕ → ℕ → ℕ → List (Cell K V)) → ((j s : ℕ) → cells j s 0 ≡ []) → (t j : ℕ) (marks : List Marks) →
        levels_of cells (suc t) j (all_marks_after t j marks) ≡ levels_after t j (levels_of cells t j marks) }
{}

/// One mutation of a chain in slots: over the cells as the steps have left them, the marks after the flips give a chain
/// that is sound for the map with the one key changed, at the next clock, counted modulo `2 ^ (L + 1)`.
pub fn one_mutation_in_slots<K: Ord, V>()
    ensures { (before after : ℕ → ℕ → ℕ → List (Cell K V)) → ((j s : ℕ) → after j s 0 ≡ []) →
        (most t : ℕ) (map : K → Option V) (k : K) (item : Item V) (top built : Marks) (below worked : List Marks) →
        IsSound K.cmp most t map (level_of before t 0 top) (levels_of before t 1 below) →
        IsBuilt K.cmp t k item (level_of before t 0 top) (levels_of before t 1 below) (level_of after t 0 built) →
        AreAdvanced K.cmp 28 t 1 (level_of before t 0 top).visible (levels_of before t 1 below) (levels_of after t 1 worked) →
        most ≤ 2 ^ (length below + 2) → HasAtMost K.cmp most (updated K.cmp k item map) →
        IsSound K.cmp most (suc t % 2 ^ suc (length worked)) (updated K.cmp k item map)
        (level_of after (suc t % 2 ^ suc (length worked)) 0 (marks_after t 0 built)) (levels_of after (suc t % 2 ^ suc (length worked)) 1 (all_marks_after t 1 worked)) }
{}

/// A chain in slots is as sound, from the same marks and cells, at its clock modulo `2 ^ (L + 1)`.
pub fn clock_may_wrap_in_slots<K: Ord, V>()
    ensures { (cells : ℕ → ℕ → ℕ → List (Cell K V)) (most t : ℕ) (map : K → Option V) (top : Marks) (below : List Marks) →
        IsSound K.cmp most t map (level_of cells t 0 top) (levels_of cells t 1 below) →
        IsSound K.cmp most (t % 2 ^ suc (length below)) map (level_of cells (t % 2 ^ suc (length below)) 0 top) (levels_of cells (t % 2 ^ suc (length below)) 1 below) }
{}

/// Levels in slots that hold as many cells as the marks say have these marks.
pub fn levels_have_their_marks<K, V>()
    ensures { (cells : ℕ → ℕ → ℕ → List (Cell K V)) (t j : ℕ) (marks : List Marks) → AreHeld cells t j marks →
        all_marks_of (levels_of cells t j marks) ≡ marks }
{}

/// The marks of a sound chain meet the rules on marks of the clock: both runs of a level fit its slots, and its cursors
/// are those of its phase, also where its levels are so many steps ahead of the clock.
pub fn sound_marks<K: Ord, V>()
    ensures between { (most t : ℕ) (map : K → Option V) (top : Level K V) (below : List (Level K V)) →
        IsSound K.cmp most t map top below → most ≤ 2 ^ (length below + 2) →
        AreChainMarks t (marks_of top ∷ all_marks_of below) }
    ensures ahead { (most ahead t : ℕ) (map : K → Option V) (top : Level K V) (below : List (Level K V)) →
        IsSoundFrom K.cmp most ahead t map top below → most ≤ 2 ^ (length below + 2) →
        AreAllMarks ahead t 1 (length top.visible) (all_marks_of below) }
{}
