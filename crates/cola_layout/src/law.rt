//! What holds of every geometry and header: each law is a function that does nothing and whose contract is the law.

ghost use Rattle.std.specs.Prelude.{◌≡◌, ◌<◌, ◌≤◌, ◌^◌, ◌+◌, ◌/◌, ◌%◌, ℕ, List, length, replicate, Option, MatchOption};
ghost use Rattle.cola_layout.specs.Geometry.{IsBottom};
ghost use Rattle.cola_cell.specs.Places.{number_of, IsPlace};
ghost use Rattle.cola_layout.specs.Place.{HasPlace};
ghost use Rattle.cola_cell.specs.declared.format.Format.{Format};
ghost use Rattle.cola_layout.specs.Header.{Fields, IsSpelling, version_of};
ghost use Rattle.cola_layout.specs.Fields.{fields_of, Decodes};
ghost use Rattle.cola_layout.specs.Marks.{AreMarks, no_marks};
ghost use Rattle.cola_layout.specs.declared.header.Header.{Header as AnyHeader};

/// A number of keys has one lowest level.
pub fn bottom_is_one()
    ensures { (keys a b : ℕ) → IsBottom keys a → IsBottom keys b → a ≡ b }
{}

/// The bottom's number is one less than the number of levels of which these three facts hold: there are at least four, a
/// slot of the lowest has room for a cell of each key, and one level fewer would not do, but for the four. So a count of
/// levels by the logarithm of the keys counts the same.
pub fn levels_by_three_facts()
    ensures { (keys levels bottom : ℕ) → 4 ≤ levels → keys ≤ 2 ^ (levels + 1) →
        (4 < levels → 2 ^ levels < keys) → IsBottom keys bottom → levels ≡ bottom + 1 }
{}

/// Different places of a store are in different cells.
pub fn places_differ()
    ensures { (bottom j a i k b h : ℕ) → IsPlace (bottom + 1) j a i → IsPlace (bottom + 1) k b h →
        number_of j a i ≡ number_of k b h → (j ≡ k) × (a ≡ b) × (i ≡ h) }
{}

/// The places of a store are its cells from 8 on: the header and the slots cover the file exactly.
pub fn places_cover()
    ensures behind { (bottom j a i : ℕ) → IsPlace (bottom + 1) j a i → 8 ≤ number_of j a i }
    ensures within { (bottom j a i : ℕ) → IsPlace (bottom + 1) j a i →
        number_of j a i < 2 ^ (bottom + 4) }
    ensures each { (bottom cell : ℕ) → 8 ≤ cell → cell < 2 ^ (bottom + 4) → HasPlace bottom cell }
{}

/// A device level's slots are whole blocks: each begins with a block and has a multiple of `2^b` cells.
pub fn slots_are_blocks()
    ensures { (b level slot : ℕ) → b ≤ level + 2 →
        (number_of level slot 0 % 2 ^ b ≡ 0) × (2 ^ (level + 2) % 2 ^ b ≡ 0) }
{}

/// The front is exactly the blocks 0 and 1, the header's cells among them: a level below `b - 2` stands in them, and
/// every other level behind them.
pub fn front_is_two_blocks()
    ensures front { (b level slot index : ℕ) → slot ≤ 1 → index < 2 ^ (level + 2) → level + 2 < b →
        number_of level slot index < 2 ^ (b + 1) }
    ensures device { (b level slot index : ℕ) → b ≤ level + 2 →
        2 ^ (b + 1) ≤ number_of level slot index }
{}

/// An aligned group of 8 cells lies in one block.
pub fn groups_lie_in_blocks()
    ensures { (b c d : ℕ) → 3 ≤ b → c / 8 ≡ d / 8 → c / 2 ^ b ≡ d / 2 ^ b }
{}

/// A header has one spelling.
pub fn spelling_is_one()
    ensures { (f : Fields) (a b : List ℕ) → IsSpelling f a → IsSpelling f b → a ≡ b }
{}

/// Bytes spell one header at most.
pub fn header_is_one()
    ensures { (f g : Fields) (bytes : List ℕ) → IsSpelling f bytes → IsSpelling g bytes → f ≡ g }
{}

/// Decoding what encoding wrote gives the header back, in every state that the type allows.
pub fn decoding_gives_back()
    ensures { (h : AnyHeader) (bytes : List ℕ) (answer : Option AnyHeader) →
        IsSpelling (fields_of h) bytes → Decodes bytes answer →
        MatchOption answer ⊥ (λ g. fields_of g ≡ fields_of h) }
{}

/// The version of each format.
pub fn versions_of_formats()
    ensures { (version_of Format.One ≡ 1) × (version_of Format.Two ≡ 2) }
{}

/// Levels with nothing in them fit at every clock: no run has a cell, and no cursor has moved.
pub fn empty_marks_fit()
    ensures nothing { (no_marks.visible ≡ 0) × (no_marks.shadow ≡ 0) × (no_marks.own ≡ 0)
        × (no_marks.incoming ≡ 0) × (no_marks.sample ≡ 0) }
    ensures fit { (t n : ℕ) → AreMarks t (replicate n no_marks) }
{}
