//! What a copy of a store's map says of maps. The function does nothing: its clauses are the law.
ghost use Rattle.std.specs.Prelude.{◌≡◌, ◌⊎◌, ℕ, List, Ok, Err};
ghost use Rattle.cola_image.specs.Standing.{FileStandsFor};
ghost use Rattle.cola_layout.specs.declared.geometry.Geometry.{Geometry as AnyGeometry};
ghost use Rattle.cola_spec.specs.Map.{Map, count};
ghost use Rattle.cola_tools.specs.declared.fault.ToolFault.{ToolFault as AnyFault};
ghost use Rattle.cola_tools.specs.Growing.{Grows, HasNoHeader, StandsIn};

/// After a copy the new bytes stand for the map that the old ones stand for, as a store for as many keys as were asked for, and
/// the answer is how many keys the map has. A refusal leaves the new bytes as they were, or, where they were zero, without a header.
pub fn grown_stores_stand()
    ensures stands { (keys block_exp : ℕ) (from before now : List ℕ) (ticks ticks_now answer : ℕ) (m : Map) →
        FileStandsFor from m → Grows keys block_exp from before now ticks ticks_now (Ok answer) →
        (geometry : AnyGeometry) × ((geometry.keys ≡ keys) × ((geometry.block_exp ≡ block_exp)
        × (StandsIn geometry m now × (answer ≡ count m)))) }
    ensures refused { (keys block_exp : ℕ) (from before now : List ℕ) (ticks ticks_now : ℕ) (why : AnyFault) →
        Grows keys block_exp from before now ticks ticks_now (Err why) → (now ≡ before) ⊎ HasNoHeader now }
{}
