//! What the calls by C on whole stores tell of maps. Each function does nothing: its clauses are the law.
ghost use Rattle.std.specs.Prelude.{◌≡◌, ◌⊎◌, ℕ, ℤ, pos, List};
ghost use Rattle.cola_image.specs.Standing.{FileStandsFor};
ghost use Rattle.cola_spec.specs.Map.{Map, count};
ghost use Rattle.cola_mapped.specs.declared.region.Region.{Region as AnyRegion};
ghost use Rattle.cola_c.specs.declared.tools.Found.{Found as AnyFound};
ghost use Rattle.cola_c.specs.Tools.{TellsCheck, TellsGrow, HasMap, IsLeftBlank};

/// 0 says that the bytes stand for a map with as many keys as are told, and 21 that they stand for none. Where they stand for one,
/// the answer is 0, or 16 where there was no memory.
pub fn checks_are_told()
    ensures sound { (bytes : List ℕ) (before now : AnyFound) → TellsCheck bytes before now (pos 0) →
        (m : Map) × (FileStandsFor bytes m × (count m ≡ now.keys)) }
    ensures broken { (bytes : List ℕ) (before now : AnyFound) (m : Map) → TellsCheck bytes before now (pos 21) →
        ¬ FileStandsFor bytes m }
    ensures complete { (bytes : List ℕ) (before now : AnyFound) (code : ℤ) (m : Map) → FileStandsFor bytes m →
        TellsCheck bytes before now code → (code ≡ pos 0) ⊎ (code ≡ pos 16) }
{}

/// 0 says that the region has the map that the old bytes stand for, in a store for as many keys as were asked for, and as many keys
/// as are told. Any other number leaves the region's bytes, or, where these were zero, no store's header.
pub fn grows_are_told()
    ensures done { (keys block : ℕ) (from : List ℕ) (before now : AnyRegion) (told told' : ℕ) (m : Map) → FileStandsFor from m →
        TellsGrow keys block from before now told told' (pos 0) → HasMap keys block m now × (told' ≡ count m) }
    ensures refused { (keys block : ℕ) (from : List ℕ) (before now : AnyRegion) (told told' : ℕ) (code : ℤ) →
        TellsGrow keys block from before now told told' code → (code ≡ pos 0) ⊎ IsLeftBlank before now }
{}
