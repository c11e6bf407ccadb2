//! What the end of a load says of maps. The function does nothing: its clauses are the law.
ghost use Rattle.std.specs.Prelude.{◌≡◌, ℕ, List, [], ◌∷◌, map};
ghost use Rattle.cola_cell.specs.declared.format.Format.TheVariants.{One, Two};
ghost use Rattle.cola_tools.specs.Loading.{Pair, Loads, Holds, Ends, StandForPairs, geometry_of, numbered};

/// At its end the bytes of a load stand for the map of the rows that it had, each once and no other. In version 2 the row with
/// number n has the stamp n.
pub fn loads_stand()
    ensures stands { (load : Loads) (rows : List Pair) (bytes : List ℕ) → Holds load rows → Ends load bytes →
        StandForPairs (geometry_of load) rows bytes }
    ensures stamps { (a b : Pair) → map (λ row. row.stamp) (numbered Two 1 (a ∷ b ∷ [])) ≡ 1 ∷ 2 ∷ [] }
    ensures unstamped { (a b : Pair) → map (λ row. row.stamp) (numbered One 1 (a ∷ b ∷ [])) ≡ 0 ∷ 0 ∷ [] }
{}
