//! The laws of the order of keys, of intervals, and of what a map of a shape holds. Each
//! function does nothing: its clauses are the law.

ghost use Rattle.std.specs.Prelude.{ℕ, ◌≡◌, ◌≢◌, ◌≤◌, ◌<◌, ◌↔◌, ◌^◌, true, false, List, [], ◌∷◌, ◌++◌, Option, Some, None};
ghost use Rattle.std.specs.declared.cmp.Ordering.TheVariants.{Less, Equal, Greater};
ghost use Rattle.cola_spec.specs.Map.{Shape, Map, IsMap, count, empty_map, is_before, is_from, is_key, is_value, key_cmp, pairs_between, range, stamp_of, value_of};

/// Keys are ordered as byte strings: a key stands before each that it begins, and where two
/// differ first, the one with the smaller byte stands before the other. Only the same key ties.
pub fn keys_have_an_order()
    ensures begins { (key : List ℕ) (byte : ℕ) (bytes : List ℕ) →
        key_cmp key (key ++ byte ∷ bytes) ≡ Less }
    ensures differs { (front rest others : List ℕ) (byte other : ℕ) → byte < other →
        key_cmp (front ++ byte ∷ rest) (front ++ other ∷ others) ≡ Less }
    ensures ties { (key other : List ℕ) → (key_cmp key other ≡ Equal) ↔ (key ≡ other) }
    ensures turned { (key other : List ℕ) →
        (key_cmp key other ≡ Greater) ↔ (key_cmp other key ≡ Less) }
{}

/// An interval has its lower end, and every key from there on that stands before its upper end, where it has one.
pub fn intervals_have_ends()
    ensures from { (low key : List ℕ) → (is_from low key ≡ true) ↔ (key_cmp low key ≢ Greater) }
    ensures before { (high key : List ℕ) →
        (is_before (Some high) key ≡ true) ↔ (key_cmp key high ≡ Less) }
    ensures without_end { (key : List ℕ) → is_before None key ≡ true }
    ensures range { (m : Map) (low high : List ℕ) →
        range m low high ≡ pairs_between m low (Some high) }
{}

/// A map of a shape has at most as many keys as the limit, each key and value fits, and no stamp is above
/// the last, which is at most 2 to the 63 and 0 where nothing is stamped. The empty map has nothing.
pub fn maps_fit_their_shape()
    ensures count { (shape : Shape) (m : Map) → IsMap shape m → count m ≤ shape.limit }
    ensures pairs { (shape : Shape) (m : Map) (key value : List ℕ) → IsMap shape m →
        value_of m key ≡ Some value → (is_key shape key ≡ true) × (is_value shape value ≡ true) }
    ensures stamps { (shape : Shape) (m : Map) (key : List ℕ) (stamp : ℕ) → IsMap shape m →
        stamp_of m key ≡ Some stamp → stamp ≤ m.last }
    ensures last { (shape : Shape) (m : Map) → IsMap shape m → m.last ≤ 2 ^ 63 }
    ensures unstamped { (shape : Shape) (m : Map) → IsMap shape m → shape.stamped ≡ false →
        m.last ≡ 0 }
    ensures nothing { (key : List ℕ) → value_of empty_map key ≡ None }
    ensures none { count empty_map ≡ 0 }
    ensures no_stamp { empty_map.last ≡ 0 }
{}
