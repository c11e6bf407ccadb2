//! Laws of a copy of a file's map into a new file. Each function does nothing: its clauses are the law.
ghost use Rattle.std.specs.Prelude.{◌≡◌, ◌⊎◌, ◌≤◌, ◌<◌, ℕ, List, [], length, Some, Ok, Err, Result, IsSomeAnd};
ghost use Rattle.cola_image.specs.Standing.{HeaderStandsFor};
ghost use Rattle.cola_layout.specs.Header.{Fields};
ghost use Rattle.cola_outside.specs.Faults.{Rose};
ghost use Rattle.cola_spec.specs.Map.{Map, count};
ghost use Rattle.cola_load.specs.declared.fault.GrowFault.{GrowFault as AnyFault};
ghost use Rattle.cola_load.specs.GrowLaws.{GrowSays};
ghost use Rattle.cola_load.specs.Grow.{Grows, IsCountOrFull, IsFileOf, IsLeftHeadless, MayHaveHeader};

use cola_device::Device;

/// After Ok the new file stands for the map that the old one stands for, with its stamps and its last number, by the header of
/// a store for as many keys as were asked for. The answer is how many keys the map has.
pub fn grown_file_stands<D: Device, E: Device>()
    ensures { (from from_now : D) (to to_now : E) (ticks ticks_now keys block_exp answer : ℕ)
        (header : Fields) (bytes new : List ℕ) (m : Map) →
        D.bytes from ≡ Some bytes → HeaderStandsFor header bytes m → E.bytes to_now ≡ Some new →
        Grows D.Device E.Device from from_now to to_now ticks ticks_now keys block_exp (Ok answer) →
        IsFileOf keys block_exp header.format m new × (answer ≡ count m) }
{}

/// Where the old file stands for a map of no more keys than the new one is for, the new one is empty, and no count of faults
/// rose, the map is copied, or there is no memory.
pub fn growing_completes<D: Device, E: Device>()
    ensures { (from from_now : D) (to to_now : E) (ticks ticks_now keys block_exp : ℕ)
        (result : Result ℕ AnyFault) (header : Fields) (bytes : List ℕ) (m : Map) →
        D.bytes from ≡ Some bytes → HeaderStandsFor header bytes m → count m ≤ keys → E.bytes to ≡ Some [] →
        ¬ Rose (D.counts from).faults (D.counts from_now).faults →
        ¬ Rose (E.counts to).faults (E.counts to_now).faults →
        Grows D.Device E.Device from from_now to to_now ticks ticks_now keys block_exp result →
        IsCountOrFull (count m) result }
{}

/// Each refusal leaves the new file as it was, or, where it was empty, without a header: but for a fault of its own device in the
/// layout, behind which nothing is written, or behind the last row.
pub fn refused_files_have_no_header<D: Device, E: Device>()
    ensures { (from from_now : D) (to to_now : E) (ticks ticks_now keys block_exp : ℕ)
        (fault : AnyFault) →
        Grows D.Device E.Device from from_now to to_now ticks ticks_now keys block_exp (Err fault) →
        (E.bytes to_now ≡ E.bytes to) ⊎ (IsLeftHeadless E.Device to to_now
        ⊎ MayHaveHeader E.Device to to_now keys block_exp fault) }
{}

/// What each answer says of both devices, in plain terms. A new file that had a byte stays as it was, whatever is answered.
pub fn grows_are_answered<D: Device, E: Device>()
    ensures says { (from from_now : D) (to to_now : E) (ticks ticks_now keys block_exp : ℕ)
        (result : Result ℕ AnyFault) →
        Grows D.Device E.Device from from_now to to_now ticks ticks_now keys block_exp result →
        GrowSays D.Device E.Device from from_now to to_now ticks ticks_now keys block_exp result }
    ensures occupied { (from from_now : D) (to to_now : E) (ticks ticks_now keys block_exp : ℕ)
        (result : Result ℕ AnyFault) →
        Grows D.Device E.Device from from_now to to_now ticks ticks_now keys block_exp result →
        IsSomeAnd (E.bytes to) (λ bytes. 0 < length bytes) → E.bytes to_now ≡ E.bytes to }
{}
