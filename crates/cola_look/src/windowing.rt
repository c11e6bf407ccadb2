//! Which cells of a run a search may read, and which of them are sampled.
ghost use Rattle.std.specs.Prelude.{◌≡◌, ◌+◌, ◌*◌, ◌<◌, ◌^◌};
ghost use Rattle.cola_look.specs.Seek.{first_of, last_of};

/// The index in a run of the cell whose key is the sample's key of number `i`: every eighth cell is sampled.
pub fn sample_index(i: u32) -> u32
    requires { i < 2 ^ 28 }
    ensures { result ≡ 8 * i + 7 }
{
    8 * i + 7
}

/// The first index and the index after the last of the cells of a run of `len` cells that a search from this
/// link may read: at most eight, and none where the link is at least the length.
pub fn window(link: u32, len: u32) -> (u32, u32)
    ensures first { result.0 ≡ first_of link len }
    ensures last { result.1 ≡ last_of link len }
{
    if link >= len {
        return (len, len);
    }
    (link, link + (len - link).min(8))
}
