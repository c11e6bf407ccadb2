//! Bytes of memory at a pointer, as C passes them.
ghost use Rattle.std.specs.Prelude.{◌≡◌, ℕ, List, Option};

use std::marker::Model;

/// So many bytes at a pointer. It owns them, or it is empty and owns none.
#[repr(C)]
#[derive(Drop)]
pub struct Region {
    pub at: *mut u8,
    pub len: usize,
    pub ghost bytes: { Option (List ℕ) },
}

impl Model for Region {
    ghost use Rattle.cola_mapped.specs.Region.{region_at};

    ghost also_owns = { λ r. region_at r.at r.len r.bytes };
}

impl Region {
    ghost use Rattle.std.specs.Prelude.{◌≡◌, None};

    /// An empty region.
    pub fn none() -> Region
        ensures { result.bytes ≡ None }
    {
        Region {
            at: std::ptr::null_mut(),
            len: 0,
        }
    }
}
