//! Allocations that fail. The program cannot make one fail by itself: it asks `tests/allocations.c`, where that is
//! preloaded, by requests for more memory than there is. Where it is not, they are refused and nothing comes of them.
use std::alloc::{AllocError, Global};

/// So many bytes ask that no allocation fail, and N more that the Nth from now on does. They are refused.
const FAILING: usize = 1 << 56;

/// So many bytes ask whether the one was met. They are granted where it was.
const MET: usize = 1 << 55;

/// Whether so many bytes are granted. They are let go at once.
fn is_granted(alloc: Global, bytes: usize) -> bool {
    let asked: Result<Vec<u8>, AllocError> = Vec::with_capacity(alloc, bytes);
    asked.is_ok()
}

/// Asks that the allocation with this number, counted from 1 from now on, fail; at 0 none does.
pub(crate) fn ask_to_fail(alloc: Global, number: u64) {
    if 0 < number && number < 1 << 40 {
        let _ = is_granted(alloc, FAILING + number as usize);
    }
}

/// Whether the allocation that was to fail did. None is to fail afterwards.
pub(crate) fn has_failed(alloc: Global) -> bool {
    let is_met = is_granted(alloc, MET);
    let _ = is_granted(alloc, FAILING);
    is_met
}
