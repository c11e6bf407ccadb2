//! The pages of a range of bytes, and their marks.
ghost use Rattle.std.specs.Prelude.{◌≡◌, ◌+◌, ◌-◌, ◌/◌, ◌<◌, ◌≤◌, ◌^◌};
ghost use Rattle.cola_marks.specs.Pages.{pages_touched, marked, MarksPages, MarksTouched, AllMarked};

use crate::marks::Marks;
use cola_device::MAX_TRANSFER;

/// The bytes of a page.
pub const PAGE: u64 = 4_096;

/// The pages that so many bytes from a place on lie in, whole or in part: the first, and the one behind the last.
fn pages_of(at: u64, count: usize) -> (u64, u64)
    requires { count ≤ MAX_TRANSFER }
    ensures first { result.0 ≡ at / 4096 }
    ensures end { result.1 ≡ at / 4096 + pages_touched at count }
{
    let first = at / PAGE;
    if count == 0 {
        return (first, first);
    }
    let more = (at % PAGE + count as u64 - 1) / PAGE + 1;
    (first, first + more)
}

/// Marks the pages from one up to another, as far as there are marks.
fn mark_pages<M: Marks>(marks: &mut M, first: u64, end: u64)
    ensures marked { MarksPages first end (M.marks marks.old) (M.marks marks.new) }
    ensures few { marked (M.marks marks.new) ≤ marked (M.marks marks.old) + (end - first) }
    ensures kept { M.kept marks.new ≡ M.kept marks.old }
{
    let last = end.min(marks.pages() as u64);
    for page in first..last {
        marks.mark(page as usize);
    }
}

/// Marks the pages that so many bytes from a place on lie in, as far as there are marks.
pub(crate) fn mark_touched<M: Marks>(marks: &mut M, at: u64, count: usize)
    requires { count ≤ MAX_TRANSFER }
    ensures marked { MarksTouched at count (M.marks marks.old) (M.marks marks.new) }
    ensures few { marked (M.marks marks.new) ≤ marked (M.marks marks.old) + pages_touched at count }
    ensures kept { M.kept marks.new ≡ M.kept marks.old }
{
    let (first, end) = pages_of(at, count);
    mark_pages(marks, first, end);
}

/// Marks every page.
pub(crate) fn mark_all<M: Marks>(marks: &mut M)
    ensures marked { AllMarked (M.marks marks.old) (M.marks marks.new) }
    ensures kept { M.kept marks.new ≡ M.kept marks.old }
{
    let pages = marks.pages() as u64;
    mark_pages(marks, 0, pages);
}
