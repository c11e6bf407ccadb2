//! Laws of pages and marks. Each is a function with nothing to run: what it ensures is the law.
ghost use Rattle.std.specs.Prelude.{◌≡◌, ◌≢◌, ℕ, ◌+◌, ◌*◌, ◌%◌, ◌<◌, ◌≤◌, List, length, slice_index};
ghost use Rattle.cola_marks.specs.Pages.{page_of, pages_touched, IsTouched, SameUnmarked, MarksStay};

use crate::PAGE;

/// A page has 4,096 bytes.
pub fn page_size()
    ensures { PAGE ≡ 4096 }
{}

/// A page with no mark after two sessions has the bytes that it had before both.
pub fn sessions_join()
    ensures { (first second before between now : List ℕ) → SameUnmarked first before between → MarksStay first second
        → SameUnmarked second between now → SameUnmarked second before now }
{}

/// Bytes of which each marked page is as it is now, and each other page as it was before, are the bytes that there are now.
pub fn marked_pages_are_enough()
    ensures { (marks before now file : List ℕ) → SameUnmarked marks before now
        → length file ≡ length now → length now ≤ 4096 * length marks
        → ((page : ℕ) → page < length marks → slice_index marks page ≢ 0 → page_of file page ≡ page_of now page)
        → ((page : ℕ) → page < length marks → slice_index marks page ≡ 0 → page_of file page ≡ page_of before page)
        → file ≡ now }
{}

/// A write marks at most 17 pages, and one that lies in one page at most one.
pub fn few_pages_are_touched()
    ensures most { (at count : ℕ) → count ≤ 65536 → pages_touched at count ≤ 17 }
    ensures one { (at count : ℕ) → at % 4096 + count ≤ 4096 → pages_touched at count ≤ 1 }
{}
