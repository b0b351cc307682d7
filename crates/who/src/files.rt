// The first turn from x on of page p in the files, for one class of their pages: the object entries page by page, absent pages and unused entries skipped.
ghost use Rattle.std.specs.Prelude.{◌≡◌, ◌⊎◌, ℕ, ◌+◌, ◌*◌, ◌/◌, ◌%◌, ◌≤◌, ◌<◌};
ghost use Rattle.book.specs.Words.{vol};
ghost use Rattle.book.specs.Trees.{page_at};
ghost use Rattle.book.specs.Entries.{object_file, object_page, object_pages};
ghost use Rattle.book.specs.Files.{file_at};
ghost use Rattle.book.specs.Image.{pages};
ghost use Rattle.book.specs.Decides.{Decides};
ghost use Rattle.tree.specs.Ends.{Ends};
ghost use Rattle.walk.specs.Held.{Volume};
ghost use Rattle.who.specs.Least.{Least};
ghost use Rattle.who.specs.Turns.{positions, turns, class_page, file_page};
ghost use Rattle.who.specs.Search.{Search};

use crate::POSITIONS;
use crate::roots::{class_from, run_from};
use page::OBJECTS;
use page::entry::{PAGES, POINTER};
use page::read::{Pointer, pointer_at};
use tree::entry::{entry_flags, entry_page, entry_two, entry_used};
use tree::root::root_page;

// Whether a file with these flags may have pages of this class: one that is not indexed has data pages alone.
fn may_have(class: usize, flags: u16) -> bool
    ensures { Decides result ((1 < class) ⊎ (0 < flags)) }
{
    1 < class || 0 < flags
}

// The first position from n on in the file of object entry e, which is on page q.
fn entry_from(
    img: &[u16],
    seen: &mut [u16],
    tops: &mut [u16],
    class: usize,
    q: usize,
    e: usize,
    n: usize,
    p: usize,
) -> Option<usize>
    requires { Search img.now p seen.old tops.old × Volume img.now × (class < 3) × (e < 65536) × (q ≡ object_page (vol img.now) e) × (q < pages img.now) × (n ≤ positions) }
    ensures { Least (λ (k : ℕ). class_page (vol img.now) (file_at (vol img.now) e) class k ≡ p) n positions result × Search img.now p seen.new tops.new }
{
    let flags = entry_flags(img, q, e, POINTER);
    if !may_have(class, flags) {
        return None;
    }
    if !entry_used(img, q, e) {
        return None;
    }
    let top = entry_page(img, q, e, POINTER);
    let count = entry_two(img, q, e, PAGES) as usize;
    if flags == 0 {
        return run_from(top, count, n, p);
    }
    class_from(
        img,
        seen,
        tops,
        class,
        Pointer { flags, page: top },
        count,
        n,
        p,
    )
}

// The turns of the 32 files on a page of the object file.
const PAGE_TURNS: usize = 8388608;

// From turn x on, in the files whose entries are on page q, which is page i of the object file.
fn page_from(
    img: &[u16],
    seen: &mut [u16],
    tops: &mut [u16],
    class: usize,
    q: usize,
    i: usize,
    x: usize,
    p: usize,
) -> Option<usize>
    requires { Search img.now p seen.old tops.old × Volume img.now × (class < 3) × (i < object_pages) × (q ≡ page_at (vol img.now) (object_file (vol img.now)) i) × (q < pages img.now) × (8388608 * i ≤ x) × (x ≤ 8388608 * i + 8388608) }
    ensures { Least (λ (y : ℕ). file_page (vol img.now) class y ≡ p) x (8388608 * i + 8388608) result × Search img.now p seen.new tops.new }
{
    if q == 0 {
        return None;
    }
    let mut from = x % POSITIONS;
    for e in x / POSITIONS..32 * i + 32 {
        if let Some(k) = entry_from(img, seen, tops, class, q, e, from, p) {
            return Some(POSITIONS * e + k);
        }
        from = 0;
    }
    None
}

// From turn x on, in all files. The object file ends at position `ends`.
pub fn files_from(
    img: &[u16],
    seen: &mut [u16],
    tops: &mut [u16],
    ends: usize,
    class: usize,
    x: usize,
    p: usize,
) -> Option<usize>
    requires { Search img.now p seen.old tops.old × Volume img.now × Ends img.now ends × (class < 3) × (x ≤ turns) }
    ensures { Least (λ (y : ℕ). file_page (vol img.now) class y ≡ p) x turns result × Search img.now p seen.new tops.new }
{
    let pointer = pointer_at(img, 0, OBJECTS);
    let mut from = x;
    for i in x / PAGE_TURNS..ends {
        let q = root_page(img, pointer, 0, i);
        if let Some(y) = page_from(img, seen, tops, class, q, i, from, p) {
            return Some(y);
        }
        from = PAGE_TURNS * i + PAGE_TURNS;
    }
    None
}
