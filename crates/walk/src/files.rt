// The pages of all files: each used entry of each object page that is there.
ghost use Rattle.std.specs.Prelude.{◌≡◌, ◌+◌, ◌*◌, ◌<◌};
ghost use Rattle.sums.specs.Sum.{sum};
ghost use Rattle.book.specs.Words.{vol};
ghost use Rattle.book.specs.Trees.{root_by, page_at, weigh_r};
ghost use Rattle.book.specs.Entries.{object_file, object_page, object_pages};
ghost use Rattle.book.specs.Files.{file_at};
ghost use Rattle.book.specs.Holders.{mine};
ghost use Rattle.book.specs.Image.{pages};
ghost use Rattle.tree.specs.Reach.{Reach};
ghost use Rattle.tree.specs.Ends.{Ends};
ghost use Rattle.walk.specs.Walked.{Walking, Walked};
ghost use Rattle.walk.specs.Files.{FilesFit};

use crate::roots::mark_root;
use page::OBJECTS;
use page::entry::{PAGES, POINTER};
use page::read::{Pointer, pointer_at};
use tree::entry::{entry_pointer, entry_two, entry_used};
use tree::root::root_page;

// Marks the pages of the file in object entry e, which lies on page q; an unused entry has none.
fn mark_entry(img: &[u16], marks: &mut [u16], q: usize, e: usize, visited: u32) -> Option<u32>
    requires { Walking img.now marks.old visited × FilesFit img.now × (e < 65536) × (q ≡ object_page (vol img.now) e) × (q < pages img.now) }
    ensures { Walked (pages img.now) marks.old visited (weigh_r (vol img.now) (file_at (vol img.now) e)) marks.new result }
{
    if !entry_used(img, q, e) {
        return Some(visited);
    }
    let pointer = entry_pointer(img, q, e, POINTER);
    let count = entry_two(img, q, e, PAGES) as usize;
    mark_root(img, marks, pointer, count, visited)
}

// Marks the pages of the 32 files whose entries are on page q, which is the object file's page at position n.
fn mark_entries(img: &[u16], marks: &mut [u16], q: usize, n: usize, visited: u32) -> Option<u32>
    requires { Walking img.now marks.old visited × FilesFit img.now × (n < object_pages) × (q ≡ page_at (vol img.now) (object_file (vol img.now)) n) × (q < pages img.now) }
    ensures { Walked (pages img.now) marks.old visited (λ g. sum 32 (λ i. weigh_r (vol img.now) (file_at (vol img.now) (32 * n + i)) g)) marks.new result }
{
    let mut v = visited;
    for i in 0..32 {
        v = mark_entry(img, marks, q, 32 * n + i, v)?;
    }
    Some(v)
}

// Marks the pages of the 32 files of position n of the object file, whose pointer has these flags and this page; an absent page has none.
fn mark_position(
    img: &[u16],
    marks: &mut [u16],
    pointer: Pointer,
    n: usize,
    visited: u32,
) -> Option<u32>
    requires { Walking img.now marks.old visited × FilesFit img.now × (n < object_pages) × (object_file (vol img.now) ≡ root_by pointer.flags pointer.page 0) × Reach img.now (root_by pointer.flags pointer.page 0) }
    ensures { Walked (pages img.now) marks.old visited (λ g. sum 32 (λ i. weigh_r (vol img.now) (file_at (vol img.now) (32 * n + i)) g)) marks.new result }
{
    let q = root_page(img, pointer, 0, n);
    if q == 0 {
        return Some(visited);
    }
    mark_entries(img, marks, q, n, visited)
}

// Marks the pages of all files. The object file ends at position `ends`.
pub fn mark_files(img: &[u16], marks: &mut [u16], ends: usize, visited: u32) -> Option<u32>
    requires { Walking img.now marks.old visited × Reach img.now (object_file (vol img.now)) × FilesFit img.now × Ends img.now ends }
    ensures { Walked (pages img.now) marks.old visited (λ g. sum 256 (λ u. mine (vol img.now) u g)) marks.new result }
{
    let pointer = pointer_at(img, 0, OBJECTS);
    let mut v = visited;
    for n in 0..ends {
        v = mark_position(img, marks, pointer, n, v)?;
    }
    Some(v)
}
