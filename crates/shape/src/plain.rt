// Files that are seen to be right without a memory: all but those of 512 pages and more under blocks. Most volumes have no others, and need not make the memories.
ghost use Rattle.std.specs.Prelude.{◌≡◌, true, ◌+◌, ◌*◌, ◌<◌};
ghost use Rattle.book.specs.Entries.{object_page, object_pages};
ghost use Rattle.book.specs.Files.{Shape};
ghost use Rattle.book.specs.Image.{pages, Whole};
ghost use Rattle.book.specs.Words.{vol};
ghost use Rattle.tree.specs.Reach.{entry_in};
ghost use Rattle.shape.specs.Objects.{ObjectsAt};
ghost use Rattle.shape.specs.Shapes.{Shaped, EntryRight, FilesRight};

use crate::block::index_ok;
use crate::file::{bytes_ok, run_ok};
use page::entry::{BYTES, PAGES, POINTER};
use page::read::Pointer;
use tree::entry::{entry_pointer, entry_two, entry_used};
use tree::root::root_page;

// A pointer with these flags to page t is that of a file of n pages: a run, or under an index block that is not full.
fn plain_shape(img: &[u16], total: usize, pointer: Pointer, n: usize) -> bool
    requires { Whole img.now × (total ≡ pages img.now) × (pointer.page < 4294967296) × (n < 4294967296) }
    ensures { result ≡ true → Shape (pages img.now) (vol img.now) pointer.flags pointer.page n }
{
    match pointer.flags {
        0 => run_ok(total, pointer.page, n),
        1 => 0 < n && n < 512 && index_ok(img, total, pointer.page, n),
        _ => false,
    }
}

// The file in entry e on page q is such a one, and its bytes are right.
fn plain_file(img: &[u16], total: usize, q: usize, e: usize) -> bool
    requires { Whole img.now × (total ≡ pages img.now) × (q < pages img.now) }
    ensures { result ≡ true → Shaped (pages img.now) (vol img.now) (entry_in (vol img.now) q e) }
{
    let n = entry_two(img, q, e, PAGES);
    if !bytes_ok(n, entry_two(img, q, e, BYTES)) {
        return false;
    }
    let pointer = entry_pointer(img, q, e, POINTER);
    plain_shape(img, total, pointer, n as usize)
}

// Entry e on page q is unused, or its file is such a one.
fn plain_entry(img: &[u16], total: usize, q: usize, e: usize) -> bool
    requires { Whole img.now × (total ≡ pages img.now) × (q < pages img.now) }
    ensures { result ≡ true → EntryRight (pages img.now) (vol img.now) (entry_in (vol img.now) q e) }
{
    !entry_used(img, q, e) || plain_file(img, total, q, e)
}

// So are all files whose entries are on object page q, the one at position n.
fn plain_page(img: &[u16], total: usize, q: usize, n: usize) -> bool
    requires { Whole img.now × (total ≡ pages img.now) × (q < pages img.now) × (n < object_pages) × (q ≡ object_page (vol img.now) (32 * n)) }
    ensures { result ≡ true → FilesRight (pages img.now) (vol img.now) (32 * n) (32 * n + 32) }
{
    let e = 32 * n;
    (0..32).all(|k| plain_entry(img, total, q, e + k))
}

// So are all files whose entries are at position n of the object file, whose pointer has these flags and this page.
pub(crate) fn plain_position(img: &[u16], total: usize, pointer: Pointer, n: usize) -> bool
    requires { Whole img.now × (total ≡ pages img.now) × ObjectsAt img.now pointer.flags pointer.page × (n < object_pages) }
    ensures { result ≡ true → FilesRight (pages img.now) (vol img.now) (32 * n) (32 * n + 32) }
{
    let q = root_page(img, pointer, 0, n);
    q == 0 || plain_page(img, total, q, n)
}
