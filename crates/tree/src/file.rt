// The pages of a file, by its entry.
ghost use Rattle.std.specs.Prelude.{◌≡◌, ◌<◌};
ghost use Rattle.book.specs.Words.{vol};
ghost use Rattle.book.specs.Trees.{page_at};
ghost use Rattle.book.specs.Entries.{object_file};
ghost use Rattle.book.specs.Files.{file_at};
ghost use Rattle.book.specs.Image.{pages};
ghost use Rattle.tree.specs.Reach.{Reach};

use crate::entry::{entry_pointer, entry_two, entry_used};
use crate::root::{object_page, root_page};
use page::entry::{PAGES, POINTER};

// The page at position n of the file in object entry e; 0 where there is none, and for an unused entry.
pub fn file_page(img: &[u16], e: usize, n: usize) -> usize
    requires { Reach img.now (object_file (vol img.now)) × Reach img.now (file_at (vol img.now) e) }
    ensures { (result ≡ page_at (vol img.now) (file_at (vol img.now) e) n) × (result < pages img.now) }
{
    let q = object_page(img, e);
    if !entry_used(img, q, e) {
        return 0;
    }
    let pointer = entry_pointer(img, q, e, POINTER);
    let count = entry_two(img, q, e, PAGES) as usize;
    root_page(img, pointer, count, n)
}
