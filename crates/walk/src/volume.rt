// All that is held: the master page, the bit file, the user file, the object file and the files.
ghost use Rattle.std.specs.Prelude.{◌≡◌, ◌+◌};
ghost use Rattle.book.specs.Words.{vol};
ghost use Rattle.book.specs.Trees.{weigh_r};
ghost use Rattle.book.specs.Bits.{bit_file};
ghost use Rattle.book.specs.Entries.{user_file, object_file, object_pages};
ghost use Rattle.book.specs.Holders.{system};
ghost use Rattle.book.specs.Image.{pages as pages_of};
ghost use Rattle.tree.specs.Ends.{Ends};
ghost use Rattle.bits.specs.Marks.{Unmarked};
ghost use Rattle.walk.specs.Walked.{Walking, Walked};
ghost use Rattle.walk.specs.Held.{Held, Volume};

use crate::files::mark_files;
use crate::roots::mark_tree;
use crate::run::mark_each;
use bits::bit_pages;
use bits::marks::mark;
use page::read::{page_at, pointer_at};
use page::{BITS, OBJECT_PAGES, OBJECTS, USERS};

// The pages of the bit file.
fn mark_bits(img: &[u16], marks: &mut [u16], pages: usize, visited: u32) -> Option<u32>
    requires { Walking img.now marks.old visited × Volume img.now × (pages ≡ pages_of img.now) }
    ensures { Walked (pages_of img.now) marks.old visited (weigh_r (vol img.now) (bit_file (pages_of img.now) (vol img.now))) marks.new result }
{
    let start = page_at(img, 0, BITS) as usize;
    mark_each(img, marks, start, bit_pages(pages), visited)
}

// The pages of the user file.
fn mark_users(img: &[u16], marks: &mut [u16], visited: u32) -> Option<u32>
    requires { Walking img.now marks.old visited × Volume img.now }
    ensures { Walked (pages_of img.now) marks.old visited (weigh_r (vol img.now) (user_file (vol img.now))) marks.new result }
{
    let pointer = pointer_at(img, 0, USERS);
    mark_tree(img, marks, pointer, 8, visited)
}

// How many positions of the object file its blocks are looked at for: of a subindexed one all that it may have, since an index block may be there without pages.
fn object_positions(flags: u16, ends: usize) -> usize
    ensures { (flags ≡ 1 → result ≡ ends) × ((flags ≡ 1 → ⊥) → result ≡ object_pages) }
{
    if flags == 1 { ends } else { OBJECT_PAGES }
}

// The pages of the object file.
fn mark_objects(img: &[u16], marks: &mut [u16], ends: usize, visited: u32) -> Option<u32>
    requires { Walking img.now marks.old visited × Volume img.now × Ends img.now ends }
    ensures { Walked (pages_of img.now) marks.old visited (weigh_r (vol img.now) (object_file (vol img.now))) marks.new result }
{
    let pointer = pointer_at(img, 0, OBJECTS);
    mark_tree(
        img,
        marks,
        pointer,
        object_positions(pointer.flags, ends),
        visited,
    )
}

// The pages of both.
fn mark_entry_files(img: &[u16], marks: &mut [u16], ends: usize, visited: u32) -> Option<u32>
    requires { Walking img.now marks.old visited × Volume img.now × Ends img.now ends }
    ensures { Walked (pages_of img.now) marks.old visited (λ g. weigh_r (vol img.now) (user_file (vol img.now)) g + weigh_r (vol img.now) (object_file (vol img.now)) g) marks.new result }
{
    let n = mark_users(img, marks, visited)?;
    mark_objects(img, marks, ends, n)
}

// The system pages but the master page.
fn mark_system(
    img: &[u16],
    marks: &mut [u16],
    pages: usize,
    ends: usize,
    visited: u32,
) -> Option<u32>
    requires { Walking img.now marks.old visited × Volume img.now × (pages ≡ pages_of img.now) × Ends img.now ends }
    ensures { Walked (pages_of img.now) marks.old visited (system (pages_of img.now) (vol img.now)) marks.new result }
{
    let n = mark_bits(img, marks, pages, visited)?;
    mark_entry_files(img, marks, ends, n)
}

// Marks every page that is held, from no marks on. The object file ends at position `ends`.
pub fn mark_all(img: &[u16], marks: &mut [u16], pages: usize, ends: usize) -> Option<u32>
    requires { Unmarked (pages_of img.now) marks.old × Volume img.now × (pages ≡ pages_of img.now) × Ends img.now ends }
    ensures { Held (pages_of img.now) (vol img.now) marks.new result }
{
    mark(marks, 0);
    let n = mark_system(img, marks, pages, ends, 1)?;
    mark_files(img, marks, ends, n)
}
