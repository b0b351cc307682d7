// The pages of any root, by the flags of its pointer.
ghost use Rattle.std.specs.Prelude.{◌+◌, ◌≤◌};
ghost use Rattle.sums.specs.Sum.{sum};
ghost use Rattle.book.specs.Words.{vol};
ghost use Rattle.book.specs.Trees.{weigh_r, root_by};
ghost use Rattle.book.specs.Image.{pages};
ghost use Rattle.laws.specs.Tree.Weigh.{BelowR};
ghost use Rattle.walk.specs.Walked.{Walking, Walked};
ghost use Rattle.walk.specs.Short.{ShortR};

use crate::pages::mark_pointer;
use crate::run::{mark_each, mark_run};
use page::read::Pointer;

// Marks the tree of a pointer with these flags and this page, in which at most `count` positions are filled. One without flags has none.
pub fn mark_tree(
    img: &[u16],
    marks: &mut [u16],
    pointer: Pointer,
    count: usize,
    visited: u32,
) -> Option<u32>
    requires { Walking img.now marks.old visited × BelowR (vol img.now) (pages img.now) (root_by pointer.flags pointer.page 0) × ShortR (vol img.now) (root_by pointer.flags pointer.page 0) count }
    ensures { Walked (pages img.now) marks.old visited (weigh_r (vol img.now) (root_by pointer.flags pointer.page 0)) marks.new result }
{
    match pointer.flags {
        1 => mark_pointer(img, marks, pointer.page, 1, count, visited),
        2 => mark_pointer(img, marks, pointer.page, 2, count, visited),
        _ => Some(visited),
    }
}

// Marks the pages of the root with these flags, page and count.
pub fn mark_root(
    img: &[u16],
    marks: &mut [u16],
    pointer: Pointer,
    count: usize,
    visited: u32,
) -> Option<u32>
    requires { Walking img.now marks.old visited × BelowR (vol img.now) (pages img.now) (root_by pointer.flags pointer.page count) × ShortR (vol img.now) (root_by pointer.flags pointer.page count) count }
    ensures { Walked (pages img.now) marks.old visited (weigh_r (vol img.now) (root_by pointer.flags pointer.page count)) marks.new result }
{
    if pointer.flags != 0 {
        mark_tree(img, marks, pointer, count, visited)
    } else if count < 32 {
        mark_each(img, marks, pointer.page, count, visited)
    } else {
        mark_run(img, marks, pointer.page, count, visited)
    }
}
