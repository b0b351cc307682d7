// Rule 7: each file has one of the shapes, its bytes right, all its pages in 1..P-1. It goes over the pages of the object file and skips absent ones.
ghost use Rattle.std.specs.Prelude.{◌≡◌, ◌+◌, ◌*◌, ◌≤◌, ◌<◌};
ghost use Rattle.book.specs.Decides.{Decides};
ghost use Rattle.book.specs.Entries.{object_page, object_pages};
ghost use Rattle.book.specs.Image.{pages, Whole};
ghost use Rattle.book.specs.Rules.{Rule2, Rule5, Rule7};
ghost use Rattle.book.specs.Words.{vol};
ghost use Rattle.tree.specs.Ends.{Ends};
ghost use Rattle.shape.specs.Objects.{ObjectsAt};
ghost use Rattle.shape.specs.Seen.{Recalled, Testing, Tested};
ghost use Rattle.shape.specs.Shapes.{FilesRight};

use crate::file::entry_ok;
use crate::plain::plain_position;
use bits::PAGE_BITS;
use bits::marks::{few_marks, most_marks};
use page::OBJECTS;
use page::read::{Pointer, pointer_at};
use tree::root::root_page;

// Whether the files are right whose entries are on object page q, the one at position n.
fn page_ok(
    img: &[u16],
    total: usize,
    seen: &mut [u16],
    trees: &mut [u16],
    q: usize,
    n: usize,
) -> bool
    requires { Testing img.now total (Recalled img.now seen.old trees.old) × (q < pages img.now) × (n < object_pages) × (q ≡ object_page (vol img.now) (32 * n)) }
    ensures { Tested (FilesRight (pages img.now) (vol img.now) (32 * n) (32 * n + 32)) (Recalled img.now seen.new trees.new) result }
{
    let e = 32 * n;
    for k in 0..32 {
        if !entry_ok(img, total, seen, trees, q, e + k) {
            return false;
        }
    }
    true
}

// Whether the files are right whose entries are at position n of the object file, whose pointer has these flags and this page.
pub fn position_ok(
    img: &[u16],
    total: usize,
    seen: &mut [u16],
    trees: &mut [u16],
    pointer: Pointer,
    n: usize,
) -> bool
    requires { Testing img.now total (Recalled img.now seen.old trees.old) × ObjectsAt img.now pointer.flags pointer.page × (n < object_pages) }
    ensures { Tested (FilesRight (pages img.now) (vol img.now) (32 * n) (32 * n + 32)) (Recalled img.now seen.new trees.new) result }
{
    let q = root_page(img, pointer, 0, n);
    if q == 0 {
        return true;
    }
    page_ok(img, total, seen, trees, q, n)
}

// Whether rule 7 holds, where the object file ends at `ends`, and the files before its position `first` are right.
fn rest_ok(
    img: &[u16],
    total: usize,
    seen: &mut [u16],
    trees: &mut [u16],
    ends: usize,
    first: usize,
) -> bool
    requires { Testing img.now total (Recalled img.now seen.old trees.old) × Rule2 (pages img.now) (vol img.now) × Rule5 (pages img.now) (vol img.now) × Ends img.now ends
        × (first ≤ ends) × FilesRight (pages img.now) (vol img.now) 0 (32 * first) }
    ensures { Decides result (Rule7 (pages img.now) (vol img.now)) }
{
    let pointer = pointer_at(img, 0, OBJECTS);
    for n in first..ends {
        if !position_ok(img, total, seen, trees, pointer, n) {
            return false;
        }
    }
    true
}

// The same; here the memories are made, as large as the volume asks for.
fn rest_recalled(img: &[u16], total: usize, ends: usize, first: usize) -> bool
    requires { Whole img.now × (total ≡ pages img.now) × Rule2 (pages img.now) (vol img.now) × Rule5 (pages img.now) (vol img.now) × Ends img.now ends
        × (first ≤ ends) × FilesRight (pages img.now) (vol img.now) 0 (32 * first) }
    ensures { Decides result (Rule7 (pages img.now) (vol img.now)) }
{
    if total <= PAGE_BITS {
        let mut seen = few_marks();
        let mut trees = few_marks();
        return rest_ok(img, total, &mut seen, &mut trees, ends, first);
    }
    let mut seen = most_marks();
    let mut trees = most_marks();
    rest_ok(img, total, &mut seen, &mut trees, ends, first)
}

// Whether rule 7 holds, where the object file ends at `ends`. Up to the first file that asks for a memory there is none.
pub fn rule7(img: &[u16], total: usize, ends: usize) -> bool
    requires { Whole img.now × (total ≡ pages img.now) × Rule2 (pages img.now) (vol img.now) × Rule5 (pages img.now) (vol img.now) × Ends img.now ends }
    ensures { Decides result (Rule7 (pages img.now) (vol img.now)) }
{
    let pointer = pointer_at(img, 0, OBJECTS);
    for n in 0..ends {
        if !plain_position(img, total, pointer, n) {
            return rest_recalled(img, total, ends, n);
        }
    }
    true
}
