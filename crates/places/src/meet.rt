// Meeting pages, with the lowest page met twice. A page that is not below it is not marked: only lower ones can take its place.
ghost use Rattle.std.specs.Prelude.{◌≡◌, ◌+◌, ◌*◌, ◌≤◌, ◌<◌, length};
ghost use Rattle.sums.specs.Sum.{sum};
ghost use Rattle.book.specs.Words.{vol};
ghost use Rattle.book.specs.Trees.{weigh, Below, root_by, weigh_r};
ghost use Rattle.book.specs.Holders.{hit};
ghost use Rattle.book.specs.Image.{pages, most_pages};
ghost use Rattle.laws.specs.Tree.Weigh.{BelowR};
ghost use Rattle.places.specs.Low.{under, opened_size, Opening, Room, Meets, Meets₁, Meets₂, Index, Subindex};

use bits::marks::mark;
use page::read::{Pointer, slot_at};
use page::{INDEXED, SUBINDEXED};

// Meets page q; 0 is none. The lowest page met twice so far is given and comes back.
fn meet(marks: &mut [u16; 8796], lowest: usize, q: usize) -> usize
    requires { Room marks.old lowest }
    ensures { Meets marks.old lowest (λ p. hit p q) marks.new result }
{
    if q == 0 {
        return lowest;
    }
    if lowest <= q {
        return lowest;
    }
    if !mark(marks, q) {
        return q;
    }
    lowest
}

// Meets the n pages from `start` on; those from the lowest page met twice on need not be looked at.
pub(crate) fn meet_run(marks: &mut [u16; 8796], lowest: usize, start: usize, n: usize) -> usize
    requires { Room marks.old lowest × (start + n ≤ most_pages) }
    ensures { Meets marks.old lowest (λ p. sum n (λ i. hit p (start + i))) marks.new result }
{
    let mut low = lowest;
    for i in 0..n {
        if low <= start + i {
            return low;
        }
        low = meet(marks, low, start + i);
    }
    low
}

// Meets the pages that the pointers of index block t name.
fn meet_pages(img: &[u16], marks: &mut [u16; 8796], lowest: usize, t: usize) -> usize
    requires { Room marks.old lowest × (1024 * t + 1024 ≤ length img.now) }
    ensures { Meets marks.old lowest (under (vol img.now) 0 t) marks.new result }
{
    let mut low = lowest;
    for k in 0..512 {
        low = meet(marks, low, slot_at(img, t, k));
    }
    low
}

// Block t is opened, which two marks of its own tell; false where it was opened twice already.
fn open_block(opened: &mut [u16; 17592], t: usize) -> bool
    requires { (t < most_pages) × (length opened.old ≡ opened_size) }
    ensures { Opening opened.old t opened.new result }
{
    mark(opened, 2 * t) || mark(opened, 2 * t + 1)
}

// Meets index block t and its pages; a block that was opened twice is not opened again.
fn meet_index(
    img: &[u16],
    marks: &mut [u16; 8796],
    ones: &mut [u16; 17592],
    lowest: usize,
    t: usize,
) -> usize
    requires { Room marks.old lowest × Index img.now ones.old × (t < pages img.now) }
    ensures { Meets₁ (pages img.now) (vol img.now) marks.old ones.old lowest (λ p. weigh (vol img.now) 1 t (hit p)) marks.new ones.new result }
{
    if t == 0 {
        return lowest;
    }
    let low = meet(marks, lowest, t);
    if !open_block(ones, t) {
        return low;
    }
    meet_pages(img, marks, low, t)
}

// Meets the index blocks that the pointers of subindex block t name, and their pages.
fn meet_indexes(
    img: &[u16],
    marks: &mut [u16; 8796],
    ones: &mut [u16; 17592],
    lowest: usize,
    t: usize,
) -> usize
    requires { Room marks.old lowest × Index img.now ones.old × Below (vol img.now) (pages img.now) 2 t }
    ensures { Meets₁ (pages img.now) (vol img.now) marks.old ones.old lowest (under (vol img.now) 1 t) marks.new ones.new result }
{
    let mut low = lowest;
    for k in 0..512 {
        let b = slot_at(img, t, k);
        low = meet_index(img, marks, ones, low, b);
    }
    low
}

// Meets subindex block t and all below it; a block that was opened twice is not opened again.
fn meet_subindex(
    img: &[u16],
    marks: &mut [u16; 8796],
    ones: &mut [u16; 17592],
    twos: &mut [u16; 17592],
    lowest: usize,
    t: usize,
) -> usize
    requires { Room marks.old lowest × Index img.now ones.old × Subindex twos.old × Below (vol img.now) (pages img.now) 2 t }
    ensures { Meets₂ (pages img.now) (vol img.now) marks.old ones.old twos.old lowest (λ p. weigh (vol img.now) 2 t (hit p)) marks.new ones.new twos.new result }
{
    if t == 0 {
        return lowest;
    }
    let low = meet(marks, lowest, t);
    if !open_block(twos, t) {
        return low;
    }
    meet_indexes(img, marks, ones, low, t)
}

// Meets the pages of the root with these flags, page and count.
pub(crate) fn meet_root(
    img: &[u16],
    marks: &mut [u16; 8796],
    ones: &mut [u16; 17592],
    twos: &mut [u16; 17592],
    lowest: usize,
    pointer: Pointer,
    count: usize,
) -> usize
    requires { Room marks.old lowest × Index img.now ones.old × Subindex twos.old × BelowR (vol img.now) (pages img.now) (root_by pointer.flags pointer.page count) }
    ensures { Meets₂ (pages img.now) (vol img.now) marks.old ones.old twos.old lowest (λ p. weigh_r (vol img.now) (root_by pointer.flags pointer.page count) (hit p)) marks.new ones.new twos.new result }
{
    if pointer.flags == 0 {
        return meet_run(marks, lowest, pointer.page, count);
    }
    if pointer.flags == INDEXED {
        return meet_index(img, marks, ones, lowest, pointer.page);
    }
    if pointer.flags == SUBINDEXED {
        return meet_subindex(img, marks, ones, twos, lowest, pointer.page);
    }
    lowest
}
