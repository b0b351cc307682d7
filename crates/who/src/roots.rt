// The first position from n on of page p in one root and one class: 0 the subindex block, 1 the index blocks, 2 the data pages.
ghost use Rattle.std.specs.Prelude.{◌≡◌, ℕ, ◌+◌, ◌*◌, ◌≤◌, ◌<◌};
ghost use Rattle.book.specs.Words.{Vol, vol};
ghost use Rattle.book.specs.Trees.{root_by, upto};
ghost use Rattle.tree.specs.Reach.{Reach};
ghost use Rattle.walk.specs.Short.{ShortR};
ghost use Rattle.who.specs.Least.{Least};
ghost use Rattle.who.specs.Turns.{positions, class_page};
ghost use Rattle.who.specs.Search.{Search};

use crate::blocks::{level_from, tree_from};
use page::read::Pointer;

// Where page top alone is, at position 0.
pub fn top_from(top: usize, n: usize, p: usize) -> Option<usize>
    requires { (0 < p) × (n ≤ positions) }
    ensures { Least (λ (k : ℕ). upto k 1 top ≡ p) n positions result }
{
    if n == 0 && top == p {
        return Some(0);
    }
    None
}

// In the run of count pages from page top on.
pub fn run_from(top: usize, count: usize, n: usize, p: usize) -> Option<usize>
    requires { (0 < p) × (n ≤ positions) × (count ≤ positions) }
    ensures { Least (λ (k : ℕ). upto k count (top + k) ≡ p) n positions result }
{
    let k = p.checked_sub(top)?;
    if n <= k && k < count {
        return Some(k);
    }
    None
}

// The subindex block.
fn subindex_from(pointer: Pointer, n: usize, p: usize) -> Option<usize>
    requires { (0 < p) × (n ≤ positions) }
    ensures { (v : Vol) (m : ℕ) → Least (λ (k : ℕ). class_page v (root_by pointer.flags pointer.page m) 0 k ≡ p) n positions result }
{
    if pointer.flags == 2 {
        return top_from(pointer.page, n, p);
    }
    None
}

// The index blocks. So many pages fill no more of a subindex block's 512 slots than z.
fn index_from(
    img: &[u16],
    seen: &mut [u16],
    tops: &[u16],
    pointer: Pointer,
    count: usize,
    n: usize,
    p: usize,
) -> Option<usize>
    requires { Search img.now p seen.old tops.now × Reach img.now (root_by pointer.flags pointer.page count) × ShortR (vol img.now) (root_by pointer.flags pointer.page count) count × (n ≤ positions) }
    ensures { Least (λ (k : ℕ). class_page (vol img.now) (root_by pointer.flags pointer.page count) 1 k ≡ p) n positions result × Search img.now p seen.new tops.now }
{
    if pointer.flags == 1 {
        return top_from(pointer.page, n, p);
    }
    if pointer.flags == 2 {
        let z = count.div_ceil(512).min(512);
        return level_from(img, seen, tops, pointer.page, n, z, p);
    }
    None
}

// The data pages of an indexed file. So many fill no more of its block's 512 slots than z.
fn data_from(
    img: &[u16],
    seen: &mut [u16],
    tops: &mut [u16],
    pointer: Pointer,
    count: usize,
    n: usize,
    p: usize,
) -> Option<usize>
    requires { Search img.now p seen.old tops.old × Reach img.now (root_by pointer.flags pointer.page count) × ShortR (vol img.now) (root_by pointer.flags pointer.page count) count × (n ≤ positions) × (0 < pointer.flags) }
    ensures { Least (λ (k : ℕ). class_page (vol img.now) (root_by pointer.flags pointer.page count) 2 k ≡ p) n positions result × Search img.now p seen.new tops.new }
{
    if pointer.flags == 1 {
        let z = count.min(512);
        return level_from(img, seen, tops, pointer.page, n, z, p);
    }
    if pointer.flags == 2 {
        let z = count.div_ceil(512).min(512);
        return tree_from(img, seen, tops, pointer.page, n, z, p);
    }
    None
}

// The pages of a class of an indexed file.
pub fn class_from(
    img: &[u16],
    seen: &mut [u16],
    tops: &mut [u16],
    class: usize,
    pointer: Pointer,
    count: usize,
    n: usize,
    p: usize,
) -> Option<usize>
    requires { Search img.now p seen.old tops.old × (class < 3) × Reach img.now (root_by pointer.flags pointer.page count) × ShortR (vol img.now) (root_by pointer.flags pointer.page count) count × (n ≤ positions) × (0 < pointer.flags) }
    ensures { Least (λ (k : ℕ). class_page (vol img.now) (root_by pointer.flags pointer.page count) class k ≡ p) n positions result × Search img.now p seen.new tops.new }
{
    if class == 0 {
        return subindex_from(pointer, n, p);
    }
    if class == 1 {
        return index_from(img, seen, tops, pointer, count, n, p);
    }
    data_from(img, seen, tops, pointer, count, n, p)
}
