// The slots of blocks that have page p, the first from a position on. A block that was read through in vain is marked, and is not read again.
ghost use Rattle.std.specs.Prelude.{◌≡◌, ℕ, ◌/◌, ◌%◌, ◌≤◌, ◌<◌};
ghost use Rattle.book.specs.Words.{vol};
ghost use Rattle.book.specs.Pointers.{slot};
ghost use Rattle.book.specs.Trees.{tree, upto};
ghost use Rattle.book.specs.Image.{pages};
ghost use Rattle.tree.specs.Reach.{Reach};
ghost use Rattle.tree.specs.Ends.{SlotsEnd};
ghost use Rattle.who.specs.Least.{Least};
ghost use Rattle.who.specs.Turns.{positions};
ghost use Rattle.who.specs.Search.{Search};

use bits::marks::{mark, mark_of};
use page::read::slot_at;

// The first slot from n on of the block in page b that has page p. Slots from z on are not filled.
fn slots_from(img: &[u16], b: usize, n: usize, z: usize, p: usize) -> Option<usize>
    requires { (b < pages img.now) × SlotsEnd (vol img.now) b z × (n ≤ 512) × (0 < p) }
    ensures { Least (λ (k : ℕ). slot (vol img.now) b k ≡ p) n 512 result }
{
    for k in n..z {
        if slot_at(img, b, k) == p {
            return Some(k);
        }
    }
    None
}

// The same, of a block that may be marked.
fn block_from(
    img: &[u16],
    seen: &mut [u16],
    tops: &[u16],
    b: usize,
    n: usize,
    z: usize,
    p: usize,
) -> Option<usize>
    requires { Search img.now p seen.old tops.now × (b < pages img.now) × SlotsEnd (vol img.now) b z × (n ≤ 512) }
    ensures { Least (λ (k : ℕ). slot (vol img.now) b k ≡ p) n 512 result × Search img.now p seen.new tops.now }
{
    if mark_of(seen, b) != 0 {
        return None;
    }
    let found = slots_from(img, b, n, z, p);
    if n == 0 && found.is_none() {
        mark(seen, b);
    }
    found
}

// The first position from n on of the block in page b, a file of one level or the index blocks of one of two.
pub fn level_from(
    img: &[u16],
    seen: &mut [u16],
    tops: &[u16],
    b: usize,
    n: usize,
    z: usize,
    p: usize,
) -> Option<usize>
    requires { Search img.now p seen.old tops.now × (b < pages img.now) × SlotsEnd (vol img.now) b z × (n ≤ positions) }
    ensures { Least (λ (k : ℕ). upto k 512 (slot (vol img.now) b k) ≡ p) n positions result × Search img.now p seen.new tops.now }
{
    if 512 < n {
        return None;
    }
    block_from(img, seen, tops, b, n, z, p)
}

// The first position from n on under the subindex block in page t, of which slots from z on are not filled.
pub fn tree_from(
    img: &[u16],
    seen: &mut [u16],
    tops: &mut [u16],
    t: usize,
    n: usize,
    z: usize,
    p: usize,
) -> Option<usize>
    requires { Search img.now p seen.old tops.old × Reach img.now (tree 2 t) × SlotsEnd (vol img.now) t z × (n ≤ positions) }
    ensures { Least (λ (k : ℕ). slot (vol img.now) (slot (vol img.now) t (k / 512)) (k % 512) ≡ p) n positions result × Search img.now p seen.new tops.new }
{
    if mark_of(tops, t) != 0 {
        return None;
    }
    let mut from = n % 512;
    for k in n / 512..z {
        let b = slot_at(img, t, k);
        if let Some(j) = block_from(img, seen, tops, b, from, 512, p) {
            return Some(512 * k + j);
        }
        from = 0;
    }
    if n == 0 {
        mark(tops, t);
    }
    None
}
