// Freeing the pages of a file: the page of a pointer and all below it, by the level, or a run. b is where the bit file begins.
ghost use Rattle.std.specs.Prelude.{◌≡◌, suc, ◌+◌, ◌≤◌, ◌<◌};
ghost use Rattle.sums.specs.Sum.{sum};
ghost use Rattle.book.specs.Words.{vol};
ghost use Rattle.book.specs.Pointers.{slot};
ghost use Rattle.book.specs.Trees.{weigh, weigh_r, root_by};
ghost use Rattle.book.specs.Bits.{freed};
ghost use Rattle.book.specs.Holders.{hit};
ghost use Rattle.book.specs.Image.{pages};
ghost use Rattle.growth.specs.Freeing.{Freeing, Apart, RootApart};

use page::read::{Pointer, slot_at};

// Frees the page that a pointer of this level names, and all below it. Pointer 0 names none.
#[cycle(free_block_free_pointer)]
fn free_pointer(img: &mut [u16], b: usize, t: usize, level: usize)
    requires { Freeing img.old b × Apart (pages img.old) (vol img.old) b level t }
    ensures { vol img.new ≡ freed (pages img.old) (vol img.old) (λ p. weigh (vol img.old) level t (hit p)) }
{
    if t == 0 {
        return;
    }
    bits::clear(img, b, t);
    if level == 0 {
        return;
    }
    free_block(img, b, t, level - 1);
}

// Frees what each of the 512 pointers of the block in page t names. The level is that of the pointers.
#[cycle(free_block_free_pointer)]
fn free_block(img: &mut [u16], b: usize, t: usize, level: usize)
    requires { Freeing img.old b × Apart (pages img.old) (vol img.old) b (suc level) t }
    ensures { vol img.new ≡ freed (pages img.old) (vol img.old) (λ p. sum 512 (λ k. weigh (vol img.old) level (slot (vol img.old) t k) (hit p))) }
{
    for i in 0..512 {
        let d = slot_at(img, t, i);
        free_pointer(img, b, d, level);
    }
}

// Frees the n pages from s on.
fn free_run(img: &mut [u16], b: usize, s: usize, n: usize)
    requires { Freeing img.old b × (s + n ≤ pages img.old) × (0 < n → 0 < s) }
    ensures { vol img.new ≡ freed (pages img.old) (vol img.old) (λ p. sum n (λ i. hit p (s + i))) }
{
    for i in 0..n {
        bits::clear(img, b, s + i);
    }
}

// Frees the pages of the root with this pointer and so many pages.
pub(crate) fn free_root(img: &mut [u16], b: usize, pointer: Pointer, n: usize)
    requires { Freeing img.old b × RootApart (pages img.old) (vol img.old) b pointer.flags pointer.page n }
    ensures { vol img.new ≡ freed (pages img.old) (vol img.old) (λ p. weigh_r (vol img.old) (root_by pointer.flags pointer.page n) (hit p)) }
{
    if pointer.flags == 0 {
        return free_run(img, b, pointer.page, n);
    }
    free_pointer(img, b, pointer.page, usize::from(pointer.flags))
}
