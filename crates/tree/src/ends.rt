// Where a file ends: the position from which on it has no pages. A file with few pages need not be read to its last possible one.
ghost use Rattle.std.specs.Prelude.{◌<◌};
ghost use Rattle.book.specs.Words.{vol};
ghost use Rattle.book.specs.Trees.{root_by};
ghost use Rattle.book.specs.Image.{pages};
ghost use Rattle.tree.specs.Reach.{Reach};
ghost use Rattle.tree.specs.Ends.{SlotsEnd, TreeEnd};

use crate::block::block_end;
use page::WORDS;
use page::read::slot_at;

// One more than the highest filled slot of the block in page b; an absent block has none.
pub(crate) fn slots_end(img: &[u16], b: usize) -> usize
    requires { b < pages img.now }
    ensures { SlotsEnd (vol img.now) b result }
{
    if b == 0 {
        return 0;
    }
    let a = WORDS * b;
    let z = a + WORDS;
    block_end(&img[a..z])
}

// One more than the highest position below 2,048 that has a page under the subindex block in page t.
pub(crate) fn tree_end(img: &[u16], t: usize) -> usize
    requires { Reach img.now (root_by 2 t 0) }
    ensures { TreeEnd (vol img.now) t result }
{
    for i in (0..4).rev() {
        let n = slots_end(img, slot_at(img, t, i));
        if n != 0 {
            return 512 * i + n;
        }
    }
    0
}
