// A block of pointers: which slots may be filled, and with what.
ghost use Rattle.std.specs.Prelude.{◌≤◌};
ghost use Rattle.book.specs.Words.{vol};
ghost use Rattle.book.specs.Image.{pages};
ghost use Rattle.book.specs.Decides.{Decides};
ghost use Rattle.heads.specs.Slots.{Slots, Block};

use page::WORDS;
use tree::block::filled;

// Whether all pointers of block b are below total, and those from slot m on zero. An absent block has only zeros.
pub(crate) fn block_ok(img: &[u16], total: usize, b: usize, m: usize) -> bool
    requires { Block img.now total b × (m ≤ 512) }
    ensures { Decides result (Slots (pages img.now) (vol img.now) b m) }
{
    if b == 0 {
        return true;
    }
    let a = WORDS * b;
    filled(&img[a..a + WORDS], m, 0, total)
}
