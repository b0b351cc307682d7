// Marks: one bit a page, in a row of words. A walk marks the pages that it has met, and a test those that passed it.
// The row is as long as the volume asks for: a small volume does not pay for clearing the marks of the largest.
ghost use Rattle.std.specs.Prelude.{◌≡◌, ◌*◌, ◌<◌, length};
ghost use Rattle.book.specs.Bits.{page_bits};
ghost use Rattle.book.specs.Image.{most_pages};
ghost use Rattle.bits.specs.Marks.{marked, Unmarked, Marking};

use crate::word::{digit_in, with_one};

// The mark of page p: 1 or 0, as a bit of the file.
pub fn mark_of(marks: &[u16], p: usize) -> u16
    requires { p < 16 * length marks.now }
    ensures { (result ≡ marked marks.now p) × (result < 2) }
{
    digit_in(marks[p / 16], p % 16)
}

// Marks page p; false where it is marked already.
pub fn mark(marks: &mut [u16], p: usize) -> bool
    requires { p < 16 * length marks.old }
    ensures { Marking marks.old p marks.new result }
{
    let i = p / 16;
    let j = p % 16;
    let w = marks[i];
    if digit_in(w, j) != 0 {
        return false;
    }
    marks[i] = with_one(w, j);
    true
}

// The marks of a volume of one bit page, before the first page is marked.
pub fn few_marks() -> [u16; 1024]
    ensures { Unmarked page_bits result }
{
    [0; 1024]
}

// Those of the largest volume. A name for each of the two sizes, for its callers: the bodies are literals, which a const parameter makes no plainer.
pub fn most_marks() -> [u16; 8796]
    ensures { Unmarked most_pages result }
{
    [0; 8796]
}
