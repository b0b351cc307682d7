// Whether the bit file and the marks agree.
ghost use Rattle.std.specs.Prelude.{◌≡◌, ℕ, ◌*◌, ◌≤◌, ◌<◌, length};
ghost use Rattle.book.specs.Words.{vol};
ghost use Rattle.book.specs.Bits.{bit};
ghost use Rattle.book.specs.Decides.{Decides};
ghost use Rattle.bits.specs.File.{BitsAt};
ghost use Rattle.bits.specs.Marks.{marked};

use bits::word::low_bits;
use page::WORDS;

// Two rows of bits are the same below `pages`, word by word, the last word masked.
fn same_words(a: &[u16], b: &[u16], pages: usize) -> bool
    requires { (pages ≤ 16 * length a.now) × (pages ≤ 16 * length b.now) }
    ensures { Decides result ((p : ℕ) → p < pages → marked a.now p ≡ marked b.now p) }
{
    let full = pages / 16;
    let rest = pages % 16;
    a[..full] == b[..full] && (rest == 0 || low_bits(a[full], rest) == low_bits(b[full], rest))
}

// Each page's bit is its mark; the bit file begins at page b.
pub fn same_bits(img: &[u16], b: usize, marks: &[u16], pages: usize) -> bool
    requires { (1024 * pages ≤ length img.now) × BitsAt pages (vol img.now) b × (pages ≤ 16 * length marks.now) }
    ensures { Decides result ((p : ℕ) → p < pages → bit pages (vol img.now) p ≡ marked marks.now p) }
{
    let a = WORDS * b;
    let z = a + (pages + 15) / 16;
    same_words(&img[a..z], marks, pages)
}
