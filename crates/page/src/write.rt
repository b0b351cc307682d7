// Writing words, two-word numbers, pointers, and words in a row.
ghost use Rattle.std.specs.Prelude.{◌≡◌, ◌+◌, ◌*◌, ◌/◌, ◌%◌, ◌≤◌, ◌<◌, length, get_or};
ghost use Rattle.book.specs.Words.{vol, put, put2, put_words, wipe, zeros};
ghost use Rattle.book.specs.Pointers.{pointer};
ghost use Rattle.page.specs.Parts.{Begins};

use crate::WORDS;

// Word k of page p becomes x.
pub fn put_word(img: &mut [u16], p: usize, k: usize, x: u16)
    requires { (1024 * p + 1024 ≤ length img.old) × (k < 1024) }
    ensures { vol img.new ≡ put (vol img.old) p k x }
{
    img[WORDS * p + k] = x;
}

// Word i of the pages from page p on becomes x.
pub fn put_from(img: &mut [u16], p: usize, i: usize, x: u16)
    requires { 1024 * p + i < length img.old }
    ensures { vol img.new ≡ put (vol img.old) (p + i / 1024) (i % 1024) x }
{
    img[WORDS * p + i] = x;
}

// The two-word number at word k of page p becomes x.
pub fn put_two(img: &mut [u16], p: usize, k: usize, x: u32)
    requires { (1024 * p + 1024 ≤ length img.old) × (k < 1023) }
    ensures { vol img.new ≡ put2 (vol img.old) p k x }
{
    put_word(img, p, k, (x / 65536) as u16);
    put_word(img, p, k + 1, (x % 65536) as u16);
}

// The pointer with these flags to page t. An `as`: a usize becomes a u32 by no `From`, and a `try_from` would ask again what is required.
pub fn pointer_to(flags: u16, t: usize) -> u32
    requires { (flags < 4) × (t < 1073741824) }
    ensures { result ≡ pointer flags t }
{
    u32::from(flags) * 1073741824 + t as u32
}

// The n words from word k of page p on become zeros.
pub(crate) fn zero_at(img: &mut [u16], p: usize, k: usize, n: usize)
    requires { (1024 * p + 1024 ≤ length img.old) × (k + n ≤ 1024) }
    ensures { vol img.new ≡ put_words (vol img.old) p k n zeros }
{
    let a = WORDS * p + k;
    let z = a + n;
    img[a..z].fill(0);
}

// Page p becomes zeros.
pub fn zero_page(img: &mut [u16], p: usize)
    requires { 1024 * p + 1024 ≤ length img.old }
    ensures { vol img.new ≡ wipe (vol img.old) p }
{
    zero_at(img, p, 0, WORDS);
}

// Page p becomes the 1,024 words of data. Not by `copy_from_slice`, which is a call of `memmove`: the archive for C would want one more name from outside.
pub fn copy_page(img: &mut [u16], p: usize, data: &[u16])
    requires { (1024 * p + 1024 ≤ length img.old) × (length «data».now ≡ 1024) }
    ensures { vol img.new ≡ put_words (vol img.old) p 0 1024 (λ k. get_or «data».now k 0) }
{
    let a = WORDS * p;
    let z = a + WORDS;
    let part = &mut img[a..z];
    for (k, word) in part.iter_mut().enumerate() {
        *word = data[k];
    }
}
