// Reading words, two-word numbers and pointers.
ghost use Rattle.std.specs.Prelude.{◌≡◌, ◌+◌, ◌*◌, ◌%◌, ◌≤◌, ◌<◌, length, get_or};
ghost use Rattle.book.specs.Words.{vol, two};
ghost use Rattle.book.specs.Pointers.{page, flags, slot};
ghost use Rattle.page.specs.Parts.{word_from};

use crate::WORDS;

// The two-word number at word k of a part, the more significant word first.
pub fn dword(part: &[u16], k: usize) -> u32
    requires { k + 1 < length part.now }
    ensures { (result ≡ get_or part.now k 0 * 65536 + get_or part.now (k + 1) 0) × (result < 4294967296) }
{
    u32::from(part[k]) * 65536 + u32::from(part[k + 1])
}

// The page number of the pointer at word k of a part, without its flags.
fn dpage(part: &[u16], k: usize) -> u32
    requires { k + 1 < length part.now }
    ensures { (result ≡ get_or part.now k 0 % 16384 * 65536 + get_or part.now (k + 1) 0) × (result < 1073741824) }
{
    u32::from(part[k]) % 16384 * 65536 + u32::from(part[k + 1])
}

// Word k of page p.
pub fn word_at(img: &[u16], p: usize, k: usize) -> u16
    requires { (1024 * p + 1024 ≤ length img.now) × (k < 1024) }
    ensures { result ≡ vol img.now p k }
{
    img[WORDS * p + k]
}

// Word i of the pages from page p on.
pub fn word_from(img: &[u16], p: usize, i: usize) -> u16
    requires { 1024 * p + i < length img.now }
    ensures { result ≡ word_from (vol img.now) p i }
{
    img[WORDS * p + i]
}

// The two-word number at word k of page p.
pub fn two_at(img: &[u16], p: usize, k: usize) -> u32
    requires { (1024 * p + 1024 ≤ length img.now) × (k < 1023) }
    ensures { (result ≡ two (vol img.now p) k) × (result < 4294967296) }
{
    let a = WORDS * p;
    let z = a + WORDS;
    dword(&img[a..z], k)
}

// The page number of the pointer at word k of page p.
pub fn page_at(img: &[u16], p: usize, k: usize) -> u32
    requires { (1024 * p + 1024 ≤ length img.now) × (k < 1023) }
    ensures { (result ≡ page (vol img.now p) k) × (result < 1073741824) }
{
    let a = WORDS * p;
    let z = a + WORDS;
    dpage(&img[a..z], k)
}

// The flags of the pointer at word k of page p.
pub fn flags_at(img: &[u16], p: usize, k: usize) -> u16
    requires { (1024 * p + 1024 ≤ length img.now) × (k < 1024) }
    ensures { (result ≡ flags (vol img.now p) k) × (result < 4) }
{
    word_at(img, p, k) / 16384
}

// A pointer: its flags and its page. Flags are a number: a disk's may be any of four, and the book's rules judge them.
#[derive(Clone, Copy, Debug, PartialEq, Eq)]
pub struct Pointer {
    pub flags: u16,
    pub page: usize,
}

// The pointer at word k of page p.
pub fn pointer_at(img: &[u16], p: usize, k: usize) -> Pointer
    requires { (1024 * p + 1024 ≤ length img.now) × (k < 1023) }
    ensures flags { (result.flags ≡ flags (vol img.now p) k) × (result.flags < 4) }
    ensures page { (result.page ≡ page (vol img.now p) k) × (result.page < 1073741824) }
{
    Pointer {
        flags: flags_at(img, p, k),
        page: page_at(img, p, k) as usize,
    }
}

// Pointer n of the block in page b; a block that is absent, b = 0, has only zeros. An `as`: a u32 becomes a usize by no `From`.
pub fn slot_at(img: &[u16], b: usize, n: usize) -> usize
    requires { (1024 * b + 1024 ≤ length img.now) × (n < 512) }
    ensures { (result ≡ slot (vol img.now) b n) × (result < 4294967296) }
{
    if b == 0 {
        return 0;
    }
    two_at(img, b, 2 * n) as usize
}
