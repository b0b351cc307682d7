// The bit file, the run of pages from page b on, read as one part: page p is bit p % 16, from the right, of its word p / 16; 1 is reserved.
#![tactic(auto)]

pub mod marks;
pub mod pair;
pub mod run;
pub mod search;
pub mod word;

ghost use Rattle.std.specs.Prelude.{◌≡◌, ℕ, ◌+◌, ◌*◌, ◌/◌, ◌≤◌, ◌<◌, length};
ghost use Rattle.book.specs.Words.{vol};
ghost use Rattle.book.specs.Bits.{bit, mark, reserved as reservedOf, claim as claim_of, claim_run, bit_pages};
ghost use Rattle.book.specs.Image.{pages as pages_of, most_pages, Ready};
ghost use Rattle.bits.specs.File.{BitsAt};
ghost use Rattle.bits.specs.Taken.{CanTake, Took};

use page::read::{page_at, word_from};
use page::write::{put_from, zero_page};
use page::{BITS, WORDS};
use search::lowest_free;
use word::{digit_in, ones_in, ones_low, with_one, with_zero};

// The pages that the bits of one page serve.
pub const PAGE_BITS: usize = 16384;

// How many bit pages so many pages ask for.
pub fn bit_pages(pages: usize) -> usize
    requires { pages ≤ most_pages }
    ensures { result ≡ bit_pages pages }
{
    pages.div_ceil(PAGE_BITS)
}

// The page at which the bit file begins.
pub fn bit_page(img: &[u16]) -> usize
    requires { Ready img.now }
    ensures { BitsAt (pages_of img.now) (vol img.now) result }
{
    page_at(img, 0, BITS) as usize
}

// Page p's bit.
pub fn test(img: &[u16], b: usize, p: usize) -> u16
    requires { 1024 * b + p / 16 < length img.now }
    ensures { ((P : ℕ) → BitsAt P (vol img.now) b → p < P → result ≡ bit P (vol img.now) p) × (result < 2) }
{
    digit_in(word_from(img, b, p / 16), p % 16)
}

// Page p is reserved.
pub fn set(img: &mut [u16], b: usize, p: usize)
    requires { 1024 * b + p / 16 < length img.old }
    ensures { (P : ℕ) → BitsAt P (vol img.old) b → p < P → vol img.new ≡ mark P (vol img.old) p 1 }
{
    let w = word_from(img, b, p / 16);
    put_from(img, b, p / 16, with_one(w, p % 16));
}

// Page p is freed. Not one function with `set`: it would take the change of the word as a closure, for two lines.
pub fn clear(img: &mut [u16], b: usize, p: usize)
    requires { 1024 * b + p / 16 < length img.old }
    ensures { (P : ℕ) → BitsAt P (vol img.old) b → p < P → vol img.new ≡ mark P (vol img.old) p 0 }
{
    let w = word_from(img, b, p / 16);
    put_from(img, b, p / 16, with_zero(w, p % 16));
}

// Page p is taken: reserved, and made zeros.
pub fn claim(img: &mut [u16], b: usize, p: usize)
    requires { (1024 * b + p / 16 < length img.old) × (1024 * p + 1024 ≤ length img.old) }
    ensures { (P : ℕ) → BitsAt P (vol img.old) b → p < P → vol img.new ≡ claim_of P (vol img.old) p }
{
    set(img, b, p);
    zero_page(img, p);
}

// The n pages from s on are taken.
pub fn claim_run(img: &mut [u16], b: usize, s: usize, n: usize)
    requires { (1024 * b + (s + n + 15) / 16 ≤ length img.old) × (1024 * (s + n) ≤ length img.old) × (0 < s) }
    ensures { (P : ℕ) → BitsAt P (vol img.old) b → s + n ≤ P → vol img.new ≡ claim_run P (vol img.old) s n }
{
    for p in s..s + n {
        claim(img, b, p);
    }
}

// The reserved count: the ones of each word, the last masked.
pub fn reserved(img: &[u16], b: usize, pages: usize) -> usize
    requires { (1024 * pages ≤ length img.now) × BitsAt pages (vol img.now) b }
    ensures { result ≡ reservedOf pages (vol img.now) }
{
    let full = pages / 16;
    let rest = pages % 16;
    let mut n = 0;
    for i in 0..full {
        n += ones_in(word_from(img, b, i));
    }
    if rest == 0 {
        return n;
    }
    n + ones_low(word_from(img, b, full), rest)
}

// The lowest free page is taken.
pub fn take(img: &mut [u16], b: usize) -> usize
    requires { CanTake (pages_of img.old) (vol img.old) b }
    ensures { Took (pages_of img.old) (vol img.old) result (vol img.new) }
{
    let p = lowest_free(img, b, img.len() / WORDS);
    claim(img, b, p);
    p
}
