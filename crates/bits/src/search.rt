// Searches of the bit file, a word of 16 pages at a step. Bits from P on are not looked at: their pages count as reserved.
ghost use Rattle.std.specs.Prelude.{◌≡◌, ◌*◌, ◌≤◌, ◌<◌, length};
ghost use Rattle.book.specs.Words.{vol};
ghost use Rattle.book.specs.Bits.{lowest_free, highest_run};
ghost use Rattle.book.specs.Image.{most_pages};
ghost use Rattle.bits.specs.File.{BitsAt};
ghost use Rattle.bits.specs.Search.{free_from, LastWord};

use crate::pair::{next_pair, start_in};
use crate::run::{left_in, run_in};
use crate::word::{FULL, first_clear, ones_below, ones_from};
use page::read::word_from;

// Two words of which each bit is 1.
const FULL_PAIR: u32 = u32::MAX;

// The lowest free page from `from` on, and `pages` if there is none, as the theorems on `free_from` say: full words are skipped.
pub fn free_from(img: &[u16], b: usize, pages: usize, from: usize) -> usize
    requires { (1024 * pages ≤ length img.now) × BitsAt pages (vol img.now) b }
    ensures { result ≡ free_from pages (vol img.now) from }
{
    if pages <= from {
        return pages;
    }
    let first = from / 16;
    let last = (pages - 1) / 16;
    let mut w = ones_below(word_from(img, b, first), from % 16);
    for i in first..last {
        if w != FULL {
            return i * 16 + first_clear(w);
        }
        w = word_from(img, b, i + 1);
    }
    pages.min(last * 16 + first_clear(w))
}

// The lowest free page, and `pages` if there is none: the book's `lowest_free`.
pub fn lowest_free(img: &[u16], b: usize, pages: usize) -> usize
    requires { (1024 * pages ≤ length img.now) × BitsAt pages (vol img.now) b }
    ensures { result ≡ lowest_free pages (vol img.now) }
{
    free_from(img, b, pages, 0)
}

// The word that holds the bit of page `pages`, where the bits from there on count as reserved.
fn last_word(img: &[u16], b: usize, pages: usize) -> u16
    requires { (1024 * pages ≤ length img.now) × BitsAt pages (vol img.now) b }
    ensures { LastWord pages (vol img.now) result }
{
    let rest = pages % 16;
    if rest == 0 {
        return FULL;
    }
    ones_from(word_from(img, b, pages / 16), rest)
}

// The highest start of n free pages in a row, and 0 if there is none, for n up to 16: from the top, each word with the one above it.
fn short_run(img: &[u16], b: usize, pages: usize, n: usize) -> usize
    requires { (1024 * pages ≤ length img.now) × BitsAt pages (vol img.now) b × (0 < n) × (n ≤ 16) }
    ensures { result ≡ highest_run pages (vol img.now) n }
{
    let mut x = next_pair(FULL_PAIR, last_word(img, b, pages));
    for i in (0..pages / 16).rev() {
        if let Some(s) = start_in(x, n) {
            return (i + 1) * 16 + s;
        }
        x = next_pair(x, word_from(img, b, i));
    }
    start_in(x, n).unwrap_or(0)
}

// The same for n from 16 on: full and free words are a step each.
fn long_run(img: &[u16], b: usize, pages: usize, n: usize) -> usize
    requires { (1024 * pages ≤ length img.now) × BitsAt pages (vol img.now) b × (16 ≤ n) × (pages ≤ most_pages) }
    ensures { result ≡ highest_run pages (vol img.now) n }
{
    let mut w = last_word(img, b, pages);
    let mut run = 0;
    for i in (0..pages / 16).rev() {
        if let Some(s) = run_in(w, run, n) {
            return (i + 1) * 16 + s;
        }
        run = left_in(w, run);
        w = word_from(img, b, i);
    }
    run_in(w, run, n).unwrap_or(0)
}

// The highest start of n free pages in a row, and 0 if there is none: the book's `highest_run`.
pub fn highest_run(img: &[u16], b: usize, pages: usize, n: usize) -> usize
    requires { (1024 * pages ≤ length img.now) × BitsAt pages (vol img.now) b × (0 < n) × (pages ≤ most_pages) }
    ensures { result ≡ highest_run pages (vol img.now) n }
{
    if n < 16 {
        return short_run(img, b, pages, n);
    }
    long_run(img, b, pages, n)
}
