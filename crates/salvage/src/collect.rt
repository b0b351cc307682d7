// The first pass: each word that is to change is noted in the row, in ascending place.
ghost use Rattle.std.specs.Prelude.{◌≡◌, ℕ, ◌+◌, ◌-◌, ◌*◌, ◌/◌, ◌%◌, ◌≤◌, ◌<◌, min, length};
ghost use Rattle.book.specs.Bits.{digit};
ghost use Rattle.book.specs.Calls.{salvaged};
ghost use Rattle.book.specs.Decides.{Decides};
ghost use Rattle.book.specs.Entries.{user_page, entry_word};
ghost use Rattle.book.specs.Image.{pages};
ghost use Rattle.book.specs.Pointers.{page, bit_pointer};
ghost use Rattle.book.specs.Salvage.{word_at, spent};
ghost use Rattle.book.specs.Words.{vol};
ghost use Rattle.salvage.specs.Row.{row_size, RowTells};
ghost use Rattle.salvage.specs.Facts.{Sure, MarksHeld, Counts, BitsRight, BitPage, Next};

use crate::row::note;
use bits::bit_pages;
use bits::word::low_bits;
use page::entry::{EntryPlace, USED};
use page::read::{page_at, word_from};
use page::{BITS, UNRESERVED, WORDS};
use tree::entry::entry_used;
use tree::root::user_page;

// The n lowest bits of m, and from there on those of w.
fn joined(w: u16, m: u16, n: usize) -> u16
    requires { n < 16 }
    ensures { (j : ℕ) → j < 16 → (j < n → digit j result ≡ digit j m) × (n ≤ j → digit j result ≡ digit j w) }
{
    low_bits(m, n) | (w & !low_bits(w, n))
}

// The word at place i is to become x.
fn note_word(img: &[u16], row: &mut [u64; 9311], i: usize, x: u16, n: usize) -> usize
    requires { Sure img.now × RowTells img.now i row.old n × (i < length img.now) × (x ≡ word_at (salvaged img.now) i) }
    ensures { RowTells img.now (i + 1) row.new result }
{
    note(row, i, img[i], x, n)
}

// The count at place i is to become x.
fn note_two(img: &[u16], row: &mut [u64; 9311], i: usize, x: u32, n: usize) -> usize
    requires { Sure img.now × RowTells img.now i row.old n × (i + 1 < length img.now) × (x / 65536 ≡ word_at (salvaged img.now) i) × (x % 65536 ≡ word_at (salvaged img.now) (i + 1)) }
    ensures { RowTells img.now (i + 2) row.new result }
{
    let m = note_word(img, row, i, (x / 65536) as u16, n);
    note_word(img, row, i + 1, (x % 65536) as u16, m)
}

// Word k of the bit file, which begins at page b, is to become x, which tells of each of its pages whether it is held, and from P on has the bits that were there.
fn note_bit_word(img: &[u16], b: usize, k: usize, x: u16, row: &mut [u64; 9311], n: usize) -> usize
    requires { Sure img.now × (b ≡ page (vol img.now 0) bit_pointer) × (16 * k < pages img.now) × BitsRight img.now b k x × RowTells img.now (1024 * b + k) row.old n }
    ensures { RowTells img.now (1024 * b + k + 1) row.new result }
{
    note_word(img, row, WORDS * b + k, x, n)
}

// The last words of bits, on page p of the bit file: the one that holds P is made of both, and from there on nothing changes.
fn note_last(
    img: &[u16],
    marks: &[u16],
    total: usize,
    b: usize,
    p: usize,
    row: &mut [u64; 9311],
    n: usize,
) -> usize
    requires { Sure img.now × MarksHeld img.now marks.now × (total ≡ pages img.now) × (b ≡ page (vol img.now 0) bit_pointer) × BitPage (pages img.now) b p
        × (total / 16 < 1024 * (p - b) + 1024) × RowTells img.now (1024 * b + total / 16) row.old n }
    ensures { RowTells img.now (1024 * p + 1024) row.new result }
{
    let full = total / 16;
    let rest = total % 16;
    if rest == 0 {
        return n;
    }
    let x = joined(word_from(img, b, full), marks[full], rest);
    note_bit_word(img, b, full, x, row, n)
}

// The words of page p of the bit file, which begins at page b.
fn note_bits(
    img: &[u16],
    marks: &[u16],
    total: usize,
    b: usize,
    p: usize,
    row: &mut [u64; 9311],
    n: usize,
) -> usize
    requires { Sure img.now × MarksHeld img.now marks.now × (total ≡ pages img.now) × (b ≡ page (vol img.now 0) bit_pointer) × BitPage (pages img.now) b p × RowTells img.now (1024 * p) row.old n }
    ensures { RowTells img.now (1024 * p + 1024) row.new result }
{
    let first = WORDS * (p - b);
    let next = first + WORDS;
    let full = next.min(total / 16);
    let mut m = n;
    for k in first..full {
        m = note_bit_word(img, b, k, marks[k], row, m);
    }
    if full < next {
        return note_last(img, marks, total, b, p, row, m);
    }
    m
}

// Whether p is one of the n pages from b on.
fn is_among(b: usize, n: usize, p: usize) -> bool
    requires { (b < 4294967296) × (n < 4294967296) }
    ensures { Decides result ((b ≤ p) × (p < b + n)) }
{
    (b..b + n).contains(&p)
}

// The used count of user u, whose entry is on page q.
fn note_user(
    img: &[u16],
    counts: &[u32; 256],
    q: usize,
    u: usize,
    row: &mut [u64; 9311],
    n: usize,
) -> usize
    requires { Sure img.now × Counts (vol img.now) counts.now × (u < 256) × (0 < q) × (q < pages img.now) × (q ≡ user_page (vol img.now) u) × RowTells img.now (1024 * q + entry_word u) row.old n }
    ensures { RowTells img.now (1024 * q + entry_word u + 32) row.new result }
{
    if !entry_used(img, q, u) {
        return n;
    }
    let first = EntryPlace::of(u);
    let w = first.word;
    note_two(img, row, WORDS * q + w + USED, counts[u], n)
}

// The used counts of the 32 users from `first` on, whose entries are on page q.
fn note_users(
    img: &[u16],
    counts: &[u32; 256],
    q: usize,
    first: usize,
    row: &mut [u64; 9311],
    n: usize,
) -> usize
    requires { Sure img.now × Counts (vol img.now) counts.now × (first % 32 ≡ 0) × (first < 256) × (0 < q) × (q < pages img.now) × (q ≡ user_page (vol img.now) first) × RowTells img.now (1024 * q) row.old n }
    ensures { RowTells img.now (1024 * q + 1024) row.new result }
{
    let mut m = n;
    for u in first..first + 32 {
        m = note_user(img, counts, q, u, row, m);
    }
    m
}

// Page p: one of the bit file, which begins at page b, a user page, or one without such words.
fn note_page(
    img: &[u16],
    marks: &[u16],
    counts: &[u32; 256],
    b: usize,
    p: usize,
    row: &mut [u64; 9311],
    n: usize,
) -> usize
    requires { Sure img.now × MarksHeld img.now marks.now × Counts (vol img.now) counts.now × (b ≡ page (vol img.now 0) bit_pointer) × (0 < p) × (p < pages img.now) × RowTells img.now (1024 * p) row.old n }
    ensures { RowTells img.now (1024 * p + 1024) row.new result }
{
    let total = img.len() / WORDS;
    if is_among(b, bit_pages(total), p) {
        return note_bits(img, marks, total, b, p, row, n);
    }
    for i in 0..8 {
        if user_page(img, 32 * i) == p {
            return note_users(img, counts, p, 32 * i, row, n);
        }
    }
    n
}

// The nearer of x and r behind p.
fn nearer(p: usize, x: usize, r: usize) -> usize
    requires { p < r }
    ensures { (p < result) × (result ≤ r) × (p < x → result ≤ x) }
{
    if p < x { r.min(x) } else { r }
}

// The next page behind p of the n pages from b on, or the total of pages.
fn next_among(b: usize, n: usize, p: usize, total: usize) -> usize
    requires { (p < total) × (b + n ≤ total) }
    ensures { (p < result) × (result ≤ total) × ((x : ℕ) → p < x → b ≤ x → x < b + n → result ≤ x) }
{
    if p < b {
        b
    } else if p + 1 < b + n {
        p + 1
    } else {
        total
    }
}

// The next page behind p that is one of the bit file, which begins at page b, or a user page, or the total of pages.
fn next_page(img: &[u16], total: usize, b: usize, p: usize) -> usize
    requires { Sure img.now × (total ≡ pages img.now) × (b ≡ page (vol img.now 0) bit_pointer) × (p < total) }
    ensures { Next (pages img.now) (vol img.now) p result }
{
    let mut r = next_among(b, bit_pages(total), p, total);
    for i in 0..8 {
        r = nearer(p, user_page(img, 32 * i), r);
    }
    r
}

// All words that are to change, where so much is left as unreserved: how many they are.
pub(crate) fn collect(
    img: &[u16],
    marks: &[u16],
    counts: &[u32; 256],
    left: u32,
    row: &mut [u64; 9311],
) -> usize
    requires { Sure img.now × MarksHeld img.now marks.now × Counts (vol img.now) counts.now × (left ≡ pages img.now - spent (pages img.now) (vol img.now)) × (length row.old ≡ row_size) }
    ensures { RowTells img.now (1024 * pages img.now) row.new result }
{
    let total = img.len() / WORDS;
    let b = page_at(img, 0, BITS) as usize;
    let mut n = note_two(img, row, UNRESERVED, left, 0);
    let mut p = next_page(img, total, b, 0);
    while p < total {
        n = note_page(img, marks, counts, b, p, row, n);
        p = next_page(img, total, b, p);
    }
    n
}
