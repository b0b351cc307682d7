// Words, numbers and pointers of entry n on page q; an entry of an absent page, q = 0, has only zeros.
// The four begin alike: a helper that gave the word's place as an Option would be taken apart in each, by no fewer lines.
ghost use Rattle.std.specs.Prelude.{◌≡◌, ◌/◌, ◌<◌};
ghost use Rattle.book.specs.Words.{vol, two};
ghost use Rattle.book.specs.Pointers.{page, flags};
ghost use Rattle.book.specs.Entries.{used};
ghost use Rattle.book.specs.Image.{pages};
ghost use Rattle.book.specs.Decides.{Decides};
ghost use Rattle.tree.specs.Reach.{entry_in};

use page::entry::EntryPlace;
use page::read::{Pointer, flags_at, page_at, two_at, word_at};

// Word k.
pub fn entry_word(img: &[u16], q: usize, n: usize, k: usize) -> u16
    requires { (q < pages img.now) × (k < 32) }
    ensures { result ≡ entry_in (vol img.now) q n k }
{
    if q == 0 {
        return 0;
    }
    word_at(img, q, EntryPlace::of(n).word + k)
}

// The two-word number at word k.
pub fn entry_two(img: &[u16], q: usize, n: usize, k: usize) -> u32
    requires { (q < pages img.now) × (k < 31) }
    ensures { (result ≡ two (entry_in (vol img.now) q n) k) × (result < 4294967296) }
{
    if q == 0 {
        return 0;
    }
    two_at(img, q, EntryPlace::of(n).word + k)
}

// The page number of the pointer at word k.
pub fn entry_page(img: &[u16], q: usize, n: usize, k: usize) -> usize
    requires { (q < pages img.now) × (k < 31) }
    ensures { (result ≡ page (entry_in (vol img.now) q n) k) × (result < 1073741824) }
{
    if q == 0 {
        return 0;
    }
    page_at(img, q, EntryPlace::of(n).word + k) as usize
}

// The flags of the pointer at word k.
pub fn entry_flags(img: &[u16], q: usize, n: usize, k: usize) -> u16
    requires { (q < pages img.now) × (k < 32) }
    ensures { (result ≡ flags (entry_in (vol img.now) q n) k) × (result < 4) }
{
    if q == 0 {
        return 0;
    }
    flags_at(img, q, EntryPlace::of(n).word + k)
}

// The pointer at word k.
pub fn entry_pointer(img: &[u16], q: usize, n: usize, k: usize) -> Pointer
    requires { (q < pages img.now) × (k < 31) }
    ensures flags { (result.flags ≡ flags (entry_in (vol img.now) q n) k) × (result.flags < 4) }
    ensures page { (result.page ≡ page (entry_in (vol img.now) q n) k) × (result.page < 1073741824) }
{
    Pointer {
        flags: entry_flags(img, q, n, k),
        page: entry_page(img, q, n, k),
    }
}

// The entry is used.
pub fn entry_used(img: &[u16], q: usize, n: usize) -> bool
    requires { q < pages img.now }
    ensures { Decides result (0 < used (entry_in (vol img.now) q n)) }
{
    32768 <= entry_word(img, q, n, 0)
}
