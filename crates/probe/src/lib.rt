// The searches of the bit file by themselves, for the benchmarks. They are no calls of the library: host/probe/probe.h declares them, and nord.h does not.
#![tactic(auto)]

ghost use Rattle.std.specs.Prelude.{◌≡◌, ◌<◌};
ghost use Rattle.book.specs.Words.{vol};
ghost use Rattle.book.specs.Bits.{highest_run};
ghost use Rattle.book.specs.Image.{pages};
ghost use Rattle.bits.specs.Search.{free_from};
ghost use Rattle.probe.specs.Searched.{Searched, Searching};

use bits::bit_pages;
use bits::search::{free_from, highest_run};
use page::read::page_at;
use page::{BITS, MOST_PAGES, WORDS};

// The page at which the bit file begins. An image has none if its pages are too many, or from the page on that its bit pointer names there is not room for all bit pages.
fn searched(img: &[u16]) -> Option<usize>
    ensures { Searched (pages img.now) (vol img.now) result }
{
    let count = img.len() / WORDS;
    if count == 0 || MOST_PAGES < count {
        return None;
    }
    let b = page_at(img, 0, BITS) as usize;
    if b == 0 || count < b + bit_pages(count) {
        return None;
    }
    Some(b)
}

// The lowest free page from `from` on, and the number of pages if there is none; 0 without a bit file.
#[unsafe(no_mangle)]
pub extern "C" fn nord_probe_free(img: &[u16], from: usize) -> usize
    ensures { Searching (pages img.now) (vol img.now) (free_from (pages img.now) (vol img.now) from) result }
{
    let Some(b) = searched(img) else {
        return 0;
    };
    free_from(img, b, img.len() / WORDS, from)
}

// The highest start of n free pages in a row, and 0 if there is none, or no bit file, or n is 0.
#[unsafe(no_mangle)]
pub extern "C" fn nord_probe_run(img: &[u16], n: usize) -> usize
    ensures { (0 < n → Searching (pages img.now) (vol img.now) (highest_run (pages img.now) (vol img.now) n) result) × (n ≡ 0 → result ≡ 0) }
{
    if n == 0 {
        return 0;
    }
    let Some(b) = searched(img) else {
        return 0;
    };
    highest_run(img, b, img.len() / WORDS, n)
}
