// Rules 1 to 3: the master page's directory entry, and the user index.
ghost use Rattle.std.specs.Prelude.{◌≡◌, ◌<◌};
ghost use Rattle.book.specs.Words.{vol};
ghost use Rattle.book.specs.Pointers.{Zero, Inside};
ghost use Rattle.book.specs.Image.{pages, Whole};
ghost use Rattle.book.specs.Rules.{Rule1, Rule2, Rule3};
ghost use Rattle.book.specs.Decides.{Decides};

use crate::block::block_ok;
use bits::bit_pages;
use page::names::legal_at;
use page::read::{flags_at, page_at, two_at};
use page::{BITS, OBJECTS, USERS, VOLUME};

// Rule 1: legal volume name; bit pointer without flags, its pages in 1..P-1.
pub fn rule1(img: &[u16], total: usize) -> bool
    requires { Whole img.now × (total ≡ pages img.now) }
    ensures { Decides result (Rule1 (pages img.now) (vol img.now)) }
{
    let b = page_at(img, 0, BITS) as usize;
    legal_at(img, 0, VOLUME, 1, 16)
        && flags_at(img, 0, BITS) == 0
        && b != 0
        && b + bit_pages(total) <= total
}

// Whether the pointer at word k of the master page is all zero.
pub fn zero_at(img: &[u16], k: usize) -> bool
    requires { Whole img.now × (k < 1023) }
    ensures { Decides result (Zero (vol img.now 0) k) }
{
    two_at(img, 0, k) == 0
}

// Whether the pointer at word k of the master page has these flags, and a page in 1..P-1.
pub fn inside_at(img: &[u16], total: usize, k: usize, flags: u16) -> bool
    requires { Whole img.now × (total ≡ pages img.now) × (k < 1023) }
    ensures { Decides result (Inside (pages img.now) (vol img.now 0) k flags) }
{
    let t = page_at(img, 0, k) as usize;
    flags_at(img, 0, k) == flags && t != 0 && t < total
}

// Rule 2: user pointer zero, or indexed to 1..P-1; object pointer zero exactly when the user pointer is, else indexed or subindexed.
pub fn rule2(img: &[u16], total: usize) -> bool
    requires { Whole img.now × (total ≡ pages img.now) }
    ensures { Decides result (Rule2 (pages img.now) (vol img.now)) }
{
    if zero_at(img, USERS) {
        return zero_at(img, OBJECTS);
    }
    inside_at(img, total, USERS, 1)
        && (inside_at(img, total, OBJECTS, 1) || inside_at(img, total, OBJECTS, 2))
}

// Rule 3: user index: each of slots 0..7 zero or in 1..P-1, others zero.
pub fn rule3(img: &[u16], total: usize) -> bool
    requires { Whole img.now × (total ≡ pages img.now) × Rule2 (pages img.now) (vol img.now) }
    ensures { Decides result (Rule3 (pages img.now) (vol img.now)) }
{
    let top = page_at(img, 0, USERS) as usize;
    block_ok(img, total, top, 8)
}
