// A block of pointers as a part of 1,024 words: which of its slots are filled, and with what. No loop over words is left early:
// a compiler turns such a loop into vector instructions.
ghost use Rattle.std.specs.Prelude.{◌≡◌, ◌+◌, ◌*◌, ◌/◌, ◌%◌, ◌≤◌, length};
ghost use Rattle.book.specs.Decides.{Decides};
ghost use Rattle.book.specs.Image.{most_pages};
ghost use Rattle.book.specs.Words.{zeros};
ghost use Rattle.page.specs.Parts.{Begins};
ghost use Rattle.tree.specs.Blocks.{Linked, Unlinked, Either, Wrong, End};

use page::read::dword;

// A word that is zero exactly where both words are.
fn either(a: u16, b: u16) -> u16
    ensures { Either a b result }
{
    a | b
}

// Whether all words of a part are zero.
fn blank(part: &[u16]) -> bool
    ensures { Decides result (Begins (length part.now) part.now zeros) }
{
    let mut any = 0;
    for &w in part {
        any = either(any, w);
    }
    any == 0
}

// Whether pointers n to z - 1 of a block are zero.
pub fn unlinked(block: &[u16], n: usize, z: usize) -> bool
    requires { (length block.now ≡ 1024) × (n ≤ z) × (z ≤ 512) }
    ensures { Decides result (Unlinked block.now n z) }
{
    let a = 2 * n;
    let e = 2 * z;
    blank(&block[a..e])
}

// 1 where the pointer of two words is not in least..total-1, and 0 where it is: of a volume below 65,536 pages.
// A number and no bool: the loop over a block adds them up, so that it needs no way out.
fn wrong_near(high: u16, low: u16, least: u16, total: u16) -> u16
    ensures { Wrong (high * 65536 + low) least total result }
{
    if high != 0 {
        return 1;
    }
    if low < least {
        return 1;
    }
    if total <= low {
        return 1;
    }
    0
}

// 1 where the pointer of two words is below `least`, and 0 where it is not.
fn too_low(high: u16, low: u16, least: u16) -> u16
    ensures { (result ≤ 1) × (least ≤ high * 65536 + low → result ≡ 0) × (result ≡ 0 → least ≤ high * 65536 + low) }
{
    if high != 0 {
        return 0;
    }
    if low < least {
        return 1;
    }
    0
}

// The same of any volume, whose page total has the words `top` and `rest`.
fn wrong_far(high: u16, low: u16, least: u16, top: u16, rest: u16) -> u16
    ensures { Wrong (high * 65536 + low) least (top * 65536 + rest) result }
{
    if top < high {
        return 1;
    }
    if high < top {
        return too_low(high, low, least);
    }
    if rest <= low {
        return 1;
    }
    too_low(high, low, least)
}

// The same: the test of `top`, alike for all pointers of a block, is made once before the loop by the compiler, and a small volume's loop is the shorter.
fn wrong(high: u16, low: u16, least: u16, top: u16, rest: u16) -> u16
    ensures { Wrong (high * 65536 + low) least (top * 65536 + rest) result }
{
    if top == 0 {
        return wrong_near(high, low, least, rest);
    }
    wrong_far(high, low, least, top, rest)
}

// Whether pointers 0 to n - 1 of a block are in least..total-1, where `top` and `rest` are the words of the page total.
fn linked(block: &[u16], n: usize, least: u16, top: u16, rest: u16) -> bool
    requires { (length block.now ≡ 1024) × (n ≤ 512) }
    ensures { Decides result (Linked least (top * 65536 + rest) block.now n) }
{
    let mut bad = 0;
    for i in 0..n {
        bad += wrong(block[2 * i], block[2 * i + 1], least, top, rest);
    }
    bad == 0
}

// Whether pointers 0 to n - 1 of a block are in least..total-1 and the others zero.
pub fn filled(block: &[u16], n: usize, least: u16, total: usize) -> bool
    requires { (length block.now ≡ 1024) × (n ≤ 512) × (total ≤ most_pages) }
    ensures { Decides result (Linked least total block.now n × Unlinked block.now n 512) }
{
    let top = (total / 65536) as u16;
    let rest = (total % 65536) as u16;
    linked(block, n, least, top, rest) && unlinked(block, n, 512)
}

// A multiple of 16 from which on a block has no pointers.
fn row_end(block: &[u16]) -> usize
    requires { length block.now ≡ 1024 }
    ensures { End block.now result }
{
    for row in (0..32).rev() {
        if !unlinked(block, 16 * row, 16 * row + 16) {
            return 16 * row + 16;
        }
    }
    0
}

// One more than the highest slot of a block that is filled, 0 where none is.
pub(crate) fn block_end(block: &[u16]) -> usize
    requires { length block.now ≡ 1024 }
    ensures { End block.now result }
{
    for i in (0..row_end(block)).rev() {
        if dword(block, 2 * i) != 0 {
            return i + 1;
        }
    }
    0
}
