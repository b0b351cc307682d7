// The pages of a tree: marking a pointer calls marking a block, which marks each of its pointers; the level falls, so the walk ends.
// Each is told how many positions there may be below it, so that it need not look at the pointers past them. A block whose pointers name
// pages, those of level 0, is marked by a loop of its own: a call for each page would make the check of large files three times as long.
// Each `as` is between a u32 and a usize: no `From` leads there, and a `try_from` would ask again what is proved.
ghost use Rattle.std.specs.Prelude.{◌≡◌, true, false, ℕ, ◌*◌, ◌^◌, ◌≤◌, ◌<◌, min, length};
ghost use Rattle.sums.specs.Sum.{sum};
ghost use Rattle.book.specs.Decides.{Decides};
ghost use Rattle.book.specs.Words.{vol};
ghost use Rattle.book.specs.Trees.{weigh, Below};
ghost use Rattle.book.specs.Image.{pages};
ghost use Rattle.tree.specs.Blocks.{pointer_in, share};
ghost use Rattle.walk.specs.Walked.{Walking, Walked};
ghost use Rattle.walk.specs.Short.{Short, Pointers, PointersBelow, Follows, Row};

use crate::run::{mark_page, mark_run};
use bits::marks::mark;
use page::WORDS;
use page::read::dword;

// Whether a page number may fill more than one word.
fn is_far(img: &[u16]) -> bool
    ensures { Decides result (65536 < pages img.now) }
{
    65536 < img.len() / WORDS
}

// What pointer i of a block names where that fills one word: the more significant word is zero then, and is not read.
fn near_page(block: &[u16], i: usize) -> usize
    requires { (length block.now ≡ 1024) × (i < 512) × (pointer_in block.now i < 65536) }
    ensures { result ≡ pointer_in block.now i }
{
    usize::from(block[2 * i + 1])
}

// What pointer i of a block names.
fn page_in(block: &[u16], i: usize) -> u32
    requires { (length block.now ≡ 1024) × (i < 512) }
    ensures { result ≡ pointer_in block.now i }
{
    dword(block, 2 * i)
}

// What pointer i of a block names where that is a page. The test of `far`, alike for all pointers of a block, is made once before the loop by the compiler.
fn page_of(block: &[u16], i: usize, far: bool) -> usize
    requires { (length block.now ≡ 1024) × (i < 512) × (far ≡ false → pointer_in block.now i < 65536) }
    ensures { result ≡ pointer_in block.now i }
{
    if far {
        page_in(block, i) as usize
    } else {
        near_page(block, i)
    }
}

// Whether n pointers of a block from the second one on name the pages from `start` on, one after the other. The loop is not left early: the compiler turns it into
// vector instructions.
fn follows(block: &[u16], n: usize, start: u32) -> bool
    requires { (length block.now ≡ 1024) × (n < 512) × (start < 2147483648) }
    ensures { result ≡ true → Follows block.now n start }
{
    let mut bad: u16 = 0;
    for i in 0..n {
        bad += u16::from(page_in(block, i + 1) != start + i as u32);
    }
    bad == 0
}

// Whether a block's first n pointers are a row: those from the second one on name pages one after the other, as those of a file do that grew while pages were free;
// its index block was taken after the first. The last pointer alone tells most that are none.
fn is_row(block: &[u16], n: usize) -> bool
    requires { (length block.now ≡ 1024) × (n ≤ 512) × (pointer_in block.now 1 < 2147483648) }
    ensures { result ≡ true → Row block.now n }
{
    if n < 33 {
        return false;
    }
    let start = page_in(block, 1);
    let last = page_in(block, n - 1);
    last as usize == start as usize + n - 2 && follows(block, n - 1, start)
}

// Marks the pages of such a row.
fn mark_row(img: &[u16], marks: &mut [u16], block: &[u16], n: usize, visited: u32) -> Option<u32>
    requires { Walking img.now marks.old visited × PointersBelow img.now block.now 0 × (n ≤ 512) × Row block.now n }
    ensures { Walked (pages img.now) marks.old visited (λ g. sum n (λ k. weigh (vol img.now) 0 (pointer_in block.now k) g)) marks.new result }
{
    let first = page_in(block, 0) as usize;
    let start = page_in(block, 1) as usize;
    let x = mark_page(img, marks, first, visited)?;
    mark_run(img, marks, start, n - 1, x)
}

// Marks the pages that a block's first n pointers name, one by one.
fn mark_slots(img: &[u16], marks: &mut [u16], block: &[u16], n: usize, visited: u32) -> Option<u32>
    requires { Walking img.now marks.old visited × PointersBelow img.now block.now 0 × (n ≤ 512) }
    ensures { Walked (pages img.now) marks.old visited (λ g. sum n (λ k. weigh (vol img.now) 0 (pointer_in block.now k) g)) marks.new result }
{
    let far = is_far(img);
    let mut v = visited;
    for i in 0..n {
        let p = page_of(block, i, far);
        v = mark_page(img, marks, p, v)?;
    }
    Some(v)
}

// Marks the pages that a block's first n pointers name.
fn mark_pages(img: &[u16], marks: &mut [u16], block: &[u16], n: usize, visited: u32) -> Option<u32>
    requires { Walking img.now marks.old visited × PointersBelow img.now block.now 0 × (n ≤ 512) }
    ensures { Walked (pages img.now) marks.old visited (λ g. sum n (λ k. weigh (vol img.now) 0 (pointer_in block.now k) g)) marks.new result }
{
    if is_row(block, n) {
        mark_row(img, marks, block, n, visited)
    } else {
        mark_slots(img, marks, block, n, visited)
    }
}

// How many positions there can be under a pointer of this level.
fn positions(level: usize) -> usize
    requires { level < 2 }
    ensures { (result ≡ 512 ^ level) × (result ≤ 512) }
{
    if level == 0 { 1 } else { 512 }
}

// How many of a block's 512 pointers so many positions need.
fn pointers(count: usize, level: usize) -> usize
    requires { level < 2 }
    ensures { (result ≤ 512) × ((k : ℕ) → result ≤ k → k < 512 → count ≤ k * 512 ^ level) }
{
    if level == 0 {
        count.min(512)
    } else {
        count.min(262144).div_ceil(512)
    }
}

// How many of the positions are under pointer i.
fn under(count: usize, level: usize, i: usize) -> usize
    requires { (level < 2) × (i < 512) }
    ensures { result ≡ share level count i }
{
    let each = positions(level);
    count.saturating_sub(i * each).min(each)
}

// Marks the block that a pointer of this level names, and all below it. Pointer 0 names none.
#[cycle(mark_block_mark_pointer)]
#[tactic(auto, using(crate::proofs::Pointers::below_top))]
pub fn mark_pointer(
    img: &[u16],
    marks: &mut [u16],
    page: usize,
    level: usize,
    count: usize,
    visited: u32,
) -> Option<u32>
    requires { Walking img.now marks.old visited × Below (vol img.now) (pages img.now) level page × Short (vol img.now) level page count × (0 < level) × (level < 3) }
    ensures { Walked (pages img.now) marks.old visited (weigh (vol img.now) level page) marks.new result }
{
    if page == 0 {
        Some(visited)
    } else if mark(marks, page) {
        let a = WORDS * page;
        let z = a + WORDS;
        mark_block(img, marks, &img[a..z], level - 1, count, visited + 1)
    } else {
        None
    }
}

// Marks what a block's pointers name. The level is that of the pointers in the block.
#[cycle(mark_block_mark_pointer)]
pub fn mark_block(
    img: &[u16],
    marks: &mut [u16],
    block: &[u16],
    level: usize,
    count: usize,
    visited: u32,
) -> Option<u32>
    requires { Walking img.now marks.old visited × PointersBelow img.now block.now level × Pointers img.now block.now level count × (level < 2) }
    ensures { Walked (pages img.now) marks.old visited (λ g. sum 512 (λ k. weigh (vol img.now) level (pointer_in block.now k) g)) marks.new result }
{
    let n = pointers(count, level);
    if level == 0 {
        return mark_pages(img, marks, block, n, visited);
    }
    let mut v = visited;
    for i in 0..n {
        let p = dword(block, 2 * i) as usize;
        v = mark_pointer(img, marks, p, level, under(count, level, i), v)?;
    }
    Some(v)
}
