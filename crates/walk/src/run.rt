// Single pages, and runs of them. Where a run fills whole words of marks, sixteen pages are marked at once: one by one, each mark would wait until the one before it,
// in the same word, is stored.
ghost use Rattle.std.specs.Prelude.{◌+◌, ◌-◌, ◌*◌, ◌≤◌, ◌<◌, length};
ghost use Rattle.sums.specs.Sum.{sum};
ghost use Rattle.book.specs.Words.{vol};
ghost use Rattle.book.specs.Trees.{weigh, Below};
ghost use Rattle.book.specs.Image.{pages};
ghost use Rattle.walk.specs.Walked.{Walking, Walked, Filling};

use bits::marks::mark;

// Marks one page; page 0 is none. That the master page is marked spares each other page a test for 0.
pub fn mark_page(img: &[u16], marks: &mut [u16], page: usize, visited: u32) -> Option<u32>
    requires { Walking img.now marks.old visited × Below (vol img.now) (pages img.now) 0 page }
    ensures { Walked (pages img.now) marks.old visited (weigh (vol img.now) 0 page) marks.new result }
{
    if mark(marks, page) {
        Some(visited + 1)
    } else if page == 0 {
        Some(visited)
    } else {
        None
    }
}

// Marks the pages of a run, one by one.
pub fn mark_each(
    img: &[u16],
    marks: &mut [u16],
    start: usize,
    count: usize,
    visited: u32,
) -> Option<u32>
    requires { Walking img.now marks.old visited × (start + count ≤ pages img.now) }
    ensures { Walked (pages img.now) marks.old visited (λ g. sum count (λ i. g (start + i))) marks.new result }
{
    let mut v = visited;
    for i in 0..count {
        v = mark_page(img, marks, start + i, v)?;
    }
    Some(v)
}

// Marks the sixteen pages of word w, if none of them is marked; else it leaves them, and answers false.
fn fill(marks: &mut [u16], w: usize) -> bool
    requires { w < length marks.old }
    ensures { Filling marks.old w marks.new result }
{
    if marks[w] != 0 {
        return false;
    }
    marks[w] = 65535;
    true
}

// Marks the sixteen pages of word w.
fn mark_word(img: &[u16], marks: &mut [u16], w: usize, visited: u32) -> Option<u32>
    requires { Walking img.now marks.old visited × (16 * w + 16 ≤ pages img.now) }
    ensures { Walked (pages img.now) marks.old visited (λ g. sum 16 (λ i. g (16 * w + i))) marks.new result }
{
    if fill(marks, w) {
        Some(visited + 16)
    } else {
        mark_each(img, marks, 16 * w, 16, visited)
    }
}

// Marks the pages of n words from word w on.
fn mark_words(img: &[u16], marks: &mut [u16], w: usize, n: usize, visited: u32) -> Option<u32>
    requires { Walking img.now marks.old visited × (16 * w + 16 * n ≤ pages img.now) }
    ensures { Walked (pages img.now) marks.old visited (λ g. sum (16 * n) (λ i. g (16 * w + i))) marks.new result }
{
    let mut v = visited;
    for i in 0..n {
        v = mark_word(img, marks, w + i, v)?;
    }
    Some(v)
}

// Marks the pages from word w on and before page `until`.
fn mark_from(img: &[u16], marks: &mut [u16], w: usize, until: usize, visited: u32) -> Option<u32>
    requires { Walking img.now marks.old visited × (16 * w ≤ until) × (until ≤ pages img.now) }
    ensures { Walked (pages img.now) marks.old visited (λ g. sum (until - 16 * w) (λ i. g (16 * w + i))) marks.new result }
{
    let z = until / 16;
    let n = mark_words(img, marks, w, z - w, visited)?;
    mark_each(img, marks, 16 * z, until - 16 * z, n)
}

// Marks the pages of a long run: up to the first whole word, and from there on.
pub fn mark_run(
    img: &[u16],
    marks: &mut [u16],
    start: usize,
    count: usize,
    visited: u32,
) -> Option<u32>
    requires { Walking img.now marks.old visited × (start + count ≤ pages img.now) × (32 ≤ count) }
    ensures { Walked (pages img.now) marks.old visited (λ g. sum count (λ i. g (start + i))) marks.new result }
{
    let w = start.div_ceil(16);
    let n = mark_each(img, marks, start, 16 * w - start, visited)?;
    mark_from(img, marks, w, start + count, n)
}
