// Salvage (T-05): where the pointers are good, bits, used counts and unreserved are made anew from them. A first pass judges, counts and tells of
// each word that changes as a plain number; only then a second pass writes.
#![tactic(auto)]

pub mod apply;
pub mod collect;
pub mod counts;
pub mod list;
pub mod row;

ghost use Rattle.std.specs.Prelude.{◌≡◌, false, ◌+◌, ◌-◌, length};
ghost use Rattle.book.specs.Holders.{all, some};
ghost use Rattle.book.specs.Image.{pages, Whole};
ghost use Rattle.book.specs.Salvage.{spent};
ghost use Rattle.book.specs.Words.{vol};
ghost use Rattle.sound.specs.Late.{Early};
ghost use Rattle.bits.specs.Marks.{Unmarked};
ghost use Rattle.tree.specs.Ends.{Ends};
ghost use Rattle.salvage.specs.Row.{row_size};
ghost use Rattle.salvage.specs.Facts.{PastThree, Sure, MarksHeld, Counts};
ghost use Rattle.salvage.specs.Mending.{Mends};

use bits::PAGE_BITS;
use bits::marks::{few_marks, most_marks};
use book::{Answer, Refusal};
use page::WORDS;
use places::tell::tell;
use sound::early::early;
use walk::volume::mark_all;

// The words that change are collected, and 14 is asked before the first is written.
fn mend_sure(
    img: &mut [u16],
    marks: &[u16],
    counts: &[u32; 256],
    left: u32,
    room: usize,
    row: &mut [u64; 9311],
) -> Answer
    requires { Sure img.old × MarksHeld img.old marks.now × Counts (vol img.old) counts.now × (left ≡ pages img.old - spent (pages img.old) (vol img.old)) × (length row.old ≡ row_size) }
    ensures { Mends img.old room result img.new row.new }
{
    let n = collect::collect(img, marks, counts, left, row);
    if room < n {
        return Err(Refusal::ShortList);
    }
    let value = n as u32;
    apply::apply(img, row, n);
    Ok(value)
}

// Number 13, then the words. A walk has marked the held pages and visited so many.
fn mend_good(
    img: &mut [u16],
    marks: &[u16],
    visits: u32,
    ends: usize,
    room: usize,
    row: &mut [u64; 9311],
) -> Answer
    requires { PastThree img.old × MarksHeld img.old marks.now × (visits ≡ 1 + all (pages img.old) (vol img.old) some) × Ends img.old ends × (length row.old ≡ row_size) }
    ensures { Mends img.old room result img.new row.new }
{
    let mut counts = counts::no_counts();
    let left = counts::balance(img, img.len() / WORDS, visits, ends, &mut counts)?;
    mend_sure(img, marks, &counts, left, room, row)
}

// Rule 8 of an image that keeps the first seven, without rule 4's comparison; then the rest.
fn mend_marked(
    img: &mut [u16],
    marks: &mut [u16],
    ends: usize,
    room: usize,
    row: &mut [u64; 9311],
) -> Answer
    requires { Whole img.old × Early false (pages img.old) (vol img.old) × Ends img.old ends × (length row.old ≡ row_size) × Unmarked (pages img.old) marks.old }
    ensures { Mends img.old room result img.new row.new }
{
    let Some(visits) = mark_all(img, marks, img.len() / WORDS, ends) else {
        return Err(Refusal::Unsound {
            broken: tell(img, false, 8),
        });
    };
    mend_good(img, marks, visits, ends, room, row)
}

// The same; here the marks are made, as many as the volume asks for.
fn mend_kept(img: &mut [u16], ends: usize, room: usize, row: &mut [u64; 9311]) -> Answer
    requires { Whole img.old × Early false (pages img.old) (vol img.old) × Ends img.old ends × (length row.old ≡ row_size) }
    ensures { Mends img.old room result img.new row.new }
{
    if img.len() / WORDS <= PAGE_BITS {
        let mut marks = few_marks();
        return mend_marked(img, &mut marks, ends, room, row);
    }
    let mut marks = most_marks();
    mend_marked(img, &mut marks, ends, room, row)
}

// Salvages the volume; with done the row begins with the changes, as many as the answer's value says.
pub fn mend(img: &mut [u16], room: usize, row: &mut [u64; 9311]) -> Answer
    requires { length row.old ≡ row_size }
    ensures { Mends img.old room result img.new row.new }
{
    if !sound::whole(img) {
        return Err(Refusal::Size);
    }
    match early(img, false) {
        Err(b) => Err(Refusal::Unsound {
            broken: tell(img, false, b.rule),
        }),
        Ok(ends) => mend_kept(img, ends, room, row),
    }
}
