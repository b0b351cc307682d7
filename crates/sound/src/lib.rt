// The check: the ten rules judged in order, each where all lower ones hold; and the gate that every call but format goes through.
#![tactic(auto)]

pub mod early;
pub mod numbers;

ghost use Rattle.std.specs.Prelude.{◌≡◌, ◌≤◌, true};
ghost use Rattle.book.specs.Bits.{page_bits};
ghost use Rattle.book.specs.Words.{vol};
ghost use Rattle.book.specs.Decides.{Decides};
ghost use Rattle.book.specs.Image.{pages, Whole};
ghost use Rattle.book.specs.Gate.{Judged, Gated};
ghost use Rattle.bits.specs.Marks.{Unmarked};
ghost use Rattle.tree.specs.Ends.{Ends};
ghost use Rattle.sound.specs.Late.{Early, JudgedLate};

use book::{BrokenRule, Gate, Refusal, Verdict};
use early::early;

// Rules 8 to 10 of an image that keeps the first seven: the walk marks each held page and counts it. The object file ends at position `ends`.
fn judge_marked(img: &[u16], marks: &mut [u16], total: usize, ends: usize) -> Verdict
    requires { Whole img.now × (total ≡ pages img.now) × Early true (pages img.now) (vol img.now) × Ends img.now ends × Unmarked (pages img.now) marks.old }
    ensures { JudgedLate (pages img.now) (vol img.now) result }
{
    let Some(visited) = walk::volume::mark_all(img, marks, total, ends) else {
        return Err(BrokenRule { rule: 8 });
    };
    let b = page::read::page_at(img, 0, page::BITS) as usize;
    if !walk::same::same_bits(img, b, marks, total) {
        return Err(BrokenRule { rule: 9 });
    }
    if !shape::rule10::rule10(img, total, visited, ends) {
        return Err(BrokenRule { rule: 10 });
    }
    Ok(visited)
}

// The same with marks of its own, of a volume of one bit page and of any. Each is a call, so that the marks of both are never there together.
#[inline(never)]
fn judge_few(img: &[u16], total: usize, ends: usize) -> Verdict
    requires { Whole img.now × (total ≡ pages img.now) × Early true (pages img.now) (vol img.now) × Ends img.now ends × (total ≤ page_bits) }
    ensures { JudgedLate (pages img.now) (vol img.now) result }
{
    let mut marks = bits::marks::few_marks();
    judge_marked(img, &mut marks, total, ends)
}

#[inline(never)]
fn judge_most(img: &[u16], total: usize, ends: usize) -> Verdict
    requires { Whole img.now × (total ≡ pages img.now) × Early true (pages img.now) (vol img.now) × Ends img.now ends }
    ensures { JudgedLate (pages img.now) (vol img.now) result }
{
    let mut marks = bits::marks::most_marks();
    judge_marked(img, &mut marks, total, ends)
}

// The same; the marks are as many as the volume asks for.
fn judge_held(img: &[u16], total: usize, ends: usize) -> Verdict
    requires { Whole img.now × (total ≡ pages img.now) × Early true (pages img.now) (vol img.now) × Ends img.now ends }
    ensures { JudgedLate (pages img.now) (vol img.now) result }
{
    if total <= bits::PAGE_BITS {
        judge_few(img, total, ends)
    } else {
        judge_most(img, total, ends)
    }
}

// Judges an image of whole pages: sound with the pages visited, or the lowest broken rule.
pub fn judge(img: &[u16]) -> Verdict
    requires { Whole img.now }
    ensures { Judged true (pages img.now) (vol img.now) result }
{
    let ends = early(img, true)?;
    judge_held(img, img.len() / page::WORDS, ends)
}

// Whether an image is of whole pages, 8 to 140,733 of them.
pub fn whole(img: &[u16]) -> bool
    ensures { Decides result (Whole img.now) }
{
    let pages = img.len() / page::WORDS;
    img.len() % page::WORDS == 0 && 8 <= pages && pages <= page::MOST_PAGES
}

// Numbers 1 to 3, in order; `ok` tells whether the call's arguments are right.
pub fn gate(img: &[u16], ok: bool) -> Gate
    ensures { Gated img.now ok result }
{
    if !whole(img) {
        return Err(Refusal::Size);
    }
    if !ok {
        return Err(Refusal::Argument);
    }
    judge(img).map_err(|broken| Refusal::Unsound {
        broken: places::tell::tell(img, true, broken.rule),
    })
}
