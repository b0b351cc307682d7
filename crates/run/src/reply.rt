// Replies: thirteen numbers each, the number of a refusal or 0, the broken rule, the value, the place, the two holders.
ghost use Rattle.std.specs.Prelude.{◌≡◌, ◌+◌, ◌*◌, ◌≤◌, length};
ghost use Rattle.book.specs.Decides.{Decides};
ghost use Rattle.book.specs.Answers.{unbroken, done_with, refused_with, numbers, holding, holder_numbers};
ghost use Rattle.book.specs.Run.{held_by, held_reply, put_three, put_four, put_place, put_holder, put_break, put_reply};

use book::{Answer, Break, Holder, Holding, Place, Refusal};
use sound::numbers::{broken_of, holder_of, number_of};

pub(crate) const LENGTH: usize = 13;

// Writes three numbers from `at` on.
fn three(out: &mut [u32], at: usize, a: u32, b: u32, c: u32)
    requires { at + 3 ≤ length out.old }
    ensures { out.new ≡ put_three out.old at a b c }
{
    out[at] = a;
    out[at + 1] = b;
    out[at + 2] = c;
}

// Writes a place.
fn place(out: &mut [u32], at: usize, page: u32, word: u32)
    requires { at + 2 ≤ length out.old }
    ensures { out.new ≡ put_place out.old at (record { page = page; word = word }) }
{
    out[at] = page;
    out[at + 1] = word;
}

// Writes four numbers.
pub(crate) fn four(out: &mut [u32], at: usize, a: u32, b: u32, c: u32, d: u32)
    requires { at + 4 ≤ length out.old }
    ensures { out.new ≡ put_four out.old at a b c d }
{
    out[at] = a;
    out[at + 1] = b;
    out[at + 2] = c;
    out[at + 3] = d;
}

// Writes a holder.
fn holder(out: &mut [u32], at: usize, h: Holder)
    requires { at + 4 ≤ length out.old }
    ensures { out.new ≡ put_holder out.old at (holder_numbers h) }
{
    let t = holder_of(h);
    four(out, at, t.kind, t.user, t.file, t.position);
}

// Writes what is broken, but its rule.
fn broken(out: &mut [u32], at: usize, b: Break)
    requires { at + 10 ≤ length out.old }
    ensures { out.new ≡ put_break out.old at b }
{
    let first = b.first;
    let second = b.second;
    place(out, at, b.place.page, b.place.word);
    holder(out, at + 2, first);
    holder(out, at + 6, second);
}

// Writes that nothing is broken: zeros.
fn nothing(out: &mut [u32], at: usize)
    requires { at + 10 ≤ length out.old }
    ensures { out.new ≡ put_break out.old at unbroken }
{
    place(out, at, 0, 0);
    four(out, at + 2, 0, 0, 0, 0);
    four(out, at + 6, 0, 0, 0, 0);
}

// Writes the reply of step i, which was done.
fn put_done(out: &mut [u32], i: usize, value: u32)
    requires { i * 13 + 13 ≤ length out.old }
    ensures { out.new ≡ put_reply out.old i (done_with value) }
{
    let at = i * LENGTH;
    three(out, at, 0, 0, value);
    nothing(out, at + 3);
}

// Writes the reply of step i, which was refused.
fn put_refused(out: &mut [u32], i: usize, why: Refusal)
    requires { i * 13 + 13 ≤ length out.old }
    ensures { out.new ≡ put_reply out.old i (refused_with 0 why) }
{
    let at = i * LENGTH;
    let b = broken_of(why);
    three(out, at, number_of(why), b.rule, 0);
    broken(out, at + 3, b);
}

// Writes the reply of step i; whether it was done.
pub(crate) fn put(out: &mut [u32], i: usize, a: Answer) -> bool
    requires { i * 13 + 13 ≤ length out.old }
    ensures { (out.new ≡ put_reply out.old i (numbers a)) × Decides result ((numbers a).number ≡ 0) }
{
    match a {
        Ok(value) => {
            put_done(out, i, value);
            true
        }
        Err(why) => {
            put_refused(out, i, why);
            false
        }
    }
}

// What the reply of who holds has beside its number: nothing is broken, and the first holder is the page's.
fn held_by(h: Holder) -> Break
    ensures { result ≡ held_by h }
{
    Break {
        rule: 0,
        place: Place { page: 0, word: 0 },
        first: h,
        second: Holder::Free,
    }
}

// Writes the reply of step i, which was told who holds a page.
fn put_holder(out: &mut [u32], i: usize, h: Holder)
    requires { i * 13 + 13 ≤ length out.old }
    ensures { out.new ≡ put_reply out.old i (held_reply (done_with h)) }
{
    let at = i * LENGTH;
    let b = held_by(h);
    three(out, at, 0, 0, 0);
    broken(out, at + 3, b);
}

// Writes the reply of step i, which asked who holds a page; whether it was done.
pub(crate) fn put_held(out: &mut [u32], i: usize, a: Holding) -> bool
    requires { i * 13 + 13 ≤ length out.old }
    ensures { (out.new ≡ put_reply out.old i (held_reply (holding a))) × Decides result ((holding a).number ≡ 0) }
{
    match a {
        Ok(holder) => {
            put_holder(out, i, holder);
            true
        }
        Err(why) => {
            put_refused(out, i, why);
            false
        }
    }
}
