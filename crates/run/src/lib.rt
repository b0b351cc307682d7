// A list of calls by one run: one check, then each call on the image that the one before left.
#![tactic(auto)]

mod ask;
mod call;
mod make;
mod mend;
mod reply;
mod step;

ghost use Rattle.std.specs.Prelude.{◌≡◌, ◌+◌, ◌*◌, ◌/◌, ◌≤◌, ◌<◌, length};
ghost use Rattle.book.specs.Enter.{Known};
ghost use Rattle.book.specs.Run.{step_of, limit, Ran};
ghost use Rattle.run.specs.StepMade.{StepMade};

use crate::ask::make_who;
use crate::call::{Call, call_of};
use crate::make::make;
use crate::mend::make_salvage;
use crate::reply::{put, put_held};
use crate::step::{CALL, COUNT, LENGTH, number};
use nord::enter::wrong;

// As many steps as there are, and as have room for a reply.
fn most(steps: &[u32], out: &[u32]) -> usize
    ensures { result ≡ limit steps.now out.now }
{
    (steps.len() / LENGTH).min(out.len() / reply::LENGTH)
}

// The ten numbers of step i.
fn step_part(steps: &[u32], i: usize) -> &[u32]
    requires { i < length steps.now / 10 }
    ensures { result.now ≡ step_of steps.now i }
{
    let a = i * LENGTH;
    let e = a + LENGTH;
    &steps[a..e]
}

// Makes step i, which is s, and writes its reply; whether it was done.
fn make_step(
    img: &mut [u16],
    known: bool,
    s: &[u32],
    text: &[u8],
    words: &[u16],
    list: &mut [u32],
    out: &mut [u32],
    i: usize,
) -> bool
    requires { Known known img.old × (length s.now ≡ 10) × (i * 13 + 13 ≤ length out.old) }
    ensures { StepMade img.old list.old s.now text.now words.now out.old i img.new list.new out.new result }
{
    match call_of(number(s, CALL)) {
        Some(Call::WhoHolds) => {
            let h = make_who(img, known, number(s, COUNT));
            put_held(out, i, h)
        }
        Some(Call::Salvage) => {
            let a = make_salvage(img, list);
            put(out, i, a)
        }
        Some(Call::Valued(call)) => {
            let a = make(img, known, call, s, text, words);
            put(out, i, a)
        }
        None => {
            let a = wrong(img, known);
            put(out, i, a)
        }
    }
}

// Makes the steps in order, up to the first that is refused: one reply for each, and how many. The first call judges the image; a call
// that is done leaves a sound one, so the calls after it need no check.
pub fn run(
    img: &mut [u16],
    steps: &[u32],
    text: &[u8],
    words: &[u16],
    list: &mut [u32],
    out: &mut [u32],
) -> usize
    ensures { Ran steps.now text.now words.now img.old list.old out.old result img.new list.new out.new }
{
    let n = most(steps, out);
    let mut known = false;
    for i in 0..n {
        let s = step_part(steps, i);
        if !make_step(img, known, s, text, words, list, out, i) {
            return i + 1;
        }
        known = true;
    }
    n
}
