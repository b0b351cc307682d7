// The two conversions (T-04): what stands behind short names, from zeros alone to an apostrophe and then zeros, and back. All names and types
// are looked at before the first word is written.
#![tactic(auto, using(nord::proofs::Outcomes::outcomes), unfolding(book::specs::Calls::convert_call, book::specs::Outcome::call, book::specs::Rows::Clear, book::specs::Rows::Lowest))]

pub mod all;
pub mod entry;
pub mod field;
pub mod volume;

ghost use Rattle.std.specs.Prelude.{◌<◌};
ghost use Rattle.book.specs.Names.{ends};
ghost use Rattle.book.specs.Answers.{numbers};
ghost use Rattle.book.specs.Outcome.{Outcome};
ghost use Rattle.book.specs.Calls.{convert_call, to_apostrophe_call, to_zeros_call};
ghost use Rattle.book.specs.Enter.{Known, Fit};

use book::{Answer, Refusal};
use nord::enter::enter;

// The bytes that end a short name: the fill is one of them, and then zeros.
const ZERO: u8 = 0;

const APOSTROPHE: u8 = b'\'';

// A conversion on a ready image: number 12, then the step.
fn convert_open(img: &mut [u16], from: u8, to: u8) -> Answer
    requires { Fit img.old (Unit {0}) × (0 < ends to) }
    ensures { Outcome (convert_call from to img.old) img.old (numbers result) img.new }
{
    if !volume::filled(img, from) {
        return Err(Refusal::Fill);
    }
    volume::convert_step(img, to);
    Ok(0)
}

// From one fill to the other: the gate, then the open half.
fn between(img: &mut [u16], known: bool, from: u8, to: u8) -> Answer
    requires { Known known img.old × (0 < ends to) }
    ensures { Outcome (convert_call from to img.old) img.old (numbers result) img.new }
{
    enter(img, known)?;
    convert_open(img, from, to)
}

// From zeros to an apostrophe and then zeros.
pub fn to_apostrophe(img: &mut [u16], known: bool) -> Answer
    requires { Known known img.old }
    ensures { Outcome (to_apostrophe_call img.old) img.old (numbers result) img.new }
{
    between(img, known, ZERO, APOSTROPHE)
}

// And back.
pub fn to_zeros(img: &mut [u16], known: bool) -> Answer
    requires { Known known img.old }
    ensures { Outcome (to_zeros_call img.old) img.old (numbers result) img.new }
{
    between(img, known, APOSTROPHE, ZERO)
}
