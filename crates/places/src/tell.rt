// What refusal 3 tells: where the lowest broken rule is broken first, and with rule 8 who are the first two to hold the page.
ghost use Rattle.std.specs.Prelude.{◌≡◌, ◌<◌};
ghost use Rattle.book.specs.Words.{vol};
ghost use Rattle.book.specs.Image.{pages};
ghost use Rattle.book.specs.Broken.{BrokenBy};
ghost use Rattle.tree.specs.Ends.{Ends};
ghost use Rattle.places.specs.Tell.{Breaks, place_of, plainly};

use crate::counts::first10;
use crate::files::first7;
use crate::held::first8;
use crate::index::first5;
use crate::master::{first1, first2, first3};
use crate::objects::first6;
use crate::reserved::first9;
use crate::users::first4;
use bits::marks::most_marks;
use book::{Break, Holder, Place};
use page::read::page_at;
use page::{BITS, WORDS};
use tree::root::object_ends;
use walk::volume::mark_all;
use who::tell::first_two;

// The place that was found. A rule that is broken has one.
fn place_of(fault: Option<Place>) -> Place
    ensures { result ≡ place_of fault }
{
    fault.unwrap_or(Place { page: 0, word: 0 })
}

// A rule other than 8, broken there.
fn plain(rule: u32, fault: Option<Place>) -> Break
    ensures { result ≡ plainly rule fault }
{
    Break {
        rule,
        place: place_of(fault),
        first: Holder::Free,
        second: Holder::Free,
    }
}

// Rule 8: word 0 of the lowest page that two hold, with the first two.
fn tell_held(img: &[u16], ten: bool, total: usize, ends: usize) -> Break
    requires { Breaks img.now ten 8 × (total ≡ pages img.now) × Ends img.now ends }
    ensures { BrokenBy ten (pages img.now) (vol img.now) result }
{
    let place = place_of(first8(img, total, ends));
    let p = place.page;
    let (first, second) = first_two(img, ends, p as usize);
    Break {
        rule: 8,
        place: Place { page: p, word: 0 },
        first,
        second,
    }
}

// Rules 9 and 10, after a walk over the pages held. A page that it met twice would break rule 8; that this is told by a call keeps the room of its search out of the gate.
fn tell_counts(img: &[u16], ten: bool, total: usize, ends: usize, rule: u32) -> Break
    requires { Breaks img.now ten rule × (8 < rule) × (total ≡ pages img.now) × Ends img.now ends }
    ensures { BrokenBy ten (pages img.now) (vol img.now) result }
{
    let mut marks = most_marks();
    let Some(visited) = mark_all(img, &mut marks, total, ends) else {
        return tell_held(img, ten, total, ends);
    };
    if rule == 9 {
        let b = page_at(img, 0, BITS) as usize;
        return plain(9, first9(img, b, &marks, total));
    }
    plain(10, first10(img, total, visited, ends))
}

// Rules 6 and up: those of the objects, and of what they hold.
fn tell_objects(img: &[u16], ten: bool, total: usize, rule: u32) -> Break
    requires { Breaks img.now ten rule × (5 < rule) × (total ≡ pages img.now) }
    ensures { BrokenBy ten (pages img.now) (vol img.now) result }
{
    let ends = object_ends(img);
    match rule {
        6 => plain(6, first6(img)),
        7 => plain(7, first7(img, total, ends)),
        8 => tell_held(img, ten, total, ends),
        _ => tell_counts(img, ten, total, ends, rule),
    }
}

// What refusal 3 tells of an image whose lowest broken rule, of all ten or of those of the pointers alone, is this one.
pub fn tell(img: &[u16], ten: bool, rule: u32) -> Break
    requires { Breaks img.now ten rule }
    ensures { BrokenBy ten (pages img.now) (vol img.now) result }
{
    let total = img.len() / WORDS;
    match rule {
        1 => plain(1, first1(img, total)),
        2 => plain(2, first2(img, total)),
        3 => plain(3, first3(img, total)),
        4 => plain(4, first4(img, ten)),
        5 => plain(5, first5(img, total)),
        _ => tell_objects(img, ten, total, rule),
    }
}
