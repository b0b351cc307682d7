// What the calls give back, and how each answer is spelled out in numbers.
ghost use Rattle.book.specs.Answers.{numbers, done_with, refused_with, holding};
ghost use Rattle.book.specs.declared.Holder.TheVariants.{Free};
ghost use Rattle.edge.specs.Replied.{SamePlace, Spelled, HeldAs, Placed};

use book::{Answer, Holder, Holding, Refusal};
use sound::numbers::{HolderNumbers, broken_of, holder_of, number_of};

// A page, and a word of it.
#[repr(C)]
#[derive(Clone, Copy, Debug, PartialEq, Eq)]
pub struct Place {
    pub page: u32,
    pub word: u32,
}

// The answer of every call but who-holds and read.
#[repr(C)]
#[derive(Clone, Copy)]
pub struct Reply {
    pub number: u32,
    pub rule: u32,
    pub value: u32,
    pub place: Place,
    pub first: HolderNumbers,
    pub second: HolderNumbers,
}

// The answer of who-holds.
#[repr(C)]
#[derive(Clone, Copy)]
pub struct HolderReply {
    pub number: u32,
    pub rule: u32,
    pub holder: HolderNumbers,
    pub place: Place,
    pub first: HolderNumbers,
    pub second: HolderNumbers,
}

// Words of the image: so many from that word on.
#[repr(C)]
#[derive(Clone, Copy, Debug, PartialEq, Eq)]
pub struct Part {
    pub offset: usize,
    pub length: usize,
}

impl From<book::Place> for Place {
    ghost from_gives = { λ p q. SamePlace p q };

    fn from(place: book::Place) -> Place {
        Place {
            page: place.page,
            word: place.word,
        }
    }
}

// Done, with this value: nothing is broken.
fn done_of(value: u32) -> Reply
    ensures { Spelled (done_with value) result }
{
    let free = holder_of(Holder::Free);
    Reply {
        number: 0,
        rule: 0,
        value,
        place: Place { page: 0, word: 0 },
        first: free,
        second: free,
    }
}

// The number of a refusal, and with 3 what is broken.
impl From<Refusal> for Reply {
    ghost from_gives = { λ why r. Spelled (refused_with 0 why) r };

    fn from(why: Refusal) -> Reply {
        let b = broken_of(why);
        let first = b.first;
        let second = b.second;
        Reply {
            number: number_of(why),
            rule: b.rule,
            value: 0,
            place: Place::from(b.place),
            first: holder_of(first),
            second: holder_of(second),
        }
    }
}

impl From<Answer> for Reply {
    ghost from_gives = { λ a r. Spelled (numbers a) r };

    fn from(answer: Answer) -> Reply {
        match answer {
            Ok(value) => done_of(value),
            Err(why) => Reply::from(why),
        }
    }
}

// Who holds the page: nothing is broken.
fn held_by(h: Holder) -> HolderReply
    ensures { HeldAs (done_with h) result }
{
    let free = holder_of(Holder::Free);
    HolderReply {
        number: 0,
        rule: 0,
        holder: holder_of(h),
        place: Place { page: 0, word: 0 },
        first: free,
        second: free,
    }
}

// A refusal of who-holds: the holder is all zeros.
impl From<Refusal> for HolderReply {
    ghost from_gives = { λ why r. HeldAs (refused_with Free why) r };

    fn from(why: Refusal) -> HolderReply {
        let Reply {
            number,
            rule,
            value: _,
            place,
            first,
            second,
        } = Reply::from(why);
        HolderReply {
            number,
            rule,
            holder: holder_of(Holder::Free),
            place,
            first,
            second,
        }
    }
}

impl From<Holding> for HolderReply {
    ghost from_gives = { λ a r. HeldAs (holding a) r };

    fn from(holding: Holding) -> HolderReply {
        match holding {
            Ok(holder) => held_by(holder),
            Err(why) => HolderReply::from(why),
        }
    }
}

// The words of the page that the address call gives, or none.
impl From<Answer> for Part {
    ghost from_gives = { λ a r. Placed (numbers a) r };

    fn from(address: Answer) -> Part {
        match address {
            Ok(value) => Part {
                offset: 1024 * (value as usize),
                length: 1024,
            },
            Err(_) => Part {
                offset: 0,
                length: 0,
            },
        }
    }
}
