// A case for each broken rule: a sound disk of 16 pages with one word wrong.
use crate::refusals::small_yard;
use crate::say::{broken, case, done, held, put, refused, word};
use edge::ask::nord_check;
use edge::change::{nord_create_indexed, nord_grow};
use edge::mend::mended;
use edge::spell::Reply;
use salvage::row::no_changes;
use std::io;

// Whether check gives this rule and word `first` of page p with word k of page p set to x; the word is put back.
pub fn breaks(img: &mut [u16], p: u16, k: u16, x: u16, rule: u32, first: u32) -> bool {
    let was = word(img, p, k);
    put(img, p, k, x);
    let r = nord_check(img);
    put(img, p, k, was);
    broken(r, rule, u32::from(p), first) && held(r, 0, 0)
}

// Whether check gives rule 8, page 4 and its two holders, object page 0 and data page 0 of the file, with slot 0 of the file's index block set to 4.
fn shares(img: &mut [u16]) -> bool {
    put(img, 6, 1, 4);
    let r = nord_check(img);
    put(img, 6, 1, 5);
    broken(r, 8, 4, 0) && held(r, 7, 10)
}

// Each rule. Page 1 is the user index, 2 the user page, 3 the object index, 4 the object page, 5 the file's page, 6 its index block, 8 the
// bit file.
pub fn rules(rt: &impl Print, img: &mut [u16]) -> io::Result<()> {
    small_yard(img);
    one_page(rt, img)?;
    heads(rt, img)?;
    entries(rt, img)?;
    files(rt, img)?;
    counts(rt, img)?;
    sound(rt, img, "sound again")?;
    stale(rt, img)?;
    mends(rt, img)?;
    sound(rt, img, "sound after salvage")
}

fn one_page(rt: &impl Print, img: &mut [u16]) -> io::Result<()> {
    nord_create_indexed(img, 0, b"READS", b"DATA", 0);
    case(rt, "one file, one page", done(nord_grow(img, 0, 0), 5))?;
    case(rt, "sound: 8 pages", done(nord_check(img), 8))
}

fn heads(rt: &impl Print, img: &mut [u16]) -> io::Result<()> {
    case(
        rt,
        "rule 1: a name with a gap",
        breaks(img, 0, 1008, 89, 1, 1008),
    )?;
    case(
        rt,
        "rule 1: bit page 16 of 16",
        breaks(img, 0, 1021, 16, 1, 1020),
    )?;
    case(
        rt,
        "rule 2: both flags",
        breaks(img, 0, 1018, 49152, 2, 1018),
    )?;
    case(
        rt,
        "rule 2: no object pointer",
        breaks(img, 0, 1016, 0, 2, 1016),
    )
}

fn entries(rt: &impl Print, img: &mut [u16]) -> io::Result<()> {
    case(
        rt,
        "rule 3: slot 8 of the user index",
        breaks(img, 1, 17, 9, 3, 16),
    )?;
    case(
        rt,
        "rule 4: not his own index",
        breaks(img, 2, 18, 1, 4, 18),
    )?;
    case(rt, "rule 4: used above given", breaks(img, 2, 17, 9, 4, 16))?;
    case(
        rt,
        "rule 5: object page 16 of 16",
        breaks(img, 3, 1, 16, 5, 0),
    )
}

fn files(rt: &impl Print, img: &mut [u16]) -> io::Result<()> {
    case(
        rt,
        "rule 6: another entry number",
        breaks(img, 4, 17, 1, 6, 17),
    )?;
    case(
        rt,
        "rule 6: a type in small letters",
        breaks(img, 4, 9, 25697, 6, 9),
    )?;
    case(
        rt,
        "rule 7: a slot past the last page",
        breaks(img, 6, 3, 7, 7, 2),
    )?;
    case(
        rt,
        "rule 7: bytes of two pages",
        breaks(img, 4, 29, 4096, 7, 28),
    )?;
    case(rt, "rule 8: the object page is a file's page", shares(img))
}

fn counts(rt: &impl Print, img: &mut [u16]) -> io::Result<()> {
    case(
        rt,
        "rule 9: a free page's bit",
        breaks(img, 8, 0, 895, 9, 0),
    )?;
    case(
        rt,
        "rule 9: a held page's bit",
        breaks(img, 8, 0, 375, 9, 0),
    )?;
    case(rt, "rule 10: used count", breaks(img, 2, 17, 3, 10, 16))?;
    case(rt, "rule 10: unreserved", breaks(img, 0, 1023, 3, 10, 1022))
}

fn sound(rt: &impl Print, img: &[u16], name: &str) -> io::Result<()> {
    case(rt, name, done(nord_check(img), 8))
}

// A salvage with room for so many changes.
fn salvage(img: &mut [u16], room: usize) -> Reply {
    let mut row = no_changes();
    mended(img, room, &mut row)
}

// 13, with 1 page given of 2 that are held.
fn overdrawn(img: &mut [u16]) -> bool {
    put(img, 2, 15, 1);
    let r = salvage(img, 3);
    put(img, 2, 15, 8);
    refused(r, 13)
}

// A used count of 3 for 2: no room for the change, then pages given that are too few.
fn stale(rt: &impl Print, img: &mut [u16]) -> io::Result<()> {
    put(img, 2, 17, 3);
    case(rt, "14: no room for a change", refused(salvage(img, 0), 14))?;
    case(rt, "13: holds two, was given one", overdrawn(img))
}

// With room the count is mended, and a second salvage has nothing to do.
fn mends(rt: &impl Print, img: &mut [u16]) -> io::Result<()> {
    case(rt, "salvage: the used count", done(salvage(img, 1), 1))?;
    case(rt, "salvage: nothing to mend", done(salvage(img, 0), 0))
}
