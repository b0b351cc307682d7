// The yard's disk of 154 pages, through its first day.
use crate::rules::breaks;
use crate::say::{case, done, refused, two, word};
use edge::ask::{nord_address, nord_check, nord_who_holds};
use edge::change::{
    nord_create_contiguous, nord_create_indexed, nord_create_user, nord_format_default, nord_give,
    nord_grow,
};
use std::io;

// 8 pages pass shape.
pub fn passes(rt: &impl Print, img: &mut [u16]) -> io::Result<()> {
    case(
        rt,
        "8 pages pass shape",
        done(nord_format_default(img, b"YARD"), 0),
    )?;
    case(rt, "8 pages are sound", done(nord_check(img), 2))
}

// 7 pages get 1, and so does a length that is no whole number of pages.
pub fn too_small(rt: &impl Print, img: &mut [u16]) -> io::Result<()> {
    case(
        rt,
        "no volume: 1",
        refused(nord_format_default(img, b"YARD"), 1),
    )?;
    case(rt, "nothing to check: 1", refused(nord_check(img), 1))
}

// Formatted, a first user, 100 pages given, an indexed file grown once, a contiguous one of 10.
pub fn first_day(rt: &impl Print, img: &mut [u16]) -> io::Result<()> {
    formatted(rt, img)?;
    first_user(rt, img)?;
    first_file(rt, img)?;
    first_run(rt, img)
}

fn formatted(rt: &impl Print, img: &mut [u16]) -> io::Result<()> {
    case(
        rt,
        "154 pages by default",
        done(nord_format_default(img, b"YARD"), 0),
    )?;
    case(rt, "bit page 77", two(img, 0, 1020, 77))?;
    case(rt, "unreserved 152", two(img, 0, 1022, 152))
}

fn first_user(rt: &impl Print, img: &mut [u16]) -> io::Result<()> {
    case(
        rt,
        "first user is 0",
        done(nord_create_user(img, b"DOCK"), 0),
    )?;
    case(rt, "pages 1, 2, 3", first_pages(img))?;
    case(rt, "unreserved 149", two(img, 0, 1022, 149))?;
    broken(rt, img)?;
    given(rt, img)
}

// One word wrong, and where check says it is.
fn broken(rt: &impl Print, img: &mut [u16]) -> io::Result<()> {
    case(rt, "used 1: page 2, word 16", breaks(img, 2, 17, 1, 4, 16))?;
    case(
        rt,
        "unreserved 150: page 0, word 1022",
        breaks(img, 0, 1023, 150, 10, 1022),
    )?;
    case(
        rt,
        "bit of page 100: page 77, word 6",
        breaks(img, 77, 6, 16, 9, 6),
    )
}

fn given(rt: &impl Print, img: &mut [u16]) -> io::Result<()> {
    case(rt, "give 100", done(nord_give(img, 0, 100), 0))?;
    case(rt, "unreserved 49", two(img, 0, 1022, 49))
}

fn first_file(rt: &impl Print, img: &mut [u16]) -> io::Result<()> {
    let made = nord_create_indexed(img, 0, b"READS", b"DATA", 1980);
    case(rt, "indexed file 0", done(made, 0))?;
    file_page(rt, img)?;
    case(rt, "grow: data 5", done(nord_grow(img, 0, 0), 5))?;
    file_blocks(rt, img)
}

fn file_page(rt: &impl Print, img: &[u16]) -> io::Result<()> {
    case(rt, "object page 4", two(img, 3, 0, 4))?;
    case(rt, "unreserved 48", two(img, 0, 1022, 48))
}

fn file_blocks(rt: &impl Print, img: &[u16]) -> io::Result<()> {
    case(rt, "data page 5", held(img, 5, 10))?;
    case(rt, "index 6", held(img, 6, 9))
}

fn first_run(rt: &impl Print, img: &mut [u16]) -> io::Result<()> {
    let run = nord_create_contiguous(img, 0, b"WEIGHTS", b"DATA", 1980, 10);
    case(rt, "contiguous 10: file 1", done(run, 1))?;
    run_pages(rt, img)
}

fn run_pages(rt: &impl Print, img: &[u16]) -> io::Result<()> {
    case(
        rt,
        "its first page is 144",
        done(nord_address(img, 0, 1, 0), 144),
    )?;
    case(
        rt,
        "its last page is 153",
        done(nord_address(img, 0, 1, 9), 153),
    )?;
    case(
        rt,
        "position 10: 4",
        refused(nord_address(img, 0, 1, 10), 4),
    )?;
    case(rt, "18 pages are visited", done(nord_check(img), 18))
}

// The user index is page 1, the user page 2, the object index 3.
fn first_pages(img: &[u16]) -> bool {
    word(img, 0, 1018) == 16384
        && word(img, 0, 1016) == 16384
        && word(img, 0, 1019) == 1
        && two(img, 1, 0, 2)
        && word(img, 0, 1017) == 3
}

// Whether a page has a holder of this kind.
fn held(img: &[u16], page: usize, kind: u32) -> bool {
    let h = nord_who_holds(img, page);
    h.number == 0 && h.holder.kind == kind && h.holder.position == 0
}
