// A case for each refusal number, on a disk of 16 pages; each leaves the volume as sound as it was.
use crate::say::{case, done, refused};
use edge::ask::{nord_check, nord_find_file, nord_find_user, nord_who_holds};
use edge::change::{
    nord_convert_to_apostrophe, nord_convert_to_zeros, nord_create_contiguous, nord_create_indexed,
    nord_create_user, nord_delete_user, nord_format_default, nord_give, nord_grow, nord_shrink,
    nord_take,
};
use std::io;

// A volume YARD of 16 pages with the user DOCK, who was given 8.
pub fn small_yard(img: &mut [u16]) {
    nord_format_default(img, b"YARD");
    nord_create_user(img, b"DOCK");
    nord_give(img, 0, 8);
}

// The numbers but 1, which disk has, 3, which rules has, and 8.
pub fn numbers(rt: &impl Print, img: &mut [u16]) -> io::Result<()> {
    small_yard(img);
    asked(rt, img)?;
    arguments(rt, img)?;
    names(rt, img)?;
    types(rt, img)?;
    kinds(rt, img)?;
    allowance(rt, img)?;
    room(rt, img)?;
    run(rt, img)?;
    fills(rt, img)?;
    back(rt, img)?;
    filled(rt, img)
}

// 2 and 4, of calls that change nothing.
fn asked(rt: &impl Print, img: &[u16]) -> io::Result<()> {
    case(
        rt,
        "2: a name in small letters",
        refused(nord_find_user(img, b"dock"), 2),
    )?;
    case(rt, "2: page 16 of 16", nord_who_holds(img, 16).number == 2)?;
    case(
        rt,
        "4: no such user",
        refused(nord_find_user(img, b"WAND"), 4),
    )?;
    case(
        rt,
        "4: no such file",
        refused(nord_find_file(img, 0, b"READS", b"DATA"), 4),
    )
}

// 2.
fn arguments(rt: &impl Print, img: &mut [u16]) -> io::Result<()> {
    case(rt, "2: user 256", refused(nord_grow(img, 256, 0), 2))?;
    case(rt, "2: no page to give", refused(nord_give(img, 0, 0), 2))
}

// 5, of users, and a file.
fn names(rt: &impl Print, img: &mut [u16]) -> io::Result<()> {
    case(
        rt,
        "5: the user's name is taken",
        refused(nord_create_user(img, b"DOCK"), 5),
    )?;
    case(
        rt,
        "a file",
        done(nord_create_indexed(img, 0, b"READS", b"DATA", 0), 0),
    )
}

// 5, of files.
fn types(rt: &impl Print, img: &mut [u16]) -> io::Result<()> {
    case(
        rt,
        "5: the file's name is taken",
        refused(nord_create_indexed(img, 0, b"READS", b"DATA", 0), 5),
    )?;
    case(
        rt,
        "another type is another file",
        done(nord_create_indexed(img, 0, b"READS", b"", 0), 1),
    )
}

// 6 and 7.
fn kinds(rt: &impl Print, img: &mut [u16]) -> io::Result<()> {
    case(
        rt,
        "6: shrink of an empty file",
        refused(nord_shrink(img, 0, 0), 6),
    )?;
    case(
        rt,
        "7: the user has a file",
        refused(nord_delete_user(img, 0), 7),
    )
}

// 9.
fn allowance(rt: &impl Print, img: &mut [u16]) -> io::Result<()> {
    case(
        rt,
        "9: nine pages of eight",
        refused(nord_create_contiguous(img, 0, b"RUN", b"", 0, 9), 9),
    )?;
    case(
        rt,
        "9: take back nine of eight",
        refused(nord_take(img, 0, 9), 9),
    )
}

// 10 and 11.
fn room(rt: &impl Print, img: &mut [u16]) -> io::Result<()> {
    case(
        rt,
        "10: give three of two",
        refused(nord_give(img, 0, 3), 10),
    )?;
    case(
        rt,
        "11: no eight in a row",
        refused(nord_create_contiguous(img, 0, b"RUN", b"", 0, 8), 11),
    )
}

// A run that fits, and 6 after it.
fn run(rt: &impl Print, img: &mut [u16]) -> io::Result<()> {
    case(
        rt,
        "seven in a row",
        done(nord_create_contiguous(img, 0, b"RUN", b"", 0, 7), 2),
    )?;
    case(
        rt,
        "6: grow of a contiguous file",
        refused(nord_grow(img, 0, 2), 6),
    )
}

// 12, and from apostrophes to zeros.
fn fills(rt: &impl Print, img: &mut [u16]) -> io::Result<()> {
    case(
        rt,
        "12: names end in an apostrophe",
        refused(nord_convert_to_apostrophe(img), 12),
    )?;
    case(rt, "to zeros", done(nord_convert_to_zeros(img), 0))
}

// And back.
fn back(rt: &impl Print, img: &mut [u16]) -> io::Result<()> {
    case(
        rt,
        "12: names end in zeros",
        refused(nord_convert_to_zeros(img), 12),
    )?;
    case(
        rt,
        "back to apostrophes",
        done(nord_convert_to_apostrophe(img), 0),
    )
}

// 9 after it.
fn filled(rt: &impl Print, img: &mut [u16]) -> io::Result<()> {
    case(
        rt,
        "9: grow needs two of one",
        refused(nord_grow(img, 0, 0), 9),
    )?;
    case(rt, "sound after all that", done(nord_check(img), 13))
}

// Number 8: 256 users, and one more.
pub fn all_users(rt: &impl Print, img: &mut [u16]) -> io::Result<()> {
    nord_format_default(img, b"FULL");
    fill(img);
    full(rt, img)
}

fn full(rt: &impl Print, img: &mut [u16]) -> io::Result<()> {
    case(rt, "256 users", done(nord_find_user(img, b"255"), 255))?;
    case(
        rt,
        "8: one more",
        refused(nord_create_user(img, b"ONE-MORE"), 8),
    )
}

// Creates the users 000 to 255.
fn fill(img: &mut [u16]) {
    for i in 0..256 {
        nord_create_user(img, &digits(i));
    }
}

// A number below 1,000 as a name of three digits.
fn digits(n: u16) -> [u8; 3] {
    [digit(n / 100), digit(n / 10), digit(n)]
}

// The last digit of a number.
fn digit(n: u16) -> u8 {
    b'0' + (n % 10) as u8
}
