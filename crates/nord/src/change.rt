// Calls that change a volume and allocate no page: format, delete a user, give and take pages, write a page, note an open.
// An outcome is proved by what its call asks for, row by row.
#![tactic(auto, using(crate::proofs::Outcomes::outcomes), unfolding(book::specs::Calls::delete_user_call, book::specs::Calls::give_call, book::specs::Calls::open_call, book::specs::Calls::position_rows, book::specs::Calls::take_call, book::specs::Calls::write_call, book::specs::Outcome::call, book::specs::Rows::Clear, book::specs::Rows::Lowest))]

ghost use Rattle.std.specs.Prelude.{◌≤◌};
ghost use Rattle.book.specs.Decides.{Decides};
ghost use Rattle.book.specs.Names.{NameText};
ghost use Rattle.book.specs.Image.{most_pages, IndexArg, CountArg, BitArg, DataArg};
ghost use Rattle.book.specs.Answers.{numbers};
ghost use Rattle.book.specs.Outcome.{Outcome};
ghost use Rattle.book.specs.Calls.{give_call, take_call, delete_user_call, open_call, write_call, format_call, format_default_call};
ghost use Rattle.book.specs.Enter.{Known, Fit};

use crate::enter::{enter_count, enter_data, enter_file, enter_user};
use book::{Answer, Refusal};
use seek::files::entry_number;

// Give on a ready image: numbers 4 and 10, then the step.
fn give_open(img: &mut [u16], user: usize, count: u32) -> Answer
    requires { Fit img.old (IndexArg user × CountArg count) }
    ensures { Outcome (give_call img.old user count) img.old (numbers result) img.new }
{
    if !seek::users::has_user(img, user) {
        return Err(Refusal::Missing);
    }
    if seek::users::unreserved(img) < count {
        return Err(Refusal::Unreserved);
    }
    steps::counts::give_step(img, user, count);
    Ok(0)
}

// Moves pages from unreserved to the user's given pages.
pub fn give(img: &mut [u16], known: bool, user: usize, count: usize) -> Answer
    requires { Known known img.old }
    ensures { Outcome (give_call img.old user count) img.old (numbers result) img.new }
{
    enter_count(img, known, user, count)?;
    give_open(img, user, count as u32)
}

// Take on a ready image: numbers 4 and 9, then the step.
fn take_open(img: &mut [u16], user: usize, count: u32) -> Answer
    requires { Fit img.old (IndexArg user × CountArg count) }
    ensures { Outcome (take_call img.old user count) img.old (numbers result) img.new }
{
    if !seek::users::has_user(img, user) {
        return Err(Refusal::Missing);
    }
    if seek::users::spare(img, user) < count {
        return Err(Refusal::Allowance);
    }
    steps::counts::take_step(img, user, count);
    Ok(0)
}

// Moves them back.
pub fn take(img: &mut [u16], known: bool, user: usize, count: usize) -> Answer
    requires { Known known img.old }
    ensures { Outcome (take_call img.old user count) img.old (numbers result) img.new }
{
    enter_count(img, known, user, count)?;
    take_open(img, user, count as u32)
}

// Delete user on a ready image: numbers 4 and 7, then the step.
fn delete_user_open(img: &mut [u16], user: usize) -> Answer
    requires { Fit img.old (IndexArg user) }
    ensures { Outcome (delete_user_call img.old user) img.old (numbers result) img.new }
{
    if !seek::users::has_user(img, user) {
        return Err(Refusal::Missing);
    }
    if !seek::free::no_files(img, user) {
        return Err(Refusal::HasFiles);
    }
    steps::users::delete_user_step(img, user);
    Ok(0)
}

// Deletes a user that has no file.
pub fn delete_user(img: &mut [u16], known: bool, user: usize) -> Answer
    requires { Known known img.old }
    ensures { Outcome (delete_user_call img.old user) img.old (numbers result) img.new }
{
    enter_user(img, known, user)?;
    delete_user_open(img, user)
}

// Note open on a ready image: number 4, then the step.
fn note_open_open(img: &mut [u16], user: usize, file: usize) -> Answer
    requires { Fit img.old (IndexArg user × IndexArg file) }
    ensures { Outcome (open_call img.old user file) img.old (numbers result) img.new }
{
    if !seek::files::has_file(img, user, file) {
        return Err(Refusal::Missing);
    }
    let e = entry_number(user, file);
    steps::opens::open_step(img, e);
    Ok(0)
}

// Notes an open of the user's file.
pub fn note_open(img: &mut [u16], known: bool, user: usize, file: usize) -> Answer
    requires { Known known img.old }
    ensures { Outcome (open_call img.old user file) img.old (numbers result) img.new }
{
    enter_file(img, known, user, file)?;
    note_open_open(img, user, file)
}

// Write on a ready image: number 4, then the step.
fn write_page_open(img: &mut [u16], user: usize, file: usize, n: usize, data: &[u16]) -> Answer
    requires { Fit img.old (IndexArg user × IndexArg file × DataArg «data».now) }
    ensures { Outcome (write_call img.old user file n «data».now) img.old (numbers result) img.new }
{
    if !seek::positions::has_position(img, user, file, n) {
        return Err(Refusal::Missing);
    }
    let e = entry_number(user, file);
    steps::write::write_step(img, e, n, data);
    Ok(0)
}

// Writes the page at position n of the user's file.
pub fn write_page(
    img: &mut [u16],
    known: bool,
    user: usize,
    file: usize,
    n: usize,
    data: &[u16],
) -> Answer
    requires { Known known img.old }
    ensures { Outcome (write_call img.old user file n «data».now) img.old (numbers result) img.new }
{
    enter_data(img, known, user, file, data)?;
    write_page_open(img, user, file, n, data)
}

// Whether a name is right for a format of so many pages, and all of a bit file that begins at page `at` lies in 1..total-1.
fn format_args(total: usize, name: &[u8], at: usize) -> bool
    requires { total ≤ most_pages }
    ensures { Decides result (NameText name.now × BitArg total at) }
{
    page::names::text(name, 1, 16) && 0 < at && at < total && bits::bit_pages(total) <= total - at
}

// Makes a new volume whose bit file begins at page `at`. The image need not be sound.
#[tactic(auto, using(crate::proofs::Format::formats))]
pub fn format(img: &mut [u16], name: &[u8], at: usize) -> Answer
    ensures { Outcome (format_call img.old name.now at) img.old (numbers result) img.new }
{
    if !sound::whole(img) {
        return Err(Refusal::Size);
    }
    let total = img.len() / page::WORDS;
    if !format_args(total, name, at) {
        return Err(Refusal::Argument);
    }
    steps::format::format_step(img, name, at);
    Ok(0)
}

// The same with the bit file from the middle page on.
pub fn format_default(img: &mut [u16], name: &[u8]) -> Answer
    ensures { Outcome (format_default_call img.old name.now) img.old (numbers result) img.new }
{
    let total = img.len() / page::WORDS;
    format(img, name, total / 2)
}
