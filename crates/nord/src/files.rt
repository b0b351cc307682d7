// Creating a file, indexed or contiguous; growing and shrinking it by one page; deleting it.
// An outcome is proved by what its call asks for, row by row.
#![tactic(auto, using(crate::proofs::Outcomes::outcomes), unfolding(book::specs::Calls::create_contiguous_call, book::specs::Calls::create_indexed_call, book::specs::Calls::delete_file_call, book::specs::Calls::grow_call, book::specs::Calls::shrink_call, book::specs::Outcome::call, book::specs::Rows::Clear, book::specs::Rows::Lowest))]

ghost use Rattle.std.specs.Prelude.{◌<◌};
ghost use Rattle.book.specs.Words.{vol};
ghost use Rattle.book.specs.Names.{NameText, TypeText};
ghost use Rattle.nord.specs.Fresh.{Fresh};
ghost use Rattle.book.specs.Image.{Ready, IndexArg, CountArg};
ghost use Rattle.book.specs.Answers.{numbers};
ghost use Rattle.book.specs.Outcome.{Outcome};
ghost use Rattle.book.specs.Calls.{create_indexed_call, create_contiguous_call, grow_call, shrink_call, delete_file_call};
ghost use Rattle.book.specs.Enter.{Known, Fit};

use crate::enter::{enter_file, enter_names, enter_run};
use book::{Answer, Refusal};

// Numbers 4, 5 and 8 of the calls that create a file, then the user's lowest unused index.
fn new_file(img: &[u16], user: usize, name: &[u8], kind: &[u8]) -> Answer
    requires { Ready img.now × (user < 256) }
    ensures { Fresh (vol img.now) user name.now kind.now result }
{
    if !seek::users::has_user(img, user) {
        return Err(Refusal::Missing);
    }
    if seek::find::find_file(img, user, name, kind).is_some() {
        return Err(Refusal::Taken);
    }
    let f = seek::free::free_file(img, user);
    if 255 < f {
        return Err(Refusal::Full);
    }
    Ok(f as u32)
}

// Create indexed on a ready image: numbers 4, 5, 8 and 10, then the step.
fn create_indexed_open(
    img: &mut [u16],
    user: usize,
    name: &[u8],
    kind: &[u8],
    created: u32,
) -> Answer
    requires { Fit img.old (IndexArg user × NameText name.now × TypeText kind.now) }
    ensures { Outcome (create_indexed_call img.old user name.now kind.now created) img.old (numbers result) img.new }
{
    let value = new_file(img, user, name, kind)?;
    let f = value as usize;
    let e = seek::files::entry_number(user, f);
    if seek::users::unreserved(img) < seek::needs::file_need(img, e) {
        return Err(Refusal::Unreserved);
    }
    making::file::create_indexed_step(img, user, f, name, kind, created);
    Ok(value)
}

// Creates an empty indexed file of that name and type, at the user's lowest unused index.
pub fn create_indexed(
    img: &mut [u16],
    known: bool,
    user: usize,
    name: &[u8],
    kind: &[u8],
    created: u32,
) -> Answer
    requires { Known known img.old }
    ensures { Outcome (create_indexed_call img.old user name.now kind.now created) img.old (numbers result) img.new }
{
    enter_names(img, known, user, name, kind)?;
    create_indexed_open(img, user, name, kind, created)
}

// Create contiguous on a ready image: numbers 4, 5 and 8 to 11, then the step.
fn create_contiguous_open(
    img: &mut [u16],
    user: usize,
    name: &[u8],
    kind: &[u8],
    created: u32,
    count: u32,
) -> Answer
    requires { Fit img.old (IndexArg user × NameText name.now × TypeText kind.now × CountArg count) }
    ensures { Outcome (create_contiguous_call img.old user name.now kind.now created count) img.old (numbers result) img.new }
{
    let value = new_file(img, user, name, kind)?;
    let f = value as usize;
    if seek::users::spare(img, user) < count {
        return Err(Refusal::Allowance);
    }
    let e = seek::files::entry_number(user, f);
    if seek::users::unreserved(img) < seek::needs::file_need(img, e) {
        return Err(Refusal::Unreserved);
    }
    let s = making::run::find_run(img, user, f, count);
    if s == 0 {
        return Err(Refusal::NoRun);
    }
    making::file::create_contiguous_step(img, user, f, name, kind, created, count, s);
    Ok(value)
}

// Creates a contiguous file of that many pages, at the highest run that the system pages leave.
pub fn create_contiguous(
    img: &mut [u16],
    known: bool,
    user: usize,
    name: &[u8],
    kind: &[u8],
    created: u32,
    count: usize,
) -> Answer
    requires { Known known img.old }
    ensures { Outcome (create_contiguous_call img.old user name.now kind.now created count) img.old (numbers result) img.new }
{
    enter_run(img, known, user, name, kind, count)?;
    create_contiguous_open(img, user, name, kind, created, count as u32)
}

// Grow on a ready image: numbers 4, 6 and 9, then the step.
fn grow_open(img: &mut [u16], user: usize, file: usize) -> Answer
    requires { Fit img.old (IndexArg user × IndexArg file) }
    ensures { Outcome (grow_call img.old user file) img.old (numbers result) img.new }
{
    if !seek::files::has_file(img, user, file) {
        return Err(Refusal::Missing);
    }
    let e = seek::files::entry_number(user, file);
    if !seek::files::grows(img, e) {
        return Err(Refusal::Kind);
    }
    if seek::users::spare(img, user) < seek::needs::need(seek::files::page_count(img, e)) {
        return Err(Refusal::Allowance);
    }
    Ok(growth::grow::grow_step(img, user, file))
}

// Grows an indexed file by one page: done with the page's number.
pub fn grow(img: &mut [u16], known: bool, user: usize, file: usize) -> Answer
    requires { Known known img.old }
    ensures { Outcome (grow_call img.old user file) img.old (numbers result) img.new }
{
    enter_file(img, known, user, file)?;
    grow_open(img, user, file)
}

// Shrink on a ready image: numbers 4 and 6, then the step.
fn shrink_open(img: &mut [u16], user: usize, file: usize) -> Answer
    requires { Fit img.old (IndexArg user × IndexArg file) }
    ensures { Outcome (shrink_call img.old user file) img.old (numbers result) img.new }
{
    if !seek::files::has_file(img, user, file) {
        return Err(Refusal::Missing);
    }
    let e = seek::files::entry_number(user, file);
    if !seek::files::shrinks(img, e) {
        return Err(Refusal::Kind);
    }
    growth::shrink::shrink_step(img, user, file);
    Ok(0)
}

// Shrinks an indexed file by its last page.
pub fn shrink(img: &mut [u16], known: bool, user: usize, file: usize) -> Answer
    requires { Known known img.old }
    ensures { Outcome (shrink_call img.old user file) img.old (numbers result) img.new }
{
    enter_file(img, known, user, file)?;
    shrink_open(img, user, file)
}

// Delete file on a ready image: number 4, then the step.
fn delete_file_open(img: &mut [u16], user: usize, file: usize) -> Answer
    requires { Fit img.old (IndexArg user × IndexArg file) }
    ensures { Outcome (delete_file_call img.old user file) img.old (numbers result) img.new }
{
    if !seek::files::has_file(img, user, file) {
        return Err(Refusal::Missing);
    }
    growth::delete::delete_file_step(img, user, file);
    Ok(0)
}

// Deletes a file: its entry is cleared and its pages are freed.
pub fn delete_file(img: &mut [u16], known: bool, user: usize, file: usize) -> Answer
    requires { Known known img.old }
    ensures { Outcome (delete_file_call img.old user file) img.old (numbers result) img.new }
{
    enter_file(img, known, user, file)?;
    delete_file_open(img, user, file)
}
