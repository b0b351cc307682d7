// The calls that change nothing: check, find a user or a file, a page's address, read a page, who holds a page.
// An outcome is proved by what its call asks for, row by row.
#![tactic(auto, using(crate::proofs::Outcomes::outcomes), unfolding(book::specs::Calls::address_call, book::specs::Calls::check_call, book::specs::Calls::find_file_call, book::specs::Calls::find_user_call, book::specs::Calls::position_rows, book::specs::Calls::who_call, book::specs::Outcome::call, book::specs::Rows::Clear, book::specs::Rows::Lowest))]

ghost use Rattle.book.specs.Image.{pages, IndexArg, PageArg};
ghost use Rattle.book.specs.Names.{NameText, TypeText};
ghost use Rattle.book.specs.Answers.{numbers, holding};
ghost use Rattle.book.specs.Outcome.{Outcome, Gives};
ghost use Rattle.book.specs.Calls.{check_call, find_user_call, find_file_call, address_call, read_call, who_call};
ghost use Rattle.book.specs.Enter.{Known, Fit};

use crate::enter::{enter_file, enter_name, enter_names, enter_page};
use book::{Answer, Holding, Refusal};

// Judges the image: done with the pages visited, or 3 with the lowest broken rule.
pub fn check(img: &[u16]) -> Answer
    ensures { Outcome (check_call img.now) img.now (numbers result) img.now }
{
    sound::gate(img, true)
}

// Find user on a ready image: number 4, or the index.
fn find_user_open(img: &[u16], name: &[u8]) -> Answer
    requires { Fit img.now (NameText name.now) }
    ensures { Outcome (find_user_call img.now name.now) img.now (numbers result) img.now }
{
    seek::find::find_user(img, name).ok_or(Refusal::Missing)
}

// The index of the user of that name.
pub fn find_user(img: &[u16], known: bool, name: &[u8]) -> Answer
    requires { Known known img.now }
    ensures { Outcome (find_user_call img.now name.now) img.now (numbers result) img.now }
{
    enter_name(img, known, name)?;
    find_user_open(img, name)
}

// Find file on a ready image: number 4, or the index.
fn find_file_open(img: &[u16], user: usize, name: &[u8], kind: &[u8]) -> Answer
    requires { Fit img.now (IndexArg user × NameText name.now × TypeText kind.now) }
    ensures { Outcome (find_file_call img.now user name.now kind.now) img.now (numbers result) img.now }
{
    if !seek::users::has_user(img, user) {
        return Err(Refusal::Missing);
    }
    seek::find::find_file(img, user, name, kind).ok_or(Refusal::Missing)
}

// The index of the user's file of that name and type.
pub fn find_file(img: &[u16], known: bool, user: usize, name: &[u8], kind: &[u8]) -> Answer
    requires { Known known img.now }
    ensures { Outcome (find_file_call img.now user name.now kind.now) img.now (numbers result) img.now }
{
    enter_names(img, known, user, name, kind)?;
    find_file_open(img, user, name, kind)
}

// Address on a ready image: number 4, or the page.
fn address_open(img: &[u16], user: usize, file: usize, n: usize) -> Answer
    requires { Fit img.now (IndexArg user × IndexArg file) }
    ensures { Outcome (address_call img.now user file n) img.now (numbers result) img.now }
{
    if !seek::positions::has_position(img, user, file, n) {
        return Err(Refusal::Missing);
    }
    Ok(seek::positions::address(img, user, file, n) as u32)
}

// The page of position n of the user's file.
pub fn address(img: &[u16], known: bool, user: usize, file: usize, n: usize) -> Answer
    requires { Known known img.now }
    ensures { Outcome (address_call img.now user file n) img.now (numbers result) img.now }
{
    enter_file(img, known, user, file)?;
    address_open(img, user, file, n)
}

// Read on a ready image: the page, or an empty part where the position is missing.
fn read_page_open(img: &[u16], user: usize, file: usize, n: usize) -> &[u16]
    requires { Fit img.now (IndexArg user × IndexArg file) }
    ensures { Gives (read_call img.now user file n) img.now result.now }
{
    if !seek::positions::has_position(img, user, file, n) {
        return seek::part::empty(img);
    }
    seek::part::page_part(img, seek::positions::address(img, user, file, n))
}

// The 1,024 words of that page, or an empty part where the address call would refuse.
pub fn read_page(img: &[u16], known: bool, user: usize, file: usize, n: usize) -> &[u16]
    requires { Known known img.now }
    ensures { Gives (read_call img.now user file n) img.now result.now }
{
    let Ok(_) = enter_file(img, known, user, file) else {
        return seek::part::empty(img);
    };
    read_page_open(img, user, file, n)
}

// Who-holds on a ready image: it has no number of its own.
fn who_holds_open(img: &[u16], p: usize) -> Holding
    requires { Fit img.now (PageArg (pages img.now) p) }
    ensures { Outcome (who_call img.now p) img.now (holding result) img.now }
{
    Ok(who::tell::who(img, p))
}

// Who holds page p, or that it is free.
pub fn who_holds(img: &[u16], known: bool, p: usize) -> Holding
    requires { Known known img.now }
    ensures { Outcome (who_call img.now p) img.now (holding result) img.now }
{
    enter_page(img, known, p)?;
    who_holds_open(img, p)
}
