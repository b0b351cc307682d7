// Creating a user.
// An outcome is proved by what its call asks for, row by row.
#![tactic(auto, using(crate::proofs::Outcomes::outcomes), unfolding(book::specs::Calls::create_user_call, book::specs::Outcome::call, book::specs::Rows::Clear, book::specs::Rows::Lowest))]

ghost use Rattle.book.specs.Names.{NameText};
ghost use Rattle.book.specs.Answers.{numbers};
ghost use Rattle.book.specs.Outcome.{Outcome};
ghost use Rattle.book.specs.Calls.{create_user_call};
ghost use Rattle.book.specs.Enter.{Known, Fit};

use crate::enter::enter_name;
use book::{Answer, Refusal};

// Create user on a ready image: numbers 5, 8 and 10, then the step.
fn create_user_open(img: &mut [u16], name: &[u8]) -> Answer
    requires { Fit img.old (NameText name.now) }
    ensures { Outcome (create_user_call img.old name.now) img.old (numbers result) img.new }
{
    if seek::find::find_user(img, name).is_some() {
        return Err(Refusal::Taken);
    }
    let u = seek::free::free_user(img);
    if 255 < u {
        return Err(Refusal::Full);
    }
    if seek::users::unreserved(img) < seek::needs::user_need(img, u) {
        return Err(Refusal::Unreserved);
    }
    making::user::create_user_step(img, u, name);
    Ok(u as u32)
}

// Creates a user of that name, at the lowest unused index.
pub fn create_user(img: &mut [u16], known: bool, name: &[u8]) -> Answer
    requires { Known known img.old }
    ensures { Outcome (create_user_call img.old name.now) img.old (numbers result) img.new }
{
    enter_name(img, known, name)?;
    create_user_open(img, name)
}
