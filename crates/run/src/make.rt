// One step: the call that its number asks for.
ghost use Rattle.std.specs.Prelude.{◌≡◌, length, get_or};
ghost use Rattle.book.specs.Answers.{numbers};
ghost use Rattle.book.specs.Outcome.{Outcome};
ghost use Rattle.book.specs.Calls.{write_call};
ghost use Rattle.book.specs.Enter.{Known};
ghost use Rattle.book.specs.Run.{name_call, names_call, data_call, offset_call};
ghost use Rattle.run.specs.Asked.{named_call, typed_call, valued_call};

use crate::call::{Named, Typed, Valued};
use crate::step::{COUNT, FILE, USER, created, kind, name, number, page_words};
use book::Answer;
use nord::enter::wrong;
use nord::{ask, change, files, users};

// A call with the name that the step tells. Here and below a part that does not lie in its list is a wrong argument.
fn make_named(
    img: &mut [u16],
    known: bool,
    call: Named,
    at: usize,
    step: &[u32],
    text: &[u8],
) -> Answer
    requires { Known known img.old × (length step.now ≡ 10) }
    ensures { Outcome (name_call img.old step.now text.now (named_call img.old at call)) img.old (numbers result) img.new }
{
    let Some(name) = name(step, text) else {
        return wrong(img, known);
    };
    match call {
        Named::Format => change::format(img, name, at),
        Named::FormatDefault => change::format_default(img, name),
        Named::FindUser => ask::find_user(img, known, name),
        Named::CreateUser => users::create_user(img, known, name),
    }
}

// A call with that name and the type that the step tells.
fn make_typed(
    img: &mut [u16],
    known: bool,
    call: Typed,
    user: usize,
    count: usize,
    step: &[u32],
    text: &[u8],
) -> Answer
    requires { Known known img.old × (length step.now ≡ 10) }
    ensures { Outcome (names_call img.old step.now text.now (typed_call img.old user count (get_or step.now 4 0) call)) img.old (numbers result) img.new }
{
    let Some(name) = name(step, text) else {
        return wrong(img, known);
    };
    let Some(kind) = kind(step, text) else {
        return wrong(img, known);
    };
    let time = created(step);
    match call {
        Typed::FindFile => ask::find_file(img, known, user, name, kind),
        Typed::CreateIndexed => files::create_indexed(img, known, user, name, kind, time),
        Typed::CreateContiguous => {
            files::create_contiguous(img, known, user, name, kind, time, count)
        }
    }
}

// Read page: where its words begin in the image.
fn make_read_page(img: &[u16], known: bool, user: usize, file: usize, n: usize) -> Answer
    requires { Known known img.now }
    ensures { Outcome (offset_call img.now user file n) img.now (numbers result) img.now }
{
    let page = ask::address(img, known, user, file, n)?;
    Ok(1024 * page)
}

// Write page with the words that the step tells.
fn make_write_page(
    img: &mut [u16],
    known: bool,
    user: usize,
    file: usize,
    n: usize,
    step: &[u32],
    words: &[u16],
) -> Answer
    requires { Known known img.old × (length step.now ≡ 10) }
    ensures { Outcome (data_call img.old step.now words.now (write_call img.old user file n)) img.old (numbers result) img.new }
{
    let Some(data) = page_words(step, words) else {
        return wrong(img, known);
    };
    change::write_page(img, known, user, file, n, data)
}

// Makes a call that the step asks for.
pub(crate) fn make(
    img: &mut [u16],
    known: bool,
    call: Valued,
    step: &[u32],
    text: &[u8],
    words: &[u16],
) -> Answer
    requires { Known known img.old × (length step.now ≡ 10) }
    ensures { Outcome (valued_call img.old step.now text.now words.now (get_or step.now 1 0) (get_or step.now 2 0) (get_or step.now 3 0) (get_or step.now 4 0) call) img.old (numbers result) img.new }
{
    let user = number(step, USER);
    let file = number(step, FILE);
    let n = number(step, COUNT);
    match call {
        Valued::Named(call) => make_named(img, known, call, n, step, text),
        Valued::Typed(call) => make_typed(img, known, call, user, n, step, text),
        Valued::Check => ask::check(img),
        Valued::Address => ask::address(img, known, user, file, n),
        Valued::DeleteUser => change::delete_user(img, known, user),
        Valued::Give => change::give(img, known, user, n),
        Valued::Take => change::take(img, known, user, n),
        Valued::Grow => files::grow(img, known, user, file),
        Valued::Shrink => files::shrink(img, known, user, file),
        Valued::DeleteFile => files::delete_file(img, known, user, file),
        Valued::ReadPage => make_read_page(img, known, user, file, n),
        Valued::WritePage => make_write_page(img, known, user, file, n, step, words),
        Valued::NoteOpen => change::note_open(img, known, user, file),
        Valued::ConvertToApostrophe => convert::to_apostrophe(img, known),
        Valued::ConvertToZeros => convert::to_zeros(img, known),
    }
}
