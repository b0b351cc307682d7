// The gate of a call, numbers 1 to 3, by its arguments. An image that is known to be whole and sound is not judged again.
ghost use Rattle.std.specs.Prelude.{◌≡◌, true};
ghost use Rattle.book.specs.Image.{pages, IndexArg, CountArg, PageArg, DataArg};
ghost use Rattle.book.specs.Names.{NameText, TypeText};
ghost use Rattle.book.specs.Answers.{numbers};
ghost use Rattle.book.specs.Outcome.{Outcome};
ghost use Rattle.book.specs.Enter.{Known, Entered};
ghost use Rattle.book.specs.Run.{wrong_call};

use crate::args::{count_args, data_args, file_args, name_args, page_arg, run_args, user_arg};
use book::{Answer, Gate, Refusal};

// `ok` tells whether the call's arguments are right.
fn admit(img: &[u16], known: bool, ok: bool) -> Gate
    requires { Known known img.now }
    ensures { Entered img.now (ok ≡ true) result }
{
    if !known {
        return sound::gate(img, ok);
    }
    if !ok {
        return Err(Refusal::Argument);
    }
    Ok(0)
}

// No argument.
pub fn enter(img: &[u16], known: bool) -> Gate
    requires { Known known img.now }
    ensures { Entered img.now (Unit {0}) result }
{
    admit(img, known, true)
}

// A user index.
pub(crate) fn enter_user(img: &[u16], known: bool, user: usize) -> Gate
    requires { Known known img.now }
    ensures { Entered img.now (IndexArg user) result }
{
    admit(img, known, user_arg(user))
}

// A user and a file index.
pub(crate) fn enter_file(img: &[u16], known: bool, user: usize, file: usize) -> Gate
    requires { Known known img.now }
    ensures { Entered img.now (IndexArg user × IndexArg file) result }
{
    admit(img, known, file_args(user, file))
}

// A user index and a page count.
pub(crate) fn enter_count(img: &[u16], known: bool, user: usize, count: usize) -> Gate
    requires { Known known img.now }
    ensures { Entered img.now (IndexArg user × CountArg count) result }
{
    admit(img, known, count_args(user, count))
}

// A page number.
pub fn enter_page(img: &[u16], known: bool, p: usize) -> Gate
    requires { Known known img.now }
    ensures { Entered img.now (PageArg (pages img.now) p) result }
{
    admit(img, known, page_arg(img, p))
}

// A user and a file index, and the words of a page.
pub(crate) fn enter_data(img: &[u16], known: bool, user: usize, file: usize, data: &[u16]) -> Gate
    requires { Known known img.now }
    ensures { Entered img.now (IndexArg user × IndexArg file × DataArg «data».now) result }
{
    admit(img, known, data_args(user, file, data))
}

// A name.
pub(crate) fn enter_name(img: &[u16], known: bool, name: &[u8]) -> Gate
    requires { Known known img.now }
    ensures { Entered img.now (NameText name.now) result }
{
    admit(img, known, page::names::text(name, 1, 16))
}

// A user index, a name and a type.
pub(crate) fn enter_names(img: &[u16], known: bool, user: usize, name: &[u8], kind: &[u8]) -> Gate
    requires { Known known img.now }
    ensures { Entered img.now (IndexArg user × NameText name.now × TypeText kind.now) result }
{
    admit(img, known, name_args(user, name, kind))
}

// A user index, a name, a type and a page count.
pub(crate) fn enter_run(
    img: &[u16],
    known: bool,
    user: usize,
    name: &[u8],
    kind: &[u8],
    count: usize,
) -> Gate
    requires { Known known img.now }
    ensures { Entered img.now (IndexArg user × NameText name.now × TypeText kind.now × CountArg count) result }
{
    admit(img, known, run_args(user, name, kind, count))
}

// A call whose arguments are wrong whatever they are: number 1 or 2.
pub fn wrong(img: &[u16], known: bool) -> Answer
    requires { Known known img.now }
    ensures { Outcome (wrong_call img.now) img.now (numbers result) img.now }
{
    admit(img, known, false)
}
