// The numbers of document 01 that a refusal and a holder stand for.
ghost use Rattle.std.specs.Prelude.{◌≡◌};
ghost use Rattle.book.specs.Answers.{number_of, unbroken, broken_of, system_numbers, role_numbers, holder_numbers};
ghost use Rattle.sound.specs.Told.{Tells};

use book::{Break, FileHolder, Holder, Place, Refusal, Role};

// The number of a refusal.
pub fn number_of(why: Refusal) -> u32
    ensures { result ≡ number_of why }
{
    match why {
        Refusal::Size => 1,
        Refusal::Argument => 2,
        Refusal::Unsound { broken: _ } => 3,
        Refusal::Missing => 4,
        Refusal::Taken => 5,
        Refusal::Kind => 6,
        Refusal::HasFiles => 7,
        Refusal::Full => 8,
        Refusal::Allowance => 9,
        Refusal::Unreserved => 10,
        Refusal::NoRun => 11,
        Refusal::Fill => 12,
        Refusal::Overdrawn => 13,
        Refusal::ShortList => 14,
    }
}

// What is told with any number but 3: no rule, no place, free holders.
pub fn nothing_broken() -> Break
    ensures { result ≡ unbroken }
{
    Break {
        rule: 0,
        place: Place { page: 0, word: 0 },
        first: Holder::Free,
        second: Holder::Free,
    }
}

// What is broken, with number 3.
pub fn broken_of(why: Refusal) -> Break
    ensures { result ≡ broken_of why }
{
    match why {
        Refusal::Unsound { broken } => broken,
        _ => nothing_broken(),
    }
}

// Who holds a page, in numbers.
#[repr(C)]
#[derive(Clone, Copy)]
pub struct HolderNumbers {
    pub kind: u32,
    pub user: u32,
    pub file: u32,
    pub position: u32,
}

// A page that no file of a user holds.
fn system(kind: u32, position: u32) -> HolderNumbers
    ensures { Tells result (system_numbers kind position) }
{
    HolderNumbers {
        kind,
        user: 0,
        file: 0,
        position,
    }
}

// A page of a file.
fn of_file(kind: u32, user: u16, file: u16, position: u32) -> HolderNumbers
    ensures { Tells result (record { kind = kind; user = user; file = file; position = position }) }
{
    HolderNumbers {
        kind,
        user: u32::from(user),
        file: u32::from(file),
        position,
    }
}

// Which page of a file: the kinds 8 to 10.
fn role_of(user: u16, file: u16, role: Role) -> HolderNumbers
    ensures { Tells result (role_numbers user file role) }
{
    match role {
        Role::Subindex => of_file(8, user, file, 0),
        Role::Index { position } => of_file(9, user, file, position),
        Role::Data { position } => of_file(10, user, file, position),
    }
}

// A page of a file, with its user and file.
fn file_of(h: FileHolder) -> HolderNumbers
    ensures { Tells result (role_numbers h.user h.file h.role) }
{
    role_of(h.user, h.file, h.role)
}

// The four numbers of a holder.
pub fn holder_of(h: Holder) -> HolderNumbers
    ensures { Tells result (holder_numbers h) }
{
    match h {
        Holder::Free => system(0, 0),
        Holder::Master => system(1, 0),
        Holder::BitFile { position } => system(2, position),
        Holder::UserIndex => system(3, 0),
        Holder::UserPage { position } => system(4, position),
        Holder::ObjectSubindex => system(5, 0),
        Holder::ObjectIndex { position } => system(6, position),
        Holder::ObjectPage { position } => system(7, position),
        Holder::File { holder } => file_of(holder),
    }
}
