// The answers of the calls, and who can hold a page. specs/ says which numbers of document 01 each case stands for.
#![tactic(auto)]

// Which page of a file a page is. A position counts the index blocks, or the data pages, from 0.
#[derive(Clone, Copy, Debug, PartialEq, Eq)]
pub enum Role {
    Subindex,
    Index { position: u32 },
    Data { position: u32 },
}

// A page of a file: the file's user and number, and which of its pages.
#[derive(Clone, Copy, Debug, PartialEq, Eq)]
pub struct FileHolder {
    pub user: u16,
    pub file: u16,
    pub role: Role,
}

// Who holds a page.
#[derive(Clone, Copy, Debug, PartialEq, Eq)]
pub enum Holder {
    Free,
    Master,
    BitFile { position: u32 },
    UserIndex,
    UserPage { position: u32 },
    ObjectSubindex,
    ObjectIndex { position: u32 },
    ObjectPage { position: u32 },
    File { holder: FileHolder },
}

// A page, and a word of it.
#[derive(Clone, Copy, Debug, PartialEq, Eq)]
pub struct Place {
    pub page: u32,
    pub word: u32,
}

// One changed word: word 0 to 1,023 of a page, its old and its new value.
#[repr(C)]
#[derive(Clone, Copy, Debug, PartialEq, Eq)]
pub struct Change {
    pub page: u32,
    pub word: u32,
    pub old: u32,
    pub new: u32,
}

// What refusal 3 tells: the lowest broken rule, its first place, and with rule 8 the first two holders of that page.
#[derive(Clone, Copy, Debug, PartialEq, Eq)]
pub struct Break {
    pub rule: u32,
    pub place: Place,
    pub first: Holder,
    pub second: Holder,
}

// The lowest broken rule, of those judged. Rules go by their numbers in the book, which are compared.
#[derive(Clone, Copy, Debug, PartialEq, Eq)]
pub struct BrokenRule {
    pub rule: u32,
}

// What the rules judged say of an image: sound, with the pages visited, or the lowest broken one.
pub type Verdict = Result<u32, BrokenRule>;

// Why a call was refused, in the order of the numbers 1 to 14.
#[derive(Clone, Copy, Debug, PartialEq, Eq)]
pub enum Refusal {
    Size,
    Argument,
    Unsound { broken: Break },
    Missing,
    Taken,
    Kind,
    HasFiles,
    Full,
    Allowance,
    Unreserved,
    NoRun,
    Fill,
    Overdrawn,
    ShortList,
}

// The answer of every call but who-holds and read: done with a value, or refused.
pub type Answer = Result<u32, Refusal>;

// The answer of who-holds.
pub type Holding = Result<Holder, Refusal>;

// Numbers 1 to 3, which every call but format asks alike: refused, or open to the call's own numbers, with the pages visited.
pub type Gate = Result<u32, Refusal>;
