// The words of one page of an image: numbers, pointers, entries and names in it. Contracts speak of the volume, `vol img.now`.
#![tactic(auto)]

pub mod entry;
pub mod names;
pub mod read;
pub mod write;

// The words of a page.
pub const WORDS: usize = 1024;

// Where the words of the master block's directory entry stand: the volume's name, three pointers, the unreserved pages.
pub const VOLUME: usize = 1008;

pub const OBJECTS: usize = 1016;

pub const USERS: usize = 1018;

pub const BITS: usize = 1020;

pub const UNRESERVED: usize = 1022;

// The flags of a pointer to an index block, and to a subindex block. Numbers: a disk's flags may be any, and the book's rules judge them.
pub const INDEXED: u16 = 1;

pub const SUBINDEXED: u16 = 2;

// The most pages that an image has.
pub const MOST_PAGES: usize = 140733;

// The pages of the object file: 65,536 entries, 32 to a page.
pub const OBJECT_PAGES: usize = 2048;
