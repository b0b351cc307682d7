// The calls that change nothing.
ghost use Rattle.edge.specs.Replied.{Replied, Held, Lies};
ghost use Rattle.book.specs.Calls.{check_call, find_user_call, find_file_call, address_call, who_call};
ghost use Rattle.book.specs.Listing.{Reported};

use crate::spell::{HolderReply, Part, Reply};

// Judges the image: done with the pages visited.
pub fn nord_check(img: &[u16]) -> Reply
    ensures { Replied (check_call img.now) img.now result img.now }
{
    Reply::from(nord::ask::check(img))
}

// The index of the user of that name.
pub fn nord_find_user(img: &[u16], name: &[u8]) -> Reply
    ensures { Replied (find_user_call img.now name.now) img.now result img.now }
{
    Reply::from(nord::ask::find_user(img, false, name))
}

// The index of the user's file of that name and type.
pub fn nord_find_file(img: &[u16], user: usize, name: &[u8], kind: &[u8]) -> Reply
    ensures { Replied (find_file_call img.now user name.now kind.now) img.now result img.now }
{
    Reply::from(nord::ask::find_file(img, false, user, name, kind))
}

// The page at that position of the user's file.
pub fn nord_address(img: &[u16], user: usize, file: usize, position: usize) -> Reply
    ensures { Replied (address_call img.now user file position) img.now result img.now }
{
    Reply::from(nord::ask::address(img, false, user, file, position))
}

// Who holds a page, or that it is free.
pub fn nord_who_holds(img: &[u16], page: usize) -> HolderReply
    ensures { Held (who_call img.now page) img.now result }
{
    HolderReply::from(nord::ask::who_holds(img, false, page))
}

// Where the page at that position of the user's file lies in the image.
pub fn nord_read_page(img: &[u16], user: usize, file: usize, position: usize) -> Part
    ensures { Lies (address_call img.now user file position) img.now result }
{
    Part::from(nord::ask::address(img, false, user, file, position))
}

// Lists the image: writes the text as far as the buffer reaches, and gives the whole length of the text.
pub fn nord_list(img: &[u16], out: &mut [u8]) -> usize
    ensures { Reported img.now out.old out.new result }
{
    listing::list(img, out)
}
