// The calls that change an image.
ghost use Rattle.edge.specs.Replied.{Replied};
ghost use Rattle.book.specs.Calls.{format_call, format_default_call, create_user_call, delete_user_call, give_call, take_call, write_call, open_call};
ghost use Rattle.book.specs.Calls.{create_indexed_call, create_contiguous_call, grow_call, shrink_call, delete_file_call, to_apostrophe_call, to_zeros_call};

use crate::spell::Reply;

// Makes a new volume whose bit file begins at page `at`.
pub fn nord_format(img: &mut [u16], name: &[u8], at: usize) -> Reply
    ensures { Replied (format_call img.old name.now at) img.old result img.new }
{
    Reply::from(nord::change::format(img, name, at))
}

// The same with the bit file from the middle page on.
pub fn nord_format_default(img: &mut [u16], name: &[u8]) -> Reply
    ensures { Replied (format_default_call img.old name.now) img.old result img.new }
{
    Reply::from(nord::change::format_default(img, name))
}

// Creates a user of that name.
pub fn nord_create_user(img: &mut [u16], name: &[u8]) -> Reply
    ensures { Replied (create_user_call img.old name.now) img.old result img.new }
{
    Reply::from(nord::users::create_user(img, false, name))
}

// Deletes a user that has no file.
pub fn nord_delete_user(img: &mut [u16], user: usize) -> Reply
    ensures { Replied (delete_user_call img.old user) img.old result img.new }
{
    Reply::from(nord::change::delete_user(img, false, user))
}

// Moves pages from unreserved to the user's given pages.
pub fn nord_give(img: &mut [u16], user: usize, count: usize) -> Reply
    ensures { Replied (give_call img.old user count) img.old result img.new }
{
    Reply::from(nord::change::give(img, false, user, count))
}

// Moves them back.
pub fn nord_take(img: &mut [u16], user: usize, count: usize) -> Reply
    ensures { Replied (take_call img.old user count) img.old result img.new }
{
    Reply::from(nord::change::take(img, false, user, count))
}

// Creates an empty indexed file.
pub fn nord_create_indexed(
    img: &mut [u16],
    user: usize,
    name: &[u8],
    kind: &[u8],
    created: u32,
) -> Reply
    ensures { Replied (create_indexed_call img.old user name.now kind.now created) img.old result img.new }
{
    Reply::from(nord::files::create_indexed(img, false, user, name, kind, created))
}

// Creates a contiguous file of that many pages.
pub fn nord_create_contiguous(
    img: &mut [u16],
    user: usize,
    name: &[u8],
    kind: &[u8],
    created: u32,
    count: usize,
) -> Reply
    ensures { Replied (create_contiguous_call img.old user name.now kind.now created count) img.old result img.new }
{
    Reply::from(nord::files::create_contiguous(img, false, user, name, kind, created, count))
}

// Grows an indexed file by one page: done with the page's number.
pub fn nord_grow(img: &mut [u16], user: usize, file: usize) -> Reply
    ensures { Replied (grow_call img.old user file) img.old result img.new }
{
    Reply::from(nord::files::grow(img, false, user, file))
}

// Shrinks an indexed file by its last page.
pub fn nord_shrink(img: &mut [u16], user: usize, file: usize) -> Reply
    ensures { Replied (shrink_call img.old user file) img.old result img.new }
{
    Reply::from(nord::files::shrink(img, false, user, file))
}

// Deletes a file.
pub fn nord_delete_file(img: &mut [u16], user: usize, file: usize) -> Reply
    ensures { Replied (delete_file_call img.old user file) img.old result img.new }
{
    Reply::from(nord::files::delete_file(img, false, user, file))
}

// Writes the page at that position of the user's file.
pub fn nord_write_page(
    img: &mut [u16],
    user: usize,
    file: usize,
    position: usize,
    data: &[u16],
) -> Reply
    ensures { Replied (write_call img.old user file position «data».now) img.old result img.new }
{
    Reply::from(nord::change::write_page(img, false, user, file, position, data))
}

// Notes an open of the user's file.
pub fn nord_note_open(img: &mut [u16], user: usize, file: usize) -> Reply
    ensures { Replied (open_call img.old user file) img.old result img.new }
{
    Reply::from(nord::change::note_open(img, false, user, file))
}

// Converts names and types from zeros behind a short one to an apostrophe and then zeros.
pub fn nord_convert_to_apostrophe(img: &mut [u16]) -> Reply
    ensures { Replied (to_apostrophe_call img.old) img.old result img.new }
{
    Reply::from(convert::to_apostrophe(img, false))
}

// And back to zeros.
pub fn nord_convert_to_zeros(img: &mut [u16]) -> Reply
    ensures { Replied (to_zeros_call img.old) img.old result img.new }
{
    Reply::from(convert::to_zeros(img, false))
}
