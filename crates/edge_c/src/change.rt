// The calls that change an image.
ghost use Rattle.edge.specs.Replied.{Replied};
ghost use Rattle.book.specs.Calls.{format_call, format_default_call, create_user_call, delete_user_call, give_call, take_call, write_call, open_call};
ghost use Rattle.book.specs.Calls.{create_indexed_call, create_contiguous_call, grow_call, shrink_call, delete_file_call, to_apostrophe_call, to_zeros_call};

use edge::spell::Reply;

// Makes a new volume whose bit file begins at page `at`.
#[unsafe(no_mangle)]
pub extern "C" fn nord_format(img: &mut [u16], name: &[u8], at: usize) -> Reply
    ensures { Replied (format_call img.old name.now at) img.old result img.new }
{
    edge::change::nord_format(img, name, at)
}

// The same with the bit file from the middle page on.
#[unsafe(no_mangle)]
pub extern "C" fn nord_format_default(img: &mut [u16], name: &[u8]) -> Reply
    ensures { Replied (format_default_call img.old name.now) img.old result img.new }
{
    edge::change::nord_format_default(img, name)
}

// Creates a user of that name.
#[unsafe(no_mangle)]
pub extern "C" fn nord_create_user(img: &mut [u16], name: &[u8]) -> Reply
    ensures { Replied (create_user_call img.old name.now) img.old result img.new }
{
    edge::change::nord_create_user(img, name)
}

// Deletes a user that has no file.
#[unsafe(no_mangle)]
pub extern "C" fn nord_delete_user(img: &mut [u16], user: usize) -> Reply
    ensures { Replied (delete_user_call img.old user) img.old result img.new }
{
    edge::change::nord_delete_user(img, user)
}

// Moves pages from unreserved to the user's given pages.
#[unsafe(no_mangle)]
pub extern "C" fn nord_give(img: &mut [u16], user: usize, count: usize) -> Reply
    ensures { Replied (give_call img.old user count) img.old result img.new }
{
    edge::change::nord_give(img, user, count)
}

// Moves them back.
#[unsafe(no_mangle)]
pub extern "C" fn nord_take(img: &mut [u16], user: usize, count: usize) -> Reply
    ensures { Replied (take_call img.old user count) img.old result img.new }
{
    edge::change::nord_take(img, user, count)
}

// Creates an empty indexed file.
#[unsafe(no_mangle)]
pub extern "C" fn nord_create_indexed(
    img: &mut [u16],
    user: usize,
    name: &[u8],
    kind: &[u8],
    created: u32,
) -> Reply
    ensures { Replied (create_indexed_call img.old user name.now kind.now created) img.old result img.new }
{
    edge::change::nord_create_indexed(img, user, name, kind, created)
}

// Creates a contiguous file of that many pages.
#[unsafe(no_mangle)]
pub extern "C" fn nord_create_contiguous(
    img: &mut [u16],
    user: usize,
    name: &[u8],
    kind: &[u8],
    created: u32,
    count: usize,
) -> Reply
    ensures { Replied (create_contiguous_call img.old user name.now kind.now created count) img.old result img.new }
{
    edge::change::nord_create_contiguous(img, user, name, kind, created, count)
}

// Grows an indexed file by one page: done with the page's number.
#[unsafe(no_mangle)]
pub extern "C" fn nord_grow(img: &mut [u16], user: usize, file: usize) -> Reply
    ensures { Replied (grow_call img.old user file) img.old result img.new }
{
    edge::change::nord_grow(img, user, file)
}

// Shrinks an indexed file by its last page.
#[unsafe(no_mangle)]
pub extern "C" fn nord_shrink(img: &mut [u16], user: usize, file: usize) -> Reply
    ensures { Replied (shrink_call img.old user file) img.old result img.new }
{
    edge::change::nord_shrink(img, user, file)
}

// Deletes a file.
#[unsafe(no_mangle)]
pub extern "C" fn nord_delete_file(img: &mut [u16], user: usize, file: usize) -> Reply
    ensures { Replied (delete_file_call img.old user file) img.old result img.new }
{
    edge::change::nord_delete_file(img, user, file)
}

// Writes the page at that position of the user's file.
#[unsafe(no_mangle)]
pub extern "C" fn nord_write_page(
    img: &mut [u16],
    user: usize,
    file: usize,
    position: usize,
    data: &[u16],
) -> Reply
    ensures { Replied (write_call img.old user file position «data».now) img.old result img.new }
{
    edge::change::nord_write_page(img, user, file, position, data)
}

// Notes an open of the user's file.
#[unsafe(no_mangle)]
pub extern "C" fn nord_note_open(img: &mut [u16], user: usize, file: usize) -> Reply
    ensures { Replied (open_call img.old user file) img.old result img.new }
{
    edge::change::nord_note_open(img, user, file)
}

// Converts names and types from zeros behind a short one to an apostrophe and then zeros.
#[unsafe(no_mangle)]
pub extern "C" fn nord_convert_to_apostrophe(img: &mut [u16]) -> Reply
    ensures { Replied (to_apostrophe_call img.old) img.old result img.new }
{
    edge::change::nord_convert_to_apostrophe(img)
}

// And back to zeros.
#[unsafe(no_mangle)]
pub extern "C" fn nord_convert_to_zeros(img: &mut [u16]) -> Reply
    ensures { Replied (to_zeros_call img.old) img.old result img.new }
{
    edge::change::nord_convert_to_zeros(img)
}
