// The pages that a step asks for: a new user, a new file, one page more.
ghost use Rattle.std.specs.Prelude.{◌≡◌, ◌-◌, ◌≤◌, ◌<◌};
ghost use Rattle.book.specs.Words.{vol};
ghost use Rattle.book.specs.Files.{need as need_of};
ghost use Rattle.book.specs.Image.{pages, Ready};
ghost use Rattle.book.specs.Create.{raises as raisesFor, user_need, object_index, file_need};

use page::entry::EntryPlace;
use page::read::{flags_at, page_at, slot_at};
use page::{OBJECTS, USERS};
use tree::root::{object_page, user_page};

// What a file of n pages takes to grow by one.
pub fn need(n: u32) -> u32
    ensures { (result ≡ need_of n) × (result ≤ 3) }
{
    if n == 512 {
        3
    } else if n % 512 == 0 {
        2
    } else {
        1
    }
}

// 1 for a page that is absent.
fn absent(q: usize) -> u32
    ensures { result ≡ 1 - q }
{
    u32::from(q == 0)
}

// 1 if user u asks for a subindex block.
pub fn raises(img: &[u16], u: usize) -> u32
    requires { Ready img.now }
    ensures { (result ≡ raisesFor (vol img.now) u) × (result ≤ 1) }
{
    u32::from(flags_at(img, 0, OBJECTS) == 1 && u >= 64)
}

// The system pages that a new user u asks for: three the first time ever.
pub fn user_need(img: &[u16], u: usize) -> u32
    requires { Ready img.now }
    ensures { (result ≡ user_need (vol img.now) u) × (result ≤ 3) }
{
    if page_at(img, 0, USERS) == 0 {
        return 3;
    }
    absent(user_page(img, u)) + raises(img, u)
}

// The object index block that holds the page of object entry e, 0 where it is absent.
pub fn object_index(img: &[u16], e: usize) -> usize
    requires { Ready img.now × (e < 65536) }
    ensures { (result ≡ object_index (vol img.now) e) × (result < pages img.now) }
{
    let top = page_at(img, 0, OBJECTS) as usize;
    match flags_at(img, 0, OBJECTS) {
        0 => 0,
        1 => top,
        _ => slot_at(img, top, EntryPlace::of(e).page / 512),
    }
}

// The system pages that a new file in object entry e asks for.
pub fn file_need(img: &[u16], e: usize) -> u32
    requires { Ready img.now × (e < 65536) }
    ensures { (result ≡ file_need (vol img.now) e) × (result ≤ 2) }
{
    absent(object_index(img, e)) + absent(object_page(img, e))
}
