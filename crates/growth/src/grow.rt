// Growing an indexed file by one page: the pages are taken in the order written, then the slots are set, then the entries.
ghost use Rattle.std.specs.Prelude.{◌≡◌, ◌%◌, ◌/◌, ◌≤◌, ◌<◌};
ghost use Rattle.book.specs.Words.{vol};
ghost use Rattle.book.specs.Bits.{lowest_free};
ghost use Rattle.book.specs.Entries.{object, used, spare, page_count, file_entry};
ghost use Rattle.book.specs.Files.{need};
ghost use Rattle.book.specs.Image.{pages, Ready};
ghost use Rattle.book.specs.Calls.{Grows};
ghost use Rattle.book.specs.Grow.{grow, grow_to, first as firstPhase, onward as onwardPhase, raise as raisePhase, block as blockPhase};
ghost use Rattle.growth.specs.Head.{Growing};

use crate::entries::{Head, enter, head_of, index_of, set_slot};
use page::read::Pointer;
use page::{INDEXED, SUBINDEXED};

// Position n goes into the index block at hand.
fn onward(img: &mut [u16], u: usize, f: usize, h: Head) -> usize
    requires { Growing img.old u f h × (0 < h.count % 512) }
    ensures { (result ≡ lowest_free (pages img.old) (vol img.old)) × (result < pages img.old) × (vol img.new ≡ grow_to (lowest_free (pages img.old)) (pages img.old) (vol img.old) u f onwardPhase) }
{
    let n = h.count;
    let i = index_of(img, h.pointer, n);
    let d = bits::take(img, h.bits);
    set_slot(img, i, n % 512, d);
    enter(img, u, f, h, n + 1, h.pointer, h.used + 1);
    d
}

// Position 0 goes into a first index block.
fn first(img: &mut [u16], u: usize, f: usize, h: Head) -> usize
    requires { Growing img.old u f h × (h.count ≡ 0) }
    ensures { (result ≡ lowest_free (pages img.old) (vol img.old)) × (result < pages img.old) × (vol img.new ≡ grow_to (lowest_free (pages img.old)) (pages img.old) (vol img.old) u f firstPhase) }
{
    let d = bits::take(img, h.bits);
    let b = bits::take(img, h.bits);
    set_slot(img, b, 0, d);
    let root = Pointer {
        flags: INDEXED,
        page: b,
    };
    enter(img, u, f, h, 1, root, h.used + 2);
    d
}

// Position 512 goes into a second index block, and both blocks into a subindex block.
fn raise(img: &mut [u16], u: usize, f: usize, h: Head) -> usize
    requires { Growing img.old u f h × (h.count ≡ 512) }
    ensures { (result ≡ lowest_free (pages img.old) (vol img.old)) × (result < pages img.old) × (vol img.new ≡ grow_to (lowest_free (pages img.old)) (pages img.old) (vol img.old) u f raisePhase) }
{
    let d = bits::take(img, h.bits);
    let b = bits::take(img, h.bits);
    let s = bits::take(img, h.bits);
    set_slot(img, s, 0, h.pointer.page);
    set_slot(img, s, 1, b);
    set_slot(img, b, 0, d);
    let root = Pointer {
        flags: SUBINDEXED,
        page: s,
    };
    enter(img, u, f, h, 513, root, h.used + 3);
    d
}

// Position n goes into one more index block.
fn block(img: &mut [u16], u: usize, f: usize, h: Head) -> usize
    requires { Growing img.old u f h × (h.count % 512 ≡ 0) × (512 < h.count) }
    ensures { (result ≡ lowest_free (pages img.old) (vol img.old)) × (result < pages img.old) × (vol img.new ≡ grow_to (lowest_free (pages img.old)) (pages img.old) (vol img.old) u f blockPhase) }
{
    let n = h.count;
    let d = bits::take(img, h.bits);
    let b = bits::take(img, h.bits);
    set_slot(img, h.pointer.page, n / 512, b);
    set_slot(img, b, 0, d);
    let root = Pointer {
        flags: SUBINDEXED,
        page: h.pointer.page,
    };
    enter(img, u, f, h, n + 1, root, h.used + 2);
    d
}

// By the number of pages. One function for each phase, here and in shrinking: `grow_to` and `shrink_to` of the book have one volume for each, and no two differ in a number alone.
fn grow_head(img: &mut [u16], u: usize, f: usize, h: Head) -> usize
    requires { Growing img.old u f h }
    ensures { (result ≡ lowest_free (pages img.old) (vol img.old)) × (result < pages img.old) × (vol img.new ≡ grow (lowest_free (pages img.old)) (pages img.old) (vol img.old) u f) }
{
    match h.count {
        0 => first(img, u, f, h),
        512 => raise(img, u, f, h),
        n if n % 512 == 0 => block(img, u, f, h),
        _ => onward(img, u, f, h),
    }
}

// File f of user u grows by one page; its number comes back.
pub fn grow_step(img: &mut [u16], u: usize, f: usize) -> u32
    requires { Ready img.old × (u < 256) × (f < 256) × (0 < used (object (vol img.old) (file_entry u f))) × Grows (vol img.old) (file_entry u f) × (need (page_count (object (vol img.old) (file_entry u f))) ≤ spare (vol img.old) u) }
    ensures { (vol img.new ≡ grow (lowest_free (pages img.old)) (pages img.old) (vol img.old) u f) × (result ≡ lowest_free (pages img.old) (vol img.old)) }
{
    let h = head_of(img, u, f);
    grow_head(img, u, f, h) as u32
}
