// Shrinking an indexed file by one page returns the pages that growing took: the slot goes if its block stays, then the entries are written, then the pages are freed.
ghost use Rattle.std.specs.Prelude.{◌≡◌, ◌-◌, ◌%◌, ◌<◌};
ghost use Rattle.book.specs.Words.{vol};
ghost use Rattle.book.specs.Entries.{object, used, file_entry};
ghost use Rattle.book.specs.Image.{pages, Ready};
ghost use Rattle.book.specs.Calls.{Shrinks};
ghost use Rattle.book.specs.Grow.{first as firstPhase, onward as onwardPhase, raise as raisePhase, block as blockPhase};
ghost use Rattle.book.specs.Shrink.{shrink, shrink_to};
ghost use Rattle.growth.specs.Head.{Shrinking};

use crate::entries::{Head, enter, head_of, index_of, set_slot};
use page::read::{Pointer, slot_at};
use page::{INDEXED, SUBINDEXED};

// The last position leaves its index block, which stays.
fn back(img: &mut [u16], u: usize, f: usize, h: Head)
    requires { Shrinking img.old u f h × (0 < (h.count - 1) % 512) }
    ensures { vol img.new ≡ shrink_to (pages img.old) (vol img.old) u f onwardPhase }
{
    let last = h.count - 1;
    let k = last % 512;
    let i = index_of(img, h.pointer, last);
    let d = slot_at(img, i, k);
    set_slot(img, i, k, 0);
    enter(img, u, f, h, last, h.pointer, h.used - 1);
    bits::clear(img, h.bits, d);
}

// The only page goes with its index block.
fn empty(img: &mut [u16], u: usize, f: usize, h: Head)
    requires { Shrinking img.old u f h × (h.count ≡ 1) }
    ensures { vol img.new ≡ shrink_to (pages img.old) (vol img.old) u f firstPhase }
{
    let t = h.pointer.page;
    let d = slot_at(img, t, 0);
    let root = Pointer { flags: 0, page: 0 };
    enter(img, u, f, h, 0, root, h.used - 2);
    bits::clear(img, h.bits, d);
    bits::clear(img, h.bits, t);
}

// Page 513 goes with its index block and the subindex block: the first index block is left.
fn lower(img: &mut [u16], u: usize, f: usize, h: Head)
    requires { Shrinking img.old u f h × (h.count ≡ 513) }
    ensures { vol img.new ≡ shrink_to (pages img.old) (vol img.old) u f raisePhase }
{
    let t = h.pointer.page;
    let left = slot_at(img, t, 0);
    let b = slot_at(img, t, 1);
    let d = slot_at(img, b, 0);
    let root = Pointer {
        flags: INDEXED,
        page: left,
    };
    enter(img, u, f, h, 512, root, h.used - 3);
    bits::clear(img, h.bits, d);
    bits::clear(img, h.bits, b);
    bits::clear(img, h.bits, t);
}

// The last page goes with its index block, which leaves the subindex block.
fn block(img: &mut [u16], u: usize, f: usize, h: Head)
    requires { Shrinking img.old u f h × ((h.count - 1) % 512 ≡ 0) × (513 < h.count) }
    ensures { vol img.new ≡ shrink_to (pages img.old) (vol img.old) u f blockPhase }
{
    let last = h.count - 1;
    let k = last / 512;
    let b = slot_at(img, h.pointer.page, k);
    let d = slot_at(img, b, 0);
    set_slot(img, h.pointer.page, k, 0);
    let root = Pointer {
        flags: SUBINDEXED,
        page: h.pointer.page,
    };
    enter(img, u, f, h, last, root, h.used - 2);
    bits::clear(img, h.bits, d);
    bits::clear(img, h.bits, b);
}

// By the last position.
fn shrink_head(img: &mut [u16], u: usize, f: usize, h: Head)
    requires { Shrinking img.old u f h }
    ensures { vol img.new ≡ shrink (pages img.old) (vol img.old) u f }
{
    match h.count - 1 {
        0 => empty(img, u, f, h),
        512 => lower(img, u, f, h),
        last if last % 512 == 0 => block(img, u, f, h),
        _ => back(img, u, f, h),
    }
}

// File f of user u shrinks by one page.
pub fn shrink_step(img: &mut [u16], u: usize, f: usize)
    requires { Ready img.old × (u < 256) × (f < 256) × (0 < used (object (vol img.old) (file_entry u f))) × Shrinks (vol img.old) (file_entry u f) }
    ensures { vol img.new ≡ shrink (pages img.old) (vol img.old) u f }
{
    let h = head_of(img, u, f);
    shrink_head(img, u, f, h);
}
