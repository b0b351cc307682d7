// The places of rule 7 in one used object: its bytes, its pointer, its blocks.
ghost use Rattle.std.specs.Prelude.{◌≡◌, ◌+◌, ◌-◌, ◌*◌, ◌/◌, ◌≤◌, ◌<◌};
ghost use Rattle.book.specs.Words.{vol};
ghost use Rattle.book.specs.Pointers.{slot};
ghost use Rattle.book.specs.Image.{pages, most_pages};
ghost use Rattle.book.specs.Decides.{Decides};
ghost use Rattle.heads.specs.Slots.{Block};
ghost use Rattle.book.specs.Spots.{AllHold, each};
ghost use Rattle.places.specs.Found.{Finds, ObjectAt};
ghost use Rattle.book.specs.Places.{Must, pointers, PointerRight, block_spots};
ghost use Rattle.places.specs.Rows.{shape_spots};

use crate::block::block;
use crate::entry::place_of;
use book::Place;
use page::entry::{BYTES, PAGES, POINTER};
use page::read::{Pointer, slot_at};
use shape::file::{bytes_ok, run_ok};
use tree::entry::{entry_pointer, entry_two};

// Whether page t is a block of a file of n pages, of which there are from..to.
fn block_ok(total: usize, t: usize, n: usize, from: usize, to: usize) -> bool
    ensures { Decides result ((from ≤ n) × (n ≤ to) × (0 < t) × (t < total)) }
{
    from <= n && n <= to && 0 < t && t < total
}

// Whether a pointer with these flags to page t fits a page count.
fn pointer_ok(total: usize, pointer: Pointer, n: usize) -> bool
    requires { (pointer.page < 4294967296) × (n < 4294967296) }
    ensures { Decides result (PointerRight total pointer.flags pointer.page n) }
{
    if pointer.flags == 0 {
        return run_ok(total, pointer.page, n);
    }
    if pointer.flags == 1 {
        return block_ok(total, pointer.page, n, 1, 512);
    }
    if pointer.flags == 2 {
        return block_ok(total, pointer.page, n, 513, 262144);
    }
    false
}

// The first place of the m index blocks under subindex block t of a file of n pages; block i has the positions from 512 i on.
fn indexes(img: &[u16], total: usize, t: usize, n: usize, m: usize) -> Option<Place>
    requires { Block img.now total t × AllHold (pointers (vol img.now) t (Must (pages img.now) m)) × (m ≤ 512) }
    ensures { Finds (each m (λ i. pointers (vol img.now) (slot (vol img.now) t i) (Must (pages img.now) (n - i * 512)))) result }
{
    for i in 0..m {
        let b = slot_at(img, t, i);
        let k = n.saturating_sub(i * 512);
        if let Some(place) = block(img, total, 1, k, b) {
            return Some(place);
        }
    }
    None
}

// The first place of subindex block t of a file of n pages, and of the index blocks.
fn subindex(img: &[u16], total: usize, t: usize, n: usize) -> Option<Place>
    requires { Block img.now total t × (n ≤ 262144) }
    ensures { Finds (block_spots (pages img.now) (vol img.now) 2 t n) result }
{
    let m = (n + 511) / 512;
    if let Some(place) = block(img, total, 1, m, t) {
        return Some(place);
    }
    indexes(img, total, t, n, m)
}

// The first place of the blocks of a file whose pointer is right.
fn blocks(img: &[u16], total: usize, pointer: Pointer, n: usize) -> Option<Place>
    requires { PointerRight (pages img.now) pointer.flags pointer.page n × (total ≡ pages img.now) × (total ≤ most_pages) }
    ensures { Finds (block_spots (pages img.now) (vol img.now) pointer.flags pointer.page n) result }
{
    if pointer.flags == 1 {
        return block(img, total, 1, n, pointer.page);
    }
    if pointer.flags == 2 {
        return subindex(img, total, pointer.page, n);
    }
    None
}

// The first place of the file in object entry e, which is used and lies on page q.
pub fn file(img: &[u16], total: usize, q: usize, e: usize) -> Option<Place>
    requires { ObjectAt img.now total q e }
    ensures { Finds (shape_spots (pages img.now) (vol img.now) e) result }
{
    let n = entry_two(img, q, e, PAGES);
    if !bytes_ok(n, entry_two(img, q, e, BYTES)) {
        return Some(place_of(q, e, BYTES));
    }
    let pointer = entry_pointer(img, q, e, POINTER);
    let count = n as usize;
    if !pointer_ok(total, pointer, count) {
        return Some(place_of(q, e, POINTER));
    }
    blocks(img, total, pointer, count)
}
