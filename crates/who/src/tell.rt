// Who holds a page, and the first two who hold one.
ghost use Rattle.std.specs.Prelude.{◌≡◌, ℕ, ◌/◌, ◌%◌, ◌≤◌, ◌<◌};
ghost use Rattle.book.specs.Words.{vol};
ghost use Rattle.book.specs.Holders.{holders, Told};
ghost use Rattle.book.specs.Image.{pages, Ready};
ghost use Rattle.book.specs.Pair.{FirstTwo};
ghost use Rattle.book.specs.Rules.{Rule2};
ghost use Rattle.laws.specs.Count.Holder.{file_holder};
ghost use Rattle.tree.specs.Ends.{Ends};
ghost use Rattle.walk.specs.Held.{Volume};
ghost use Rattle.who.specs.Turns.{all_turns, file_role, holder_by, holder_at};

use crate::kinds::turn_from;
use crate::{BLOCK_TURNS, DATA_TURNS, POSITIONS, TURNS};
use book::{FileHolder, Holder, Role};
use page::BITS;
use page::read::page_at;
use tree::root::object_ends;

// The role of a class and a position.
fn role(class: usize, position: u32) -> Role
    requires { class < 3 }
    ensures { result ≡ file_role class position }
{
    match class {
        0 => Role::Subindex,
        1 => Role::Index { position },
        _ => Role::Data { position },
    }
}

// The page at this position of a kind of system pages.
fn system_holder(kind: usize, position: u32) -> Holder
    requires { kind < 8 }
    ensures { (e : ℕ) → result ≡ holder_by kind e position }
{
    match kind {
        0 => Holder::Free,
        1 => Holder::Master,
        2 => Holder::BitFile { position },
        3 => Holder::UserIndex,
        4 => Holder::UserPage { position },
        5 => Holder::ObjectSubindex,
        6 => Holder::ObjectIndex { position },
        _ => Holder::ObjectPage { position },
    }
}

// The page at this position of a class in the file of object entry e.
fn file_holder(class: usize, e: usize, position: u32) -> Holder
    requires { (class < 3) × (e < 65536) }
    ensures { result ≡ file_holder (e / 256) (e % 256) (file_role class position) }
{
    Holder::File {
        holder: FileHolder {
            user: (e / 256) as u16,
            file: (e % 256) as u16,
            role: role(class, position),
        },
    }
}

// The holder whose turn is x.
fn holder_at(x: usize) -> Holder
    requires { x < all_turns }
    ensures { result ≡ holder_at x }
{
    let kind = x / TURNS;
    let position = (x % POSITIONS) as u32;
    if kind < 8 {
        return system_holder(kind, position);
    }
    file_holder(kind - 8, x % TURNS / POSITIONS, position)
}

// Who holds page p: nobody where its bit is 0, and else one alone, so the search is made where it is shortest: in the system pages, then in the files'
// data pages, which are the most, then in their blocks.
pub fn who(img: &[u16], p: usize) -> Holder
    requires { Ready img.now × (p < pages img.now) }
    ensures { Told (pages img.now) (vol img.now) p result }
{
    if p == 0 {
        return Holder::Master;
    }
    let b = page_at(img, 0, BITS) as usize;
    if bits::test(img, b, p) == 0 {
        return Holder::Free;
    }
    let ends = object_ends(img);
    if let Some(system) = turn_from(img, ends, 0, 8, p) {
        return holder_at(system);
    }
    if let Some(data) = turn_from(img, ends, DATA_TURNS, 11, p) {
        return holder_at(data);
    }
    if let Some(block) = turn_from(img, ends, BLOCK_TURNS, 10, p) {
        return holder_at(block);
    }
    Holder::Free
}

// The first two who hold page p, which is held twice at least. The object file ends at position `ends`.
pub fn first_two(img: &[u16], ends: usize, p: usize) -> (Holder, Holder)
    requires { Volume img.now × Rule2 (pages img.now) (vol img.now) × Ends img.now ends × (p < pages img.now) × (2 ≤ holders (pages img.now) (vol img.now) p) }
    ensures { FirstTwo (pages img.now) (vol img.now) p result.0 result.1 }
{
    let x = turn_from(img, ends, 0, 11, p).unwrap();
    let y = turn_from(img, ends, x + 1, 11, p).unwrap();
    (holder_at(x), holder_at(y))
}
