// Where the run of a new contiguous file will be, found before anything is written: the pages of its entry's place, the lowest free ones, count as reserved.
ghost use Rattle.std.specs.Prelude.{◌≡◌, ◌*◌, ◌≤◌, ◌<◌, length};
ghost use Rattle.book.specs.Words.{vol};
ghost use Rattle.book.specs.Bits.{lowest_free, highest_run};
ghost use Rattle.book.specs.Entries.{user, used, file_entry, unreserved};
ghost use Rattle.book.specs.Image.{pages, Ready, CountArg};
ghost use Rattle.book.specs.Create.{file_need, file_place};
ghost use Rattle.bits.specs.File.{BitsAt};
ghost use Rattle.making.specs.Spent.{after_lowest};

use bits::search::{free_from, highest_run};
use page::WORDS;
use seek::files::entry_number;
use seek::needs::file_need;

// The page after the n lowest free ones.
fn after_lowest(img: &[u16], b: usize, count: usize, n: u32) -> usize
    requires { (1024 * count ≤ length img.now) × BitsAt count (vol img.now) b }
    ensures { result ≡ after_lowest count (vol img.now) n }
{
    let mut s = 0;
    for _ in 0..n {
        s = free_from(img, b, count, s) + 1;
    }
    s
}

// The start of the run that a contiguous file f of user u, of n pages, will have; 0 if there is none, as `highest_run` of the clause has it.
pub fn find_run(img: &[u16], u: usize, f: usize, n: u32) -> usize
    requires { Ready img.now × (u < 256) × (0 < used (user (vol img.now) u)) × (f < 256) × (file_need (vol img.now) (file_entry u f) ≤ unreserved (vol img.now)) × CountArg n }
    ensures { result ≡ highest_run (pages img.now) (file_place (lowest_free (pages img.now)) (pages img.now) (vol img.now) (file_entry u f)) n }
{
    let count = img.len() / WORDS;
    let need = file_need(img, entry_number(u, f));
    let b = bits::bit_page(img);
    let left = after_lowest(img, b, count, need);
    let s = highest_run(img, b, count, n as usize);
    if s < left {
        return 0;
    }
    s
}
