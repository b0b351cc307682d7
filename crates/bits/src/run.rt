// Runs of 16 free pages and more, for a search that comes from the top: what it finds in a word, and what it takes along to the next.
ghost use Rattle.std.specs.Prelude.{◌≤◌, ◌<◌};
ghost use Rattle.book.specs.Image.{most_pages};
ghost use Rattle.bits.specs.Run.{RunIn, LeftIn};

use crate::word::{zeros_above, zeros_below};

// A word from here on has its highest bit set.
const HIGHEST: u16 = 32768;

// The start in w of a run of n that goes on in `run` free pages above the word.
pub(crate) fn run_in(w: u16, run: usize, n: usize) -> Option<usize>
    requires { (run < n) × (16 ≤ n) }
    ensures { RunIn w run n result }
{
    if HIGHEST <= w {
        return None;
    }
    let more = n - run;
    if more <= zeros_above(w) {
        return Some(16 - more);
    }
    None
}

// The free pages in a row from the start of w on, where `run` follow on the word.
pub(crate) fn left_in(w: u16, run: usize) -> usize
    requires { run ≤ most_pages }
    ensures { LeftIn w run result }
{
    if w % 2 == 1 {
        return 0;
    }
    if w == 0 {
        return 16 + run;
    }
    zeros_below(w)
}
