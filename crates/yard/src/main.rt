// Runs document 01's yard examples that are not marked, a case for each refusal number and one for each broken rule, and says of each
// whether it came out as the document has it. Volumes of thousands of pages are beyond a program's stack: host/c/yard.c runs those.
#![tactic(auto)]

mod disk;
mod refusals;
mod rules;
mod say;

use say::WORDS;
use std::io;

// Lengths of volumes.
fn sizes(rt: &impl Print) -> io::Result<()> {
    let mut eight = [0; 8 * WORDS];
    disk::passes(rt, &mut eight)?;
    let mut seven = [0; 7 * WORDS];
    disk::too_small(rt, &mut seven)?;
    let mut odd = [0; 8 * WORDS + 1];
    disk::too_small(rt, &mut odd)
}

// The yard's own disk, and as many users as there can be.
fn yard(rt: &impl Print) -> io::Result<()> {
    let mut image = [0; 154 * WORDS];
    disk::first_day(rt, &mut image)?;
    refusals::all_users(rt, &mut image)
}

// Refusals and broken rules, each on a small disk.
fn small(rt: &impl Print) -> io::Result<()> {
    let mut image = [0; 16 * WORDS];
    refusals::numbers(rt, &mut image)?;
    let mut other = [0; 16 * WORDS];
    rules::rules(rt, &mut other)
}

fn main(rt: HostRuntime) -> io::Result<()> {
    sizes(&rt)?;
    yard(&rt)?;
    small(&rt)?;
    say::end(&rt)
}
