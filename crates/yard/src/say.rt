// What is written for a case, and how answers and words are compared.
use edge::spell::Reply;
use std::io;

// The words of a page.
pub const WORDS: usize = 1024;

// A line for a case: its name, after `ok` or `WRONG`.
pub fn case(rt: &impl Print, name: &str, ok: bool) -> io::Result<()> {
    let word = if ok { "ok" } else { "WRONG" };
    println!(rt; "{word:<5} {name}")
}

// The last line: all cases were run.
pub fn end(rt: &impl Print) -> io::Result<()> {
    println!(rt; "end")
}

// Whether these three are zeros.
fn zeros(user: u32, file: u32, position: u32) -> bool {
    user == 0 && file == 0 && position == 0
}

// Whether two holders of these kinds are told, each at position 0 of user 0 and file 0.
pub fn held(r: Reply, first: u32, second: u32) -> bool {
    r.first.kind == first
        && r.second.kind == second
        && zeros(r.first.user, r.first.file, r.first.position)
        && zeros(r.second.user, r.second.file, r.second.position)
}

// Whether this rule and this place are told.
fn told(r: Reply, rule: u32, page: u32, word: u32) -> bool {
    r.rule == rule && r.place.page == page && r.place.word == word
}

// Whether a call was done, with this value.
pub fn done(r: Reply, value: u32) -> bool {
    r.number == 0 && r.value == value && told(r, 0, 0, 0) && held(r, 0, 0)
}

// Whether a call was refused with this number, which is not 3.
pub fn refused(r: Reply, number: u32) -> bool {
    r.number == number && r.value == 0 && told(r, 0, 0, 0) && held(r, 0, 0)
}

// Whether a call was refused with 3, this rule and this place.
pub fn broken(r: Reply, rule: u32, page: u32, word: u32) -> bool {
    r.number == 3 && r.value == 0 && told(r, rule, page, word)
}

// Where word k of page p lies.
fn place(p: u16, k: u16) -> usize {
    WORDS * usize::from(p) + usize::from(k)
}

// Word k of page p; 0 past the end.
pub fn word(img: &[u16], p: u16, k: u16) -> u16 {
    img.get(place(p, k)).copied().unwrap_or(0)
}

// Whether the two-word number at word k of page p is x.
pub fn two(img: &[u16], p: u16, k: u16, x: u16) -> bool {
    k <= 1022 && word(img, p, k) == 0 && word(img, p, k + 1) == x
}

// Word k of page p becomes x; past the end nothing does.
pub fn put(img: &mut [u16], p: u16, k: u16, x: u16) {
    if let Some(word) = img.get_mut(place(p, k)) {
        *word = x;
    }
}
