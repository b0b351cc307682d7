// Reads an image of at most 32 pages from standard input, high byte first, and lists it.
#![tactic(auto)]

ghost use Rattle.std.specs.Prelude.{◌≡◌, ◌+◌, ◌*◌, ◌≤◌, ◌<◌, IfOk, length, get_or, set};
ghost use Rattle.book.specs.Names.{words_of};
ghost use Rattle.lister.specs.Input.{WordsOf, Answered};

use std::io;
use std::io::Read;

// The bytes of 32 pages; the text for an image of so many is no longer.
const MOST: usize = 65536;

// Word i of the bytes s.
fn word_of(s: &[u8], i: usize) -> u16
    requires { 2 * i + 1 < length s.now }
    ensures { result ≡ words_of s.now i }
{
    u16::from_be_bytes([s[2 * i], s[2 * i + 1]])
}

// The image becomes the words of the bytes s.
fn words(s: &[u8], image: &mut [u16])
    requires { 2 * length image.old ≡ length s.now }
    ensures { WordsOf s.now image.new }
{
    for (i, word) in image.iter_mut().enumerate() {
        *word = word_of(s, i);
    }
}

// The text for the image of the bytes s stands at the front of the buffer, whole; its length.
fn answer(s: &[u8], image: &mut [u16], out: &mut [u8]) -> usize
    requires { (2 * length image.old ≡ length s.now) × (length s.now ≤ 65536) × (65536 ≤ length out.old) }
    ensures { Answered s.now out.new result }
{
    words(s, image);
    listing::list(image, out)
}

// Reads until the buffer is full or the input ends; the count of bytes that stand at its front. By hand: std's `read_exact` refuses an input that ends early, and its `read_to_end` needs a heap.
fn read_full<R: Read>(from: &mut R, buf: &mut [u8]) -> io::Result<usize>
    ensures { IfOk result (λ n. n ≤ length buf.new) }
{
    let mut done = 0;
    while done < buf.len() {
        match from.read(&mut buf[done..])? {
            0 => break,
            n => done += n,
        }
    }
    Ok(done)
}

// What is no image of at most 32 pages of words.
fn refuse(rt: &impl Print) -> io::Result<()> {
    rt.write_all(b"REFUSED 1\n")
}

fn main(rt: HostRuntime) -> io::Result<()> {
    let mut bytes = [0u8; MOST + 1];
    let n = read_full(&mut rt.stdin(), &mut bytes)?;
    if n > MOST || n % 2 != 0 {
        return refuse(&rt);
    }
    let mut image = [0u16; MOST / 2];
    let mut text = [0u8; MOST];
    let length = answer(&bytes[..n], &mut image[..n / 2], &mut text);
    rt.write_all(&text[..length])
}
