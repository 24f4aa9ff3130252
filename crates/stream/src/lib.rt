// What the programs share: an image as it comes from a descriptor, and what they write, put into a buffer. Nothing is judged here.
#![tactic(auto)]

ghost use Rattle.std.specs.Prelude.{◌+◌, ◌≤◌, ◌≡◌, length, IfSome};
ghost use Rattle.octets.specs.Octets.{put};
ghost use Rattle.records.specs.Sizes.{largest_image};
ghost use Rattle.stream.specs.Decimal.{most_digits, decimal, column};
ghost use Rattle.stream.specs.Refusal.{image_refused, longest_refusal};
ghost use Rattle.stream.specs.PrintedLines.{line, longest_line, line_place, heading};

use records::{Header, image};
use rules::Answer;
use std::env::{Env, FillError};

// The descriptors that every program has. The programs write whole buffers of bytes on them, where `print!` would format text
// and end a program otherwise when a write fails.
pub const STDIN: i32 = 0;

pub const STDOUT: i32 = 1;

pub const STDERR: i32 = 2;

// Reads a header and then the bytes up to the total that it tells, and answers how many came: fewer where the input
// ends. Behind a header with a total that no image has, nothing more is read.
pub fn read_image(fd: i32, s: &mut [u8]) -> usize
    requires { length s.old ≡ largest_image }
    ensures { result ≤ length s.new }
{
    let got = io::read_full(fd, &mut s[..Header::SIZE]);
    let total = Header::total(s) as usize;
    if got < Header::SIZE {
        return got;
    }
    if total < Header::SIZE {
        return Header::SIZE;
    }
    if image::LARGEST < total {
        return Header::SIZE;
    }
    let more = io::read_full(fd, &mut s[Header::SIZE..total]);
    Header::SIZE + more
}

// ---- the words of the command line

// Puts word i, if there is one, at the start of a buffer and answers how long it is: 0 where the buffer has no room for it.
pub fn word<R: Env>(rt: &R, i: usize, out: &mut [u8]) -> Option<usize>
    ensures { IfSome result (λ n. n ≤ length out.new) }
{
    match rt.arg(i, out) {
        Ok(n) => Some(n),
        Err(FillError::TooLong) => Some(0),
        Err(FillError::NotPresent) => None,
    }
}

// ---- text

// Text put at a place of a buffer that has room for it there.
pub fn put_text(out: &mut [u8], at: usize, text: &[u8])
    requires { at + length text.now ≤ length out.old }
    ensures { out.new ≡ put out.old at text.now }
{
    out[at..at + text.len()].copy_from_slice(text);
}

// A number in decimal digits put at a place of a buffer that has room for the longest there: the place behind it.
pub fn put_number(out: &mut [u8], at: usize, n: u64) -> usize
    requires { at + most_digits ≤ length out.old }
    ensures { (out.new ≡ put out.old at (decimal n)) × (result ≡ at + length (decimal n)) }
{
    let mut digits = [0u8; 20];
    let k = io::decimal(n, &mut digits);
    put_text(out, at, &digits[..k]);
    at + k
}

// A space and a number put at a place: the place behind them.
fn put_column(out: &mut [u8], at: usize, n: u64) -> usize
    requires { at + 1 + most_digits ≤ length out.old }
    ensures { (out.new ≡ put out.old at (column n)) × (result ≡ at + length (column n)) }
{
    put_text(out, at, b" ");
    put_number(out, at + 1, n)
}

// ---- what a run of `bench` writes, line by line

// No line is longer: five numbers of at most 20 digits, and a byte behind each.
pub const LONGEST_LINE: usize = 105;

// The first line, put at the start of a buffer: how long it is.
pub fn put_heading(out: &mut [u8]) -> usize
    requires { length heading ≤ length out.old }
    ensures { (out.new ≡ put out.old 0 heading) × (result ≡ length heading) }
{
    let text = b"event kind code domain links\n";
    put_text(out, 0, text);
    text.len()
}

// The line of an event's answer put at a place: the place behind it.
#[tactic(auto, using(crate::proofs::Texts::decimal_small))]
pub fn put_line(out: &mut [u8], at: usize, n: u64, kind: u8, a: Answer) -> usize
    requires { at + longest_line ≤ length out.old }
    ensures { (out.new ≡ put out.old at (line n kind a)) × (result ≡ at + length (line n kind a)) }
{
    let numbered = put_number(out, at, n);
    let kinded = put_column(out, numbered, kind as u64);
    let coded = put_column(out, kinded, a.code as u64);
    let placed = put_column(out, coded, a.domain as u64);
    let linked = put_column(out, placed, a.links as u64);
    put_text(out, linked, b"\n");
    linked + 1
}

// Where the next line goes: behind what is collected or, where there is no room for it, at the start once that is written.
fn room(out: &[u8], used: usize) -> usize
    requires { (used ≤ length out.now) × (longest_line ≤ length out.now) }
    ensures { result ≡ line_place used (length out.now) }
{
    if LONGEST_LINE <= out.len() - used {
        return used;
    }
    io::write_all(STDOUT, &out[..used]);
    0
}

// The line of an event's answer put behind what is collected, in a buffer that is written to standard output when it is full: how much is collected then.
pub fn add_line(out: &mut [u8], used: usize, n: u64, kind: u8, a: Answer) -> usize
    requires { (used ≤ length out.old) × (longest_line ≤ length out.old) }
    ensures { (out.new ≡ put out.old (line_place used (length out.old)) (line n kind a))
        × (result ≡ line_place used (length out.old) + length (line n kind a)) }
{
    let at = room(out, used);
    put_line(out, at, n, kind, a)
}

// The line of an image that is refused, put at the start of a buffer: how long it is.
#[tactic(auto, using(crate::proofs::Texts::decimal_small))]
pub fn put_refusal(out: &mut [u8], rule: u8, offset: u16) -> usize
    requires { longest_refusal ≤ length out.old }
    ensures { (out.new ≡ put out.old 0 (image_refused rule offset)) × (result ≡ length (image_refused rule offset)) }
{
    put_text(out, 0, b"image 1");
    let ruled = put_column(out, 7, rule as u64);
    let placed = put_column(out, ruled, offset as u64);
    put_text(out, placed, b"\n");
    placed + 1
}
