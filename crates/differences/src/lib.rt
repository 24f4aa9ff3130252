// What `bench` would write of the answers of a stored case, held against what is stored, and so the image afterwards: what
// differs is said.
#![tactic(auto)]

ghost use Rattle.std.specs.Prelude.{◌+◌, ◌≤◌, ◌<◌, true, ◌≡◌, ◌≢◌, ℕ, length, take, slice_index};
ghost use Rattle.octets.specs.Octets.{put};
ghost use Rattle.differences.specs.Compared.{FirstDifference, Differ};
ghost use Rattle.differences.specs.WrittenAnswers.{answer_of, told_line, opened_line, kind_at, text_room, written};
ghost use Rattle.stream.specs.PrintedLines.{longest_line};

use records::{Card, Certificate, Event, Executable, Header, Row};
use rules::Answer;
use stream::STDOUT;

// The ways: a run with room for every answer, runs with room for seven answers each, and a step for each event.
#[derive(Clone, Copy)]
pub enum Way {
    Whole,
    Pieces,
    Steps,
}

// A stored case by its name, and the way that it goes.
#[derive(Clone, Copy)]
pub struct Case<'a> {
    pub name: &'a [u8],
    pub way: Way,
}

fn say(text: &[u8]) {
    io::write_all(STDOUT, text);
}

fn say_number(n: u64) {
    io::print_decimal(STDOUT, n);
}

// ---- an answer

// The parts of an answer that is told as one number, as bindings/monitor.h takes them apart.
pub fn answer_of(told: u64) -> Answer
    ensures { result ≡ answer_of told }
{
    Answer {
        code: ((told >> 16) % 256) as u8,
        domain: ((told >> 8) % 256) as u8,
        links: (told % 256) as u8,
        rule: ((told >> 24) % 256) as u8,
        offset: ((told >> 32) % 65536) as u16,
    }
}

// ---- what bench would write

// The line of the n-th event or, where a rule and a byte are told, that of a refused image. That is told the same at every
// event, and written once. An answer that is neither shows by its number.
#[tactic(auto, using(octets::proofs::ByteLaws::put_none), unfolding(crate::specs::WrittenAnswers::told_line))]
fn put_told(got: &mut [u8], at: usize, opened: u64, n: u64, kind: u8, told: u64) -> usize
    requires { at + longest_line ≤ length got.old }
    ensures { (got.new ≡ put got.old at (told_line opened n kind told))
        × (result ≡ at + length (told_line opened n kind told)) }
{
    let a = answer_of(told);
    if told >> 24 == 0 {
        return stream::put_line(got, at, n, kind, a);
    }
    if told == opened {
        return at;
    }
    if told % 16777216 != 65536 {
        return stream::put_line(got, at, told, kind, a);
    }
    at + stream::put_refusal(&mut got[at..], a.rule, a.offset)
}

// What opening tells of an image that is refused.
#[tactic(auto, using(octets::proofs::ByteLaws::put_none), unfolding(crate::specs::WrittenAnswers::opened_line))]
fn put_opened(got: &mut [u8], at: usize, opened: u64) -> usize
    requires { at + longest_line ≤ length got.old }
    ensures { (got.new ≡ put got.old at (opened_line opened)) × (result ≡ at + length (opened_line opened)) }
{
    if opened == 0 {
        return at;
    }
    put_told(got, at, 0, 0, 0, opened)
}

// The kind of the i-th event, its first byte; 0 where there is none.
pub fn kind_of(events: &[u8], i: usize) -> u8
    requires { i < 4096 }
    ensures { result ≡ kind_at events.now i }
{
    let at = i * Event::SIZE;
    if at < events.len() {
        return events[at];
    }
    0
}

// All of it put at the start of a buffer, as far as there is room: how long it is.
fn write_answers(got: &mut [u8], opened: u64, events: &[u8], told: &[u64]) -> usize
    requires { (length got.old ≡ text_room) × (length told.now ≤ 4096) }
    ensures got_after { take result got.new ≡ written opened events.now told.now }
    ensures upper_bound { result ≤ length got.new }
{
    let headed = stream::put_heading(got);
    let mut at = put_opened(got, headed, opened);
    for (i, t) in told.iter().enumerate() {
        if got.len() < at + stream::LONGEST_LINE {
            return at;
        }
        at = put_told(got, at, opened, i as u64 + 1, kind_of(events, i), *t);
    }
    at
}

// ---- what differs

fn say_way(way: Way) {
    match way {
        Way::Whole => {}
        Way::Pieces => say(b" in pieces"),
        Way::Steps => say(b" by steps"),
    }
}

// The first place at which two buffers differ, or the shorter one's end.
fn first_difference(a: &[u8], b: &[u8]) -> usize
    ensures { FirstDifference a.now b.now result }
{
    let shorter = a.len().min(b.len());
    for i in 0..shorter {
        if a[i] != b[i] {
            return i;
        }
    }
    shorter
}

// A line of a text: which it is, the first one counted 1, and where it begins.
#[derive(Clone, Copy)]
struct Line {
    number: usize,
    start: usize,
}

// The line that byte `at` of a text is in.
fn line_of(text: &[u8], at: usize) -> Line
    requires { (at ≤ length text.now) × (at ≤ 65536) }
    ensures { result.start ≤ at }
{
    let before = &text[..at];
    Line {
        number: before.iter().filter(|c| **c == b'\n').count() + 1,
        start: before
            .iter()
            .rposition(|c| *c == b'\n')
            .map_or(0, |i| i + 1),
    }
}

// The first place from a place on where a byte stands, or the end.
pub fn find(text: &[u8], from: usize, b: u8) -> usize
    requires { from ≤ length text.now }
    ensures lower_bound { from ≤ result }
    ensures upper_bound { result ≤ length text.now }
    ensures none_before { (k : ℕ) → from ≤ k → k < result → slice_index text.now k ≢ b }
    ensures there { result < length text.now → slice_index text.now result ≡ b }
{
    for i in from..text.len() {
        if text[i] == b {
            return i;
        }
    }
    text.len()
}

fn say_line(text: &[u8], start: usize)
    requires { start ≤ length text.now }
{
    if start == text.len() {
        say(b"nothing");
        return;
    }
    let end = find(text, start, b'\n');
    say(&text[start..end]);
}

// The line of what would be written that byte `at` is in, and what is stored in its place.
fn tell_line(case: Case<'_>, got: &[u8], want: &[u8], at: usize)
    requires { (at ≤ length got.now) × (at ≤ length want.now) × (at ≤ 65536) }
{
    let line = line_of(got, at);
    case.tell(b" line ");
    say_number(line.number as u64);
    say(b": got ");
    say_line(got, line.start);
    say(b", expected ");
    say_line(want, line.start);
    say(b"\n");
}

// Whether what would be written is not what is stored; the first line that differs is said.
fn text_differs(case: Case<'_>, got: &[u8], want: &[u8]) -> bool
    requires { length got.now ≤ 65536 }
    ensures { Differ got.now want.now result }
{
    if got == want {
        return false;
    }
    tell_line(case, got, want, first_difference(got, want));
    true
}

// ---- the image afterwards

// The part of an image that holds byte `at`, as the offsets of its header say, and the record and the byte in it.
fn tell_record(part: &[u8], at: usize, size: usize)
    requires { 0 < size }
{
    say(part);
    say_number((at / size) as u64);
    say(b" byte ");
    say_number((at % size) as u64);
}

fn tell_part(image: &[u8], at: usize) {
    if image.len() < Header::SIZE {
        tell_record(b" header ", at, Header::SIZE);
        return;
    }
    let certificates = Header::certificates_at(image) as usize;
    let cards = Header::cards_at(image) as usize;
    let executables = Header::executables_at(image) as usize;
    let table = Header::table_at(image) as usize;
    if at < certificates {
        tell_record(b" header ", at, Header::SIZE);
        return;
    }
    if at < cards {
        tell_record(b" certificate ", at - certificates, Certificate::SIZE);
        return;
    }
    if at < executables {
        tell_record(b" card ", at - cards, Card::SIZE);
        return;
    }
    if at < table {
        tell_record(b" executable ", at - executables, Executable::SIZE);
        return;
    }
    tell_record(b" action ", at - table, Row::SIZE);
}

fn tell_values(got: u64, want: u64) {
    say_number(got);
    say(b", expected ");
    say_number(want);
    say(b"\n");
}

// ---- a case

impl Case<'_> {
    // Says something of the case, and answers true. What is written on a descriptor is the system's.
    pub fn tell(self, what: &[u8]) -> bool
        ensures { result ≡ true }
    {
        say(b"case ");
        say(self.name);
        say_way(self.way);
        say(what);
        true
    }

    // Whether the image is not as expected; its length is said, or its first byte that differs, by its record.
    pub fn image_differs(self, image: &[u8], want: &[u8]) -> bool
        ensures { Differ image.now want.now result }
    {
        if image == want {
            return false;
        }
        if image.len() != want.len() {
            self.tell(b" image length ");
            tell_values(image.len() as u64, want.len() as u64);
            return true;
        }
        let at = first_difference(image, want);
        self.tell(b" image");
        tell_part(image, at);
        say(b" is ");
        tell_values(u64::from(image[at]), u64::from(want[at]));
        true
    }

    // Whether what would be written of the answers is not what is stored; the first line that differs is said.
    pub fn answers_differ(self, opened: u64, events: &[u8], told: &[u64], want: &[u8]) -> bool
        requires { length told.now ≤ 4096 }
        ensures { Differ (written opened events.now told.now) want.now result }
    {
        let mut got = io::large_buffer();
        let end = write_answers(&mut got, opened, events, told);
        text_differs(self, &got[..end], want)
    }
}
