// Runs the stored cases of its folder through the library, writes what `bench` would and says where that differs from
// what is stored. The file `cases` names them, one to a line; NAME.in is a stream, NAME.out what `bench` writes for it and
// NAME.fin the image afterwards. With a word on its command line each case goes three ways, as callers may: one run, runs
// with room for few answers, and single steps. These open an image again and again, so that a program that is not
// optimised takes long.
#![tactic(auto)]

mod coverage;

ghost use Rattle.std.specs.Prelude.{◌/◌, ◌≤◌, length};
ghost use Rattle.records.specs.Sizes.{largest_image};

use coverage::Coverage;
use differences::{Case, Way};
use records::{Event, image};
use std::fs::File;
use std::os::fd::AsRawFd;
use std::rt::Files;
use stream::STDOUT;

// More than the events of a case have room for.
const MOST_EVENTS: usize = 4096;

const ANSWER_SIZE: usize = 6;

// No code: an answer that is never told shows.
const UNTOLD: u8 = 255;

// ---- files

// Where a path that goes on with text ends; one that is too long ends where it did.
fn append(path: &mut [u8], from: usize, text: &[u8]) -> usize
    requires { from ≤ length path.old }
    ensures { result ≤ length path.new }
{
    if path.len() - from < text.len() {
        return from;
    }
    stream::put_text(path, from, text);
    from + text.len()
}

// A file of the case, opened: none where it cannot be read, or where its name is no text.
fn open_part<R: Files<File = File>>(rt: &R, name: &[u8], part: &[u8]) -> Option<File> {
    let mut path = [0u8; 256];
    let named = append(&mut path, 0, name);
    let ended = append(&mut path, named, part);
    match str::from_utf8(&path[..ended]) {
        Ok(text) => std::fs::open(rt, text).ok(),
        Err(_) => None,
    }
}

// All that the file still has, as far as there is room. It is closed then.
fn read_rest(file: File, buf: &mut [u8]) -> usize
    ensures { result ≤ length buf.new }
{
    io::read_full(file.as_raw_fd(), buf)
}

// ---- the ways through the library

// The number that a step would answer, from the bytes of an answer.
fn number_told(answer: &[u8]) -> u64 {
    let &[code, domain, links, rule, high, low] = answer else {
        return 0;
    };
    u64::from_be_bytes([0, 0, high, low, rule, code, domain, links])
}

// The n answers of a run, from the event `done` on, as the numbers that steps would answer.
fn note(told: &mut [u64], done: usize, answers: &[u8], n: usize)
    requires { (done ≤ 4096) × (n ≤ 4096) }
{
    for (i, answer) in answers.chunks_exact(ANSWER_SIZE).take(n).enumerate() {
        if done + i < told.len() {
            told[done + i] = number_told(answer);
        }
    }
}

// A run from the event `done` on, with room for as many answers as the buffer has; how many more were answered.
fn run(image: &mut [u8], events: &[u8], done: usize, told: &mut [u64], answers: &mut [u8]) -> usize
    requires { (done ≤ 4096) × (length answers.old ≤ 24576) }
    ensures { result ≤ length answers.old / 6 }
{
    let at = (done * Event::SIZE).min(events.len());
    let n = monitor::monitor_run(image, &events[at..], answers);
    note(told, done, answers, n);
    n
}

// Room for every answer.
fn run_whole(image: &mut [u8], events: &[u8], told: &mut [u64]) -> usize {
    let mut answers = [UNTOLD; 24576];
    run(image, events, 0, told, &mut answers)
}

// Room for seven answers.
fn run_piece(image: &mut [u8], events: &[u8], done: usize, told: &mut [u64]) -> usize
    requires { done ≤ 4096 }
    ensures { result ≤ 7 }
{
    let mut answers = [UNTOLD; 42];
    run(image, events, done, told, &mut answers)
}

// Piece after piece, each going on behind the last event that was answered, until every one is. No count is gone through: a piece says how far it came.
fn run_in_pieces(image: &mut [u8], events: &[u8], told: &mut [u64]) -> usize {
    let mut done = 0;
    while done <= MOST_EVENTS && done * Event::SIZE < events.len() {
        let more = run_piece(image, events, done, told);
        if more == 0 {
            return done;
        }
        done += more;
    }
    done
}

// Each event as a step of its own.
fn run_by_steps(image: &mut [u8], events: &[u8], told: &mut [u64]) -> usize {
    for (told, event) in told.iter_mut().zip(events.chunks(Event::SIZE)) {
        *told = monitor::monitor_step(image, event);
    }
    told.len().min(events.len().div_ceil(Event::SIZE))
}

// The events of a buffer one way, on an image; how many were answered. A closure for each way would be picked by the same match.
fn run_by(way: Way, image: &mut [u8], events: &[u8], told: &mut [u64]) -> usize {
    match way {
        Way::Whole => run_whole(image, events, told),
        Way::Pieces => run_in_pieces(image, events, told),
        Way::Steps => run_by_steps(image, events, told),
    }
}

// ---- a case

// A stored case: its name, the image and the events of its stream, what `bench` writes of them, and the image afterwards.
#[derive(Clone, Copy)]
struct Stored<'a> {
    name: &'a [u8],
    first: &'a [u8],
    events: &'a [u8],
    want: &'a [u8],
    last: &'a [u8],
}

impl Stored<'_> {
    // Whether the answers or the image differ one way. What a whole run covers is counted, and so counted once.
    fn differs(&self, way: Way, seen: &mut Coverage) -> bool
        requires { length self.now.first.now ≤ largest_image }
    {
        let opened = monitor::monitor_open(self.first);
        let size = self.first.len();
        let mut image = [0u8; image::LARGEST];
        image[..size].copy_from_slice(self.first);
        let mut told = [0u64; MOST_EVENTS];
        let n = run_by(way, &mut image[..size], self.events, &mut told).min(MOST_EVENTS);
        if matches!(way, Way::Whole) {
            seen.count_answers(self.events, &told[..n]);
        }
        let case = Case {
            name: self.name,
            way,
        };
        let answers = case.answers_differ(opened, self.events, &told[..n], self.want);
        let images = case.image_differs(&image[..size], self.last);
        answers | images
    }

    // The ways that are asked for.
    fn ways_differ(&self, every_way: bool, seen: &mut Coverage) -> bool
        requires { length self.now.first.now ≤ largest_image }
    {
        let whole = self.differs(Way::Whole, seen);
        if !every_way {
            return whole;
        }
        let pieces = self.differs(Way::Pieces, seen);
        let steps = self.differs(Way::Steps, seen);
        whole | pieces | steps
    }
}

// How many bytes of events are asked: a refused image is asked an event of zeros where its case has none.
fn asked(opened: u64, n: usize) -> usize
    requires { n ≤ 65536 }
    ensures { result ≤ 65536 }
{
    if opened == 0 {
        return n;
    }
    if n == 0 {
        return Event::SIZE;
    }
    n
}

// The image that has to be there afterwards: a refused one stays as it was.
fn read_last<R: Files<File = File>>(
    rt: &R,
    name: &[u8],
    opened: u64,
    first: &[u8],
    last: &mut [u8],
) -> usize
    requires { length first.now ≤ length last.old }
    ensures { result ≤ length last.new }
{
    if opened != 0 {
        stream::put_text(last, 0, first);
        return first.len();
    }
    match open_part(rt, name, b".fin") {
        Some(kept) => read_rest(kept, last),
        None => 0,
    }
}

// The stream of a case, from its file: an image, and the events behind it.
fn stream_differs<R: Files<File = File>>(
    rt: &R,
    name: &[u8],
    every_way: bool,
    given: File,
    want: &[u8],
    seen: &mut Coverage,
) -> bool {
    let mut first = [0u8; image::LARGEST];
    let i = stream::read_image(given.as_raw_fd(), &mut first);
    let mut events = io::large_buffer();
    let e = read_rest(given, &mut events);
    let opened = monitor::monitor_open(&first[..i]);
    let n = asked(opened, e);
    let mut last = io::buffer();
    let l = read_last(rt, name, opened, &first[..i], &mut last);
    let stored = Stored {
        name,
        first: &first[..i],
        events: &events[..n],
        want,
        last: &last[..l],
    };
    stored.ways_differ(every_way, seen)
}

// A case by its name.
fn case_differs<R: Files<File = File>>(
    rt: &R,
    name: &[u8],
    every_way: bool,
    seen: &mut Coverage,
) -> bool {
    let case = Case {
        name,
        way: Way::Whole,
    };
    let Some(given) = open_part(rt, name, b".in") else {
        return case.tell(b".in cannot be read\n");
    };
    let Some(expected) = open_part(rt, name, b".out") else {
        return case.tell(b".out cannot be read\n");
    };
    let mut want = io::large_buffer();
    let w = read_rest(expected, &mut want);
    stream_differs(rt, name, every_way, given, &want[..w], seen)
}

// ---- all of them

// A line of the list names a case, up to the first space.
fn all_cases<R: Files<File = File>>(rt: &R, list: &[u8], every_way: bool, seen: &mut Coverage) {
    let mut run = 0u64;
    let mut differing = 0u64;
    for line in list.split_inclusive(|b| *b == b'\n') {
        let end = differences::find(line, 0, b' ').min(differences::find(line, 0, b'\n'));
        let differs = case_differs(rt, &line[..end], every_way, seen);
        run = run.saturating_add(1);
        differing = differing.saturating_add(u64::from(differs));
    }
    io::print_decimal(STDOUT, run);
    io::write_all(STDOUT, b" cases, ");
    io::print_decimal(STDOUT, differing);
    io::write_all(STDOUT, b" differ\n");
}

fn main(rt: HostRuntime) -> std::io::Result<()> {
    let cases = match std::fs::open(&rt, "cases") {
        Ok(file) => file,
        Err(e) => return eprintln!(rt; "cases: {e}"),
    };
    let mut list = io::large_buffer();
    let n = read_rest(cases, &mut list);
    let mut seen = Coverage::new();
    let every_way = stream::word(&rt, 1, &mut [0u8; 0]).is_some();
    all_cases(&rt, &list[..n], every_way, &mut seen);
    seen.report();
    Ok(())
}
