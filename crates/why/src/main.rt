// Says why an executable has its domain or has none. It reads an image from standard input as bench does, runs as many
// of the events behind it as it is told to, and writes a sentence for each line of the explanation. All that decides is
// in the libraries.
#![tactic(auto)]

ghost use Rattle.std.specs.Prelude.{◌≡◌, ◌+◌, ◌*◌, ◌≤◌, eqb, length};
ghost use Rattle.octets.specs.Octets.{put};
ghost use Rattle.records.specs.Sizes.{event_size};
ghost use Rattle.rules.specs.AcceptedImage.{AcceptedImage};
ghost use Rattle.explanations.specs.Why.{line};
ghost use Rattle.reasons.specs.Lines.{line_size, why_code};
ghost use Rattle.stream.specs.Decimal.{most_digits};
ghost use Rattle.why.specs.Number.{number};
ghost use Rattle.why.specs.EventsRun.{RanAtMost};
ghost use Rattle.why.specs.SentenceText.{about, link_sentence, reason_sentence, sentence, longest_sentence};
ghost use Rattle.why.specs.SentenceText.{page, lines_said, longest_page, executable_unknown, answer_text};

use octets::Number as _;
use records::{Event, image};
use stream::{STDERR, STDIN, STDOUT};

// ---- a sentence

// A number between its words put at a place: the place behind them.
#[tactic(auto, using(stream::proofs::Texts::decimal_small))]
fn put_about(out: &mut [u8], at: usize, before: &[u8], n: u16, behind: &[u8]) -> usize
    requires { at + length before.now + most_digits + length behind.now ≤ length out.old }
    ensures { (out.new ≡ put out.old at (about before.now n behind.now))
        × (result ≡ at + length (about before.now n behind.now)) }
{
    stream::put_text(out, at, before);
    let numbered = stream::put_number(out, at + before.len(), n as u64);
    stream::put_text(out, numbered, behind);
    numbered + behind.len()
}

// A link of a chain: the first is a root, and any other is verified by the one above it.
#[tactic(auto, unfolding(crate::specs::SentenceText::link_sentence))]
fn put_link(out: &mut [u8], at: usize, above: u16, id: u16) -> usize
    requires { at + longest_sentence ≤ length out.old }
    ensures { (out.new ≡ put out.old at (link_sentence above id)) × (result ≡ at + length (link_sentence above id)) }
{
    if above == 0 {
        return put_about(out, at, b"certificate ", id, b" is a trusted root\n");
    }
    let verified = put_about(out, at, b"certificate ", id, b" is verified by ");
    put_about(out, verified, b"certificate ", above, b"\n")
}

// Why a record with the signing key is not good. Each number has its words: the match is their table, here and in `put_sentence`.
#[tactic(auto, unfolding(crate::specs::SentenceText::reason_sentence))]
fn put_reason(out: &mut [u8], at: usize, what: u8, id: u16) -> usize
    requires { at + longest_sentence ≤ length out.old }
    ensures { (out.new ≡ put out.old at (reason_sentence what id)) × (result ≡ at + length (reason_sentence what id)) }
{
    match what {
        10 => put_about(out, at, b"certificate ", id, b" is a recovery key\n"),
        11 => put_about(out, at, b"certificate ", id, b" is on an absent card\n"),
        12 => put_about(out, at, b"certificate ", id, b" is marked invalid\n"),
        13 => put_about(out, at, b"certificate ", id, b" is disabled\n"),
        14 => put_about(out, at, b"certificate ", id, b" is past its date\n"),
        15 => put_about(
            out,
            at,
            b"certificate ",
            id,
            b" has no good signer within three links\n",
        ),
        _ => at,
    }
}

// What a line says, below one with the id `above`: the place behind its sentence.
#[tactic(auto, unfolding(crate::specs::SentenceText::sentence))]
fn put_sentence(out: &mut [u8], at: usize, above: u16, what: u8, id: u16) -> usize
    requires { at + longest_sentence ≤ length out.old }
    ensures { (out.new ≡ put out.old at (sentence above (line what id))) × (result ≡ at + length (sentence above (line what id))) }
{
    match what {
        1 => put_link(out, at, above, id),
        2 => put_about(out, at, b"application ", id, b" is unsigned\n"),
        3 => put_about(
            out,
            at,
            b"no certificate has the key of application ",
            id,
            b"\n",
        ),
        4 => put_about(
            out,
            at,
            b"application ",
            id,
            b" is untrusted until it is verified\n",
        ),
        _ => put_reason(out, at, what, id),
    }
}

// ---- a page

// The sentences of the first n lines of a buffer, put at the start of another: how long they are.
fn put_page(out: &mut [u8], lines: &[u8], n: usize) -> usize
    requires { (n * line_size ≤ length lines.now) × (n * longest_sentence ≤ length out.old) }
    ensures { (out.new ≡ put out.old 0 (page 0 (lines_said lines.now n)))
        × (result ≡ length (page 0 (lines_said lines.now n))) }
{
    let mut at = 0;
    let mut above = 0;
    for i in 0..n {
        let what = u8::read(lines, i * 3);
        let id = u16::read(lines, i * 3 + 1);
        at = put_sentence(out, at, above, what, id);
        above = id;
    }
    at
}

// ---- the answer

// The line of an id that no executable has, put at the start of a buffer: how long it is.
fn put_unknown(out: &mut [u8]) -> usize
    requires { length executable_unknown ≤ length out.old }
    ensures { (out.new ≡ put out.old 0 executable_unknown) × (result ≡ length executable_unknown) }
{
    let text = b"executable 3\n";
    stream::put_text(out, 0, text);
    text.len()
}

// All that is printed, put at the start of a buffer: how long it is. Any bytes.
fn put_answer(s: &[u8], id: u16, out: &mut [u8]) -> usize
    requires { longest_page ≤ length out.old }
    ensures { (out.new ≡ put out.old 0 (answer_text s.now id)) × (result ≡ length (answer_text s.now id)) }
{
    let mut lines = [0u8; 192];
    match reasons::explain(s, id, &mut lines) {
        Ok(told) => put_page(out, &lines, told),
        Err(refused) if refused.code == 1 => {
            stream::put_refusal(out, refused.rule, refused.offset)
        }
        Err(_) => put_unknown(out),
    }
}

// Whether no executable has the id. Any bytes.
fn is_unknown(s: &[u8], id: u16) -> bool
    ensures { result ≡ eqb (why_code s.now id) 3 }
{
    match reasons::explain(s, id, &mut [0u8; 0]) {
        Ok(_) => false,
        Err(refused) => refused.code == 3,
    }
}

fn complain(text: &[u8]) {
    io::write_all(STDERR, text);
}

// The answer; where no executable has the id, that is said in words too.
fn tell(s: &[u8], id: u16) {
    let mut out = [0u8; 5184];
    let told = put_answer(s, id, &mut out);
    io::write_all(STDOUT, &out[..told]);
    if is_unknown(s, id) {
        complain(b"why: no executable has id ");
        io::print_decimal(STDERR, id as u64);
        complain(b"\n");
    }
}

// ---- the events before it

// A record at a time, as many as are asked for or as come; what is left where that is less than a record is the last one.
fn run_events(s: &mut [u8], v: &mut [u8], most: u64)
    requires accepted_image { AcceptedImage s.old }
    requires v_len { length v.old ≡ event_size }
    ensures { RanAtMost s.old most s.new }
{
    for n in 0..most {
        let got = io::read_full(STDIN, v);
        if got == 0 {
            return;
        }
        events::step_accepted(s, &v[..got]);
    }
}

// An image that is refused stays as it came.
fn play(s: &mut [u8], most: u64) {
    if opening::open(s).is_err() {
        return;
    }
    let mut record = [0u8; Event::SIZE];
    run_events(s, &mut record, most);
}

// The events, and then the answer.
fn lesson(s: &mut [u8], id: u16, events: u64) {
    play(s, events);
    tell(s, id);
}

// What came as an image. Zeros of the buffer never stand for bytes that were not read.
fn explain(id: u16, events: u64) {
    let mut buffer = [0u8; image::LARGEST];
    let got = stream::read_image(STDIN, &mut buffer);
    lesson(&mut buffer[..got], id, events);
}

// ---- a word of the command line

// No number of 19 digits is too large for 64 bits.
const MOST_PLACES: usize = 19;

// The number that it tells, if it tells one.
fn parse(word: &[u8]) -> Option<u64>
    ensures { result ≡ number word.now }
{
    if word.is_empty() || MOST_PLACES < word.len() {
        return None;
    }
    let mut n = 0;
    for b in word {
        if !b.is_ascii_digit() {
            return None;
        }
        n = n * 10 + u64::from(*b - b'0');
    }
    Some(n)
}

fn asks_help(word: &[u8]) -> bool {
    matches!(word, b"-h" | b"--help")
}

fn help() {
    io::write_all(STDOUT, b"usage: why ID [EVENTS] < FILE\n");
    io::write_all(
        STDOUT,
        b"Says why the executable with this ID has its domain or has none. FILE is an image;\n",
    );
    io::write_all(
        STDOUT,
        b"with EVENTS, that many of the events behind it are run first.\n",
    );
}

// The words behind the program's name.
fn main(rt: HostRuntime) {
    let mut first = [0u8; 32];
    let Some(id_length) = stream::word(&rt, 1, &mut first) else {
        complain(b"why: an id is missing; usage: why ID [EVENTS] < FILE\n");
        return;
    };
    if asks_help(&first[..id_length]) {
        help();
        return;
    }
    if stream::word(&rt, 3, &mut [0u8; 0]).is_some() {
        complain(b"why: a word too many; usage: why ID [EVENTS] < FILE\n");
        return;
    }
    let Some(id) = parse(&first[..id_length]).and_then(|n| u16::try_from(n).ok()) else {
        complain(b"why: ID is a number from 0 to 65535\n");
        return;
    };
    let mut second = [0u8; 32];
    let Some(events_length) = stream::word(&rt, 2, &mut second) else {
        explain(id, 0);
        return;
    };
    let Some(events) = parse(&second[..events_length]) else {
        complain(b"why: EVENTS is a number of at most 19 digits\n");
        return;
    };
    explain(id, events);
}
