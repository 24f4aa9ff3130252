// The library that a simulator links: opening an image, one event on it, a run of events, why an executable has its domain or has none, and the
// events of a timeline.
#![tactic(auto)]

ghost use Rattle.std.specs.Prelude.{◌≡◌, ◌+◌, ◌*◌, ◌<◌, ◌≤◌, length, take, drop, replicate, IfOk};
ghost use Rattle.octets.specs.Octets.{put};
ghost use Rattle.records.specs.Sizes.{event_size};
ghost use Rattle.records.specs.Phone.{joined};
ghost use Rattle.rules.specs.AcceptedImage.{AcceptedImage};
ghost use Rattle.rules.specs.Step.{opened};
ghost use Rattle.events.specs.Stepped.{SteppedAccepted};
ghost use Rattle.monitor.specs.Told.{packed, Stepped, answer_size, answer_bytes, event_count, answered, Followed, Ran, count_packed};
ghost use Rattle.monitor.specs.Told.{Asked, UnrolledFor};

use records::Event;
use rules::Answer;

const ANSWER_SIZE: usize = 6;

// An answer in one register: a C caller has no record to fill.
fn pack(a: Answer) -> u64
    ensures { result ≡ packed a }
{
    (((a.offset as u64 * 256 + a.rule as u64) * 256 + a.code as u64) * 256 + a.domain as u64) * 256
        + a.links as u64
}

// 0 where the image is accepted, and else the answer that any event on it gets: code 1, the broken rule and where. Any bytes.
pub fn monitor_open(image: &[u8]) -> u64
    ensures { result ≡ packed (opened image.now) }
{
    pack(opening::told(image, opening::open(image)))
}

// One event: the answer as a number, from the low byte up links, domain, code, rule and two bytes of offset, and the image after it. Any bytes.
pub fn monitor_step(image: &mut [u8], event: &[u8]) -> u64
    ensures { Stepped image.old event.now result image.new }
{
    let told = events::step(image, event);
    pack(told)
}

// ---- a run of events

fn event_count(n: usize) -> usize
    ensures { result ≡ event_count n }
{
    if n % Event::SIZE == 0 {
        return n / Event::SIZE;
    }
    n / Event::SIZE + 1
}

// How many of the events in n bytes can be answered in m bytes.
fn answered(n: usize, m: usize) -> usize
    ensures { result ≡ answered n m }
{
    let all = event_count(n);
    let room = m / ANSWER_SIZE;
    if all <= room {
        return all;
    }
    room
}

// The i-th answer of a buffer, as six bytes.
fn tell(answers: &mut [u8], i: usize, a: Answer)
    requires { i * answer_size + answer_size ≤ length answers.old }
    ensures { answers.new ≡ put answers.old (i * answer_size) (answer_bytes a) }
{
    let at = i * ANSWER_SIZE;
    answers[at] = a.code;
    answers[at + 1] = a.domain;
    answers[at + 2] = a.links;
    answers[at + 3] = a.rule;
    answers[at + 4] = (a.offset / 256) as u8;
    answers[at + 5] = (a.offset % 256) as u8;
}

// The i-th event of a buffer; what is left where that is less than a record.
fn one(image: &mut [u8], events: &[u8], i: usize) -> Answer
    requires accepted_image { AcceptedImage image.old }
    requires event_size_in_bounds { i * event_size ≤ length events.now }
    ensures { SteppedAccepted image.old (take event_size (drop (i * event_size) events.now)) result image.new }
{
    let at = i * Event::SIZE;
    if events.len() - at < Event::SIZE {
        return events::step_accepted(image, &events[at..]);
    }
    events::step_accepted(image, &events[at..at + Event::SIZE])
}

fn follow(image: &mut [u8], events: &[u8], answers: &mut [u8], n: usize)
    requires accepted_image { AcceptedImage image.old }
    requires event_size_in_bounds { n * event_size ≤ length events.now + event_size }
    requires answer_size_in_bounds { n * answer_size ≤ length answers.old }
    ensures { Followed image.old events.now answers.old n image.new answers.new }
{
    for i in 0..n {
        let a = one(image, events, i);
        // The image is accepted: there is no rule to tell and no byte, and none is read.
        let plain = Answer {
            rule: 0,
            offset: 0,
            ..a
        };
        tell(answers, i, plain);
    }
}

// An image that is not accepted is told so at every event.
fn refuse(answers: &mut [u8], n: usize, a: Answer)
    requires { n * answer_size ≤ length answers.old }
    ensures { answers.new ≡ put answers.old 0 (joined answer_bytes (replicate n a)) }
{
    for i in 0..n {
        tell(answers, i, a);
    }
}

// Events one after the other, the last of which may be short, on an image that is opened once: six bytes for each
// answer, as long as there is room, and the number of answers. Any bytes.
pub fn monitor_run(image: &mut [u8], events: &[u8], answers: &mut [u8]) -> usize
    ensures { Ran image.old events.now answers.old result image.new answers.new }
{
    let n = answered(events.len(), answers.len());
    let outcome = opening::open(image);
    if outcome.is_err() {
        refuse(answers, n, opening::told(image, outcome));
        return n;
    }
    follow(image, events, answers, n);
    n
}

// ---- a count

// How many there are, or what is told of a refusal, in one register.
fn pack_count(told: Result<usize, Answer>) -> u64
    requires { IfOk told (λ n. n < 65536) }
    ensures { result ≡ count_packed told }
{
    match told {
        Ok(n) => n as u64,
        Err(a) => ((a.offset as u64 * 256 + a.rule as u64) * 256 + a.code as u64) * 65536,
    }
}

// ---- why

// Why an executable has its domain or has none: the answer as a number, from the low byte up two bytes of the number of lines, code, rule and
// two bytes of offset, and in the buffer as many of the lines, three bytes each, as it has room for. Any bytes.
pub fn monitor_why(image: &[u8], id: u16, lines: &mut [u8]) -> u64
    ensures { Asked image.now id lines.old result lines.new }
{
    pack_count(reasons::explain(image, id, lines))
}

// ---- timelines

// The events of a timeline for an image, with the clock events put in, as many whole ones as the buffer has room for: the answer as a number, from
// the low byte up two bytes of the number of events, code, rule and two bytes of offset, as monitor_why has them. To be run by monitor_run. Any bytes.
// A function by itself, as `monitor_why` is: both have names in C.
pub fn monitor_timeline(image: &[u8], timeline: &[u8], events: &mut [u8]) -> u64
    ensures { UnrolledFor image.now timeline.now events.old result events.new }
{
    pack_count(timeline::unroll(image, timeline, events))
}
