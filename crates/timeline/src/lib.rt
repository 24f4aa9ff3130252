// A lesson's timeline: its form, and its events with the clock events put in. Nothing is run here.
#![tactic(auto)]

ghost use Rattle.std.specs.Prelude.{true, ◌≡◌, ◌+◌, ◌*◌, ◌<◌, ◌≤◌, length};
ghost use Rattle.records.specs.Sizes.{event_size};
ghost use Rattle.records.specs.Layout.{event_bytes};
ghost use Rattle.timeline.specs.Timeline.{timed_count, timeline_framed, timed_at, timed, timed_fits, in_time, timeline_fits};
ghost use Rattle.timeline.specs.Timeline.{clock_event, record_events, unrolled};
ghost use Rattle.timeline.specs.Unrolls.{with_event, with_more, with_events, Unrolls};

use octets::Number;
use records::{Event, image};
use rules::Answer;

// The header: what it says, and where.
pub const VERSION: u16 = 1;

pub const MOST: u16 = 1000;

// Where the records start, and how long one is.
pub const START: usize = 8;

pub const SIZE: usize = 32;

// The longest timeline, and the most bytes that its events take: a clock event before each.
pub const LONGEST: usize = 32008;

pub const MOST_BYTES: usize = 48000;

// ---- the form

fn count(t: &[u8]) -> usize
    requires { 8 ≤ length t.now }
    ensures { result ≡ timed_count t.now }
{
    u16::read(t, 2) as usize
}

fn is_framed(t: &[u8]) -> bool
    ensures { result ≡ timeline_framed t.now }
{
    if t.len() < START {
        return false;
    }
    (u16::read(t, 0) == VERSION)
        & (u16::read(t, 2) <= MOST)
        & (u32::read(t, 4) == START as u32)
        & (t.len() == START + count(t) * SIZE)
}

// The second of record i.
fn second(t: &[u8], i: usize) -> u32
    requires t_value { timeline_framed t.now ≡ true }
    requires i_bound { i < timed_count t.now }
    ensures { result ≡ (timed_at t.now i).second }
{
    u32::read(t, START + i * SIZE)
}

// Whether record i may stand behind a second.
fn record_fits(t: &[u8], i: usize, before: u32) -> bool
    requires t_value { timeline_framed t.now ≡ true }
    requires i_bound { i < timed_count t.now }
    ensures { result ≡ timed_fits before (timed_at t.now i) }
{
    let at = START + i * SIZE;
    (before <= u32::read(t, at))
        & (u32::read(t, at + 4) == 0)
        & (u8::read(t, at + 8) != Event::CLOCK)
}

fn in_time(t: &[u8], clock: u32) -> bool
    requires { timeline_framed t.now ≡ true }
    ensures { result ≡ in_time clock (timed t.now) }
{
    let mut before = clock;
    for i in 0..count(t) {
        if !record_fits(t, i, before) {
            return false;
        }
        before = second(t, i);
    }
    true
}

// Whether any bytes are a timeline for an image with this clock.
fn fits(t: &[u8], clock: u32) -> bool
    ensures { result ≡ timeline_fits clock t.now }
{
    is_framed(t) && in_time(t, clock)
}

// ---- the events

// The n-th event of a buffer, where that has room for it.
fn put_event(events: &mut [u8], n: usize, v: &[u8])
    requires { length v.now ≡ event_size }
    ensures { events.new ≡ with_event events.old n v.now }
{
    if events.len() / Event::SIZE <= n {
        return;
    }
    let at = n * Event::SIZE;
    events[at..at + Event::SIZE].copy_from_slice(v);
}

// "key = new time": the clock event of a second, as the n-th event of a buffer.
fn put_clock(events: &mut [u8], n: usize, second: u32)
    ensures { events.new ≡ with_event events.old n (event_bytes (clock_event second)) }
{
    let mut v = [0u8; Event::SIZE];
    Event::CLOCK.write(&mut v, Event::KIND);
    second.write(&mut v, Event::KEY);
    put_event(events, n, &v);
}

// Record i, where the clock tells so with a clock event before it, from the n-th event on: how many there are then.
fn put_record(events: &mut [u8], n: usize, t: &[u8], i: usize, clock: u32) -> usize
    requires t_value { timeline_framed t.now ≡ true }
    requires i_bound { i < timed_count t.now }
    requires n_bound { n ≤ 2 * i }
    ensures { (events.new ≡ with_more events.old n (record_events clock (timed_at t.now i)))
        × (result ≡ n + length (record_events clock (timed_at t.now i))) }
{
    let at = START + i * SIZE + 8;
    let now = second(t, i);
    if clock < now {
        put_clock(events, n, now);
        put_event(events, n + 1, &t[at..at + Event::SIZE]);
        return n + 2;
    }
    put_event(events, n, &t[at..at + Event::SIZE]);
    n + 1
}

// The events of a timeline that fits, as many as there is room for: how many there are.
fn put_records(events: &mut [u8], t: &[u8], clock: u32) -> usize
    requires { timeline_framed t.now ≡ true }
    ensures { (events.new ≡ with_events events.old (unrolled clock (timed t.now)))
        × (result ≡ length (unrolled clock (timed t.now))) }
{
    let mut before = clock;
    let mut n: usize = 0;
    for i in 0..count(t) {
        n = put_record(events, n, t, i, before);
        before = second(t, i);
    }
    n
}

// The events of a timeline for an image with the clock events put in, as many as the buffer has room for: how many there are, or what is told of
// an image that is refused, with code 1, or of a timeline that does not fit it, with code 19. Any bytes.
pub fn unroll(s: &[u8], t: &[u8], events: &mut [u8]) -> Result<usize, Answer>
    ensures { Unrolls s.now t.now events.old result events.new }
{
    let outcome = opening::open(s);
    if outcome.is_err() {
        return Err(opening::told(s, outcome));
    }
    let clock = image::clock(s);
    if !fits(t, clock) {
        return Err(Answer {
            code: 19,
            domain: 0,
            links: 0,
            rule: 0,
            offset: 0,
        });
    }
    Ok(put_records(events, t, clock))
}
