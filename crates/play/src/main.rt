// Reads an image and then a timeline from standard input, and writes a line for each event as `bench` does, the clock
// events that are put in among them. All that decides is in the libraries.
#![tactic(auto)]

ghost use Rattle.std.specs.Prelude.{length, ◌*◌, ◌≤◌};
ghost use Rattle.records.specs.Sizes.{event_size};
ghost use Rattle.rules.specs.AcceptedImage.{AcceptedImage};
ghost use Rattle.stream.specs.PrintedLines.{longest_line};

use records::{Event, image};
use stream::{STDIN, STDOUT};

// The first n events of a buffer.
fn all_events(s: &mut [u8], events: &[u8], n: usize, out: &mut [u8])
    requires accepted_image { AcceptedImage s.old }
    requires event_size_in_bounds { (n * event_size ≤ length events.now) × (longest_line ≤ length out.old) }
{
    let mut used = 0;
    for i in 0..n {
        let at = i * Event::SIZE;
        let a = events::step_accepted(s, &events[at..at + Event::SIZE]);
        used = stream::add_line(out, used, i as u64 + 1, events[at], a);
    }
    io::write_all(STDOUT, &out[..used]);
}

// What came as an image, and what came behind it as a timeline.
fn lesson(s: &mut [u8], t: &[u8]) {
    let mut out = io::large_buffer();
    let mut events = [0u8; timeline::MOST_BYTES];
    match timeline::unroll(s, t, &mut events) {
        Ok(count) => all_events(s, &events, count, &mut out),
        Err(told) => {
            if told.code == 1 {
                let refusal = stream::put_refusal(&mut out, told.rule, told.offset);
                io::write_all(STDOUT, &out[..refusal]);
                return;
            }
            io::write_all(STDOUT, b"timeline 19\n");
        }
    }
}

fn main() {
    let mut first = [0u8; 29];
    let told = stream::put_heading(&mut first);
    io::write_all(STDOUT, &first[..told]);
    let mut buffer = [0u8; image::LARGEST];
    let got = stream::read_image(STDIN, &mut buffer);
    // A byte more than the longest timeline has, so that one byte too many is seen.
    let mut behind = [0u8; timeline::LONGEST + 1];
    let more = io::read_full(STDIN, &mut behind);
    lesson(&mut buffer[..got], &behind[..more]);
}
