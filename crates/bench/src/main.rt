// Reads an image and then events from standard input, and writes a line for each event: its number, its kind and its
// answer. All that decides is in the libraries.
#![tactic(auto)]

ghost use Rattle.std.specs.Prelude.{◌≡◌, length, ◌≤◌};
ghost use Rattle.records.specs.Sizes.{event_size};
ghost use Rattle.rules.specs.AcceptedImage.{AcceptedImage};
ghost use Rattle.stream.specs.PrintedLines.{longest_line};

use records::{Event, image};
use stream::{STDIN, STDOUT};

// ---- a run

// A record at a time until the stream ends; what is left of it where that is less than a record is the last one.
fn all_events(s: &mut [u8], v: &mut [u8], out: &mut [u8])
    requires accepted_image { AcceptedImage s.old }
    requires v_len { (length v.old ≡ event_size) × (longest_line ≤ length out.old) }
{
    let mut used = 0;
    // Events are numbered as far as 64 bits count: a million of them a second take half a million years to get there.
    for n in 0..u64::MAX {
        let got = io::read_full(STDIN, v);
        if got == 0 {
            break;
        }
        let a = events::step_accepted(s, &v[..got]);
        used = stream::add_line(out, used, n + 1, v[0], a);
    }
    io::write_all(STDOUT, &out[..used]);
}

// What came as an image, and the events behind it. Zeros of the buffer never stand for bytes that were not read.
fn lesson(s: &mut [u8]) {
    let mut out = io::large_buffer();
    let outcome = opening::open(s);
    if outcome.is_err() {
        let told = opening::told(s, outcome);
        let refusal = stream::put_refusal(&mut out, told.rule, told.offset);
        io::write_all(STDOUT, &out[..refusal]);
        return;
    }
    let mut record = [0u8; Event::SIZE];
    all_events(s, &mut record, &mut out);
}

fn main() {
    let mut first = [0u8; 29];
    let told = stream::put_heading(&mut first);
    io::write_all(STDOUT, &first[..told]);
    let mut buffer = [0u8; image::LARGEST];
    let got = stream::read_image(STDIN, &mut buffer);
    lesson(&mut buffer[..got]);
}
