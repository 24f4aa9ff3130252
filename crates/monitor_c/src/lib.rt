// The five functions of `monitor` under the names that a caller in C has: each calls the one of its name, and says what that says.
#![tactic(auto)]

ghost use Rattle.std.specs.Prelude.{◌≡◌};
ghost use Rattle.rules.specs.Step.{opened};
ghost use Rattle.monitor.specs.Told.{packed, Stepped, Ran, Asked, UnrolledFor};

// 0 where the image is accepted, and else the answer that any event on it gets: code 1, the broken rule and where. Any bytes.
#[unsafe(no_mangle)]
pub extern "C" fn monitor_open(image: &[u8]) -> u64
    ensures { result ≡ packed (opened image.now) }
{
    monitor::monitor_open(image)
}

// One event: the answer as a number, from the low byte up links, domain, code, rule and two bytes of offset, and the image after it. Any bytes.
#[unsafe(no_mangle)]
pub extern "C" fn monitor_step(image: &mut [u8], event: &[u8]) -> u64
    ensures { Stepped image.old event.now result image.new }
{
    monitor::monitor_step(image, event)
}

// Events one after the other, the last of which may be short, on an image that is opened once: six bytes for each
// answer, as long as there is room, and the number of answers. Any bytes.
#[unsafe(no_mangle)]
pub extern "C" fn monitor_run(image: &mut [u8], events: &[u8], answers: &mut [u8]) -> usize
    ensures { Ran image.old events.now answers.old result image.new answers.new }
{
    monitor::monitor_run(image, events, answers)
}

// Why an executable has its domain or has none: the answer as a number, from the low byte up two bytes of the number of lines, code, rule and
// two bytes of offset, and in the buffer as many of the lines, three bytes each, as it has room for. Any bytes.
#[unsafe(no_mangle)]
pub extern "C" fn monitor_why(image: &[u8], id: u16, lines: &mut [u8]) -> u64
    ensures { Asked image.now id lines.old result lines.new }
{
    monitor::monitor_why(image, id, lines)
}

// The events of a timeline for an image, with the clock events put in, as many whole ones as the buffer has room for: the answer as a number, from
// the low byte up two bytes of the number of events, code, rule and two bytes of offset, as monitor_why has them. To be run by monitor_run. Any bytes.
#[unsafe(no_mangle)]
pub extern "C" fn monitor_timeline(image: &[u8], timeline: &[u8], events: &mut [u8]) -> u64
    ensures { UnrolledFor image.now timeline.now events.old result events.new }
{
    monitor::monitor_timeline(image, timeline, events)
}
