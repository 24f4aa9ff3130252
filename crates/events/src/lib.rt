// One step of the monitor: an event on an image, its answer and the image after it.
#![tactic(auto)]

ghost use Rattle.std.specs.Prelude.{length, ◌≡◌, ◌<◌};
ghost use Rattle.events.specs.Telling.{answer_of};
ghost use Rattle.events.specs.Stepped.{Stepped, SteppedAccepted};
ghost use Rattle.handling.specs.Handled.{Handled};
ghost use Rattle.rules.specs.AcceptedImage.{AcceptedImage};
ghost use Rattle.records.specs.Layout.{event_read};
ghost use Rattle.records.specs.Sizes.{event_size};

use handling::Refusal;
use records::Event;
use rules::Answer;

// What a handler answers is told, or the code of its refusal.
fn told(tried: Result<Answer, Refusal>) -> Answer
    ensures { result ≡ answer_of tried }
{
    match tried {
        Ok(answer) => answer,
        Err(why) => handling::refused(why.code()),
    }
}

// Each kind to its handler. The event is read in each arm, so that what a kind has no use for is never put together,
// and the answer is told in each: told once, after the match, it cost every event some 17 instructions more. A closure for each kind
// would be picked by the same match.
#[tactic(auto, using(crate::proofs::Steps::low_actor))]
fn handle(s: &mut [u8], v: &[u8]) -> Answer
    requires accepted_image { AcceptedImage s.old }
    requires v_len { length v.now ≡ event_size }
    ensures { Handled s.old (event_read v.now 0) result s.new }
{
    if 4 < Event::actor(v, 0) {
        return told(Err(Refusal::Malformed));
    }
    match Event::kind(v, 0) {
        1 => told(device::clock(s, Event::read(v, 0))),
        2 => told(device::card_in(s, Event::read(v, 0))),
        3 => told(device::card_out(s, Event::read(v, 0))),
        4 => told(device::power_up(s, Event::read(v, 0))),
        5 => told(certificates::install_certificate(s, Event::read(v, 0))),
        6 => told(certificates::delete_certificate(s, Event::read(v, 0))),
        7 => told(certificates::mark_valid(s, Event::read(v, 0))),
        8 => told(certificates::mark_invalid(s, Event::read(v, 0))),
        9 => told(certificates::message(s, Event::read(v, 0))),
        10 => told(executables::install_executable(s, Event::read(v, 0))),
        11 => told(executables::delete_executable(s, Event::read(v, 0))),
        12 => told(executables::verify(s, Event::read(v, 0))),
        13 => told(executables::give(s, Event::read(v, 0))),
        14 => told(executables::withdraw(s, Event::read(v, 0))),
        15 => told(executables::request(s, Event::read(v, 0))),
        16 => told(certificates::replace(s, Event::read(v, 0))),
        _ => told(Err(Refusal::Malformed)),
    }
}

// An event of any length on an image that is known to be accepted: it is not opened again.
pub fn step_accepted(s: &mut [u8], v: &[u8]) -> Answer
    requires { AcceptedImage s.old }
    ensures { SteppedAccepted s.old v.now result s.new }
{
    if v.len() != Event::SIZE {
        return told(Err(Refusal::Malformed));
    }
    handle(s, v)
}

// Any image and any event, of any length.
pub fn step(s: &mut [u8], v: &[u8]) -> Answer
    ensures { Stepped s.old v.now result s.new }
{
    let outcome = opening::open(s);
    if outcome.is_err() {
        return opening::told(s, outcome);
    }
    step_accepted(s, v)
}
