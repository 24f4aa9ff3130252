// What is decided of the clock and the card, on an image that nothing is written to.
ghost use Rattle.std.specs.Prelude.{◌<◌, ◌≡◌};
ghost use Rattle.handling.specs.Plans.{plan};
ghost use Rattle.handling.specs.RefusalCodes.{by_code};
ghost use Rattle.rules.specs.AcceptedImage.{AcceptedImage};
ghost use Rattle.records.specs.Phone.{decode};
ghost use Rattle.rules.specs.Codes.{code_of};
ghost use Rattle.rules.specs.Forms.{with_kind};

use handling::Refusal;
use records::{Event, image};
use terms::{actors, forms};

// 1 clock
pub fn clock(s: &[u8], e: Event) -> Result<(), Refusal>
    requires accepted_image { AcceptedImage s.now }
    requires actor_bound { e.actor < 5 }
    ensures { by_code result ≡ plan (code_of (decode s.now) (with_kind 1 e)) tt }
{
    if !forms::clock_form(e) {
        return Err(Refusal::Malformed);
    }
    if !actors::may_act(Event::CLOCK, 0, e.actor) {
        return Err(Refusal::ActorNotAllowed);
    }
    if e.key < image::clock(s) {
        return Err(Refusal::ClockBackwards);
    }
    Ok(())
}

// 2 card in
pub fn card_in(s: &[u8], e: Event) -> Result<(), Refusal>
    requires accepted_image { AcceptedImage s.now }
    requires actor_bound { e.actor < 5 }
    ensures { by_code result ≡ plan (code_of (decode s.now) (with_kind 2 e)) tt }
{
    if !((e.second != 0) & forms::card_form(e)) {
        return Err(Refusal::Malformed);
    }
    if !actors::may_act(Event::CARD_IN, 0, e.actor) {
        return Err(Refusal::ActorNotAllowed);
    }
    if !lookup::known_place(s, e.second) {
        return Err(Refusal::UnknownCard);
    }
    if image::card_present(s) != 0 {
        return Err(Refusal::CardState);
    }
    Ok(())
}

// 3 card out
pub fn card_out(s: &[u8], e: Event) -> Result<(), Refusal>
    requires accepted_image { AcceptedImage s.now }
    requires actor_bound { e.actor < 5 }
    ensures { by_code result ≡ plan (code_of (decode s.now) (with_kind 3 e)) tt }
{
    if !((e.second == 0) & forms::card_form(e)) {
        return Err(Refusal::Malformed);
    }
    if !actors::may_act(Event::CARD_OUT, 0, e.actor) {
        return Err(Refusal::ActorNotAllowed);
    }
    if image::card_present(s) == 0 {
        return Err(Refusal::CardState);
    }
    Ok(())
}

// 4 power up
pub fn power_up(s: &[u8], e: Event) -> Result<(), Refusal>
    requires accepted_image { AcceptedImage s.now }
    requires actor_bound { e.actor < 5 }
    ensures { by_code result ≡ plan (code_of (decode s.now) (with_kind 4 e)) tt }
{
    if !forms::card_form(e) {
        return Err(Refusal::Malformed);
    }
    if !actors::may_act(Event::POWER_UP, 0, e.actor) {
        return Err(Refusal::ActorNotAllowed);
    }
    if !lookup::known_place(s, e.second) {
        return Err(Refusal::UnknownCard);
    }
    Ok(())
}
