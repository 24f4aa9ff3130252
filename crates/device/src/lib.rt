// Kinds 1 to 4, the clock and the card: the decision, and where nothing stands against it the effect and the settling, where a chain can break.
#![tactic(auto)]

mod decisions;
mod effects;

ghost use Rattle.std.specs.Prelude.{◌<◌};
ghost use Rattle.rules.specs.AcceptedImage.{AcceptedImage};
ghost use Rattle.rules.specs.Forms.{with_kind};
ghost use Rattle.handling.specs.Handled.{Tried};

use handling::Refusal;
use records::Event;
use rules::Answer;

// 1 clock
pub fn clock(s: &mut [u8], e: Event) -> Result<Answer, Refusal>
    requires accepted_image { AcceptedImage s.old }
    requires actor_bound { e.actor < 5 }
    ensures { Tried s.old (with_kind 1 e) result s.new }
{
    decisions::clock(s, e)?;
    let broken = chain::runs_out(s, e.key);
    effects::tick(s, e);
    Ok(handling::settle_if(s, broken))
}

// 2 card in
pub fn card_in(s: &mut [u8], e: Event) -> Result<Answer, Refusal>
    requires accepted_image { AcceptedImage s.old }
    requires actor_bound { e.actor < 5 }
    ensures { Tried s.old (with_kind 2 e) result s.new }
{
    decisions::card_in(s, e)?;
    // With no mark to fall, past its date or not, more records are present and all others stay as they are.
    if !lookup::has_marked_operator(s) {
        effects::card_only(s, e);
        return Ok(handling::done(0, 0));
    }
    effects::card_in(s, e);
    Ok(handling::settle(s))
}

// 3 card out
pub fn card_out(s: &mut [u8], e: Event) -> Result<Answer, Refusal>
    requires accepted_image { AcceptedImage s.old }
    requires actor_bound { e.actor < 5 }
    ensures { Tried s.old (with_kind 3 e) result s.new }
{
    decisions::card_out(s, e)?;
    effects::card_out(s, e);
    Ok(handling::settle(s))
}

// 4 power up
pub fn power_up(s: &mut [u8], e: Event) -> Result<Answer, Refusal>
    requires accepted_image { AcceptedImage s.old }
    requires actor_bound { e.actor < 5 }
    ensures { Tried s.old (with_kind 4 e) result s.new }
{
    decisions::power_up(s, e)?;
    effects::power_up(s, e);
    Ok(handling::settle(s))
}
