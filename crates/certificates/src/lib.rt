// Kinds 5 to 9 and 16, certificates: the decision, and where the event is allowed the effect and the settling, where a chain can break.
#![tactic(auto)]

mod decisions;
mod effects;

ghost use Rattle.std.specs.Prelude.{◌<◌};
ghost use Rattle.handling.specs.Handled.{Tried};
ghost use Rattle.rules.specs.AcceptedImage.{AcceptedImage};
ghost use Rattle.rules.specs.Forms.{with_kind};

use handling::Refusal;
use records::{Event, image};
use rules::Answer;
use terms::forms;

// 5 install certificate: no chain can break.
pub fn install_certificate(s: &mut [u8], e: Event) -> Result<Answer, Refusal>
    requires accepted_image { AcceptedImage s.old }
    requires actor_bound { e.actor < 5 }
    ensures { Tried s.old (with_kind 5 e) result s.new }
{
    let slot = decisions::install_certificate(s, e)?;
    let c = forms::new_certificate(image::mode(s), e);
    effects::install_certificate(s, c, slot);
    Ok(handling::done(0, 0))
}

// 6 delete certificate: a chain stays in its domain, so only those of the certificate's own can break.
pub fn delete_certificate(s: &mut [u8], e: Event) -> Result<Answer, Refusal>
    requires accepted_image { AcceptedImage s.old }
    requires actor_bound { e.actor < 5 }
    ensures { Tried s.old (with_kind 6 e) result s.new }
{
    let slot = decisions::delete_certificate(s, e)?;
    let gone = image::certificate(s, slot);
    effects::delete_certificate(s, e, slot);
    Ok(handling::settle_own(s, gone.domain))
}

// 7 mark valid: only the marks that a card's operator root takes can break a chain.
pub fn mark_valid(s: &mut [u8], e: Event) -> Result<Answer, Refusal>
    requires accepted_image { AcceptedImage s.old }
    requires actor_bound { e.actor < 5 }
    ensures { Tried s.old (with_kind 7 e) result s.new }
{
    let slot = decisions::mark_valid(s, e)?;
    let takes = terms::on_a_card(image::certificate(s, slot));
    effects::mark_valid(s, e, slot);
    Ok(handling::settle_if(s, takes))
}

// 8 mark invalid
pub fn mark_invalid(s: &mut [u8], e: Event) -> Result<Answer, Refusal>
    requires accepted_image { AcceptedImage s.old }
    requires actor_bound { e.actor < 5 }
    ensures { Tried s.old (with_kind 8 e) result s.new }
{
    let slot = decisions::mark_invalid(s, e)?;
    let root = image::certificate(s, slot);
    effects::mark_invalid(s, e, slot);
    Ok(handling::settle_own(s, root.domain))
}

// 9 configuration message
pub fn message(s: &mut [u8], e: Event) -> Result<Answer, Refusal>
    requires accepted_image { AcceptedImage s.old }
    requires actor_bound { e.actor < 5 }
    ensures { Tried s.old (with_kind 9 e) result s.new }
{
    decisions::message(s, e)?;
    let broken = effects::message(s, e);
    Ok(handling::settle_if(s, broken))
}

// 16 replace: the key that the root had is gone, and with it chains of the root's own domain.
pub fn replace(s: &mut [u8], e: Event) -> Result<Answer, Refusal>
    requires accepted_image { AcceptedImage s.old }
    requires actor_bound { e.actor < 5 }
    ensures { Tried s.old (with_kind 16 e) result s.new }
{
    let slot = decisions::replace(s, e)?;
    let root = image::certificate(s, slot);
    effects::replace(s, e, slot);
    Ok(handling::settle_own(s, root.domain))
}
