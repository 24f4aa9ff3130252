// Kinds 10 to 15, executables: no chain can be touched, so that there is nothing to settle.
#![tactic(auto)]

mod decisions;
mod effects;

ghost use Rattle.std.specs.Prelude.{◌<◌};
ghost use Rattle.executables.specs.Acting.{permission_kind};
ghost use Rattle.handling.specs.Handled.{Tried};
ghost use Rattle.rules.specs.AcceptedImage.{AcceptedImage};
ghost use Rattle.rules.specs.Forms.{with_kind};

use handling::Refusal;
use records::{Event, image};
use rules::Answer;

// 10 install executable
pub fn install_executable(s: &mut [u8], e: Event) -> Result<Answer, Refusal>
    requires accepted_image { AcceptedImage s.old }
    requires actor_bound { e.actor < 5 }
    ensures { Tried s.old (with_kind 10 e) result s.new }
{
    let slot = decisions::install_executable(s, e)?;
    effects::install_executable(s, e, slot);
    Ok(handling::done(0, 0))
}

// 11 delete executable
pub fn delete_executable(s: &mut [u8], e: Event) -> Result<Answer, Refusal>
    requires accepted_image { AcceptedImage s.old }
    requires actor_bound { e.actor < 5 }
    ensures { Tried s.old (with_kind 11 e) result s.new }
{
    let slot = decisions::named(s, e, Event::DELETE_EXECUTABLE)?;
    effects::delete_executable(s, e, slot);
    Ok(handling::done(0, 0))
}

// 12 verify
pub fn verify(s: &mut [u8], e: Event) -> Result<Answer, Refusal>
    requires accepted_image { AcceptedImage s.old }
    requires actor_bound { e.actor < 5 }
    ensures { Tried s.old (with_kind 12 e) result s.new }
{
    let slot = decisions::named(s, e, Event::VERIFY)?;
    let told = effects::verify(s, e, slot);
    Ok(handling::done(told.domain, told.links))
}

// 13 and 14: a permission is given or withdrawn. Inlined, since an event that is passed on is put together whole.
#[inline]
fn permit(s: &mut [u8], e: Event, given: bool) -> Result<Answer, Refusal>
    requires accepted_image { AcceptedImage s.old }
    requires actor_bound { e.actor < 5 }
    ensures { Tried s.old (with_kind (permission_kind given) e) result s.new }
{
    let slot = decisions::permission(s, e, given)?;
    effects::permit(s, e, slot, given);
    Ok(handling::done(0, 0))
}

// 13 give permission
pub fn give(s: &mut [u8], e: Event) -> Result<Answer, Refusal>
    requires accepted_image { AcceptedImage s.old }
    requires actor_bound { e.actor < 5 }
    ensures { Tried s.old (with_kind 13 e) result s.new }
{
    permit(s, e, true)
}

// 14 withdraw permission
pub fn withdraw(s: &mut [u8], e: Event) -> Result<Answer, Refusal>
    requires accepted_image { AcceptedImage s.old }
    requires actor_bound { e.actor < 5 }
    ensures { Tried s.old (with_kind 14 e) result s.new }
{
    permit(s, e, false)
}

// 15 request: it reads, and is the one handler that is lent the image without the right to write.
pub fn request(s: &[u8], e: Event) -> Result<Answer, Refusal>
    requires accepted_image { AcceptedImage s.now }
    requires actor_bound { e.actor < 5 }
    ensures { Tried s.now (with_kind 15 e) result s.now }
{
    let slot = decisions::request(s, e)?;
    let x = image::executable(s, slot);
    Ok(handling::done(x.domain, chain::links_of(s, x.signing, x.domain)))
}
