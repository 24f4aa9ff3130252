// What is decided of an event about executables, on an image that nothing is written to.
ghost use Rattle.std.specs.Prelude.{◌<◌, ◌≤◌, length, ◌≡◌, ◌⊎◌};
ghost use Rattle.handling.specs.Plans.{on_executable, for_executable, plan};
ghost use Rattle.handling.specs.RefusalCodes.{by_code};
ghost use Rattle.executables.specs.Acting.{acting, permission_kind};
ghost use Rattle.executables.specs.TableRows.{table_rows};
ghost use Rattle.rules.specs.AcceptedImage.{AcceptedImage};
ghost use Rattle.records.specs.Frame.{Framed};
ghost use Rattle.records.specs.Phone.{decode};
ghost use Rattle.rules.specs.Words.{first};

use handling::Refusal;
use records::{Event, Executable, Row, image};
use terms::{actors, forms};

// 10 install executable
pub fn install_executable(s: &[u8], e: Event) -> Result<usize, Refusal>
    requires accepted_image { AcceptedImage s.now }
    requires actor_bound { e.actor < 5 }
    ensures { by_code result ≡ for_executable 10 (decode s.now) e }
{
    if !forms::executable_form(e) {
        return Err(Refusal::Malformed);
    }
    if !actors::may_act(Event::INSTALL_EXECUTABLE, 0, e.actor) {
        return Err(Refusal::ActorNotAllowed);
    }
    Ok(lookup::executable_room(s, e.id)?)
}

// What stands against an event of a kind on the executable that it names, besides its form.
fn on_executable(s: &[u8], e: Event, kind: u8) -> Result<usize, Refusal>
    requires accepted_image { AcceptedImage s.now }
    requires kind_bound { (kind < 16) × (e.actor < 5) }
    ensures { by_code result ≡ acting kind (decode s.now) e }
{
    let Some(slot) = lookup::executable_slot(s, e.id) else {
        return Err(Refusal::UnknownId);
    };
    if !actors::may_act(kind, 0, e.actor) {
        return Err(Refusal::ActorNotAllowed);
    }
    Ok(slot)
}

// 11 delete executable, or 12 verify: an id and nothing else.
pub fn named(s: &[u8], e: Event, kind: u8) -> Result<usize, Refusal>
    requires accepted_image { AcceptedImage s.now }
    requires actor_bound { e.actor < 5 }
    requires kind_value { (kind ≡ 11) ⊎ (kind ≡ 12) }
    ensures { by_code result ≡ on_executable kind (decode s.now) e }
{
    if !forms::id_form(e) {
        return Err(Refusal::Malformed);
    }
    on_executable(s, e, kind)
}

// 13 give permission, or 14 withdraw it
pub fn permission(s: &[u8], e: Event, given: bool) -> Result<usize, Refusal>
    requires accepted_image { AcceptedImage s.now }
    requires actor_bound { e.actor < 5 }
    ensures { by_code result ≡ on_executable (permission_kind given) (decode s.now) e }
{
    if !forms::action_form(image::action_count(s), e) {
        return Err(Refusal::Malformed);
    }
    on_executable(s, e, if given { Event::GIVE } else { Event::WITHDRAW })
}

// What the table says against an action of an executable.
fn table_says(s: &[u8], x: Executable, action: u16) -> Result<(), Refusal>
    requires framed { Framed s.now }
    requires action_in_bounds { action < length (decode s.now).table }
    requires domain_bound { x.domain ≤ 3 }
    ensures { by_code result ≡ plan (first (table_rows (decode s.now) x action)) tt }
{
    let byte = image::table_byte(s, action as usize, x.domain);
    if byte == Row::NEVER {
        return Err(Refusal::NeverAllowed);
    }
    if (byte == Row::WITH_PERMISSION) & !bits::has_bit(x.permissions, action as u32) {
        return Err(Refusal::NoPermission);
    }
    Ok(())
}

// 15 request
pub fn request(s: &[u8], e: Event) -> Result<usize, Refusal>
    requires accepted_image { AcceptedImage s.now }
    requires actor_bound { e.actor < 5 }
    ensures { by_code result ≡ on_executable 15 (decode s.now) e }
{
    if !forms::action_form(image::action_count(s), e) {
        return Err(Refusal::Malformed);
    }
    let slot = on_executable(s, e, Event::REQUEST)?;
    table_says(s, image::executable(s, slot), e.second)?;
    Ok(slot)
}
