// What an event about certificates writes, once it is done.
ghost use Rattle.std.specs.Prelude.{◌<◌, ◌≤◌, eqb, length, ◌≡◌};
ghost use Rattle.certificates.specs.StoredCertificate.{NamedAt, stored};
ghost use Rattle.chain.specs.Breaks.{disables};
ghost use Rattle.rules.specs.Words.{first_place, any};
ghost use Rattle.rules.specs.AcceptedImage.{AcceptedImage};
ghost use Rattle.records.specs.Frame.{Framed};
ghost use Rattle.records.specs.Phone.{decode, encode};
ghost use Rattle.rules.specs.Codes.{has_id};
ghost use Rattle.rules.specs.Effects.{delete_certificate, enabled_by, mark_invalid, mark_valid, message, replace};
ghost use Rattle.rules.specs.Forms.{listed};

use records::{Certificate, Event, image};
use terms::forms;

// 5: c is stored in the lowest free slot.
pub fn install_certificate(s: &mut [u8], c: Certificate, slot: usize)
    requires framed { Framed s.old }
    requires slot_value { slot ≡ first_place (has_id 0) (decode s.old).trust.certificates }
    requires slot_in_bounds { slot < length (decode s.old).trust.certificates }
    ensures { s.new ≡ encode (stored c (decode s.old)) }
{
    image::write_certificate(s, slot, c);
}

// 6
pub fn delete_certificate(s: &mut [u8], e: Event, slot: usize)
    requires accepted_image { AcceptedImage s.old }
    requires named { NamedAt (decode s.old) e slot }
    ensures { s.new ≡ encode (delete_certificate e (decode s.old)) }
{
    image::clear_certificate(s, slot);
}

// 7: the mark of a card's operator root takes the phone's away first.
pub fn mark_valid(s: &mut [u8], e: Event, slot: usize)
    requires accepted_image { AcceptedImage s.old }
    requires named { NamedAt (decode s.old) e slot }
    ensures { s.new ≡ encode (mark_valid e (decode s.old)) }
{
    let c = image::certificate(s, slot);
    if terms::on_a_card(c) {
        handling::retire(s, true, 0);
        image::set_mark(s, slot, Certificate::VALID);
        return;
    }
    image::set_mark(s, slot, Certificate::VALID);
}

// 8
pub fn mark_invalid(s: &mut [u8], e: Event, slot: usize)
    requires accepted_image { AcceptedImage s.old }
    requires named { NamedAt (decode s.old) e slot }
    ensures { s.new ≡ encode (mark_invalid e (decode s.old)) }
{
    image::set_mark(s, slot, Certificate::INVALID);
}

// 16: the root keeps its slot.
pub fn replace(s: &mut [u8], e: Event, slot: usize)
    requires accepted_image { AcceptedImage s.old }
    requires named { NamedAt (decode s.old) e slot }
    ensures { s.new ≡ encode (replace e (decode s.old)) }
{
    let c = image::certificate(s, slot);
    image::write_certificate(s, slot, forms::replaced(e, c));
}

// Whether a message lists this id.
fn is_listed(e: Event, id: u16) -> bool
    requires { e.fourth ≤ 8 }
    ensures { result ≡ any (eqb id) (listed e) }
{
    for i in 0..e.fourth as usize {
        if id == forms::listed_id(e, i) {
            return true;
        }
    }
    false
}

// What a message makes of `enabled`.
#[tactic(auto, unfolding(rules::specs::Effects::enabled_by))]
fn enabled_by(e: Event, c: Certificate) -> u8
    requires { e.fourth ≤ 8 }
    ensures { result ≡ enabled_by e c }
{
    if e.third == Event::ENABLE_ALL {
        return records::ENABLED;
    }
    if e.third != Event::ENABLE_LISTED {
        return records::DISABLED;
    }
    if is_listed(e, c.id) {
        return records::ENABLED;
    }
    records::DISABLED
}

// 9: it also tells whether it disables a root that is enabled: only then can it break a chain.
pub fn message(s: &mut [u8], e: Event) -> bool
    requires framed { Framed s.old }
    requires fourth_bound { e.fourth ≤ 8 }
    ensures image { s.new ≡ encode (message e (decode s.old)) }
    ensures broken { result ≡ any (disables e) (decode s.old).trust.certificates }
{
    let slots = image::certificate_slots(s);
    let mut broken = false;
    for i in 0..slots {
        let c = image::certificate(s, i);
        if !terms::is_third_party_root(c) {
            continue;
        }
        let enabled = enabled_by(e, c);
        image::set_enabled(s, i, enabled);
        broken |= (c.enabled == records::ENABLED) & (enabled != records::ENABLED);
    }
    image::set_mode(s, e.third as u16);
    broken
}
