// What is decided of an event about certificates, on an image that nothing is written to.
ghost use Rattle.std.specs.Prelude.{◌<◌, ◌≤◌, true, ◌≡◌, T, length, OnOk};
ghost use Rattle.handling.specs.Plans.{plan, on_certificate, for_certificate};
ghost use Rattle.handling.specs.RefusalCodes.{by_code};
ghost use Rattle.certificates.specs.Decisions.{of_other_card, of_other_operator, allowed_plan, absent_rows, PresentAt, listed_plan};
ghost use Rattle.certificates.specs.MarkingRows.{validity_rows, marking_rows, replacing_rows, replace_plan};
ghost use Rattle.rules.specs.AcceptedImage.{AcceptedImage};
ghost use Rattle.records.specs.Frame.{Framed};
ghost use Rattle.records.specs.Phone.{decode, certificate_at};
ghost use Rattle.rules.specs.Chains.{present};
ghost use Rattle.rules.specs.ImageRules.{slot_fits};
ghost use Rattle.rules.specs.Parts.{near_rival};
ghost use Rattle.rules.specs.Codes.{code_of};
ghost use Rattle.rules.specs.Forms.{with_kind};
ghost use Rattle.rules.specs.Words.{any, first};

use handling::Refusal;
use lookup::NoRoom;
use records::{Certificate, Event, image};
use terms::{actors, forms};

// Whether c is an operator root for a card of another operator.
#[tactic(auto, unfolding(rules::specs::Effects::on_a_card))]
fn of_other_card(s: &[u8], c: Certificate) -> bool
    requires { Framed s.now }
    ensures { result ≡ of_other_card (decode s.now) c }
{
    terms::on_a_card(c) && c.owner != lookup::operator_of(s, c.place)
}

// 5 install certificate
pub fn install_certificate(s: &[u8], e: Event) -> Result<usize, Refusal>
    requires accepted_image { AcceptedImage s.now }
    requires actor_bound { e.actor < 5 }
    ensures { by_code result ≡ for_certificate 5 (decode s.now) e }
{
    let c = forms::new_certificate(image::mode(s), e);
    if !terms::certificate_fits(c) {
        return Err(Refusal::Malformed);
    }
    if !actors::may_act(Event::INSTALL_CERTIFICATE, c.domain, e.actor) {
        return Err(Refusal::ActorNotAllowed);
    }
    if !lookup::known_place(s, c.place) {
        return Err(Refusal::UnknownCard);
    }
    if !terms::is_present(s, c) {
        return Err(Refusal::CardAbsent);
    }
    // Told behind a taken id and a key that is elsewhere, and before a full table.
    let other = of_other_card(s, c);
    match lookup::certificate_room(s, c.id, c.key, c.domain) {
        Err(NoRoom::Taken) => Err(Refusal::IdTaken),
        Err(NoRoom::Elsewhere) => Err(Refusal::KeyElsewhere),
        Err(NoRoom::Full) => {
            if other {
                return Err(Refusal::OtherOperator);
            }
            Err(Refusal::NoFreeSlot)
        }
        Ok(slot) => {
            if other {
                return Err(Refusal::OtherOperator);
            }
            Ok(slot)
        }
    }
}

// What stands against an event of a kind on the certificate that it names, besides its form, as far as who is allowed; it may be that nobody is.
#[inline]
fn allowed_on(s: &[u8], e: Event, kind: u8, nobody: bool) -> Result<usize, Refusal>
    requires accepted_image { AcceptedImage s.now }
    requires kind_bound { kind < 17 }
    requires actor_bound { e.actor < 5 }
    ensures { by_code result ≡ allowed_plan kind nobody (decode s.now) e }
{
    let Some(slot) = lookup::certificate_slot(s, e.id) else {
        return Err(Refusal::UnknownId);
    };
    let c = image::certificate(s, slot);
    if !(actors::may_act(kind, c.domain, e.actor) & actors::acts_for(kind, e, c)) | nobody {
        return Err(Refusal::ActorNotAllowed);
    }
    Ok(slot)
}

// And that it is present. By itself, so that both are small enough for the compiler to put them into their callers.
#[inline]
fn check_present(s: &[u8], slot: usize) -> Result<(), Refusal>
    requires framed { Framed s.now }
    requires slot_in_bounds { slot < length (decode s.now).trust.certificates }
    ensures { by_code result ≡ plan (first (absent_rows (decode s.now) (certificate_at (decode s.now) slot))) tt }
{
    if !terms::is_present(s, image::certificate(s, slot)) {
        return Err(Refusal::CardAbsent);
    }
    Ok(())
}

// 6 delete certificate
pub fn delete_certificate(s: &[u8], e: Event) -> Result<usize, Refusal>
    requires accepted_image { AcceptedImage s.now }
    requires actor_bound { e.actor < 5 }
    ensures { by_code result ≡ on_certificate 6 (decode s.now) e }
{
    if !forms::owned_form(e) {
        return Err(Refusal::Malformed);
    }
    let slot = allowed_on(s, e, Event::DELETE_CERTIFICATE, false)?;
    check_present(s, slot)?;
    Ok(slot)
}

// Whether x stands in the way of c being valid, a root that is present. What rules most records out is asked first; and nothing is asked of c alone,
// which the compiler would make a sweep of its own for.
fn is_rival(clock: u32, card: u16, c: Certificate, x: Certificate) -> bool
    ensures { result ≡ near_rival clock card c x }
{
    if !terms::valid_root(clock, x) {
        return false;
    }
    if x.domain != c.domain {
        return false;
    }
    (x.id != c.id) & ((x.place == c.place) | (x.place == card))
}

#[inline(always)]
fn has_rival(s: &[u8], clock: u32, card: u16, c: Certificate) -> bool
    requires { Framed s.now }
    ensures { result ≡ any (near_rival clock card c) (decode s.now).trust.certificates }
{
    let slots = image::certificate_slots(s);
    sweep::first(
        slots,
        |i| is_rival(clock, card, c, image::certificate(s, i)),
    )
    .is_some()
}

// Whether c is an operator root on the phone while a card of another operator is present.
fn of_other_operator(s: &[u8], c: Certificate) -> bool
    requires { Framed s.now }
    ensures { result ≡ of_other_operator (decode s.now) c }
{
    let card = image::card_present(s);
    terms::is_phone_operator_root(c) && card != 0 && c.owner != lookup::operator_of(s, card)
}

// What stands against c being valid, besides its mark and its date. The time, and whether it is of another operator, are lent
// to it, so that it is small enough for the compiler to put it into both its callers; the compiler is asked to, since it thinks otherwise.
#[inline(always)]
fn judge_validity(s: &[u8], clock: u32, c: Certificate, other: bool) -> Result<(), Refusal>
    requires accepted_image { AcceptedImage s.now }
    requires clock_value { clock ≡ (decode s.now).trust.seen.clock }
    requires other_value { other ≡ of_other_operator (decode s.now) c }
    requires c_fits { T (slot_fits c) }
    requires c_present { present (decode s.now).trust.seen c ≡ true }
    ensures { by_code result ≡ plan (first (validity_rows (decode s.now) c)) tt }
{
    if other {
        return Err(Refusal::OtherOperator);
    }
    if c.kind != Certificate::ROOT {
        return Err(Refusal::WrongKind);
    }
    if (c.domain != records::THIRD_PARTY) & has_rival(s, clock, image::card_present(s), c) {
        return Err(Refusal::AnotherValid);
    }
    Ok(())
}

// What stands against marking it valid: that, or its date.
fn judge_marking(s: &[u8], slot: usize) -> Result<(), Refusal>
    requires accepted_image { AcceptedImage s.now }
    requires present_at { PresentAt (decode s.now) slot }
    ensures { by_code result ≡ plan (first (marking_rows (decode s.now) (certificate_at (decode s.now) slot))) tt }
{
    let c = image::certificate(s, slot);
    let clock = image::clock(s);
    // Asked before it is told, while the record is at hand.
    let dated = terms::in_date(clock, c);
    judge_validity(s, clock, c, of_other_operator(s, c))?;
    if !dated {
        return Err(Refusal::PastItsDate);
    }
    Ok(())
}

// 7 mark valid
pub fn mark_valid(s: &[u8], e: Event) -> Result<usize, Refusal>
    requires accepted_image { AcceptedImage s.now }
    requires actor_bound { e.actor < 5 }
    ensures { by_code result ≡ on_certificate 7 (decode s.now) e }
{
    if !forms::owned_form(e) {
        return Err(Refusal::Malformed);
    }
    let slot = allowed_on(s, e, Event::MARK_VALID, false)?;
    check_present(s, slot)?;
    judge_marking(s, slot)?;
    Ok(slot)
}

// 8 mark invalid
pub fn mark_invalid(s: &[u8], e: Event) -> Result<usize, Refusal>
    requires accepted_image { AcceptedImage s.now }
    requires actor_bound { e.actor < 5 }
    ensures { by_code result ≡ on_certificate 8 (decode s.now) e }
{
    if !forms::owned_form(e) {
        return Err(Refusal::Malformed);
    }
    let slot = allowed_on(s, e, Event::MARK_INVALID, false)?;
    check_present(s, slot)?;
    if image::certificate(s, slot).kind != Certificate::ROOT {
        return Err(Refusal::WrongKind);
    }
    Ok(slot)
}

// What stands against replacing the root in a slot by record r: its key, what stands against it being valid, the record, or the date that the
// event brings.
fn judge_replacing(s: &[u8], e: Event, slot: usize, r: Certificate) -> Result<(), Refusal>
    requires accepted_image { AcceptedImage s.now }
    requires present_at { PresentAt (decode s.now) slot }
    ensures { by_code result ≡ plan (first (replacing_rows (decode s.now) e (certificate_at (decode s.now) slot) r)) tt }
{
    let c = image::certificate(s, slot);
    if lookup::key_elsewhere(s, e.key, c.domain) {
        return Err(Refusal::KeyElsewhere);
    }
    let clock = image::clock(s);
    judge_validity(s, clock, c, of_other_operator(s, c))?;
    if !terms::may_replace(e, c, r) {
        return Err(Refusal::NoRecovery);
    }
    if e.expiry < clock {
        return Err(Refusal::PastItsDate);
    }
    Ok(())
}

// What is decided of a replace whose recovery record is r: where that is a third party's, nobody is allowed.
fn replace_by(s: &[u8], e: Event, r: Certificate) -> Result<usize, Refusal>
    requires accepted_image { AcceptedImage s.now }
    requires actor_bound { e.actor < 5 }
    ensures { by_code result ≡ replace_plan (decode s.now) e r }
{
    let slot = allowed_on(s, e, Event::REPLACE, r.domain == records::THIRD_PARTY)?;
    check_present(s, slot)?;
    judge_replacing(s, e, slot, r)?;
    Ok(slot)
}

// 16 replace
pub fn replace(s: &[u8], e: Event) -> Result<usize, Refusal>
    requires accepted_image { AcceptedImage s.now }
    requires actor_bound { e.actor < 5 }
    ensures { by_code result ≡ on_certificate 16 (decode s.now) e }
{
    if !forms::replace_form(e) {
        return Err(Refusal::Malformed);
    }
    let Some(slot) = lookup::certificate_slot(s, e.second) else {
        return Err(Refusal::UnknownId);
    };
    replace_by(s, e, image::certificate(s, slot))
}

// Whether a message lists a certificate that is no third party root; it is refused where it lists one that is unknown.
fn judge_listed(s: &[u8], e: Event) -> Result<bool, Refusal>
    requires framed { Framed s.now }
    requires fourth_bound { e.fourth ≤ 8 }
    ensures { by_code result ≡ listed_plan (decode s.now) e }
{
    let mut other = false;
    for i in 0..e.fourth as usize {
        let Some(slot) = lookup::certificate_slot(s, forms::listed_id(e, i)) else {
            return Err(Refusal::UnknownId);
        };
        other |= !terms::is_third_party_root(image::certificate(s, slot));
    }
    Ok(other)
}

// 9 configuration message
pub fn message(s: &[u8], e: Event) -> Result<(), Refusal>
    requires accepted_image { AcceptedImage s.now }
    requires actor_bound { e.actor < 5 }
    ensures code { by_code result ≡ plan (code_of (decode s.now) (with_kind 9 e)) tt }
    ensures few { OnOk result (e.fourth ≤ 8) }
{
    if !forms::message_form(e) {
        return Err(Refusal::Malformed);
    }
    let other = judge_listed(s, e)?;
    if !actors::may_act(Event::MESSAGE, 0, e.actor) {
        return Err(Refusal::ActorNotAllowed);
    }
    if other {
        return Err(Refusal::WrongKind);
    }
    Ok(())
}
