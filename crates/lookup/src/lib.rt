// Records found: a certificate or an executable by its id, a card by its number, and what the rules ask of them.
#![tactic(auto)]

ghost use Rattle.std.specs.Prelude.{eqb, ◌&&◌, ◌≡◌};
ghost use Rattle.lookup.specs.RoomForOne.{certificate_room, executable_room};
ghost use Rattle.records.specs.Frame.{Framed};
ghost use Rattle.records.specs.Phone.{decode};
ghost use Rattle.rules.specs.Codes.{has_id, in_another, is_executable};
ghost use Rattle.rules.specs.Effects.{marked_operator};
ghost use Rattle.rules.specs.ImageRules.{has_valid_operator, in_card_table, known_place, operator_of, valid_in};
ghost use Rattle.rules.specs.Words.{any};
ghost use Rattle.sweep.specs.FirstPassing.{found};

use records::{Certificate, image};

// Where the certificate with this id stands. Id 0 finds the lowest free slot.
pub fn certificate_slot(s: &[u8], id: u16) -> Option<usize>
    requires { Framed s.now }
    ensures { result ≡ found (has_id id) (decode s.now).trust.certificates }
{
    sweep::first(
        image::certificate_slots(s),
        |i| image::certificate_has_id(s, i, id),
    )
}

// Where the executable with this id stands. Id 0 finds the lowest free slot.
pub fn executable_slot(s: &[u8], id: u16) -> Option<usize>
    requires { Framed s.now }
    ensures { result ≡ found (is_executable id) (decode s.now).executables }
{
    sweep::first(
        image::executable_slots(s),
        |i| image::executable_has_id(s, i, id),
    )
}

// Why there is no room for one more record: its id is taken, a certificate of another domain has its key, or no slot is free.
#[derive(Clone, Copy)]
pub enum NoRoom {
    Taken,
    Elsewhere,
    Full,
}

// The lowest free slot for an executable with this id. One sweep, from the last slot down: the last free slot met is the lowest.
pub fn executable_room(s: &[u8], id: u16) -> Result<usize, NoRoom>
    requires { Framed s.now }
    ensures { result ≡ executable_room id (decode s.now).executables }
{
    let mut room = Err(NoRoom::Full);
    for i in (0..image::executable_slots(s)).rev() {
        if image::executable_has_id(s, i, id) {
            return Err(NoRoom::Taken);
        }
        if image::executable_has_id(s, i, 0) {
            room = Ok(i);
        }
    }
    room
}

// Whether c has the key in another domain.
fn in_another(c: Certificate, key: u32, domain: u8) -> bool
    ensures { result ≡ in_another key domain c }
{
    (c.key == key) && (c.domain != domain)
}

// Whether a certificate has this id. Asked seldom and kept apart, so that the sweep that asks stays small.
#[inline(never)]
fn is_taken(s: &[u8], id: u16) -> bool
    requires { Framed s.now }
    ensures { result ≡ any (has_id id) (decode s.now).trust.certificates }
{
    certificate_slot(s, id).is_some()
}

// The same for a certificate, of which no other domain may have the key.
pub fn certificate_room(s: &[u8], id: u16, key: u32, domain: u8) -> Result<usize, NoRoom>
    requires { Framed s.now }
    ensures { result ≡ certificate_room id key domain (decode s.now).trust.certificates }
{
    let mut free = Err(NoRoom::Full);
    for i in (0..image::certificate_slots(s)).rev() {
        let c = image::certificate(s, i);
        if c.id == id {
            return Err(NoRoom::Taken);
        }
        if in_another(c, key, domain) {
            // An id that is taken is told first, and the slots below have not been asked.
            if is_taken(s, id) {
                return Err(NoRoom::Taken);
            }
            return Err(NoRoom::Elsewhere);
        }
        if c.id == 0 {
            free = Ok(i);
        }
    }
    free
}

// Whether "a certificate of another domain has this key".
pub fn key_elsewhere(s: &[u8], key: u32, domain: u8) -> bool
    requires { Framed s.now }
    ensures { result ≡ any (in_another key domain) (decode s.now).trust.certificates }
{
    let slots = image::certificate_slots(s);
    sweep::first(slots, |i| in_another(image::certificate(s, i), key, domain)).is_some()
}

fn in_card_table(s: &[u8], n: u16) -> bool
    requires { Framed s.now }
    ensures { result ≡ in_card_table (decode s.now).cards n }
{
    sweep::first(image::card_count(s), |i| image::card(s, i).number == n).is_some()
}

// "is 0 or in the table"
pub fn known_place(s: &[u8], n: u16) -> bool
    requires { Framed s.now }
    ensures { result ≡ known_place (decode s.now).cards n }
{
    if n == 0 {
        return true;
    }
    in_card_table(s, n)
}

// "the card's operator", and 0 where there is no such card.
pub fn operator_of(s: &[u8], n: u16) -> u32
    requires { Framed s.now }
    ensures { result ≡ operator_of (decode s.now).cards n }
{
    match sweep::first(image::card_count(s), |i| image::card(s, i).number == n) {
        Some(i) => image::card(s, i).operator,
        None => 0,
    }
}

// A valid operator root in a place. Most records are none, so that is asked first.
fn valid_operator(clock: u32, place: u16, c: Certificate) -> bool
    ensures { result ≡ (valid_in 1 clock c && eqb c.place place) }
{
    if !terms::valid_in(records::OPERATOR, clock, c) {
        return false;
    }
    c.place == place
}

// Whether an operator root on the phone is marked valid, past its date or not.
pub fn has_marked_operator(s: &[u8]) -> bool
    requires { Framed s.now }
    ensures { result ≡ any marked_operator (decode s.now).trust.certificates }
{
    let slots = image::certificate_slots(s);
    sweep::first(
        slots,
        |i| terms::is_marked_operator(image::certificate(s, i)),
    )
    .is_some()
}

// Whether a place "has a valid-marked operator root".
pub fn has_valid_operator(s: &[u8], place: u16) -> bool
    requires { Framed s.now }
    ensures { result ≡ has_valid_operator (decode s.now).trust place }
{
    let clock = image::clock(s);
    let slots = image::certificate_slots(s);
    sweep::first(
        slots,
        |i| valid_operator(clock, place, image::certificate(s, i)),
    )
    .is_some()
}
