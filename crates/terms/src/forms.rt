// The form of each kind of event, and what the fields of one say.
ghost use Rattle.std.specs.Prelude.{◌≤◌, eqb, get_or, length, not, ◌≡◌};
ghost use Rattle.terms.specs.Seldom.{four_bytes, rarely, seldom, two_bytes};
ghost use Rattle.records.specs.Phone.{Phone};
ghost use Rattle.rules.specs.Effects.{replaced};
ghost use Rattle.rules.specs.Forms.{action_form, card_form, clock_form, eight, executable_form, id_form, listed, message_form, new_certificate};
ghost use Rattle.rules.specs.Forms.{owned_form, replace_form, unlisted};
ghost use Rattle.rules.specs.Words.{all, all_zero};

use crate::actors;
use records::{Certificate, Event, Header};

// How many numbers a message can list.
const MOST: usize = Event::MOST_LISTED as usize;

// The two bytes of third and fourth as one number: 0 where each is.
fn two_bytes(e: Event) -> u64
    ensures { (result ≡ two_bytes e) × (result ≤ 65535) }
{
    e.third as u64 * 256 + e.fourth as u64
}

// The four bytes from second to fourth as one number.
fn four_bytes(e: Event) -> u64
    ensures { (result ≡ four_bytes e) × (result ≤ 4294967295) }
{
    e.second as u64 * 65536 + two_bytes(e)
}

// The long fields that hardly any kind uses, as a sum: 0 where each is.
fn rarely(e: Event) -> u64
    ensures { (result ≡ rarely e) × (result ≤ 9000000000) }
{
    e.verifying as u64 + e.expiry as u64
}

// The long fields that few kinds use, as a sum: 0 where each is.
fn seldom(e: Event) -> u64
    ensures { (result ≡ seldom e) × (result ≤ 13000000000) }
{
    e.verifying as u64 + e.owner as u64 + e.expiry as u64
}

pub fn clock_form(e: Event) -> bool
    ensures { (p : Phone) → result ≡ clock_form p e }
{
    e.id as u64 + four_bytes(e) + seldom(e) == 0
}

pub fn card_form(e: Event) -> bool
    ensures { (p : Phone) → result ≡ card_form p e }
{
    e.id as u64 + two_bytes(e) + e.key as u64 + seldom(e) == 0
}

pub fn id_form(e: Event) -> bool
    ensures { (p : Phone) → result ≡ id_form p e }
{
    (e.id != 0) & (four_bytes(e) + e.key as u64 + seldom(e) == 0)
}

// Of an event on a certificate: an operator or a manufacturer says who it is, and nobody else.
pub fn owned_form(e: Event) -> bool
    ensures { (p : Phone) → result ≡ owned_form p e }
{
    (e.id != 0)
        & (four_bytes(e) + e.key as u64 + rarely(e) == 0)
        & (actors::is_somebody(e.actor) | (e.owner == 0))
}

pub fn executable_form(e: Event) -> bool
    ensures { (p : Phone) → result ≡ executable_form p e }
{
    (e.id != 0) & (four_bytes(e) + seldom(e) == 0)
}

pub fn action_form(actions: usize, e: Event) -> bool
    ensures { (p : Phone) → actions ≡ length p.table → result ≡ action_form p e }
{
    (e.id != 0) & ((e.second as usize) < actions) & (two_bytes(e) + e.key as u64 + seldom(e) == 0)
}

pub fn replace_form(e: Event) -> bool
    ensures { (p : Phone) → result ≡ replace_form p e }
{
    (e.id != 0) & (e.second != 0) & (e.key != 0) & (two_bytes(e) == 0)
}

// One of the eight numbers that a configuration message may list.
pub fn listed_id(e: Event, i: usize) -> u16
    ensures { result ≡ get_or (eight e) i 0 }
{
    match i {
        0 => (e.key / 65536) as u16,
        1 => (e.key % 65536) as u16,
        2 => (e.verifying / 65536) as u16,
        3 => (e.verifying % 65536) as u16,
        4 => (e.owner / 65536) as u16,
        5 => (e.owner % 65536) as u16,
        6 => (e.expiry / 65536) as u16,
        7 => (e.expiry % 65536) as u16,
        _ => 0,
    }
}

fn listed_not_zero(e: Event) -> bool
    requires { e.fourth ≤ 8 }
    ensures { result ≡ all (λ n. not (eqb n 0)) (listed e) }
{
    (0..e.fourth as usize).all(|i| listed_id(e, i) != 0)
}

fn unlisted_zero(e: Event) -> bool
    requires { e.fourth ≤ 8 }
    ensures { result ≡ all_zero (unlisted e) }
{
    (e.fourth as usize..MOST).all(|i| listed_id(e, i) == 0)
}

pub fn message_form(e: Event) -> bool
    ensures { (p : Phone) → result ≡ message_form p e }
{
    if Event::MOST_LISTED < e.fourth {
        return false;
    }
    (e.third <= Event::ENABLE_LISTED)
        & ((e.fourth == 0) | (e.third == Event::ENABLE_LISTED))
        & (e.id as u64 + e.second as u64 == 0)
        & listed_not_zero(e)
        & unlisted_zero(e)
}

// The certificate that an install event stores under a standing mode.
pub fn new_certificate(mode: u16, e: Event) -> Certificate
    ensures { result ≡ new_certificate mode e }
{
    let third_party_root = (e.third == Certificate::ROOT) & (e.fourth == records::THIRD_PARTY);
    Certificate {
        id: e.id,
        place: e.second,
        kind: e.third,
        domain: e.fourth,
        mark: u8::from((e.third == Certificate::ISSUED) | third_party_root),
        enabled: u8::from(!(third_party_root & (mode != Header::ENABLE_ALL))),
        key: e.key,
        verifying: e.verifying,
        owner: e.owner,
        expiry: e.expiry,
    }
}

// What a replace makes of the root c.
pub fn replaced(e: Event, c: Certificate) -> Certificate
    ensures { result ≡ replaced e c }
{
    Certificate {
        mark: Certificate::VALID,
        key: e.key,
        owner: e.owner,
        expiry: e.expiry,
        ..c
    }
}
