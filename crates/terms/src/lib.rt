// One record, or two: what the rules ask of them. The forms of events are in `forms`, who may act in `actors`.
#![tactic(auto)]

pub mod actors;
pub mod forms;

ghost use Rattle.std.specs.Prelude.{◌≤◌, ◌≡◌};
ghost use Rattle.records.specs.Frame.{Framed};
ghost use Rattle.records.specs.Phone.{decode};
ghost use Rattle.rules.specs.Chains.{in_date, present, valid_root};
ghost use Rattle.rules.specs.Effects.{phone_operator_root, marked_operator, on_a_card};
ghost use Rattle.rules.specs.ImageRules.{card_fits, certificate_fits, certificate_ranges, issued_fits, recovery_fits, root_fits};
ghost use Rattle.rules.specs.ImageRules.{executable_fits, key_of_one_domain, executable_slot_fits, row_fits, third_party_root, valid_in, zero_executable};
ghost use Rattle.rules.specs.ImageRules.{slot_fits, zero_certificate};
ghost use Rattle.rules.specs.Codes.{may_replace};
ghost use Rattle.rules.specs.Parts.{apart};

use records::{Card, Certificate, Event, Executable, Row, image};

// Ids, and numbers of cards: 0 stands as often as it likes.
pub fn apart(n: u16, m: u16) -> bool
    ensures { result ≡ apart n m }
{
    (n == 0) | (n != m)
}

// ---- I2 Certificate

fn zero_certificate(c: Certificate) -> bool
    ensures { result ≡ zero_certificate c }
{
    c == Certificate::FREE
}

fn certificate_ranges(c: Certificate) -> bool
    ensures { result ≡ certificate_ranges c }
{
    (c.id != 0)
        & (c.key != 0)
        & (c.kind <= Certificate::RECOVERY)
        & ((records::OPERATOR <= c.domain) & (c.domain <= records::THIRD_PARTY))
        & (c.mark <= Certificate::VALID)
        & (c.enabled <= records::ENABLED)
}

fn root_fits(c: Certificate) -> bool
    ensures { result ≡ root_fits c }
{
    (c.verifying == 0)
        & (!(c.domain == records::MANUFACTURER) | (c.place == 0))
        & ((c.enabled == records::ENABLED) | (c.domain == records::THIRD_PARTY))
}

fn issued_fits(c: Certificate) -> bool
    ensures { result ≡ issued_fits c }
{
    (c.verifying != 0) & (c.mark == Certificate::VALID) & (c.enabled == records::ENABLED)
}

fn recovery_fits(c: Certificate) -> bool
    ensures { result ≡ recovery_fits c }
{
    (c.place == 0)
        & (c.domain <= records::MANUFACTURER)
        & (c.verifying == 0)
        & (c.mark == Certificate::INVALID)
        & (c.enabled == records::ENABLED)
}

// An occupied slot; "ranges as I2" of an install event go by it too. Few records are recovery keys, so that is asked first and apart.
pub fn certificate_fits(c: Certificate) -> bool
    ensures { result ≡ certificate_fits c }
{
    if c.kind == Certificate::RECOVERY {
        return certificate_ranges(c) & recovery_fits(c);
    }
    certificate_ranges(c)
        & (!(c.kind == Certificate::ROOT) | root_fits(c))
        & (!(c.kind == Certificate::ISSUED) | issued_fits(c))
}

pub fn slot_fits(c: Certificate) -> bool
    ensures { result ≡ slot_fits c }
{
    if c.id == 0 {
        return zero_certificate(c);
    }
    certificate_fits(c)
}

// ---- I3 Card

pub fn card_fits(k: Card) -> bool
    ensures { result ≡ card_fits k }
{
    (k.number != 0) & (k.blank == 0)
}

// ---- I4

// A free slot has key 0, and no certificate has. Most keys differ, so that is asked first.
pub fn key_of_one_domain(c: Certificate, e: Certificate) -> bool
    ensures { result ≡ key_of_one_domain c e }
{
    if c.key != e.key {
        return true;
    }
    (c.key == 0) | (c.domain == e.domain)
}

// ---- I6 Table

pub fn row_fits(r: Row) -> bool
    ensures { result ≡ row_fits r }
{
    (r.untrusted <= r.operator)
        & (r.untrusted <= r.manufacturer)
        & (r.untrusted <= r.third)
        & (r.operator <= Row::FREELY)
        & (r.manufacturer <= Row::FREELY)
        & (r.third <= Row::FREELY)
}

// ---- I7 Executable

fn zero_executable(x: Executable) -> bool
    ensures { result ≡ zero_executable x }
{
    x == Executable::FREE
}

fn executable_fits(actions: usize, x: Executable) -> bool
    requires { actions ≤ 32 }
    ensures { result ≡ executable_fits actions x }
{
    (x.domain <= records::THIRD_PARTY) & (x.blank == 0) & ((x.permissions as u64) < 1u64 << actions)
}

pub fn executable_slot_fits(actions: usize, x: Executable) -> bool
    requires { actions ≤ 32 }
    ensures { result ≡ executable_slot_fits actions x }
{
    if x.id == 0 {
        return zero_executable(x);
    }
    executable_fits(actions, x)
}

// ---- what the chains ask

pub fn is_present(s: &[u8], c: Certificate) -> bool
    requires { Framed s.now }
    ensures { result ≡ present (decode s.now).trust.seen c }
{
    (c.place == 0) | (c.place == image::card_present(s))
}

pub fn in_date(clock: u32, c: Certificate) -> bool
    ensures { result ≡ in_date clock c }
{
    clock <= c.expiry
}

// A root that is marked valid and not past its date.
pub fn valid_root(clock: u32, c: Certificate) -> bool
    ensures { result ≡ valid_root clock c }
{
    (c.kind == Certificate::ROOT) & (c.mark == Certificate::VALID) & in_date(clock, c)
}

// A valid root of domain d.
pub fn valid_in(d: u8, clock: u32, c: Certificate) -> bool
    ensures { result ≡ valid_in d clock c }
{
    valid_root(clock, c) & (c.domain == d)
}

// ---- which root

pub fn is_third_party_root(c: Certificate) -> bool
    ensures { result ≡ third_party_root c }
{
    (c.kind == Certificate::ROOT) & (c.domain == records::THIRD_PARTY)
}

// An operator root on the phone.
pub fn is_phone_operator_root(c: Certificate) -> bool
    ensures { result ≡ phone_operator_root c }
{
    (c.kind == Certificate::ROOT) & (c.domain == records::OPERATOR) & (c.place == 0)
}

// The same, marked valid, past its date or not.
pub fn is_marked_operator(c: Certificate) -> bool
    ensures { result ≡ marked_operator c }
{
    is_phone_operator_root(c) & (c.mark == Certificate::VALID)
}

// "A card's operator root": marking it valid takes the phone's marks.
pub fn on_a_card(c: Certificate) -> bool
    ensures { result ≡ on_a_card c }
{
    // Asked first: most records are of other domains.
    if c.domain != records::OPERATOR {
        return false;
    }
    (c.kind == Certificate::ROOT) & (c.place != 0)
}

// ---- what a replace asks

// Whether event e may replace root r by record s.
pub fn may_replace(e: Event, r: Certificate, s: Certificate) -> bool
    ensures { result ≡ may_replace e r s }
{
    (s.kind == Certificate::RECOVERY)
        & (s.place == 0)
        & (r.place == 0)
        & (r.domain == s.domain)
        & (r.owner == s.owner)
        & (e.owner == r.owner)
        & (e.verifying == s.key)
}
