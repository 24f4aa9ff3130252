// The sweeps of the rules: each tells the lowest record that breaks a rule, alone or with lower ones, if one does.
ghost use Rattle.std.specs.Prelude.{◌&&◌, ◌||◌, ◌≡◌, ◌≤◌, ◌<◌, length, take};
ghost use Rattle.records.specs.Phone.{decode, certificate_at, card_at, executable_at};
ghost use Rattle.records.specs.Frame.{Framed};
ghost use Rattle.rules.specs.Words.{all};
ghost use Rattle.rules.specs.ImageRules.{valid_in, known_place, key_of_one_domain, card_owns, one_in_place, one_manufacturer, row_fits, i4, i5, i7};
ghost use Rattle.rules.specs.ImageRules.{slot_fits, cards_fit, not_both, owned_by_card};
ghost use Rattle.rules.specs.Parts.{apart, card_with, i5_pair, executable_with};
ghost use Rattle.opening.specs.Lower.{i4_at, i5_at, i5_pairs};
ghost use Rattle.sweep.specs.LowestBroken.{broken_at};
ghost use Rattle.rules.specs.Faults.{of_certificates, of_executables};

use records::{Certificate, image};

// ---- I2 Certificate

pub fn slots_fit(s: &[u8]) -> Option<usize>
    requires { Framed s.now }
    ensures { result ≡ broken_at (all slot_fits) (decode s.now).trust.certificates }
{
    sweep::first(
        image::certificate_slots(s),
        |i| !terms::slot_fits(image::certificate(s, i)),
    )
}

// ---- I3 Card

pub fn places_known(s: &[u8]) -> Option<usize>
    requires { Framed s.now }
    ensures { result ≡ broken_at (all (λ c. known_place (decode s.now).cards c.place)) (decode s.now).trust.certificates }
{
    sweep::first(
        image::certificate_slots(s),
        |i| !lookup::known_place(s, image::certificate(s, i).place),
    )
}

// Whether no card below card i has its number.
fn number_apart(s: &[u8], i: usize) -> bool
    requires framed { Framed s.now }
    requires i_in_bounds { i < length (decode s.now).cards }
    ensures { result ≡ all (λ y. apart (card_at (decode s.now) i).number y.number) (take i (decode s.now).cards) }
{
    let n = image::card(s, i).number;
    sweep::first(i, |j| !terms::apart(n, image::card(s, j).number)).is_none()
}

fn card_with(s: &[u8], i: usize) -> bool
    requires framed { Framed s.now }
    requires i_in_bounds { i < length (decode s.now).cards }
    ensures { result ≡ card_with (take i (decode s.now).cards) (card_at (decode s.now) i) }
{
    terms::card_fits(image::card(s, i)) & number_apart(s, i)
}

pub fn cards(s: &[u8]) -> Option<usize>
    requires { Framed s.now }
    ensures { result ≡ broken_at cards_fit (decode s.now).cards }
{
    sweep::first(image::card_count(s), |i| !card_with(s, i))
}

// ---- I4

// Whether no certificate below certificate i has its id.
fn id_apart(s: &[u8], i: usize) -> bool
    requires framed { Framed s.now }
    requires i_in_bounds { i < length (decode s.now).trust.certificates }
    ensures { result ≡ all (λ y. apart (certificate_at (decode s.now) i).id y.id) (take i (decode s.now).trust.certificates) }
{
    let id = image::certificate(s, i).id;
    if id == 0 {
        return true;
    }
    sweep::first(i, |j| image::certificate_has_id(s, j, id)).is_none()
}

// Whether no certificate below certificate i, and of another domain, has its key.
fn key_apart(s: &[u8], i: usize) -> bool
    requires framed { Framed s.now }
    requires i_in_bounds { i < length (decode s.now).trust.certificates }
    ensures { result ≡ all (key_of_one_domain (certificate_at (decode s.now) i)) (take i (decode s.now).trust.certificates) }
{
    let c = image::certificate(s, i);
    sweep::first(
        i,
        |j| !terms::key_of_one_domain(c, image::certificate(s, j)),
    )
    .is_none()
}

fn card_owns(s: &[u8], c: Certificate) -> bool
    requires { Framed s.now }
    ensures { result ≡ card_owns (decode s.now).cards c }
{
    if terms::on_a_card(c) {
        return c.owner == lookup::operator_of(s, c.place);
    }
    true
}

fn i4_with(s: &[u8], i: usize) -> bool
    requires framed { Framed s.now }
    requires i_in_bounds { i < length (decode s.now).trust.certificates }
    ensures { result ≡ i4_at (decode s.now) i }
{
    card_owns(s, image::certificate(s, i)) & id_apart(s, i) & key_apart(s, i)
}

pub fn i4(s: &[u8]) -> Option<usize>
    requires { Framed s.now }
    ensures { result ≡ broken_at (of_certificates i4 (decode s.now)) (decode s.now).trust.certificates }
{
    sweep::first(image::certificate_slots(s), |i| !i4_with(s, i))
}

// ---- I5

fn one_in_place(clock: u32, c: Certificate, e: Certificate) -> bool
    ensures { result ≡ one_in_place clock c e }
{
    !(terms::valid_in(records::OPERATOR, clock, c)
        & terms::valid_in(records::OPERATOR, clock, e)
        & (c.place == e.place))
        | (c.id == e.id)
}

// Not c on the phone while e is on the present card.
fn not_both(s: &[u8], c: Certificate, e: Certificate) -> bool
    requires { Framed s.now }
    ensures { result ≡ not_both (decode s.now).trust.seen c e }
{
    let clock = image::clock(s);
    let card = image::card_present(s);
    !(terms::valid_in(records::OPERATOR, clock, c)
        & terms::valid_in(records::OPERATOR, clock, e)
        & (c.place == 0)
        & (e.place == card))
        | (card == 0)
}

fn neither_way(s: &[u8], c: Certificate, e: Certificate) -> bool
    requires { Framed s.now }
    ensures { result ≡ (not_both (decode s.now).trust.seen c e && not_both (decode s.now).trust.seen e c) }
{
    not_both(s, c, e) & not_both(s, e, c)
}

fn one_manufacturer(clock: u32, c: Certificate, e: Certificate) -> bool
    ensures { result ≡ one_manufacturer clock c e }
{
    !(terms::valid_in(records::MANUFACTURER, clock, c)
        & terms::valid_in(records::MANUFACTURER, clock, e))
        | (c.id == e.id)
}

fn i5_pair(s: &[u8], c: Certificate, e: Certificate) -> bool
    requires { Framed s.now }
    ensures { result ≡ i5_pair (decode s.now).trust.seen c e }
{
    let clock = image::clock(s);
    one_in_place(clock, c, e) & neither_way(s, c, e) & one_manufacturer(clock, c, e)
}

// Whether certificate i goes with each below it as I5 asks.
fn i5_below(s: &[u8], i: usize) -> bool
    requires framed { Framed s.now }
    requires i_in_bounds { i < length (decode s.now).trust.certificates }
    ensures { result ≡ i5_pairs (decode s.now) i }
{
    let c = image::certificate(s, i);
    sweep::first(i, |j| !i5_pair(s, c, image::certificate(s, j))).is_none()
}

fn owned_by_card(s: &[u8], c: Certificate) -> bool
    requires { Framed s.now }
    ensures { result ≡ owned_by_card (decode s.now).cards (decode s.now).trust.seen c }
{
    let card = image::card_present(s);
    if terms::valid_in(records::OPERATOR, image::clock(s), c) & (c.place == 0) & (card != 0) {
        return c.owner == lookup::operator_of(s, card);
    }
    true
}

// Of other records I5 asks nothing.
fn is_asked(s: &[u8], c: Certificate) -> bool
    requires { Framed s.now }
    ensures { result ≡ (valid_in 1 (decode s.now).trust.seen.clock c || valid_in 2 (decode s.now).trust.seen.clock c) }
{
    let clock = image::clock(s);
    terms::valid_in(records::OPERATOR, clock, c) | terms::valid_in(records::MANUFACTURER, clock, c)
}

fn i5_with(s: &[u8], i: usize) -> bool
    requires framed { Framed s.now }
    requires i_in_bounds { i < length (decode s.now).trust.certificates }
    ensures { result ≡ i5_at (decode s.now) i }
{
    let c = image::certificate(s, i);
    if !is_asked(s, c) {
        return true;
    }
    owned_by_card(s, c) & i5_below(s, i)
}

pub fn i5(s: &[u8]) -> Option<usize>
    requires { Framed s.now }
    ensures { result ≡ broken_at (of_certificates i5 (decode s.now)) (decode s.now).trust.certificates }
{
    sweep::first(image::certificate_slots(s), |i| !i5_with(s, i))
}

// ---- I6 Table

pub fn rows_fit(s: &[u8]) -> Option<usize>
    requires { Framed s.now }
    ensures { result ≡ broken_at (all row_fits) (decode s.now).table }
{
    sweep::first(
        image::action_count(s),
        |i| !terms::row_fits(image::row(s, i)),
    )
}

// ---- I7 Executable

// Whether no executable below executable i has its id.
fn executable_apart(s: &[u8], i: usize) -> bool
    requires framed { Framed s.now }
    requires i_in_bounds { i < length (decode s.now).executables }
    ensures { result ≡ all (λ y. apart (executable_at (decode s.now) i).id y.id) (take i (decode s.now).executables) }
{
    let id = image::executable(s, i).id;
    if id == 0 {
        return true;
    }
    sweep::first(i, |j| image::executable_has_id(s, j, id)).is_none()
}

fn executable_with(s: &[u8], actions: usize, i: usize) -> bool
    requires framed { Framed s.now }
    requires i_in_bounds { (i < length (decode s.now).executables) × (actions ≤ 32) }
    ensures { result ≡ executable_with actions (take i (decode s.now).executables) (executable_at (decode s.now) i) }
{
    terms::executable_slot_fits(actions, image::executable(s, i)) & executable_apart(s, i)
}

pub fn i7(s: &[u8]) -> Option<usize>
    requires { Framed s.now }
    ensures { result ≡ broken_at (of_executables i7 (decode s.now)) (decode s.now).executables }
{
    let actions = image::action_count(s);
    sweep::first(
        image::executable_slots(s),
        |i| !executable_with(s, actions, i),
    )
}
