// What a signing key chains to, which executables still chain, and whether a change can break a chain. The search itself is in `search`.
#![tactic(auto)]

mod search;

ghost use Rattle.std.specs.Prelude.{◌<◌, ◌≤◌, length, not, ◌≡◌, T};
ghost use Rattle.chain.specs.Breaks.{runs_out};
ghost use Rattle.chain.specs.SlotWords.{IsGoodByDomain, GoodIn, good_slots, holder, slot};
ghost use Rattle.rules.specs.AcceptedImage.{Keyed};
ghost use Rattle.chain.specs.Settling.{DomainsKnown, settle_in};
ghost use Rattle.records.specs.Frame.{Framed};
ghost use Rattle.records.specs.Phone.{decode, encode, executable_at};
ghost use Rattle.rules.specs.ImageRules.{chained_fits, i7, i8};
ghost use Rattle.rules.specs.Faults.{of_executables};
ghost use Rattle.sweep.specs.LowestBroken.{broken_at};
ghost use Rattle.rules.specs.Chains.{chain_of, good, links};
ghost use Rattle.rules.specs.Effects.{settle};
ghost use Rattle.rules.specs.Words.{any};

use records::{Certificate, Executable, image};
use rules::Chained;

// The good slots of each domain.
#[derive(Clone, Copy)]
struct GoodByDomain {
    operator: u64,
    manufacturer: u64,
    third: u64,
}

// The link count of a signing key for a domain: 0 where there is no chain, as 01 tells it and `links` says it (`count_shortest`).
pub fn links_of(s: &[u8], key: u32, domain: u8) -> u8
    requires { Framed s.now }
    ensures { result ≡ links (decode s.now).trust key domain }
{
    if (key == 0) | (domain == records::UNTRUSTED) {
        return 0;
    }
    search::links_within(s, domain, key, search::MOST_LINKS)
}

// Whether slot i is good within n links.
pub fn is_good(s: &[u8], n: u8, i: usize) -> bool
    requires framed { Framed s.now }
    requires i_in_bounds { i < length (decode s.now).trust.certificates }
    ensures { result ≡ good n (decode s.now).trust (slot (decode s.now).trust i) }
{
    if n == 0 {
        return false;
    }
    let c = image::certificate(s, i);
    if search::trusted_root(s, c) {
        return true;
    }
    if !search::is_link(s, c) {
        return false;
    }
    search::links_within(s, c.domain, c.verifying, n - 1) != 0
}

// The domain of the first record with a key, good or not, and 0 where none has it.
fn domain_of(s: &[u8], key: u32) -> u8
    requires { Framed s.now }
    ensures { result ≡ (holder (decode s.now).trust key).domain }
{
    let slots = image::certificate_slots(s);
    match sweep::first(slots, |j| image::certificate(s, j).key == key) {
        Some(j) => image::certificate(s, j).domain,
        None => records::UNTRUSTED,
    }
}

// What a signing key chains to. All its records are of one domain, so the first tells it.
pub fn chain_of(s: &[u8], key: u32) -> Chained
    requires framed { Framed s.now }
    requires keyed { Keyed (decode s.now).trust }
    ensures { result ≡ chain_of (decode s.now).trust key }
{
    let domain = domain_of(s, key);
    let links = links_of(s, key, domain);
    if links == 0 {
        return Chained {
            domain: records::UNTRUSTED,
            links: 0,
        };
    }
    Chained { domain, links }
}

// The good slots of all three domains, found once for all executables.
fn good_by_domain(s: &[u8]) -> GoodByDomain
    requires { Framed s.now }
    ensures { IsGoodByDomain (decode s.now).trust result }
{
    GoodByDomain {
        operator: search::good_slots(s, records::OPERATOR),
        manufacturer: search::good_slots(s, records::MANUFACTURER),
        third: search::good_slots(s, records::THIRD_PARTY),
    }
}

// Those of one of them.
fn good_in(good: GoodByDomain, domain: u8) -> u64
    requires { (1 ≤ domain) × (domain ≤ 3) }
    ensures { GoodIn good domain result }
{
    if domain == records::OPERATOR {
        return good.operator;
    }
    if domain == records::MANUFACTURER {
        return good.manufacturer;
    }
    good.third
}

// Whether executable i has a domain and does not chain to it.
fn is_unchained(s: &[u8], good: GoodByDomain, i: usize) -> bool
    requires framed { Framed s.now }
    requires t { T (i7 (decode s.now)) }
    requires good_by_domain { IsGoodByDomain (decode s.now).trust good }
    requires i_in_bounds { i < length (decode s.now).executables }
    ensures { result ≡ not (chained_fits (decode s.now).trust (executable_at (decode s.now) i)) }
{
    let x = image::executable(s, i);
    if x.domain == records::UNTRUSTED {
        return false;
    }
    !search::is_chained(s, x.domain, good_in(good, x.domain), x)
}

// What I8 asks: the lowest executable that does not chain to the domain that it has, if there is one. One sweep for all three domains, which
// ends at the first that it finds, so that of an image that is refused no more is asked.
pub fn first_unchained(s: &[u8]) -> Option<usize>
    requires framed { Framed s.now }
    requires t { T (i7 (decode s.now)) }
    ensures { result ≡ broken_at (of_executables i8 (decode s.now)) (decode s.now).executables }
{
    let good = good_by_domain(s);
    sweep::first(image::executable_slots(s), |i| is_unchained(s, good, i))
}

// Takes the domain of each executable of one domain whose key no good slot has.
fn settle_by(s: &mut [u8], domain: u8, good: u64)
    requires framed { Framed s.old }
    requires good_value { good ≡ good_slots (decode s.old).trust domain }
    ensures { s.new ≡ encode (settle_in domain (decode s.old)) }
{
    for i in 0..image::executable_slots(s) {
        if !search::is_chained(s, domain, good, image::executable(s, i)) {
            image::set_domain(s, i, records::UNTRUSTED);
        }
    }
}

// The executables of one domain: its good slots are found once for all of them.
pub fn settle_domain(s: &mut [u8], domain: u8)
    requires { Framed s.old }
    ensures { s.new ≡ encode (settle_in domain (decode s.old)) }
{
    let good = search::good_slots(s, domain);
    settle_by(s, domain, good);
}

// "After every accepted event": each domain for itself, since a chain never leaves its domain.
pub fn settle(s: &mut [u8])
    requires framed { Framed s.old }
    requires domains_known { DomainsKnown (decode s.old) }
    ensures { s.new ≡ encode (settle (decode s.old)) }
{
    settle_domain(s, records::OPERATOR);
    settle_domain(s, records::MANUFACTURER);
    settle_domain(s, records::THIRD_PARTY);
}

// Whether c is marked valid, in date now, and no longer at t. Most records are in date at t too, so that is asked first.
fn is_running_out(clock: u32, t: u32, c: Certificate) -> bool
    ensures { result ≡ runs_out clock t c }
{
    if terms::in_date(t, c) {
        return false;
    }
    (c.mark == Certificate::VALID) & terms::in_date(clock, c)
}

// Whether a record that is marked valid is in date now, and no longer at t: only then can time break a chain.
pub fn runs_out(s: &[u8], t: u32) -> bool
    requires { Framed s.now }
    ensures { result ≡ any (runs_out (decode s.now).trust.seen.clock t) (decode s.now).trust.certificates }
{
    let slots = image::certificate_slots(s);
    let clock = image::clock(s);
    sweep::first(
        slots,
        |i| is_running_out(clock, t, image::certificate(s, i)),
    )
    .is_some()
}
