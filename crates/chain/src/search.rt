// The search for chains, twice: the good slots of a domain, for all its executables at once, and the link count of one key.
// Either way a round is one word, with a bit for each slot. For a domain, one sweep finds its roots and links; then each of three
// rounds looks at the links that are not good yet, and at the slots that the round before added. For one key there are at most four levels
// back from it, with a sweep of all slots for each key of a level, which ends at a trusted root. At most 64 + 3 * 64 * 128 pairs of slots
// are looked at, whatever the image: no path is followed, so nothing grows with their number.
ghost use Rattle.std.specs.Prelude.{◌<◌, ◌^◌, suc, eqb, length, ◌&&◌, cond, ◌≡◌};
ghost use Rattle.bits.specs.SlotWord.{any_of, keep};
ghost use Rattle.chain.specs.SlotWords.{GoodBeyond, SortedAs, chained_in, good_slots, level_of, reach, verified_by, verifiers, within_domain};
ghost use Rattle.records.specs.Frame.{Framed};
ghost use Rattle.records.specs.Phone.{decode};
ghost use Rattle.rules.specs.Chains.{good, link, trusted_root};
ghost use Rattle.rules.specs.Words.{least};

use bits::slots::{self, Slots};
use records::{Certificate, Executable, image};

// "The limit is 4, root included".
pub const MOST_LINKS: u8 = 4;

// The slots of a domain that count: its trusted roots and its links.
#[derive(Clone, Copy)]
struct Sorted {
    roots: u64,
    links: u64,
}

pub fn trusted_root(s: &[u8], c: Certificate) -> bool
    requires { Framed s.now }
    ensures { result ≡ trusted_root (decode s.now).trust.seen c }
{
    terms::valid_root(image::clock(s), c)
        & (c.enabled == records::ENABLED)
        & terms::is_present(s, c)
}

pub fn is_link(s: &[u8], c: Certificate) -> bool
    requires { Framed s.now }
    ensures { result ≡ link (decode s.now).trust.seen c }
{
    (c.kind == Certificate::ISSUED) & terms::in_date(image::clock(s), c) & terms::is_present(s, c)
}

// Whether one of the slots has this key.
fn holds_key(s: &[u8], among: u64, key: u32) -> bool
    requires framed { Framed s.now }
    requires among_bound { among < 2 ^ length (decode s.now).trust.certificates }
    ensures { result ≡ any_of among (λ c. eqb c.key key) (decode s.now).trust.certificates }
{
    for i in Slots(among) {
        if image::certificate(s, i).key == key {
            return true;
        }
    }
    false
}

// One sweep, which passes over the records of the other domains.
fn sort(s: &[u8], domain: u8) -> Sorted
    requires { Framed s.now }
    ensures { SortedAs (decode s.now).trust domain result }
{
    let mut roots: u64 = 0;
    let mut links: u64 = 0;
    for i in 0..image::certificate_slots(s) {
        let c = image::certificate(s, i);
        if c.domain != domain {
            continue;
        }
        if trusted_root(s, c) {
            roots = slots::with_slot(roots, i);
            continue;
        }
        if !is_link(s, c) {
            continue;
        }
        links = slots::with_slot(links, i);
    }
    Sorted { roots, links }
}

// The links of `left` that a slot of `fresh` verifies.
fn verified(s: &[u8], left: u64, fresh: u64) -> u64
    requires framed { Framed s.now }
    requires left_bound { left < 2 ^ length (decode s.now).trust.certificates }
    requires fresh_bound { fresh < 2 ^ length (decode s.now).trust.certificates }
    ensures { result ≡ keep left (verified_by (decode s.now).trust fresh) (decode s.now).trust.certificates }
{
    // Where the last round added nothing, this one cannot.
    if fresh == 0 {
        return 0;
    }
    let mut found: u64 = 0;
    for i in Slots(left) {
        if !holds_key(s, fresh, image::certificate(s, i).verifying) {
            continue;
        }
        // No slot is given twice, so that its bit is not there yet.
        found += 1 << i;
    }
    found
}

// "Recursion on the remaining links": what is good with n links more. The good slots so far are known, those of them that the last link
// made so, and the links that are left: what an earlier slot verifies is good already, so that only the fresh ones can add one.
fn good_beyond(s: &[u8], domain: u8, known: u64, fresh: u64, left: u64, n: u8) -> u64
    requires framed { Framed s.now }
    requires fresh_bound { fresh < 2 ^ length (decode s.now).trust.certificates }
    requires left_bound { left < 2 ^ length (decode s.now).trust.certificates }
    ensures { GoodBeyond (decode s.now).trust domain known fresh left n result }
{
    if n == 0 {
        return known;
    }
    let found = verified(s, left, fresh);
    good_beyond(s, domain, known | found, found, left ^ found, n - 1)
}

// What is good within n links, a trusted root being the first.
fn good_within(s: &[u8], domain: u8, n: u8) -> u64
    requires { Framed s.now }
    ensures { result ≡ within_domain (decode s.now).trust domain (good n (decode s.now).trust) }
{
    if n == 0 {
        return 0;
    }
    let c = sort(s, domain);
    good_beyond(s, domain, c.roots, c.roots, c.links, n - 1)
}

// The good slots of a domain: found once, they serve for all its executables.
pub fn good_slots(s: &[u8], domain: u8) -> u64
    requires { Framed s.now }
    ensures { result ≡ good_slots (decode s.now).trust domain }
{
    good_within(s, domain, MOST_LINKS)
}

// Whether x chains to a domain, if that is its domain, by the good slots of the domain.
pub fn is_chained(s: &[u8], domain: u8, good: u64, x: Executable) -> bool
    requires framed { Framed s.now }
    requires good_value { good ≡ good_slots (decode s.now).trust domain }
    ensures { result ≡ chained_in domain (decode s.now).trust x }
{
    if x.domain != domain {
        return true;
    }
    (x.signing != 0) & holds_key(s, good, x.signing)
}

fn has_key(domain: u8, key: u32, c: Certificate) -> bool
    ensures { result ≡ (eqb c.domain domain && eqb c.key key) }
{
    (c.domain == domain) & (c.key == key)
}

// The level of one key: none where a record of the domain with this key is a trusted root, and else the links with it, which join those of
// the level. Every record is looked at, since a good one may stand anywhere.
fn level_of(s: &[u8], domain: u8, key: u32, level: u64) -> Option<u64>
    requires { Framed s.now }
    ensures { result ≡ level_of (decode s.now).trust domain (λ v. eqb v key) level }
{
    let mut found = level;
    for i in 0..image::certificate_slots(s) {
        let c = image::certificate(s, i);
        if !has_key(domain, key, c) {
            continue;
        }
        if trusted_root(s, c) {
            return None;
        }
        if !is_link(s, c) {
            continue;
        }
        found = slots::with_slot(found, i);
    }
    Some(found)
}

// The next level: what the verifying keys of these links lead to. A key that a slot of it has already is not looked for again.
fn up(s: &[u8], domain: u8, level: u64) -> Option<u64>
    requires framed { Framed s.now }
    requires level_bound { level < 2 ^ length (decode s.now).trust.certificates }
    ensures { result ≡ level_of (decode s.now).trust domain (verifiers (decode s.now).trust level) 0 }
{
    let mut links: u64 = 0;
    for i in Slots(level) {
        let key = image::certificate(s, i).verifying;
        if holds_key(s, links, key) {
            continue;
        }
        links = level_of(s, domain, key, links)?;
    }
    Some(links)
}

// A count of links with one more below them, where there is a chain. Here and below 0 is 01's own number for no chain (`links`, `least`).
fn one_more(n: u8) -> u8
    requires { n < 255 }
    ensures { result ≡ cond (eqb n 0) 0 (suc n) }
{
    if n == 0 {
        return 0;
    }
    n + 1
}

// "Recursion on the remaining links": how many levels above these links the first trusted root stands, and 0 where none is within n.
fn climb(s: &[u8], domain: u8, level: u64, n: u8) -> u8
    requires framed { Framed s.now }
    requires level_bound { level < 2 ^ length (decode s.now).trust.certificates }
    ensures { result ≡ least n (λ m. reach m (decode s.now).trust domain (verifiers (decode s.now).trust level)) }
{
    if n == 0 {
        return 0;
    }
    match up(s, domain, level) {
        None => 1,
        Some(links) => one_more(climb(s, domain, links, n - 1)),
    }
}

// How many levels back from a key the first trusted root stands, and 0 where none is within n.
pub fn links_within(s: &[u8], domain: u8, key: u32, n: u8) -> u8
    requires { Framed s.now }
    ensures { result ≡ least n (λ m. reach m (decode s.now).trust domain (λ v. eqb v key)) }
{
    if n == 0 {
        return 0;
    }
    match level_of(s, domain, key, 0) {
        None => 1,
        Some(links) => one_more(climb(s, domain, links, n - 1)),
    }
}
