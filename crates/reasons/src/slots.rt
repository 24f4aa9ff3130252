// The slots as an explanation asks them: the record with the lowest id, and whether there is one at all.
ghost use Rattle.std.specs.Prelude.{ℕ, cond, ◌&&◌, ◌||◌, ◌≡◌, ◌<◌, eqb, ltb, length};
ghost use Rattle.records.specs.Phone.{decode, certificate_at};
ghost use Rattle.records.specs.Frame.{Framed};
ghost use Rattle.rules.specs.Words.{any};
ghost use Rattle.rules.specs.Chains.{in_date, serves, good};
ghost use Rattle.explanations.specs.Why.{has_key, lowest};
ghost use Rattle.reasons.specs.LowestPassing.{IsLowest};

use records::{Certificate, image};

// ---- the lowest id

// c where it passes, its id is above n, and m is none or has a higher one; else m.
fn earlier(passes: bool, n: u16, c: Certificate, m: Certificate) -> Certificate
    ensures { result ≡ cond (passes && ltb n c.id && (eqb m.id 0 || ltb c.id m.id)) c m }
{
    if passes & (n < c.id) & ((m.id == 0) | (c.id < m.id)) {
        return c;
    }
    m
}

// Of the records whose slots pass a test, the one with the lowest id above a number.
fn lowest<F: Fn(usize, Certificate) -> bool>(s: &[u8], above: u16, passes: F) -> Certificate
    requires framed { Framed s.now }
    requires callable { (i : ℕ) → i < length (decode s.now).trust.certificates → F.pre passes i (certificate_at (decode s.now) i) }
    ensures { IsLowest (F.post passes) above (decode s.now).trust.certificates result }
{
    let mut best = Certificate::FREE;
    for i in (0..image::certificate_slots(s)).rev() {
        let c = image::certificate(s, i);
        best = earlier(passes(i, c), above, c, best);
    }
    best
}

// The record with this key that has the lowest id above a number.
pub fn lowest_holder(s: &[u8], key: u32, above: u16) -> Certificate
    requires { Framed s.now }
    ensures { result ≡ lowest (has_key key) above (decode s.now).trust.certificates }
{
    lowest(s, above, |_, c| c.key == key)
}

// Whether slot i is of the domain, has the key and is good within n links. Most slots are not, so that is asked first.
fn is_serving(s: &[u8], n: u8, domain: u8, key: u32, i: usize) -> bool
    requires framed { Framed s.now }
    requires i_in_bounds { i < length (decode s.now).trust.certificates }
    ensures { result ≡ serves (good n (decode s.now).trust) domain key (certificate_at (decode s.now) i) }
{
    let c = image::certificate(s, i);
    if (c.domain == domain) & (c.key == key) {
        return chain::is_good(s, n, i);
    }
    false
}

// The record with the lowest id of those that serve.
pub fn lowest_server(s: &[u8], n: u8, domain: u8, key: u32) -> Certificate
    requires { Framed s.now }
    ensures { result ≡ lowest (serves (good n (decode s.now).trust) domain key) 0 (decode s.now).trust.certificates }
{
    lowest(s, 0, |i, _| is_serving(s, n, domain, key, i))
}

// ---- what is asked of the slots

// Whether a record of the domain has the key and is good within n links.
pub fn is_served(s: &[u8], n: u8, domain: u8, key: u32) -> bool
    requires { Framed s.now }
    ensures { result ≡ any (serves (good n (decode s.now).trust) domain key) (decode s.now).trust.certificates }
{
    sweep::first(
        image::certificate_slots(s),
        |i| is_serving(s, n, domain, key, i),
    )
    .is_some()
}

// Whether a record has the key.
pub fn is_held(s: &[u8], key: u32) -> bool
    requires { Framed s.now }
    ensures { result ≡ any (has_key key) (decode s.now).trust.certificates }
{
    sweep::first(
        image::certificate_slots(s),
        |i| image::certificate(s, i).key == key,
    )
    .is_some()
}

// Whether c is in date by the image's clock.
pub fn is_current(s: &[u8], c: Certificate) -> bool
    requires { Framed s.now }
    ensures { result ≡ in_date (decode s.now).trust.seen.clock c }
{
    terms::in_date(image::clock(s), c)
}
