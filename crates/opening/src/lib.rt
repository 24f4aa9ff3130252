// Opening an image: the first of the rules I1 to I8 that is broken, and where. They are tested in their order, one small function a rule.
#![tactic(auto)]

mod sweeps;

ghost use Rattle.std.specs.Prelude.{true, ◌≡◌, ◌+◌, ◌*◌, ◌<◌, T};
ghost use Rattle.records.specs.Phone.{decode};
ghost use Rattle.records.specs.Frame.{framed, Framed};
ghost use Rattle.rules.specs.Words.{all};
ghost use Rattle.rules.specs.ImageRules.{row_fits, i2, i3, i4, i5, i6, i7, i8};
ghost use Rattle.rules.specs.Faults.{lowest, certificate_site, executable_site, i3_site, at_rule, fault, fault_offset};
ghost use Rattle.rules.specs.Step.{opened};
ghost use Rattle.opening.specs.Opened.{kept_or, kept_unless, opening, Opened};

use records::{Card, Certificate, Executable, Header, Row, image};
use rules::{Answer, Fault, Site};

// ---- the rules

// What is told of a rule: the site where it is broken, if it is.
fn broken(rule: u8, at: Option<Site>) -> Result<(), Fault>
    ensures { result ≡ kept_unless rule at }
{
    match at {
        Some(site) => Err(Fault { rule, site }),
        None => Ok(()),
    }
}

// I2. The rules are alike once their names are taken away: each says another rule of 01.
fn i2(s: &[u8]) -> Result<(), Fault>
    requires { Framed s.now }
    ensures { result ≡ kept_or (i2 (decode s.now)) (at_rule 2 (certificate_site i2 (decode s.now))) }
{
    broken(2, sweeps::slots_fit(s).map(Site::Certificate))
}

// The card present, then certificates, which stand below the cards.
fn i3(s: &[u8]) -> Result<(), Fault>
    requires { Framed s.now }
    ensures { result ≡ kept_or (i3 (decode s.now)) (at_rule 3 (i3_site (decode s.now))) }
{
    if !lookup::known_place(s, image::card_present(s)) {
        return broken(3, Some(Site::Header(Header::CARD)));
    }
    broken(3, sweeps::places_known(s).map(Site::Certificate))?;
    broken(3, sweeps::cards(s).map(Site::Card))
}

fn i4(s: &[u8]) -> Result<(), Fault>
    requires { Framed s.now }
    ensures { result ≡ kept_or (i4 (decode s.now)) (at_rule 4 (certificate_site i4 (decode s.now))) }
{
    broken(4, sweeps::i4(s).map(Site::Certificate))
}

fn i5(s: &[u8]) -> Result<(), Fault>
    requires { Framed s.now }
    ensures { result ≡ kept_or (i5 (decode s.now)) (at_rule 5 (certificate_site i5 (decode s.now))) }
{
    broken(5, sweeps::i5(s).map(Site::Certificate))
}

fn i6(s: &[u8]) -> Result<(), Fault>
    requires { Framed s.now }
    ensures { result ≡ kept_or (i6 (decode s.now)) (at_rule 6 (Site.Row (lowest (all row_fits) (decode s.now).table))) }
{
    broken(6, sweeps::rows_fit(s).map(Site::Row))
}

fn i7(s: &[u8]) -> Result<(), Fault>
    requires { Framed s.now }
    ensures { result ≡ kept_or (i7 (decode s.now)) (at_rule 7 (executable_site i7 (decode s.now))) }
{
    broken(7, sweeps::i7(s).map(Site::Executable))
}

fn i8(s: &[u8]) -> Result<(), Fault>
    requires framed { Framed s.now }
    requires t { T (i7 (decode s.now)) }
    ensures { result ≡ kept_or (i8 (decode s.now)) (at_rule 8 (executable_site i8 (decode s.now))) }
{
    broken(8, chain::first_unchained(s).map(Site::Executable))
}

// The rules from I2 on.
fn open_framed(s: &[u8]) -> Result<(), Fault>
    requires framed { Framed s.now }
    requires s_value { framed s.now ≡ true }
    ensures { Opened s.now result }
{
    i2(s)?;
    i3(s)?;
    i4(s)?;
    i5(s)?;
    i6(s)?;
    i7(s)?;
    i8(s)
}

// Any bytes: whether they are an accepted image, and if not, the first broken rule and where.
pub fn open(s: &[u8]) -> Result<(), Fault>
    ensures { Opened s.now result }
{
    if !image::is_framed(s) {
        return broken(1, Some(Site::Header(image::header_fault(s))));
    }
    open_framed(s)
}

// ---- what is told of it

// Where the record of a site stands: which one it is of those of a size, from a byte on.
#[derive(Clone, Copy)]
struct Span {
    at: usize,
    size: usize,
    index: usize,
}

// A byte of the header is one of those of size 1.
fn span_of(s: &[u8], f: Fault) -> Span
    requires { f ≡ fault s.now }
    ensures { result.at + result.size * result.index ≡ fault_offset s.now }
{
    let site = f.site;
    match site {
        Site::Header(byte) => Span {
            at: 0,
            size: 1,
            index: byte,
        },
        Site::Certificate(i) => Span {
            at: Header::SIZE,
            size: Certificate::SIZE,
            index: i,
        },
        Site::Card(i) => Span {
            at: Header::cards_at(s) as usize,
            size: Card::SIZE,
            index: i,
        },
        Site::Executable(i) => Span {
            at: Header::executables_at(s) as usize,
            size: Executable::SIZE,
            index: i,
        },
        Site::Row(i) => Span {
            at: Header::table_at(s) as usize,
            size: Row::SIZE,
            index: i,
        },
    }
}

// Where a record starts, by its number among those of a size from a byte on. Called, and not put in place: else the compiler makes a shorter way
// for an accepted image, and a refused one is the dearer.
#[inline(never)]
fn reckoned(at: usize, size: usize, index: usize) -> u16
    requires { at + size * index < 65536 }
    ensures { result ≡ at + size * index }
{
    (at + size * index) as u16
}

// The first byte of what is wrong.
fn offset(s: &[u8], f: Fault) -> u16
    requires { f ≡ fault s.now }
    ensures { result ≡ fault_offset s.now }
{
    let here = span_of(s, f);
    reckoned(here.at, here.size, here.index)
}

// An accepted image has rule 0 at its first byte, as `fault` says, and is told in the same way as a refused one.
fn fault_of(s: &[u8], outcome: Result<(), Fault>) -> Fault
    requires { outcome ≡ opening s.now }
    ensures { result ≡ fault s.now }
{
    match outcome {
        Ok(()) => Fault {
            rule: 0,
            site: Site::Header(0),
        },
        Err(fault) => fault,
    }
}

// What an image is told, accepted or not, by what opening it gave.
pub fn told(s: &[u8], outcome: Result<(), Fault>) -> Answer
    requires { outcome ≡ opening s.now }
    ensures { result ≡ opened s.now }
{
    let found = fault_of(s, outcome);
    Answer {
        code: u8::from(found.rule != 0),
        domain: 0,
        links: 0,
        rule: found.rule,
        offset: offset(s, found),
    }
}
