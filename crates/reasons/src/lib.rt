// Why an executable has its domain or has none, in lines of three bytes: what is said, and the id of a record.
#![tactic(auto)]

mod slots;

ghost use Rattle.std.specs.Prelude.{[], ◌∷◌, ◌++◌, ◌≡◌, ◌+◌, ◌*◌, ◌≤◌, ◌<◌, min, length, take};
ghost use Rattle.octets.specs.Octets.{put};
ghost use Rattle.records.specs.Phone.{decode};
ghost use Rattle.records.specs.Frame.{Framed};
ghost use Rattle.rules.specs.Chains.{most_links, chain_of};
ghost use Rattle.rules.specs.AcceptedImage.{Keyed, AcceptedImage};
ghost use Rattle.explanations.specs.Why.{line, reason, despite, explained};
ghost use Rattle.reasons.specs.Lines.{line_size, line_bytes, most_lines, climbed_lines, holder_lines, with_lines, Told, Whole, Explained};

use records::{Certificate, Executable, image};
use rules::{Answer, Chained};

// Bytes of a line.
pub const LINE_SIZE: usize = 3;

// Bytes of the most lines that an explanation has, 64.
pub const LONGEST: usize = 192;

// ---- what a line says: its first byte, a number of the C interface

// A certificate of the chain.
pub const LINK: u8 = 1;

// An executable without a key.
pub const UNSIGNED: u8 = 2;

// An executable whose key no certificate has.
pub const UNHELD: u8 = 3;

// An executable in domain 0 despite a chain.
pub const UNTRUSTED: u8 = 4;

// A certificate that is not good: it is a recovery key.
pub const RECOVERY: u8 = 10;

// It is on an absent card.
pub const ABSENT: u8 = 11;

// It is marked invalid.
pub const INVALID: u8 = 12;

// It is disabled.
pub const DISABLED: u8 = 13;

// It is past its date.
pub const PAST: u8 = 14;

// It has no good signer within three links.
pub const UNSERVED: u8 = 15;

// ---- the reasons

// The first true reason, and 0 where none is: a byte of a line, which the only caller would have to make of an `Option`.
fn reason(s: &[u8], c: Certificate) -> u8
    requires { Framed s.now }
    ensures { result ≡ reason (decode s.now).trust c }
{
    if c.kind == Certificate::RECOVERY {
        return RECOVERY;
    }
    if !terms::is_present(s, c) {
        return ABSENT;
    }
    if c.mark == 0 {
        return INVALID;
    }
    if c.enabled == 0 {
        return DISABLED;
    }
    if !slots::is_current(s, c) {
        return PAST;
    }
    if !slots::is_served(s, 3, c.domain, c.verifying) {
        return UNSERVED;
    }
    0
}

// ---- the lines

// The i-th line of a buffer.
fn tell(lines: &mut [u8], i: usize, what: u8, id: u16)
    requires { i * line_size + line_size ≤ length lines.old }
    ensures { lines.new ≡ put lines.old (i * line_size) (line_bytes (line what id)) }
{
    let at = i * LINE_SIZE;
    lines[at] = what;
    lines[at + 1] = (id / 256) as u8;
    lines[at + 2] = (id % 256) as u8;
}

// The chain of n records for a key, from the signer up, so that the root's line is the first.
fn tell_chain(s: &[u8], n: u8, domain: u8, key: u32, lines: &mut [u8])
    requires framed { Framed s.now }
    requires line_size_in_bounds { n * line_size ≤ length lines.old }
    ensures { lines.new ≡ with_lines lines.old (climbed_lines (decode s.now).trust domain n key) }
{
    let mut wanted = key;
    for i in (0..n).rev() {
        let c = slots::lowest_server(s, i + 1, domain, wanted);
        tell(lines, i as usize, LINK, c.id);
        wanted = c.verifying;
    }
}

// A line for each record with a key, by id.
fn tell_reasons(s: &[u8], key: u32, lines: &mut [u8]) -> usize
    requires framed { Framed s.now }
    requires line_size_in_bounds { most_lines * line_size ≤ length lines.old }
    ensures { Told (holder_lines (decode s.now).trust key) lines.old result lines.new }
{
    let slots = image::certificate_slots(s);
    let mut above: u16 = 0;
    for i in 0..slots {
        let c = slots::lowest_holder(s, key, above);
        if c.id == 0 {
            return i;
        }
        tell(lines, i, reason(s, c), c.id);
        above = c.id;
    }
    slots
}

// ---- the whole

// An executable that chains: its chain, and that it is untrusted all the same where it has domain 0.
fn tell_chained(s: &[u8], x: Executable, c: Chained, lines: &mut [u8]) -> usize
    requires framed { Framed s.now }
    requires links_le_most_links { c.links ≤ most_links }
    requires line_size_in_bounds { most_lines * line_size ≤ length lines.old }
    ensures { Told (climbed_lines (decode s.now).trust c.domain c.links x.signing ++ despite x) lines.old result lines.new }
{
    tell_chain(s, c.links, c.domain, x.signing, lines);
    let n = c.links as usize;
    if x.domain != 0 {
        return n;
    }
    tell(lines, n, UNTRUSTED, x.id);
    n + 1
}

// A single line.
fn tell_one(what: u8, id: u16, lines: &mut [u8]) -> usize
    requires { line_size ≤ length lines.old }
    ensures { Told (line what id ∷ []) lines.old result lines.new }
{
    tell(lines, 0, what, id);
    1
}

// What a key chains to. Each domain is asked, where `chain::chain_of` asks the key's own alone: a step is then the only one that
// calls it, and keeps its stack small.
fn chain_of(s: &[u8], key: u32) -> Chained
    requires { Framed s.now }
    ensures { result ≡ chain_of (decode s.now).trust key }
{
    if key == 0 {
        return no_chain();
    }
    for domain in records::OPERATOR..=records::THIRD_PARTY {
        let links = chain::links_of(s, key, domain);
        if links != 0 {
            return Chained { domain, links };
        }
    }
    no_chain()
}

fn no_chain() -> Chained
    ensures { result ≡ record { domain = 0; links = 0 } }
{
    Chained {
        domain: records::UNTRUSTED,
        links: 0,
    }
}

// The explanation of an executable, for an image that is accepted.
fn explain_on(s: &[u8], x: Executable, lines: &mut [u8]) -> usize
    requires framed { Framed s.now }
    requires keyed { Keyed (decode s.now).trust }
    requires line_size_in_bounds { most_lines * line_size ≤ length lines.old }
    ensures { Told (explained (decode s.now).trust x) lines.old result lines.new }
{
    let c = chain_of(s, x.signing);
    if c.domain != 0 {
        return tell_chained(s, x, c, lines);
    }
    if x.signing == 0 {
        return tell_one(UNSIGNED, x.id, lines);
    }
    if !slots::is_held(s, x.signing) {
        return tell_one(UNHELD, x.id, lines);
    }
    tell_reasons(s, x.signing, lines)
}

// No executable has the id.
fn unknown() -> Answer
    ensures { result ≡ record { code = 3; domain = 0; links = 0; rule = 0; offset = 0 } }
{
    Answer {
        code: 3,
        domain: 0,
        links: 0,
        rule: 0,
        offset: 0,
    }
}

// What is asked for, of an accepted image and where there is room for every line.
fn explain_accepted(s: &[u8], id: u16, lines: &mut [u8]) -> Result<usize, Answer>
    requires accepted_image { AcceptedImage s.now }
    requires line_size_in_bounds { most_lines * line_size ≤ length lines.old }
    ensures { Whole s.now id lines.old result lines.new }
{
    if id == 0 {
        return Err(unknown());
    }
    match lookup::executable_slot(s, id) {
        None => Err(unknown()),
        Some(slot) => Ok(explain_on(s, image::executable(s, slot), lines)),
    }
}

// The same of any bytes.
fn explain_whole(s: &[u8], id: u16, lines: &mut [u8]) -> Result<usize, Answer>
    requires { most_lines * line_size ≤ length lines.old }
    ensures { Whole s.now id lines.old result lines.new }
{
    let outcome = opening::open(s);
    if outcome.is_err() {
        return Err(opening::told(s, outcome));
    }
    explain_accepted(s, id, lines)
}

// What there is room for, out of a buffer that has room for all.
fn explain_short(s: &[u8], id: u16, lines: &mut [u8]) -> Result<usize, Answer>
    ensures { Explained s.now id lines.old result lines.new }
{
    let mut all = [0u8; LONGEST];
    let told = explain_whole(s, id, &mut all)?;
    let n = told.min(lines.len() / LINE_SIZE) * LINE_SIZE;
    lines[..n].copy_from_slice(&all[..n]);
    Ok(told)
}

// Why the executable with this id has its domain or has none, in lines of three bytes: how many there are, of which the buffer gets as many as
// it has room for. An image that breaks a rule is told as opening it tells it, and an id that no executable has gets code 3. Any bytes.
pub fn explain(s: &[u8], id: u16, lines: &mut [u8]) -> Result<usize, Answer>
    ensures { Explained s.now id lines.old result lines.new }
{
    if LONGEST <= lines.len() {
        return explain_whole(s, id, lines);
    }
    explain_short(s, id, lines)
}
