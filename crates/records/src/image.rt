// Reads and writes of a framed image, in terms of the phone that it says: nothing above this file knows where a field stands.
ghost use Rattle.std.specs.Prelude.{◌≡◌, ◌+◌, ◌≤◌, ◌<◌, eqb, length};
ghost use Rattle.records.specs.Sizes.{header_size, most_certificates, most_cards, most_executables, most_actions};
ghost use Rattle.records.specs.Layout.{row_byte};
ghost use Rattle.records.specs.Phone.{decode, encode, no_certificate, no_executable, certificate_at, card_at, executable_at, row_at};
ghost use Rattle.records.specs.Phone.{with_clock, with_card, with_mode, put_certificate, put_executable, marked, enabling, in_domain, permitted};
ghost use Rattle.records.specs.Frame.{framed, header_fits, part_fields, setting_fields, total_byte, first_wrong, header_fault, Framed};

use crate::{Card, Certificate, Executable, Header, Row, VERSION};
use octets::Number;

// The largest image.
pub const LARGEST: usize = Header::SIZE
    + Certificate::MOST as usize * Certificate::SIZE
    + Card::MOST as usize * Card::SIZE
    + Executable::MOST as usize * Executable::SIZE
    + Row::MOST as usize * Row::SIZE;

// Certificates follow the header.
const CERTIFICATES: u32 = Header::SIZE as u32;

// ---- is it framed?

fn header_fits(s: &[u8]) -> bool
    requires { header_size ≤ length s.now }
    ensures { result ≡ header_fits s.now }
{
    let n = Header::certificate_slots(s);
    let m = Header::card_count(s);
    let k = Header::executable_slots(s);
    let a = Header::action_count(s);
    let cards = Header::SIZE as u32 + n as u32 * Certificate::SIZE as u32;
    let executables = cards + m as u32 * Card::SIZE as u32;
    let table = executables + k as u32 * Executable::SIZE as u32;
    let end = table + a as u32 * Row::SIZE as u32;
    (Header::version(s) == VERSION)
        & (n <= Certificate::MOST)
        & (m <= Card::MOST)
        & (k <= Executable::MOST)
        & (1 <= a)
        & (a <= Row::MOST)
        & (Header::mode(s) <= Header::ENABLE_LISTED)
        & (Header::blank(s) == 0)
        & (Header::certificates_at(s) == CERTIFICATES)
        & (Header::cards_at(s) == cards)
        & (Header::executables_at(s) == executables)
        & (Header::table_at(s) == table)
        & (Header::total(s) == end)
        & (s.len() == end as usize)
}

// Rule I1, for any bytes.
pub fn is_framed(s: &[u8]) -> bool
    ensures { result ≡ framed s.now }
{
    if s.len() < Header::SIZE {
        return false;
    }
    header_fits(s)
}

// ---- and where is it not?

// The first wrong field of those that say where the parts are; the total where the others are right.
fn parts_fault(s: &[u8]) -> usize
    requires { header_size ≤ length s.now }
    ensures { result ≡ first_wrong (part_fields s.now) total_byte }
{
    let cards = Header::SIZE as u32
        + Header::certificate_slots(s) as u32 * Certificate::SIZE as u32;
    let executables = cards + Header::card_count(s) as u32 * Card::SIZE as u32;
    let table = executables + Header::executable_slots(s) as u32 * Executable::SIZE as u32;
    if Header::certificates_at(s) != CERTIFICATES {
        return Header::CERTIFICATES_AT;
    }
    if Header::cards_at(s) != cards {
        return Header::CARDS_AT;
    }
    if Header::executables_at(s) != executables {
        return Header::EXECUTABLES_AT;
    }
    if Header::table_at(s) != table {
        return Header::TABLE_AT;
    }
    Header::TOTAL
}

// The same from the number of actions on.
fn settings_fault(s: &[u8]) -> usize
    requires { header_size ≤ length s.now }
    ensures { result ≡ first_wrong (setting_fields s.now) total_byte }
{
    let actions = Header::action_count(s);
    if actions == 0 {
        return Header::ACTION_COUNT;
    }
    if actions > Row::MOST {
        return Header::ACTION_COUNT;
    }
    if Header::mode(s) > Header::ENABLE_LISTED {
        return Header::MODE;
    }
    if Header::blank(s) != 0 {
        return Header::BLANK;
    }
    parts_fault(s)
}

// The first byte of the first wrong field, for bytes that are not framed; of a buffer that is too short, its length.
pub fn header_fault(s: &[u8]) -> usize
    ensures { result ≡ header_fault s.now }
{
    let size = s.len();
    if size < Header::SIZE {
        return size;
    }
    if Header::version(s) != VERSION {
        return Header::VERSION;
    }
    if Header::certificate_slots(s) > Certificate::MOST {
        return Header::CERTIFICATE_SLOTS;
    }
    if Header::card_count(s) > Card::MOST {
        return Header::CARD_COUNT;
    }
    if Header::executable_slots(s) > Executable::MOST {
        return Header::EXECUTABLE_SLOTS;
    }
    settings_fault(s)
}

// ---- the header

pub fn certificate_slots(s: &[u8]) -> usize
    requires { Framed s.now }
    ensures { (result ≡ length (decode s.now).trust.certificates) × (result ≤ most_certificates) }
{
    Header::certificate_slots(s) as usize
}

pub fn card_count(s: &[u8]) -> usize
    requires { Framed s.now }
    ensures { (result ≡ length (decode s.now).cards) × (result ≤ most_cards) }
{
    Header::card_count(s) as usize
}

pub fn executable_slots(s: &[u8]) -> usize
    requires { Framed s.now }
    ensures { (result ≡ length (decode s.now).executables) × (result ≤ most_executables) }
{
    Header::executable_slots(s) as usize
}

pub fn action_count(s: &[u8]) -> usize
    requires { Framed s.now }
    ensures { (result ≡ length (decode s.now).table) × (result ≤ most_actions) }
{
    Header::action_count(s) as usize
}

pub fn mode(s: &[u8]) -> u16
    requires { Framed s.now }
    ensures { result ≡ (decode s.now).mode }
{
    Header::mode(s)
}

pub fn card_present(s: &[u8]) -> u16
    requires { Framed s.now }
    ensures { result ≡ (decode s.now).trust.seen.card }
{
    Header::card(s)
}

pub fn clock(s: &[u8]) -> u32
    requires { Framed s.now }
    ensures { result ≡ (decode s.now).trust.seen.clock }
{
    Header::clock(s)
}

// ---- the records

pub fn certificate(s: &[u8], i: usize) -> Certificate
    requires framed { Framed s.now }
    requires i_in_bounds { i < length (decode s.now).trust.certificates }
    ensures { result ≡ certificate_at (decode s.now) i }
{
    Certificate::read(s, Header::SIZE + i * Certificate::SIZE)
}

// Whether the certificate in a slot has this id: reads no other field.
pub fn certificate_has_id(s: &[u8], i: usize, id: u16) -> bool
    requires framed { Framed s.now }
    requires i_in_bounds { i < length (decode s.now).trust.certificates }
    ensures { result ≡ eqb (certificate_at (decode s.now) i).id id }
{
    octets::is16(
        s,
        Header::SIZE + i * Certificate::SIZE + Certificate::ID,
        id,
    )
}

pub fn card(s: &[u8], i: usize) -> Card
    requires framed { Framed s.now }
    requires i_in_bounds { i < length (decode s.now).cards }
    ensures { result ≡ card_at (decode s.now) i }
{
    Card::read(s, Header::cards_at(s) as usize + i * Card::SIZE)
}

pub fn executable(s: &[u8], i: usize) -> Executable
    requires framed { Framed s.now }
    requires i_in_bounds { i < length (decode s.now).executables }
    ensures { result ≡ executable_at (decode s.now) i }
{
    Executable::read(s, Header::executables_at(s) as usize + i * Executable::SIZE)
}

// Whether the executable in a slot has this id: reads no other field.
pub fn executable_has_id(s: &[u8], i: usize, id: u16) -> bool
    requires framed { Framed s.now }
    requires i_in_bounds { i < length (decode s.now).executables }
    ensures { result ≡ eqb (executable_at (decode s.now) i).id id }
{
    octets::is16(
        s,
        Header::executables_at(s) as usize + i * Executable::SIZE + Executable::ID,
        id,
    )
}

pub fn row(s: &[u8], i: usize) -> Row
    requires framed { Framed s.now }
    requires i_in_bounds { i < length (decode s.now).table }
    ensures { result ≡ row_at (decode s.now) i }
{
    Row::read(s, Header::table_at(s) as usize + i * Row::SIZE)
}

// The table's byte for an action and a domain.
pub fn table_byte(s: &[u8], i: usize, domain: u8) -> u8
    requires framed { Framed s.now }
    requires i_in_bounds { i < length (decode s.now).table }
    requires domain_bound { domain < 4 }
    ensures { result ≡ row_byte (row_at (decode s.now) i) domain }
{
    u8::read(
        s,
        Header::table_at(s) as usize + i * Row::SIZE + domain as usize,
    )
}

// ---- changes

pub fn set_clock(s: &mut [u8], t: u32)
    requires { Framed s.old }
    ensures { s.new ≡ encode (with_clock t (decode s.old)) }
{
    t.write(s, Header::CLOCK);
}

pub fn set_card(s: &mut [u8], n: u16)
    requires { Framed s.old }
    ensures { s.new ≡ encode (with_card n (decode s.old)) }
{
    n.write(s, Header::CARD);
}

pub fn set_mode(s: &mut [u8], m: u16)
    requires { Framed s.old }
    ensures { s.new ≡ encode (with_mode m (decode s.old)) }
{
    m.write(s, Header::MODE);
}

pub fn set_mark(s: &mut [u8], i: usize, m: u8)
    requires framed { Framed s.old }
    requires i_in_bounds { i < length (decode s.old).trust.certificates }
    ensures { s.new ≡ encode (put_certificate i (marked m (certificate_at (decode s.old) i)) (decode s.old)) }
{
    m.write(s, Header::SIZE + i * Certificate::SIZE + Certificate::MARK);
}

pub fn set_enabled(s: &mut [u8], i: usize, m: u8)
    requires framed { Framed s.old }
    requires i_in_bounds { i < length (decode s.old).trust.certificates }
    ensures { s.new ≡ encode (put_certificate i (enabling m (certificate_at (decode s.old) i)) (decode s.old)) }
{
    m.write(
        s,
        Header::SIZE + i * Certificate::SIZE + Certificate::ENABLED,
    );
}

pub fn write_certificate(s: &mut [u8], i: usize, c: Certificate)
    requires framed { Framed s.old }
    requires i_in_bounds { i < length (decode s.old).trust.certificates }
    ensures { s.new ≡ encode (put_certificate i c (decode s.old)) }
{
    Certificate::write(s, Header::SIZE + i * Certificate::SIZE, c);
}

pub fn clear_certificate(s: &mut [u8], i: usize)
    requires framed { Framed s.old }
    requires i_in_bounds { i < length (decode s.old).trust.certificates }
    ensures { s.new ≡ encode (put_certificate i no_certificate (decode s.old)) }
{
    octets::clear(s, Header::SIZE + i * Certificate::SIZE, Certificate::SIZE);
}

pub fn set_domain(s: &mut [u8], i: usize, d: u8)
    requires framed { Framed s.old }
    requires i_in_bounds { i < length (decode s.old).executables }
    ensures { s.new ≡ encode (put_executable i (in_domain d (executable_at (decode s.old) i)) (decode s.old)) }
{
    let at = Header::executables_at(s) as usize + i * Executable::SIZE + Executable::DOMAIN;
    d.write(s, at);
}

pub fn set_permissions(s: &mut [u8], i: usize, w: u32)
    requires framed { Framed s.old }
    requires i_in_bounds { i < length (decode s.old).executables }
    ensures { s.new ≡ encode (put_executable i (permitted w (executable_at (decode s.old) i)) (decode s.old)) }
{
    let at = Header::executables_at(s) as usize + i * Executable::SIZE + Executable::PERMISSIONS;
    w.write(s, at);
}

pub fn write_executable(s: &mut [u8], i: usize, x: Executable)
    requires framed { Framed s.old }
    requires i_in_bounds { i < length (decode s.old).executables }
    ensures { s.new ≡ encode (put_executable i x (decode s.old)) }
{
    let at = Header::executables_at(s) as usize + i * Executable::SIZE;
    Executable::write(s, at, x);
}

pub fn clear_executable(s: &mut [u8], i: usize)
    requires framed { Framed s.old }
    requires i_in_bounds { i < length (decode s.old).executables }
    ensures { s.new ≡ encode (put_executable i no_executable (decode s.old)) }
{
    let at = Header::executables_at(s) as usize + i * Executable::SIZE;
    octets::clear(s, at, Executable::SIZE);
}
