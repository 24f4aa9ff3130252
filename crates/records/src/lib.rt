// The records of an image and of an event: sizes, offsets and what a field may say as constants of each record, and a reader of each;
// of the header a reader of each field.
#![tactic(auto)]

pub mod image;

ghost use Rattle.std.specs.Prelude.{◌≡◌, ◌+◌, ◌≤◌, length};
ghost use Rattle.records.specs.Sizes.{header_size, certificate_size, card_size, executable_size, row_size, event_size};
ghost use Rattle.octets.specs.Octets.{put};
ghost use Rattle.records.specs.Layout.{certificate_read, certificate_small, certificate_words, certificate_bytes};
ghost use Rattle.records.specs.Layout.{card_read, executable_read, executable_bytes, row_read, event_read};
ghost use Rattle.records.specs.Phone.{version, certificate_slots, card_count, executable_slots, action_count, standing_mode, card_present};
ghost use Rattle.records.specs.Phone.{header_zero, clock_time, certificates_at, cards_at, executables_at, table_at, total_length};

use octets::Number;

// The version of an image.
pub const VERSION: u16 = 1;

// Domains, kinds, marks, actors and modes are numbers here and below, and no enums: a field holds any byte of an image or an event, which
// `decode` says and `decode_encode` gives back.
// The domains, of certificates and of executables.
pub const UNTRUSTED: u8 = 0;

pub const OPERATOR: u8 = 1;

pub const MANUFACTURER: u8 = 2;

pub const THIRD_PARTY: u8 = 3;

// What stands in the field `enabled` of a certificate.
pub const DISABLED: u8 = 0;

pub const ENABLED: u8 = 1;

// The header of an image, which is never held as a whole.
#[derive(Clone, Copy)]
pub struct Header {}

impl Header {
    pub const SIZE: usize = 40;

    pub const VERSION: usize = 0;

    pub const CERTIFICATE_SLOTS: usize = 2;

    pub const CARD_COUNT: usize = 4;

    pub const EXECUTABLE_SLOTS: usize = 6;

    pub const ACTION_COUNT: usize = 8;

    pub const MODE: usize = 10;

    pub const CARD: usize = 12;

    pub const BLANK: usize = 14;

    pub const CLOCK: usize = 16;

    pub const CERTIFICATES_AT: usize = 20;

    pub const CARDS_AT: usize = 24;

    pub const EXECUTABLES_AT: usize = 28;

    pub const TABLE_AT: usize = 32;

    pub const TOTAL: usize = 36;

    // "standing message mode 0..2": the modes of a message.
    pub const DISABLE_ALL: u16 = Event::DISABLE_ALL as u16;

    pub const ENABLE_ALL: u16 = Event::ENABLE_ALL as u16;

    pub const ENABLE_LISTED: u16 = Event::ENABLE_LISTED as u16;

    // The readers name what the bytes say: the contracts of `image` speak of these names, and none of a whole header.
    fn version(s: &[u8]) -> u16
        requires { header_size ≤ length s.now }
        ensures { result ≡ version s.now }
    {
        u16::read(s, Header::VERSION)
    }

    fn certificate_slots(s: &[u8]) -> u16
        requires { header_size ≤ length s.now }
        ensures { result ≡ certificate_slots s.now }
    {
        u16::read(s, Header::CERTIFICATE_SLOTS)
    }

    fn card_count(s: &[u8]) -> u16
        requires { header_size ≤ length s.now }
        ensures { result ≡ card_count s.now }
    {
        u16::read(s, Header::CARD_COUNT)
    }

    fn executable_slots(s: &[u8]) -> u16
        requires { header_size ≤ length s.now }
        ensures { result ≡ executable_slots s.now }
    {
        u16::read(s, Header::EXECUTABLE_SLOTS)
    }

    fn action_count(s: &[u8]) -> u16
        requires { header_size ≤ length s.now }
        ensures { result ≡ action_count s.now }
    {
        u16::read(s, Header::ACTION_COUNT)
    }

    fn mode(s: &[u8]) -> u16
        requires { header_size ≤ length s.now }
        ensures { result ≡ standing_mode s.now }
    {
        u16::read(s, Header::MODE)
    }

    fn card(s: &[u8]) -> u16
        requires { header_size ≤ length s.now }
        ensures { result ≡ card_present s.now }
    {
        u16::read(s, Header::CARD)
    }

    fn blank(s: &[u8]) -> u16
        requires { header_size ≤ length s.now }
        ensures { result ≡ header_zero s.now }
    {
        u16::read(s, Header::BLANK)
    }

    fn clock(s: &[u8]) -> u32
        requires { header_size ≤ length s.now }
        ensures { result ≡ clock_time s.now }
    {
        u32::read(s, Header::CLOCK)
    }

    pub fn certificates_at(s: &[u8]) -> u32
        requires { header_size ≤ length s.now }
        ensures { result ≡ certificates_at s.now }
    {
        u32::read(s, Header::CERTIFICATES_AT)
    }

    pub fn cards_at(s: &[u8]) -> u32
        requires { header_size ≤ length s.now }
        ensures { result ≡ cards_at s.now }
    {
        u32::read(s, Header::CARDS_AT)
    }

    pub fn executables_at(s: &[u8]) -> u32
        requires { header_size ≤ length s.now }
        ensures { result ≡ executables_at s.now }
    {
        u32::read(s, Header::EXECUTABLES_AT)
    }

    pub fn table_at(s: &[u8]) -> u32
        requires { header_size ≤ length s.now }
        ensures { result ≡ table_at s.now }
    {
        u32::read(s, Header::TABLE_AT)
    }

    pub fn total(s: &[u8]) -> u32
        requires { header_size ≤ length s.now }
        ensures { result ≡ total_length s.now }
    {
        u32::read(s, Header::TOTAL)
    }
}

// A certificate, or a free slot where all is 0.
#[derive(Clone, Copy, PartialEq, Eq)]
pub struct Certificate {
    pub id: u16,
    pub place: u16,
    pub kind: u8,
    pub domain: u8,
    pub mark: u8,
    pub enabled: u8,
    pub key: u32,
    pub verifying: u32,
    pub owner: u32,
    pub expiry: u32,
}

impl Certificate {
    pub const MOST: u16 = 64;

    pub const SIZE: usize = 24;

    pub const ID: usize = 0;

    pub const PLACE: usize = 2;

    pub const KIND: usize = 4;

    pub const DOMAIN: usize = 5;

    pub const MARK: usize = 6;

    pub const ENABLED: usize = 7;

    pub const KEY: usize = 8;

    pub const VERIFYING: usize = 12;

    pub const OWNER: usize = 16;

    pub const EXPIRY: usize = 20;

    // A free slot.
    pub const FREE: Certificate = Certificate {
        id: 0,
        place: 0,
        kind: 0,
        domain: 0,
        mark: 0,
        enabled: 0,
        key: 0,
        verifying: 0,
        owner: 0,
        expiry: 0,
    };

    // Kinds.
    pub const ROOT: u8 = 0;

    pub const ISSUED: u8 = 1;

    pub const RECOVERY: u8 = 2;

    // Marks.
    pub const INVALID: u8 = 0;

    pub const VALID: u8 = 1;

    fn read(s: &[u8], at: usize) -> Certificate
        requires { at + certificate_size ≤ length s.now }
        ensures { result ≡ certificate_read s.now at }
    {
        Certificate {
            id: u16::read(s, at + Certificate::ID),
            place: u16::read(s, at + Certificate::PLACE),
            kind: u8::read(s, at + Certificate::KIND),
            domain: u8::read(s, at + Certificate::DOMAIN),
            mark: u8::read(s, at + Certificate::MARK),
            enabled: u8::read(s, at + Certificate::ENABLED),
            key: u32::read(s, at + Certificate::KEY),
            verifying: u32::read(s, at + Certificate::VERIFYING),
            owner: u32::read(s, at + Certificate::OWNER),
            expiry: u32::read(s, at + Certificate::EXPIRY),
        }
    }

    fn write_small(s: &mut [u8], at: usize, c: Certificate)
        requires { at + certificate_size ≤ length s.old }
        ensures { s.new ≡ put s.old at (certificate_small c) }
    {
        c.id.write(s, at + Certificate::ID);
        c.place.write(s, at + Certificate::PLACE);
        c.kind.write(s, at + Certificate::KIND);
        c.domain.write(s, at + Certificate::DOMAIN);
        c.mark.write(s, at + Certificate::MARK);
        c.enabled.write(s, at + Certificate::ENABLED);
    }

    fn write_words(s: &mut [u8], at: usize, c: Certificate)
        requires { at + certificate_size ≤ length s.old }
        ensures { s.new ≡ put s.old (at + 8) (certificate_words c) }
    {
        c.key.write(s, at + Certificate::KEY);
        c.verifying.write(s, at + Certificate::VERIFYING);
        c.owner.write(s, at + Certificate::OWNER);
        c.expiry.write(s, at + Certificate::EXPIRY);
    }

    fn write(s: &mut [u8], at: usize, c: Certificate)
        requires { at + certificate_size ≤ length s.old }
        ensures { s.new ≡ put s.old at (certificate_bytes c) }
    {
        Certificate::write_small(s, at, c);
        Certificate::write_words(s, at, c);
    }
}

// A card that the phone knows; `blank` is the zero between its fields.
#[derive(Clone, Copy)]
pub struct Card {
    pub number: u16,
    pub blank: u16,
    pub operator: u32,
}

impl Card {
    pub const MOST: u16 = 8;

    pub const SIZE: usize = 8;

    pub const NUMBER: usize = 0;

    pub const BLANK: usize = 2;

    pub const OPERATOR: usize = 4;

    fn read(s: &[u8], at: usize) -> Card
        requires { at + card_size ≤ length s.now }
        ensures { result ≡ card_read s.now at }
    {
        Card {
            number: u16::read(s, at + Card::NUMBER),
            blank: u16::read(s, at + Card::BLANK),
            operator: u32::read(s, at + Card::OPERATOR),
        }
    }
}

// An executable, or a free slot where all is 0; `blank` is the zero between its fields.
#[derive(Clone, Copy, PartialEq, Eq)]
pub struct Executable {
    pub id: u16,
    pub domain: u8,
    pub blank: u8,
    pub signing: u32,
    pub permissions: u32,
}

impl Executable {
    pub const MOST: u16 = 64;

    pub const SIZE: usize = 12;

    pub const ID: usize = 0;

    pub const DOMAIN: usize = 2;

    pub const BLANK: usize = 3;

    pub const SIGNING: usize = 4;

    pub const PERMISSIONS: usize = 8;

    // A free slot.
    pub const FREE: Executable = Executable {
        id: 0,
        domain: 0,
        blank: 0,
        signing: 0,
        permissions: 0,
    };

    fn read(s: &[u8], at: usize) -> Executable
        requires { at + executable_size ≤ length s.now }
        ensures { result ≡ executable_read s.now at }
    {
        Executable {
            id: u16::read(s, at + Executable::ID),
            domain: u8::read(s, at + Executable::DOMAIN),
            blank: u8::read(s, at + Executable::BLANK),
            signing: u32::read(s, at + Executable::SIGNING),
            permissions: u32::read(s, at + Executable::PERMISSIONS),
        }
    }

    fn write(s: &mut [u8], at: usize, x: Executable)
        requires { at + executable_size ≤ length s.old }
        ensures { s.new ≡ put s.old at (executable_bytes x) }
    {
        x.id.write(s, at + Executable::ID);
        x.domain.write(s, at + Executable::DOMAIN);
        x.blank.write(s, at + Executable::BLANK);
        x.signing.write(s, at + Executable::SIGNING);
        x.permissions.write(s, at + Executable::PERMISSIONS);
    }
}

// A row of the action table: a byte for each domain.
#[derive(Clone, Copy)]
pub struct Row {
    pub untrusted: u8,
    pub operator: u8,
    pub manufacturer: u8,
    pub third: u8,
}

impl Row {
    pub const MOST: u16 = 32;

    pub const SIZE: usize = 4;

    pub const UNTRUSTED: usize = 0;

    pub const OPERATOR: usize = 1;

    pub const MANUFACTURER: usize = 2;

    pub const THIRD: usize = 3;

    // What a byte of the table lets an executable do.
    pub const NEVER: u8 = 0;

    pub const WITH_PERMISSION: u8 = 1;

    pub const FREELY: u8 = 2;

    fn read(s: &[u8], at: usize) -> Row
        requires { at + row_size ≤ length s.now }
        ensures { result ≡ row_read s.now at }
    {
        Row {
            untrusted: u8::read(s, at + Row::UNTRUSTED),
            operator: u8::read(s, at + Row::OPERATOR),
            manufacturer: u8::read(s, at + Row::MANUFACTURER),
            third: u8::read(s, at + Row::THIRD),
        }
    }
}

// An event.
#[derive(Clone, Copy)]
pub struct Event {
    pub kind: u8,
    pub actor: u8,
    pub id: u16,
    pub second: u16,
    pub third: u8,
    pub fourth: u8,
    pub key: u32,
    pub verifying: u32,
    pub owner: u32,
    pub expiry: u32,
}

impl Event {
    pub const SIZE: usize = 24;

    pub const KIND: usize = 0;

    pub const ACTOR: usize = 1;

    pub const ID: usize = 2;

    pub const SECOND: usize = 4;

    pub const THIRD: usize = 6;

    pub const FOURTH: usize = 7;

    pub const KEY: usize = 8;

    pub const VERIFYING: usize = 12;

    pub const OWNER: usize = 16;

    pub const EXPIRY: usize = 20;

    // Kinds.
    pub const CLOCK: u8 = 1;

    pub const CARD_IN: u8 = 2;

    pub const CARD_OUT: u8 = 3;

    pub const POWER_UP: u8 = 4;

    pub const INSTALL_CERTIFICATE: u8 = 5;

    pub const DELETE_CERTIFICATE: u8 = 6;

    pub const MARK_VALID: u8 = 7;

    pub const MARK_INVALID: u8 = 8;

    pub const MESSAGE: u8 = 9;

    pub const INSTALL_EXECUTABLE: u8 = 10;

    pub const DELETE_EXECUTABLE: u8 = 11;

    pub const VERIFY: u8 = 12;

    pub const GIVE: u8 = 13;

    pub const WITHDRAW: u8 = 14;

    pub const REQUEST: u8 = 15;

    pub const REPLACE: u8 = 16;

    // Actors.
    pub const DEVICE: u8 = 0;

    pub const USER: u8 = 1;

    pub const OPERATOR: u8 = 2;

    pub const MANUFACTURER: u8 = 3;

    pub const ADMINISTRATOR: u8 = 4;

    // Modes of a message, and how many ids it lists at most.
    pub const DISABLE_ALL: u8 = 0;

    pub const ENABLE_ALL: u8 = 1;

    pub const ENABLE_LISTED: u8 = 2;

    pub const MOST_LISTED: u8 = 8;

    pub fn read(s: &[u8], at: usize) -> Event
        requires { at + event_size ≤ length s.now }
        ensures { result ≡ event_read s.now at }
    {
        Event {
            kind: Event::kind(s, at),
            actor: Event::actor(s, at),
            id: u16::read(s, at + Event::ID),
            second: u16::read(s, at + Event::SECOND),
            third: u8::read(s, at + Event::THIRD),
            fourth: u8::read(s, at + Event::FOURTH),
            key: u32::read(s, at + Event::KEY),
            verifying: u32::read(s, at + Event::VERIFYING),
            owner: u32::read(s, at + Event::OWNER),
            expiry: u32::read(s, at + Event::EXPIRY),
        }
    }

    pub fn kind(s: &[u8], at: usize) -> u8
        requires { at + event_size ≤ length s.now }
        ensures { result ≡ (event_read s.now at).kind }
    {
        u8::read(s, at + Event::KIND)
    }

    pub fn actor(s: &[u8], at: usize) -> u8
        requires { at + event_size ≤ length s.now }
        ensures { result ≡ (event_read s.now at).actor }
    {
        u8::read(s, at + Event::ACTOR)
    }
}
