// What the handlers of all kinds share: the plan of an event, its answer, how it ends, and the marks of the phone that give way to a card.
#![tactic(auto)]

ghost use Rattle.std.specs.Prelude.{ℕ, false, ◌≡◌};
ghost use Rattle.records.specs.Phone.{decode, encode};
ghost use Rattle.records.specs.Frame.{Framed};
ghost use Rattle.rules.specs.Effects.{settle};
ghost use Rattle.rules.specs.Step.{refused, answer_done};
ghost use Rattle.chain.specs.Settling.{settle_in, DomainsKnown};
ghost use Rattle.handling.specs.Handled.{Settled};
ghost use Rattle.handling.specs.RefusalCodes.{of_room, refusal_code};
ghost use Rattle.handling.specs.Retiring.{outgoing, retiring};

use lookup::NoRoom;
use records::{Certificate, image};
use rules::Answer;

// Why an event on an accepted image is refused: a name for each code from 2 on.
#[derive(Clone, Copy)]
pub enum Refusal {
    // "event not 24 bytes, kind not 1..15, actor above 4, a field out of range, unused field not 0, action not below the action count"
    Malformed = 2,
    // "id unknown", or a listed one
    UnknownId = 3,
    // "actor not allowed"
    ActorNotAllowed = 4,
    // "new time below the clock"
    ClockBackwards = 5,
    // "a card or install place that is not 0 and is not in the card table"
    UnknownCard = 6,
    // "card in with one present; card out with none"
    CardState = 7,
    // "install, delete or mark on a card not present"
    CardAbsent = 8,
    // "id taken in the same table"
    IdTaken = 9,
    // "a certificate of another domain has this key"
    KeyElsewhere = 10,
    // an operator root that is not the operator's of its card, or of the card present
    OtherOperator = 11,
    // "marking an issued record; message lists one that is no third party root"
    WrongKind = 12,
    // "mark valid while another is valid"
    AnotherValid = 13,
    // "no free slot"
    NoFreeSlot = 14,
    // "table byte 0"
    NeverAllowed = 15,
    // "table byte 1 and no permission"
    NoPermission = 16,
    // a replace whose recovery record does not fit
    NoRecovery = 17,
    // a certificate past its date would become valid
    PastItsDate = 18,
}

impl Refusal {
    // The code that is told.
    pub fn code(self) -> u8
        ensures { result ≡ refusal_code self }
    {
        self as u8
    }
}

impl From<NoRoom> for Refusal {
    ghost from_gives = { λ why r. r ≡ of_room why };

    fn from(why: NoRoom) -> Refusal {
        match why {
            NoRoom::Taken => Refusal::IdTaken,
            NoRoom::Elsewhere => Refusal::KeyElsewhere,
            NoRoom::Full => Refusal::NoFreeSlot,
        }
    }
}

// ---- answers

// "Every code other than 0 gives domain 0 and links 0".
pub fn refused(code: u8) -> Answer
    ensures { result ≡ refused code }
{
    Answer {
        code,
        domain: 0,
        links: 0,
        rule: 0,
        offset: 0,
    }
}

// "Domain and links are non-zero only for code 0 of verify and request".
pub fn done(domain: u8, links: u8) -> Answer
    ensures { result ≡ answer_done domain links }
{
    Answer {
        code: 0,
        domain,
        links,
        rule: 0,
        offset: 0,
    }
}

// ---- how an event ends that may have touched a chain

// "After every accepted event".
pub fn settle(s: &mut [u8]) -> Answer
    requires framed { Framed s.old }
    requires domains_known { DomainsKnown (decode s.old) }
    ensures { Settled s.old result s.new }
{
    chain::settle(s);
    done(0, 0)
}

// Where no chain can have broken there is nothing to settle.
pub fn settle_if(s: &mut [u8], broken: bool) -> Answer
    requires framed { Framed s.old }
    requires domains_known { DomainsKnown (decode s.old) }
    requires s_value { broken ≡ false → settle (decode s.old) ≡ decode s.old }
    ensures { Settled s.old result s.new }
{
    if !broken {
        return done(0, 0);
    }
    settle(s)
}

// Where all that can have broken are the chains of one domain, that one is settled.
pub fn settle_own(s: &mut [u8], domain: u8) -> Answer
    requires framed { Framed s.old }
    requires s_value { settle_in domain (decode s.old) ≡ settle (decode s.old) }
    ensures { Settled s.old result s.new }
{
    chain::settle_domain(s, domain);
    done(0, 0)
}

// ---- the phone's operator roots

// Whether c is an operator root on the phone that has to go: any, or one of another owner.
fn is_outgoing(every: bool, operator: u32, c: Certificate) -> bool
    ensures { result ≡ outgoing every operator c }
{
    terms::is_phone_operator_root(c) & (every | (c.owner != operator))
}

// The operator roots on the phone are marked invalid: every one, or those of another owner.
pub fn retire(s: &mut [u8], every: bool, operator: u32)
    requires { Framed s.old }
    ensures { s.new ≡ encode (retiring every operator (decode s.old)) }
{
    for i in 0..image::certificate_slots(s) {
        if is_outgoing(every, operator, image::certificate(s, i)) {
            image::set_mark(s, i, Certificate::INVALID);
        }
    }
}
