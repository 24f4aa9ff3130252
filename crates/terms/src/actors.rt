// Who may act: one table over the kind of an event and a domain.
ghost use Rattle.std.specs.Prelude.{◌<◌, ◌≡◌};
ghost use Rattle.rules.specs.Actors.{may_act, acts_for};
ghost use Rattle.rules.specs.Forms.{with_kind};
ghost use Rattle.rules.specs.Words.{between};

use records::{Certificate, Event};

// The actors, a bit for each.
const DEVICE: u32 = 1 << Event::DEVICE;

const USER: u32 = 1 << Event::USER;

const OPERATOR: u32 = 1 << Event::OPERATOR;

const MANUFACTURER: u32 = 1 << Event::MANUFACTURER;

const ADMINISTRATOR: u32 = 1 << Event::ADMINISTRATOR;

// "actors 1–4"
const PEOPLE: u32 = USER | OPERATOR | MANUFACTURER | ADMINISTRATOR;

// A row has eight bits for each domain from 0 on: the same actors in all of them, or those of domain 3.
const ANYWHERE: u32 = 0x0101_0101;

const THIRD_PARTY: u32 = 0x0100_0000;

// In domain 1 the operator, in domain 2 the manufacturer.
const OWN: u32 = (OPERATOR << 8) | (MANUFACTURER << 16);

// The actors that may do an event: a row for each kind from 0 on. A row is one number, since a kind that is known then leaves no table.
const ACTORS: [u32; 17] = [
    // No kind is 0.
    0,
    // Clock, card in, card out, power up.
    DEVICE * ANYWHERE,
    DEVICE * ANYWHERE,
    DEVICE * ANYWHERE,
    DEVICE * ANYWHERE,
    // A certificate: install, delete, mark valid, mark invalid.
    OWN | PEOPLE * THIRD_PARTY,
    OWN | (USER | ADMINISTRATOR) * THIRD_PARTY,
    OWN | ADMINISTRATOR * THIRD_PARTY,
    OWN | ADMINISTRATOR * THIRD_PARTY,
    // Message.
    ADMINISTRATOR * ANYWHERE,
    // An executable: install, delete, verify.
    PEOPLE * ANYWHERE,
    PEOPLE * ANYWHERE,
    DEVICE * ANYWHERE,
    // A permission: give, withdraw; request.
    USER * ANYWHERE,
    USER * ANYWHERE,
    DEVICE * ANYWHERE,
    // Replace: nobody's where the root is a third party's.
    OWN,
];

// "an operator or a manufacturer": who says in events 6 to 8 which one it is.
pub fn is_somebody(actor: u8) -> bool
    ensures { result ≡ between 2 3 actor }
{
    (Event::OPERATOR <= actor) & (actor <= Event::MANUFACTURER)
}

// Whether e, as an event of a kind, is by whom certificate c belongs to, where it has to be.
pub fn acts_for(kind: u8, e: Event, c: Certificate) -> bool
    ensures { result ≡ acts_for (with_kind kind e) c }
{
    let named = (Event::DELETE_CERTIFICATE <= kind)
        & (kind <= Event::MARK_INVALID)
        & is_somebody(e.actor);
    !named | (e.owner == c.owner)
}

pub fn may_act(kind: u8, domain: u8, actor: u8) -> bool
    requires { (kind < 17) × (domain < 4) × (actor < 5) }
    ensures { result ≡ may_act kind domain actor }
{
    let k = kind as usize;
    (ACTORS[k] >> (8 * domain + actor)) & 1 == 1
}
