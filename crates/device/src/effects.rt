// What an event of the clock or the card writes, once it is done.
ghost use Rattle.std.specs.Prelude.{◌≡◌};
ghost use Rattle.records.specs.Frame.{Framed};
ghost use Rattle.records.specs.Phone.{decode, encode, with_card};
ghost use Rattle.rules.specs.Effects.{card_in, card_out, card_rule, power_up, tick};

use records::{Event, image};

// 1 clock
pub fn tick(s: &mut [u8], e: Event)
    requires { Framed s.old }
    ensures { s.new ≡ encode (tick e (decode s.old)) }
{
    image::set_clock(s, e.key);
}

fn card_rule(s: &mut [u8])
    requires { Framed s.old }
    ensures { s.new ≡ encode (card_rule (decode s.old)) }
{
    let card = image::card_present(s);
    let owned = lookup::has_valid_operator(s, card);
    let operator = lookup::operator_of(s, card);
    handling::retire(s, owned, operator);
}

// 2 card in without its card rule: all of it where no operator root on the phone is marked valid.
pub fn card_only(s: &mut [u8], e: Event)
    requires { Framed s.old }
    ensures { s.new ≡ encode (with_card e.second (decode s.old)) }
{
    image::set_card(s, e.second);
}

// 2 card in
pub fn card_in(s: &mut [u8], e: Event)
    requires { Framed s.old }
    ensures { s.new ≡ encode (card_in e (decode s.old)) }
{
    card_only(s, e);
    card_rule(s);
}

// 3 card out
pub fn card_out(s: &mut [u8], e: Event)
    requires { Framed s.old }
    ensures { s.new ≡ encode (card_out e (decode s.old)) }
{
    image::set_card(s, 0);
}

// 4 power up
pub fn power_up(s: &mut [u8], e: Event)
    requires { Framed s.old }
    ensures { s.new ≡ encode (power_up e (decode s.old)) }
{
    if e.second == 0 {
        card_out(s, e);
        return;
    }
    card_in(s, e);
}
