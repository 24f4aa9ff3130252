// What an event about executables writes, once it is done.
ghost use Rattle.std.specs.Prelude.{◌<◌, length, ◌≡◌};
ghost use Rattle.executables.specs.Acting.{chained_at, permission_write};
ghost use Rattle.rules.specs.Words.{first_place};
ghost use Rattle.rules.specs.AcceptedImage.{AcceptedImage};
ghost use Rattle.records.specs.Frame.{Framed};
ghost use Rattle.records.specs.Phone.{decode, encode};
ghost use Rattle.rules.specs.Codes.{is_executable};
ghost use Rattle.rules.specs.Effects.{delete_executable, install_executable, permit, verify};

use records::{Event, Executable, UNTRUSTED, image};
use rules::Chained;

// 10 install executable
pub fn install_executable(s: &mut [u8], e: Event, slot: usize)
    requires framed { Framed s.old }
    requires slot_value { slot ≡ first_place (is_executable 0) (decode s.old).executables }
    requires slot_in_bounds { slot < length (decode s.old).executables }
    ensures { s.new ≡ encode (install_executable e (decode s.old)) }
{
    let x = Executable {
        id: e.id,
        domain: UNTRUSTED,
        blank: 0,
        signing: e.key,
        permissions: 0,
    };
    image::write_executable(s, slot, x);
}

// 11 delete executable
pub fn delete_executable(s: &mut [u8], e: Event, slot: usize)
    requires accepted_image { AcceptedImage s.old }
    requires slot_value { slot ≡ first_place (is_executable e.id) (decode s.old).executables }
    requires slot_in_bounds { slot < length (decode s.old).executables }
    requires id_nonzero { 0 < e.id }
    ensures { s.new ≡ encode (delete_executable e (decode s.old)) }
{
    image::clear_executable(s, slot);
}

// 12 verify: it also tells what the executable chains to.
pub fn verify(s: &mut [u8], e: Event, slot: usize) -> Chained
    requires accepted_image { AcceptedImage s.old }
    requires slot_value { slot ≡ first_place (is_executable e.id) (decode s.old).executables }
    requires slot_in_bounds { slot < length (decode s.old).executables }
    requires id_nonzero { 0 < e.id }
    ensures { (s.new ≡ encode (verify e (decode s.old))) × (result ≡ chained_at (decode s.old) slot) }
{
    let told = chain::chain_of(s, image::executable(s, slot).signing);
    image::set_domain(s, slot, told.domain);
    told
}

// 13 give permission, or 14 withdraw it
pub fn permit(s: &mut [u8], e: Event, slot: usize, given: bool)
    requires accepted_image { AcceptedImage s.old }
    requires slot_value { slot ≡ first_place (is_executable e.id) (decode s.old).executables }
    requires slot_in_bounds { slot < length (decode s.old).executables }
    requires id_nonzero { (0 < e.id) × (e.second < length (decode s.old).table) }
    ensures { s.new ≡ encode (permit (permission_write given) e (decode s.old)) }
{
    let w = image::executable(s, slot).permissions;
    let action = e.second as u32;
    let written = if given {
        bits::set_bit(w, action)
    } else {
        bits::clear_bit(w, action)
    };
    image::set_permissions(s, slot, written);
}
