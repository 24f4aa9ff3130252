// Numbers of one, two and four bytes in a slice, most significant byte first, and runs of zeros.
#![tactic(auto)]

ghost use Rattle.std.specs.Prelude.{◌≡◌, ℕ, ◌+◌, ◌≤◌, eqb, length};
ghost use Rattle.octets.specs.Octets.{be, be16, bytes, put, zeros};

// A number that stands in a slice as bytes, most significant first.
pub trait Number: Copy {
    // How many bytes it has.
    ghost width: { ℕ };

    // The number itself: a clause knows no type's values but by a member.
    ghost value: { Self → ℕ };

    // The number that the bytes from i on make.
    fn read(s: &[u8], i: usize) -> Self
        requires { i + width ≤ length s.now }
        ensures { value result ≡ be width s.now i };

    // The number as its bytes from i on, every other byte kept.
    fn write(self, s: &mut [u8], i: usize)
        requires { i + width ≤ length s.old }
        ensures { s.new ≡ put s.old i (bytes width (value self)) };
}

impl Number for u8 {
    ghost width = { 1 };

    ghost value = { λ n. n };

    fn read(s: &[u8], i: usize) -> u8 {
        s[i]
    }

    fn write(self, s: &mut [u8], i: usize) {
        store(s, i, &[self]);
    }
}

impl Number for u16 {
    ghost width = { 2 };

    ghost value = { λ n. n };

    fn read(s: &[u8], i: usize) -> u16 {
        u16::from_be_bytes([s[i], s[i + 1]])
    }

    fn write(self, s: &mut [u8], i: usize) {
        store(s, i, &self.to_be_bytes());
    }
}

impl Number for u32 {
    ghost width = { 4 };

    ghost value = { λ n. n };

    fn read(s: &[u8], i: usize) -> u32 {
        u32::from_be_bytes([s[i], s[i + 1], s[i + 2], s[i + 3]])
    }

    fn write(self, s: &mut [u8], i: usize) {
        store(s, i, &self.to_be_bytes());
    }
}

// Whether two bytes from i on make n: the low byte first, since it alone tells most numbers apart.
pub fn is16(s: &[u8], i: usize, n: u16) -> bool
    requires { i + 2 ≤ length s.now }
    ensures { result ≡ eqb (be16 s.now i) n }
{
    let [high, low] = n.to_be_bytes();
    (s[i + 1] == low) && (s[i] == high)
}

// The one store of this crate, by which every number of an image is written: bytes in the place of as many from i on.
fn store(s: &mut [u8], i: usize, bytes: &[u8])
    requires { i + length bytes.now ≤ length s.old }
    ensures { s.new ≡ put s.old i bytes.now }
{
    s[i..i + bytes.len()].copy_from_slice(bytes);
}

// Zeros in the n bytes from i on, every other byte kept.
pub fn clear(s: &mut [u8], i: usize, n: usize)
    requires { i + n ≤ length s.old }
    ensures { s.new ≡ put s.old i (zeros n) }
{
    s[i..i + n].fill(0);
}
