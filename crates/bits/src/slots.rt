// A word with a bit for each of at most 64 slots: a slot is put in, and the slots are gone through from the lowest up.
ghost use Rattle.std.specs.Prelude.{◌≡◌, ◌<◌};
ghost use Rattle.std.specs.Int.Count.{count_trailing_zeros};
ghost use Rattle.bits.specs.Bits.{set_bit};
ghost use Rattle.bits.specs.SlotWord.{less_lowest};
ghost use Rattle.bits.specs.GivesSlots.{GivesLowest};
ghost use Rattle.std.specs.Iterator.{at_most};

// The word with slot i in it.
pub fn with_slot(w: u64, i: usize) -> u64
    requires { i < 64 }
    ensures { result ≡ set_bit w i }
{
    w | 1 << i
}

// The lowest slot of the word.
pub fn lowest(w: u64) -> usize
    requires { 0 < w }
    ensures { result ≡ count_trailing_zeros 64 w }
{
    u64::trailing_zeros(w) as usize
}

// The word without its lowest slot.
pub fn rest(w: u64) -> u64
    requires { 0 < w }
    ensures { result ≡ less_lowest 64 w }
{
    w & (w - 1)
}

// The slots of a word, from the lowest up.
#[derive(Drop)]
pub struct Slots(pub u64);

impl Iterator for Slots {
    type Item = usize;

    ghost next_gives = { GivesLowest };

    ghost remaining = { λ s. at_most s.0 };

    fn next(&mut self) -> Option<usize> {
        if self.0 == 0 {
            return None;
        }
        let i = lowest(self.0);
        self.0 = rest(self.0);
        Some(i)
    }
}
