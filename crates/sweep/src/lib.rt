// A search through numbered slots, once for all that search: the first slot that passes a test.
#![tactic(auto)]

ghost use Rattle.std.specs.Prelude.{ℕ, ◌<◌};
ghost use Rattle.sweep.specs.FirstPassing.{IsFirst};

// The first of n slots that passes, if one does. No slot behind it is asked. Four slots are asked in a turn: whether there is a next turn costs
// as much to ask as two slots. Always put in place: called, it would be lent its test in memory.
#[inline(always)]
pub fn first<F: Fn(usize) -> bool>(n: usize, passes: F) -> Option<usize>
    requires { (i : ℕ) → i < n → F.pre passes i }
    ensures { IsFirst (F.post passes) n result }
{
    for turn in 0..n / 4 {
        let i = 4 * turn;
        if passes(i) {
            return Some(i);
        }
        if passes(i + 1) {
            return Some(i + 1);
        }
        if passes(i + 2) {
            return Some(i + 2);
        }
        if passes(i + 3) {
            return Some(i + 3);
        }
    }
    for i in n / 4 * 4..n {
        if passes(i) {
            return Some(i);
        }
    }
    None
}
