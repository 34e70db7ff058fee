// The skip over heard derivations: the one place where a draw number becomes a derivation number.
ghost use Rattle.std.specs.Prelude.{◌≡◌, ◌≤◌, length};
ghost use Rattle.lists.specs.Inner.Tickets.{skip_over};
ghost use Rattle.sampling.specs.Inner.Skipping.{heard_spans, passed_by, Skips};

use ranking::unrank::DerivationNumber;

// How many unheard derivations stand before one (document 01: draw number). By weights, how many of their tickets.
#[derive(Clone, Copy)]
pub struct DrawNumber(pub u64);

// The heard derivations, rising: their first tickets, and what each of them weighs together with those before it. Without sums each weighs 1.
#[derive(Clone, Copy)]
pub struct Heard<'a> {
    pub firsts: &'a [u64],
    pub sums: &'a [u64],
}

impl<'a> Heard<'a> {
    // What the first i of them weigh.
    pub fn passed(self, i: usize) -> u64
        requires { (length self.sums.now ≡ 0 → ⊥) → i ≤ length self.sums.now }
        ensures { result ≡ passed_by self.entry.sums.now i }
    {
        if i == 0 {
            0
        } else if self.sums.is_empty() {
            i as u64
        } else {
            self.sums[i - 1]
        }
    }

    // Of the tickets that the heard ones don't own, the one after q others. Before it stand those whose first ticket is, less what those before them
    // weigh, at most q: the first ones, as they don't overlap.
    pub fn skip(self, q: DrawNumber) -> DerivationNumber
        requires { Skips q.0 self.firsts.now self.sums.now }
        ensures { result.0 ≡ skip_over q.0 (heard_spans self.entry.firsts.now self.entry.sums.now) }
    {
        let first = q.0;
        let mut low = 0;
        let mut high = self.firsts.len();
        // Stays: std's partition_point gives its test the element alone, and this test needs its index too. A slice of the first tickets, each less what
        // those before it weigh, would be one more buffer (no heap).
        while low < high {
            let mid = low + (high - low) / 2;
            if self.firsts[mid] <= first + self.passed(mid) {
                low = mid + 1;
            } else {
                high = mid;
            }
        }
        DerivationNumber(first + self.passed(low))
    }
}
