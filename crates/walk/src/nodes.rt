// Nodes of a derivation, and what they total by a map.
ghost use Rattle.std.specs.Prelude.{◌≡◌, ◌*◌, ◌+◌, ◌-◌, ◌≤◌};
ghost use Rattle.charts.specs.Inner.Maps.{total_at};
ghost use Rattle.walk.specs.Inner.Steps.{Placed, Cut};

use charts::maps;

// A nonterminal over the m positions from p on.
#[derive(Clone, Copy)]
pub struct Node {
    pub a: usize,
    pub p: usize,
    pub m: usize,
}

impl Node {
    // The left half of a pair rule: b over the first k positions.
    pub fn left(self, b: usize, k: usize) -> Node
        ensures { (result.a ≡ b) × (result.p ≡ self.p) × (result.m ≡ k) }
    {
        Node {
            a: b,
            p: self.p,
            m: k,
        }
    }

    // The right half: c over the positions after the first k.
    pub fn right(self, c: usize, k: usize) -> Node
        requires { (k ≤ self.m) × (self.p + k ≤ 16) }
        ensures { (result.a ≡ c) × (result.p ≡ self.p + k) × (result.m ≡ self.m - k) }
    {
        Node {
            a: c,
            p: self.p + k,
            m: self.m - k,
        }
    }

    pub fn total(self, totals: &[[u64; 32]], map: &[[u16; 16]; 17]) -> u64
        requires { Placed totals.now map.now self.a self.p self.m }
        ensures { result ≡ total_at totals.now map.now self.p self.a self.m }
    {
        let row = maps::row_at(map, self.p, self.m);
        totals[row][self.a]
    }
}

// What two halves make together.
pub fn product(totals: &[[u64; 32]], map: &[[u16; 16]; 17], left: Node, right: Node) -> u64
    requires { Cut totals.now map.now left.a left.p left.m right.a right.p right.m }
    ensures { result ≡ total_at totals.now map.now left.p left.a left.m * total_at totals.now map.now right.p right.a right.m }
{
    left.total(totals, map) * right.total(totals, map)
}
