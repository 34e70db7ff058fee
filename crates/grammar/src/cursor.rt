// The walk along a nonterminal's chain: each step hands on the walk after it.
ghost use Rattle.std.specs.Prelude.{◌≡◌, ◌<◌};
ghost use Rattle.grammar.specs.Layout.{nonterminals, head_of};
ghost use Rattle.grammar.specs.Inner.Checks.{Readable};
ghost use Rattle.grammar.specs.Inner.Steps.{step_at};

// A place on a chain: the number of the rule that comes next, 0 at the end.
#[derive(Clone, Copy)]
pub struct ChainCursor {
    pub at: u8,
}

// A rule, and the walk after it.
#[derive(Clone, Copy)]
pub enum Step {
    Word(u8, ChainCursor),
    Pair(u8, u8, ChainCursor),
    End,
}

impl ChainCursor {
    // Before the first rule of the chain of a.
    pub fn new(g: &[u8], a: u8) -> Self
        requires { Readable g.now × (a < nonterminals g.now) }
        ensures { result.at ≡ head_of g.now a }
    {
        ChainCursor {
            at: g[4 + usize::from(a)],
        }
    }

    // The next rule with the walk after it, or the end; n is N, behind which the rules stand.
    pub fn step(self, g: &[u8], n: usize) -> Step
        requires { Readable g.now × (n ≡ nonterminals g.now) }
        ensures { result ≡ step_at g.now self.at }
    {
        let at = self.at;
        if at == 0 {
            return Step::End;
        }
        if g[2] < at {
            return Step::End;
        }
        let base = n + 4 * usize::from(at);
        let kind = g[base];
        let a = g[base + 1];
        let b = g[base + 2];
        let next = ChainCursor { at: g[base + 3] };
        match kind {
            0 => Step::Word(a, next),
            1 => Step::Pair(a, b, next),
            2..=255 => Step::End,
        }
    }
}
