// The fields of a grammar's first four bytes.
ghost use Rattle.std.specs.Prelude.{◌≡◌};
ghost use Rattle.grammar.specs.Layout.{byte_at, nonterminals, words, start};

// The byte at i; 0 past the end.
fn byte(g: &[u8], i: usize) -> u8
    ensures { result ≡ byte_at g.now i }
{
    g.get(i).copied().unwrap_or(0)
}

pub fn nonterminals(g: &[u8]) -> u8
    ensures { result ≡ nonterminals g.now }
{
    byte(g, 0)
}

pub fn words(g: &[u8]) -> u8
    ensures { result ≡ words g.now }
{
    byte(g, 1)
}

pub fn start(g: &[u8]) -> u8
    ensures { result ≡ start g.now }
{
    byte(g, 3)
}
