// The house matrix grammar (document 01: house matrix bank), as a constant table: nine nonterminals, fifty words, 54 rules.
#![tactic(auto)]

ghost use Rattle.std.specs.Prelude.{◌≡◌};
ghost use Rattle.grammar.specs.Inner.Says.{grammar_says};
ghost use Rattle.matrix.specs.Table.{table, accepted};

use answers::refusal::Refusal;
use grammar::checks;
use grammar::checks::Sizes;

const MATRIX: [u8; 229] = [
    9, 50, 54, 0, 1, 2, 3, 4, 5, 15, 25, 35, 45, 1, 4, 1, 0, 1, 5, 2, 0, 1, 6, 3, 0, 1, 7, 8, 0, 0,
    0, 0, 6, 0, 1, 0, 7, 0, 2, 0, 8, 0, 3, 0, 9, 0, 4, 0, 10, 0, 5, 0, 11, 0, 6, 0, 12, 0, 7, 0,
    13, 0, 8, 0, 14, 0, 9, 0, 0, 0, 10, 0, 16, 0, 11, 0, 17, 0, 12, 0, 18, 0, 13, 0, 19, 0, 14, 0,
    20, 0, 15, 0, 21, 0, 16, 0, 22, 0, 17, 0, 23, 0, 18, 0, 24, 0, 19, 0, 0, 0, 20, 0, 26, 0, 21,
    0, 27, 0, 22, 0, 28, 0, 23, 0, 29, 0, 24, 0, 30, 0, 25, 0, 31, 0, 26, 0, 32, 0, 27, 0, 33, 0,
    28, 0, 34, 0, 29, 0, 0, 0, 30, 0, 36, 0, 31, 0, 37, 0, 32, 0, 38, 0, 33, 0, 39, 0, 34, 0, 40,
    0, 35, 0, 41, 0, 36, 0, 42, 0, 37, 0, 43, 0, 38, 0, 44, 0, 39, 0, 0, 0, 40, 0, 46, 0, 41, 0,
    47, 0, 42, 0, 48, 0, 43, 0, 49, 0, 44, 0, 50, 0, 45, 0, 51, 0, 46, 0, 52, 0, 47, 0, 53, 0, 48,
    0, 54, 0, 49, 0, 0,
];

// The table.
pub fn bytes() -> [u8; 229]
    ensures { result ≡ table }
{
    MATRIX
}

// The reader accepts it, with nine nonterminals and fifty words.
pub fn check() -> Result<Sizes, Refusal>
    ensures { grammar_says result ≡ accepted }
{
    checks::check(&MATRIX)
}
