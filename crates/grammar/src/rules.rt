// The table of rules by the names of its rows: `rules[WORDS][i]``. The first four rows are what *Count* and *Give* need; the links follow for the calls that
// read sentences.
ghost use Rattle.std.specs.Prelude.{◌≡◌, ◌+◌, ◌≤◌, ◌<◌, length};
ghost use Rattle.lists.specs.Inner.Tables.{entry, CopiedAs};
ghost use Rattle.grammar.specs.Inner.Links.{both, with_pair};
ghost use Rattle.grammar.specs.Inner.Rules.{word_at, left_at, right_at, word_from, pair_from, start_in, count_in, width_in};

// The rules by kind, those of a nonterminal together and in chain order.
pub const WORDS: usize = 0;

pub const LEFTS: usize = 1;

pub const RIGHTS: usize = 2;
// Where the words of a begin at a, where its pair rules do at PAIRS + a; the start symbol, how many nonterminals, how many words.
pub const BEGINS: usize = 3;

pub const PAIRS: usize = 64;

pub const START: usize = 128;

pub const COUNT: usize = 129;

pub const WIDTH: usize = 130;
// A link is a rule's place plus 1, 0 the end. The last rule with a word, the one before it, and whose it is.
pub const WITH_WORD: usize = 4;

pub const NEXT_WORD: usize = 5;

pub const WORD_OWNER: usize = 6;
// The same of pair rules: the rule before with the same two nonterminals, and whose it is.
pub const NEXT_PAIR: usize = 7;

pub const PAIR_OWNER: usize = 8;
// The last rule with each pair of nonterminals: 1,024 of them, 256 to a row.
pub const WITH_PAIR: usize = 9;
// The weights of the words.
pub const WEIGHTS: usize = 13;
// What the nonterminal's words before one weigh together, at its place: the low byte and the high one.
pub const BEFORE_LOW: usize = 14;

pub const BEFORE_HIGH: usize = 15;

pub fn word_at(rules: &[[u8; 256]], i: usize) -> u8
    requires { (4 ≤ length rules.now) × (i < 256) }
    ensures { result ≡ word_at rules.now i }
{
    rules[WORDS][i]
}

pub fn left_at(rules: &[[u8; 256]], i: usize) -> usize
    requires { (4 ≤ length rules.now) × (i < 256) }
    ensures { (result ≡ left_at rules.now i) × (result < 256) }
{
    usize::from(rules[LEFTS][i])
}

pub fn right_at(rules: &[[u8; 256]], i: usize) -> usize
    requires { (4 ≤ length rules.now) × (i < 256) }
    ensures { (result ≡ right_at rules.now i) × (result < 256) }
{
    usize::from(rules[RIGHTS][i])
}

pub fn words_from(rules: &[[u8; 256]], a: usize) -> usize
    requires { (4 ≤ length rules.now) × (a ≤ 32) }
    ensures { (result ≡ word_from rules.now a) × (result < 256) }
{
    usize::from(rules[BEGINS][a])
}

pub fn pairs_from(rules: &[[u8; 256]], a: usize) -> usize
    requires { (4 ≤ length rules.now) × (a ≤ 32) }
    ensures { (result ≡ pair_from rules.now a) × (result < 256) }
{
    usize::from(rules[BEGINS][PAIRS + a])
}

// The start symbol.
pub fn start(rules: &[[u8; 256]]) -> usize
    requires { 4 ≤ length rules.now }
    ensures { (result ≡ start_in rules.now) × (result < 256) }
{
    usize::from(rules[BEGINS][START])
}

// How many nonterminals there are.
pub fn count(rules: &[[u8; 256]]) -> usize
    requires { 4 ≤ length rules.now }
    ensures { (result ≡ count_in rules.now) × (result < 256) }
{
    usize::from(rules[BEGINS][COUNT])
}

// How many words there are.
pub fn width(rules: &[[u8; 256]]) -> u8
    requires { 4 ≤ length rules.now }
    ensures { result ≡ width_in rules.now }
{
    rules[BEGINS][WIDTH]
}

// A link, and what it leads to.
pub fn link_at(rules: &[[u8; 256]], row: usize, l: usize) -> usize
    requires { (row < length rules.now) × (l < 256) }
    ensures { (result ≡ entry rules.now row l) × (result < 256) }
{
    usize::from(rules[row][l])
}

// The link to the last pair rule (b, c).
pub fn pair_head(rules: &[[u8; 256]], b: usize, c: usize) -> usize
    requires { (13 ≤ length rules.now) × (b < 32) × (c < 32) }
    ensures { (result ≡ with_pair rules.now (both b c)) × (result < 256) }
{
    let x = 32 * b + c;
    let row = WITH_PAIR + x / 256;
    usize::from(rules[row][x % 256])
}

// The rules of a table into a larger one.
pub fn copy(from: &[[u8; 256]], to: &mut [[u8; 256]])
    requires { (4 ≤ length from.now) × (4 ≤ length to.old) }
    ensures { CopiedAs 4 from.now to.old to.new }
{
    to[..4].copy_from_slice(&from[..4]);
}
