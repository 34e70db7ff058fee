// Maps from spans to rows of the table of totals, with a letter for each position.
ghost use Rattle.std.specs.Prelude.{◌≡◌, ◌≤◌, ◌<◌, length};
ghost use Rattle.lists.specs.Inner.Tables.{Wide};
ghost use Rattle.charts.specs.Inner.Letters.{letter_of, admits, stands};
ghost use Rattle.charts.specs.Inner.Maps.{row_at, LetteredAs, Fitted};

use counting::letters::ANY;

// Rows of the table of totals: of zeros, and the first of a chart. Those below are the counts'.
pub const NONE: usize = 17;

pub const CHART: usize = 18;

// What the word at a position must be: a letter. A map has them in its first row.
pub const LETTERS: usize = 0;

// The map of plain counts: the row of a span is its length, and any word counts for 1.
pub const EVERYWHERE: [[u16; 16]; 17] = [
    [256; 16], [1; 16], [2; 16], [3; 16], [4; 16], [5; 16], [6; 16], [7; 16], [8; 16], [9; 16],
    [10; 16], [11; 16], [12; 16], [13; 16], [14; 16], [15; 16], [16; 16],
];

// Where the totals by the words' weights stand, in a table that has them: the row of a length is that much behind it. Charts begin behind the last.
pub const WEIGHTS: usize = 18;

pub const BEHIND_WEIGHTS: usize = 35;

// Their map.
pub const BY_WEIGHT: [[u16; 16]; 17] = [
    [257; 16], [19; 16], [20; 16], [21; 16], [22; 16], [23; 16], [24; 16], [25; 16], [26; 16],
    [27; 16], [28; 16], [29; 16], [30; 16], [31; 16], [32; 16], [33; 16], [34; 16],
];

// The row of the m positions from p on.
pub fn row_at(map: &[[u16; 16]; 17], p: usize, m: usize) -> usize
    requires { (p < 16) × (m ≤ 16) }
    ensures { result ≡ row_at map.now p m }
{
    usize::from(map[m][p])
}

// The letter of a byte.
fn letter(x: u8, blank: u16) -> u16
    ensures { result ≡ letter_of blank x }
{
    let word = u16::from(x);
    if word == blank { ANY } else { word }
}

// The words of a sentence, or the bytes of a pattern, as letters; `blank` is the byte that lets any word stand. ANY is none.
pub fn set_letters(words: &[u8], blank: u16, map: &mut [[u16; 16]; 17])
    requires { (length words.now ≤ 16) × (length map.old ≡ 17) × Wide map.old 16 }
    ensures { LetteredAs blank words.now map.old map.new }
{
    for (p, w) in words.iter().enumerate() {
        map[LETTERS][p] = letter(*w, blank);
    }
}

// Whether a letter asks for the word, or for any.
fn admits(letter: u16, w: u8) -> bool
    ensures { result ≡ admits letter w }
{
    ANY <= letter || letter == u16::from(w)
}

// Whether each word is one that the letter at its position asks for. The map of the counts, whose row of a single word is none of a chart, asks for any.
pub fn fits(map: &[[u16; 16]; 17], sentence: &[u8]) -> bool
    requires { Fitted map.now sentence.now }
    ensures { result ≡ stands map.now 0 sentence.now }
{
    row_at(map, 0, 1) < NONE
        || map[LETTERS]
            .iter()
            .zip(sentence)
            .all(|(l, w)| admits(*l, *w))
}
