// The listing program (document 01: listing program). Standard input has a length byte, two bytes size of the grammar, low byte first, the
// grammar, and the history to the end. The program prints the figures of *Left*, then a line for each draw, or the refusal. At the first read
// or write that fails it stops and says so on standard error.
#![tactic(auto)]

mod meanings;

ghost use Rattle.std.specs.Prelude.{[], ◌+◌, ◌≤◌, length, IfOk};
ghost use Rattle.arrayvec.specs.ArrayString.{array_string_len};
ghost use Rattle.charts.specs.Inner.Maps.{counts_map};
ghost use Rattle.sampling.specs.Inner.Drawing.{DrawSought};

use answers::refusal::Refusal;
use arrayvec::ArrayString;
use itoa::Buffer;
use ranking::unrank;
use ranking::unrank::DerivationNumber;
use sampling::question::Question;
use sampling::skip::DrawNumber;
use sampling::{draw, prepare};
use std::io::{Eprint, Print, Read};
use std::rt::{Stderr, Stdin, Stdout};
use std::{fmt, io};

// A line for the reader of standard error. Where it cannot be written, nobody can be told.
fn say<D: fmt::Display + Drop>(to: Stderr, what: D) {
    let _ = eprintln!(to; "listing: {what}");
}

// The refusal's one line, and on standard error what it means.
fn print_refusal(to: Stdout, err: Stderr, r: Refusal) -> io::Result<()> {
    println!(to; "refused {}", u8::from(r))?;
    say(err, format_args!("refused: {}", meanings::meaning(r)));
    Ok(())
}

// ---- Draws

// Lines that are still to be written.
type Lines = ArrayString<4096>;

// They are written out where there is less room.
const ROOM: usize = 512;

// A draw's line has at most 106 bytes: two numbers of up to twenty digits, and sixteen words of up to three.
fn put_draw(lines: &mut Lines, q: DrawNumber, d: DerivationNumber, words: &[u8])
    requires { (array_string_len lines.old + 106 ≤ 4096) × (length words.now ≤ 16) }
    ensures { array_string_len lines.new ≤ array_string_len lines.old + 106 }
{
    // Stays: `write!` doesn't promise that it succeeds where there is room.
    let mut digits = Buffer::new();
    lines.push_str(digits.format(q.0));
    lines.push_str(" ");
    lines.push_str(digits.format(d.0));
    for w in words {
        lines.push_str(" ");
        lines.push_str(digits.format(*w));
    }
    lines.push_str("\n");
}

// The figures, and a line for each draw, none past draw 999. No draw below left is refused.
fn print_list(
    to: Stdout,
    rules: &[[u8; 256]],
    totals: &[[u64; 32]],
    n: usize,
    heard: &[u64],
) -> io::Result<()>
    requires { DrawSought rules.now totals.now counts_map n heard.now [] }
{
    let total = unrank::count(rules, totals, n);
    let count = heard.len() as u64;
    let left = total - count;
    println!(to; "{n} {total} {count} {left}")?;
    let mut lines = Lines::new();
    let mut words = [0u8; 16];
    for q in 0..left.min(1000) {
        if lines.remaining_capacity() < ROOM {
            to.write_all(lines.as_bytes())?;
            lines.clear();
        }
        let q = DrawNumber(q);
        if let Ok(drawn) = draw::draw_prepared(rules, totals, n, heard, q, &mut words) {
            put_draw(&mut lines, q, drawn.number, &words[..n]);
        }
    }
    to.write_all(lines.as_bytes())
}

fn list(to: Stdout, err: Stderr, n: u64, g: &[u8], h: &[u8]) -> io::Result<()> {
    let mut rules = [[0u8; 256]; 4];
    let mut totals = [[0u64; 32]; 17];
    let mut numbers = [0u64; 1000];
    let question = Question {
        length: n,
        voice: 0,
    };
    match prepare::prepare(g, h, question, &mut rules, &mut totals, &mut numbers) {
        Err(r) => print_refusal(to, err, r),
        Ok(k) => print_list(to, &rules, &totals, n as usize, &numbers[0..k]),
    }
}

// ---- Input

// The length, the grammar and the history. Nothing where the grammar is cut short.
fn parts(s: &[u8]) -> Option<(u64, &[u8], &[u8])> {
    let [n, lo, hi, rest @ ..] = s else {
        return None;
    };
    let size = u16::from_le_bytes([*lo, *hi]);
    let (g, h) = rest.split_at_checked(usize::from(size))?;
    Some((u64::from(*n), g, h))
}

// Fewer bytes than the grammar needs, or fewer than three, count as an empty grammar.
fn list_input(to: Stdout, err: Stderr, s: &[u8]) -> io::Result<()> {
    let (n, g, h) = parts(s).unwrap_or((0, &[], &[]));
    list(to, err, n, g, h)
}

// Reads until the buffer is full or the input ends, and answers how many bytes came.
fn read_input(from: &mut Stdin, input: &mut [u8]) -> io::Result<usize>
    ensures { IfOk result (λ end. end ≤ length input.old) }
{
    let mut end = 0;
    while end < input.len() {
        let more = from.read(&mut input[end..])?;
        if more == 0 {
            break;
        }
        end += more;
    }
    Ok(end)
}

// Lists what came. Where a read fails nothing is listed: an input that cannot be read is no empty one.
fn main(rt: HostRuntime) {
    let mut input = [0u8; 65536];
    let Ok(end) = read_input(&mut rt.stdin(), &mut input) else {
        return say(rt.stderr(), "standard input cannot be read");
    };
    if list_input(rt.stdout(), rt.stderr(), &input[..end]).is_err() {
        say(rt.stderr(), "standard output cannot be written");
    }
}
