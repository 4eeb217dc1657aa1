// Lists of lines or of calls, read from text: the number of huts on the first line, then a pair of huts a line.
#![tactic(auto)]

ghost use Rattle.std.specs.Prelude.{◌≡◌, [], ◌∷◌, Some, MatchOption, option_map, slice_get};
ghost use Rattle.texts.specs.Lines.{blank, words_of};
ghost use Rattle.texts.specs.Number.{number_in};
ghost use Rattle.texts.specs.Reading.{sole_number, further_of, Reads, shown_of};
ghost use Rattle.texts.specs.declared.Unread.TheVariants.{Memory};

use std::alloc::{AllocError, Global};
use std::fmt;

// A list as it is written: the number of huts, and the pairs of huts, two numbers each, in their order.
#[derive(Drop)]
pub struct Listing {
    pub huts: u16,
    pub pairs: Vec<u16>,
}

// Why a text is not read.
#[derive(Clone, Copy, PartialEq, Eq, Debug)]
pub enum Unread {
    // The first line that can't be read, counted from 1.
    Line(usize),
    // There is no memory left.
    Memory,
}

impl fmt::Display for Unread {
    ghost output = { λ u. Some (shown_of u) };

    fn fmt<W: fmt::Write>(&self, f: &mut fmt::Formatter<W>) -> fmt::Result {
        match *self {
            Unread::Line(line) => write!(f, "line {line} can't be read"),
            Unread::Memory => f.write_str("out of memory"),
        }
    }
}

impl From<AllocError> for Unread {
    ghost from_gives = { λ _ r. r ≡ Memory };

    fn from(_e: AllocError) -> Unread {
        Unread::Memory
    }
}

// A line after the first that is neither blank nor a pair.
#[derive(Clone, Copy)]
struct Unreadable;

// The number that a word of digits stands for, and 65,535 if that is larger; no other word stands for a number.
pub fn number(word: &[u8]) -> Option<u16>
    ensures { result ≡ number_in word.now }
{
    if word.is_empty() {
        return None;
    }
    let mut n: u16 = 0;
    for d in word {
        if !d.is_ascii_digit() {
            return None;
        }
        n = n.saturating_mul(10).saturating_add(u16::from(*d - b'0'));
    }
    Some(n)
}

// A space, a tab or a carriage return.
fn is_blank(byte: u8) -> bool
    ensures { result ≡ blank byte }
{
    matches!(byte, b' ' | b'\t' | b'\r')
}

// The first word of a line, and what follows it. The bytes are gone over once, blanks too: a piece between two blanks is no word, and is never made.
fn first_word(line: &[u8]) -> Option<(&[u8], &[u8])>
    ensures { MatchOption result (words_of line.now ≡ []) (λ p. words_of line.now ≡ p.0.now ∷ words_of p.1.now) }
{
    let start = line.iter().position(|b| !is_blank(*b))?;
    let word = &line[start..];
    let end = word.iter().position(|b| is_blank(*b)).unwrap_or(word.len());
    Some(word.split_at(end))
}

// The first three words of a line, as far as it has them; no line that can be read has a third.
fn first_words(line: &[u8]) -> (Option<&[u8]>, Option<&[u8]>, Option<&[u8]>)
    ensures first { option_map (λ w. w.now) result.0 ≡ slice_get (words_of line.now) 0 }
    ensures second { option_map (λ w. w.now) result.1 ≡ slice_get (words_of line.now) 1 }
    ensures third { option_map (λ w. w.now) result.2 ≡ slice_get (words_of line.now) 2 }
{
    let Some((first, rest)) = first_word(line) else {
        return (None, None, None);
    };
    let Some((second, rest)) = first_word(rest) else {
        return (Some(first), None, None);
    };
    let Some((third, _)) = first_word(rest) else {
        return (Some(first), Some(second), None);
    };
    (Some(first), Some(second), Some(third))
}

// The number that is the only word of a line.
fn sole_number(line: &[u8]) -> Option<u16>
    ensures { result ≡ sole_number (words_of line.now) }
{
    let (word, rest) = first_word(line)?;
    match first_word(rest) {
        None => number(word),
        Some(_) => None,
    }
}

// The pair that a line after the first stands for, and none for a blank line.
fn further_line(line: &[u8]) -> Result<Option<(u16, u16)>, Unreadable>
    ensures { result ≡ further_of (words_of line.now) }
{
    match first_words(line) {
        (None, _, _) => Ok(None),
        (Some(a), Some(e), None) => {
            let a = number(a).ok_or(Unreadable)?;
            let e = number(e).ok_or(Unreadable)?;
            Ok(Some((a, e)))
        }
        _ => Err(Unreadable),
    }
}

// A list is read to its end, or to its first line that can't be read, which is looked for also where memory is wanting.
pub fn read(heap: Global, text: &[u8]) -> Result<Listing, Unread>
    ensures { Reads text.now result }
{
    let mut lines = text.split(|b| *b == b'\n');
    let Some(huts) = lines.next().and_then(sole_number) else {
        return Err(Unread::Line(1));
    };
    let mut pairs = Vec::new(heap);
    // Whether there was memory for every pair so far. Where there wasn't, the lines are still read, for one that can't be.
    let mut gathered = Ok(());
    for (k, line) in (2..).zip(lines) {
        if let Some((a, e)) = further_line(line).map_err(|_| Unread::Line(k))? {
            if gathered.is_ok() {
                gathered = pairs.extend_from_slice(&[a, e]);
            }
        }
    }
    gathered?;
    Ok(Listing { huts, pairs })
}
