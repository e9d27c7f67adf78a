// Data lines in their plain form, read in one go: the word, one space, the numbers with one space
// between them, LF. What isn't plain is left to `line_of`. The hints on inlining keep a short text's
// lines from costing half as much again. A cast narrows where the proof shows that the number fits.
ghost use Rattle.std.specs.Prelude.{◌≡◌, ◌∷◌, IfSome};
ghost use Rattle.grammar.specs.Plain.{Says, DigitsSaid, SignedRead};
ghost use Rattle.meaning.specs.declared.Kind.TheVariants.{Graph, Coordinates, Sites};

use meaning::{Entry, Kind};

// The value of one to nine digits, and what follows the byte `end` after them.
#[inline]
fn digits(rest: &[u8], end: u8) -> Option<(usize, &[u8])>
    ensures { IfSome result (λ n. DigitsSaid rest.now end n.0 n.1.now) }
{
    // A number has nine digits at most.
    let most = rest.len().min(9);
    // One pass counts the digits beside their value: two chains would look at each byte twice.
    let mut len = 0;
    let mut value = 0;
    for &byte in &rest[..most] {
        let digit = byte.wrapping_sub(b'0');
        let ends = 9 < digit;
        if ends {
            break;
        }
        value = value * 10 + usize::from(digit);
        len += 1;
    }
    match &rest[len..] {
        [byte, rest @ ..] if *byte == end && 0 < len => Some((value, rest)),
        _ => None,
    }
}

// The same, with or without a minus sign before the digits.
#[inline]
fn coordinate(rest: &[u8], end: u8) -> Option<(i32, &[u8])>
    ensures { IfSome result (λ n. SignedRead rest.now end n.0 n.1.now) }
{
    if let [b'-', rest @ ..] = rest {
        let (size, rest) = digits(rest, end)?;
        return Some((-(size as i32), rest));
    }
    let (size, rest) = digits(rest, end)?;
    Some((size as i32, rest))
}

// The numbers of a line, if the word w and a space stand before them.
#[inline]
fn numbers(line: &[u8], w: u8) -> Option<&[u8]>
    ensures { IfSome result (λ rest. line.now ≡ w ∷ 32 ∷ rest.now) }
{
    match line {
        [first, b' ', rest @ ..] if *first == w => Some(rest),
        _ => None,
    }
}

// a U V W
#[inline(always)]
fn arc(line: &[u8]) -> Option<(Entry, &[u8])>
    ensures { IfSome result (λ p. Says Graph line.now p.0 p.1.now) }
{
    let rest = numbers(line, b'a')?;
    let (tail, rest) = digits(rest, b' ')?;
    let (head, rest) = digits(rest, b' ')?;
    let (weight, rest) = digits(rest, b'\n')?;
    Some((Entry::Arc { tail, head, weight }, rest))
}

// v ID X Y
#[inline(always)]
fn point(line: &[u8]) -> Option<(Entry, &[u8])>
    ensures { IfSome result (λ p. Says Coordinates line.now p.0 p.1.now) }
{
    let rest = numbers(line, b'v')?;
    let (node, rest) = digits(rest, b' ')?;
    let (x, rest) = coordinate(rest, b' ')?;
    let (y, rest) = coordinate(rest, b'\n')?;
    Some((Entry::Point { node, x, y }, rest))
}

// s ID
#[inline(always)]
fn site(line: &[u8]) -> Option<(Entry, &[u8])>
    ensures { IfSome result (λ p. Says Sites line.now p.0 p.1.now) }
{
    let rest = numbers(line, b's')?;
    let (node, rest) = digits(rest, b'\n')?;
    Some((Entry::Site { node }, rest))
}

// What the first line of a text of that kind says, if it is a plain data line, and the text after
// it.
#[inline(always)]
pub fn plain_line(kind: Kind, text: &[u8]) -> Option<(Entry, &[u8])>
    ensures { IfSome result (λ p. Says kind text.now p.0 p.1.now) }
{
    match kind {
        Kind::Graph => arc(text),
        Kind::Coordinates => point(text),
        Kind::Sites => site(text),
    }
}
