// Lines, fields, words and numbers of a text of bytes.
#![tactic(auto)]

ghost use Rattle.std.specs.Prelude.{◌≡◌, ◌-◌, ◌<◌, length, IfSome};
ghost use Rattle.std.specs.Iterator.{at_most};
ghost use Rattle.meaning.specs.Text.{trim, is_blank, fields, first, others, none};
ghost use Rattle.meaning.specs.Text.{same as same_bytes, number as number_of, signed as signed_of};
ghost use Rattle.text.specs.Scan.{run, in_line, is_ink};
ghost use Rattle.text.specs.Read.{piece_at, GivesLine};

// A line of a text: where it starts, its length, and where the next starts.
#[derive(Clone, Copy)]
pub struct Piece {
    pub start: usize,
    pub len: usize,
    pub next: usize,
}

// How many bytes of rest stand before its first LF, or before its end.
fn line_len(rest: &[u8]) -> usize
    ensures { result ≡ run in_line rest.now }
{
    rest.iter().take_while(|&&b| b != b'\n').count()
}

// The line that starts at a position of a text, if the text goes on there.
fn piece_at(text: &[u8], at: usize) -> Option<Piece>
    ensures { result ≡ piece_at text.now at }
{
    if at >= text.len() {
        return None;
    }
    let len = line_len(&text[at..]);
    Some(Piece {
        start: at,
        len,
        next: at + len + 1,
    })
}

// The lines of a text from a position on. The paper names this form: a reader that stays on one
// text and remembers its position.
#[derive(Drop)]
struct Lines<'a> {
    text: &'a [u8],
    at: usize,
}

impl<'a> Lines<'a> {
    fn new(text: &'a [u8], at: usize) -> Self
        ensures { (result.text ≡ text.entry) × (result.at ≡ at) }
    {
        Lines { text, at }
    }
}

// Each call gives the line at the position and goes on past it; at the end the position stays.
impl<'a> Iterator for Lines<'a> {
    type Item = Piece;

    ghost next_gives = { GivesLine };

    ghost remaining = { λ s. at_most (length s.text.now - s.at) };

    fn next(&mut self) -> Option<Piece> {
        let piece = piece_at(self.text, self.at)?;
        self.at = piece.next;
        Some(piece)
    }
}

// The line at a position, by the reader.
pub fn line_at(text: &[u8], at: usize) -> Option<Piece>
    ensures { result ≡ piece_at text.now at }
{
    Lines::new(text, at).next()
}

// A line without one CR at its end.
pub fn trimmed(line: &[u8]) -> &[u8]
    ensures { result.now ≡ trim line.now }
{
    match line {
        [rest @ .., b'\r'] => rest,
        _ => line,
    }
}

// Whether a byte is a space or a tab.
fn is_blank(b: u8) -> bool
    ensures { result ≡ is_blank b }
{
    matches!(b, b' ' | b'\t')
}

// How many blanks lead rest.
fn blanks(rest: &[u8]) -> usize
    ensures { result ≡ run is_blank rest.now }
{
    rest.iter().take_while(|&&b| is_blank(b)).count()
}

// How many bytes that are no blanks lead rest.
fn inks(rest: &[u8]) -> usize
    ensures { result ≡ run is_ink rest.now }
{
    rest.iter().take_while(|&&b| !is_blank(b)).count()
}

// The next field of the rest of a line, empty where there is none, and what follows it.
pub fn split_word(rest: &[u8]) -> (&[u8], &[u8])
    ensures word { result.0.now ≡ first (fields rest.now) }
    ensures after { fields result.1.now ≡ others (fields rest.now) }
{
    let lead = &rest[blanks(rest)..];
    lead.split_at(inks(lead))
}

// The next field: the first half of `split_word`.
pub fn word(rest: &[u8]) -> &[u8]
    ensures { result.now ≡ first (fields rest.now) }
{
    split_word(rest).0
}

// What follows the next field: the second half of `split_word`, the rest that the next field's
// parser is handed.
pub fn after(rest: &[u8]) -> &[u8]
    ensures { fields result.now ≡ others (fields rest.now) }
{
    split_word(rest).1
}

// Whether no field is left.
pub fn ended(rest: &[u8]) -> bool
    ensures { result ≡ none (fields rest.now) }
{
    rest.iter().all(|&b| is_blank(b))
}

// Whether a field is the word w, byte by byte. The clause has the paper's word for it, so the name
// stays over `==`.
pub fn same(f: &[u8], w: &[u8]) -> bool
    ensures { result ≡ same_bytes f.now w.now }
{
    f == w
}

// A field of 1 to 9 digits.
pub fn number(f: &[u8]) -> Option<usize>
    ensures value { result ≡ number_of f.now }
    ensures below { IfSome result (λ v. v < 1000000000) }
{
    if !matches!(f.len(), 1..=9) {
        return None;
    }
    let mut value = 0;
    for &b in f {
        if !b.is_ascii_digit() {
            return None;
        }
        value = value * 10 + usize::from(b - b'0');
    }
    Some(value)
}

// A field of 1 to 9 digits, with or without one minus sign before them.
pub fn signed(f: &[u8]) -> Option<i32>
    ensures { result ≡ signed_of f.now }
{
    match f {
        [b'-', digits @ ..] => Some(-(number(digits)? as i32)),
        _ => Some(number(f)? as i32),
    }
}
