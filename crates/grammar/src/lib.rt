// What a line of each of the three texts says.
#![tactic(auto)]

ghost use Rattle.std.specs.Prelude.{◌≡◌, true, false, MatchOption};
ghost use Rattle.meaning.specs.Text.{fields, first, others};
ghost use Rattle.meaning.specs.Grammar.{aux_count, problem_of, data_of, line_of};
ghost use Rattle.meaning.specs.Grammar.{word_a, word_v, word_s};
ghost use Rattle.meaning.specs.declared.Kind.TheVariants.{Graph, Coordinates, Sites};
ghost use Rattle.grammar.specs.Fields.{IsNext, IsLast, problem_line, data_line};

use meaning::{Counts, Entry, Kind, Line};
pub use plain::plain_line;

mod plain;

// What follows the word w, if that is the next field.
fn past<'a>(rest: &'a [u8], w: &[u8]) -> Option<&'a [u8]>
    ensures { MatchOption result (IsNext w.now rest.now false)
        (λ r. IsNext w.now rest.now true × (fields r.now ≡ others (fields rest.now))) }
{
    let (word, others) = text::split_word(rest);
    text::same(word, w).then_some(others)
}

// The next field, if no field is after it.
fn last(rest: &[u8]) -> Option<&[u8]>
    ensures { MatchOption result (IsLast rest.now false)
        (λ f. IsLast rest.now true × (f.now ≡ first (fields rest.now))) }
{
    let (word, others) = text::split_word(rest);
    text::ended(others).then_some(word)
}

// aux, sp and a third word, then one number and no more.
fn aux_count(rest: &[u8], third: &[u8]) -> Option<usize>
    ensures { result ≡ aux_count third.now (fields rest.now) }
{
    let rest = past(rest, b"aux")?;
    let rest = past(rest, b"sp")?;
    let rest = past(rest, third)?;
    text::number(last(rest)?)
}

// sp N M
fn graph_counts(given: usize, rest: &[u8]) -> Option<Counts>
    ensures { problem_line result ≡ problem_of Graph given (fields rest.now) }
{
    let (nodes, rows) = text::split_word(past(rest, b"sp")?);
    Some(Counts {
        nodes: text::number(nodes)?,
        rows: text::number(last(rows)?)?,
    })
}

// The fields of a problem line after p.
fn problem_of(kind: Kind, given: usize, rest: &[u8]) -> Option<Counts>
    ensures { problem_line result ≡ problem_of kind given (fields rest.now) }
{
    match kind {
        Kind::Graph => graph_counts(given, rest),
        Kind::Coordinates => aux_count(rest, b"co").map(|nodes| Counts { nodes, rows: nodes }),
        Kind::Sites => aux_count(rest, b"ss").map(|rows| Counts { nodes: given, rows }),
    }
}

// U V W
fn arc_of(rest: &[u8]) -> Option<Entry>
    ensures { data_line result ≡ data_of Graph word_a (fields rest.now) }
{
    let (tail, rest) = text::split_word(rest);
    let (head, rest) = text::split_word(rest);
    Some(Entry::Arc {
        tail: text::number(tail)?,
        head: text::number(head)?,
        weight: text::number(last(rest)?)?,
    })
}

// ID X Y
fn point_of(rest: &[u8]) -> Option<Entry>
    ensures { data_line result ≡ data_of Coordinates word_v (fields rest.now) }
{
    let (node, rest) = text::split_word(rest);
    let (x, rest) = text::split_word(rest);
    Some(Entry::Point {
        node: text::number(node)?,
        x: text::signed(x)?,
        y: text::signed(last(rest)?)?,
    })
}

// ID
fn site_of(rest: &[u8]) -> Option<Entry>
    ensures { data_line result ≡ data_of Sites word_s (fields rest.now) }
{
    Some(Entry::Site {
        node: text::number(last(rest)?)?,
    })
}

// The fields of a data line after its first word.
fn data_of(kind: Kind, word: &[u8], rest: &[u8]) -> Option<Entry>
    ensures { data_line result ≡ data_of kind word.now (fields rest.now) }
{
    match kind {
        Kind::Graph if text::same(word, b"a") => arc_of(rest),
        Kind::Coordinates if text::same(word, b"v") => point_of(rest),
        Kind::Sites if text::same(word, b"s") => site_of(rest),
        _ => None,
    }
}

// What a line says, without its end; given is the N handed in.
pub fn line_of(kind: Kind, given: usize, line: &[u8]) -> Line
    ensures { result ≡ line_of kind given (fields line.now) }
{
    if text::ended(line) {
        return Line::Nothing;
    }
    let (word, rest) = text::split_word(line);
    if text::same(word, b"c") {
        return Line::Nothing;
    }
    if text::same(word, b"p") {
        problem_of(kind, given, rest).map_or(Line::Malformed, Line::Problem)
    } else {
        data_of(kind, word, rest).map_or(Line::Malformed, Line::Data)
    }
}
