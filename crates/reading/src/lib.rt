// Judges a text: its size, the N handed in, and its lines in order. A row is kept of each entry.
#![tactic(auto)]

ghost use Rattle.std.specs.Prelude.{◌≡◌, ◌≤◌, cond, length, nat_abs, Err};
ghost use Rattle.meaning.specs.Limits.{base, fine};
ghost use Rattle.meaning.specs.declared.Entry.{Entry};
ghost use Rattle.meaning.specs.Text.{lines};
ghost use Rattle.meaning.specs.Files.{
  within as is_within,
  is_coordinate,
  most_rows,
  agrees as is_agreed,
  counts_fault,
  entry_fault,
  node_of,
  awaiting,
  read_from,
  handed_in,
  reading,
  answered,
};
ghost use Rattle.reading.specs.Said.{said_at};
ghost use Rattle.reading.specs.Rows.{Wide, RowsRead};
ghost use Rattle.reading.specs.Follows.{
  only_once,
  too_many,
  data_fault,
  Small,
  Ready,
  Starts,
  Finishes,
  Answers,
  AnswersProblem,
  AnswersNext,
};

pub use marks::Marks;
use meaning::{Counts, Entry, Fault, Kind, Limits, Line, Refusal, Rules};

mod marks;

// An entry as it is kept until the last line has been judged.
pub trait Row: Copy {
    ghost row_of: { Entry → Self };

    // An entry whose numbers a row can hold.
    fn of(e: Entry) -> Self
        requires { Small e }
        ensures { result ≡ row_of e };
}

// How far the lines of a text have been judged: what they are held to, where the next one starts,
// the counts of the problem line once it has come, how many entries there are since, and the nodes
// that these gave.
#[derive(Drop)]
struct Reader {
    rules: Rules,
    at: usize,
    counts: Option<Counts>,
    count: usize,
    marks: Marks,
}

// What a line says, and where the next starts.
#[derive(Clone, Copy)]
struct Said {
    line: Line,
    next: usize,
}

pub fn within(lo: usize, x: usize, hi: usize) -> bool
    ensures { result ≡ is_within lo x hi }
{
    (lo..=hi).contains(&x)
}

// A coordinate's size. The least i32 has no negative in an i32.
pub fn size(z: i32) -> usize
    ensures { result ≡ nat_abs z }
{
    z.unsigned_abs() as usize
}

pub fn is_coordinate(limits: Limits, z: i32) -> bool
    ensures { result ≡ is_coordinate limits z }
{
    size(z) <= limits.coordinate
}

// The fault where a test does not pass.
fn test(passes: bool, fault: Fault) -> Result<(), Fault>
    ensures { result ≡ cond passes fine (Err fault) }
{
    if passes { Ok(()) } else { Err(fault) }
}

fn most_rows(limits: Limits, kind: Kind) -> usize
    ensures { result ≡ most_rows limits kind }
{
    match kind {
        Kind::Graph => limits.arcs,
        Kind::Coordinates => limits.nodes,
        Kind::Sites => limits.sites,
    }
}

fn agrees(kind: Kind, given: usize, n: usize) -> bool
    ensures { result ≡ is_agreed kind given n }
{
    match kind {
        Kind::Coordinates => n == given,
        Kind::Graph | Kind::Sites => true,
    }
}

// Of a problem line: its counts, then the room for its data.
fn counts_fault(rules: Rules, c: Counts) -> Result<(), Fault>
    ensures { result ≡ counts_fault rules c }
{
    let inside = within(1, c.nodes, rules.limits.nodes)
        && c.rows <= most_rows(rules.limits, rules.kind)
        && agrees(rules.kind, rules.given, c.nodes);
    test(inside, Fault::CountOutside)?;
    test(c.rows <= rules.room, Fault::TableShort)
}

pub fn arc_fault(
    limits: Limits,
    n: usize,
    tail: usize,
    head: usize,
    weight: usize,
) -> Result<(), Fault>
    ensures { result ≡ entry_fault limits n (Entry.Arc tail head weight) }
{
    test(within(1, tail, n) && within(1, head, n), Fault::NodeOutside)?;
    test(within(1, weight, limits.weight), Fault::ValueOutside)
}

fn point_fault(limits: Limits, n: usize, node: usize, x: i32, y: i32) -> Result<(), Fault>
    ensures { result ≡ entry_fault limits n (Entry.Point node x y) }
{
    test(within(1, node, n), Fault::NodeOutside)?;
    let inside = is_coordinate(limits, x) && is_coordinate(limits, y);
    test(inside, Fault::ValueOutside)
}

// Of a data line: its nodes, then its values.
fn entry_fault(limits: Limits, n: usize, e: Entry) -> Result<(), Fault>
    ensures { result ≡ entry_fault limits n e }
{
    match e {
        Entry::Arc { tail, head, weight } => arc_fault(limits, n, tail, head, weight),
        Entry::Point { node, x, y } => point_fault(limits, n, node, x, y),
        Entry::Site { node } => test(within(1, node, n), Fault::NodeOutside),
    }
}

fn too_many(rows: usize, count: usize) -> Result<(), Fault>
    ensures { result ≡ too_many rows count }
{
    test(count < rows, Fault::DataMiscounted)
}

// Of a data line behind the problem line: one too many, then what is wrong with the entry.
fn data_fault(limits: Limits, c: Counts, count: usize, e: Entry) -> Result<(), Fault>
    ensures { result ≡ data_fault limits c count e }
{
    too_many(c.rows, count)?;
    entry_fault(limits, c.nodes, e)
}

pub fn node_of(e: Entry) -> usize
    ensures { result ≡ node_of e }
{
    match e {
        Entry::Arc { tail: node, .. } | Entry::Point { node, .. } | Entry::Site { node } => node,
    }
}

fn only_once(e: Entry, given: bool) -> bool
    ensures { result ≡ only_once e given }
{
    given && !matches!(e, Entry::Arc { .. })
}

fn handed_in(limits: Limits, kind: Kind, n: usize) -> bool
    ensures { result ≡ handed_in limits kind n }
{
    match kind {
        Kind::Graph => true,
        Kind::Coordinates | Kind::Sites => within(1, n, limits.nodes),
    }
}

// What the line that starts at a position says. A plain data line is read in one go, any other
// field by field.
#[inline(always)]
fn said_at(kind: Kind, given: usize, text: &[u8], at: usize) -> Said
    requires { at ≤ length text.now }
    ensures { result ≡ said_at kind given text.now at }
{
    if let Some((entry, rest)) = grammar::plain_line(kind, &text[at..]) {
        return Said {
            line: Line::Data(entry),
            next: text.len() - rest.len(),
        };
    }
    match text::line_at(text, at) {
        Some(piece) => {
            let line = text::trimmed(&text[piece.start..piece.start + piece.len]);
            Said {
                line: grammar::line_of(kind, given, line),
                next: piece.next,
            }
        }
        None => Said {
            line: Line::Nothing,
            next: at,
        },
    }
}

// The rows stay the caller's, beside the reader: a struct of both would hold a `&mut`, whose ghost
// name each clause would have to carry. So Ready, which is about both, stands in the clauses.
impl Reader {
    // Before the first line.
    fn new(rules: Rules) -> Reader
        ensures { Starts rules result }
    {
        Reader {
            rules,
            at: 0,
            counts: None,
            count: 0,
            marks: Marks::new(),
        }
    }

    // A problem line.
    fn begin(&mut self, c: Counts) -> Result<(), Fault>
        ensures { AnswersProblem self.old c result self.new }
    {
        test(self.counts.is_none(), Fault::ProblemMisplaced)?;
        counts_fault(self.rules, c)?;
        self.counts = Some(c);
        Ok(())
    }

    // A data line. Its node is marked in any text; an arc may repeat one. An entry without a fault
    // is kept as a row.
    fn add<R: Row>(&mut self, rows: &mut [R], e: Entry) -> Result<(), Fault>
        requires { Ready self.old rows.old }
        ensures { Answers R.row_of self.old rows.old (Line.Data e) result self.new rows.new }
    {
        let counts = self.counts.ok_or(Fault::ProblemMisplaced)?;
        data_fault(self.rules.limits, counts, self.count, e)?;
        let k = node_of(e) - 1;
        if only_once(e, self.marks.contains(k)) {
            return Err(Fault::GivenTwice);
        }
        self.marks.insert(k);
        rows[self.count] = R::of(e);
        self.count += 1;
        Ok(())
    }

    // A line, by what it says.
    fn advance<R: Row>(&mut self, rows: &mut [R], line: Line) -> Result<(), Fault>
        requires { Ready self.old rows.old }
        ensures { Answers R.row_of self.old rows.old line result self.new rows.new }
    {
        match line {
            Line::Nothing => Ok(()),
            Line::Problem(c) => self.begin(c),
            Line::Data(e) => self.add(rows, e),
            Line::Malformed => Err(Fault::NotPermitted),
        }
    }

    // The next line.
    fn next_line<R: Row>(&mut self, text: &[u8], rows: &mut [R]) -> Result<(), Fault>
        requires at_in_bounds { self.old.at ≤ length text.now }
        requires ready { Ready self.old rows.old }
        ensures { AnswersNext R.row_of text.now self.old rows.old result self.new rows.new }
    {
        let said = said_at(self.rules.kind, self.rules.given, text, self.at);
        self.at = said.next;
        self.advance(rows, said.line)
    }

    // At the end of the text: no problem line, then too few data lines.
    fn finish(&self) -> Result<Counts, Refusal>
        ensures { Finishes self.now result }
    {
        let counts = self.counts.ok_or(Fault::ProblemMisplaced.at(0))?;
        if self.count == counts.rows {
            Ok(counts)
        } else {
            Err(Fault::DataMiscounted.at(0))
        }
    }
}

// The lines in order, of a text whose size and handed-in N have been tested.
fn judge<R: Row>(rules: Rules, text: &[u8], rows: &mut [R]) -> Result<Counts, Refusal>
    requires limits_value { rules.limits ≡ base }
    requires wide { Wide rules.kind rows.old }
    ensures rows_read { RowsRead R.row_of (read_from rules (lines text.now) awaiting 0) rows.new }
    ensures value { result ≡ answered (read_from rules (lines text.now) awaiting 0) }
{
    let mut reader = Reader::new(rules);
    let mut place = 0;
    // By the lines' positions; they are counted for a refusal's place.
    while reader.at < text.len() {
        place += 1;
        reader
            .next_line(text, rows)
            .map_err(|fault| fault.at(place))?;
    }
    reader.finish()
}

// The answer of a reader: the text's size, then a handed-in N, then the lines. It is told what
// differs between readers; the limits are the paper's for each. The room is the length of the
// caller's tables, not that of rows.
pub fn judged<R: Row>(
    kind: Kind,
    given: usize,
    room: usize,
    text: &[u8],
    rows: &mut [R],
) -> Result<Counts, Refusal>
    requires { Wide kind rows.old }
    ensures rows_read { RowsRead R.row_of
        (reading (record { limits = base; kind = kind; given = given; room = room }) text.now)
        rows.new }
    ensures value { result ≡ answered
        (reading (record { limits = base; kind = kind; given = given; room = room }) text.now) }
{
    let limits = meaning::base();
    test(text.len() <= limits.text, Fault::TextTooLong).map_err(|fault| fault.at(0))?;
    test(handed_in(limits, kind, given), Fault::CountOutside).map_err(|fault| fault.at(0))?;
    let rules = Rules {
        limits,
        kind,
        given,
        room,
    };
    judge(rules, text, rows)
}
