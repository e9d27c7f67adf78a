// Runs the search, the panel call and the route stretch on the cases of its standard input, and
// prints what each answers and what every buffer that it was lent then holds.
// A write that fails ends the program with that error.
#![tactic(auto)]

use meaning::{Refusal, Tables, Tally};
use std::fmt::Display;
use std::io::{self, Read};

// Room for a case and the end of its line.
const ROOM: usize = 150000;

// What a case's field stands for. One that is no number, as *, stands for the largest, and one that
// is no coordinate for the least.
trait FromField: Copy {
    fn of(field: &[u8]) -> Self;
}

impl FromField for usize {
    fn of(field: &[u8]) -> usize {
        text::number(field).unwrap_or(usize::MAX)
    }
}

impl FromField for u16 {
    fn of(field: &[u8]) -> u16 {
        u16::try_from(usize::of(field)).unwrap_or(u16::MAX)
    }
}

impl FromField for u32 {
    fn of(field: &[u8]) -> u32 {
        u32::try_from(usize::of(field)).unwrap_or(u32::MAX)
    }
}

impl FromField for i32 {
    fn of(field: &[u8]) -> i32 {
        text::signed(field).unwrap_or(i32::MIN)
    }
}

// The call that a case names.
#[derive(Clone, Copy)]
enum Call {
    Panel,
    Search,
}

// 0 is the panel call, and every other number the search.
impl FromField for Call {
    fn of(field: &[u8]) -> Call {
        match usize::of(field) {
            0 => Call::Panel,
            _ => Call::Search,
        }
    }
}

// The first entries of a table, `most` of them: the case says how much of each is lent.
fn lent<T>(table: &mut [T], most: usize) -> &mut [T] {
    let end = most.min(table.len());
    &mut table[..end]
}

// What is left of a case, to be read field by field.
#[derive(Drop)]
struct Fields<'a> {
    rest: &'a [u8],
}

impl Fields<'_> {
    fn next<T: FromField>(&mut self) -> T {
        let (field, rest) = text::split_word(self.rest);
        self.rest = rest;
        T::of(field)
    }

    // Fills the first entries of a table, `most` of them, and answers these.
    fn fill<'t, T: FromField>(&mut self, table: &'t mut [T], most: usize) -> &'t [T] {
        let table = lent(table, most);
        for entry in table.iter_mut() {
            *entry = self.next();
        }
        table
    }
}

// The numbers of a search's case: the call, what it is asked, and how much of each table and buffer
// is lent.
#[derive(Clone, Copy)]
struct Case {
    call: Call,
    n: usize,
    m: usize,
    s: usize,
    query: usize,
    k: usize,
    tails: usize,
    heads: usize,
    weights: usize,
    xs: usize,
    ys: usize,
    sites: usize,
    work: usize,
    listed: usize,
    lengths: usize,
    ends: usize,
    routes: usize,
}

impl Case {
    fn read(fields: &mut Fields) -> Case {
        Case {
            call: fields.next(),
            n: fields.next(),
            m: fields.next(),
            s: fields.next(),
            query: fields.next(),
            k: fields.next(),
            tails: fields.next(),
            heads: fields.next(),
            weights: fields.next(),
            xs: fields.next(),
            ys: fields.next(),
            sites: fields.next(),
            work: fields.next(),
            listed: fields.next(),
            lengths: fields.next(),
            ends: fields.next(),
            routes: fields.next(),
        }
    }
}

// A digest of what came before and one value more, by the prime 1000003. `cases` has the same line:
// the two are programs, and a crate that both use would be longer than the line.
fn mixed(sum: u64, value: u64) -> u64 {
    (sum % 1000003 * 31 + value % 1000003) % 1000003
}

fn each<T: Display>(rt: &impl Print, entries: &[T]) -> io::Result<()> {
    for entry in entries {
        print!(rt; " {entry}")?;
    }
    Ok(())
}

// A buffer: its length, a digest of all of it, and its first entries.
fn buffer<T: Copy + Into<u64> + Display>(
    rt: &impl Print,
    name: &str,
    entries: &[T],
) -> io::Result<()> {
    let len = entries.len();
    let sum = entries.iter().fold(0, |sum, &x| mixed(sum, x.into()));
    print!(rt; " {name} {len} {sum}")?;
    each(rt, &entries[..len.min(64)])
}

// A route: its length and its nodes.
fn route(rt: &impl Print, nodes: &[u16]) -> io::Result<()> {
    let len = nodes.len();
    print!(rt; " : {len}")?;
    each(rt, nodes)
}

// The answer, and the listed routes, each by the call for it.
fn tell(
    rt: &impl Print,
    answer: Result<Tally, Refusal>,
    routes: &[u16],
    ends: &[u16],
) -> io::Result<()> {
    match answer {
        Ok(Tally { sites, taken }) => {
            print!(rt; "= {sites} {taken}")?;
            for rank in 1..=sites {
                route(rt, search::route(routes, ends, rank))?;
            }
            Ok(())
        }
        Err(refusal) => print!(rt; "x {refusal}"),
    }
}

// The call that the case names. The buffers hold 7 everywhere. Each has a little more room than
// the limits ask for, so that a case can lend one that is too long.
fn asked(rt: &impl Print, tables: &Tables, case: &Case) -> io::Result<()> {
    let mut work = [7u32; 4200];
    let mut listed = [7u16; 40];
    let mut lengths = [7u32; 40];
    let mut ends = [7u16; 40];
    let mut routes = [7u16; 33000];
    let work = lent(&mut work, case.work);
    let listed = lent(&mut listed, case.listed);
    let lengths = lent(&mut lengths, case.lengths);
    let ends = lent(&mut ends, case.ends);
    let routes = lent(&mut routes, case.routes);
    let query = case.query;
    let answer = match case.call {
        Call::Panel => search::panel(tables, query, work, listed, lengths, ends, routes),
        Call::Search => {
            search::search(tables, query, case.k, work, listed, lengths, ends, routes)
        }
    };
    tell(rt, answer, routes, ends)?;
    buffer(rt, "w", work)?;
    buffer(rt, "s", listed)?;
    buffer(rt, "d", lengths)?;
    buffer(rt, "e", ends)?;
    buffer(rt, "r", routes)
}

// The tables of a case stand behind its numbers, and hold 7 where the case gives nothing. Each has a
// little more room than the limits allow, so that a case can lend one that is too long.
fn search_case(rt: &impl Print, fields: &mut Fields) -> io::Result<()> {
    let case = Case::read(fields);
    let mut tails = [7u16; 4100];
    let mut heads = [7u16; 4100];
    let mut weights = [7u32; 4100];
    let mut xs = [7i32; 1030];
    let mut ys = [7i32; 1030];
    let mut sites = [7u16; 140];
    let tables = Tables {
        tails: fields.fill(&mut tails, case.tails),
        heads: fields.fill(&mut heads, case.heads),
        weights: fields.fill(&mut weights, case.weights),
        xs: fields.fill(&mut xs, case.xs),
        ys: fields.fill(&mut ys, case.ys),
        sites: fields.fill(&mut sites, case.sites),
        n: case.n,
        m: case.m,
        s: case.s,
    };
    asked(rt, &tables, &case)
}

// A call for one route. Its buffers have as much room as those of a search's case.
fn route_case(rt: &impl Print, fields: &mut Fields) -> io::Result<()> {
    let rank = fields.next();
    let lent_ends = fields.next();
    let lent_routes = fields.next();
    let mut ends = [7u16; 40];
    let mut routes = [7u16; 33000];
    let ends = fields.fill(&mut ends, lent_ends);
    let routes = fields.fill(&mut routes, lent_routes);
    route(rt, search::route(routes, ends, rank))
}

// One case, by way of the buffer; false where the input has ended.
// A read that fails ends the input. `cases` has its own, for a first line of another form.
fn next_case(rt: &impl Print, input: &mut impl Read, buffer: &mut [u8; ROOM]) -> io::Result<bool> {
    let mut first = [0u8; 9];
    if input.read_exact(&mut first).is_err() {
        return Ok(false);
    }
    let len = usize::of(text::word(&first[2..8])).min(ROOM - 1);
    // A text that ends early stands in front of what the buffer held before.
    let _ = input.read_exact(&mut buffer[..len + 1]);
    let mut fields = Fields {
        rest: &buffer[..len],
    };
    match first[0] {
        b'r' => route_case(rt, &mut fields)?,
        _ => search_case(rt, &mut fields)?,
    }
    println!(rt)?;
    Ok(true)
}

// As in `cases`, which is a program of its own.
fn main(rt: HostRuntime) -> io::Result<()> {
    let mut input = rt.stdin();
    let mut buffer = [0u8; ROOM];
    // More rounds than any input has cases; the loop ends where the input does.
    for _ in 0..5000 {
        if !next_case(&rt, &mut input, &mut buffer)? {
            break;
        }
    }
    Ok(())
}
