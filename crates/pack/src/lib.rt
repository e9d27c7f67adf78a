// A pack's four texts, read in order, and the list of each query printed. What is printed is
// decided by the readers and the panel call; here lines are written.
// A write that fails ends the list with that error.
#![tactic(auto)]

ghost use Rattle.std.specs.Prelude.{◌≤◌, length, take};
ghost use Rattle.std.specs.Io.KnownBytes.{Consumes};

use meaning::{
    ARCS_MOST, Counts, NODES_MOST, PANEL_K, Refusal, SITES_MOST, TEXT_MOST, Tables, Tally,
};
use std::{fmt, io};

// Room for a text: one byte more than a text may have, so that a longer one is refused and not cut.
pub const TEXT_ROOM: usize = TEXT_MOST + 1;

// Reads until the buffer is full, the input ends or a read fails, and answers how many bytes it put
// at the start of the buffer.
pub fn read_full<I: io::Read>(input: &mut I, text: &mut [u8]) -> usize
    ensures within { result ≤ length text.new }
    ensures bytes { Consumes (I.remaining input.old) (I.remaining input.new)
        (take result text.new) }
{
    // The loop goes by what was read: a read may give fewer bytes than there is room for.
    let mut done = 0;
    while done < text.len() {
        match input.read(&mut text[done..]) {
            Ok(0) | Err(_) => break,
            Ok(got) => done += got,
        }
    }
    done
}

// A refusal, with the file that it speaks of and what its place counts there.
#[derive(Clone, Copy)]
struct Refused {
    file: &'static str,
    unit: &'static str,
    refusal: Refusal,
}

// In words, for a person. A refusal of the whole has no place.
impl fmt::Display for Refused {
    fn fmt<W: fmt::Write>(&self, f: &mut fmt::Formatter<W>) -> fmt::Result {
        let Refused {
            file,
            unit,
            refusal: Refusal { fault, place },
        } = *self;
        if place == 0 {
            write!(f, "{file}: {fault}")
        } else {
            write!(f, "{file}, {unit} {place}: {fault}")
        }
    }
}

// Why a list ends early.
#[derive(Drop)]
enum Halt {
    Refused(Refused),
    Failed(io::Error),
}

impl From<io::Error> for Halt {
    fn from(error: io::Error) -> Halt {
        Halt::Failed(error)
    }
}

// What a call counted, or its refusal as one of a file.
fn accepted<T>(
    answer: Result<T, Refusal>,
    file: &'static str,
    unit: &'static str,
) -> Result<T, Halt> {
    answer.map_err(|refusal| {
        Halt::Refused(Refused {
            file,
            unit,
            refusal,
        })
    })
}

// A line of a list: rank, site, length, route.
fn line(rt: &impl Print, rank: usize, site: u16, metres: u32, route: &[u16]) -> io::Result<()> {
    print!(rt; "r {rank} {site} {metres}")?;
    for node in route {
        print!(rt; " {node}")?;
    }
    println!(rt)
}

// A query's line, and its list.
fn list(rt: &impl Print, tables: &Tables, query: u16, work: &mut [u32]) -> Result<(), Halt> {
    let mut listed = [0u16; PANEL_K];
    let mut lengths = [0u32; PANEL_K];
    let mut ends = [0u16; PANEL_K];
    let mut routes = [0u16; PANEL_K * NODES_MOST];
    let answer = search::panel(
        tables,
        usize::from(query),
        work,
        &mut listed,
        &mut lengths,
        &mut ends,
        &mut routes,
    );
    // Of tables that were read a search refuses an arc alone.
    let Tally { sites, taken } = accepted(answer, "map.gr", "arc")?;
    println!(rt; "q {query} {sites} {taken}")?;
    for (i, (&site, &metres)) in listed.iter().zip(&lengths).take(sites).enumerate() {
        let route = search::route(&routes, &ends, i + 1);
        line(rt, i + 1, site, metres, route)?;
    }
    Ok(())
}

// The lists of the queries in order. The first text or query that is refused ends them.
fn lists(
    rt: &impl Print,
    graph: &[u8],
    points: &[u8],
    site_text: &[u8],
    ask: &[u8],
) -> Result<(), Halt> {
    let mut tails = [0u16; ARCS_MOST];
    let mut heads = [0u16; ARCS_MOST];
    let mut weights = [0u32; ARCS_MOST];
    let mut xs = [0i32; NODES_MOST];
    let mut ys = [0i32; NODES_MOST];
    let mut sites = [0u16; SITES_MOST];
    let mut asked = [0u16; SITES_MOST];
    let mut work = [0u32; 4 * NODES_MOST];
    let answer = readers::read_graph(graph, &mut tails, &mut heads, &mut weights);
    let Counts { nodes: n, rows: m } = accepted(answer, "map.gr", "line")?;
    let answer = readers::read_coordinates(points, n, &mut xs, &mut ys);
    accepted(answer, "map.co", "line")?;
    let answer = readers::read_sites(site_text, n, &mut sites);
    let Counts { rows: s, .. } = accepted(answer, "sites.ss", "line")?;
    let answer = readers::read_sites(ask, n, &mut asked);
    let Counts { rows: queries, .. } = accepted(answer, "ask.ss", "line")?;
    let tables = Tables {
        tails: &tails,
        heads: &heads,
        weights: &weights,
        xs: &xs,
        ys: &ys,
        sites: &sites,
        n,
        m,
        s,
    };
    for &query in asked.iter().take(queries) {
        list(rt, &tables, query, &mut work)?;
    }
    Ok(())
}

// The texts of map.gr, map.co, sites.ss and ask.ss. A refusal ends the list with its number and
// place; for a person who asks for it the same in words goes to standard error.
pub fn print(
    rt: &(impl Print + Eprint),
    graph: &[u8],
    points: &[u8],
    sites: &[u8],
    ask: &[u8],
    aloud: bool,
) -> io::Result<()> {
    match lists(rt, graph, points, sites, ask) {
        Ok(()) => Ok(()),
        Err(Halt::Failed(error)) => Err(error),
        Err(Halt::Refused(refused)) => {
            let refusal = refused.refusal;
            println!(rt; "x {refusal}")?;
            if aloud {
                eprintln!(rt; "{refused}")?;
            }
            Ok(())
        }
    }
}
