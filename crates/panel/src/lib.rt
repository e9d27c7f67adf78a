// The library's calls for a panel in C, C++ or Rust, over plain numbers and slices. A slice is a
// pointer and a number of entries there, so the tables and rooms come one by one.
// An answer comes back by value, as one number (include/wickswarm.h takes it apart), so that a
// refused call writes nothing at all.
#![tactic(auto)]

ghost use Rattle.std.specs.Prelude.{◌≡◌, ◌<◌};
ghost use Rattle.meaning.specs.Limits.{base, fault_number};
ghost use Rattle.meaning.specs.Region.{tables, rooms};
ghost use Rattle.meaning.specs.Boundary.{field, packed as packed_of, read_code, answer_code};
ghost use Rattle.meaning.specs.Boundary.{RefusalFits, ReadFits, AnswerFits, stretch_code};
ghost use Rattle.meaning.specs.Boundary.{GraphCalled, CoordinatesCalled, SitesCalled};
ghost use Rattle.meaning.specs.Boundary.{SearchCalled, PanelCalled};

use meaning::{Counts, Refusal, Tables, Tally};

// A place and a count have 28 bits each, and a refusal's number the 8 bits above them.
const FIELD: u64 = 1 << 28;

fn packed(number: usize, first: usize, second: usize) -> u64
    requires { (number < 256) × (first < field) × (second < field) }
    ensures { result ≡ packed_of number first second }
{
    (number as u64 * FIELD + first as u64) * FIELD + second as u64
}

fn refused(refusal: Refusal) -> u64
    requires { RefusalFits (fault_number refusal.fault) refusal.place }
    ensures { result ≡ packed_of (fault_number refusal.fault) refusal.place 0 }
{
    packed(usize::from(refusal.fault), refusal.place, 0)
}

// The two codes that follow are alike, but each promises the number of a definition of its own,
// read_code and answer_code of meaning's Boundary.
fn read_code(answer: Result<Counts, Refusal>) -> u64
    requires { ReadFits answer }
    ensures { result ≡ read_code answer }
{
    match answer {
        Ok(counts) => packed(0, counts.nodes, counts.rows),
        Err(refusal) => refused(refusal),
    }
}

fn answer_code(answer: Result<Tally, Refusal>) -> u64
    requires { AnswerFits answer }
    ensures { result ≡ answer_code answer }
{
    match answer {
        Ok(tally) => packed(0, tally.sites, tally.taken),
        Err(refusal) => refused(refusal),
    }
}

// Reads a graph text.
#[unsafe(no_mangle)]
pub extern "C" fn wick_read_graph(
    text: &[u8],
    tails: &mut [u16],
    heads: &mut [u16],
    weights: &mut [u32],
) -> u64
    ensures { GraphCalled base text.now tails.old heads.old weights.old
        tails.new heads.new weights.new result }
{
    read_code(readers::read_graph(text, tails, heads, weights))
}

// Reads a coordinate text, of a graph with that many nodes.
#[unsafe(no_mangle)]
pub extern "C" fn wick_read_coordinates(
    text: &[u8],
    nodes: usize,
    xs: &mut [i32],
    ys: &mut [i32],
) -> u64
    ensures { CoordinatesCalled base text.now nodes xs.old ys.old xs.new ys.new result }
{
    read_code(readers::read_coordinates(text, nodes, xs, ys))
}

// Reads a site text, of a graph with that many nodes.
#[unsafe(no_mangle)]
pub extern "C" fn wick_read_sites(text: &[u8], nodes: usize, sites: &mut [u16]) -> u64
    ensures { SitesCalled base text.now nodes sites.old sites.new result }
{
    read_code(readers::read_sites(text, nodes, sites))
}

// The k network-nearest sites from the query node, with lengths and routes.
#[unsafe(no_mangle)]
#[tactic(auto, using(meaning::proofs::Boundary::search_fits))]
pub extern "C" fn wick_search(
    tails: &[u16],
    heads: &[u16],
    weights: &[u32],
    xs: &[i32],
    ys: &[i32],
    sites: &[u16],
    n: usize,
    m: usize,
    s: usize,
    query: usize,
    k: usize,
    work: &mut [u32],
    listed: &mut [u16],
    lengths: &mut [u32],
    ends: &mut [u16],
    routes: &mut [u16],
) -> u64
    ensures { SearchCalled base
        (tables tails.now heads.now weights.now xs.now ys.now sites.now n m s) query k
        (rooms work.old listed.old lengths.old ends.old routes.old)
        (rooms work.new listed.new lengths.new ends.new routes.new) result }
{
    // The C interface lends table by table, so each of the two calls puts them together by itself.
    let lent = Tables {
        tails,
        heads,
        weights,
        xs,
        ys,
        sites,
        n,
        m,
        s,
    };
    answer_code(search::search(&lent, query, k, work, listed, lengths, ends, routes))
}

// The panel call: the search with the panel's own k.
#[unsafe(no_mangle)]
#[tactic(auto, using(meaning::proofs::Boundary::search_fits))]
pub extern "C" fn wick_panel(
    tails: &[u16],
    heads: &[u16],
    weights: &[u32],
    xs: &[i32],
    ys: &[i32],
    sites: &[u16],
    n: usize,
    m: usize,
    s: usize,
    query: usize,
    work: &mut [u32],
    listed: &mut [u16],
    lengths: &mut [u32],
    ends: &mut [u16],
    routes: &mut [u16],
) -> u64
    ensures { PanelCalled base
        (tables tails.now heads.now weights.now xs.now ys.now sites.now n m s) query
        (rooms work.old listed.old lengths.old ends.old routes.old)
        (rooms work.new listed.new lengths.new ends.new routes.new) result }
{
    let lent = Tables {
        tails,
        heads,
        weights,
        xs,
        ys,
        sites,
        n,
        m,
        s,
    };
    answer_code(search::panel(&lent, query, work, listed, lengths, ends, routes))
}

// Where the route of a rank stands in the lent buffer, and how many entries it has: a stretch can't
// be returned to C. It stops at its own end.
#[unsafe(no_mangle)]
#[tactic(auto, using(meaning::proofs::Boundary::span_stops), unfolding(meaning::specs::Search::stretch))]
pub extern "C" fn wick_route(routes: &[u16], ends: &[u16], rank: usize) -> u64
    ensures { result ≡ stretch_code routes.now ends.now rank }
{
    let stretch = search::route(routes, ends, rank);
    let size = stretch.len();
    if size == 0 {
        return 0;
    }
    let end = usize::from(ends[rank - 1]);
    packed(0, end - size, size)
}
