// Runs the readers on the cases of its standard input, and prints what each answers and a digest of
// each table that it was lent.
// A write that fails ends the program with that error.
#![tactic(auto)]

use meaning::{ARCS_MOST, Counts, NODES_MOST, Refusal, SITES_MOST};
use std::io::{self, Read};

// Room for a case's text and the end of its line.
const ROOM: usize = 65600;

// A number of a case's first line.
fn size(field: &[u8]) -> usize {
    text::number(field).unwrap_or(0)
}

fn tell(rt: &impl Print, answer: Result<Counts, Refusal>) -> io::Result<()> {
    match answer {
        Ok(Counts { nodes, rows }) => print!(rt; "= {nodes} {rows}"),
        Err(refusal) => print!(rt; "x {refusal}"),
    }
}

// A digest of what came before and one value more, by the prime 1000003. `asked` has the same line:
// the two are programs, and a crate that both use would be longer than the line.
fn mixed(sum: u64, value: u64) -> u64 {
    (sum % 1000003 * 31 + value % 1000003) % 1000003
}

// A coordinate's size, and more where it lies below 0.
fn lifted(z: i32) -> u64 {
    let size = u64::from(z.unsigned_abs());
    if z < 0 { size + 500000000 } else { size }
}

fn digest<T: Copy, F: Fn(T) -> u64>(rt: &impl Print, table: &[T], value: F) -> io::Result<()>
    requires { F.IsAlwaysCallable value }
{
    let sum = table.iter().fold(0, |sum, &x| mixed(sum, value(x)));
    print!(rt; " {sum}")
}

fn graph(rt: &impl Print, text: &[u8], room: usize, last: usize) -> io::Result<()> {
    let mut tails = [7u16; ARCS_MOST];
    let mut heads = [7u16; ARCS_MOST];
    let mut weights = [7u32; ARCS_MOST];
    let tails = &mut tails[..room.min(ARCS_MOST)];
    let heads = &mut heads[..room.min(ARCS_MOST)];
    let weights = &mut weights[..last.min(ARCS_MOST)];
    tell(rt, readers::read_graph(text, tails, heads, weights))?;
    digest(rt, tails, u64::from)?;
    digest(rt, heads, u64::from)?;
    digest(rt, weights, u64::from)
}

fn coordinates(rt: &impl Print, text: &[u8], nodes: usize, room: usize) -> io::Result<()> {
    let mut xs = [7i32; NODES_MOST];
    let mut ys = [7i32; NODES_MOST];
    let xs = &mut xs[..room.min(NODES_MOST)];
    let ys = &mut ys[..room.min(NODES_MOST)];
    tell(rt, readers::read_coordinates(text, nodes, xs, ys))?;
    digest(rt, xs, lifted)?;
    digest(rt, ys, lifted)
}

fn sites(rt: &impl Print, text: &[u8], nodes: usize, room: usize) -> io::Result<()> {
    let mut sites = [7u16; SITES_MOST];
    let sites = &mut sites[..room.min(SITES_MOST)];
    tell(rt, readers::read_sites(text, nodes, sites))?;
    digest(rt, sites, u64::from)
}

// One case, by way of the buffer; false where the input has ended.
// A read that fails ends the input. `asked` has its own, for a first line of another form.
fn next_case(rt: &impl Print, input: &mut impl Read, buffer: &mut [u8; ROOM]) -> io::Result<bool> {
    let mut first = [0u8; 20];
    if input.read_exact(&mut first).is_err() {
        return Ok(false);
    }
    let nodes = size(&first[2..7]);
    let room = size(&first[8..13]);
    let len = size(&first[14..19]).min(ROOM - 1);
    // A text that ends early stands in front of what the buffer held before.
    let _ = input.read_exact(&mut buffer[..len + 1]);
    let text = &buffer[..len];
    match first[0] {
        b'g' => graph(rt, text, room, nodes)?,
        b'c' => coordinates(rt, text, nodes, room)?,
        _ => sites(rt, text, nodes, room)?,
    }
    println!(rt)?;
    Ok(true)
}

// As in `asked`, which is a program of its own.
fn main(rt: HostRuntime) -> io::Result<()> {
    let mut input = rt.stdin();
    let mut buffer = [0u8; ROOM];
    // More rounds than any input has cases; the loop ends where the input does.
    for _ in 0..5000 {
        if !next_case(&rt, &mut input, &mut buffer)? {
            break;
        }
    }
    Ok(())
}
