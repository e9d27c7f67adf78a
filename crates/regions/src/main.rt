// Runs the list over the regions of its standard input: for each a line with the sizes of its four
// texts, then the texts. A blank line follows each list.
// A read that fails ends the input. A write that fails ends the program with that error.
#![tactic(auto)]

ghost use Rattle.std.specs.Prelude.{◌≤◌, length};

use pack::TEXT_ROOM;
use std::io;

// The next text, of the size that the field tells, or what the buffer holds of it.
fn fetch<'t>(input: &mut impl io::Read, field: &[u8], text: &'t mut [u8]) -> &'t [u8]
    ensures { length result.now ≤ length text.old }
{
    let size = text::number(field).unwrap_or(0);
    let room = text.len();
    let got = pack::read_full(input, &mut text[..size.min(room)]);
    // A text that ends early stands in front of what the buffer held before.
    if room < size {
        &text[..got]
    } else {
        &text[..size]
    }
}

// One region; false where the input has ended.
fn region(rt: &(impl Print + Eprint), input: &mut impl io::Read) -> io::Result<bool> {
    let mut sizes = [0u8; 24];
    let mut graph = [0u8; TEXT_ROOM];
    let mut points = [0u8; TEXT_ROOM];
    let mut sites = [0u8; TEXT_ROOM];
    let mut ask = [0u8; TEXT_ROOM];
    if pack::read_full(input, &mut sizes) < sizes.len() {
        return Ok(false);
    }
    let graph = fetch(input, &sizes[0..5], &mut graph);
    let points = fetch(input, &sizes[6..11], &mut points);
    let sites = fetch(input, &sizes[12..17], &mut sites);
    let ask = fetch(input, &sizes[18..23], &mut ask);
    pack::print(rt, graph, points, sites, ask, false)?;
    println!(rt)?;
    Ok(true)
}

fn main(rt: HostRuntime) -> io::Result<()> {
    let mut input = rt.stdin();
    // More rounds than any input has regions; the loop ends where the input does.
    for _ in 0..1000 {
        if !region(&rt, &mut input)? {
            break;
        }
    }
    Ok(())
}
