// The list program: reads map.gr, map.co, sites.ss and ask.ss in the folder that it is run in, and
// prints the list of each query. With an argument it tells a refusal in words too.
#![tactic(auto)]

ghost use Rattle.std.specs.Prelude.{◌≤◌, length};

use pack::TEXT_ROOM;
use std::env::FillError;
use std::rt::{Env, Files};
use std::{fs, io};

// Whether the file has ended where the reading stopped. Reading again tells the end from a fault.
fn has_ended(file: &mut impl io::Read) -> bool {
    let mut more = [0u8; 1];
    matches!(file.read(&mut more), Ok(0))
}

// The file's bytes, as many as fit.
// A file that can't be opened or read counts as an empty text.
fn load<'t>(rt: &impl Files, name: &str, text: &'t mut [u8]) -> &'t [u8]
    ensures { length result.now ≤ length text.old }
{
    let Ok(mut file) = fs::open(rt, name) else {
        return &[];
    };
    let got = pack::read_full(&mut file, text);
    let whole = got == text.len() || has_ended(&mut file);
    if whole { &text[..got] } else { &[] }
}

// Whether the program has an argument behind its name. What it says doesn't count.
fn has_argument(rt: &impl Env) -> bool {
    let mut start = [0u8; 1];
    !matches!(rt.arg(1, &mut start), Err(FillError::NotPresent))
}

fn main(rt: HostRuntime) -> io::Result<()> {
    let mut graph = [0u8; TEXT_ROOM];
    let mut points = [0u8; TEXT_ROOM];
    let mut sites = [0u8; TEXT_ROOM];
    let mut ask = [0u8; TEXT_ROOM];
    pack::print(
        &rt,
        load(&rt, "map.gr", &mut graph),
        load(&rt, "map.co", &mut points),
        load(&rt, "sites.ss", &mut sites),
        load(&rt, "ask.ss", &mut ask),
        has_argument(&rt),
    )
}
