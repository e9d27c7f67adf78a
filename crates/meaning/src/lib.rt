// The words in which the library speaks: its limits, what a line of a text says, and its
// answers. What each of them means stands in specs/.
#![tactic(auto)]

ghost use Rattle.std.specs.Prelude.{◌≡◌};
ghost use Rattle.meaning.specs.Limits.{base as base_limits, fault_number, refusal};

use std::fmt;

// The limits of the paper, in one record: text in bytes, weight and coordinate as the largest
// sizes permitted.
#[derive(Clone, Copy)]
pub struct Limits {
    pub text: usize,
    pub nodes: usize,
    pub arcs: usize,
    pub sites: usize,
    pub weight: usize,
    pub coordinate: usize,
    pub k: usize,
}

// The largest size of a text, N, M and S, by which rooms are measured that any of them fits.
pub const TEXT_MOST: usize = 65536;

pub const NODES_MOST: usize = 1024;

pub const ARCS_MOST: usize = 4096;

pub const SITES_MOST: usize = 128;

// The limits in the code, equal to the definition's.
pub fn base() -> Limits
    ensures { result ≡ base_limits }
{
    Limits {
        text: TEXT_MOST,
        nodes: NODES_MOST,
        arcs: ARCS_MOST,
        sites: SITES_MOST,
        weight: 1000000,
        coordinate: 200000000,
        k: 32,
    }
}

// The refusals, in the order of the paper's numbers.
#[derive(Clone, Copy, PartialEq, Eq, Debug)]
pub enum Fault {
    TextTooLong = 1,
    NotPermitted,
    ProblemMisplaced,
    CountOutside,
    NodeOutside,
    ValueOutside,
    DataMiscounted,
    GivenTwice,
    TableShort,
    ArcShort,
    QueryOutside,
    KOutside,
    RoomShort,
}

// The paper's number.
impl From<Fault> for usize {
    ghost from_gives = { λ fault number. number ≡ fault_number fault };

    fn from(fault: Fault) -> usize {
        fault as usize
    }
}

impl fmt::Display for Fault {
    fn fmt<W: fmt::Write>(&self, f: &mut fmt::Formatter<W>) -> fmt::Result {
        f.write_str(match self {
            Fault::TextTooLong => "the text is over 65,536 bytes",
            Fault::NotPermitted => "a line is not of a permitted form",
            Fault::ProblemMisplaced => {
                "data before the problem line, a second problem line, or none"
            }
            Fault::CountOutside => "a count is out of its limits, or N differs from the graph's",
            Fault::NodeOutside => "a node number is outside 1 to N",
            Fault::ValueOutside => "a weight or a coordinate is out of range",
            Fault::DataMiscounted => "one data line too many, or too few at the end",
            Fault::GivenTwice => "a node is given twice",
            Fault::TableShort => "a table is shorter than its count",
            Fault::ArcShort => "an arc is shorter than the straight line between its ends",
            Fault::QueryOutside => "the query node is outside 1 to N",
            Fault::KOutside => "k is outside 1 to 32",
            Fault::RoomShort => "a work or answer buffer is too short",
        })
    }
}

// A refusal, and its place: a line or an entry, counted from 1, or 0 for the whole.
#[derive(Clone, Copy, PartialEq, Eq, Debug)]
pub struct Refusal {
    pub fault: Fault,
    pub place: usize,
}

impl Fault {
    pub fn at(self, place: usize) -> Refusal
        ensures { result ≡ refusal self place }
    {
        Refusal { fault: self, place }
    }
}

// The panel call's k.
pub const PANEL_K: usize = 4;

// Which of the three texts.
#[derive(Clone, Copy)]
pub enum Kind {
    Graph,
    Coordinates,
    Sites,
}

// The paper's number and the place, as the programs print them.
impl fmt::Display for Refusal {
    fn fmt<W: fmt::Write>(&self, f: &mut fmt::Formatter<W>) -> fmt::Result {
        let number = usize::from(self.fault);
        let place = self.place;
        write!(f, "{number} {place}")
    }
}

// The counts of a problem line: the nodes, and the data lines to come. An accepted reading
// answers with them.
#[derive(Clone, Copy, PartialEq, Eq, Debug)]
pub struct Counts {
    pub nodes: usize,
    pub rows: usize,
}

// What a data line says: a U V W, v ID X Y, s ID.
#[derive(Clone, Copy)]
pub enum Entry {
    Arc {
        tail: usize,
        head: usize,
        weight: usize,
    },
    Point {
        node: usize,
        x: i32,
        y: i32,
    },
    Site {
        node: usize,
    },
}

// What a line says.
#[derive(Clone, Copy)]
pub enum Line {
    Nothing,
    Problem(Counts),
    Data(Entry),
    Malformed,
}

// The lent tables of a region, with the counts N, M and S: a column may be lent longer than its
// count.
#[derive(Clone, Copy)]
pub struct Tables<'a> {
    pub tails: &'a [u16],
    pub heads: &'a [u16],
    pub weights: &'a [u32],
    pub xs: &'a [i32],
    pub ys: &'a [i32],
    pub sites: &'a [u16],
    pub n: usize,
    pub m: usize,
    pub s: usize,
}

// What a text is held to: the limits, which text it is, the N handed in (a graph text is handed
// none) and the room for its data.
#[derive(Clone, Copy)]
pub struct Rules {
    pub limits: Limits,
    pub kind: Kind,
    pub given: usize,
    pub room: usize,
}

// The counts of an accepted search: how many sites are listed, and how many nodes were taken.
#[derive(Clone, Copy, PartialEq, Eq, Debug)]
pub struct Tally {
    pub sites: usize,
    pub taken: usize,
}
