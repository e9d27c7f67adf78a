// The region of a search with the arcs of each node in a chain, in the order of the table.
ghost use Rattle.std.specs.Prelude.{◌≡◌, ℕ, ◌<◌};
ghost use Rattle.meaning.specs.Region.{region_of};
ghost use Rattle.memory.specs.Memory.{place_of};
ghost use Rattle.memory.specs.Region.{Sound};
ghost use Rattle.taking.specs.Ways.{Unlinked, Linked, seek_first, seek_next};

use meaning::{ARCS_MOST, NODES_MOST};
use memory::Region;

// For each node one more than its first arc, and for each arc one more than the next with the same
// tail; 0 where there is none. Numbers of entries, since there is no heap, and 0 for none, since an
// Option<u16> takes twice the room.
#[derive(Drop)]
pub struct Chains {
    starts: [u16; NODES_MOST],
    nexts: [u16; ARCS_MOST],
}

impl Chains {
    // No arc is linked.
    pub fn new() -> Chains
        ensures { (n : ℕ) → Unlinked n result.starts }
    {
        Chains {
            starts: [0; NODES_MOST],
            nexts: [0; ARCS_MOST],
        }
    }
}

// A region whose arcs are linked. The chains are lent, for a small search is slower with a copy of
// them. What the checks have shown is said here again, for those who read the chains alone.
#[derive(Drop)]
pub struct Network<'a> {
    pub region: Region<'a>,
    chains: &'a Chains,
    ghost sound: { Sound region },
    ghost linked: { Linked region chains.now.starts chains.now.nexts },
}

impl<'a> Network<'a> {
    // The last arc is linked first.
    pub fn link(region: Region<'a>, chains: &'a mut Chains) -> Self
        requires { Unlinked region.n chains.old.starts }
        ensures { result.region ≡ region.entry }
    {
        let t = region.tables;
        for i in (0..t.m).rev() {
            let node = usize::from(t.tails[i]) - 1;
            chains.nexts[i] = chains.starts[node];
            chains.starts[node] = (i + 1) as u16;
        }
        Network { region, chains }
    }

    // The first arc that leaves node u.
    pub(crate) fn first(&self, u: usize) -> Option<usize>
        requires { u < self.now.region.n }
        ensures { result ≡ place_of (seek_first self.now.region u) }
    {
        usize::from(self.chains.starts[u]).checked_sub(1)
    }

    // The arc after arc i that leaves the same node.
    pub(crate) fn next(&self, i: usize) -> Option<usize>
        requires { i < self.now.region.m }
        ensures { result ≡ place_of (seek_next self.now.region i) }
    {
        usize::from(self.chains.nexts[i]).checked_sub(1)
    }

    // The node that arc i leads to.
    pub(crate) fn head(&self, i: usize) -> usize
        requires { i < self.now.region.m }
        ensures value { result ≡ (region_of self.now.region).head i }
        ensures below { result < self.now.region.n }
    {
        usize::from(self.region.tables.heads[i]) - 1
    }

    // How much arc i weighs.
    pub(crate) fn weight(&self, i: usize) -> u32
        requires { i < self.now.region.m }
        ensures { result ≡ (region_of self.now.region).weight i }
    {
        self.region.tables.weights[i]
    }
}
