// The open nodes in a winner tree (specs/Tree), beside the work memory: the one that goes next
// stands at its top, and a node whose entries were written is played again on its way there.
ghost use Rattle.std.specs.Prelude.{◌≡◌, ℕ, ◌+◌, ◌*◌, ◌≤◌, ◌<◌, length};
ghost use Rattle.meaning.specs.Limits.{base};
ghost use Rattle.memory.specs.Tree.{Tree, But, Bare, Ranked, Topped};

use crate::key;
use meaning::NODES_MOST;
use std::marker::Model;

// No key is as large.
const KEYS: u64 = 1 << 34;

// More than any node's number, by which a rank tells equal keys apart.
const NUMBERS: u64 = 1 << 16;

// What a node stands in the tree with: the sooner it goes, the more. A 0 means "not open", so that
// the larger of two ranks is always the sooner; an Option would double the tree.
fn rank(work: &[u32], n: usize, v: usize) -> u64
    requires { (4 * n ≤ length work.now) × ((v < n) × (n ≤ base.nodes)) }
    ensures { Ranked n work.now v result }
{
    if work[n + v] == 0 {
        return 0;
    }
    (KEYS - key(work, n, v)) * NUMBERS + (NUMBERS - 1 - v as u64)
}

// The ranks of the open nodes, each at its leaf, and above them the larger of each two.
#[derive(Drop)]
pub struct Winners {
    ranks: [u64; 2 * NODES_MOST],
}

impl Model for Winners {
    ghost use Rattle.std.specs.Prelude.{List, ℕ};

    ghost Value = { List ℕ };

    ghost view = { λ w. w.ranks };
}

impl Winners {
    // No node is open.
    pub fn new() -> Winners
        ensures { (n : ℕ) → n ≤ base.nodes → Bare n result }
    {
        Winners {
            ranks: [0; 2 * NODES_MOST],
        }
    }

    // The open node with the least key; among equals the lower number. Of how many nodes there are
    // only the contract speaks.
    pub fn first_open(&self, n: usize) -> Option<usize>
        requires { 1 ≤ n }
        ensures { Topped n self.now result }
    {
        let top = self.ranks[1];
        if top == 0 {
            return None;
        }
        Some((NUMBERS - 1 - top % NUMBERS) as usize)
    }

    // The leaf of node v, whose entries were written, and the places above it are settled anew, as
    // far up as anything changes. The place above i is its half.
    pub fn replay(&mut self, work: &[u32], n: usize, v: usize)
        requires v_in_bounds { (4 * n ≤ length work.now) × (v < n) }
        requires but_for_v { But n work.now v self.old }
        ensures { Tree n work.now self.new }
    {
        let ranks = &mut self.ranks;
        let mut i = n + v;
        ranks[i] = rank(work, n, v);
        while 1 < i {
            i /= 2;
            let best = ranks[i + i].max(ranks[i + i + 1]);
            if ranks[i] == best {
                return;
            }
            ranks[i] = best;
        }
    }
}
