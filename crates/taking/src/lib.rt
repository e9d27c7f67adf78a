// A step of the taking rule, in the work memory: the search's start, a node chosen, and a node
// taken.
//
// The memory stays a lent slice, as memory's own functions take it.
#![tactic(auto)]

ghost use Rattle.std.specs.Prelude.{◌≡◌, false, ℕ, ◌+◌, ◌*◌, ◌%◌, ◌≤◌, ◌<◌, eqb};
ghost use Rattle.std.specs.Prelude.{length, get_or, drop, replicate};
ghost use Rattle.meaning.specs.Limits.{base};
ghost use Rattle.meaning.specs.Region.{region_of};
ghost use Rattle.meaning.specs.Taking.{start as start_of};
ghost use Rattle.memory.specs.Memory.{SiteTold, is_taken};
ghost use Rattle.memory.specs.Aim.{SameTaken};
ghost use Rattle.memory.specs.Tree.{Tree, Bare, SameKeys};
ghost use Rattle.taking.specs.Ways.{Bounded};
ghost use Rattle.taking.specs.Steps.{Guided, Live, Arrived, Reached, Relaxed, SameLens, Shut};
ghost use Rattle.taking.specs.Steps.{Closed, OpenSite, Took, Looked, Aiming, Stays, Chosen};

use meaning::SITES_MOST;
use memory::{Aims, Region, Winners};
pub use network::{Chains, Network};

mod network;

// What leads to the next node, beside the work memory: the sites that are left, and the tree of the
// open nodes.
#[derive(Drop)]
pub struct Guide {
    pub aims: Aims,
    pub tree: Winners,
}

impl Guide {
    // No node is open.
    pub fn new() -> Guide
        ensures { (n : ℕ) → n ≤ base.nodes → Bare n result.tree }
    {
        Guide {
            aims: Aims {
                xs: [0; SITES_MOST],
                ys: [0; SITES_MOST],
            },
            tree: Winners::new(),
        }
    }
}

// The search starts with the query node open at length 0, and all sites are aimed at.
pub fn start(r: &Region, work: &mut [u32], guide: &mut Guide, q: usize)
    requires q_in_bounds { (4 * r.now.n ≤ length work.old) × (q < r.now.n) }
    requires bare { Bare r.now.n guide.old.tree }
    ensures guided { Guided r.now work.new guide.new }
    ensures live { Live r.now (start_of (region_of r.now) q) (replicate r.now.n 0)
        (drop (4 * r.now.n) work.old) work.new }
{
    let n = r.nodes();
    memory::clear(work, n);
    guide.aims.gather(r);
    let rival = memory::aim(r, work, &guide.aims, q);
    work[q] = 1;
    work[n + q] = rival;
    guide.tree.replay(work, n, q);
}

// Of two nodes that give h its length the lower one comes before it.
fn lower(r: &Region, work: &mut [u32], u: usize, h: usize)
    requires room { 4 * r.now.n ≤ length work.old }
    requires tail_is_node { u < r.now.n }
    requires head_is_node { h < r.now.n }
    ensures same_keys { SameKeys r.now.n work.old work.new }
    ensures arrived { Arrived r.now.n u h (get_or work.old h 0) work.old work.new }
{
    let n = r.nodes();
    let number = (u + 1) as u32;
    let lower = number < work[n + n + h];
    if lower {
        work[n + n + h] = number;
    }
}

// An open node has a shorter length by way of u, len - 1.
fn shorten(r: &Region, work: &mut [u32], tree: &mut Winners, u: usize, h: usize, len: u32)
    requires room { 4 * r.now.n ≤ length work.old }
    requires tail_is_node { u < r.now.n }
    requires head_is_node { h < r.now.n }
    requires shorter { len < get_or work.old h 0 }
    requires tree { Tree r.now.n work.old tree.old }
    ensures tree_after { Tree r.now.n work.new tree.new }
    ensures same_taken { SameTaken r.now.n work.old work.new }
    ensures arrived { Arrived r.now.n u h len work.old work.new }
{
    let n = r.nodes();
    let is_open = work[n + h] != 0;
    if is_open {
        work[h] = len;
        work[n + n + h] = (u + 1) as u32;
        tree.replay(work, n, h);
    }
}

// An arc of u reaches node h at the length len - 1: h is opened, or shortened, or u comes before it
// as the lower of two.
fn reach(r: &Region, work: &mut [u32], guide: &mut Guide, u: usize, h: usize, len: u32)
    requires room { 4 * r.now.n ≤ length work.old }
    requires tail_is_node { u < r.now.n }
    requires head_is_node { h < r.now.n }
    requires guided { Guided r.now work.old guide.old }
    ensures guided_after { Guided r.now work.new guide.new }
    ensures aims_stay { guide.new.aims ≡ guide.old.aims }
    ensures reached { Reached r.now u h len work.old work.new }
{
    let n = r.nodes();
    let old = work[h];
    if old == 0 {
        let rival = memory::aim(r, work, &guide.aims, h);
        work[h] = len;
        work[n + h] = rival;
        work[n + n + h] = (u + 1) as u32;
        guide.tree.replay(work, n, h);
    } else if old == len {
        lower(r, work, u, h);
    } else if len < old {
        shorten(r, work, &mut guide.tree, u, h, len);
    }
}

// The heads of u's arcs are opened or shortened, in the order of the table: along u's chain, which
// only the network can follow.
fn relax(network: &Network, work: &mut [u32], guide: &mut Guide, u: usize)
    requires u_in_bounds { (4 * network.now.region.n ≤ length work.old)
        × (u < network.now.region.n) }
    requires bounded { Bounded network.now.region work.old }
    requires guided { Guided network.now.region work.old guide.old }
    ensures guided_after { Guided network.now.region work.new guide.new }
    ensures aims_stay { guide.new.aims ≡ guide.old.aims }
    ensures relaxed { Relaxed network.now.region u network.now.region.m work.old work.new }
{
    let r = &network.region;
    let from = work[u];
    let mut arc = network.first(u);
    while let Some(i) = arc {
        let len = from + network.weight(i);
        reach(r, work, guide, u, network.head(i), len);
        arc = network.next(i);
    }
}

// The open node u is marked as taken. The answer is whether it is a site.
fn close(r: &Region, work: &mut [u32], tree: &mut Winners, u: usize) -> bool
    requires u_in_bounds { (4 * r.now.n ≤ length work.old) × (u < r.now.n) }
    requires seen { 0 < get_or work.old u 0 }
    requires tree { Tree r.now.n work.old tree.old }
    ensures value { result ≡ eqb (get_or work.old (r.now.n + u) 0 % 2) 0 }
    ensures site_told { SiteTold r.now.n work.old u result }
    ensures tree_after { Tree r.now.n work.new tree.new }
    ensures same_lens { SameLens r.now.n work.old work.new }
    ensures shut { Shut r.now.n u work.old work.new }
    ensures closed { Closed r.now.n u work.old work.new }
{
    let n = r.nodes();
    let site = memory::is_rival_site(work, n, u);
    work[n + u] = 0;
    tree.replay(work, n, u);
    site
}

// The open node u is taken; a site is aimed at no longer. The answer is whether it is one.
pub fn take(network: &Network, work: &mut [u32], guide: &mut Guide, u: usize) -> bool
    requires u_in_bounds { (4 * network.now.region.n ≤ length work.old)
        × (u < network.now.region.n) }
    requires bounded { Bounded network.now.region work.old }
    requires open_site { OpenSite network.now.region u work.old }
    requires guided { Guided network.now.region work.old guide.old }
    ensures site_told { SiteTold network.now.region.n work.old u result }
    ensures guided_after { Guided network.now.region work.new guide.new }
    ensures ys_stay { guide.new.aims.ys ≡ guide.old.aims.ys }
    ensures took { Took network.now.region u work.old work.new }
{
    let r = &network.region;
    let site = close(r, work, &mut guide.tree, u);
    if site {
        guide.aims.forget(r, u);
    }
    relax(network, work, guide, u);
    site
}

// Whether the open node v has its present estimate. One that has risen is stored, and v is played
// again.
fn fresh(r: &Region, work: &mut [u32], guide: &mut Guide, v: usize) -> bool
    requires v_in_bounds { (4 * r.now.n ≤ length work.old) × (v < r.now.n) }
    requires untaken { is_taken r.now.n work.old v ≡ false }
    requires guided { Guided r.now work.old guide.old }
    ensures guided_after { Guided r.now work.new guide.new }
    ensures aims_stay { guide.new.aims ≡ guide.old.aims }
    ensures same_taken { SameTaken r.now.n work.old work.new }
    ensures looked { Looked r.now v work.old work.new result }
{
    let n = r.nodes();
    let rival = memory::aim(r, work, &guide.aims, v);
    if work[n + v] == rival {
        return true;
    }
    work[n + v] = rival;
    guide.tree.replay(work, n, v);
    false
}

// The open node to be taken next. Taking sites only raises estimates, so one made earlier is at
// most the present one: only of the node at the tree's top it is made anew, and only where a site
// has been taken (missed). Tried again until the node at the top has its present estimate.
pub fn choose(r: &Region, work: &mut [u32], guide: &mut Guide, missed: bool) -> Option<usize>
    requires guided { Guided r.now work.old guide.old }
    requires aiming { Aiming r.now work.old }
    ensures guided_after { Guided r.now work.new guide.new }
    ensures aims_stay { guide.new.aims ≡ guide.old.aims }
    ensures same_taken { SameTaken r.now.n work.old work.new }
    ensures stays { Stays r.now work.old work.new }
    ensures chosen { Chosen r.now missed work.old result }
{
    let n = r.nodes();
    loop {
        let v = guide.tree.first_open(n)?;
        if !missed || fresh(r, work, guide, v) {
            return Some(v);
        }
    }
}
