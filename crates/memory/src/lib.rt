// The work memory of a search: what stands where (specs/Memory, specs/Tree), the open node that
// goes next, and the estimate of a node.
//
// A 0 in it means "not seen", "not open" or "none" and no entry is an Option, since C lends it as
// numbers, and its first 4N entries are 0 when a search is over.
//
// A node's number is below the n of its region, as the clauses say: a type for such a number would
// have to carry the region.
//
// The memory stays a lent slice, which each function takes beside n. A struct around it proves, but
// holds a `&mut`: each function that writes would have to say that the struct keeps that slice, by
// its ghost name, and its n, in place of the one fact that four quarters fit.
#![tactic(auto)]

ghost use Rattle.std.specs.Prelude.{◌≡◌, ◌+◌, ◌-◌, ◌*◌, ◌%◌, ◌≤◌, ◌<◌, eqb};
ghost use Rattle.std.specs.Prelude.{length, get_or, replicate};
ghost use Rattle.meaning.specs.Search.{over};
ghost use Rattle.memory.specs.Memory.{is_taken, key_at, place_of, SiteTold};
ghost use Rattle.memory.specs.Tree.{keys};

pub use estimate::{Aims, aim};
pub use region::Region;
use straight::{Line, Road};
pub use tree::Winners;

mod estimate;
mod region;
mod tree;

// The four quarters are 0, and what follows them stays.
pub fn clear(work: &mut [u32], n: usize)
    requires { 4 * n ≤ length work.old }
    ensures { work.new ≡ over (replicate (4 * n) 0) work.old }
{
    let quarters = 4 * n;
    work[..quarters].fill(0);
}

// Whether node v has been taken.
pub fn is_taken(work: &[u32], n: usize, v: usize) -> bool
    requires { (4 * n ≤ length work.now) × (v < n) }
    ensures { result ≡ is_taken n work.now v }
{
    work[v] != 0 && work[n + v] == 0
}

// The best length so far of node v; 0 for one that has not been seen.
pub fn road_at(work: &[u32], n: usize, v: usize) -> Road
    requires { (4 * n ≤ length work.now) × (v < n) }
    ensures { result.0 ≡ get_or work.now v 0 - 1 }
{
    Road(work[v].saturating_sub(1))
}

// Whether the open node v is a site.
pub fn is_rival_site(work: &[u32], n: usize, v: usize) -> bool
    requires { (4 * n ≤ length work.now) × (v < n) }
    ensures value { result ≡ eqb (get_or work.now (n + v) 0 % 2) 0 }
    ensures site_told { SiteTold n work.now v result }
{
    work[n + v] % 2 == 0
}

// The node before v on the route.
pub fn before(work: &[u32], n: usize, v: usize) -> Option<usize>
    requires { (4 * n ≤ length work.now) × (v < n) }
    ensures { result ≡ place_of (get_or work.now (n + n + v) 0) }
{
    (work[n + n + v] as usize).checked_sub(1)
}

// What open nodes are compared by.
fn key(work: &[u32], n: usize, v: usize) -> u64
    requires v_in_bounds { (4 * n ≤ length work.now) × (v < n) }
    requires is_open { 0 < get_or work.now (n + v) 0 }
    ensures { (result ≡ key_at n work.now v) × (result < keys) }
{
    let rival = work[n + v] - 1;
    let site = rival % 2;
    straight::total(road_at(work, n, v), Line(rival / 2)) * 2 + u64::from(site)
}
