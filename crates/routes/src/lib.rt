// The routes: back from each listed site by the nodes before, and written from query to site.
// The memory and the rooms are the lent slices, as the search has them.
#![tactic(auto)]

ghost use Rattle.std.specs.Prelude.{◌≡◌, map, suc, ◌+◌, ◌*◌, ◌≤◌, ◌<◌, length, take};
ghost use Rattle.std.proofs.lemmas.List.Edits.{sets};
ghost use Rattle.meaning.specs.Search.{over, back_to_back, ends_after};
ghost use Rattle.routes.specs.Trace.{way_in, lines_in, Linked, Leads};

// The number of nodes on the route to v.
fn size(work: &[u32], n: usize, v: usize) -> usize
    requires linked { Linked n work.now }
    requires v_is_node { v < n }
    ensures { result ≡ length (way_in n work.now v) }
{
    let mut here = v;
    for count in 1..n {
        let Some(u) = memory::before(work, n, here) else {
            return count;
        };
        here = u;
    }
    n
}

// The route to v is written from entry `at` on, its last node first; the answer is its end. Where
// no node comes before, all has been written.
fn write_route(work: &[u32], n: usize, v: usize, routes: &mut [u16], at: usize) -> usize
    requires linked { Linked n work.now }
    requires v_is_node { v < n }
    requires room { at + n ≤ length routes.old }
    ensures value { result ≡ at + length (way_in n work.now v) }
    ensures routes_after { routes.new ≡ sets routes.old at (map suc (way_in n work.now v)) }
{
    let end = at + size(work, n, v);
    let mut here = v;
    for place in (at..end).rev() {
        routes[place] = (here + 1) as u16;
        here = memory::before(work, n, here).unwrap_or(here);
    }
    end
}

// The routes of the first `count` listed sites, back to back, and their ends.
pub fn write_routes(
    work: &[u32],
    n: usize,
    listed: &[u16],
    count: usize,
    ends: &mut [u16],
    routes: &mut [u16],
)
    requires leads { Leads n work.now listed.now count }
    requires count_in_bounds { (count ≤ length ends.old) × (count * n ≤ length routes.old) }
    ensures ends_after { ends.new
        ≡ over (ends_after 0 (lines_in n work.now (take count listed.now))) ends.old }
    ensures routes_after { routes.new
        ≡ over (back_to_back (lines_in n work.now (take count listed.now))) routes.old }
{
    let mut at = 0;
    for i in 0..count {
        let number = usize::from(listed[i]);
        let end = write_route(work, n, number - 1, routes, at);
        ends[i] = end as u16;
        at = end;
    }
}
