// The search, the panel call and the stretch of a listed route.
//
// The five rooms stay five lent slices: a struct around them would hold a `&mut`, whose ghost name
// every clause would have to carry.
#![tactic(auto)]

ghost use Rattle.std.specs.Prelude.{◌≡◌, ◌-◌, ◌*◌, ◌≤◌, ◌<◌, length, get_or};
ghost use Rattle.meaning.specs.Limits.{base};
ghost use Rattle.meaning.specs.Region.{tables_of, rooms};
ghost use Rattle.meaning.specs.Search.{Searched, Panelled, stretch, begin_of, between};
ghost use Rattle.memory.specs.Tree.{Bare};
ghost use Rattle.taking.specs.Steps.{Guided, Aiming};
ghost use Rattle.search.specs.Run.{Passed, Picked, Put, Ran};

use meaning::{PANEL_K, Refusal, Tables, Tally};
use memory::Region;
use taking::{Chains, Guide, Network};

// The node to be taken next: none once k sites or all of them are listed, or where no node is open.
fn next(r: &Region, work: &mut [u32], guide: &mut Guide, k: usize, sites: usize) -> Option<usize>
    requires guided { Guided r.now work.old guide.old }
    requires aiming { sites < r.now.s → Aiming r.now work.old }
    ensures guided_after { Guided r.now work.new guide.new }
    ensures picked { Picked r.now k sites work.old work.new result }
{
    let all_listed = r.sites() <= sites;
    if k <= sites || all_listed {
        return None;
    }
    taking::choose(r, work, guide, 0 < sites)
}

// A taken site goes to the end of the list. The answer is how many are listed now.
fn list(
    r: &Region,
    work: &[u32],
    v: usize,
    site: bool,
    listed: &mut [u16],
    lengths: &mut [u32],
    count: usize,
) -> usize
    requires v_in_bounds { (4 * r.now.n ≤ length work.now) × (v < r.now.n) }
    requires count_in_bounds { (count < length listed.old) × (count < length lengths.old) }
    ensures { Put site v (get_or work.now v 0 - 1) count listed.old lengths.old
        listed.new lengths.new result }
{
    if site {
        lengths[count] = memory::road_at(work, r.nodes(), v).0;
        listed[count] = (v + 1) as u16;
        count + 1
    } else {
        count
    }
}

// The taking rule, from its start to its stop. The list is filled as sites are taken.
fn run(
    network: &Network,
    guide: &mut Guide,
    query: usize,
    k: usize,
    work: &mut [u32],
    listed: &mut [u16],
    lengths: &mut [u32],
) -> Tally
    requires passed { Passed network.now.region query k }
    requires bare { Bare network.now.region.n guide.old.tree }
    requires room { (4 * network.now.region.n ≤ length work.old)
        × ((k ≤ length listed.old) × (k ≤ length lengths.old)) }
    ensures { Ran network.now.region query k network.now.region.n
        work.old listed.old lengths.old work.new listed.new lengths.new
        result.sites result.taken }
{
    let r = &network.region;
    taking::start(r, work, guide, query - 1);
    let mut sites = 0;
    let mut taken = 0;
    // A step a node that is taken; how many are is known only when no node is next.
    while let Some(u) = next(r, work, guide, k, sites) {
        let site = taking::take(network, work, guide, u);
        sites = list(r, work, u, site, listed, lengths, sites);
        taken += 1;
    }
    Tally { sites, taken }
}

// The k network-nearest sites from the query node, with lengths and routes.
pub fn search(
    t: &Tables,
    query: usize,
    k: usize,
    work: &mut [u32],
    listed: &mut [u16],
    lengths: &mut [u32],
    ends: &mut [u16],
    routes: &mut [u16],
) -> Result<Tally, Refusal>
    ensures { Searched base (tables_of t.now) query k
        (rooms work.old listed.old lengths.old ends.old routes.old)
        (rooms work.new listed.new lengths.new ends.new routes.new) result }
{
    inspect::inspect(t, query, k, work, listed, lengths, ends, routes)?;
    let mut chains = Chains::new();
    let mut guide = Guide::new();
    let network = Network::link(Region { tables: *t }, &mut chains);
    let tally = run(&network, &mut guide, query, k, work, listed, lengths);
    routes::write_routes(work, t.n, listed, tally.sites, ends, routes);
    memory::clear(work, t.n);
    Ok(tally)
}

// The panel call: the search with k = PANEL_K.
pub fn panel(
    t: &Tables,
    query: usize,
    work: &mut [u32],
    listed: &mut [u16],
    lengths: &mut [u32],
    ends: &mut [u16],
    routes: &mut [u16],
) -> Result<Tally, Refusal>
    ensures { Panelled base (tables_of t.now) query
        (rooms work.old listed.old lengths.old ends.old routes.old)
        (rooms work.new listed.new lengths.new ends.new routes.new) result }
{
    search(t, query, PANEL_K, work, listed, lengths, ends, routes)
}

// Entries a to e of the lent routes.
fn part<'a>(routes: &'a [u16], a: usize, e: usize) -> &'a [u16]
    ensures { result.now ≡ between routes.now a e }
{
    routes.get(a..e).unwrap_or(&[])
}

// Where the route of a rank begins: at the end of the one before.
fn begin(ends: &[u16], rank: usize) -> usize
    requires { rank ≤ length ends.now }
    ensures { result ≡ begin_of ends.now rank }
{
    if 1 < rank {
        usize::from(ends[rank - 2])
    } else {
        0
    }
}

// The route of a rank: the very stretch of the lent buffer where it was written.
#[tactic(auto, unfolding(meaning::specs::Search::stretch))]
pub fn route<'a>(routes: &'a [u16], ends: &[u16], rank: usize) -> &'a [u16]
    ensures { result.now ≡ stretch routes.now ends.now rank }
{
    if rank < 1 || ends.len() < rank {
        return &[];
    }
    part(routes, begin(ends, rank), usize::from(ends[rank - 1]))
}
