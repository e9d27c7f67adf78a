// A search's checks, in the paper's order.
#![tactic(auto)]

ghost use Rattle.std.specs.Prelude.{◌≡◌, ℕ, ◌≤◌, ◌<◌};
ghost use Rattle.meaning.specs.Limits.{base, Test};
ghost use Rattle.meaning.specs.Region.{tables_of, rooms};
ghost use Rattle.meaning.specs.Checks.{
  first_fault,
  counts_fit,
  tables_fit,
  rooms_fit,
  point_fault,
  arc_fault,
  site_fault,
  inspect as verdict_of,
};
ghost use Rattle.inspect.specs.Entries.{Long, AllPlaced, of_entries};
ghost use Rattle.inspect.specs.Sites.{IsNew, AllStand};

use meaning::{Fault, Refusal, Tables};
use reading::Marks;

fn counts_fit(t: &Tables) -> bool
    ensures { result ≡ counts_fit base (tables_of t.now) }
{
    let limits = meaning::base();
    reading::within(1, t.n, limits.nodes) && t.m <= limits.arcs && t.s <= limits.sites
}

fn tables_fit(t: &Tables) -> bool
    ensures { result ≡ tables_fit (tables_of t.now) }
{
    t.m <= t.tails.len()
        && t.m <= t.heads.len()
        && t.m <= t.weights.len()
        && t.n <= t.xs.len()
        && t.n <= t.ys.len()
        && t.s <= t.sites.len()
}

// The rooms come one by one, as they are lent; only their lengths are asked for.
fn rooms_fit(
    n: usize,
    k: usize,
    work: &[u32],
    listed: &[u16],
    lengths: &[u32],
    ends: &[u16],
    routes: &[u16],
) -> bool
    requires { (n ≤ base.nodes) × (k ≤ base.k) }
    ensures { result
        ≡ rooms_fit n k (rooms work.now listed.now lengths.now ends.now routes.now) }
{
    4 * n <= work.len()
        && k <= listed.len()
        && k <= lengths.len()
        && k <= ends.len()
        && k * n <= routes.len()
}

// The first faulty entry of n ends the check, and is the place.
fn first_fault<F: Fn(usize) -> Result<(), Fault>>(n: usize, test: F) -> Result<(), Refusal>
    requires { (i : ℕ) → i < n → F.pre test i }
    ensures { (says : ℕ → Test)
        → ((i : ℕ) → i < n → (r : _) → F.post test i r → r ≡ says i)
        → result ≡ first_fault says n }
{
    for i in 0..n {
        if let Err(fault) = test(i) {
            return Err(fault.at(i + 1));
        }
    }
    Ok(())
}

// Tables whose counts fit, and that are as long as those say.
#[derive(Clone, Copy)]
struct Entries<'a> {
    tables: Tables<'a>,
    ghost long: { Long (tables_of tables) },
}

impl Entries<'_> {
    // One point: X and Y in range.
    #[tactic(auto, using(std::proofs::lemmas::Int::ints), unfolding(meaning::specs::Checks::point_fault))]
    fn point_fault(&self, v: usize) -> Result<(), Fault>
        requires { v < self.now.tables.n }
        ensures { result ≡ point_fault base (tables_of self.now.tables) v }
    {
        let limits = meaning::base();
        let t = self.tables;
        if reading::is_coordinate(limits, t.xs[v]) && reading::is_coordinate(limits, t.ys[v]) {
            Ok(())
        } else {
            Err(Fault::ValueOutside)
        }
    }

    // One arc: its nodes and its weight as a reader has them, then its length.
    #[tactic(auto, unfolding(meaning::specs::Checks::arc_fault, meaning::specs::Limits::and_then))]
    fn arc_fault(&self, i: usize) -> Result<(), Fault>
        requires i_in_bounds { i < self.now.tables.m }
        requires all_placed { AllPlaced (tables_of self.now.tables) }
        ensures { result ≡ arc_fault base (tables_of self.now.tables) i }
    {
        let t = self.tables;
        let tail = usize::from(t.tails[i]);
        let head = usize::from(t.heads[i]);
        let weight = t.weights[i];
        reading::arc_fault(meaning::base(), t.n, tail, head, weight as usize)?;
        let long = u64::from(weight);
        let short = long * long < straight::squares(t.xs, t.ys, tail - 1, head - 1);
        if short {
            return Err(Fault::ArcShort);
        }
        Ok(())
    }

    // The first faulty entry ends the check and is the place: each site, against all earlier ones.
    // The paper asks for this form: labelled loops, left by break with the refusal's place. The
    // outer loop goes by j, the entry that is judged, and the inner by i, the entry before it.
    fn stands(&self) -> Result<(), Refusal>
        ensures { result
            ≡ first_fault (site_fault base (tables_of self.now.tables)) self.now.tables.s }
    {
        let t = self.tables;
        let mut j = 0;
        'entries: loop {
            if t.s <= j {
                break 'entries Ok(());
            }
            let number = t.sites[j];
            if !reading::within(1, usize::from(number), t.n) {
                break 'entries Err(Fault::NodeOutside.at(j + 1));
            }
            for i in 0..j {
                let again = t.sites[i] == number;
                if again {
                    break 'entries Err(Fault::GivenTwice.at(j + 1));
                }
            }
            j += 1;
        }
    }

    // Whether the next site is another node than the earlier ones, which are marked; it is marked
    // too.
    fn is_new(&self, seen: &mut Marks, number: usize) -> bool
        ensures { IsNew seen.old number self.now.tables.n result seen.new }
    {
        if !reading::within(1, number, self.tables.n) {
            return false;
        }
        let k = number - 1;
        if seen.contains(k) {
            return false;
        }
        seen.insert(k);
        true
    }

    // Whether no site is faulty, by one bit per node. Only where one is, its place is looked for.
    fn distinct(&self) -> bool
        ensures { AllStand (tables_of self.now.tables) result }
    {
        let t = self.tables;
        let mut seen = Marks::new();
        for &number in &t.sites[..t.s] {
            if !self.is_new(&mut seen, usize::from(number)) {
                return false;
            }
        }
        true
    }

    // All coordinates, then all arcs, then all sites.
    fn check(&self) -> Result<(), Refusal>
        ensures { result ≡ of_entries base (tables_of self.now.tables) }
    {
        let t = self.tables;
        first_fault(t.n, |v| self.point_fault(v))?;
        first_fault(t.m, |i| self.arc_fault(i))?;
        if self.distinct() {
            return Ok(());
        }
        self.stands()
    }
}

// A search trusts no table: all counts 4, tables 9, query 11, k 12, rooms 13, and then the entries.
// The rooms come one by one, as the search has them.
#[tactic(auto, unfolding(meaning::specs::Checks::inspect, crate::specs::Entries::of_entries))]
pub fn inspect(
    t: &Tables,
    query: usize,
    k: usize,
    work: &[u32],
    listed: &[u16],
    lengths: &[u32],
    ends: &[u16],
    routes: &[u16],
) -> Result<(), Refusal>
    ensures { result ≡ verdict_of base (tables_of t.now) query k
        (rooms work.now listed.now lengths.now ends.now routes.now) }
{
    let limits = meaning::base();
    if !counts_fit(t) {
        return Err(Fault::CountOutside.at(0));
    }
    if !tables_fit(t) {
        return Err(Fault::TableShort.at(0));
    }
    if !reading::within(1, query, t.n) {
        return Err(Fault::QueryOutside.at(0));
    }
    if !reading::within(1, k, limits.k) {
        return Err(Fault::KOutside.at(0));
    }
    if !rooms_fit(t.n, k, work, listed, lengths, ends, routes) {
        return Err(Fault::RoomShort.at(0));
    }
    Entries { tables: *t }.check()
}
