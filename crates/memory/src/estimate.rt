// The estimate of a node: the least straight line to a site that isn't taken.
ghost use Rattle.std.specs.Prelude.{◌≡◌, false, List, ℕ, ◌*◌, ◌≤◌, ◌<◌, pos, length, get_or};
ghost use Rattle.memory.specs.Memory.{rival_of, is_taken};
ghost use Rattle.memory.specs.Aim.{site_in, line_to, line_most, nearer};
ghost use Rattle.memory.specs.Aim.{SideBySide, NoneTaken, Forgotten, Sized};

use crate::Region;
use meaning::SITES_MOST;
use straight::Line;

// Where a taken site is put: farther off than any node is. A number and not an Option, which in the
// loop over the sites would be a branch.
const FAR: i32 = 1000000000;

// One more than the square of any distance between nodes: what the least square starts at. A number
// for the same reason.
const BEYOND: u64 = 320000000000000001;

// The sites' coordinates side by side; a taken site is put far off. Two columns and not pairs: the
// loop over them is vectorized.
#[derive(Drop)]
pub struct Aims {
    pub xs: [i32; SITES_MOST],
    pub ys: [i32; SITES_MOST],
}

impl Aims {
    // While no node is taken, each site stands where it is.
    pub fn gather(&mut self, r: &Region)
        ensures { (w : List ℕ) → NoneTaken r.now.n w → SideBySide r.now w self.new.xs self.new.ys }
    {
        let t = r.tables;
        for (j, &number) in t.sites[..t.s].iter().enumerate() {
            let node = usize::from(number) - 1;
            self.xs[j] = t.xs[node];
            self.ys[j] = t.ys[node];
        }
    }

    // The site v, which was taken, is put farther off than any node is.
    pub fn forget(&mut self, r: &Region, v: usize)
        ensures across { Forgotten r.now v self.old.xs self.new.xs }
        ensures upward { self.new.ys ≡ self.old.ys }
    {
        let t = r.tables;
        for j in 0..t.s {
            let node = usize::from(t.sites[j]) - 1;
            if node == v {
                self.xs[j] = FAR;
            }
        }
    }

    // One root, of the least square; 0 where no site is left.
    fn line_from(&self, r: &Region, work: &[u32], v: usize) -> Line
        requires v_in_bounds { v < r.now.n }
        requires aims { SideBySide r.now work.now self.now.xs self.now.ys }
        ensures { (result.0 ≡ line_to r.now work.now v) × (result.0 ≤ line_most) }
    {
        let t = r.tables;
        let x = t.xs[v];
        let y = t.ys[v];
        let mut best = BEYOND;
        for j in 0..t.s {
            best = closer(x, y, self.xs[j], self.ys[j], best);
        }
        if best == BEYOND {
            return Line(0);
        }
        Line(straight::root(best) as u32)
    }
}

// The least square so far, with that to one more site.
fn closer(x: i32, y: i32, a: i32, b: i32, best: u64) -> u64
    requires { Sized x y a b }
    ensures { result ≡ nearer x y a b best }
{
    let square = straight::apart(x, a) + straight::apart(y, b);
    square.min(best)
}

// Whether node v is a site.
fn is_site(r: &Region, v: usize) -> bool
    requires { v < r.now.n }
    ensures { result ≡ site_in r.now v }
{
    let t = r.tables;
    let number = v as u16 + 1;
    t.sites[..t.s].contains(&number)
}

fn rival(line: Line, site: bool) -> u32
    requires { line.0 ≤ line_most }
    ensures { result ≡ rival_of line.0 site }
{
    let twice = line.0 * 2;
    if site { twice + 2 } else { twice + 1 }
}

// What is held of node v while it is open. A site that isn't taken is at no distance from itself,
// so only a node at distance 0 is looked for among the sites. Of the memory only the contract
// speaks.
pub fn aim(r: &Region, work: &[u32], aims: &Aims, v: usize) -> u32
    requires v_in_bounds { (4 * r.now.n ≤ length work.now) × (v < r.now.n) }
    requires untaken { is_taken r.now.n work.now v ≡ false }
    requires aims { SideBySide r.now work.now aims.now.xs aims.now.ys }
    ensures { result ≡ rival_of (line_to r.now work.now v) (site_in r.now v) }
{
    let line = aims.line_from(r, work, v);
    let site = line.0 == 0 && is_site(r, v);
    rival(line, site)
}
