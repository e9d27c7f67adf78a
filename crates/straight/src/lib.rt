// Road and straight line: the whole root, squared distances, and the total, where the two kinds of
// length meet.
#![tactic(auto)]

ghost use Rattle.std.specs.Prelude.{◌≡◌, ◌*◌, ◌≤◌};
ghost use Rattle.meaning.specs.Straight.{gap, root as root_of, squares as squares_of};
ghost use Rattle.meaning.specs.Taking.{total as total_of};
ghost use Rattle.straight.specs.Points.{Placed, entry, farthest};

// A length by road, d_N.
#[derive(Clone, Copy)]
pub struct Road(pub u32);

// A straight line's length, d_E.
#[derive(Clone, Copy)]
pub struct Line(pub u32);

// The largest whole number whose square is at most x, by Newton's method: the first guess is a
// power of two above the root, and each next one is less and still no less than the root. Nothing
// is multiplied, so the square of a guess need not fit.
pub fn root(x: u64) -> u64
    ensures { result ≡ root_of x }
{
    if x == 0 {
        return 0;
    }
    let mut guess = 1u64 << ((65 - x.leading_zeros()) / 2);
    let mut share = x / guess;
    while share < guess {
        guess = (guess + share) / 2;
        share = x / guess;
    }
    guess
}

// The square of the difference of two coordinates. By way of an i64 the compiler squares it without
// telling which of the two is larger: abs_diff made a search a third slower (15.0 microseconds
// before, 20.3 with it, 15.8 so).
#[tactic(auto, unfolding(meaning::specs::Straight::gap))]
pub fn apart(a: i32, b: i32) -> u64
    ensures { result ≡ gap a b * gap a b }
{
    let d = (i64::from(a) - i64::from(b)).unsigned_abs();
    d * d
}

// dx squared plus dy squared, of two nodes.
pub fn squares(xs: &[i32], ys: &[i32], a: usize, b: usize) -> u64
    requires from { Placed xs.now ys.now a }
    requires to { Placed xs.now ys.now b }
    ensures { (result ≡ squares_of (entry xs.now) (entry ys.now) a b) × (result ≤ farthest) }
{
    apart(xs[a], xs[b]) + apart(ys[a], ys[b])
}

// The one place where d_N and d_E meet.
pub fn total(road: Road, line: Line) -> u64
    ensures { result ≡ total_of road.0 line.0 }
{
    u64::from(road.0) + u64::from(line.0)
}
