// The three readers: a text is judged whole, its entries kept as rows, before a table is written.
// The lent tables are parameters of each call, as C lends them.
#![tactic(auto)]

ghost use Rattle.std.specs.Prelude.{◌≡◌, ◌≤◌, length};
ghost use Rattle.meaning.specs.Limits.{base};
ghost use Rattle.meaning.specs.Files.{GraphRead, CoordinatesRead, SitesRead};
ghost use Rattle.readers.specs.Writing.{
  arc_row,
  point_row,
  site_row,
  stored,
  in_order,
  at_node,
  tail_in,
  head_in,
  weight_in,
  x_in,
  y_in,
  site_in,
  ArcRows,
  PointRows,
};

use meaning::{ARCS_MOST, Counts, Entry, Kind, NODES_MOST, Refusal, SITES_MOST};
use reading::Row;

// An arc of a graph text.
#[derive(Clone, Copy, Default)]
struct ArcRow {
    tail: u16,
    head: u16,
    weight: u32,
}

impl Row for ArcRow {
    ghost row_of = { arc_row };

    fn of(e: Entry) -> ArcRow {
        match e {
            Entry::Arc { tail, head, weight } => ArcRow {
                tail: tail as u16,
                head: head as u16,
                weight: weight as u32,
            },
            Entry::Point { .. } | Entry::Site { .. } => ArcRow::default(),
        }
    }
}

// A node of a coordinate text and where it lies.
#[derive(Clone, Copy, Default)]
struct PointRow {
    node: u16,
    x: i32,
    y: i32,
}

impl Row for PointRow {
    ghost row_of = { point_row };

    fn of(e: Entry) -> PointRow {
        match e {
            Entry::Point { node, x, y } => PointRow {
                node: node as u16,
                x,
                y,
            },
            Entry::Arc { .. } | Entry::Site { .. } => PointRow::default(),
        }
    }
}

// A node of a site text.
#[derive(Clone, Copy, Default)]
struct SiteRow {
    node: u16,
}

impl Row for SiteRow {
    ghost row_of = { site_row };

    fn of(e: Entry) -> SiteRow {
        match e {
            Entry::Site { node } => SiteRow { node: node as u16 },
            Entry::Arc { .. } | Entry::Point { .. } => SiteRow::default(),
        }
    }
}

// The rows of an accepted graph text go into the tables.
fn write_arcs(rows: &[ArcRow], tails: &mut [u16], heads: &mut [u16], weights: &mut [u32])
    requires { ArcRows rows.now tails.old heads.old weights.old }
    ensures tails_are { tails.new ≡ stored in_order (tail_in rows.now) (length rows.now) tails.old }
    ensures heads_are { heads.new ≡ stored in_order (head_in rows.now) (length rows.now) heads.old }
    ensures weights_are { weights.new ≡ stored in_order (weight_in rows.now) (length rows.now) weights.old }
{
    for (i, row) in rows.iter().enumerate() {
        tails[i] = row.tail;
        heads[i] = row.head;
        weights[i] = row.weight;
    }
}

// The rows of an accepted coordinate text, each at its node.
fn write_points(rows: &[PointRow], xs: &mut [i32], ys: &mut [i32])
    requires { PointRows rows.now xs.old ys.old }
    ensures xs_are { xs.new ≡ stored (at_node rows.now) (x_in rows.now) (length rows.now) xs.old }
    ensures ys_are { ys.new ≡ stored (at_node rows.now) (y_in rows.now) (length rows.now) ys.old }
{
    for row in rows {
        let k = usize::from(row.node) - 1;
        xs[k] = row.x;
        ys[k] = row.y;
    }
}

// The rows of an accepted site text.
fn write_sites(rows: &[SiteRow], sites: &mut [u16])
    requires { length rows.now ≤ length sites.old }
    ensures { sites.new ≡ stored in_order (site_in rows.now) (length rows.now) sites.old }
{
    for (i, row) in rows.iter().enumerate() {
        sites[i] = row.node;
    }
}

// Reads a graph text: a refusal, and the tables as they were; or its counts, and the arcs in front
// of the tables.
pub fn read_graph(
    text: &[u8],
    tails: &mut [u16],
    heads: &mut [u16],
    weights: &mut [u32],
) -> Result<Counts, Refusal>
    ensures { GraphRead base text.now tails.old heads.old weights.old tails.new heads.new weights.new result }
{
    let room = tails.len().min(heads.len().min(weights.len()));
    let mut rows = [ArcRow::default(); ARCS_MOST];
    // A graph text is handed no N; its rules (specs/Files of meaning) write 0 for it.
    let counts = reading::judged(Kind::Graph, 0, room, text, &mut rows)?;
    write_arcs(&rows[..counts.rows], tails, heads, weights);
    Ok(counts)
}

// Reads a coordinate text, of a graph with that many nodes: a refusal, and the tables as they were;
// or its counts, and the tables by node.
pub fn read_coordinates(
    text: &[u8],
    nodes: usize,
    xs: &mut [i32],
    ys: &mut [i32],
) -> Result<Counts, Refusal>
    ensures { CoordinatesRead base text.now nodes xs.old ys.old xs.new ys.new result }
{
    let room = xs.len().min(ys.len());
    let mut rows = [PointRow::default(); NODES_MOST];
    let counts = reading::judged(Kind::Coordinates, nodes, room, text, &mut rows)?;
    write_points(&rows[..counts.rows], xs, ys);
    Ok(counts)
}

// Reads a site text, of a graph with that many nodes: a refusal, and the table as it was; or its
// counts, and the sites in front of the table.
pub fn read_sites(text: &[u8], nodes: usize, sites: &mut [u16]) -> Result<Counts, Refusal>
    ensures { SitesRead base text.now nodes sites.old sites.new result }
{
    let mut rows = [SiteRow::default(); SITES_MOST];
    let counts = reading::judged(Kind::Sites, nodes, sites.len(), text, &mut rows)?;
    write_sites(&rows[..counts.rows], sites);
    Ok(counts)
}
