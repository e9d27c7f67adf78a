// The region that a search is over.
ghost use Rattle.std.specs.Prelude.{◌≡◌};
ghost use Rattle.memory.specs.Region.{Sound};

use meaning::Tables;
use std::marker::Model;

// A region whose tables passed the checks: a contract sees the tables' entries and counts, and what
// the checks have shown of them is known wherever one is.
#[derive(Drop)]
pub struct Region<'a> {
    pub tables: Tables<'a>,
}

impl<'a> Model for Region<'a> {
    ghost use Rattle.meaning.specs.Region.{Tables as Entries, tables_of};
    ghost use Rattle.memory.specs.Region.{Sound};

    ghost Value = { Entries };

    ghost view = { λ r. tables_of r.tables };

    ghost invariant = { λ r. Sound (tables_of r.tables) };
}

impl Region<'_> {
    // How many nodes there are, and what the checks have shown.
    pub fn nodes(&self) -> usize
        ensures count { result ≡ self.now.n }
        ensures sound { Sound self.now }
    {
        self.tables.n
    }

    // How many sites there are.
    pub fn sites(&self) -> usize
        ensures { result ≡ self.now.s }
    {
        self.tables.s
    }
}
