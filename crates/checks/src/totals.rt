//! How much stands in the tables.
ghost use Rattle.std.specs.Prelude.{◌≡◌, ◌++◌, ◌∷◌, [], ℕ, List, map};
ghost use Rattle.statements.specs.Tables.{Tables};
ghost use Rattle.tables.specs.Scans.{AreRowsOf};
ghost use Rattle.checks.specs.Totals.{IsGreatest, made_at, ever_made, AreTotalsOf};

use statements::rows::{Rows, VersionRow, WsRow};

/// The numbers of rows of each kind, when the newest version was created, and how many versions were ever made.
#[derive(Clone, Copy)]
pub struct Totals {
    pub organizations: u64,
    pub workspaces: u64,
    pub versions: u64,
    pub runs: u64,
    /// When the newest version was created, in seconds since 1970, if there is a version.
    pub newest: Option<u64>,
    /// How many versions the workspaces have had, those that are gone included; at most 2⁶⁴ - 1.
    pub made: u64,
}

/// The totals of tables that are not ours.
pub(crate) const NOTHING: Totals = Totals {
    organizations: 0,
    workspaces: 0,
    versions: 0,
    runs: 0,
    newest: None,
    made: 0,
};

/// The later of two times, of which the first may be missing.
fn later(newest: Option<u64>, second: u64) -> Option<u64>
    ensures { (xs : List ℕ) → IsGreatest xs newest → IsGreatest (xs ++ second ∷ []) result }
{
    match newest {
        None => Some(second),
        Some(greatest) => {
            if second > greatest {
                Some(second)
            } else {
                Some(greatest)
            }
        }
    }
}

/// When the newest version was created, in seconds since 1970, if there is a version.
fn newest(versions: &[(i64, VersionRow)]) -> Option<u64>
    ensures { IsGreatest (map made_at versions.now) result }
{
    let mut newest = None;
    for row in versions {
        newest = later(newest, row.1.it.created.seconds());
    }
    newest
}

/// How many versions the workspaces have had: in each they are numbered from 1. At most 2⁶⁴ - 1.
fn ever_made(wss: &[(i64, WsRow)]) -> u64
    ensures { result ≡ ever_made wss.now }
{
    let mut made: u64 = 0;
    for row in wss {
        made = made.saturating_add(row.1.it.next_version.saturating_sub(1));
    }
    made
}

/// The totals of the tables that have these rows.
pub(crate) fn totals_of(rows: &Rows) -> Totals
    ensures { (key_of : List ℕ → List ℕ) (t : Tables) → AreRowsOf key_of t rows.now → AreTotalsOf t result }
{
    Totals {
        organizations: rows.orgs.as_slice().len() as u64,
        workspaces: rows.wss.as_slice().len() as u64,
        versions: rows.versions.as_slice().len() as u64,
        runs: rows.runs.as_slice().len() as u64,
        newest: newest(rows.versions.as_slice()),
        made: ever_made(rows.wss.as_slice()),
    }
}
