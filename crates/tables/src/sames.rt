//! Whether rows that were read from two databases are the same.
ghost use Rattle.std.specs.Prelude.{◌≡◌, ◌↔◌, IsTrue};

use crate::loading::LoadedWorkspace;
use basis::{Bounds, Bytes, Holder, LockId, RunRow, Text, VersionRow, WsName};
use statements::rows::{NamedToken, Workspace};

/// Something that a list has, and that can be compared.
pub(crate) trait Same {
    /// Whether both are the same.
    fn is_same(&self, other: &Self) -> bool
        ensures { IsTrue result ↔ (self.now ≡ other.now) };
}

pub(crate) fn same_bytes(a: &Bytes, b: &Bytes) -> bool
    ensures { IsTrue result ↔ (a.now ≡ b.now) }
{
    a.as_slice() == b.as_slice()
}

fn same_texts(a: &Option<Text>, b: &Option<Text>) -> bool
    ensures { IsTrue result ↔ (a.now ≡ b.now) }
{
    match (a, b) {
        (None, None) => true,
        (Some(x), Some(y)) => x.as_str() == y.as_str(),
        _ => false,
    }
}

fn same_ids(a: &Option<LockId>, b: &Option<LockId>) -> bool
    ensures { IsTrue result ↔ (a.now ≡ b.now) }
{
    match (a, b) {
        (None, None) => true,
        (Some(x), Some(y)) => x.as_str() == y.as_str(),
        _ => false,
    }
}

fn same_holders(a: &Holder, b: &Holder) -> bool
    ensures { IsTrue result ↔ (a.now ≡ b.now) }
{
    match (a, b) {
        (Holder::Nobody, Holder::Nobody) => true,
        (
            Holder::Lock { id, text },
            Holder::Lock {
                id: other,
                text: taken,
            },
        ) => id.as_str() == other.as_str() && text.as_slice() == taken.as_slice(),
        (Holder::Run(n), Holder::Run(m)) => *n == *m,
        _ => false,
    }
}

/// Whether two workspaces have the same row.
fn same_rows(a: &Workspace, b: &Workspace) -> bool
    ensures { IsTrue result ↔ (a.now ≡ b.now) }
{
    a.runs == b.runs
        && same_holders(&a.holder, &b.holder)
        && same_ids(&a.released, &b.released)
        && a.next_version == b.next_version
        && a.next_run == b.next_run
}

/// Whether two tokens have the same expiry and prefix.
pub(crate) fn same_bounds(a: &Option<Bounds>, b: &Option<Bounds>) -> bool
    ensures { IsTrue result ↔ (a.now ≡ b.now) }
{
    match (a, b) {
        (None, None) => true,
        (Some(x), Some(y)) => x.until == y.until && x.prefix.as_str() == y.prefix.as_str(),
        _ => false,
    }
}

impl Same for NamedToken {
    fn is_same(&self, other: &NamedToken) -> bool {
        self.name.as_str() == other.name.as_str()
            && self.it.digest.as_slice() == other.it.digest.as_slice()
            && self.it.role == other.it.role
    }
}

impl Same for WsName {
    fn is_same(&self, other: &WsName) -> bool {
        self.as_str() == other.as_str()
    }
}

impl Same for VersionRow {
    fn is_same(&self, other: &VersionRow) -> bool {
        self.created == other.created
            && self.lineage.as_str() == other.lineage.as_str()
            && self.number == other.number
            && self.serial == other.serial
            && self.size == other.size
    }
}

impl Same for RunRow {
    fn is_same(&self, other: &RunRow) -> bool {
        (self.action == other.action
            && self.created == other.created
            && same_texts(&self.key, &other.key)
            && self.message.as_str() == other.message.as_str())
            && (self.number == other.number
                && self.plan_only == other.plan_only
                && self.status == other.status)
    }
}

/// Whether two lists have the same items in the same order.
#[tactic(auto, using(crate::proofs::Comparing::same_front))]
pub(crate) fn are_same<X: Same>(xs: &[X], ys: &[X]) -> bool
    ensures { IsTrue result → xs.now ≡ ys.now }
{
    let mut rest = ys;
    'items: for x in xs {
        let [y, others @ ..] = rest else {
            return false;
        };
        if !x.is_same(y) {
            return false;
        }
        rest = others;
    }
    rest.is_empty()
}

/// Whether two workspaces are the same, but for the texts of their versions.
pub(crate) fn same_loaded(a: &LoadedWorkspace, b: &LoadedWorkspace) -> bool
    ensures { IsTrue result → a.now ≡ b.now }
{
    same_rows(&a.it, &b.it)
        && a.retention == b.retention
        && are_same(a.versions.as_slice(), b.versions.as_slice())
        && are_same(a.runs.as_slice(), b.runs.as_slice())
}
