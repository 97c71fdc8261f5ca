//! The number of an organization's workspaces, kept in memory so that they are not counted each time that one
//! is created.
ghost use Rattle.std.specs.Prelude.{◌≡◌, false, Some, IfSome};
ghost use Rattle.basis.specs.declared.numbers.TheConstants.{MAX_LIMIT};
ghost use Rattle.tables.specs.Inner.Counting.{known_of, count_after, one_more, edited_count, changed_count};

use basis::Text;
use basis::numbers::MAX_LIMIT;
use machine::{Change, Edit, Unit};
use std::alloc::Global;

/// The number of an organization's workspaces. It is kept for one organization at a time.
#[derive(Drop)]
pub(crate) struct WorkspaceCount {
    org: Text,
    count: u64,
    /// The name of a workspace that does not exist.
    absent: Option<Text>,
}

/// The number of the organization's workspaces, if it is in memory.
pub(crate) fn known(cached: &Option<WorkspaceCount>, org: &str) -> Option<u64>
    ensures { result ≡ known_of cached.now org.now }
{
    match cached {
        None => None,
        Some(cached) => {
            if cached.org.as_str() == org {
                Some(cached.count)
            } else {
                None
            }
        }
    }
}

/// What is kept after a workspace was found to be missing; nothing if allocating fails.
fn note_absent(alloc: Global, org: &str, ws: &str, count: u64) -> Option<WorkspaceCount>
    ensures { IfSome result (λ cached. cached ≡ record { org = org.now; count = count; absent = Some ws.now }) }
{
    let Ok(org) = Text::copy_of(alloc, org) else {
        return None;
    };
    let Ok(ws) = Text::copy_of(alloc, ws) else {
        return None;
    };
    Some(WorkspaceCount {
        org,
        count,
        absent: Some(ws),
    })
}

/// Keeps what was found for a workspace: if it is missing and the act creates it, the number of workspaces.
/// If allocating fails, nothing is kept.
pub(crate) fn cache_count(
    cached: &mut Option<WorkspaceCount>,
    alloc: Global,
    org: &str,
    ws: &str,
    makes: bool,
    unit: &Unit,
)
    ensures stays { makes ≡ false → cached.new ≡ cached.old }
    ensures kept { IfSome cached.new (λ kept. count_after cached.old makes org.now ws.now unit.now ≡ Some kept) }
{
    if !makes {
        return;
    }
    match unit {
        Unit::Absent { workspaces, .. } => *cached = note_absent(
            alloc,
            org,
            ws,
            *workspaces as u64,
        ),
        Unit::Present(_) => {}
    }
}

/// What is kept after a workspace was created. Nothing, unless it was known to be missing: it may have
/// existed.
fn one_more(cached: WorkspaceCount, ws: &str) -> Option<WorkspaceCount>
    ensures { result ≡ one_more cached ws.now }
{
    let WorkspaceCount { org, count, absent } = cached;
    let Some(absent) = absent else {
        return None;
    };
    if absent.as_str() != ws || count >= MAX_LIMIT as u64 {
        return None;
    }
    Some(WorkspaceCount {
        org,
        count: count + 1,
        absent: None,
    })
}

/// What is kept after a workspace of the organization was edited.
fn edited(cached: WorkspaceCount, ws: &str, edit: &Edit) -> Option<WorkspaceCount>
    ensures { result ≡ edited_count cached ws.now edit.now }
{
    match edit {
        Edit::Make(_) => one_more(cached, ws),
        Edit::Remove => None,
        Edit::Configure { .. } => Some(cached),
        Edit::AddVersion { .. } => Some(cached),
        Edit::Purge => Some(cached),
        Edit::Hold { .. } => Some(cached),
        Edit::Release(_) => Some(cached),
        Edit::AddRun { .. } => Some(cached),
        Edit::Report { .. } => Some(cached),
    }
}

/// What is kept after a workspace was changed. A workspace of another organization does not matter.
pub(crate) fn changed(
    cached: Option<WorkspaceCount>,
    org: &str,
    ws: &str,
    change: &Change,
) -> Option<WorkspaceCount>
    ensures { result ≡ changed_count cached org.now ws.now change.now.edit }
{
    let Some(cached) = cached else {
        return None;
    };
    if cached.org.as_str() != org {
        return Some(cached);
    }
    edited(cached, ws, &change.edit)
}
