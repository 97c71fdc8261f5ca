//! What is kept in memory of the tables, so that it is not looked up each time.
ghost use Rattle.std.specs.Prelude.{◌≡◌};
ghost use Rattle.tables.specs.Remembered.{nothing_kept};
ghost use Rattle.tables.specs.Inner.Remembering.{changed_memo};

use crate::askers::Asked;
use crate::counts;
use crate::counts::WorkspaceCount;
use crate::sizes::SizedVersion;
use basis::Items;
use machine::Change;

/// What is kept. Everything is forgotten when the tables change in any other way than by a change of a
/// workspace.
#[derive(Drop)]
pub(crate) struct Memo {
    /// The number of workspaces of the organization in which one was created last.
    pub(crate) cached: Option<WorkspaceCount>,
    /// The version that was read last and whose text is read next.
    pub(crate) sized: Option<SizedVersion>,
    /// The tokens that were used last, the newest last; none before the first is.
    pub(crate) asked: Option<Items<Asked>>,
}

impl Memo {
    /// Nothing is kept.
    pub(crate) fn new() -> Memo
        ensures { result ≡ nothing_kept }
    {
        Memo {
            cached: None,
            sized: None,
            asked: None,
        }
    }

    /// What is kept after a workspace was changed. Tokens are unaffected, but its versions may have changed.
    pub(crate) fn changed(self, org: &str, ws: &str, change: &Change) -> Memo
        ensures { result ≡ changed_memo self org.now ws.now change.now.edit }
    {
        let Memo {
            cached,
            sized: _,
            asked,
        } = self;
        Memo {
            cached: counts::changed(cached, org, ws, change),
            sized: None,
            asked,
        }
    }
}
