//! Replies over a database in memory.
ghost use Rattle.std.specs.Prelude.{IfOk};
ghost use Rattle.program.specs.Replies.{AreReplies};

use basis::{Bytes, Down};
use pages::ShaKey;
use program::replays::replay_over;
use serve::Step;
use sqlite::MemStore;
use std::alloc::Global;
use tables::SqlKeep;

/// The replies to steps over a database in memory, in which no organization is at first.
pub fn replayed(alloc: Global, steps: &[Step]) -> Result<Vec<Bytes>, Down>
    ensures { IfOk result (λ replies. AreReplies steps.now replies.items) }
{
    let empty = SqlKeep::<MemStore, ShaKey>::in_memory(alloc)?;
    let (replies, keep) = replay_over(alloc, empty, steps);
    keep.is_always_clean();
    drop(keep.close());
    replies
}
