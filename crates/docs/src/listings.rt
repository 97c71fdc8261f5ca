//! Lists: at most 50 items, and whether further ones follow.
ghost use Rattle.std.specs.Prelude.{◌≡◌, IfOk};
ghost use Rattle.docs.specs.Bodies.{list_members, ws_list_text, version_list_text, run_list_text};

use crate::put::{Shown, put_flag, put_list, write_shown};
use basis::{Down, Listing, RunRow, VersionRow, WsRow};
use json::Writer;
use std::alloc::{AllocError, Global};

// A list mostly fits this; a longer one takes more memory.
const USUAL_LIST: usize = 8_192;

/// A list of workspaces.
#[tactic(auto, unfolding(crate::specs::Bodies::ws_list_text, crate::specs::Inner::Put::object_text))]
pub fn write_ws_list(alloc: Global, listing: &Listing<WsRow>) -> Result<Vec<u8>, Down>
    ensures { IfOk result (λ v. v.items ≡ ws_list_text listing.now) }
{
    write_shown(alloc, USUAL_LIST, listing)
}

/// A list of versions.
#[tactic(auto, unfolding(crate::specs::Bodies::version_list_text, crate::specs::Inner::Put::object_text))]
pub fn write_version_list(alloc: Global, listing: &Listing<VersionRow>) -> Result<Vec<u8>, Down>
    ensures { IfOk result (λ v. v.items ≡ version_list_text listing.now) }
{
    write_shown(alloc, USUAL_LIST, listing)
}

/// A list of runs.
#[tactic(auto, unfolding(crate::specs::Bodies::run_list_text, crate::specs::Inner::Put::object_text))]
pub fn write_run_list(alloc: Global, listing: &Listing<RunRow>) -> Result<Vec<u8>, Down>
    ensures { IfOk result (λ v. v.items ≡ run_list_text listing.now) }
{
    write_shown(alloc, USUAL_LIST, listing)
}

impl<T: Shown> Shown for Listing<T> {
    ghost members = { list_members T.members };

    fn put(&self, writer: &mut Writer) -> Result<(), AllocError> {
        put_list(writer, "items", self.items.as_slice())?;
        put_flag(writer, "more", self.more)
    }
}
