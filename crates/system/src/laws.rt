//! What a shield means for a store in a file, and a service over a new file.
ghost use Rattle.std.specs.Prelude.{◌≡◌, ◌⊎◌, [], true, is_some};
ghost use Rattle.sqlite_disk.specs.Modelled.{calls_of, start_of};
ghost use Rattle.sqlite_wal.specs.Files.{image_at};
ghost use Rattle.system.specs.Services.{NewFilesAreServed};
ghost use Rattle.system.specs.Shields.{StoreHasCollided};

use crate::files::{DiskFiles, FileKeep};
use machine::Keep;
use program::environment::{Clock, Connections, Files};
use sqlite_disk::{Calls, Start};
use sqlite_std_file::Host;

/// A shielded store in a file is clean, whatever the disk has answered since it was opened, or a digest has collided.
pub fn shielded_stores_are_clean_or_digests_collide<S: Start>(keep: &FileKeep<S>)
    ensures { ⟦<FileKeep<S> as Keep>⟧.shielded keep.now
        → ⟦<FileKeep<S> as Keep>⟧.clean keep.now ⊎ StoreHasCollided (start_of S.Start) (λ file. ⟦<Host as Calls>⟧.history (calls_of file)) keep.now.conn }
{}

/// From the words of `serve` and a new file, with no WAL beside it, to the replies on the connections: of every run of
/// `run_words` over the files of the system.
pub fn new_files_are_served<'a, S: Start, N: Connections, C: Clock>()
    ensures { (image_at S.Start).db ≡ [] → NewFilesAreServed ⟦<FileKeep<S> as Keep>⟧ ⟦<DiskFiles<'a, S> as Files<FileKeep<S>>>⟧ N.Connections C.Clock N.Reader.Inlet N.Writer.Outlet
        (λ store. StoreHasCollided (start_of S.Start) (λ file. ⟦<Host as Calls>⟧.history (calls_of file)) store.conn) (λ files. is_some files.start ≡ true) }
{}
