//! The program's environment besides its streams: files of databases, connections and a clock.
ghost use Rattle.std.specs.Prelude.{◌≡◌, ◌≢◌, ℕ, Bool, List, [], Option, Result, true, false, IfOk, IfErr, OnOk, OnErr};
ghost use Rattle.std.specs.Net.Addr.{ipv4_octets};
ghost use Rattle.basis.specs.declared.memory.Down.{Down as AnyDown};
ghost use Rattle.command_line.specs.declared.timeouts.Timeouts.{Timeouts as AnyTimeouts};
ghost use Rattle.program.specs.declared.environment.Standing.{Standing as AnyStanding};
ghost use Rattle.program.specs.declared.reasons.Cause.{Cause as AnyCause};
ghost use Rattle.program.specs.declared.reasons.OpenFault.{OpenFault as AnyFault};
ghost use Rattle.machine.specs.StoreCalls.{Unchanged, LastsWhere};
ghost use Rattle.program.specs.Moves.{AnswersTask};
ghost use Rattle.program.specs.Paths.{AllStay, OthersStay, LeavesVacant, makes, raises};
ghost use Rattle.program.specs.declared.totals.Findings.{Findings as AnyFindings};
ghost use Rattle.program.specs.Replies.{AreReplies};
ghost use Rattle.program.specs.Checkpoints.{Checkpoints};

use crate::reasons::{Cause, OpenFault};
use crate::totals::Findings;
use basis::{Bytes, Down, Moment, OrgName};
use command_line::timeouts::Timeouts;
use machine::{AdminAnswer, Keep};
use serve::Step;
use std::alloc::Global;
use std::net::Ipv4Addr;
use wire::{Inlet, Outlet};

/// Which path is opened, and whether a database may be created there, or raised to the newest schema version.
#[derive(Clone, Copy)]
pub enum Opening {
    /// A database that is only read: that of `check`, the source of copies, and that at `--copied-to`. It must exist and have
    /// our tables, of the newest schema version.
    Read,
    /// The database at `--db`. It must exist and have our tables.
    Existing,
    /// The database at `--db`. It is created if there is no file or an empty one.
    Created,
    /// The database at `--to`. It is created if there is no file or an empty one.
    Target,
}

impl Opening {
    /// Whether a database may be created.
    pub fn makes(self) -> bool
        ensures { result ≡ makes self }
    {
        match self {
            Opening::Read | Opening::Existing => false,
            Opening::Created | Opening::Target => true,
        }
    }

    /// Whether a database of an older schema version may be raised to the newest.
    pub fn raises(self) -> bool
        ensures { result ≡ raises self }
    {
        match self {
            Opening::Read => false,
            Opening::Existing | Opening::Created | Opening::Target => true,
        }
    }
}

/// What is done with an organization in two stores.
#[derive(Clone, Copy)]
pub enum CopyTask {
    /// It is copied from one to the other.
    Make,
    /// Its records in both are compared.
    Compare,
}

/// The databases, each by its path. An open database is a `K`.
pub trait Files<K: Keep> {
    // A store has the contents of a path: of the file there, and of the WAL beside it.
    ghost holds: { Self → List ℕ → K → Type 0 };

    // The same, and all of it is in the file alone, because the WAL was copied into it.
    ghost copied: { Self → List ℕ → K → Type 0 };

    // An open refuses the contents of a path, for this reason, which names the schema version if it is another one.
    ghost refuses: { Self → List ℕ → AnyFault → Type 0 };

    // There is no file at a path, or an empty one.
    ghost vacant: { Self → List ℕ → Type 0 };

    // There is no database with our tables at a path.
    ghost bare: { Self → List ℕ → Type 0 };

    // A store has committed what was committed at a path: no table or row was changed, so none was raised.
    ghost unraised: { Self → List ℕ → K → Type 0 };

    // Finds out whether there is nothing at a path.
    ghost lacks: { Self → List ℕ → Bool → Type 0 };

    // Finds out whether others than the owner may read the files at a path.
    ghost reads: { Self → List ℕ → Bool → Type 0 };

    // Finds out whether a disk error has closed a store: the store before and after.
    ghost shuts: { K → Result Bool AnyDown → K → Type 0 };

    // Finds out, at a moment, whether the files of the open store are still at its path.
    ghost places: { ℕ → Bool → Type 0 };

    // Copies a long WAL of a store into its file: the store before and after.
    ghost checkpoints: { K → K → Type 0 };

    // The findings of a check of a store's tables: the store before, a line for each fault and the numbers of rows, the
    // store after.
    ghost finds: { K → Result AnyFindings AnyDown → K → Type 0 };

    // The newest schema version, in which a database is created.
    ghost newest: { ℕ };

    // What is assumed of a store when it was opened, so that one without faults is sound: its tables have rows of our columns.
    ghost is_ours: { K → Type 0 };

    /// Whether there is nothing at a path.
    fn is_absent(&self, path: &str) -> bool
        ensures { lacks self.now path.now result };

    /// Whether users other than its owner may read the file at a path.
    fn others_may_read(&self, path: &str) -> bool
        ensures { reads self.now path.now result };

    /// The newest schema version.
    fn newest_schema(&self) -> u64
        ensures { result ≡ newest };

    /// Opens the store at a path. If the database must exist, a missing one, or one without our tables, is refused, and nothing
    /// is created. Otherwise a database without organizations is created if there is no file or an empty one. A database of an
    /// older schema version is refused if it is only read; otherwise it is raised to the newest. A file of another schema version
    /// is not changed.
    fn open(&mut self, path: &str, opening: Opening) -> Result<K, OpenFault>
        ensures opened { IfOk result (λ store. holds self.old path.now store) }
        ensures existing { makes opening ≡ false → IfOk result (λ store. K.clean store → ¬ bare self.old path.now) }
        ensures there { makes opening ≡ false → OnOk result (¬ vacant self.old path.now) }
        ensures unraised { raises opening ≡ false → IfOk result (unraised self.old path.now) }
        ensures vacancies { LeavesVacant vacant (makes opening) path.now self.old self.new }
        ensures others { OthersStay holds path.now self.old self.new }
        ensures refused { OnErr result (AllStay holds self.old self.new) }
        ensures why { IfErr result (refuses self.old path.now) };

    /// Whether a disk error has closed a store, so that every call fails. Fails itself if an allocation fails.
    fn is_shut(&self, store: &mut K) -> Result<bool, Down>
        ensures reported { shuts store.old result store.new }
        ensures unchanged { Unchanged K.rows K.clean K.sound K.keyed K.shielded store.old store.new };

    /// Whether the file of the store that was opened first and its WAL are still at its path, at this moment: neither was moved,
    /// removed or replaced. What cannot be found out counts as in place.
    fn is_in_place(&self, at: Moment) -> bool
        ensures { places at result };

    /// Checkpoints a long WAL: copies it into its file, so that the next change does not have to. No record of a sound store
    /// changes. Fails if an allocation or the store fails.
    fn checkpoint(&self, store: &mut K) -> Result<(), Down>
        ensures done { checkpoints store.old store.new }
        ensures checkpointed { Checkpoints K.rows K.clean K.sound K.keyed K.shielded store.old store.new };

    /// Checks the tables of a store. Returns one line per fault, without its line feed, at most 50, and the numbers of rows. If
    /// there is no fault, the store is sound and keyed. Fails if an allocation or the store fails.
    fn check(&self, alloc: Global, store: &mut K) -> Result<Findings, Down>
        ensures found { finds store.old result store.new }
        ensures unchanged { Unchanged K.rows K.clean K.sound K.keyed K.shielded store.old store.new }
        ensures sound { IfOk result (λ findings. findings.faults ≡ [] → K.clean store.new → is_ours store.old → K.sound store.old × K.keyed store.old) };

    /// Copies an organization from one store to another, in one transaction of the target, or compares its records in both. The
    /// records of other organizations do not change in either. Fails if an allocation or a store fails.
    fn copy(
        &self,
        alloc: Global,
        task: CopyTask,
        org: &OrgName,
        from: &mut K,
        to: &mut K,
    ) -> Result<AdminAnswer, Down>
        ensures source { Unchanged K.rows K.clean K.sound K.keyed K.shielded from.old from.new }
        ensures lasts { LastsWhere (K.clean from.new × K.sound from.old) K.clean K.sound K.keyed K.shielded to.old to.new }
        ensures own { K.clean to.new → K.sound to.old → K.clean from.new → K.sound from.old → IfOk result (λ answer. AnswersTask task answer (K.rows from.old org.now) (K.rows to.old org.now) (K.rows to.new org.now)) }
        ensures others { K.clean to.new → K.sound to.old → K.clean from.new → K.sound from.old → (o : List ℕ) → o ≢ org.now → K.rows to.new o ≡ K.rows to.old o }
        ensures err { K.clean to.new → OnErr result ((o : List ℕ) → K.rows to.new o ≡ K.rows to.old o) };

    /// Closes a store. Its records are then in the file at the path. After an error its WAL stays beside the file.
    fn close(&mut self, path: &str, store: K) -> Result<(), Down>
        ensures closed { holds self.new path.now store }
        ensures copied { OnOk result (copied self.new path.now store) }
        ensures vacancies { LeavesVacant vacant true path.now self.old self.new }
        ensures others { OthersStay holds path.now self.old self.new };

    /// The replies to steps over a database in memory that has no organization at first.
    fn replay(&self, alloc: Global, steps: &[Step]) -> Result<Vec<Bytes>, Down>
        ensures { IfOk result (λ replies. AreReplies steps.now replies.items) };
}

/// What stands at a path where a socket is to be made.
#[derive(Clone, Copy)]
pub enum Standing {
    Nothing,
    /// A socket at which nobody answers.
    Silent,
    /// A socket at which somebody answers.
    Answered,
    /// Something else than a socket.
    Other,
}

/// What peers connect to. Each connection is a reader and a writer.
pub trait Connections {
    type Reader: Inlet + Drop;

    type Writer: Outlet + Drop;

    // Binds the octets of an address, and a port: the network before, the result, the network after.
    ghost binds: { Self → List ℕ → ℕ → Result ℕ AnyCause → Self → Type 0 };

    // Finds out what stands at a path: the network before, what it is, the network after.
    ghost looks: { Self → List ℕ → Result AnyStanding AnyCause → Self → Type 0 };

    // Removes a socket at a path: the network before, the result, the network after.
    ghost removes: { Self → List ℕ → Result (Unit {0}) AnyCause → Self → Type 0 };

    // Makes a socket at a path, with a mode whose bits say who may connect, and listens at it: the network before, the
    // result, the network after.
    ghost listens: { Self → List ℕ → ℕ → Result (Unit {0}) AnyCause → Self → Type 0 };

    // Accepts a connection that is waited for no longer than these timeouts: the network before, its two sides or
    // none, the network after.
    ghost accepts: { Self → AnyTimeouts → Result (Self.Reader × Self.Writer) AnyDown → Self → Type 0 };

    // Ends a connection: the network before, its two sides as they are left, whether its message is known to have
    // been read completely, the network after.
    ghost ends: { Self → Self.Reader → Self.Writer → Bool → Self → Type 0 };

    /// Listens on an address and a port. Returns the port in use, or why it cannot listen.
    fn bind(&mut self, address: Ipv4Addr, port: u16) -> Result<u16, Cause>
        ensures { binds self.old (ipv4_octets address) port result self.new };

    /// What stands at a path. A socket there is tried by connecting to it.
    fn look(&mut self, path: &str) -> Result<Standing, Cause>
        ensures { looks self.old path.now result self.new };

    /// Removes the socket at a path.
    fn remove(&mut self, path: &str) -> Result<(), Cause>
        ensures { removes self.old path.now result self.new };

    /// Makes a socket at a path where nothing stands, with this mode, and listens at it.
    fn listen(&mut self, path: &str, mode: u32) -> Result<(), Cause>
        ensures { listens self.old path.now mode result self.new };

    /// The next connection. Neither side has failed yet. A read or a write fails when a timeout ends it.
    fn accept(&mut self, timeouts: &Timeouts) -> Result<(Self::Reader, Self::Writer), Down>
        ensures sound { IfOk result (λ sides. (Self.Reader.broken sides.0 ≡ false) × (Self.Writer.broken sides.1 ≡ false)) }
        ensures accepted { accepts self.old timeouts.now result self.new };

    /// Closes a connection: at once if its whole message was read (`was_read`). Otherwise the peer gets time to read its reply,
    /// and what it still sends is dropped.
    fn finish(&mut self, reader: Self::Reader, writer: Self::Writer, was_read: bool)
        ensures { ends self.old reader writer was_read self.new };
}

/// The clock.
pub trait Clock {
    // Gives a moment, or none: the clock before and after.
    ghost reports: { Self → Option ℕ → Self → Type 0 };

    /// The current time, in seconds since 1970, unless it cannot be read or is out of range.
    fn now(&mut self) -> Option<Moment>
        ensures { reports self.old result self.new };
}
