//! Why the program refuses: the causes of `refused down` and `refused schema`, and the line of each on the error stream.
ghost use Rattle.std.specs.Prelude.{◌≡◌};
ghost use Rattle.program.specs.Errors.{cause_line};

/// Why an allocation, the store, the input or the network failed.
#[derive(Clone, Copy, PartialEq, Eq)]
pub enum Cause {
    /// Another program has the file open.
    InUse,
    /// The process may not read and write the file or its folder.
    NotPermitted,
    /// The path does not lead to a regular file, or the file has more than one hard link.
    NoFile,
    /// The folder of the `--db` file does not exist.
    NoFolder,
    /// The folder of the `--to` file does not exist.
    NoTargetFolder,
    /// There is no file at the path, or an empty one, and the command does not create one.
    Missing,
    /// There is no file at the path, or an empty one, but the WAL beside it may hold committed changes.
    LogAlone,
    /// The WAL beside the file lacks changes that the file has.
    OldLog,
    /// The file is a database without our tables.
    NoTables,
    /// A rollback journal of SQLite lies beside the file.
    Journal,
    /// A page of the file is damaged. If its pages have checksums, one is wrong.
    Corrupt,
    /// The file is not a database, or its rows break its schema.
    Unsound,
    NoRoom,
    NoMemory,
    /// The disk or the operating system reported an error.
    Disk,
    /// An allocation or the store failed; which one is not known.
    Store,
    /// An allocation or a store failed before every organization was copied.
    Unfinished,
    /// A disk error closed the store.
    Shut,
    /// A disk error closed the store during a change, which may have been made.
    Halted,
    /// An allocation or the store failed, and there was no memory to ask whether a disk error closed the store.
    Unknown,
    /// Standard input could not be read, or there was no memory for it.
    Input,
    PortTaken,
    PortNotPermitted,
    /// The service could not listen on the port.
    Port,
    /// Somebody answers at the socket.
    SocketTaken,
    /// Something else than a socket stands at the socket's path.
    NoSocket,
    SocketNotPermitted,
    /// The service could not listen at the socket.
    Socket,
    /// A connection could not be accepted.
    Accept,
    /// The clock could not be read, or it is out of range.
    Clock,
    /// A line of the exchange log could not be written completely.
    Log,
    /// The file of the open store or its WAL was moved, removed or replaced.
    Moved,
    /// The file's tables have faults.
    Faults,
    /// The tables of the file to copy from have faults.
    SourceFaults,
    /// The tables of the file that should have a copy have faults.
    CopyFaults,
    /// The file that should have a copy of the organization does not have the same record.
    NotCopied,
    /// An argument is not UTF-8.
    Encoding,
    /// A standard stream is closed, and `/dev/null` could not be opened in its place.
    NoNull,
}

impl Cause {
    /// The cause's line on the error stream.
    pub fn line(self) -> &'static str
        ensures { result.now ≡ cause_line self }
    {
        match self {
            Cause::InUse => "custody: another program has the file open\n",
            Cause::NotPermitted =>
                "custody: no permission to read and write the file or its folder\n",
            Cause::NoFile => {
                "custody: the path does not lead to a file, or the file has more than one hard link\n"
            }
            Cause::NoFolder => "custody: the folder of the --db file does not exist\n",
            Cause::NoTargetFolder => "custody: the folder of the --to file does not exist\n",
            Cause::Missing => {
                "custody: there is no file at the path, or it is empty; only org-add, serve without --check, and --to create one\n"
            }
            Cause::LogAlone => {
                "custody: the file is missing or empty, and the -wal beside it may hold changes: put the file back\n"
            }
            Cause::OldLog => {
                "custody: the -wal beside the file is older than the file, or damaged: put the right one back\n"
            }
            Cause::NoTables => "custody: the file is a database without custody's tables\n",
            Cause::Journal => {
                "custody: a rollback journal lies beside the file: open the file with sqlite3 first\n"
            }
            Cause::Corrupt =>
                "custody: the file is damaged: a page's checksum or format is wrong\n",
            Cause::Unsound => {
                "custody: the file is not a database, or it is damaged: its rows break its schema\n"
            }
            Cause::NoRoom => "custody: there is no space left on the disk\n",
            Cause::NoMemory => "custody: out of memory\n",
            Cause::Disk => "custody: the disk or the system reported an error\n",
            Cause::Store => "custody: out of memory or the store failed; no record was changed\n",
            Cause::Unfinished => {
                "custody: out of memory or a store failed before everything was copied: delete the new file and start again\n"
            }
            Cause::Shut => "custody: a disk error closed the store: check the disk\n",
            Cause::Halted => {
                "custody: a disk error closed the store: check the disk. The change may have been made: look before you repeat it\n"
            }
            Cause::Unknown =>
                "custody: out of memory or the store failed. The change may have been made: look before you repeat it\n",
            Cause::Input => "custody: the input could not be read, or out of memory\n",
            Cause::PortTaken => "custody: the port is in use\n",
            Cause::PortNotPermitted => "custody: no permission to use the port\n",
            Cause::Port => "custody: could not listen on the port\n",
            Cause::SocketTaken => "custody: another program answers at the socket\n",
            Cause::NoSocket =>
                "custody: something else than a socket stands at the path of --socket\n",
            Cause::SocketNotPermitted => "custody: no permission to use the socket or its folder\n",
            Cause::Socket => {
                "custody: could not listen at the socket: its folder must exist, and its path have 1 to 107 bytes\n"
            }
            Cause::Accept => "custody: a connection could not be accepted\n",
            Cause::Clock => "custody: the clock could not be read, or it is out of range\n",
            Cause::Log => {
                "custody: the exchange log could not be written, so the service stops\n"
            }
            Cause::Moved => {
                "custody: the file at the path is gone or another one now, or its -wal is: put the right ones there before the next start\n"
            }
            Cause::Faults =>
                "custody: the file's tables have faults, so the service does not start:\n",
            Cause::SourceFaults => {
                "custody: the file's tables have faults, so nothing is copied:\n"
            }
            Cause::CopyFaults => {
                "custody: the tables of the --copied-to file have faults, so nothing is removed:\n"
            }
            Cause::NotCopied => {
                "custody: the --copied-to file does not hold the same organization, so nothing is removed\n"
            }
            Cause::Encoding => "custody: an argument is not UTF-8\n",
            Cause::NoNull =>
                "custody: a standard stream is closed, and /dev/null could not be opened\n",
        }
    }
}

/// What a file of another schema contains.
#[derive(Clone, Copy, PartialEq, Eq)]
pub enum OtherSchema {
    /// It has this schema version, an older one, which a command that only reads does not raise.
    Older(u64),
    /// It has this schema version, which is unknown here, or its tables are different.
    Version(u64),
    /// It has tables with our names, but no schema version.
    Unversioned,
}

/// Why a file was not opened.
#[derive(Clone, Copy, PartialEq, Eq)]
pub enum OpenFault {
    /// It has another schema.
    Schema(OtherSchema),
    /// An allocation or the store failed.
    Down(Cause),
    /// There was not enough memory to open a file of this many bytes.
    Memory(u64),
}
