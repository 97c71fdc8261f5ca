//! What a check over the tables of a file finds: faults, and how many rows there are.
ghost use Rattle.program.specs.Totals.{newest_word, totals_line};
ghost use Rattle.std.specs.Prelude.{OnOk};
ghost use Rattle.std.specs.Io.KnownBytes.{Appends};

use basis::{Items, Text};
use std::io;
use std::io::Write;

/// The numbers of rows in the tables of a file.
#[derive(Clone, Copy, PartialEq, Eq)]
pub struct Totals {
    pub organizations: u64,
    pub workspaces: u64,
    pub versions: u64,
    pub runs: u64,
    /// When the newest version was created, in seconds since 1970, if there is a version.
    pub newest: Option<u64>,
    /// How many versions the workspaces have had, those that are gone included; at most 2⁶⁴ - 1.
    pub made: u64,
}

/// What a check of a file's tables finds.
#[derive(Drop)]
pub struct Findings {
    /// One line per fault, without its line feed, at most 50.
    pub faults: Items<Text>,
    pub totals: Totals,
}

fn print_newest<O: Write>(output: &mut O, newest: Option<u64>) -> io::Result<()>
    ensures { OnOk result (Appends (O.contents output.old) (O.contents output.new) (newest_word newest)) }
{
    match newest {
        Some(seconds) => writeln!(output, " newest {seconds}"),
        None => output.write_all(b" newest -\n"),
    }
}

/// Prints them as one line, with its line feed.
pub fn print_totals<O: Write>(output: &mut O, totals: &Totals) -> io::Result<()>
    ensures { OnOk result (Appends (O.contents output.old) (O.contents output.new) (totals_line totals.now)) }
{
    write!(output, "organizations {}", totals.organizations)?;
    write!(output, " workspaces {}", totals.workspaces)?;
    write!(output, " versions {}", totals.versions)?;
    write!(output, " runs {}", totals.runs)?;
    write!(output, " made {}", totals.made)?;
    print_newest(output, totals.newest)
}
