//! The versions of a workspace.
ghost use Rattle.std.specs.Prelude.{◌≡◌, not, find, option_map, IfOk, map};
ghost use Rattle.std.specs.List.{list_all};
ghost use Rattle.checks.specs.Inner.Groups.{lent};
ghost use Rattle.checks.specs.Versions.{is_version, version_number, rises, reaches, sorted, are_versions};

use basis::numbers::{MAX_MOMENT, MAX_SERIAL};
use basis::rows::MAX_LINEAGE;
use basis::{Down, VersionRow};
use std::alloc::Global;

/// Whether these versions are lawful where so many are kept, and the next one has this number: their numbers
/// rise without a gap up to that, and each is in range.
pub fn are_versions(
    alloc: Global,
    versions: &[&VersionRow],
    retention: u32,
    next: u64,
) -> Result<bool, Down>
    ensures { IfOk result (λ lawful. lawful ≡ are_versions retention next (lent versions.now)) }
{
    let mut numbers = version_numbers(alloc, versions)?;
    sort(&mut numbers);
    let numbered = numbers.len() as u64 <= u64::from(retention)
        && rise(&numbers, next)
        && reach(&numbers, next);
    Ok(numbered && are_in_range(versions))
}

#[tactic(auto, using(crate::proofs::Lent::each_lent))]
fn version_numbers(alloc: Global, versions: &[&VersionRow]) -> Result<Vec<u64>, Down>
    ensures { IfOk result (λ ns. ns.items ≡ map version_number (lent versions.now)) }
{
    Ok(
        versions
            .iter()
            .map(|version| u64::from(version.number.get()))
            .collect(alloc)?,
    )
}

fn are_in_range(versions: &[&VersionRow]) -> bool
    ensures { result ≡ list_all (λ v. is_version v.now) versions.now }
{
    versions.iter().all(|version| is_version(version))
}

/// The number of the first version whose serial, lineage or moment is out of range.
pub fn unfit_version(versions: &[&VersionRow]) -> Option<u64>
    ensures { result ≡ option_map (λ v. v.now.number) (find (λ v. not (is_version v.now)) versions.now) }
{
    versions
        .iter()
        .find(|version| !is_version(version))
        .map(|version| u64::from(version.number.get()))
}

// Whether serial, lineage and moment are in range.
fn is_version(version: &VersionRow) -> bool
    ensures { result ≡ is_version version.now }
{
    version.serial.get() <= MAX_SERIAL
        && version.lineage.as_str().len() <= MAX_LINEAGE
        && version.created.seconds() <= MAX_MOMENT
}

/// Sorts numbers.
pub fn sort(numbers: &mut Vec<u64>)
    ensures { numbers.new.items ≡ sorted numbers.old.items }
{
    numbers.sort_unstable();
}

/// Whether numbers rise, above 0 and below `next`.
pub fn rise(numbers: &[u64], next: u64) -> bool
    ensures { result ≡ rises 0 numbers.now next }
{
    let mut low = 0;
    for number in numbers {
        if *number <= low || *number >= next {
            return false;
        }
        low = *number;
    }
    true
}

// Whether there are as many numbers, from the first one on, as reach up to `next`.
fn reach(numbers: &[u64], next: u64) -> bool
    ensures { result ≡ reaches numbers.now next }
{
    match numbers.first() {
        Some(first) => *first <= next && next - *first == numbers.len() as u64,
        None => true,
    }
}
