//! What the stories ask of stores, besides what the service asks of them.
use crate::failures::{Failure, compare_bytes};
use crate::keyed::Keyed;
use crate::plays::{Play, Question};
use crate::stopping::line_at;
use crate::taking::{Way, taken_to};
use basis::Down;
use machine::Keep;
use std::alloc::Global;

/// Makes stores.
pub trait Makes<K: Keep + Drop> {
    /// A store with no organization.
    fn made(&self, alloc: Global) -> Result<K, Down>;
}

/// Inspects the tables of stores. Each call gives the store back.
pub trait Inspects<K: Keep + Drop> {
    /// All contents of the tables, as bytes to compare. If `is_lawful` is set, the tables must obey their laws.
    fn recorded(
        &self,
        alloc: Global,
        keep: K,
        line: usize,
        is_lawful: bool,
    ) -> Result<(K, Vec<u8>), Failure>;

    /// That the tables answer a question as is due.
    fn asked(&self, alloc: Global, keep: K, question: &Question) -> Result<K, Failure>;
}

/// Takes a story's steps over these tables, which are asked what the story asks of tables with pages by this key.
pub fn played_over<K: Keep + Drop, L: Inspects<K>>(
    alloc: Global,
    inspects: &L,
    keep: K,
    play: &Play,
    keyed: Keyed,
    way: Way,
) -> Result<K, Failure> {
    let mut keep = keep;
    let mut from = 0;
    for question in play.questions.as_slice() {
        if question.keyed == keyed {
            keep = taken_to(alloc, keep, way, play, from, question.index)?;
            keep = inspects.asked(alloc, keep, question)?;
            from = question.index;
        }
    }
    taken_to(alloc, keep, way, play, from, play.steps.len())
}

/// Checks that the tables have what is due.
pub fn checked<K: Keep + Drop, L: Inspects<K>>(
    alloc: Global,
    inspects: &L,
    keep: K,
    line: usize,
    due: &[u8],
    is_lawful: bool,
) -> Result<K, Failure> {
    let (keep, found) = inspects.recorded(alloc, keep, line, is_lawful)?;
    match compare_bytes(alloc, line, due, found.as_slice()) {
        Ok(()) => Ok(keep),
        Err(failure) => Err(failure),
    }
}

// Adds the contents of the tables to those before.
fn record_next<K: Keep + Drop, L: Inspects<K>>(
    alloc: Global,
    inspects: &L,
    keep: K,
    line: usize,
    is_lawful: bool,
    records: &mut Vec<Vec<u8>>,
) -> Result<K, Failure> {
    let (keep, record) = inspects.recorded(alloc, keep, line, is_lawful)?;
    records.push(record)?;
    Ok(keep)
}

/// The contents of the tables before each of the story's own steps, and after the last.
pub fn records_of<K: Keep + Drop, L: Inspects<K>>(
    alloc: Global,
    inspects: &L,
    keep: K,
    play: &Play,
    way: Way,
    is_lawful: bool,
) -> Result<(K, Vec<Vec<u8>>), Failure> {
    let mut records = Vec::new(alloc);
    let mut keep = keep;
    for index in play.own..play.steps.len() {
        let line = line_at(play, index);
        keep = record_next(alloc, inspects, keep, line, is_lawful, &mut records)?;
        keep = taken_to(alloc, keep, way, play, index, index.saturating_add(1))?;
    }
    let keep = record_next(alloc, inspects, keep, 0, is_lawful, &mut records)?;
    Ok((keep, records))
}

/// What stood in the tables before the own step of this place.
pub fn record_at<'s>(records: &'s [Vec<u8>], play: &Play, index: usize) -> &'s [u8] {
    match records.get(index.saturating_sub(play.own)) {
        Some(record) => record.as_slice(),
        None => b"",
    }
}
