//! Whether a schema has tables as they are defined.
ghost use Rattle.std.specs.Prelude.{◌≡◌, ◌↔◌, [], IsTrue, IfOk, OnOk};
ghost use Rattle.std.specs.List.{AllByRecursion};
ghost use Rattle.statements.specs.Place.{tree_of, IsOwn};
ghost use Rattle.definitions.specs.Others.{IsOther, IsOwnOrNamed};
ghost use Rattle.definitions.specs.Inner.{IsFound, IsFirst, IsKept, NamesOther};

use crate::alike::{are_alike, same_references};
use basis::{Down, Items, Text};
use sqlite_schema::schema::{Reference, Schema, Table};
use std::alloc::{AllocError, Global};

/// Trees with smaller numbers are those of tables that the database stores.
const COMPUTED: u32 = 2147483648;

/// The tree of the schema's table with this table's name: the number of the B-tree that stores its rows. 0 if
/// there is no such table.
fn tree_of(schema: &Schema, table: &Table) -> u32
    ensures { result ≡ tree_of schema.now table.now.name }
{
    let at = schema.table_named(table.name.as_slice()).unwrap_or(0);
    match schema.tables.as_slice().get(at) {
        Some(found) => found.tree,
        None => 0,
    }
}

/// Whether the schema's table with this name has the same definition.
fn is_found(alloc: Global, schema: &Schema, table: &Table) -> Result<bool, AllocError>
    ensures { IfOk result (λ yes. IsTrue yes ↔ IsFound schema.now table.now) }
{
    match schema.table_named(table.name.as_slice()) {
        Some(at) => match schema.tables.as_slice().get(at) {
            Some(found) => are_alike(alloc, found, table),
            None => Ok(false),
        },
        None => Ok(false),
    }
}

/// Whether the first table with this tree has the same definition as this one.
fn is_first(alloc: Global, tables: &[Table], tree: u32, table: &Table) -> Result<bool, AllocError>
    ensures { IfOk result (λ yes. IsTrue yes ↔ IsFirst tables.now tree table.now) }
{
    match tables {
        [] => Ok(false),
        [first, tables @ ..] => {
            if first.tree == tree {
                are_alike(alloc, first, table)
            } else {
                is_first(alloc, tables, tree, table)
            }
        }
    }
}

fn refers_alike(table: &Table, tree: u32, references: &[Reference]) -> bool
    ensures { IsTrue result ↔ (table.now.tree ≡ tree → table.now.references ≡ references.now) }
{
    table.tree != tree || same_references(table.references.as_slice(), references)
}

/// Whether every table with this tree has these references.
fn refer_alike(tables: &[Table], tree: u32, references: &[Reference]) -> bool
    ensures { IsTrue result ↔ AllByRecursion (λ t. t.tree ≡ tree → t.references ≡ references.now) tables.now }
{
    match tables {
        [] => true,
        [table, tables @ ..] => {
            refers_alike(table, tree, references) && refer_alike(tables, tree, references)
        }
    }
}

/// Whether the first table with the tree of the schema's table of this name has the same definition.
fn is_treed(alloc: Global, schema: &Schema, table: &Table) -> Result<bool, AllocError>
    ensures { IfOk result (λ yes. IsTrue yes ↔ IsFirst schema.now.tables (tree_of schema.now table.now.name) table.now) }
{
    is_first(
        alloc,
        schema.tables.as_slice(),
        tree_of(schema, table),
        table,
    )
}

/// Whether that tree is not the tree of a computed table.
fn is_kept(schema: &Schema, table: &Table) -> bool
    ensures { IsTrue result ↔ IsKept (tree_of schema.now table.now.name) }
{
    tree_of(schema, table) < COMPUTED
}

/// Whether every table with that tree has the references of this one.
fn has_references(schema: &Schema, table: &Table) -> bool
    ensures { IsTrue result ↔ AllByRecursion (λ t. t.tree ≡ tree_of schema.now table.now.name → t.references ≡ table.now.references) schema.now.tables }
{
    let tree = tree_of(schema, table);
    refer_alike(schema.tables.as_slice(), tree, table.references.as_slice())
}

/// Whether the schema has the table as it is defined.
fn is_own(alloc: Global, schema: &Schema, table: &Table) -> Result<bool, AllocError>
    ensures { IfOk result (λ yes. IsTrue yes ↔ IsOwn schema.now table.now) }
{
    if !is_found(alloc, schema, table)? {
        return Ok(false);
    }
    if !is_treed(alloc, schema, table)? {
        return Ok(false);
    }
    Ok(is_kept(schema, table) && has_references(schema, table))
}

/// Adds the table's name if the schema lacks it or defines it differently.
fn name_other(
    alloc: Global,
    schema: &Schema,
    table: &Table,
    names: &mut Items<Text>,
) -> Result<(), Down>
    ensures { OnOk result (NamesOther schema.now table.now names.old names.new) }
{
    if is_own(alloc, schema, table)? {
        return Ok(());
    }
    let Ok(name) = str::from_utf8(table.name.as_slice()) else {
        return Err(Down);
    };
    names.push(Text::copy_of(alloc, name)?)
}

/// The names of those of these tables that the schema lacks or defines differently. Fails if memory is
/// refused.
pub fn others_among(alloc: Global, schema: &Schema, tables: &[Table]) -> Result<Items<Text>, Down>
    ensures none { IfOk result (λ names. (names ≡ []) ↔ AllByRecursion (IsOwn schema.now) tables.now) }
    ensures named { IfOk result (AllByRecursion (IsOther schema.now tables.now)) }
    ensures every { IfOk result (λ names. AllByRecursion (IsOwnOrNamed schema.now names) tables.now) }
{
    let mut names = Items::new(Vec::new(alloc));
    for table in tables {
        name_other(alloc, schema, table, &mut names)?;
    }
    Ok(names)
}
