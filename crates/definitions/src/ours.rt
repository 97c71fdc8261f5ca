//! Which of our tables a schema lacks, or defines differently.
ghost use Rattle.std.specs.Prelude.{◌≡◌, ◌↔◌, List, [], IfOk};
ghost use Rattle.std.specs.List.{AllByRecursion, AllZip};
ghost use Rattle.sqlite_schema.specs.declared.schema.Table.{Table};
ghost use Rattle.statements.specs.Inner.Making.{IsDefinedBy, texts_in};
ghost use Rattle.statements.specs.Tables.{our_tables, IsOurs};
ghost use Rattle.definitions.specs.Others.{IsOther, IsOwnOrNamed};

use crate::own::others_among;
use basis::{Down, Items as BasisItems, Text};
use sqlite_items::Items;
use sqlite_resolve::define_table;
use sqlite_schema::schema::{Schema, Table};
use statements::making::TABLE_TEXTS;
use std::alloc::Global;

/// The tables that these texts define.
fn defined_by(alloc: Global, texts: &[&str]) -> Result<Items<Table>, Down>
    ensures { (tables : List Table) → AllZip IsDefinedBy (texts_in texts.now) tables → IfOk result (λ made. made ≡ tables) }
{
    let mut made = Items::new(alloc);
    for text in texts {
        let Ok(table) = define_table(alloc, text.as_bytes()) else {
            return Err(Down);
        };
        made.push(table)?;
    }
    Ok(made)
}

/// Our tables, as their texts define them.
fn our_tables(alloc: Global) -> Result<Items<Table>, Down>
    ensures { IfOk result (λ tables. tables ≡ our_tables) }
{
    defined_by(alloc, TABLE_TEXTS)
}

/// The names of our tables that the schema lacks or defines differently, whatever else it has. Fails if
/// memory is refused.
pub fn others(alloc: Global, schema: &Schema) -> Result<BasisItems<Text>, Down>
    ensures none { IfOk result (λ names. (names ≡ []) ↔ IsOurs schema.now) }
    ensures named { IfOk result (AllByRecursion (IsOther schema.now our_tables)) }
    ensures every { IfOk result (λ names. AllByRecursion (IsOwnOrNamed schema.now names) our_tables) }
{
    let tables = our_tables(alloc)?;
    others_among(alloc, schema, tables.as_slice())
}
