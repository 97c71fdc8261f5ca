//! JSON that is put into its text token by token, so that no value is built for it.
ghost use Rattle.std.specs.Prelude.{◌≡◌, IfOk, OnOk};
ghost use Rattle.std.specs.Option.{option_copied};
ghost use Rattle.serde_json.specs.Data.{Members, member, boolean, string, array, object, no_items};
ghost use Rattle.basis.specs.Names.{run_id};
ghost use Rattle.docs.specs.Bodies.{number_value, text_value, objects};
ghost use Rattle.docs.specs.Inner.Put.{Puts, PutsValue, PutsItems, IsBegun, with_member, ahead, text_of, object_text};

use arrayvec::ArrayString;
use basis::{Down, Number};
use itoa::Buffer;
use json::Writer;
use std::alloc::{AllocError, Global};

// The text of an object, begun with room for so many bytes. A longer text takes more memory.
pub(crate) fn begin_text(alloc: Global, room: usize) -> Result<Writer, AllocError>
    ensures { IfOk result (λ writer. IsBegun writer) }
{
    let mut writer = Writer::new(Vec::with_capacity(alloc, room)?);
    writer.begin_object()?;
    Ok(writer)
}

// The whole text, its object ended.
pub(crate) fn end_text(writer: Writer) -> Result<Vec<u8>, AllocError>
    ensures { IfOk result (λ v. v.items ≡ text_of writer) }
{
    let mut writer = writer;
    writer.end_object()?;
    Ok(writer.into_inner())
}

// A member that is a text, or null.
pub(crate) fn put_text(
    writer: &mut Writer,
    name: &str,
    text: Option<&str>,
) -> Result<(), AllocError>
    ensures { OnOk result (Puts writer.old writer.new (member name.now (text_value (option_copied text.entry)))) }
{
    writer.key(name)?;
    match text {
        None => writer.null(),
        Some(text) => writer.string(text),
    }
}

// A member that is a number, or null.
pub(crate) fn put_number(
    writer: &mut Writer,
    name: &str,
    number: Option<u64>,
) -> Result<(), AllocError>
    ensures { OnOk result (Puts writer.old writer.new (member name.now (number_value number))) }
{
    writer.key(name)?;
    match number {
        None => writer.null(),
        Some(number) => writer.u64(number),
    }
}

// A number as it is put.
pub(crate) fn whole_number(number: Number) -> u64
    ensures { result ≡ number }
{
    u64::from(number.get())
}

// A member that is true or false.
#[tactic(auto, unfolding(crate::specs::Inner::Put::with_member))]
pub(crate) fn put_flag(writer: &mut Writer, name: &str, flag: bool) -> Result<(), AllocError>
    ensures puts { OnOk result (Puts writer.old writer.new (member name.now (boolean flag))) }
    ensures tokens { OnOk result (writer.new.tokens ≡ with_member writer.old.tokens name.now (boolean flag)) }
{
    writer.key(name)?;
    writer.boolean(flag)
}

// The most bytes of a run's ID: `run-` and the digits of a number.
const MAX_RUN_ID: usize = 14;

// A member that is the ID by which a run holds: `run-n`.
#[tactic(auto, unfolding(basis::specs::Names::run_id))]
pub(crate) fn put_run_id(writer: &mut Writer, name: &str, number: Number) -> Result<(), AllocError>
    ensures { OnOk result (Puts writer.old writer.new (member name.now (string (run_id number)))) }
{
    let mut digits = Buffer::new();
    let mut id: ArrayString<MAX_RUN_ID> = ArrayString::new();
    id.push_str("run-");
    id.push_str(digits.format(number.get()));
    put_text(writer, name, Some(id.as_str()))
}

/// What a body shows, alone or in a list: an object, whose members are put one behind another.
pub(crate) trait Shown {
    // Its members.
    ghost members: { Self → Members };

    fn put(&self, writer: &mut Writer) -> Result<(), AllocError>
        ensures { OnOk result (Puts writer.old writer.new (ahead (members self.now))) };
}

// The body that shows one thing, begun with room for so many bytes.
pub(crate) fn write_shown<T: Shown>(alloc: Global, room: usize, shown: &T) -> Result<Vec<u8>, Down>
    ensures { IfOk result (λ v. v.items ≡ object_text (T.members shown.now)) }
{
    let mut writer = begin_text(alloc, room)?;
    shown.put(&mut writer)?;
    Ok(end_text(writer)?)
}

// The object of one row.
fn put_object<T: Shown>(writer: &mut Writer, row: &T) -> Result<(), AllocError>
    ensures { OnOk result (PutsValue writer.old writer.new (object (T.members row.now))) }
{
    writer.begin_object()?;
    row.put(writer)?;
    writer.end_object()
}

// The objects of rows.
fn put_objects<T: Shown>(writer: &mut Writer, rows: &[T]) -> Result<(), AllocError>
    ensures { OnOk result (PutsItems writer.old writer.new (objects T.members rows.now) no_items) }
{
    for row in rows {
        put_object(writer, row)?;
    }
    Ok(())
}

// A member that is a list: the object of each row.
pub(crate) fn put_list<T: Shown>(
    writer: &mut Writer,
    name: &str,
    rows: &[T],
) -> Result<(), AllocError>
    ensures { OnOk result (Puts writer.old writer.new (member name.now (array (objects T.members rows.now)))) }
{
    writer.key(name)?;
    writer.begin_array()?;
    put_objects(writer, rows)?;
    writer.end_array()
}
