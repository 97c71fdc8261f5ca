//! The bodies that the service writes.
ghost use Rattle.std.specs.Prelude.{◌≡◌, IfOk, OnOk, codes};
ghost use Rattle.serde_json.specs.Data.{member};
ghost use Rattle.docs.specs.Bodies.{error_members, error_text, holder_value, ws_members, ws_text, version_members, run_members, run_text, run_holder_members, run_holder_text};
ghost use Rattle.docs.specs.Inner.Put.{Puts, ahead};

use crate::put::{
    Shown, begin_text, end_text, put_flag, put_number, put_run_id, put_text, whole_number,
    write_shown,
};
use crate::run_settings::put_run_settings;
use basis::{
    Down, HolderId, Number, OrgName, Refusal, RunAction, RunRow, Text, VersionRow, WsName, WsRow,
};
use json::Writer;
use std::alloc::{AllocError, Global};

// A body that shows one thing mostly fits this; a longer one takes more memory.
const USUAL_BODY: usize = 512;

/// The body of a refusal: its word.
#[tactic(auto, unfolding(crate::specs::Bodies::error_text, crate::specs::Inner::Put::object_text))]
pub fn write_error(alloc: Global, refusal: Refusal) -> Result<Vec<u8>, Down>
    ensures { IfOk result (λ v. v.items ≡ error_text refusal) }
{
    write_shown(alloc, USUAL_BODY, &refusal)
}

/// A workspace as it is shown.
#[tactic(auto, unfolding(crate::specs::Bodies::ws_text, crate::specs::Inner::Put::object_text))]
pub fn write_ws(alloc: Global, row: &WsRow) -> Result<Vec<u8>, Down>
    ensures { IfOk result (λ v. v.items ≡ ws_text row.now) }
{
    write_shown(alloc, USUAL_BODY, row)
}

/// A run as it is shown.
#[tactic(auto, unfolding(crate::specs::Bodies::run_text, crate::specs::Inner::Put::object_text))]
pub fn write_run(alloc: Global, row: &RunRow) -> Result<Vec<u8>, Down>
    ensures { IfOk result (λ v. v.items ≡ run_text row.now) }
{
    write_shown(alloc, USUAL_BODY, row)
}

/// A run that holds a workspace, as lock information of Terraform.
pub fn write_run_holder(
    alloc: Global,
    org: &OrgName,
    ws: &WsName,
    number: Number,
) -> Result<Vec<u8>, Down>
    ensures { IfOk result (λ v. v.items ≡ run_holder_text org.now ws.now number) }
{
    let mut writer = begin_text(alloc, USUAL_BODY)?;
    put_run_holder(&mut writer, org, ws, number)?;
    Ok(end_text(writer)?)
}

impl Shown for Refusal {
    ghost members = { error_members };

    fn put(&self, writer: &mut Writer) -> Result<(), AllocError> {
        put_text(writer, "error", Some(self.word()))
    }
}

impl Shown for WsRow {
    ghost members = { ws_members };

    fn put(&self, writer: &mut Writer) -> Result<(), AllocError> {
        put_run_settings(writer, self.settings.runs)?;
        put_holder(writer, &self.holder)?;
        let retention = u64::from(self.settings.retention.get());
        put_number(writer, "keep_versions", Some(retention))?;
        put_text(writer, "name", Some(self.name.as_str()))?;
        put_number(writer, "version", self.version.map(whole_number))
    }
}

impl Shown for VersionRow {
    ghost members = { version_members };

    fn put(&self, writer: &mut Writer) -> Result<(), AllocError> {
        put_number(writer, "created", Some(self.created.seconds()))?;
        put_text(writer, "lineage", Some(self.lineage.as_str()))?;
        put_number(writer, "number", Some(whole_number(self.number)))?;
        put_number(writer, "serial", Some(self.serial.get()))?;
        put_number(writer, "size", Some(self.size))
    }
}

impl Shown for RunRow {
    ghost members = { run_members };

    fn put(&self, writer: &mut Writer) -> Result<(), AllocError> {
        put_text(writer, "action", self.action.map(RunAction::word))?;
        put_number(writer, "created", Some(self.created.seconds()))?;
        put_text(writer, "key", self.key.as_ref().map(Text::as_str))?;
        put_text(writer, "message", Some(self.message.as_str()))?;
        put_number(writer, "number", Some(whole_number(self.number)))?;
        put_flag(writer, "plan_only", self.plan_only)?;
        put_text(writer, "status", Some(self.status.word()))
    }
}

// The member of a workspace that says who holds it.
fn put_holder(writer: &mut Writer, holder: &Option<HolderId>) -> Result<(), AllocError>
    ensures { OnOk result (Puts writer.old writer.new (member (codes "holder") (holder_value holder.now))) }
{
    match holder {
        None => put_text(writer, "holder", None),
        Some(HolderId::Lock(id)) => put_text(writer, "holder", Some(id.as_str())),
        Some(HolderId::Run(number)) => put_run_id(writer, "holder", *number),
    }
}

// The members of lock information that names a run.
fn put_run_holder(
    writer: &mut Writer,
    org: &OrgName,
    ws: &WsName,
    number: Number,
) -> Result<(), AllocError>
    ensures { OnOk result (Puts writer.old writer.new (ahead (run_holder_members org.now ws.now number))) }
{
    put_run_id(writer, "ID", number)?;
    put_text(writer, "Info", Some(""))?;
    put_text(writer, "Operation", Some("run"))?;
    put_text(writer, "Path", Some(ws.as_str()))?;
    put_text(writer, "Version", Some(""))?;
    put_text(writer, "Who", Some(org.as_str()))
}
