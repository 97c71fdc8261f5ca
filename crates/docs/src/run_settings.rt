//! What says how the runs of a workspace go: how a document asks for it, and how it is shown.
ghost use Rattle.std.specs.Prelude.{◌≡◌, OnOk};
ghost use Rattle.serde_json.specs.Data.{Members, object, no_members};
ghost use Rattle.serde_json.specs.View.{view};
ghost use Rattle.docs.specs.RunSettings.{run_settings_in, run_settings_members};
ghost use Rattle.docs.specs.Inner.Put.{with_members};

use crate::flags::read_flag;
use crate::put::put_flag;
use basis::RunSettings;
use json::Writer;
use serde_json::Value;
use std::alloc::AllocError;

// What an object asks: each setting may be absent.
pub(crate) fn read_run_settings(value: &Value) -> Option<RunSettings>
    ensures { (members : Members) → view value.now ≡ object members → result ≡ run_settings_in members }
{
    let auto_apply = read_flag(value, "auto_apply")?;
    Some(RunSettings { auto_apply })
}

// The members of a workspace that show it.
pub(crate) fn put_run_settings(writer: &mut Writer, runs: RunSettings) -> Result<(), AllocError>
    ensures before { OnOk result (writer.new.before ≡ writer.old.before) }
    ensures tokens { OnOk result (writer.new.tokens ≡ with_members writer.old.tokens (run_settings_members runs no_members)) }
{
    put_flag(writer, "auto_apply", runs.auto_apply)?;
    Ok(())
}
