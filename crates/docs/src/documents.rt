//! States, lock information, settings and what creates a run, as `serde_json` reads them.
ghost use Rattle.std.specs.Prelude.{◌≡◌, ◌≢◌, ◌<◌, length, IfOk, OnOk, OnErr, Err, IsErrOf, IsSome, Some, None, codes};
ghost use Rattle.serde_json.specs.Data.{Members, object};
ghost use Rattle.serde_json.specs.Find.{get};
ghost use Rattle.serde_json.specs.View.{view};
ghost use Rattle.docs.specs.Readings.{StateLaw, LockLaw, SettingsLaw, AskLaw};
ghost use Rattle.docs.specs.Documents.{object_of, optional_text, state_head, lock_id_of, small_object_of, retention_of, settings_of, key_of, run_ask};

use crate::faults::DocFault;
use crate::flags::read_flag;
use crate::heads::read_head;
use crate::run_settings::read_run_settings;
use basis::rows::{MAX_KEY, MAX_MESSAGE};
use basis::{KeepCount, LockId, RunAsk, SettingsAsk, StateHead, Text, is_free_id};
use json::Scratch;
use serde_json::{Map, Value};
use std::alloc::Global;

/// The most bytes of settings, and of what the creation of a run asks.
pub const MAX_SMALL: usize = 16_384;

/// What custody reads of a Terraform state: a JSON object with `serial`, and with `lineage` or without.
#[tactic(auto, using(crate::proofs::Heading::none_found, crate::proofs::Heading::no_serial_found, crate::proofs::Heading::no_lineage_found, crate::proofs::Objects::some_bytes))]
pub fn read_state(alloc: Global, bytes: &[u8]) -> Result<StateHead, DocFault>
    ensures ok { IfOk result (λ head. state_head bytes.now ≡ Some head) }
    ensures bad { IsErrOf result DocFault.Bad → state_head bytes.now ≡ None }
    ensures down { IsErrOf result DocFault.Down → 0 < length bytes.now }
    ensures law { StateLaw bytes.now }
{
    let mut scratch = Scratch::new(alloc);
    let head = read_head(bytes, &mut scratch)?;
    let Some(serial) = head.serial() else {
        return Err(DocFault::Bad);
    };
    let Some(lineage) = head.lineage else {
        return Err(DocFault::Bad);
    };
    let lineage = Text::copy_of(alloc, lineage)?;
    Ok(StateHead { serial, lineage })
}

/// The ID of a lock, in the lock information of Terraform: a JSON object with `ID`.
#[tactic(auto, unfolding(crate::specs::Documents::lock_id_of))]
pub fn read_lock(alloc: Global, bytes: &[u8]) -> Result<LockId, DocFault>
    ensures ok { IfOk result (λ id. lock_id_of bytes.now ≡ Some id) }
    ensures bad { IsErrOf result DocFault.Bad → lock_id_of bytes.now ≡ None }
    ensures down { IsErrOf result DocFault.Down → 0 < length bytes.now }
    ensures law { LockLaw bytes.now }
{
    let value = read_object(alloc, bytes)?;
    match value.get("ID").and_then(Value::as_str) {
        Some(id) if is_free_id(id.as_bytes()) => Ok(LockId::read(alloc, id)?),
        _ => Err(DocFault::Bad),
    }
}

/// What is asked of a workspace's settings: no bytes, or a JSON object with what says how runs go and
/// `keep_versions`, each or none.
#[tactic(auto, unfolding(crate::specs::Documents::settings_of))]
pub fn read_settings(alloc: Global, bytes: &[u8]) -> Result<SettingsAsk, DocFault>
    ensures ok { IfOk result (λ settings. settings_of bytes.now ≡ Some settings) }
    ensures bad { IsErrOf result DocFault.Bad → settings_of bytes.now ≡ None }
    ensures down { IsErrOf result DocFault.Down → 0 < length bytes.now }
    ensures long { MAX_SMALL < length bytes.now → result ≡ Err DocFault.Bad }
    ensures law { SettingsLaw bytes.now }
{
    let value = read_small_object(alloc, bytes)?;
    let Some(runs) = read_run_settings(&value) else {
        return Err(DocFault::Bad);
    };
    let retention = read_retention(&value)?;
    Ok(SettingsAsk { runs, retention })
}

/// What the creation of a run asks: no bytes, or a JSON object with `key`, `message` and `plan_only`, each or none.
#[tactic(auto, unfolding(crate::specs::Documents::run_ask))]
pub fn read_run(alloc: Global, bytes: &[u8]) -> Result<RunAsk, DocFault>
    ensures ok { IfOk result (λ ask. run_ask bytes.now ≡ Some ask) }
    ensures bad { IsErrOf result DocFault.Bad → run_ask bytes.now ≡ None }
    ensures down { IsErrOf result DocFault.Down → 0 < length bytes.now }
    ensures long { MAX_SMALL < length bytes.now → result ≡ Err DocFault.Bad }
    ensures law { AskLaw bytes.now }
{
    let value = read_small_object(alloc, bytes)?;
    let Some(plan_only) = read_flag(&value, "plan_only") else {
        return Err(DocFault::Bad);
    };
    let key = read_key(alloc, &value)?;
    let message = read_text(alloc, &value, "message", MAX_MESSAGE)?;
    Ok(RunAsk {
        key,
        message,
        plan_only,
    })
}

// The object that the bytes are.
fn read_object(alloc: Global, bytes: &[u8]) -> Result<Value, DocFault>
    ensures ok { IfOk result (λ value. (members : Members) × (view value ≡ object members)
        × (object_of bytes.now ≡ Some members)) }
    ensures some { OnOk result (0 < length bytes.now) }
    ensures bad { IsErrOf result DocFault.Bad → object_of bytes.now ≡ None }
    ensures down { IsErrOf result DocFault.Down → 0 < length bytes.now }
{
    let value = Value::from_slice(alloc, bytes)?;
    if !value.is_object() {
        return Err(DocFault::Bad);
    }
    Ok(value)
}

// The object that a small request brings.
fn read_small_object(alloc: Global, bytes: &[u8]) -> Result<Value, DocFault>
    ensures ok { IfOk result (λ value. (members : Members) × (view value ≡ object members)
        × (small_object_of bytes.now ≡ Some members)) }
    ensures bad { IsErrOf result DocFault.Bad → small_object_of bytes.now ≡ None }
    ensures down { IsErrOf result DocFault.Down → 0 < length bytes.now }
    ensures long { MAX_SMALL < length bytes.now → result ≡ Err DocFault.Bad }
{
    if bytes.is_empty() {
        return Ok(Value::Object(Map::new(alloc)));
    }
    if bytes.len() > MAX_SMALL {
        return Err(DocFault::Bad);
    }
    read_object(alloc, bytes)
}

// How many versions are to be kept, which may be absent.
fn read_retention(value: &Value) -> Result<Option<KeepCount>, DocFault>
    ensures ok { IfOk result (λ retention. retention_of (get (codes "keep_versions") (view value.now)) ≡ Some retention) }
    ensures bad { OnErr result (retention_of (get (codes "keep_versions") (view value.now)) ≡ None) }
    ensures never_down { result ≢ Err DocFault.Down }
{
    let Some(found) = value.get("keep_versions") else {
        return Ok(None);
    };
    match found.as_u64().and_then(KeepCount::new) {
        Some(count) => Ok(Some(count)),
        None => Err(DocFault::Bad),
    }
}

// A run's key, which may be absent.
fn read_key(alloc: Global, value: &Value) -> Result<Option<Text>, DocFault>
    ensures ok { IfOk result (λ key. key_of (get (codes "key") (view value.now)) ≡ Some key) }
    ensures bad { IsErrOf result DocFault.Bad
        → key_of (get (codes "key") (view value.now)) ≡ None }
    ensures down { IsErrOf result DocFault.Down
        → IsSome (get (codes "key") (view value.now)) }
{
    let Some(found) = value.get("key") else {
        return Ok(None);
    };
    match found.as_str() {
        Some(key) if !key.is_empty() && key.len() <= MAX_KEY => {
            Ok(Some(Text::copy_of(alloc, key)?))
        }
        _ => Err(DocFault::Bad),
    }
}

// A text under a key that may be absent.
fn read_text(alloc: Global, value: &Value, key: &str, most: usize) -> Result<Text, DocFault>
    ensures ok { IfOk result
        (λ text. optional_text most (get key.now (view value.now)) ≡ Some text) }
    ensures bad { IsErrOf result DocFault.Bad
        → optional_text most (get key.now (view value.now)) ≡ None }
    ensures down { IsErrOf result DocFault.Down
        → IsSome (get key.now (view value.now)) }
{
    let Some(found) = value.get(key) else {
        return Ok(Text::new(String::new(alloc)));
    };
    match found.as_str() {
        Some(text) if text.len() <= most => Ok(Text::copy_of(alloc, text)?),
        _ => Err(DocFault::Bad),
    }
}
