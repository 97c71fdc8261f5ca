//! Names, IDs and secrets.
ghost use Rattle.std.specs.Prelude.{◌≡◌, ◌↔◌, ℕ, List, [], false, IsTrue, Some, None, cond, IfOk, IsErrOf, string_bytes, bytes_eq, decimal};
ghost use Rattle.std.specs.List.{list_all};
ghost use Rattle.std.specs.Char.{is_ascii_alphanumeric};
ghost use Rattle.basis.specs.Names.{is_org_name, is_org_byte, is_ws_name, is_ws_byte, is_prefix, admits, is_lock_id, is_free_id, run_id, is_secret, has_length};

use crate::memory::Unfit;
use crate::numbers::Number;
use itoa::Buffer;
use std::alloc::{AllocError, Global};
use std::marker::Model;

/// The most bytes of an organization's name, and of a token's.
pub const MAX_ORG_NAME: usize = 40;

/// The most bytes of a workspace's name.
pub const MAX_WS_NAME: usize = 90;

/// The most bytes of a prefix of workspaces' names.
pub const MAX_PREFIX: usize = 90;

/// The most bytes of a lock's ID.
pub const MAX_LOCK_ID: usize = 128;

/// The least bytes of a token's secret.
pub const MIN_SECRET: usize = 16;

/// The most bytes of a token's secret.
pub const MAX_SECRET: usize = 64;

/// How the ID of a run begins, and that of no lock.
const RUN_PREFIX: &[u8] = b"run-";

/// An organization's name, or a token's: 1 to 40 bytes of `a`-`z`, `0`-`9` and `-`, the first a letter.
#[derive(Clone, Drop)]
pub struct OrgName {
    text: String,
}

impl Model for OrgName {
    ghost Value = { List ℕ };

    ghost view = { λ name. string_bytes name.text };

    ghost invariant = { λ name. IsTrue (is_org_name (string_bytes name.text)) };
}

impl OrgName {
    pub fn read(alloc: Global, text: &str) -> Result<OrgName, Unfit>
        ensures ok { IfOk result (λ name. name ≡ text.now) }
        ensures syntax { IsErrOf result Unfit.Syntax ↔ (is_org_name text.now ≡ false) }
        ensures fits { IfOk result (λ name. IsTrue (is_org_name name)) }
    {
        if !is_org_name(text.as_bytes()) {
            return Err(Unfit::Syntax);
        }
        let text = String::from_str(alloc, text)?;
        Ok(OrgName { text })
    }

    pub fn as_str(&self) -> &str
        ensures text { result.now ≡ self.now }
        ensures fits { IsTrue (is_org_name self.now) }
    {
        self.text.as_str()
    }
}

/// A workspace's name: 1 to 90 ASCII letters, digits, `-` and `_`.
#[derive(Clone, Drop)]
pub struct WsName {
    text: String,
}

impl Model for WsName {
    ghost Value = { List ℕ };

    ghost view = { λ name. string_bytes name.text };

    ghost invariant = { λ name. IsTrue (is_ws_name (string_bytes name.text)) };
}

impl WsName {
    pub fn read(alloc: Global, text: &str) -> Result<WsName, Unfit>
        ensures ok { IfOk result (λ name. name ≡ text.now) }
        ensures syntax { IsErrOf result Unfit.Syntax ↔ (is_ws_name text.now ≡ false) }
        ensures fits { IfOk result (λ name. IsTrue (is_ws_name name)) }
    {
        if !is_ws_name(text.as_bytes()) {
            return Err(Unfit::Syntax);
        }
        let text = String::from_str(alloc, text)?;
        Ok(WsName { text })
    }

    /// The same of a text that is taken whole: none where it is no name.
    pub fn from_string(text: String) -> Option<WsName>
        ensures { result ≡ cond (is_ws_name (string_bytes text)) (Some (string_bytes text)) None }
    {
        if is_ws_name(text.as_bytes()) {
            Some(WsName { text })
        } else {
            None
        }
    }

    pub fn as_str(&self) -> &str
        ensures text { result.now ≡ self.now }
        ensures fits { IsTrue (is_ws_name self.now) }
    {
        self.text.as_str()
    }
}

/// How the names of the workspaces begin that a token counts for: 0 to 90 ASCII letters, digits, `-`
/// and `_`. The empty prefix is every workspace.
#[derive(Clone, Drop)]
pub struct WsPrefix {
    text: String,
}

impl Model for WsPrefix {
    ghost Value = { List ℕ };

    ghost view = { λ prefix. string_bytes prefix.text };

    ghost invariant = { λ prefix. IsTrue (is_prefix (string_bytes prefix.text)) };
}

impl WsPrefix {
    /// The empty prefix.
    pub fn new(alloc: Global) -> WsPrefix
        ensures { result ≡ [] }
    {
        WsPrefix {
            text: String::new(alloc),
        }
    }

    pub fn read(alloc: Global, text: &str) -> Result<WsPrefix, Unfit>
        ensures ok { IfOk result (λ prefix. prefix ≡ text.now) }
        ensures syntax { IsErrOf result Unfit.Syntax ↔ (is_prefix text.now ≡ false) }
        ensures fits { IfOk result (λ prefix. IsTrue (is_prefix prefix)) }
    {
        if !is_prefix(text.as_bytes()) {
            return Err(Unfit::Syntax);
        }
        let text = String::from_str(alloc, text)?;
        Ok(WsPrefix { text })
    }

    /// The same of a text that is taken whole: none where it is no prefix.
    pub fn from_string(text: String) -> Option<WsPrefix>
        ensures { result ≡ cond (is_prefix (string_bytes text)) (Some (string_bytes text)) None }
    {
        if is_prefix(text.as_bytes()) {
            Some(WsPrefix { text })
        } else {
            None
        }
    }

    pub fn as_str(&self) -> &str
        ensures text { result.now ≡ self.now }
        ensures fits { IsTrue (is_prefix self.now) }
    {
        self.text.as_str()
    }

    /// Whether a workspace of this name is one of those: the name begins with the prefix, byte for byte.
    pub fn admits(&self, name: &str) -> bool
        ensures { result ≡ admits self.now name.now }
    {
        name.as_bytes().starts_with(self.text.as_bytes())
    }
}

/// The ID of a lock: 1 to 128 bytes of text.
#[derive(Clone, Drop)]
pub struct LockId {
    text: String,
}

impl Model for LockId {
    ghost Value = { List ℕ };

    ghost view = { λ id. string_bytes id.text };

    ghost invariant = { λ id. IsTrue (is_lock_id (string_bytes id.text)) };
}

impl LockId {
    pub fn read(alloc: Global, text: &str) -> Result<LockId, Unfit>
        ensures ok { IfOk result (λ id. id ≡ text.now) }
        ensures syntax { IsErrOf result Unfit.Syntax ↔ (is_lock_id text.now ≡ false) }
        ensures fits { IfOk result (λ id. IsTrue (is_lock_id id)) }
    {
        if !is_lock_id(text.as_bytes()) {
            return Err(Unfit::Syntax);
        }
        let text = String::from_str(alloc, text)?;
        Ok(LockId { text })
    }

    /// The same of a text that is taken whole: none where it is no ID.
    pub fn from_string(text: String) -> Option<LockId>
        ensures { result ≡ cond (is_lock_id (string_bytes text)) (Some (string_bytes text)) None }
    {
        if is_lock_id(text.as_bytes()) {
            Some(LockId { text })
        } else {
            None
        }
    }

    pub fn as_str(&self) -> &str
        ensures { result.now ≡ self.now }
    {
        self.text.as_str()
    }
}

/// A token's secret: 16 to 64 ASCII letters or digits.
#[derive(Drop)]
pub struct Secret {
    text: String,
}

impl Model for Secret {
    ghost Value = { List ℕ };

    ghost view = { λ secret. string_bytes secret.text };

    ghost invariant = { λ secret. IsTrue (is_secret (string_bytes secret.text)) };
}

impl Secret {
    pub fn read(alloc: Global, text: &str) -> Result<Secret, Unfit>
        ensures ok { IfOk result (λ secret. secret ≡ text.now) }
        ensures syntax { IsErrOf result Unfit.Syntax ↔ (is_secret text.now ≡ false) }
        ensures fits { IfOk result (λ secret. IsTrue (is_secret secret)) }
    {
        if !is_secret(text.as_bytes()) {
            return Err(Unfit::Syntax);
        }
        let text = String::from_str(alloc, text)?;
        Ok(Secret { text })
    }

    pub fn as_str(&self) -> &str
        ensures { result.now ≡ self.now }
    {
        self.text.as_str()
    }
}

/// Whether a lock may have this ID: 1 to 128 bytes that don't begin with `run-`.
pub fn is_free_id(id: &[u8]) -> bool
    ensures { result ≡ is_free_id id.now }
{
    is_lock_id(id) && !id.starts_with(RUN_PREFIX)
}

/// Whether the run of a number holds a workspace by this ID, `run-` and the number. It takes no memory.
pub fn is_run_id(number: Number, id: &str) -> bool
    ensures { result ≡ bytes_eq id.now (run_id number) }
{
    match id.as_bytes().strip_prefix(RUN_PREFIX) {
        Some(digits) => are_digits_of(number, digits),
        None => false,
    }
}

fn are_digits_of(number: Number, digits: &[u8]) -> bool
    ensures { result ≡ bytes_eq digits.now (decimal number) }
{
    digits == Buffer::new().format(number.get()).as_bytes()
}

fn is_org_name(text: &[u8]) -> bool
    ensures { result ≡ is_org_name text.now }
{
    has_length(text, 1, MAX_ORG_NAME)
        && all_org_bytes(text)
        && text.first().is_some_and(|b| b.is_ascii_lowercase())
}

fn all_org_bytes(text: &[u8]) -> bool
    ensures { result ≡ list_all is_org_byte text.now }
{
    text.iter().all(|b| is_org_byte(*b))
}

fn is_org_byte(b: u8) -> bool
    ensures { result ≡ is_org_byte b }
{
    b.is_ascii_lowercase() || b.is_ascii_digit() || b == b'-'
}

fn is_ws_name(text: &[u8]) -> bool
    ensures { result ≡ is_ws_name text.now }
{
    has_length(text, 1, MAX_WS_NAME) && all_ws_bytes(text)
}

fn all_ws_bytes(text: &[u8]) -> bool
    ensures { result ≡ list_all is_ws_byte text.now }
{
    text.iter().all(|b| is_ws_byte(*b))
}

fn is_ws_byte(b: u8) -> bool
    ensures { result ≡ is_ws_byte b }
{
    b.is_ascii_alphanumeric() || b == b'-' || b == b'_'
}

fn is_prefix(text: &[u8]) -> bool
    ensures { result ≡ is_prefix text.now }
{
    has_length(text, 0, MAX_PREFIX) && all_ws_bytes(text)
}

fn is_lock_id(text: &[u8]) -> bool
    ensures { result ≡ is_lock_id text.now }
{
    has_length(text, 1, MAX_LOCK_ID)
}

fn is_secret(text: &[u8]) -> bool
    ensures { result ≡ is_secret text.now }
{
    has_length(text, MIN_SECRET, MAX_SECRET) && all_alphanumeric(text)
}

fn all_alphanumeric(text: &[u8]) -> bool
    ensures { result ≡ list_all is_ascii_alphanumeric text.now }
{
    text.iter().all(|b| b.is_ascii_alphanumeric())
}

fn has_length(text: &[u8], least: usize, most: usize) -> bool
    ensures { result ≡ has_length least most text.now }
{
    least <= text.len() && text.len() <= most
}
