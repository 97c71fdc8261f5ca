//! What a message asks, and the query of its target.
ghost use Rattle.std.specs.Prelude.{◌≡◌, ◌≢◌, IfOk, IfErr, option_map, false, Some, None, OnOk, IsSome};
ghost use Rattle.std.specs.Cow.{cow_str_bytes};
ghost use Rattle.basis.specs.Inner.Checks.{Follows};
ghost use Rattle.basis.specs.Checks.{or_refused};
ghost use Rattle.route.specs.Asks.{asked_of, asked_read, with_query, query_text, is_bodyless, asks, refused};
ghost use Rattle.route.specs.Inner.Checks.{now_of};
ghost use Rattle.route.specs.Inner.Kinds.{pairs_of, asked_found};
ghost use Rattle.route.specs.Inner.Pairs.{has_room, AddsPair};
ghost use Rattle.route.specs.Queries.{query_read, lock_id_read, after_read, name_after, listed_from, number_after, ws_begun_after};

use crate::routes::{Asked, AskedAct, Found, Routes, act_named, read_org};
use crate::tokens::read_bearer_token;
use basis::numbers::{MAX_NUMBER, whole_number};
use basis::{Bytes, LockId, OrgName, Query, Refusal, Text, Unfit, WsAct, WsName};
use std::alloc::Global;
use std::borrow::CowStr;
use wire::Message;

/// What a message asks, or the refusal of the first check that fails: the route, its method, the query,
/// the token's form and its text. `Unavailable` is want of memory.
pub fn asked(alloc: Global, routes: &Routes, message: &Message) -> Result<Asked, Refusal>
    ensures ok { IfOk result (λ asked. asked_of message.now ≡ asks asked) }
    ensures err { IfErr result (λ refusal. refusal ≢ Refusal.Unavailable → asked_of message.now ≡ refused refusal) }
{
    asked_read(alloc, routes, message)
}

fn asked_read(alloc: Global, routes: &Routes, message: &Message) -> Result<Asked, Refusal>
    ensures { Follows result (asked_read message.now) }
{
    match routes.find(message.path.as_str()) {
        Some(found) => asked_at(alloc, message, &found),
        None => Err(Refusal::NoRoute),
    }
}

// What a message asks of what its route names.
fn asked_at(alloc: Global, message: &Message, found: &Found<'_, '_>) -> Result<Asked, Refusal>
    ensures { Follows result (asked_found message.now found.now.kind (pairs_of found.now.params)) }
{
    let org = read_org(alloc, found.part("org"))?;
    let bodyless = is_bodyless(message.body.as_slice());
    let act = act_named(alloc, found, message.method.as_str(), bodyless)?;
    let query = read_query(alloc, query_bytes(&message.query))?;
    with_query(alloc, &message.authorization, org, act, query)
}

// An act of an organization, with what the query and the token say.
fn with_query(
    alloc: Global,
    authorization: &Option<Bytes>,
    org: OrgName,
    act: AskedAct,
    found: UrlQuery,
) -> Result<Asked, Refusal>
    ensures { Follows result (with_query authorization.now org act found) }
{
    let lock_id = lock_id_in(alloc, found.id)?;
    let act = begin_after(alloc, act, found.after)?;
    let token = read_bearer_token(alloc, field_bytes(authorization), text_bytes(&found.token))?;
    Ok(Asked {
        caller: token.org,
        secret: token.secret,
        org,
        act,
        lock_id,
    })
}

// Whether nothing follows the head.
fn is_bodyless(body: &[u8]) -> bool
    ensures { result ≡ is_bodyless body.now }
{
    match body {
        [] => true,
        [_, ..] => false,
    }
}

fn query_bytes(query: &Option<Text>) -> &[u8]
    ensures { result.now ≡ query_text query.now }
{
    match query {
        Some(text) => text.as_str().as_bytes(),
        None => b"",
    }
}

fn field_bytes(field: &Option<Bytes>) -> Option<&[u8]>
    ensures { option_map now_of result ≡ field.now }
{
    match field {
        Some(bytes) => Some(bytes.as_slice()),
        None => None,
    }
}

fn text_bytes(text: &Option<Text>) -> Option<&[u8]>
    ensures { option_map now_of result ≡ text.now }
{
    match text {
        Some(text) => Some(text.as_str().as_bytes()),
        None => None,
    }
}

/// The key of a bearer token (RFC 6750, section 2.3).
const TOKEN_KEY: &str = "access_token";

/// The key of the ID of a held lock (Terraform, backend 'http').
const ID_KEY: &str = "ID";

/// The key of the item after which a list begins.
const AFTER_KEY: &str = "after";

/// The values of the keys that have a use.
#[derive(Drop)]
pub struct UrlQuery {
    /// `access_token`: a bearer token.
    pub token: Option<Text>,
    /// `ID`: the lock that the sender says it has.
    pub id: Option<Text>,
    /// `after`: the item after which a list begins.
    pub after: Option<Text>,
}

/// The values of the keys that have a use; none of these keys comes twice.
fn read_query(alloc: Global, query: &[u8]) -> Result<UrlQuery, Refusal>
    ensures { Follows result (query_read query.now) }
{
    let mut found = UrlQuery {
        token: None,
        id: None,
        after: None,
    };
    for pair in form_urlencoded::parse(alloc, query) {
        let Ok((name, value)) = pair else {
            return Err(Refusal::Unavailable);
        };
        add_decoded_pair(alloc, &mut found, name, value)?;
    }
    Ok(found)
}

// One more pair of the query, decoded.
fn add_decoded_pair(
    alloc: Global,
    found: &mut UrlQuery,
    name: CowStr<'_>,
    value: CowStr<'_>,
) -> Result<(), Refusal>
    ensures ok { OnOk result (AddsPair (cow_str_bytes name.entry) (cow_str_bytes value.entry) found.old found.new) }
    ensures twice { IfErr result (λ refusal. refusal ≢ Refusal.Unavailable → (refusal ≡ Refusal.BadQuery) × (has_room (cow_str_bytes name.entry) (cow_str_bytes value.entry) found.old ≡ false)) }
{
    add_pair(alloc, found, &name, &value)
}

// One more pair of the query.
fn add_pair(alloc: Global, found: &mut UrlQuery, name: &str, value: &str) -> Result<(), Refusal>
    ensures ok { OnOk result (AddsPair name.now value.now found.old found.new) }
    ensures twice { IfErr result (λ refusal. refusal ≢ Refusal.Unavailable → (refusal ≡ Refusal.BadQuery) × (has_room name.now value.now found.old ≡ false)) }
{
    if name == TOKEN_KEY {
        return put(alloc, &mut found.token, value);
    }
    if name == ID_KEY {
        return put(alloc, &mut found.id, value);
    }
    if name == AFTER_KEY {
        return put(alloc, &mut found.after, value);
    }
    Ok(())
}

// A value for a key that has none so far.
fn put(alloc: Global, slot: &mut Option<Text>, value: &str) -> Result<(), Refusal>
    ensures ok { OnOk result ((slot.old ≡ None) × (slot.new ≡ Some value.now)) }
    ensures twice { IfErr result (λ refusal. refusal ≢ Refusal.Unavailable → (refusal ≡ Refusal.BadQuery) × IsSome slot.old) }
{
    if slot.is_some() {
        return Err(Refusal::BadQuery);
    }
    match Text::copy_of(alloc, value) {
        Ok(text) => {
            *slot = Some(text);
            Ok(())
        }
        Err(_) => Err(Refusal::Unavailable),
    }
}

/// The ID of a lock in a query.
fn lock_id_in(alloc: Global, id: Option<Text>) -> Result<Option<LockId>, Refusal>
    ensures { Follows result (lock_id_read id) }
{
    let Some(id) = id else {
        return Ok(None);
    };
    match LockId::read(alloc, id.as_str()) {
        Ok(id) => Ok(Some(id)),
        Err(Unfit::Syntax) => Err(Refusal::BadQuery),
        Err(Unfit::Down) => Err(Refusal::Unavailable),
    }
}

/// The act with the item after which its list begins, if it lists anything.
fn begin_after(alloc: Global, act: AskedAct, after: Option<Text>) -> Result<AskedAct, Refusal>
    ensures { Follows result (after_read act after) }
{
    let Some(text) = after else {
        return Ok(act);
    };
    match act {
        AskedAct::ListWorkspaces { .. } => list_after(alloc, text.as_str()),
        AskedAct::OfWorkspace(ws, act) => match ws_begun_after(act, text.as_str()) {
            Some(act) => Ok(AskedAct::OfWorkspace(ws, act)),
            None => Err(Refusal::BadQuery),
        },
    }
}

fn ws_begun_after(act: WsAct, text: &str) -> Option<WsAct>
    ensures { result ≡ ws_begun_after act text.now }
{
    match act {
        WsAct::Query(Query::Versions(_)) => {
            let after = number_after(text)?;
            Some(WsAct::Query(Query::Versions(after)))
        }
        WsAct::Query(Query::Runs(_)) => {
            let after = number_after(text)?;
            Some(WsAct::Query(Query::Runs(after)))
        }
        _ => Some(act),
    }
}

fn list_after(alloc: Global, text: &str) -> Result<AskedAct, Refusal>
    ensures { Follows result (or_refused Refusal.BadQuery (option_map listed_from (name_after text.now))) }
{
    match WsName::read(alloc, text) {
        Ok(name) => Ok(AskedAct::ListWorkspaces { after: Some(name) }),
        Err(Unfit::Syntax) => Err(Refusal::BadQuery),
        Err(Unfit::Down) => Err(Refusal::Unavailable),
    }
}

fn number_after(text: &str) -> Option<u64>
    ensures { result ≡ number_after text.now }
{
    let number = whole_number(text)?;
    if number <= MAX_NUMBER as u64 {
        Some(number)
    } else {
        None
    }
}
