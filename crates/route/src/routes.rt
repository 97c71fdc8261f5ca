//! The shapes of routes, found by a router that is made once; what a request asks, by its route and its method, and the least role for it;
//! and the names and numbers that a route's parameters took from the path. Methods are RFC 9110's, section 9.3; LOCK and UNLOCK are as
//! Terraform's backend 'http' sends them.
ghost use Rattle.std.specs.Prelude.{◌≡◌, IfOk, IfErr, option_and_then};
ghost use Rattle.matchit.specs.Params.{AllText};
ghost use Rattle.basis.specs.Checks.{or_refused};
ghost use Rattle.basis.specs.Inner.Checks.{Follows};
ghost use Rattle.basis.specs.declared.refusals.Allow.TheVariants.{Lists, Workspaces, States, Runs, Actions};
ghost use Rattle.basis.specs.declared.refusals.Refusal.TheVariants.{NoMethod};
ghost use Rattle.route.specs.Inner.Kinds.{pairs_of, part_of, org_resource_named, on_ws, act_named, ws_of, number_in, action_in};
ghost use Rattle.route.specs.Table.{table};
ghost use Rattle.route.specs.Paths.{resource_of, action_of};
ghost use Rattle.route.specs.Acts.{listing_act, workspace_act, state_act, runs_act, got, posted, least_role_on};
ghost use Rattle.route.specs.Tokens.{org_of};

use basis::{
    Allow, Down, LockId, Number, OrgName, Query, Refusal, Role, RunAction, Secret, Unfit, WsAct,
    WsName,
};
use matchit::{InsertError, Params, Router};
use std::alloc::Global;

/// The router of custody's paths. It is made once, and finding a route takes no memory.
#[derive(Drop)]
pub struct Routes {
    router: Router<Kind>,
    /// The router holds the table of routes.
    ghost complete: { router ≡ table },
}

impl Routes {
    pub fn new(alloc: Global) -> Result<Routes, Down>
        ensures { IfOk result (λ routes. routes.router ≡ table) }
    {
        match make_router(alloc) {
            Ok(router) => Ok(Routes { router }),
            Err(_) => Err(Down),
        }
    }

    /// The route of a path. It takes no memory.
    pub(crate) fn find<'r, 'p>(&'r self, path: &'p str) -> Option<Found<'r, 'p>>
        ensures { resource_of path.now ≡ option_and_then (λ found. org_resource_named found.kind (pairs_of found.params)) result }
    {
        match self.router.at(path) {
            Ok(found) => Some(Found {
                kind: *found.value,
                params: found.params,
            }),
            Err(_) => None,
        }
    }
}

/// The route of a path: its shape, and what its parameters took.
#[derive(Drop)]
pub(crate) struct Found<'r, 'p> {
    pub(crate) kind: Kind,
    params: Params<'r, 'p>,
    /// Names and parts are text.
    ghost text: { ∥ AllText (pairs_of params) ∥₁ },
}

impl<'r, 'p> Found<'r, 'p> {
    /// The part of the path that the parameter of a name took.
    pub(crate) fn part(&self, name: &str) -> &'p str
        ensures { result.now ≡ part_of name.now (pairs_of self.now.params) }
    {
        self.params.get(name).unwrap_or("")
    }
}

/// The shape of a route.
#[derive(Clone, Copy, PartialEq, Eq)]
pub enum Kind {
    ListsWorkspaces,
    IsWorkspace,
    IsState,
    ListsVersions,
    IsVersion,
    ListsRuns,
    IsRun,
    IsAction,
}

// The router of the table.
fn make_router(alloc: Global) -> Result<Router<Kind>, InsertError>
    ensures complete { IfOk result (λ router. router ≡ table) }
    ensures memory { IfErr result (λ error. error ≡ InsertError.OutOfMemory) }
{
    let mut router = Router::new(alloc);
    router.insert("/v1/{org}/workspaces", Kind::ListsWorkspaces)?;
    router.insert("/v1/{org}/workspaces/{ws}", Kind::IsWorkspace)?;
    router.insert("/v1/{org}/state/{ws}", Kind::IsState)?;
    router.insert("/v1/{org}/versions/{ws}", Kind::ListsVersions)?;
    router.insert("/v1/{org}/versions/{ws}/{number}", Kind::IsVersion)?;
    router.insert("/v1/{org}/runs/{ws}", Kind::ListsRuns)?;
    router.insert("/v1/{org}/runs/{ws}/{number}", Kind::IsRun)?;
    router.insert(
        "/v1/{org}/runs/{ws}/{number}/actions/{action}",
        Kind::IsAction,
    )?;
    Ok(router)
}

/// What a message asks, and in whose name.
#[derive(Drop)]
pub struct Asked {
    /// The organization that the token names.
    pub caller: OrgName,
    /// The secret of the token.
    pub secret: Secret,
    /// The organization that the path names.
    pub org: OrgName,
    pub act: AskedAct,
    /// The ID in the query: the lock that the sender says it has.
    pub lock_id: Option<LockId>,
}

/// What a request asks of the organization that its path names.
#[derive(Drop)]
pub enum AskedAct {
    /// The workspaces whose names come after this one.
    ListWorkspaces { after: Option<WsName> },
    /// Something of one workspace.
    OfWorkspace(WsName, WsAct),
}

/// What a method asks of what a route names. A name that doesn't read is no route; only then does the method count.
pub(crate) fn act_named(
    alloc: Global,
    found: &Found<'_, '_>,
    method: &str,
    bodyless: bool,
) -> Result<AskedAct, Refusal>
    ensures { Follows result (act_named found.now.kind (pairs_of found.now.params) method.now bodyless) }
{
    match found.kind {
        Kind::ListsWorkspaces => listing_act(method),
        Kind::IsWorkspace => on_ws(alloc, found, workspace_act(method)),
        Kind::IsState => on_ws(alloc, found, state_act(method, bodyless)),
        Kind::ListsVersions => on_ws(alloc, found, got(method, Query::Versions(0))),
        Kind::IsVersion => match number_in(found) {
            Some(number) => on_ws(alloc, found, got(method, Query::Version(number))),
            None => Err(Refusal::NoRoute),
        },
        Kind::ListsRuns => on_ws(alloc, found, runs_act(method)),
        Kind::IsRun => match number_in(found) {
            Some(number) => on_ws(alloc, found, got(method, Query::Run(number))),
            None => Err(Refusal::NoRoute),
        },
        Kind::IsAction => match action_in(found) {
            Some((number, action)) => {
                let act = WsAct::ReportRun(number, action);
                on_ws(alloc, found, posted(method, act))
            }
            None => Err(Refusal::NoRoute),
        },
    }
}

// An act on the workspace that a route names.
fn on_ws(
    alloc: Global,
    found: &Found<'_, '_>,
    act: Result<WsAct, Refusal>,
) -> Result<AskedAct, Refusal>
    ensures { Follows result (on_ws (pairs_of found.now.params) act) }
{
    let ws = read_ws(alloc, found.part("ws"))?;
    Ok(AskedAct::OfWorkspace(ws, act?))
}

// Among all workspaces.
fn listing_act(method: &str) -> Result<AskedAct, Refusal>
    ensures { result ≡ or_refused (NoMethod Lists) (listing_act method.now) }
{
    match method {
        "GET" => Ok(AskedAct::ListWorkspaces { after: None }),
        _ => Err(Refusal::NoMethod(Allow::Lists)),
    }
}

// Of a workspace itself.
fn workspace_act(method: &str) -> Result<WsAct, Refusal>
    ensures { result ≡ or_refused (NoMethod Workspaces) (workspace_act method.now) }
{
    match method {
        "GET" => Ok(WsAct::Query(Query::Workspace)),
        "PUT" => Ok(WsAct::Put),
        "DELETE" => Ok(WsAct::Delete),
        _ => Err(Refusal::NoMethod(Allow::Workspaces)),
    }
}

// Of its state.
fn state_act(method: &str, bodyless: bool) -> Result<WsAct, Refusal>
    ensures { result ≡ or_refused (NoMethod States) (state_act method.now bodyless) }
{
    match method {
        "GET" => Ok(WsAct::Query(Query::State)),
        "POST" => Ok(WsAct::UpdateState),
        "PUT" => Ok(WsAct::UpdateState),
        "DELETE" => Ok(WsAct::PurgeState),
        "LOCK" => Ok(WsAct::Lock),
        "UNLOCK" if bodyless => Ok(WsAct::ForceUnlock),
        "UNLOCK" => Ok(WsAct::Unlock),
        _ => Err(Refusal::NoMethod(Allow::States)),
    }
}

// Of its runs.
fn runs_act(method: &str) -> Result<WsAct, Refusal>
    ensures { result ≡ or_refused (NoMethod Runs) (runs_act method.now) }
{
    match method {
        "GET" => Ok(WsAct::Query(Query::Runs(0))),
        "POST" => Ok(WsAct::MakeRun),
        _ => Err(Refusal::NoMethod(Allow::Runs)),
    }
}

// Where GET is the only method.
fn got(method: &str, query: Query) -> Result<WsAct, Refusal>
    ensures { result ≡ or_refused (NoMethod Lists) (got query method.now) }
{
    match method {
        "GET" => Ok(WsAct::Query(query)),
        _ => Err(Refusal::NoMethod(Allow::Lists)),
    }
}

// Where POST is the only method.
fn posted(method: &str, act: WsAct) -> Result<WsAct, Refusal>
    ensures { result ≡ or_refused (NoMethod Actions) (posted act method.now) }
{
    match method {
        "POST" => Ok(act),
        _ => Err(Refusal::NoMethod(Allow::Actions)),
    }
}

// The least role that may ask it.
pub(crate) fn least_role_on(act: WsAct) -> Role
    ensures { result ≡ least_role_on act }
{
    match act {
        WsAct::Query(_) => Role::Read,
        WsAct::Put => Role::Admin,
        WsAct::Delete => Role::Admin,
        WsAct::UpdateState => Role::Write,
        WsAct::PurgeState => Role::Admin,
        WsAct::Lock => Role::Write,
        WsAct::Unlock => Role::Write,
        WsAct::ForceUnlock => Role::Admin,
        WsAct::MakeRun => Role::Write,
        WsAct::ReportRun(_, _) => Role::Write,
    }
}

/// An organization's name.
pub(crate) fn read_org(alloc: Global, text: &str) -> Result<OrgName, Refusal>
    ensures { Follows result (or_refused Refusal.NoRoute (org_of text.now)) }
{
    match OrgName::read(alloc, text) {
        Ok(org) => Ok(org),
        Err(Unfit::Syntax) => Err(Refusal::NoRoute),
        Err(Unfit::Down) => Err(Refusal::Unavailable),
    }
}

/// A workspace's name.
fn read_ws(alloc: Global, text: &str) -> Result<WsName, Refusal>
    ensures { Follows result (or_refused Refusal.NoRoute (ws_of text.now)) }
{
    match WsName::read(alloc, text) {
        Ok(ws) => Ok(ws),
        Err(Unfit::Syntax) => Err(Refusal::NoRoute),
        Err(Unfit::Down) => Err(Refusal::Unavailable),
    }
}

/// The number of a version or a run that a route names.
fn number_in(found: &Found<'_, '_>) -> Option<Number>
    ensures { result ≡ number_in (pairs_of found.now.params) }
{
    Number::read(found.part("number")).ok()
}

/// The run that a route names, and what is asked of it or reported.
fn action_in(found: &Found<'_, '_>) -> Option<(Number, RunAction)>
    ensures { result ≡ action_in (pairs_of found.now.params) }
{
    let number = number_in(found)?;
    let action = action_named(found.part("action"))?;
    Some((number, action))
}

fn action_named(word: &str) -> Option<RunAction>
    ensures { result ≡ action_of word.now }
{
    match word {
        "planned" => Some(RunAction::ReportPlanned),
        "unchanged" => Some(RunAction::ReportUnchanged),
        "fail" => Some(RunAction::Fail),
        "confirm" => Some(RunAction::Confirm),
        "applied" => Some(RunAction::ReportApplied),
        "discard" => Some(RunAction::Discard),
        "cancel" => Some(RunAction::Cancel),
        _ => None,
    }
}
