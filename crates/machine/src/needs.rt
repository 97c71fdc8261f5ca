//! What a decision on an act needs of the workspace, besides the workspace's row.
ghost use Rattle.std.specs.Prelude.{◌≡◌, option_copied};
ghost use Rattle.machine.specs.Needs.{needs, needs_of_query, nothing, staying_for, needed_of};

use crate::acts::{Act, Needs, Staying};
use basis::{KeepCount, Query, RunAsk, Text};

/// Only the workspace's row is needed.
fn nothing<'a>() -> Needs<'a>
    ensures { needed_of result ≡ nothing }
{
    Needs {
        makes: false,
        retention: false,
        holder_status: false,
        newest: false,
        text: None,
        outgoing: Staying::StayAll,
        version: None,
        run: None,
        key: None,
        waiting: false,
        open_runs: false,
    }
}

fn needs_of_query<'a>(query: Query) -> Needs<'a>
    ensures { needed_of result ≡ needs_of_query query }
{
    match query {
        Query::Workspace => Needs {
            retention: true,
            newest: true,
            ..nothing()
        },
        Query::State => Needs {
            newest: true,
            ..nothing()
        },
        Query::Version(number) => Needs {
            version: Some(number),
            ..nothing()
        },
        Query::Run(number) => Needs {
            run: Some(number),
            ..nothing()
        },
        Query::Versions(_) | Query::Runs(_) => nothing(),
    }
}

fn key_of(ask: &RunAsk) -> Option<&Text>
    ensures { option_copied result ≡ ask.now.key }
{
    match &ask.key {
        Some(key) => Some(key),
        None => None,
    }
}

// A PUT that does not set the number of versions removes none.
fn staying_for(retention: Option<KeepCount>) -> Staying
    ensures { result ≡ staying_for retention }
{
    match retention {
        Some(retention) => Staying::StayAtMost(retention),
        None => Staying::StayAll,
    }
}

impl Act {
    /// What a decision on the act needs.
    pub fn needs(&self) -> Needs<'_>
        ensures { needed_of result ≡ needs self.now }
    {
        match self {
            Act::Query(query) => needs_of_query(*query),
            Act::PutWorkspace(ask) => Needs {
                makes: true,
                retention: ask.retention.is_none(),
                newest: true,
                outgoing: staying_for(ask.retention),
                ..nothing()
            },
            Act::DeleteWorkspace => Needs {
                open_runs: true,
                ..nothing()
            },
            Act::UpdateState { text, .. } => Needs {
                retention: true,
                holder_status: true,
                newest: true,
                text: Some(text.as_slice()),
                outgoing: Staying::MakeRoom,
                ..nothing()
            },
            Act::PurgeState { .. } => Needs {
                holder_status: true,
                ..nothing()
            },
            Act::Lock { .. } => nothing(),
            Act::Unlock(_) | Act::ForceUnlock => Needs {
                waiting: true,
                ..nothing()
            },
            Act::MakeRun(ask) => Needs {
                key: key_of(ask),
                open_runs: true,
                ..nothing()
            },
            Act::ReportRun(number, _) => Needs {
                run: Some(*number),
                waiting: true,
                ..nothing()
            },
        }
    }
}
