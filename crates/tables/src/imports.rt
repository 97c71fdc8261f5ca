//! Copies an organization with its tokens and its workspaces.
ghost use Rattle.std.specs.Prelude.{⊤};
ghost use Rattle.statements.specs.Steps.{Sees};
ghost use Rattle.tables.specs.Inner.Copies.{RelatedSteps};
ghost use Rattle.tables.specs.Inner.Keys.{KeepsKeys, KeepsPages};
ghost use Rattle.tables.specs.Inner.Imports.{TakesFrom, TokenComes, TokensCome, WorkspacesCome, Brings};

use crate::copies::copy_workspace;
use basis::{Limit, WsName};
use pages::PageKey;
use sqlite::{Alter, Connection, Error, Transaction};
use statements::rows::NamedToken;
use statements::{bounds, organizations, tokens, workspaces};
use std::alloc::Global;

/// Copies a token, with its expiry and prefix.
fn copy_token<T: Alter, S: Alter>(
    tx: &mut Transaction<'_, S>,
    from: &mut Connection<T>,
    org: &str,
    token: &NamedToken,
) -> Result<(), Error>
    ensures unchanged { Sees T.Store (λ _ _. ⊤) from.old from.new result }
    ensures copies { RelatedSteps S.Store (TakesFrom T.Store (TokenComes org.now token.now) from.old from.new) tx.old tx.new result }
    ensures pages { RelatedSteps S.Store KeepsPages tx.old tx.new result }
{
    let name = token.name.as_str();
    let Some(reach) = bounds::find(from, org, name)? else {
        return Err(Error::QueryReturnedNoRows);
    };
    tokens::add(
        tx,
        org,
        name,
        token.it.digest.as_slice(),
        token.it.role,
        &reach,
    )
}

/// Copies tokens, one after the other.
fn copy_tokens<T: Alter, S: Alter>(
    tx: &mut Transaction<'_, S>,
    from: &mut Connection<T>,
    org: &str,
    list: &[NamedToken],
) -> Result<(), Error>
    ensures unchanged { Sees T.Store (λ _ _. ⊤) from.old from.new result }
    ensures copies { RelatedSteps S.Store (TakesFrom T.Store (TokensCome org.now list.now) from.old from.new) tx.old tx.new result }
    ensures pages { RelatedSteps S.Store KeepsPages tx.old tx.new result }
{
    'tokens: for token in list {
        copy_token(tx, from, org, token)?;
    }
    Ok(())
}

/// Copies workspaces, one after the other. If this succeeds, none of their names existed before.
fn copy_workspaces<T: Alter, K: PageKey, S: Alter>(
    tx: &mut Transaction<'_, S>,
    alloc: Global,
    from: &mut Connection<T>,
    org: &str,
    names: &[WsName],
) -> Result<(), Error>
    ensures unchanged { Sees T.Store (λ _ _. ⊤) from.old from.new result }
    ensures copies { RelatedSteps S.Store (TakesFrom T.Store (WorkspacesCome org.now names.now) from.old from.new) tx.old tx.new result }
    ensures keyed { RelatedSteps S.Store (KeepsKeys K.key_of) tx.old tx.new result }
{
    'workspaces: for name in names {
        copy_workspace::<T, K, S>(tx, alloc, from, org, name.as_str())?;
    }
    Ok(())
}

/// Copies an organization with this limit from another database into one that lacks it.
pub(crate) fn bring<T: Alter, K: PageKey, S: Alter>(
    tx: &mut Transaction<'_, S>,
    alloc: Global,
    from: &mut Connection<T>,
    org: &str,
    cap: Limit,
) -> Result<(), Error>
    ensures unchanged { Sees T.Store (λ _ _. ⊤) from.old from.new result }
    ensures brings { RelatedSteps S.Store (TakesFrom T.Store (Brings org.now cap) from.old from.new) tx.old tx.new result }
    ensures keyed { RelatedSteps S.Store (KeepsKeys K.key_of) tx.old tx.new result }
{
    let list = tokens::list_with_digests(alloc, from, org)?;
    let names = workspaces::names(alloc, from, org)?;
    organizations::add(tx, org, cap)?;
    copy_tokens(tx, from, org, list.as_slice())?;
    copy_workspaces::<T, K, S>(tx, alloc, from, org, names.as_slice())
}
