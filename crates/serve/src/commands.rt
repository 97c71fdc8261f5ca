//! Operator's commands.
ghost use Rattle.std.specs.Prelude.{◌≡◌, ℕ, IfOk, OnErr, length, ◌≤◌};
ghost use Rattle.machine.specs.StoreCalls.{Unchanged, Lasts};
ghost use Rattle.machine.specs.Tokens.{ListsOrganizations, token_list_answer};
ghost use Rattle.machine.specs.declared.keeps.AdminAnswer.{AdminAnswer};
ghost use Rattle.machine.specs.declared.keeps.AdminAnswer.TheVariants.{Done};
ghost use Rattle.serve.specs.Asks.{commands};
ghost use Rattle.serve.specs.Inner.Taking.{IsOnOne, IsReported, IsCarriedOut};
ghost use Rattle.serve.specs.Service.{Carries, Stays, IsAdminAnswer, org_lines, token_lines, admin_word, reported_text, reported_refusal};

use crate::lists::{write_org_lines, write_token_lines};
use crate::steps::Admin;
use basis::{Bytes, Down, OrgName, Refusal};
use machine::{AdminAnswer, Keep, OrgRow, TokenRow};
use route::secret_digest;
use std::alloc::Global;

// The most bytes of the word that answers an operator's command.
const MAX_ADMIN_WORD: usize = 15;

/// The answer to an operator's command, as text.
#[derive(Drop)]
pub struct CommandReport {
    /// Why the command is refused; absent if it is not.
    pub refusal: Option<Refusal>,
    /// What is printed.
    pub text: Bytes,
}

// The list of all organizations as it is printed.
fn org_lines(alloc: Global, rows: &[OrgRow]) -> Result<Vec<u8>, Down>
    ensures { IfOk result (λ text. text.items ≡ org_lines rows.now) }
{
    let mut text = Vec::new(alloc);
    match write_org_lines(&mut text, rows) {
        Ok(()) => Ok(text),
        Err(_) => Err(Down),
    }
}

// The list of an organization's tokens as it is printed.
fn token_lines(alloc: Global, rows: &[TokenRow]) -> Result<Vec<u8>, Down>
    ensures { IfOk result (λ text. text.items ≡ token_lines rows.now) }
{
    let mut text = Vec::new(alloc);
    match write_token_lines(&mut text, rows) {
        Ok(()) => Ok(text),
        Err(_) => Err(Down),
    }
}

// An answer as it is printed: its word, or its list.
fn reported_text(alloc: Global, answer: &AdminAnswer) -> Result<Vec<u8>, Down>
    ensures { IfOk result (λ text. text.items ≡ reported_text answer.now) }
{
    match answer {
        AdminAnswer::Organizations(rows) => org_lines(alloc, rows.as_slice()),
        AdminAnswer::Tokens(rows) => token_lines(alloc, rows.as_slice()),
        AdminAnswer::Done => word_text(alloc, answer),
        AdminAnswer::Exists => word_text(alloc, answer),
        AdminAnswer::Absent => word_text(alloc, answer),
        AdminAnswer::InUse => word_text(alloc, answer),
    }
}

fn word_text(alloc: Global, answer: &AdminAnswer) -> Result<Vec<u8>, Down>
    ensures { IfOk result (λ text. text.items ≡ admin_word answer.now) }
{
    let mut text = Vec::new(alloc);
    text.extend_from_slice(admin_word(answer))?;
    Ok(text)
}

// The word that answers an operator's command on one organization, and a line feed; a list has none.
fn admin_word(answer: &AdminAnswer) -> &'static [u8]
    ensures word { result.now ≡ admin_word answer.now }
    ensures short { length result.now ≤ 15 }
{
    match answer {
        AdminAnswer::Done => b"ok\n",
        AdminAnswer::Exists => b"refused exists\n",
        AdminAnswer::Absent => b"refused absent\n",
        AdminAnswer::InUse => b"refused in-use\n",
        AdminAnswer::Organizations(_) => b"",
        AdminAnswer::Tokens(_) => b"",
    }
}

fn reported_refusal(answer: &AdminAnswer) -> Option<Refusal>
    ensures { result ≡ reported_refusal answer.now }
{
    match answer {
        AdminAnswer::Exists => Some(Refusal::Exists),
        AdminAnswer::Absent => Some(Refusal::Absent),
        AdminAnswer::InUse => Some(Refusal::InUse),
        AdminAnswer::Done | AdminAnswer::Organizations(_) | AdminAnswer::Tokens(_) => None,
    }
}

/// Carries out an operator's command.
pub fn command<K: Keep>(alloc: Global, keep: &mut K, command: &Admin) -> Result<AdminAnswer, Down>
    ensures lasts { Lasts K.clean K.sound K.keyed K.shielded keep.old keep.new }
    ensures ok { K.clean keep.new → K.sound keep.old → IfOk result (λ answer. (at : ℕ) → Carries (commands at command.now) (K.rows keep.old) (K.rows keep.new)
        × IsAdminAnswer (K.rows keep.old) command.now answer) }
    ensures err { K.clean keep.new → OnErr result (Stays (K.rows keep.old) (K.rows keep.new)) }
{
    match command {
        Admin::OrgAdd { org, limit } => keep.org_add(alloc, org, *limit),
        Admin::OrgLimit { org, limit } => keep.org_limit(alloc, org, *limit),
        Admin::OrgRemove { org, is_forced } => keep.org_remove(alloc, org, *is_forced),
        Admin::OrgList => keep.org_list(alloc),
        Admin::TokenList { org } => keep.token_list(alloc, org),
        Admin::TokenRevoke { org, name } => keep.token_revoke(alloc, org, name),
        Admin::TokenAdd {
            org,
            name,
            role,
            secret,
            bounds,
        } => {
            let digest = secret_digest(secret);
            keep.token_add(alloc, org, name, *role, &digest, bounds)
        }
    }
}

// Carries out a command on one organization, after allocating the memory for its word.
fn report_word<K: Keep>(alloc: Global, keep: &mut K, asked: &Admin) -> Result<CommandReport, Down>
    ensures lasts { Lasts K.clean K.sound K.keyed K.shielded keep.old keep.new }
    ensures ok { K.clean keep.new → K.sound keep.old → IfOk result (λ reported. IsOnOne asked.now → IsCarriedOut asked.now (K.rows keep.old) (K.rows keep.new) reported) }
    ensures err { K.clean keep.new → OnErr result (Stays (K.rows keep.old) (K.rows keep.new)) }
{
    let mut text = Vec::with_capacity(alloc, MAX_ADMIN_WORD)?;
    let answer = command(alloc, keep, asked)?;
    text.extend_from_slice(admin_word(&answer)).unwrap();
    Ok(CommandReport {
        refusal: reported_refusal(&answer),
        text: Bytes::new(text),
    })
}

fn report_answer(alloc: Global, answer: &AdminAnswer) -> Result<CommandReport, Down>
    ensures { IfOk result (IsReported answer.now) }
{
    let text = reported_text(alloc, answer)?;
    Ok(CommandReport {
        refusal: reported_refusal(answer),
        text: Bytes::new(text),
    })
}

/// The word `ok`, of what is done by others.
pub fn report_done(alloc: Global) -> Result<CommandReport, Down>
    ensures { IfOk result (IsReported Done) }
{
    let answer = AdminAnswer::Done;
    report_answer(alloc, &answer)
}

// Lists all organizations, which changes nothing.
fn report_organizations<K: Keep>(alloc: Global, keep: &mut K) -> Result<CommandReport, Down>
    ensures unchanged { Unchanged K.rows K.clean K.sound K.keyed K.shielded keep.old keep.new }
    ensures ok { K.clean keep.new → K.sound keep.old → IfOk result (λ reported. (answer : AdminAnswer) × ListsOrganizations (K.rows keep.old) answer × IsReported answer reported) }
{
    let answer = keep.org_list(alloc)?;
    report_answer(alloc, &answer)
}

// Lists an organization's tokens, which changes nothing.
fn report_tokens<K: Keep>(alloc: Global, keep: &mut K, org: &OrgName) -> Result<CommandReport, Down>
    ensures unchanged { Unchanged K.rows K.clean K.sound K.keyed K.shielded keep.old keep.new }
    ensures ok { K.clean keep.new → K.sound keep.old → IfOk result (IsReported (token_list_answer (K.rows keep.old org.now))) }
{
    let answer = keep.token_list(alloc, org)?;
    report_answer(alloc, &answer)
}

/// Carries out an operator's command, and returns its answer as text. The memory for a word is allocated before the change.
pub fn report<K: Keep>(alloc: Global, keep: &mut K, asked: &Admin) -> Result<CommandReport, Down>
    ensures lasts { Lasts K.clean K.sound K.keyed K.shielded keep.old keep.new }
    ensures ok { K.clean keep.new → K.sound keep.old → IfOk result (IsCarriedOut asked.now (K.rows keep.old) (K.rows keep.new)) }
    ensures err { K.clean keep.new → OnErr result (Stays (K.rows keep.old) (K.rows keep.new)) }
{
    match asked {
        Admin::OrgList => report_organizations(alloc, keep),
        Admin::TokenList { org } => report_tokens(alloc, keep, org),
        Admin::OrgAdd { .. } => report_word(alloc, keep, asked),
        Admin::OrgLimit { .. } => report_word(alloc, keep, asked),
        Admin::OrgRemove { .. } => report_word(alloc, keep, asked),
        Admin::TokenAdd { .. } => report_word(alloc, keep, asked),
        Admin::TokenRevoke { .. } => report_word(alloc, keep, asked),
    }
}
