//! The operators of a door: who may ask for commands, and for which.
ghost use Rattle.std.specs.Prelude.{◌≡◌, ◌++◌, ◌∷◌, [], IfOk, IfErr, OnOk, find, Ok as LetIn, Err as TurnedAway};
ghost use Rattle.std.specs.Option.{option_copied};
ghost use Rattle.basis.specs.Roles.{is_before};
ghost use Rattle.serve.specs.Operators.{new_operator, lone_operator, is_let_in, let_in};

use basis::{Down, Moment, OrgName, Refusal, Secret};
use route::{digest_brought, secret_digest};
use std::alloc::Global;
use std::marker::Model;
use wire::Message;

/// The name of the operator whose secret stands alone.
const LONE_NAME: &str = "operator";

/// An operator: who may ask for commands at the door.
#[derive(Drop)]
pub struct Operator {
    /// The name, as the log tells it.
    pub name: OrgName,
    /// SHA-256 of the secret, which is not kept.
    pub digest: [u8; 32],
    /// The moment from which the secret doesn't count, if it ends.
    pub until: Option<Moment>,
    /// Whether only lists of organizations and tokens may be asked for.
    pub lists_only: bool,
}

// Whether a moment is before an end, where there is one.
fn is_before(now: Moment, until: Option<Moment>) -> bool
    ensures { result ≡ is_before now until }
{
    match until {
        None => true,
        Some(until) => now.seconds() < until.seconds(),
    }
}

impl Operator {
    /// The operator of this name and this secret, which is not kept.
    pub fn new(name: OrgName, secret: &Secret, until: Option<Moment>, lists_only: bool) -> Operator
        ensures { result ≡ new_operator name secret.now until lists_only }
    {
        Operator {
            name,
            digest: secret_digest(secret),
            until,
            lists_only,
        }
    }

    /// The operator whose secret stands alone: named `operator`, without an end, for all commands.
    pub fn alone(alloc: Global, secret: &Secret) -> Result<Operator, Down>
        ensures { IfOk result (λ operator. operator ≡ lone_operator secret.now) }
    {
        let Ok(name) = OrgName::read(alloc, LONE_NAME) else {
            return Err(Down);
        };
        Ok(Operator::new(name, secret, None, false))
    }

    // Whether the operator's secret has this digest, and counts at this moment.
    fn is_let_in(&self, digest: &[u8; 32], now: Moment) -> bool
        ensures { result ≡ is_let_in digest.now now self.now }
    {
        self.digest == *digest && is_before(now, self.until)
    }
}

// The operator whose secret has this digest, and counts at this moment.
fn operator_by<'a>(
    operators: &'a [Operator],
    digest: &[u8; 32],
    now: Moment,
) -> Option<&'a Operator>
    ensures { option_copied result ≡ find (is_let_in digest.now now) operators.now }
{
    operators
        .iter()
        .find(|operator| operator.is_let_in(digest, now))
}

/// The operators of a door, in the order in which they were added.
#[derive(Drop)]
pub struct Operators {
    list: Vec<Operator>,
}

impl Model for Operators {
    ghost use Rattle.std.specs.Prelude.{List};
    ghost use Rattle.serve.specs.declared.operators.Operator.{Operator};

    ghost Value = { List Operator };

    ghost view = { λ operators. operators.list.items };
}

impl Operators {
    /// No operators.
    pub fn new(alloc: Global) -> Operators
        ensures { result ≡ [] }
    {
        Operators {
            list: Vec::new(alloc),
        }
    }

    /// The operators in a slice.
    pub fn as_slice(&self) -> &[Operator]
        ensures { result.now ≡ self.now }
    {
        self.list.as_slice()
    }

    /// Adds one behind the others.
    pub fn push(&mut self, operator: Operator) -> Result<(), Down>
        ensures { OnOk result (self.new ≡ self.old ++ operator ∷ []) }
    {
        self.list.push(operator)?;
        Ok(())
    }

    /// The operator whom a message at the door lets in at this moment, or the refusal of the first check that fails: the method, the
    /// query, the secret. It allocates nothing.
    pub fn let_in(&self, now: Moment, message: &Message) -> Result<&Operator, Refusal>
        ensures ok { IfOk result (λ operator. let_in self.now now message.now ≡ LetIn operator.now) }
        ensures err { IfErr result (λ refusal. let_in self.now now message.now ≡ TurnedAway refusal) }
    {
        let digest = digest_brought(message)?;
        match operator_by(self.list.as_slice(), &digest, now) {
            Some(operator) => Ok(operator),
            None => Err(Refusal::BadSecret),
        }
    }
}
