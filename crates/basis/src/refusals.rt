//! Why a request is refused: a number, a word and a status of HTTP for each reason.
ghost use Rattle.std.specs.Prelude.{◌≡◌, ◌≤◌, length};
ghost use Rattle.basis.specs.Refusals.{line_of, allow_text};

use std::error::Error;
use std::fmt;

/// Why a request is refused. A refused request changes no rows.
#[derive(Clone, Copy, Debug, PartialEq, Eq)]
pub enum Refusal {
    /// The head or the framing isn't a message of HTTP/1.1 that custody takes (RFC 9112).
    BadMessage,
    /// A bearer token in the field and one in the query (RFC 6750, section 2).
    TwoTokens,
    BadQuery,
    /// Content-MD5 isn't the digest of the body (RFC 1864).
    BadDigest,
    BadState,
    BadLock,
    BadBody,
    NoToken,
    BadToken,
    NeedWrite,
    NeedAdmin,
    NoRoute,
    NotFound,
    /// The route is there without the method; the field Allow lists those it has.
    NoMethod(Allow),
    /// An `ID` was given and nobody holds.
    NotHeld,
    /// The holding run isn't applying.
    NotApplying,
    /// The state's lineage isn't that of the newest version.
    OtherLineage,
    /// The state's serial isn't greater than that of the newest version.
    OldSerial,
    WrongState,
    HeldByRun,
    OpenRuns,
    OverLimit,
    NoLength,
    TooLarge,
    /// Somebody holds (RFC 4918, section 11.3); the body is the holder's text.
    Locked,
    HeadTooLarge,
    /// Memory or the store refused.
    Unavailable,
    /// The operator's secret is missing or wrong.
    BadSecret,
    /// The organization or token that a command adds already exists, or another token has its secret.
    Exists,
    /// The organization or token that a command names does not exist.
    Absent,
    /// A workspace of the organization is locked, or has an open run.
    InUse,
}

impl Refusal {
    fn line(self) -> Line
        ensures number { result.number ≡ (line_of self).number }
        ensures word { result.word.now ≡ (line_of self).word }
        ensures status { result.status ≡ (line_of self).status }
    {
        match self {
            Refusal::BadMessage => make_line(1, "bad-message", 400),
            Refusal::TwoTokens => make_line(2, "two-tokens", 400),
            Refusal::BadQuery => make_line(3, "bad-query", 400),
            Refusal::BadDigest => make_line(4, "bad-digest", 400),
            Refusal::BadState => make_line(5, "bad-state", 400),
            Refusal::BadLock => make_line(6, "bad-lock", 400),
            Refusal::BadBody => make_line(7, "bad-body", 400),
            Refusal::NoToken => make_line(8, "no-token", 401),
            Refusal::BadToken => make_line(9, "bad-token", 401),
            Refusal::NeedWrite => make_line(10, "need-write", 403),
            Refusal::NeedAdmin => make_line(11, "need-admin", 403),
            Refusal::NoRoute => make_line(12, "no-route", 404),
            Refusal::NotFound => make_line(13, "not-found", 404),
            Refusal::NoMethod(_) => make_line(14, "no-method", 405),
            Refusal::NotHeld => make_line(15, "not-held", 409),
            Refusal::NotApplying => make_line(16, "not-applying", 409),
            Refusal::OtherLineage => make_line(17, "lineage", 409),
            Refusal::OldSerial => make_line(18, "serial", 409),
            Refusal::WrongState => make_line(19, "wrong-state", 409),
            Refusal::HeldByRun => make_line(20, "held-by-run", 409),
            Refusal::OpenRuns => make_line(21, "open-runs", 409),
            Refusal::OverLimit => make_line(22, "limit", 409),
            Refusal::NoLength => make_line(23, "no-length", 411),
            Refusal::TooLarge => make_line(24, "too-large", 413),
            Refusal::Locked => make_line(25, "locked", 423),
            Refusal::HeadTooLarge => make_line(26, "head-too-large", 431),
            Refusal::Unavailable => make_line(27, "down", 503),
            Refusal::BadSecret => make_line(28, "bad-token", 401),
            Refusal::Exists => make_line(29, "exists", 409),
            Refusal::Absent => make_line(30, "absent", 404),
            Refusal::InUse => make_line(31, "in-use", 409),
        }
    }

    /// 1 to 31.
    pub fn number(self) -> u8
        ensures { result ≡ (line_of self).number }
    {
        self.line().number
    }

    /// The word in the body. `BadSecret` and `BadToken` have the same word.
    pub fn word(self) -> &'static str
        ensures { result.now ≡ (line_of self).word }
    {
        self.line().word
    }

    /// The status of HTTP (RFC 9110, section 15; 423 of RFC 4918; 431 of RFC 6585).
    pub fn status(self) -> u16
        ensures { result ≡ (line_of self).status }
    {
        self.line().status
    }
}

impl fmt::Display for Refusal {
    ghost use Rattle.std.specs.Prelude.{Some};

    ghost output = { λ refusal. Some (line_of refusal).word };

    fn fmt<W: fmt::Write>(&self, f: &mut fmt::Formatter<W>) -> fmt::Result {
        f.write_str(self.word())
    }
}

impl Error for Refusal {}

/// The methods of a route, for the field Allow (RFC 9110, section 10.2.1).
#[derive(Clone, Copy, Debug, PartialEq, Eq)]
pub enum Allow {
    /// What is only read: lists, a version, a run.
    Lists,
    Workspaces,
    States,
    Runs,
    Actions,
}

impl Allow {
    pub fn text(self) -> &'static str
        ensures text { result.now ≡ allow_text self }
        ensures short { length result.now ≤ 36 }
    {
        match self {
            Allow::Lists => "GET",
            Allow::Workspaces => "DELETE, GET, PUT",
            Allow::States => "DELETE, GET, LOCK, POST, PUT, UNLOCK",
            Allow::Runs => "GET, POST",
            Allow::Actions => "POST",
        }
    }
}

#[derive(Clone, Copy)]
struct Line {
    number: u8,
    word: &'static str,
    status: u16,
}

fn make_line(number: u8, word: &'static str, status: u16) -> Line
    ensures number { result.number ≡ number }
    ensures word { result.word.now ≡ word.entry.now }
    ensures status { result.status ≡ status }
{
    Line {
        number,
        word,
        status,
    }
}
