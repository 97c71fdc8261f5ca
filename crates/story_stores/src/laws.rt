//! What holds of the tables between two steps: each law is a query that counts the rows which break it.
use sqlite::{Alter, Connection, Error};
use story_runner::failures::Failure;

const LAWS: &[(&str, &str)] = &[
    (
        "SELECT count(*) FROM page WHERE uses <> (SELECT count(*) FROM vpage WHERE vpage.pkey = page.pkey AND vpage.twin = page.twin)",
        "a page's uses aren't the rows of vpage that name it",
    ),
    (
        "SELECT count(*) FROM vpage WHERE NOT EXISTS (SELECT 1 FROM page WHERE page.pkey = vpage.pkey AND page.twin = vpage.twin)",
        "a row of vpage names no page",
    ),
    (
        "SELECT count(*) FROM vpage WHERE NOT EXISTS (SELECT 1 FROM version WHERE version.org = vpage.org AND version.ws = vpage.ws AND version.number = vpage.number)",
        "a row of vpage belongs to no version",
    ),
    (
        "SELECT count(*) FROM version WHERE size <> (SELECT coalesce(sum(length(page.bytes)), 0) FROM vpage, page WHERE vpage.org = version.org AND vpage.ws = version.ws AND vpage.number = version.number AND page.pkey = vpage.pkey AND page.twin = vpage.twin)",
        "a version's pages aren't its size",
    ),
    (
        "SELECT count(*) FROM version WHERE NOT EXISTS (SELECT 1 FROM ws WHERE ws.org = version.org AND ws.name = version.ws)",
        "a version belongs to no workspace",
    ),
    (
        "SELECT count(*) FROM run WHERE NOT EXISTS (SELECT 1 FROM ws WHERE ws.org = run.org AND ws.name = run.ws)",
        "a run belongs to no workspace",
    ),
    (
        "SELECT count(*) FROM ws WHERE NOT EXISTS (SELECT 1 FROM org WHERE org.name = ws.org)",
        "a workspace belongs to no organization",
    ),
    (
        "SELECT count(*) FROM token WHERE NOT EXISTS (SELECT 1 FROM org WHERE org.name = token.org)",
        "a token belongs to no organization",
    ),
    (
        "SELECT count(*) FROM token WHERE NOT EXISTS (SELECT 1 FROM bound WHERE bound.org = token.org AND bound.name = token.name)",
        "a token has no bounds",
    ),
    (
        "SELECT count(*) FROM bound WHERE NOT EXISTS (SELECT 1 FROM token WHERE token.org = bound.org AND token.name = bound.name)",
        "a row of bound belongs to no token",
    ),
    (
        "SELECT count(*) FROM ws WHERE NOT EXISTS (SELECT 1 FROM keeping WHERE keeping.org = ws.org AND keeping.ws = ws.name)",
        "a workspace has no row of keeping",
    ),
    (
        "SELECT count(*) FROM keeping WHERE NOT EXISTS (SELECT 1 FROM ws WHERE ws.org = keeping.org AND ws.name = keeping.ws)",
        "a row of keeping belongs to no workspace",
    ),
    (
        "SELECT count(*) FROM keeping WHERE keep < (SELECT count(*) FROM version WHERE version.org = keeping.org AND version.ws = keeping.ws)",
        "a workspace has more versions than it keeps",
    ),
    ("SELECT count(*) FROM meta", "meta has a row"),
    (
        "SELECT 1 - count(*) FROM edition WHERE version = 3",
        "edition doesn't tell the third version",
    ),
];

/// The number that a query counts.
pub(crate) fn count_of<S: Alter>(conn: &mut Connection<S>, sql: &str) -> Result<i64, Error> {
    match conn.query_row(sql, &[]) {
        Ok(row) => row.get(0),
        Err(error) => Err(error),
    }
}

/// That the tables obey their laws.
pub fn check_laws<S: Alter>(line: usize, conn: &mut Connection<S>) -> Result<(), Failure> {
    for (sql, broken) in LAWS {
        let why = match count_of(conn, sql) {
            Ok(0) => continue,
            Ok(_) => broken,
            Err(_) => "the tables don't answer",
        };
        return Err(Failure::refused(line, why));
    }
    Ok(())
}
