//! Whether two tables have the same definition, wherever their rows are stored.
ghost use Rattle.std.specs.Prelude.{◌≡◌, ◌↔◌, IsTrue, IfOk};
ghost use Rattle.definitions.specs.Alike.{AreAlike};
ghost use Rattle.sqlite_sql.specs.Syntax.{term_at, terms_of};

use sqlite_items::Items;
use sqlite_schema::code::{LentTerms, Terms, lend_value};
use sqlite_schema::schema::{Column, Reference, Stamps, Table};
use sqlite_sql::expr::{Node, open};
use sqlite_value::keys::Order;
use sqlite_value::order::is_same;
use sqlite_value::value::Bytes;
use std::alloc::{AllocError, Global};

fn same_column(a: &Column, b: &Column) -> bool
    ensures { IsTrue result ↔ (a.now ≡ b.now) }
{
    (a.name.as_slice() == b.name.as_slice()
        && a.kind == b.kind
        && a.is_strict == b.is_strict
        && a.not_null == b.not_null)
        && (is_same(lend_value(&a.default), lend_value(&b.default)) && a.collation == b.collation)
}

fn same_columns(a: &[Column], b: &[Column]) -> bool
    ensures { IsTrue result ↔ (a.now ≡ b.now) }
{
    match (a, b) {
        ([], []) => true,
        ([x, a @ ..], [y, b @ ..]) => same_column(x, y) && same_columns(a, b),
        _ => false,
    }
}

fn same_name(a: &Bytes, b: &Bytes) -> bool
    ensures { IsTrue result ↔ (a.now ≡ b.now) }
{
    a.as_slice() == b.as_slice()
}

fn same_names(a: &[Bytes], b: &[Bytes]) -> bool
    ensures { IsTrue result ↔ (a.now ≡ b.now) }
{
    match (a, b) {
        ([], []) => true,
        ([x, a @ ..], [y, b @ ..]) => same_name(x, y) && same_names(a, b),
        _ => false,
    }
}

fn same_places(a: &Items<usize>, b: &Items<usize>) -> bool
    ensures { IsTrue result ↔ (a.now ≡ b.now) }
{
    a.as_slice() == b.as_slice()
}

fn same_keys(a: &[Items<usize>], b: &[Items<usize>]) -> bool
    ensures { IsTrue result ↔ (a.now ≡ b.now) }
{
    match (a, b) {
        ([], []) => true,
        ([x, a @ ..], [y, b @ ..]) => same_places(x, y) && same_keys(a, b),
        _ => false,
    }
}

fn same_orders(a: &[Order], b: &[Order]) -> bool
    ensures { IsTrue result ↔ (a.now ≡ b.now) }
{
    match (a, b) {
        ([], []) => true,
        ([x, a @ ..], [y, b @ ..]) => x.digits == y.digits && same_orders(a, b),
        _ => false,
    }
}

fn same_reference(a: &Reference, b: &Reference) -> bool
    ensures { IsTrue result ↔ (a.now ≡ b.now) }
{
    (a.columns.as_slice() == b.columns.as_slice()
        && a.parent.as_slice() == b.parent.as_slice()
        && same_names(a.parent_columns.as_slice(), b.parent_columns.as_slice()))
        && (a.on_delete == b.on_delete
            && a.on_update == b.on_update
            && a.is_deferred == b.is_deferred)
}

/// Whether two lists of references are the same.
pub fn same_references(a: &[Reference], b: &[Reference]) -> bool
    ensures { IsTrue result ↔ (a.now ≡ b.now) }
{
    match (a, b) {
        ([], []) => true,
        ([x, a @ ..], [y, b @ ..]) => same_reference(x, y) && same_references(a, b),
        _ => false,
    }
}

fn same_term(
    a: &[Node],
    a_depth: usize,
    a_at: usize,
    b: &[Node],
    b_depth: usize,
    b_at: usize,
) -> bool
    ensures { IsTrue result ↔ (term_at a.now a_depth a_at ≡ term_at b.now b_depth b_at) }
{
    let (x, x_below) = open(a, a_depth, a_at);
    let (y, y_below) = open(b, b_depth, b_at);
    match (x, y) {
        (Node::Literal(v), Node::Literal(w)) => is_same(v, w),
        (Node::Column(slot, at), Node::Column(other, place)) => slot == other && at == place,
        (Node::Unary(op, p), Node::Unary(by, q)) => {
            op == by && same_term(a, x_below, p, b, y_below, q)
        }
        (Node::Binary(op, p, r), Node::Binary(by, q, s)) => {
            op == by
                && same_term(a, x_below, p, b, y_below, q)
                && same_term(a, x_below, r, b, y_below, s)
        }
        (Node::Case(test, p, r), Node::Case(other, q, s)) => {
            same_term(a, x_below, test, b, y_below, other)
                && same_term(a, x_below, p, b, y_below, q)
                && same_term(a, x_below, r, b, y_below, s)
        }
        _ => false,
    }
}

fn same_roots(x: &[Node], a: &[usize], y: &[Node], b: &[usize]) -> bool
    ensures { IsTrue result ↔ (terms_of x.now a.now ≡ terms_of y.now b.now) }
{
    match (a, b) {
        ([], []) => true,
        ([p, a @ ..], [q, b @ ..]) => {
            same_term(x, x.len(), *p, y, y.len(), *q) && same_roots(x, a, y, b)
        }
        _ => false,
    }
}

fn same_lent(a: &LentTerms, b: &LentTerms) -> bool
    ensures { IsTrue result ↔ (terms_of a.now.nodes.items a.now.roots.now ≡ terms_of b.now.nodes.items b.now.roots.now) }
{
    same_roots(a.nodes.as_slice(), a.roots, b.nodes.as_slice(), b.roots)
}

fn same_terms(alloc: Global, a: &Terms, b: &Terms) -> Result<bool, AllocError>
    ensures { IfOk result (λ same. IsTrue same ↔ (a.now ≡ b.now)) }
{
    let (x, y) = (a.lend(alloc)?, b.lend(alloc)?);
    Ok(same_lent(&x, &y))
}

fn same_stamps(alloc: Global, a: &Stamps, b: &Stamps) -> Result<bool, AllocError>
    ensures { IfOk result (λ same. IsTrue same ↔ (a.now ≡ b.now)) }
{
    let terms = same_terms(alloc, &a.terms, &b.terms)?;
    Ok(
        terms
            && a.places.as_slice() == b.places.as_slice()
            && same_names(a.formats.as_slice(), b.formats.as_slice()),
    )
}

fn same_shape(a: &Table, b: &Table) -> bool
    ensures { IsTrue result ↔ ((a.now.name ≡ b.now.name) × (a.now.columns ≡ b.now.columns) × (a.now.key ≡ b.now.key) × (a.now.primary ≡ b.now.primary) × (a.now.is_counted ≡ b.now.is_counted)) }
{
    same_name(&a.name, &b.name)
        && same_columns(a.columns.as_slice(), b.columns.as_slice())
        && a.key == b.key
        && same_places(&a.primary, &b.primary)
        && a.is_counted == b.is_counted
}

fn same_rules(a: &Table, b: &Table) -> bool
    ensures { IsTrue result ↔ ((a.now.uniques ≡ b.now.uniques) × (a.now.orders ≡ b.now.orders) × (a.now.references ≡ b.now.references) × (a.now.computed ≡ b.now.computed)) }
{
    same_keys(a.uniques.as_slice(), b.uniques.as_slice())
        && same_orders(a.orders.as_slice(), b.orders.as_slice())
        && same_references(a.references.as_slice(), b.references.as_slice())
        && same_places(&a.computed, &b.computed)
}

/// Whether two tables have the same definition, wherever their rows are stored.
pub fn are_alike(alloc: Global, a: &Table, b: &Table) -> Result<bool, AllocError>
    ensures { IfOk result (λ same. IsTrue same ↔ AreAlike a.now b.now) }
{
    let checks = same_terms(alloc, &a.checks, &b.checks)?;
    let stamps = same_stamps(alloc, &a.stamps, &b.stamps)?;
    Ok(checks && stamps && same_shape(a, b) && same_rules(a, b))
}
