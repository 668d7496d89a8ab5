//! What a row says beside what is known.

ghost use Rattle.std.specs.Prelude.{◌≡◌};
ghost use Rattle.row_refutations.specs.Known.{object_of, row_said, said_of, said_with, subject_of};

use crate::known::{Look, Said, look_at};
use locking_table::{Cond, End, Row, RowKind};

// What is said with one condition more.
fn said_with(look: Look, said: Said, cond: Cond) -> Said
    ensures { result ≡ said_with look said cond }
{
    match (look, said) {
        (Look::Stands, said) => said,
        (Look::Unknown, Said::Broken) => Said::Forces(cond),
        (Look::Differs, _) | (Look::Unknown, _) => Said::Nothing,
    }
}

// What is said with all these conditions.
fn said_of(known: &[Option<End>], said: Said, conds: &[Cond]) -> Said
    ensures { result ≡ said_of known.now said conds.now }
{
    let mut told = said;
    for cond in conds {
        told = said_with(look_at(known, *cond), told, *cond);
    }
    told
}

// The subject of a row, reversed.
fn subject_of(row: &Row) -> Cond
    ensures { result ≡ subject_of row.now }
{
    Cond {
        lever: row.subject,
        end: End::Reversed,
    }
}

// How the object of a row must not stand while the row acts.
fn object_of(row: &Row) -> Cond
    ensures { result ≡ object_of row.now.kind row.now }
{
    match row.kind {
        RowKind::LocksNormal => Cond {
            lever: row.object,
            end: End::Reversed,
        },
        RowKind::ReleasedBy => Cond {
            lever: row.object,
            end: End::Normal,
        },
        RowKind::LocksBoth => Cond {
            lever: row.subject,
            end: End::Normal,
        },
    }
}

/// What a row says beside what is known.
pub(crate) fn row_said(known: &[Option<End>], row: &Row) -> Said
    ensures { result ≡ row_said known.now row.now }
{
    let (subject, object) = (subject_of(row), object_of(row));
    let said = said_with(look_at(known, subject), Said::Broken, subject);
    let said = said_with(look_at(known, object), said, object);
    said_of(known, said, row.when.as_slice())
}
