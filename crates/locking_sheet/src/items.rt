//! A row as an item of a lever's line.

ghost use Rattle.std.specs.Prelude.{◌≡◌, ◌++◌, OnOk, codes, decimal, string_bytes};
ghost use Rattle.std.specs.List.{flat_map};
ghost use Rattle.locking_sheet.specs.Items.{cond_text, conds_text, converse_text, converse_verb, end_text, item_text};
ghost use Rattle.locking_sheet.specs.Items.{verb_text};

use locking_table::{Cond, End, Row, RowKind};
use std::alloc::AllocError;
use std::fmt::Write;

fn end_text(end: End) -> &'static str
    ensures { result.now ≡ end_text end }
{
    match end {
        End::Normal => " n",
        End::Reversed => " r",
    }
}

// A condition behind what joins it on.
#[tactic(auto, unfolding(crate::specs::Items::cond_text))]
fn put_cond(out: &mut String, joint: &str, cond: &Cond) -> Result<(), AllocError>
    ensures { OnOk result (string_bytes out.new ≡ string_bytes out.old ++ cond_text joint.now cond.now) }
{
    let lever = cond.lever;
    out.push_str(joint)?;
    write!(out, "{lever}")?;
    out.push_str(end_text(cond.end))
}

// Conditions behind another one.
fn put_more(out: &mut String, conds: &[Cond]) -> Result<(), AllocError>
    ensures { OnOk result (string_bytes out.new
        ≡ string_bytes out.old ++ flat_map (cond_text (codes " and ")) conds.now) }
{
    for cond in conds {
        put_cond(out, " and ", cond)?;
    }
    Ok(())
}

/// Puts the conditions of a row behind a text: the first behind `when`, each other behind `and`.
pub fn put_conds(out: &mut String, conds: &[Cond]) -> Result<(), AllocError>
    ensures { OnOk result (string_bytes out.new ≡ string_bytes out.old ++ conds_text conds.now) }
{
    match conds {
        [] => Ok(()),
        [first, more @ ..] => {
            put_cond(out, " when ", first)?;
            put_more(out, more)
        }
    }
}

fn verb_text(kind: RowKind) -> &'static str
    ensures { result.now ≡ verb_text kind }
{
    match kind {
        RowKind::LocksNormal => " locks ",
        RowKind::ReleasedBy => " rel ",
        RowKind::LocksBoth => " both ",
    }
}

fn converse_verb(kind: RowKind) -> &'static str
    ensures { result.now ≡ converse_verb kind }
{
    match kind {
        RowKind::LocksNormal => " locked by ",
        RowKind::ReleasedBy => " releases ",
        RowKind::LocksBoth => " locked both ways by ",
    }
}

/// Puts a row at its subject behind a text.
#[tactic(auto, unfolding(crate::specs::Items::item_text))]
pub fn put_item(out: &mut String, number: usize, row: &Row) -> Result<(), AllocError>
    ensures { OnOk result (string_bytes out.new ≡ string_bytes out.old ++ item_text number row.now) }
{
    let object = row.object;
    write!(out, " #{number}")?;
    out.push_str(verb_text(row.kind))?;
    write!(out, "{object}")?;
    put_conds(out, row.when.as_slice())?;
    out.push_str(";")
}

/// Puts a row at its object behind a text.
#[tactic(auto, unfolding(crate::specs::Items::converse_text))]
pub fn put_converse(out: &mut String, number: usize, row: &Row) -> Result<(), AllocError>
    ensures { OnOk result (string_bytes out.new ≡ string_bytes out.old ++ converse_text number row.now) }
{
    let subject = row.subject;
    write!(out, " #{number}")?;
    out.push_str(converse_verb(row.kind))?;
    write!(out, "{subject}")?;
    put_conds(out, row.when.as_slice())?;
    out.push_str(";")
}
