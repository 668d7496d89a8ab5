//! Rows as they are printed.

ghost use Rattle.std.specs.Prelude.{◌≡◌, ◌++◌, IfOk, OnOk, codes, decimal, drop, string_bytes};
ghost use Rattle.std.specs.List.{flat_map};
ghost use Rattle.locking_table.specs.Printing.{cond_words, end_word, kind_words, row_text, when_words};
ghost use Rattle.locking_table.specs.Sound.{IsRow};
ghost use Rattle.locking_table.specs.Words.{spaced};

use crate::memory::NoMemory;
use crate::places::End;
use crate::row::{Cond, Row, RowKind};
use itoa::Buffer;
use std::alloc::{AllocError, Global};

fn end_word(end: End) -> &'static str
    ensures { result.now ≡ end_word end }
{
    match end {
        End::Normal => "normal",
        End::Reversed => "reversed",
    }
}

#[tactic(auto, using(std::proofs::lemmas::Fmt::decimal_digit))]
fn put_number(out: &mut String, number: u32) -> Result<(), AllocError>
    ensures { OnOk result (string_bytes out.new ≡ string_bytes out.old ++ decimal number) }
{
    if number < 10 {
        return out.push(char::from(b'0' + number as u8));
    }
    let mut buffer = Buffer::new();
    out.push_str(buffer.format(number))
}

// What a row says of its object.
#[tactic(auto, using(crate::proofs::PrintLemmas::print_rules))]
fn put_kind(out: &mut String, kind: RowKind, object: u32) -> Result<(), AllocError>
    ensures { OnOk result (string_bytes out.new ≡ string_bytes out.old ++ spaced (kind_words kind object)) }
{
    let (before, behind) = match kind {
        RowKind::LocksNormal => (" locks ", " normal"),
        RowKind::ReleasedBy => (" released by ", ""),
        RowKind::LocksBoth => (" locks ", " both ways"),
    };
    out.push_str(before)?;
    put_number(out, object)?;
    out.push_str(behind)
}

// A condition behind the word that joins it on.
#[tactic(auto, using(crate::proofs::PrintLemmas::print_rules))]
fn put_cond(out: &mut String, joint: &str, cond: &Cond) -> Result<(), AllocError>
    ensures { OnOk result (string_bytes out.new ≡ string_bytes out.old ++ spaced (cond_words joint.now cond.now)) }
{
    out.push_str(" ")?;
    out.push_str(joint)?;
    out.push_str(" ")?;
    put_number(out, cond.lever)?;
    out.push_str(" ")?;
    out.push_str(end_word(cond.end))
}

// Conditions behind another one.
#[tactic(auto, using(crate::proofs::PrintLemmas::print_rules))]
fn put_more(out: &mut String, conds: &[Cond]) -> Result<(), AllocError>
    ensures { OnOk result (string_bytes out.new
        ≡ string_bytes out.old ++ spaced (flat_map (cond_words (codes "and")) conds.now)) }
{
    for cond in conds {
        put_cond(out, "and", cond)?;
    }
    Ok(())
}

// The first condition behind `when`, each other behind `and`.
#[tactic(auto, using(crate::proofs::PrintLemmas::print_rules))]
fn put_conds(out: &mut String, conds: &[Cond]) -> Result<(), AllocError>
    ensures { OnOk result (string_bytes out.new ≡ string_bytes out.old ++ spaced (when_words conds.now)) }
{
    match conds {
        [] => Ok(()),
        [first, more @ ..] => {
            put_cond(out, "when", first)?;
            put_more(out, more)
        }
    }
}

/// Puts the one text that spells a row behind a text. Where memory runs out a part may stand behind it.
#[tactic(auto, using(crate::proofs::PrintLemmas::print_rules))]
pub fn put_row(out: &mut String, row: &Row) -> Result<(), AllocError>
    ensures { OnOk result (string_bytes out.new ≡ string_bytes out.old ++ row_text row.now) }
{
    put_number(out, row.subject)?;
    put_kind(out, row.kind, row.object)?;
    put_conds(out, row.when.as_slice())
}

/// The one text that spells a row.
pub fn print_row(alloc: Global, row: &Row) -> Result<Vec<u8>, NoMemory>
    requires { IsRow row.now }
    ensures { IfOk result (λ text. text.items ≡ row_text row.now) }
{
    let mut out = String::new(alloc);
    put_row(&mut out, row)?;
    Ok(out.into_bytes())
}
