//! The breaches of a journal as they are printed.

ghost use Rattle.std.specs.Prelude.{◌≡◌, ◌++◌, IfOk, OnOk, string_bytes};
ghost use Rattle.std.specs.List.{flat_map};
ghost use Rattle.reg_audit.specs.Texts.{audit_text, breach_text};

use crate::rule::Breach;
use rail_text::NoMemory;
use std::alloc::{AllocError, Global};
use std::fmt::Write;

// The line of a breach: the entry's number, and the number and the name of the rule.
#[tactic(auto, unfolding(crate::specs::Texts::breach_text))]
fn put_breach(out: &mut String, breach: Breach) -> Result<(), AllocError>
    ensures { OnOk result (string_bytes out.new ≡ string_bytes out.old ++ breach_text breach) }
{
    let entry = breach.entry;
    let number = breach.rule.number();
    write!(out, "{entry} rule {number} ")?;
    out.push_str(breach.rule.name())?;
    out.push_str("\n")
}

// The lines of all breaches.
fn put_breaches(out: &mut String, breaches: &[Breach]) -> Result<(), AllocError>
    ensures { OnOk result (string_bytes out.new ≡ string_bytes out.old ++ flat_map breach_text breaches.now) }
{
    for breach in breaches {
        put_breach(out, *breach)?;
    }
    Ok(())
}

// How many breaches there are, and the line of each.
#[tactic(auto, unfolding(crate::specs::Texts::audit_text))]
fn put_audit(out: &mut String, breaches: &[Breach]) -> Result<(), AllocError>
    ensures { OnOk result (string_bytes out.new ≡ string_bytes out.old ++ audit_text breaches.now) }
{
    let count = breaches.len();
    write!(out, "audit {count}\n")?;
    put_breaches(out, breaches)
}

/// An audit as it is printed: `audit` and the number of breaches, and for each a line with the entry's number, the word
/// `rule`, and the number and the name of the rule.
pub fn print_audit(alloc: Global, breaches: &[Breach]) -> Result<Vec<u8>, NoMemory>
    ensures { IfOk result (λ text. text.items ≡ audit_text breaches.now) }
{
    let mut out = String::new(alloc);
    put_audit(&mut out, breaches)?;
    Ok(out.into_bytes())
}
