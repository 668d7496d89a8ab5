//! Names that are kept.

ghost use Rattle.std.specs.Prelude.{◌≡◌, ◌<◌, ◌^◌, [], ◌∷◌, ◌++◌, length, false, bytes_eq, IfOk, OnOk, OnErr};
ghost use Rattle.std.specs.List.{list_any};

use line_plan::Label;
use rail_text::{Names, NoMemory};
use std::alloc::Global;

/// The label of a name.
pub fn label_of(alloc: Global, name: &str) -> Result<Label, NoMemory>
    ensures { IfOk result (λ label. label ≡ name.now) }
{
    Ok(Label::from_string(String::from_str(alloc, name)?))
}

/// A name more, which is new.
pub fn add_name(names: &mut Names, name: &str) -> Result<(), NoMemory>
    requires few { length names.old < 2 ^ 32 }
    requires new { list_any (bytes_eq name.now) names.old ≡ false }
    ensures ok { OnOk result (names.new ≡ names.old ++ name.now ∷ []) }
    ensures err { OnErr result (names.new ≡ names.old) }
{
    let _number = names.add(name)?;
    Ok(())
}

/// A name more, which is new, and its label.
pub fn add_label(alloc: Global, names: &mut Names, name: &str) -> Result<Label, NoMemory>
    requires few { length names.old < 2 ^ 32 }
    requires new { list_any (bytes_eq name.now) names.old ≡ false }
    ensures label { IfOk result (λ label. label ≡ name.now) }
    ensures ok { OnOk result (names.new ≡ names.old ++ name.now ∷ []) }
    ensures err { OnErr result (names.new ≡ names.old) }
{
    let label = label_of(alloc, name)?;
    match add_name(names, name) {
        Ok(()) => Ok(label),
        Err(fault) => {
            drop(label);
            Err(fault)
        }
    }
}
