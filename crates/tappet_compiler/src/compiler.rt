//! The bridle of a row, and the bridles of a table.

ghost use Rattle.std.specs.Prelude.{◌≡◌, ◌+◌, ◌<◌, ◌^◌, ◌∷◌, ◌++◌, [], ℕ, All, IfOk, length, map, replicate};
ghost use Rattle.locking_table.specs.declared.places.End.TheVariants.{Normal as NormalEnd};
ghost use Rattle.locking_table.specs.Meaning.{row_holds};
ghost use Rattle.locking_table.specs.Places.{LeverPlace, at_ends};
ghost use Rattle.locking_table.specs.Sound.{RowFits};
ghost use Rattle.bridle_frame.specs.Seated.{BridleFits, IsSeated, seated};
ghost use Rattle.tappet_compiler.specs.Compiled.{bridle_of, compiled, cond_dog, cond_notches, object_notches};

use bridle_frame::{Bridle, Dog, Dogs, Frame, Notches};
use locking_table::{Cond, End, NoMemory, Row, RowKind, Table};
use std::alloc::Global;

// The object's dog has its notches where the object doesn't break the kind.
fn object_notches(kind: RowKind) -> Notches
    ensures { result ≡ object_notches kind }
{
    match kind {
        RowKind::LocksNormal => Notches::Normal,
        RowKind::ReleasedBy => Notches::Reversed,
        RowKind::LocksBoth => Notches::Both,
    }
}

// A condition's dog has its notch where the condition doesn't act.
fn cond_notches(end: End) -> Notches
    ensures { result ≡ cond_notches end }
{
    match end {
        End::Reversed => Notches::Normal,
        End::Normal => Notches::Reversed,
    }
}

fn cond_dog(cond: &Cond) -> Dog
    ensures { result ≡ cond_dog cond.now }
{
    Dog {
        lever: cond.lever,
        notches: cond_notches(cond.end),
    }
}

// The bridle of a row: the subject's dog, the object's, and one for each condition.
fn bridle_of(alloc: Global, row: &Row, number: u32) -> Result<Bridle, NoMemory>
    ensures { IfOk result (λ b. b ≡ bridle_of row.now number) }
{
    let mut dogs = Vec::new(alloc);
    dogs.push(Dog {
        lever: row.subject,
        notches: Notches::Normal,
    })?;
    dogs.push(Dog {
        lever: row.object,
        notches: object_notches(row.kind),
    })?;
    for cond in row.when.as_slice() {
        dogs.push(cond_dog(cond))?;
    }
    Ok(Bridle {
        dogs: Dogs::from_vec(dogs),
        row: number,
    })
}

// The bridles of rows that are numbered from 1.
fn compile_rows(alloc: Global, rows: &[Row]) -> Result<Vec<Bridle>, NoMemory>
    requires { length rows.now < 2 ^ 32 }
    ensures { IfOk result (λ v. v.items ≡ compiled 1 rows.now) }
{
    let mut bridles = Vec::new(alloc);
    for (i, row) in rows.iter().enumerate() {
        bridles.push(bridle_of(alloc, row, i as u32 + 1)?)?;
    }
    Ok(bridles)
}

/// The bridles of a table: one for each row, in row order, each with its row's number.
///
/// In every state of a frame, a lever at mid included, a bridle is seated exactly where its row holds. A frame
/// that has each lever that the rows name can be made of the bridles.
pub fn compile(alloc: Global, table: &Table) -> Result<Vec<Bridle>, NoMemory>
    ensures bridles { IfOk result (λ v. v.items ≡ compiled 1 table.now) }
    ensures seated { IfOk result
        (λ v. (places : LeverPlace) → map (seated places) v.items ≡ map (row_holds places) table.now) }

    // What a frame needs of its bridles.
    ensures few { IfOk result (λ v. length v.items < 2 ^ 32) }
    ensures fits { IfOk result (λ v. (levers : ℕ) → All (RowFits levers) table.now → All (BridleFits levers) v.items) }
    ensures opening { IfOk result
        (λ v. (levers : ℕ) → All (RowFits levers) table.now
        → All (IsSeated (at_ends (replicate levers NormalEnd))) v.items) }
{
    compile_rows(alloc, table.rows())
}

/// The frame of a table, of levers 1 to `levers`, all of them normal.
pub fn frame_of(alloc: Global, levers: u32, table: &Table) -> Result<Frame, NoMemory>
    requires { All (RowFits levers) table.now }
    ensures { IfOk result (λ f. f ≡ record { ends = replicate levers NormalEnd; bridles = compiled 1 table.now }) }
{
    let bridles = compile(alloc, table)?;
    Frame::new(alloc, levers, bridles)
}
