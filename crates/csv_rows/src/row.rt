//! A row.

ghost use Rattle.std.specs.Prelude.{◌≡◌, ◌++◌, ◌∷◌, [], OnErr, OnOk};
ghost use Rattle.csv.specs.Records.{fields_of};

use csv::ByteRecord;
use std::alloc::{AllocError, Global};
use std::marker::Model;

/// A row that is put together field by field. Contracts see its fields.
#[derive(Drop)]
pub struct Row {
    record: ByteRecord,
}

impl Model for Row {
    ghost use Rattle.std.specs.Prelude.{◌≡◌, ℕ, List, []};
    ghost use Rattle.csv.specs.Records.{fields_of, partial_of};

    ghost Value = { List (List ℕ) };

    ghost view = { λ row. fields_of row.record };

    ghost invariant = { λ row. partial_of row.record ≡ [] };
}

impl Row {
    /// A row with no field. It takes no memory.
    pub fn new(alloc: Global) -> Row
        ensures { result ≡ [] }
    {
        Row {
            record: ByteRecord::new(alloc),
        }
    }

    /// One field more. Where memory runs out no field is left.
    pub fn put(&mut self, field: &str) -> Result<(), AllocError>
        ensures put { OnOk result (self.new ≡ self.old ++ field.now ∷ []) }
        ensures lost { OnErr result (self.new ≡ []) }
    {
        match self.record.push_field(field.as_bytes()) {
            Ok(()) => Ok(()),
            Err(AllocError) => {
                self.record.clear();
                Err(AllocError)
            }
        }
    }

    /// The row as `csv` has it.
    pub(crate) fn record(&self) -> &ByteRecord
        ensures { fields_of result.now ≡ self.now }
    {
        &self.record
    }
}
