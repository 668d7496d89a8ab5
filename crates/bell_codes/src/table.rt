//! The code table: the bell codes that a line uses, with their numbers.

ghost use Rattle.std.specs.Prelude.{◌≡◌, ◌↔◌, ℕ, ◌+◌, ◌-◌, ◌≤◌, ◌<◌, List, [], ◌∷◌, ◌++◌, length, position, bytes_eq};
ghost use Rattle.std.specs.Prelude.{IsTrue, IsNone, IfSome, Contains, IfOk, IfErr, OnErr, IsErrOf, Some, None};
ghost use Rattle.std.specs.Prelude.{slice_get};
ghost use Rattle.std.specs.Cmp.{partial_equiv_from_equiv};
ghost use Rattle.std.specs.Cmp.Lexicographic.{pointwise, lists_equiv, nat_list_eq_equiv};
ghost use Rattle.bell_codes.specs.Table.{code_number, code_at, opening_codes, AddsCode, IsCodeTable, IsNumber};
ghost use Rattle.bell_codes.specs.Table.{IsWhyNotAdded};

use crate::{AddFault, Code, NoMemory};
use std::alloc::{AllocError, Global};
use std::marker::Model;

/// The number of a code in its table, from 1.
pub type CodeNo = u8;

/// One beat: Call Attention.
pub const CALL_ATTENTION: CodeNo = 1;

/// 4: an express passenger train.
pub const EXPRESS: CodeNo = 2;

/// 3-1: an ordinary passenger train.
pub const ORDINARY: CodeNo = 3;

/// 2-2-1: an empty coaching stock train.
pub const EMPTY: CodeNo = 4;

/// 2-3: a light engine.
pub const LIGHT: CodeNo = 5;

/// 2: Train Entering Section.
pub const TRAIN_ENTERING_SECTION: CodeNo = 6;

/// 2-1: Train Out of Section.
pub const TRAIN_OUT_OF_SECTION: CodeNo = 7;

/// 3-5: Cancelling.
pub const CANCELLING: CodeNo = 8;

/// 6: Obstruction Danger.
pub const OBSTRUCTION_DANGER: CodeNo = 9;

/// 16: Testing.
pub const TESTING: CodeNo = 10;

/// At most 200 different codes, numbered from 1 in the order in which they came.
#[derive(Debug, Drop)]
pub struct CodeTable {
    codes: Vec<Code>,
}

impl Model for CodeTable {
    ghost use Rattle.std.specs.Prelude.{List, ℕ};
    ghost use Rattle.bell_codes.specs.Table.{IsCodeTable};

    ghost Value = { List (List ℕ) };

    ghost view = { λ table. table.codes.items };

    ghost invariant = { λ table. IsCodeTable table.codes.items };
}

impl CodeTable {
    /// How many codes a table may have.
    pub const MOST: usize = 200;

    /// The table with which every line begins, of ten codes.
    ///
    /// | No | Code | Meaning | No | Code | Meaning |
    /// |---|---|---|---|---|---|
    /// | 1 | 1 | Call Attention | 6 | 2 | Train Entering Section |
    /// | 2 | 4 | express passenger | 7 | 2-1 | Train Out of Section |
    /// | 3 | 3-1 | ordinary passenger | 8 | 3-5 | Cancelling |
    /// | 4 | 2-2-1 | empty coaching stock | 9 | 6 | Obstruction Danger |
    /// | 5 | 2-3 | light engine | 10 | 16 | Testing |
    #[tactic(auto, unfolding(crate::specs::Codes::is_code, crate::specs::Table::opening_codes))]
    pub fn opening(alloc: Global) -> Result<CodeTable, NoMemory>
        ensures { IfOk result (λ table. table ≡ opening_codes) }
    {
        let codes = [
            Code::of(1, [1, 0, 0, 0, 0]),
            Code::of(1, [4, 0, 0, 0, 0]),
            Code::of(2, [3, 1, 0, 0, 0]),
            Code::of(3, [2, 2, 1, 0, 0]),
            Code::of(2, [2, 3, 0, 0, 0]),
            Code::of(1, [2, 0, 0, 0, 0]),
            Code::of(2, [2, 1, 0, 0, 0]),
            Code::of(2, [3, 5, 0, 0, 0]),
            Code::of(1, [6, 0, 0, 0, 0]),
            Code::of(1, [16, 0, 0, 0, 0]),
        ];
        Ok(CodeTable {
            codes: Vec::from_slice(alloc, &codes)?,
        })
    }

    /// How many codes the table has.
    pub fn len(&self) -> usize
        ensures value { result ≡ length self.now }
        ensures valid { IsCodeTable self.now }
    {
        self.codes.len()
    }

    /// The codes in the order of their numbers.
    pub fn codes(&self) -> &[Code]
        ensures { result.now ≡ self.now }
    {
        &self.codes
    }

    pub fn is_empty(&self) -> bool
        ensures { IsTrue result ↔ (self.now ≡ []) }
    {
        self.codes.is_empty()
    }

    /// Whether the table has as many codes as it may.
    pub fn is_full(&self) -> bool
        ensures { IsTrue result ↔ (length self.now ≡ 200) }
    {
        self.codes.len() == Self::MOST
    }

    // The number of the code of these groups.
    #[tactic(auto, unfolding(crate::specs::Table::code_number))]
    fn number_of_groups(&self, groups: &[u8]) -> Option<CodeNo>
        ensures { result ≡ code_number self.now groups.now }
    {
        let place = place_of(&self.codes, groups)?;
        Some(place as CodeNo + 1)
    }

    /// The number of a code; `None` exactly where the table doesn't have it.
    #[tactic(auto, using(crate::proofs::Numbers::number_rules))]
    pub fn number_of(&self, code: Code) -> Option<CodeNo>
        ensures exact { result ≡ code_number self.now code }
        ensures found { IfSome result (λ no. IsNumber self.now code no) }
        ensures absent { IsNone result ↔ ¬ Contains self.now code }
    {
        self.number_of_groups(code.groups())
    }

    /// The code with this number.
    #[tactic(auto, unfolding(crate::specs::Table::code_at))]
    pub fn code(&self, no: CodeNo) -> Code
        requires low { 1 ≤ no }
        requires high { no ≤ length self.now }
        ensures value { result ≡ code_at self.now no }
        ensures here { IsNumber self.now result no }
        ensures number { code_number self.now result ≡ Some no }
    {
        self.codes[no as usize - 1]
    }

    /// Adds a code, under the next number. A code that is there is `Known`, also in a full table.
    #[tactic(auto, using(crate::proofs::Numbers::added))]
    pub fn add(&mut self, code: Code) -> Result<CodeNo, AddFault>
        ensures added { IfOk result (λ no. AddsCode self.old self.new code no) }
        ensures why_not { IfErr result (λ fault. IsWhyNotAdded self.old code fault) }
        ensures known { (no : ℕ) → IsErrOf result (AddFault.Known no) ↔ (code_number self.old code ≡ Some no) }
        ensures full { IsErrOf result AddFault.Full ↔ ((code_number self.old code ≡ None) × (length self.old ≡ 200)) }
        ensures err { OnErr result (self.new ≡ self.old) }
    {
        if let Some(no) = self.number_of_groups(code.groups()) {
            return Err(AddFault::Known { no });
        }
        if self.is_full() {
            return Err(AddFault::Full);
        }
        let no = self.codes.len() as CodeNo + 1;
        self.codes.push(code)?;
        Ok(no)
    }
}

impl Clone for CodeTable {
    ghost is_clone = { λ table copy. copy ≡ table };

    fn clone(&self) -> Result<CodeTable, AllocError> {
        Ok(CodeTable {
            codes: self.codes.clone()?,
        })
    }
}

impl PartialEq for CodeTable {
    ghost eq = { pointwise bytes_eq };

    ghost laws = { partial_equiv_from_equiv (lists_equiv nat_list_eq_equiv) };

    fn eq(&self, other: &CodeTable) -> bool {
        self.codes == other.codes
    }
}

impl Eq for CodeTable {
    ghost laws = { lists_equiv nat_list_eq_equiv };
}

// The first place at which the code of these groups stands.
fn place_of(codes: &[Code], groups: &[u8]) -> Option<usize>
    ensures place { result ≡ position (bytes_eq groups.now) codes.now }
    ensures within { IfSome result (λ place. place < length codes.now) }
{
    codes.iter().position(|known| groups == known.groups())
}

/// A law: the codes of the opening table stand under these numbers.
#[tactic(auto, unfolding(crate::specs::Table::code_number, crate::specs::Table::opening_codes))]
pub fn opening_numbers()
    ensures call_attention { code_number opening_codes (1 ∷ []) ≡ Some CALL_ATTENTION }
    ensures express { code_number opening_codes (4 ∷ []) ≡ Some EXPRESS }
    ensures ordinary { code_number opening_codes (3 ∷ 1 ∷ []) ≡ Some ORDINARY }
    ensures empty { code_number opening_codes (2 ∷ 2 ∷ 1 ∷ []) ≡ Some EMPTY }
    ensures light { code_number opening_codes (2 ∷ 3 ∷ []) ≡ Some LIGHT }
    ensures entering { code_number opening_codes (2 ∷ []) ≡ Some TRAIN_ENTERING_SECTION }
    ensures out { code_number opening_codes (2 ∷ 1 ∷ []) ≡ Some TRAIN_OUT_OF_SECTION }
    ensures cancelling { code_number opening_codes (3 ∷ 5 ∷ []) ≡ Some CANCELLING }
    ensures danger { code_number opening_codes (6 ∷ []) ≡ Some OBSTRUCTION_DANGER }
    ensures testing { code_number opening_codes (16 ∷ []) ≡ Some TESTING }
{}
