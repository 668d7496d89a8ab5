//! The next call of a script of which some calls are made.

ghost use Rattle.std.specs.Prelude.{◌≡◌, ◌+◌, ◌<◌, ◌≤◌, ◌∷◌, Some, length, drop, option_map, slice_get};
ghost use Rattle.std.specs.Prelude.{slice_index_or, slice_set};
ghost use Rattle.line_law.specs.Serial.{calls_left};
ghost use Rattle.serial_working.specs.Rosters.{AreFewCalls, TakesCall, calls_of_scripts, head_of, left_of};
ghost use Rattle.script_text.specs.Scripts.{most_calls};

use line_law::Call;
use script_text::Script;

/// A call, and its number in the script, from 1.
#[derive(Clone, Copy, Debug, PartialEq, Eq)]
pub struct NumberedCall {
    /// What the signalman does, and when.
    pub call: Call,
    /// Which call of the script it is.
    pub number: u32,
}

// The call behind so many others.
#[tactic(auto, using(crate::proofs::LeftOf::head_rules))]
fn call_behind(calls: &[Call], made: usize) -> Option<&Call>
    ensures { option_map (λ call. call.now) result ≡ head_of (drop made calls.now) }
{
    calls.get(made)
}

/// The next call of a box, if it has one left.
pub fn next_call<'a>(scripts: &'a [Script], made: &[usize], box_no: usize) -> Option<&'a Call>
    requires counts { length made.now ≡ length scripts.now }
    requires box_no { box_no < length scripts.now }
    ensures { option_map (λ call. call.now) result
        ≡ head_of (calls_left (left_of (calls_of_scripts scripts.now) made.now) box_no) }
{
    call_behind(scripts[box_no].calls.as_slice(), made[box_no])
}

// The call behind so many others, which are fewer than all.
fn numbered_call(calls: &[Call], made: usize) -> NumberedCall
    requires more { made < length calls.now }
    requires few { length calls.now ≤ most_calls }
    ensures call { drop made calls.now ≡ result.call ∷ drop (made + 1) calls.now }
    ensures number { result.number ≡ made + 1 }
{
    NumberedCall {
        call: calls[made],
        number: made as u32 + 1,
    }
}

/// Takes the next call of a box, which has one left, with its number in the script: so many are then made.
pub fn take_call(scripts: &[Script], made: &mut [usize], box_no: usize) -> NumberedCall
    requires counts { length made.old ≡ length scripts.now }
    requires box_no { box_no < length scripts.now }
    requires few { AreFewCalls scripts.now }
    requires left { 0 < length (calls_left (left_of (calls_of_scripts scripts.now) made.old) box_no) }
    ensures call { TakesCall (left_of (calls_of_scripts scripts.now) made.old)
        (left_of (calls_of_scripts scripts.now) made.new) box_no result.call }
    ensures made { made.new ≡ slice_set made.old box_no (slice_index_or made.old box_no 0 + 1) }
    ensures number { slice_get made.new box_no ≡ Some result.number }
{
    let taken = numbered_call(scripts[box_no].calls.as_slice(), made[box_no]);
    made[box_no] += 1;
    taken
}
