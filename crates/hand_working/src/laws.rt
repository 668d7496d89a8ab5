//! What a call is to the journal, and what `undo` gives back.

ghost use Rattle.std.specs.Prelude.{◌≡◌, ◌++◌, ◌∷◌, ℕ};
ghost use Rattle.line_law.specs.declared.call.Call.{Call};
ghost use Rattle.hand_working.specs.Duties.{AreDoings, Doings, Post, journal_at, taken_back, with_made};
ghost use Rattle.hand_working.specs.Passages.{behind_call, entry_at};

/// A law: a call that he makes stands in the journal behind all that was done before, with the reply that he is shown,
/// and behind it what the others do, of which he is told what he notices. A call that is taken back leaves what he had
/// done before it.
pub fn hand_law()
    ensures shown { (post : Post) (doings : Doings) (call : Call) → journal_at post (with_made doings call)
        ≡ journal_at post doings ++ entry_at post doings call ∷ behind_call post doings call }
    ensures undone { (version : ℕ) (doings : Doings) (call : Call) → AreDoings version doings
        → taken_back (with_made doings call) ≡ doings }
{}
