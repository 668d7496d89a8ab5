//! What is printed is read, and what is read is spelled so.

ghost use Rattle.std.specs.Prelude.{◌≡◌, ◌<◌, ℕ, List, length, Some, Ok, IsTrue};
ghost use Rattle.line_plan.specs.Plans.{PlanFields, IsPlan};
ghost use Rattle.line_law.specs.Known.{KnowsCall, moments_of};
ghost use Rattle.line_law.specs.declared.call.Act.{Act};
ghost use Rattle.line_law.specs.declared.call.Call.{Call};
ghost use Rattle.line_law.specs.declared.call.Reply.{Reply};
ghost use Rattle.script_text.specs.declared.script.Script.{Script};
ghost use Rattle.script_text.specs.Calls.{call_of, call_text};
ghost use Rattle.script_text.specs.Moments.{moment_of, moment_text};
ghost use Rattle.script_text.specs.Scripts.{IsScriptOf, script_of, script_text};
ghost use Rattle.script_text.specs.Answers.{reply_of};
ghost use Rattle.script_text.specs.Replies.{is_spelled_reply, reply_text};
ghost use Rattle.script_text.specs.PossibleReplies.{may_answer};
ghost use Rattle.script_text.specs.Spelled.{SpellsCall, SpellsReply, SpellsScript};

/// A law, in each version: a moment of a day is read as it is printed, and no other word is read as that moment. So two
/// different moments are printed differently.
#[tactic(auto, using(crate::proofs::MomentTexts::moment_rules))]
pub fn moments_law()
    ensures printed { (version moment : ℕ) → moment < moments_of version
        → moment_of version (moment_text version moment) ≡ Some moment }
    ensures spelled { (version : ℕ) (word : List ℕ) (moment : ℕ) → moment_of version word ≡ Some moment
        → word ≡ moment_text version moment }
{}

/// A law: a call that a plan knows is read as it is printed, and no other text is read as that call. So two different
/// calls are printed differently.
#[tactic(auto, using(crate::proofs::CallTexts::call_rules))]
pub fn calls_law()
    ensures printed { (plan : PlanFields) (b : ℕ) (call : Call) → IsPlan plan → KnowsCall plan b call
        → call_of plan b (call_text plan call) ≡ Ok call }
    ensures spelled { (plan : PlanFields) (b : ℕ) (text : List ℕ) (call : Call) → b < length plan.boxes
        → call_of plan b text ≡ Ok call → SpellsCall plan b text call }
{}

/// A law: a reply that a text can spell at a box is read as it is printed for each call that may have it, and what a
/// text is read as is spelled so. So two different replies of a box are printed differently, whatever the calls.
#[tactic(auto, using(crate::proofs::ReplyTexts::reply_rules))]
pub fn replies_law()
    ensures printed { (plan : PlanFields) (b : ℕ) (act : Act) (reply : Reply) → IsPlan plan → b < length plan.boxes
        → IsTrue (may_answer act reply) → IsTrue (is_spelled_reply plan b reply)
        → reply_of plan b act (reply_text plan b reply) ≡ Ok reply }
    ensures spelled { (plan : PlanFields) (b : ℕ) (act : Act) (text : List ℕ) (reply : Reply)
        → reply_of plan b act text ≡ Ok reply → SpellsReply plan b act text reply }
    ensures differ { (plan : PlanFields) (b : ℕ) (one other : Reply) → IsPlan plan → b < length plan.boxes
        → IsTrue (is_spelled_reply plan b one) → IsTrue (is_spelled_reply plan b other)
        → reply_text plan b one ≡ reply_text plan b other → one ≡ other }
{}

/// A law: a text is read as a script exactly where it spells it, with comments and empty lines or without. A script as
/// it is printed spells itself, and is read as itself.
#[tactic(auto, using(crate::proofs::ScriptTexts::script_rules))]
pub fn scripts_law()
    ensures printed { (plan : PlanFields) (b : ℕ) (script : Script) → IsPlan plan → b < length plan.boxes
        → IsScriptOf plan b script → script_of plan b (script_text plan script) ≡ Ok script }
    ensures printed_spells { (plan : PlanFields) (b : ℕ) (script : Script) → IsPlan plan → b < length plan.boxes
        → IsScriptOf plan b script → SpellsScript plan b (script_text plan script) script }
    ensures spelled { (plan : PlanFields) (b : ℕ) (bytes : List ℕ) (script : Script) → b < length plan.boxes
        → script_of plan b bytes ≡ Ok script → SpellsScript plan b bytes script }
    ensures spellings { (plan : PlanFields) (b : ℕ) (bytes : List ℕ) (script : Script) → IsPlan plan
        → b < length plan.boxes → SpellsScript plan b bytes script → script_of plan b bytes ≡ Ok script }
{}
