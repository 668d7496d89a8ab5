//! Lines are answered.

ghost use Rattle.std.specs.Prelude.{◌≡◌, ◌≤◌, IfOk, Ok, length};
ghost use Rattle.line_requests.specs.Requests.{shown};
ghost use Rattle.line_service.specs.Answers.{is_end, kept_of};

use crate::calls::{box_named, call_line, entry_on};
use crate::lists::{before_entry, journal_text, moves_text};
use crate::looks::{look_text, looks_text, section_named, section_text};
use crate::moves::present_of;
use crate::scripts::script_given;
use crate::service::Service;
use journal_records::entry_text;
use line_law::Entry;
use line_requests::{
    Fault, LINE_LIMIT, Request, count_room, count_text, fault_text, put_count, request_in, value_in,
};
use rail_text::{Cause, NoMemory};
use script_text::Script;
use serde_json::Value;
use std::alloc::Global;

/// What answers a line.
#[derive(Drop)]
pub struct Answer {
    /// The answer: JSON, in one line without its end.
    pub text: String,
    /// Whether the line asks to end.
    pub ends: bool,
}

// Whether a request is to end.
fn is_end(request: &Request<'_>) -> bool
    ensures { result ≡ is_end (Ok (shown request.now)) }
{
    matches!(request, Request::End)
}

// So many entries, where there are as many.
fn kept_of(service: &Service, count: u64) -> Result<usize, Fault>
    ensures exact { result ≡ kept_of service.now count }
    ensures within { IfOk result (λ first. first ≤ length service.now.entries) }
{
    if count <= service.entries().len() as u64 {
        Ok(count as usize)
    } else {
        Err(Fault::UnknownEntry)
    }
}

impl Service {
    ghost use Rattle.std.specs.Prelude.{◌≡◌, IfErr, IfOk, length, string_bytes};
    ghost use Rattle.serde_json.specs.View.{view};
    ghost use Rattle.line_requests.specs.Answers.{IsCountText, IsFaultText};
    ghost use Rattle.line_requests.specs.Requests.{asked_in, asked_or, request_or, shown, value_in};
    ghost use Rattle.line_service.specs.Answers.{IsAnswer, IsAnswered, IsMadeText, IsNext, IsReadText, after_asked};
    ghost use Rattle.line_service.specs.Answers.{after_line, after_made, after_read, ends, is_end};
    ghost use Rattle.line_service.specs.Answers.{IsBackText, IsGivenText, after_back, after_given, kept_of};
    ghost use Rattle.line_service.specs.Calls.{MayFollow, box_named, call_line, entry_on};
    ghost use Rattle.line_service.specs.Lists.{AreMoves, IsListed, before_entry, present_of};
    ghost use Rattle.line_service.specs.Scripts.{MayWork, script_given};
    ghost use Rattle.line_service.specs.Looks.{AreChanged, IsLookText, IsLooksText, IsSectionText, section_named};

    // A fault is answered. It changes nothing.
    fn answer_fault(&self, alloc: Global, fault: Fault) -> Result<String, NoMemory>
        ensures { IfOk result (λ text. IsFaultText fault (string_bytes text)) }
    {
        Ok(fault_text(alloc, fault)?)
    }

    // An entry is kept, and answered.
    fn answer_entry(&mut self, alloc: Global, entry: Entry) -> Result<String, NoMemory>
        requires { MayFollow self.old entry }
        ensures after { IfOk result (λ _. self.new ≡ after_made self.old (Ok entry)) }
        ensures next { IfOk result (λ _. IsNext self.old self.new) }
        ensures text { IfOk result (λ text. IsMadeText self.old (Ok entry) (string_bytes text)) }
        ensures kept { IfErr result (λ _. self.new ≡ self.old) }
    {
        self.is_spelled(&entry);
        let number = self.entries().len() as u64 + 1;
        let text = entry_text(alloc, self.plan(), number, &entry)?;
        self.keep(entry)?;
        Ok(text)
    }

    // The entries from a number on are answered.
    fn answer_journal(&self, alloc: Global, from: u64) -> Result<String, NoMemory>
        ensures { IfOk result (λ text. IsListed self.now (before_entry self.now from) (string_bytes text)) }
    {
        match before_entry(self, from) {
            Ok(before) => Ok(journal_text(alloc, self, before)?),
            Err(fault) => self.answer_fault(alloc, fault),
        }
    }

    // What would be answered if each lever of a box were moved.
    fn answer_may(&self, alloc: Global, box_name: &str, at: &str) -> Result<String, NoMemory>
        ensures { IfOk result
            (λ text. AreMoves self.now (present_of self.now box_name.now at.now) (string_bytes text)) }
    {
        match present_of(self, box_name, at) {
            Ok(here) => Ok(moves_text(alloc, self, here)?),
            Err(fault) => self.answer_fault(alloc, fault),
        }
    }

    // What stands at a box is answered.
    fn answer_look(&self, alloc: Global, box_name: &str) -> Result<String, NoMemory>
        ensures { IfOk result
            (λ text. IsLookText self.now (box_named self.now.plan box_name.now) (string_bytes text)) }
    {
        match box_named(self.plan(), box_name) {
            Ok(box_no) => look_text(alloc, self, box_no),
            Err(fault) => self.answer_fault(alloc, fault),
        }
    }

    // What belongs to a section is answered.
    fn answer_section(&self, alloc: Global, rear: &str, advance: &str) -> Result<String, NoMemory>
        ensures { IfOk result (λ text. IsSectionText self.now
            (section_named self.now.plan rear.now advance.now) (string_bytes text)) }
    {
        match section_named(self.plan(), rear, advance) {
            Ok(section) => section_text(alloc, self, section),
            Err(fault) => self.answer_fault(alloc, fault),
        }
    }

    // All that stands is answered.
    fn answer_looks(&self, alloc: Global) -> Result<String, NoMemory>
        ensures { IfOk result (λ text. IsLooksText self.now (string_bytes text)) }
    {
        looks_text(alloc, self)
    }

    // What stands otherwise than behind so many entries is answered.
    fn answer_changes(&mut self, alloc: Global, count: u64) -> Result<String, NoMemory>
        ensures text { IfOk result (λ text. AreChanged self.old (kept_of self.old count) (string_bytes text)) }
        ensures same { self.new ≡ self.old }
    {
        match kept_of(self, count) {
            Ok(first) => self.changes_since(alloc, first),
            Err(fault) => self.answer_fault(alloc, fault),
        }
    }

    // A box is given a script, and that is answered.
    fn answer_given(&mut self, alloc: Global, script: Script) -> Result<String, NoMemory>
        requires { MayWork self.old script }
        ensures after { IfOk result (λ _. self.new ≡ after_given self.old (Ok script)) }
        ensures next { IfOk result (λ _. IsNext self.old self.new) }
        ensures text { IfOk result (λ text. IsGivenText self.old (Ok script) (string_bytes text)) }
        ensures kept { IfErr result (λ _. self.new ≡ self.old) }
    {
        let room = count_room(alloc)?;
        self.work_by(script)?;
        Ok(put_count(room, self.entries().len() as u64))
    }

    // The text of a script is answered.
    fn answer_script(&mut self, alloc: Global, text: &str) -> Result<String, NoMemory>
        ensures after { IfOk result (λ _. self.new ≡ after_given self.old (script_given self.old text.now)) }
        ensures next { IfOk result (λ _. IsNext self.old self.new) }
        ensures text { IfOk result (λ answer. IsGivenText self.old (script_given self.old text.now)
            (string_bytes answer)) }
        ensures kept { IfErr result (λ _. self.new ≡ self.old) }
    {
        match script_given(alloc, self, text.as_bytes())? {
            Ok(script) => self.answer_given(alloc, script),
            Err(fault) => self.answer_fault(alloc, fault),
        }
    }

    // It goes back to where there were so many entries, and that is answered.
    fn answer_back(&mut self, alloc: Global, count: u64) -> Result<String, NoMemory>
        ensures after { IfOk result (λ _. self.new ≡ after_back self.old (kept_of self.old count)) }
        ensures next { IfOk result (λ _. IsNext self.old self.new) }
        ensures text { IfOk result (λ text. IsBackText (kept_of self.old count) (string_bytes text)) }
        ensures kept { IfErr result (λ _. self.new ≡ self.old) }
    {
        match kept_of(self, count) {
            Ok(first) => {
                let text = count_text(alloc, count)?;
                self.go_back(alloc, first)?;
                Ok(text)
            }
            Err(fault) => self.answer_fault(alloc, fault),
        }
    }

    // The end is answered.
    fn answer_end(&self, alloc: Global) -> Result<String, NoMemory>
        ensures { IfOk result (λ text. IsCountText (length self.now.entries) (string_bytes text)) }
    {
        Ok(count_text(alloc, self.entries().len() as u64)?)
    }

    // A call is answered.
    fn answer_call(
        &mut self,
        alloc: Global,
        box_name: &str,
        at: &str,
        call: &str,
    ) -> Result<String, NoMemory>
        ensures after { IfOk result (λ _. self.new
            ≡ after_made self.old (entry_on self.old box_name.now (call_line at.now call.now))) }
        ensures next { IfOk result (λ _. IsNext self.old self.new) }
        ensures text { IfOk result (λ text. IsMadeText self.old
            (entry_on self.old box_name.now (call_line at.now call.now)) (string_bytes text)) }
        ensures kept { IfErr result (λ _. self.new ≡ self.old) }
    {
        let line = call_line(alloc, at, call)?;
        match entry_on(self, box_name, line.as_bytes()) {
            Ok(entry) => self.answer_entry(alloc, entry),
            Err(fault) => self.answer_fault(alloc, fault),
        }
    }

    // A request is answered.
    fn answer_request(&mut self, alloc: Global, request: &Request<'_>) -> Result<String, NoMemory>
        ensures after { IfOk result (λ _. self.new ≡ after_asked self.old (shown request.now)) }
        ensures next { IfOk result (λ _. IsNext self.old self.new) }
        ensures text { IfOk result (λ text. IsAnswered self.old (shown request.now) (string_bytes text)) }
        ensures kept { IfErr result (λ _. self.new ≡ self.old) }
    {
        match *request {
            Request::Call { box_name, at, call } => self.answer_call(alloc, box_name, at, call),
            Request::May { box_name, at } => self.answer_may(alloc, box_name, at),
            Request::Look { box_name } => self.answer_look(alloc, box_name),
            Request::LookTo { rear, advance } => self.answer_section(alloc, rear, advance),
            Request::LookAll => self.answer_looks(alloc),
            Request::Changes { count } => self.answer_changes(alloc, count),
            Request::Journal { from } => self.answer_journal(alloc, from),
            Request::Script { text } => self.answer_script(alloc, text),
            Request::Back { count } => self.answer_back(alloc, count),
            Request::End => self.answer_end(alloc),
        }
    }

    // A line that isn't understood is answered. It changes nothing.
    fn refuse(&self, alloc: Global, fault: Fault) -> Result<Answer, NoMemory>
        ensures text { IfOk result (λ answer. IsReadText self.now (Err fault) (string_bytes answer.text)) }
        ensures ends { IfOk result (λ answer. answer.ends ≡ is_end (Err fault)) }
    {
        let text = fault_text(alloc, fault)?;
        Ok(Answer { text, ends: false })
    }

    // A value is answered.
    fn answer_value(&mut self, alloc: Global, value: &Value) -> Result<Answer, NoMemory>
        ensures after { IfOk result (λ _. self.new ≡ after_read self.old (request_or (asked_in (view value.now)))) }
        ensures next { IfOk result (λ _. IsNext self.old self.new) }
        ensures text { IfOk result (λ answer. IsReadText self.old (request_or (asked_in (view value.now)))
            (string_bytes answer.text)) }
        ensures ends { IfOk result (λ answer. answer.ends ≡ is_end (request_or (asked_in (view value.now)))) }
        ensures kept { IfErr result (λ _. self.new ≡ self.old) }
    {
        let Some(request) = request_in(value) else {
            return self.refuse(alloc, Fault::NotRequest);
        };
        let ends = is_end(&request);
        let text = self.answer_request(alloc, &request)?;
        Ok(Answer { text, ends })
    }

    // A line that is short enough is answered.
    fn answer_short(&mut self, alloc: Global, line: &[u8]) -> Result<Answer, NoMemory>
        ensures after { IfOk result (λ _. self.new ≡ after_read self.old (asked_or (value_in line.now))) }
        ensures next { IfOk result (λ _. IsNext self.old self.new) }
        ensures text { IfOk result (λ answer. IsReadText self.old (asked_or (value_in line.now))
            (string_bytes answer.text)) }
        ensures ends { IfOk result (λ answer. answer.ends ≡ is_end (asked_or (value_in line.now))) }
        ensures kept { IfErr result (λ _. self.new ≡ self.old) }
    {
        match value_in(alloc, line)? {
            Some(value) => self.answer_value(alloc, &value),
            None => self.refuse(alloc, Fault::NotJson),
        }
    }

    /// Answers a line, which is one request as JSON without its end. A call of a box is read as a line of its script
    /// is, and made where its moment isn't below that of the box's last one; it is answered by its entry, whether what
    /// was asked for is done or refused. `may` tells of each lever of a box what a call that moves it would be
    /// answered; `look` of what stands at a box, on a section or on the whole line, and `changes` of what stands
    /// otherwise than behind so many entries; `journal` tells the entries from a number on; `script` gives a box a
    /// script, by which it goes on there and behind each call; `back` goes back to where there were so many entries,
    /// and no box has a script any more.
    /// Anything else that isn't understood, and a line longer than 65,536 bytes, is answered by an error, and changes
    /// nothing. Where memory runs out, nothing is changed.
    #[tactic(auto, unfolding(line_requests::specs::Requests::asked_of, crate::specs::Answers::after_line, crate::specs::Answers::IsAnswer, crate::specs::Answers::ends))]
    pub fn answer(&mut self, alloc: Global, line: &[u8]) -> Result<Answer, NoMemory>
        ensures after { IfOk result (λ _. self.new ≡ after_line self.old line.now) }
        ensures next { IfOk result (λ _. IsNext self.old self.new) }
        ensures text { IfOk result (λ answer. IsAnswer self.old line.now (string_bytes answer.text)) }
        ensures ends { IfOk result (λ answer. answer.ends ≡ ends line.now) }
        ensures kept { IfErr result (λ _. self.new ≡ self.old) }
    {
        if line.len() > LINE_LIMIT {
            return self.refuse(alloc, Fault::Cause(Cause::TooLong));
        }
        self.answer_short(alloc, line)
    }
}
