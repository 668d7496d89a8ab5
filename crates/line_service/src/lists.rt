//! Answers that list entries.

ghost use Rattle.std.specs.Prelude.{◌≡◌, ◌≤◌, ◌<◌, ◌+◌, ◌^◌, [], All, IfOk, IsTrue, codes, drop, length, map};
ghost use Rattle.std.specs.Prelude.{string_bytes};
ghost use Rattle.serde_json.specs.View.{view};
ghost use Rattle.json_objects.specs.Texts.{IsPlain, IsTextOf, most_levels};
ghost use Rattle.line_plan.specs.Plans.{box_at as box_plan_at};
ghost use Rattle.line_law.specs.Known.{knows_lever};
ghost use Rattle.script_text.specs.Entries.{IsSpelled};
ghost use Rattle.box_view.specs.Moves.{move_entry};
ghost use Rattle.journal_records.specs.Objects.{IsEntryData};
ghost use Rattle.line_service.specs.Lists.{IsJournalText, IsMoveData, IsMovesText, IsPresent, PutsEach};
ghost use Rattle.line_service.specs.Lists.{before_entry, list_data};
ghost use Rattle.line_service.specs.Services.{line_of};

use crate::moves::{Present, move_entry};
use crate::service::Service;
use journal_records::entry_value;
use json_objects::{Object, text_of};
use line_law::Entry;
use line_plan::{Lever, Plan};
use line_report::histories_can_be_printed;
use line_requests::Fault;
use serde_json::Value;
use std::alloc::{AllocError, Global};

// A list of objects under a key.
fn list_object(alloc: Global, key: &str, items: Vec<Value>) -> Result<Value, AllocError>
    ensures { IfOk result (λ value. view value ≡ list_data key.now (map view items.items)) }
{
    let mut object = Object::new(alloc);
    object.put_value(alloc, key, Value::from(items))?;
    Ok(object.into_value())
}

// Its text.
fn list_text(alloc: Global, key: &str, items: Vec<Value>) -> Result<String, AllocError>
    requires { IsPlain most_levels (list_data key.now (map view items.items)) }
    ensures { IfOk result (λ text. IsTextOf (list_data key.now (map view items.items)) (string_bytes text)) }
{
    let object = list_object(alloc, key, items)?;
    text_of(alloc, &object)
}

/// How many entries come before the one with a number.
pub(crate) fn before_entry(service: &Service, from: u64) -> Result<usize, Fault>
    ensures exact { result ≡ before_entry service.now from }
    ensures within { IfOk result (λ before. before ≤ length service.now.entries) }
{
    service.meets_conditions();
    let count = service.entries().len() as u64;
    if 1 <= from && from <= count + 1 {
        Ok((from - 1) as usize)
    } else {
        Err(Fault::UnknownEntry)
    }
}

// The objects of entries that follow one another behind so many.
fn entry_items(
    alloc: Global,
    plan: &Plan,
    before: u64,
    entries: &[Entry],
) -> Result<Vec<Value>, AllocError>
    requires spelled { All (IsSpelled plan.now) entries.now }
    requires numbers { before + 1 + length entries.now < 2 ^ 64 }
    ensures { IfOk result (λ items. PutsEach (λ at e d. IsEntryData plan.now (before + 1 + at) e d) 0 entries.now []
        (map view items.items)) }
{
    let mut items = Vec::new(alloc);
    for (place, entry) in entries.iter().enumerate() {
        let value = entry_value(alloc, plan, before + 1 + place as u64, entry)?;
        items.push(value)?;
    }
    Ok(items)
}

// The entries behind so many.
#[tactic(auto, using(crate::proofs::Listed::behind_whole))]
fn entries_behind(service: &Service, before: usize) -> &[Entry]
    requires { before ≤ length service.now.entries }
    ensures { result.now ≡ drop before service.now.entries }
{
    let entries = service.entries();
    &entries[before..]
}

/// The text of the objects of the entries behind so many.
pub(crate) fn journal_text(
    alloc: Global,
    service: &Service,
    before: usize,
) -> Result<String, AllocError>
    requires { before ≤ length service.now.entries }
    ensures { IfOk result (λ text. IsJournalText service.now before (string_bytes text)) }
{
    service.meets_conditions();
    histories_can_be_printed();
    let behind = entries_behind(service, before);
    let items = entry_items(alloc, service.plan(), before as u64, behind)?;
    let text = list_text(alloc, "journal", items)?;
    Ok(text)
}

// The object of the call that moves a lever, with its reply.
fn move_value(
    alloc: Global,
    service: &Service,
    here: Present,
    lever: u32,
) -> Result<Value, AllocError>
    requires here { IsPresent service.now here }
    requires lever { IsTrue (knows_lever service.now.plan here.box_no lever) }
    ensures { IfOk result (λ value. IsEntryData service.now.plan (length service.now.entries + 1)
        (move_entry service.now.plan (line_of service.now) here.box_no here.moment lever) (view value)) }
{
    let entry = move_entry(service, here, lever);
    service.is_spelled(&entry);
    let number = service.entries().len() as u64 + 1;
    entry_value(alloc, service.plan(), number, &entry)
}

// The levers of a box.
fn levers_of(service: &Service, here: Present) -> &[Lever]
    requires { IsPresent service.now here }
    ensures { result.now ≡ (box_plan_at service.now.plan.boxes here.box_no).levers }
{
    let plan = service.plan();
    let box_plan = &plan.boxes.as_slice()[here.box_no as usize];
    box_plan.levers.as_slice()
}

// The same of each lever of the box.
#[tactic(auto, using(box_view::proofs::Levers::lever_there))]
fn move_items(
    alloc: Global,
    service: &Service,
    here: Present,
    levers: &[Lever],
) -> Result<Vec<Value>, AllocError>
    requires here { IsPresent service.now here }
    requires levers { levers.now ≡ (box_plan_at service.now.plan.boxes here.box_no).levers }
    ensures { IfOk result (λ items. PutsEach (λ at lever d. IsMoveData service.now here lever d) 0 levers.now []
        (map view items.items)) }
{
    let mut items = Vec::new(alloc);
    for lever in levers {
        let value = move_value(alloc, service, here, lever.number)?;
        items.push(value)?;
    }
    Ok(items)
}

/// The text of the calls that move the levers of a box, with their replies.
pub(crate) fn moves_text(
    alloc: Global,
    service: &Service,
    here: Present,
) -> Result<String, AllocError>
    requires { IsPresent service.now here }
    ensures { IfOk result (λ text. IsMovesText service.now here (string_bytes text)) }
{
    let levers = levers_of(service, here);
    let items = move_items(alloc, service, here, levers)?;
    let text = list_text(alloc, "may", items)?;
    Ok(text)
}
