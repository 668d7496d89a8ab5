//! What stands at a box, on a section and on the whole line.

ghost use Rattle.std.specs.Prelude.{◌≡◌, ◌<◌, IfOk, length, string_bytes};
ghost use Rattle.json_objects.specs.Texts.{IsTextOf};
ghost use Rattle.line_plan.specs.Sections.{IsSection, advance_of};
ghost use Rattle.look_records.specs.Changes.{looks_data};
ghost use Rattle.look_records.specs.Objects.{look_data};
ghost use Rattle.look_records.specs.Things.{section_things, things_at};
ghost use Rattle.line_service.specs.Looks.{section_between, section_named};
ghost use Rattle.line_service.specs.Services.{line_of};

use crate::calls::box_named;
use crate::service::Service;
use block_words::Way;
use line_plan::{Plan, Section};
use line_requests::Fault;
use rail_text::NoMemory;
use std::alloc::Global;

// The section from one box to another, where they are neighbours.
#[tactic(auto, unfolding(crate::specs::Looks::section_between))]
fn section_between(plan: &Plan, rear: u32, advance: u32) -> Result<Section, Fault>
    requires rear { rear < length plan.now.boxes }
    requires advance { advance < length plan.now.boxes }
    ensures exact { result ≡ section_between rear advance }
    ensures there { IfOk result (λ section. IsSection plan.now section) }
{
    let _few = plan.boxes.len();
    if u64::from(advance) == u64::from(rear) + 1 {
        let way = Way::Down;
        Ok(Section { rear, way })
    } else if u64::from(rear) == u64::from(advance) + 1 {
        let way = Way::Up;
        Ok(Section { rear, way })
    } else {
        Err(Fault::NotNeighbours)
    }
}

/// The section from the box of a name to the box of another.
#[tactic(auto, unfolding(crate::specs::Looks::section_named))]
pub(crate) fn section_named(plan: &Plan, rear: &str, advance: &str) -> Result<Section, Fault>
    ensures exact { result ≡ section_named plan.now rear.now advance.now }
    ensures there { IfOk result (λ section. IsSection plan.now section) }
{
    let rear = box_named(plan, rear)?;
    let advance = box_named(plan, advance)?;
    section_between(plan, rear, advance)
}

/// The text of what stands at a box.
pub(crate) fn look_text(alloc: Global, service: &Service, box_no: u32) -> Result<String, NoMemory>
    requires { box_no < length service.now.plan.boxes }
    ensures { IfOk result (λ text. IsTextOf
        (look_data service.now.plan box_no (things_at service.now.plan (line_of service.now) box_no))
        (string_bytes text)) }
{
    let things = look_records::things_at(alloc, service.plan(), service.line(), box_no)?;
    Ok(look_records::look_text(alloc, service.plan(), box_no, &things)?)
}

/// The text of what belongs to a section, which stands at its box in advance.
pub(crate) fn section_text(
    alloc: Global,
    service: &Service,
    section: Section,
) -> Result<String, NoMemory>
    requires { IsSection service.now.plan section }
    ensures { IfOk result (λ text. IsTextOf (look_data service.now.plan (advance_of section)
        (section_things service.now.plan (line_of service.now) section)) (string_bytes text)) }
{
    let plan = service.plan();
    let things = look_records::section_things(alloc, plan, service.line(), section)?;
    Ok(look_records::look_text(alloc, plan, section.advance(plan), &things)?)
}

/// The text of all that stands on the line.
pub(crate) fn looks_text(alloc: Global, service: &Service) -> Result<String, NoMemory>
    ensures { IfOk result
        (λ text. IsTextOf (looks_data service.now.plan (line_of service.now)) (string_bytes text)) }
{
    look_records::looks_text(alloc, service.plan(), service.line())
}
