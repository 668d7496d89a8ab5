//! The sections of a line.

ghost use Rattle.std.specs.Prelude.{◌≡◌, ◌++◌, OnOk, option_map, string_bytes};
ghost use Rattle.line_plan.specs.Plans.{box_at};
ghost use Rattle.line_plan.specs.Sections.{IsSection, advance_of, limit_at, limit_of, section_berth, section_name};
ghost use Rattle.line_plan.specs.Sections.{section_starter};

use crate::berth::Berth;
use crate::plan::Plan;
use crate::signal::Signal;
use crate::ways::way_word;
use block_words::Way;
use std::alloc::AllocError;

/// A section: from the starter of its rear box to the berth of its box in advance.
#[derive(Clone, Copy, Debug, PartialEq, Eq)]
pub struct Section {
    /// The box in the rear.
    pub rear: u32,
    /// The line on which it lies.
    pub way: Way,
}

// The most trains that a line may hold, by its berth; one without a berth is absolute.
fn limit_at(berth: Option<&Berth>) -> u32
    ensures { result ≡ limit_at (option_map (λ berth. berth.now) berth.entry) }
{
    match berth {
        Some(berth) => match berth.permissive {
            Some(most) => u32::from(most),
            None => 1,
        },
        None => 1,
    }
}

impl Section {
    /// The box in advance.
    pub fn advance(self, plan: &Plan) -> u32
        requires { IsSection plan.now self }
        ensures { result ≡ advance_of self }
    {
        let _two = plan.boxes.len();
        match self.way {
            Way::Up => self.rear - 1,
            Way::Down => self.rear + 1,
        }
    }

    /// The starter at the rear box, if it has one for this line.
    pub fn starter(self, plan: &Plan) -> Option<&Signal>
        requires { IsSection plan.now self }
        ensures { option_map (λ signal. signal.now) result ≡ section_starter plan.now self }
    {
        plan.boxes.as_slice()[self.rear as usize].starter(self.way)
    }

    /// The berth at the box in advance, if it has one for this line.
    pub fn berth(self, plan: &Plan) -> Option<&Berth>
        requires { IsSection plan.now self }
        ensures { option_map (λ berth. berth.now) result ≡ section_berth plan.now self }
    {
        plan.boxes.as_slice()[self.advance(plan) as usize].berth(self.way)
    }

    /// The most trains that the section may hold: 1 where it is absolute, n where it is permissive of n.
    pub fn limit(self, plan: &Plan) -> u32
        requires { IsSection plan.now self }
        ensures { result ≡ limit_of plan.now self }
    {
        limit_at(self.berth(plan))
    }

    /// Puts the section as it is named, behind a text: its way, its rear box and its box in advance. Where memory runs
    /// out a part of the name may stand there.
    pub fn put_name(self, out: &mut String, plan: &Plan) -> Result<(), AllocError>
        requires { IsSection plan.now self }
        ensures { OnOk result (string_bytes out.new ≡ string_bytes out.old ++ section_name plan.now self) }
    {
        out.push_str(way_word(self.way))?;
        out.push_str(" ")?;
        out.push_str(plan.box_name(self.rear))?;
        out.push_str(" ")?;
        out.push_str(plan.box_name(self.advance(plan)))
    }
}
