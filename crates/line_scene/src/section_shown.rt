//! What is seen of a section.

ghost use Rattle.std.specs.Prelude.{◌≡◌, ◌<◌, ◌+◌, ◌-◌, ◌^◌, ◌++◌, OnOk, length, option_map};
ghost use Rattle.block_words.specs.declared.Way.TheVariants.{Up, Down};
ghost use Rattle.line_law.specs.Lines.{IsLineOf};
ghost use Rattle.line_plan.specs.Sections.{IsSection};
ghost use Rattle.line_scene.specs.Sections.{instrument_shown, on_line, section_shown, sections_shown, trains_shown};

use crate::shown::Shown;
use block_words::{Position, Way};
use line_law::{Link, Plain, PlainLine};
use line_plan::{Berth, Plan, Section};
use rail_text::NoMemory;

// Adds what the instrument of a section shows, where the line has a berth.
fn add_instrument(
    shown: &mut Vec<Shown>,
    berth: Option<&Berth>,
    section: Section,
    position: Position,
) -> Result<(), NoMemory>
    ensures { OnOk result (shown.new.items ≡ shown.old.items
        ++ instrument_shown (option_map (λ berth. berth.now) berth.entry) section position) }
{
    if let Some(_) = berth {
        shown.push(Shown::Instrument {
            rear: section.rear,
            way: section.way,
            position,
        })?;
    }
    Ok(())
}

// The train that is so far behind the first one of these.
fn on_line(section: Section, portion: Option<u32>, trains: &PlainLine, behind: u32) -> Shown
    ensures { result ≡ on_line section portion trains.now behind }
{
    let train = match trains.get(behind as usize) {
        Some(passage) => Some(passage.train),
        None => None,
    };
    Shown::OnLine {
        rear: section.rear,
        way: section.way,
        behind,
        train,
        is_portion: behind == 0 && portion.is_some(),
    }
}

// Adds the trains of a plain line.
fn add_trains(
    shown: &mut Vec<Shown>,
    section: Section,
    portion: Option<u32>,
    trains: &PlainLine,
) -> Result<(), NoMemory>
    ensures { OnOk result (shown.new.items ≡ shown.old.items ++ trains_shown section portion trains.now) }
{
    shown.push(on_line(section, portion, trains, 0))?;
    shown.push(on_line(section, portion, trains, 1))?;
    shown.push(on_line(section, portion, trains, 2))?;
    shown.push(on_line(section, portion, trains, 3))?;
    Ok(())
}

// Adds what is seen of a section.
#[tactic(auto, unfolding(crate::specs::Sections::section_shown))]
fn add_section(
    shown: &mut Vec<Shown>,
    plan: &Plan,
    line: &Plain,
    section: Section,
) -> Result<(), NoMemory>
    requires line { IsLineOf plan.now line.now }
    requires section { IsSection plan.now section }
    ensures { OnOk result (shown.new.items
        ≡ shown.old.items ++ section_shown plan.now line.now.line section) }
{
    plan.meets_conditions();
    let way = section.way;
    let pair = &line.pairs()[Link::Out(way).pair_no(section.rear as usize)];
    let advance = section.advance(plan);
    let incoming = line.boxes()[advance as usize].incoming.get(way);
    add_instrument(
        shown,
        section.berth(plan),
        section,
        pair.blocks.get(way).position,
    )?;
    shown.push(Shown::Bell {
        rear: section.rear,
        way,
        unheard: pair.bells.get(way).unheard,
    })?;
    add_trains(shown, section, incoming.portion, pair.plain_line(way))
}

// Adds what is seen of the two sections of a pair of neighbours.
fn add_pair(shown: &mut Vec<Shown>, plan: &Plan, line: &Plain, pair: u32) -> Result<(), NoMemory>
    requires line { IsLineOf plan.now line.now }
    requires pair { pair + 1 < length plan.now.boxes }
    requires few { pair + 1 < 2 ^ 32 }
    ensures { OnOk result (shown.new.items ≡ shown.old.items
        ++ (section_shown plan.now line.now.line (record { rear = pair; way = Down })
        ++ section_shown plan.now line.now.line (record { rear = pair + 1; way = Up }))) }
{
    let down = Section {
        rear: pair,
        way: Way::Down,
    };
    let up = Section {
        rear: pair + 1,
        way: Way::Up,
    };
    add_section(shown, plan, line, down)?;
    add_section(shown, plan, line, up)
}

/// Adds what is seen of the sections of a line.
pub fn add_sections(shown: &mut Vec<Shown>, plan: &Plan, line: &Plain) -> Result<(), NoMemory>
    requires line { IsLineOf plan.now line.now }
    ensures { OnOk result (shown.new.items ≡ shown.old.items
        ++ sections_shown plan.now line.now.line (length plan.now.boxes - 1)) }
{
    plan.meets_conditions();
    let pairs = plan.boxes.len() as u32 - 1;
    for pair in 0..pairs {
        add_pair(shown, plan, line, pair)?;
    }
    Ok(())
}
