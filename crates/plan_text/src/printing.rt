//! The one printed spelling of a plan.

ghost use Rattle.std.specs.Prelude.{◌≡◌, ◌++◌, ◌∷◌, [], OnOk, IfOk, codes, decimal, drop, map, option_map};
ghost use Rattle.std.specs.Prelude.{string_bytes};
ghost use Rattle.std.specs.List.{flat_map};
ghost use Rattle.locking_table.specs.Words.{joined, spaced};
ghost use Rattle.line_plan.specs.Plans.{box_at};
ghost use Rattle.plan_text.specs.Printing.{arm_words, back_lines, berth_lines, box_lines, class_line, clear_lines};
ghost use Rattle.plan_text.specs.Printing.{clearing_lines, code_word, front_lines, head_lines, lever_line};
ghost use Rattle.line_plan.specs.Frames.{kind_word};
ghost use Rattle.plan_text.specs.Printing.{most_lines, name_word, over_words, permissive_lines, place_line};
ghost use Rattle.plan_text.specs.Printing.{place_words, plan_text, printed, printed_words, row_line, signal_line};
ghost use Rattle.plan_text.specs.Printing.{track_line, train_line, way_lines};
ghost use Rattle.line_plan.specs.Ways.{way_word};

use bell_codes::{CodeNo, CodeTable};
use block_words::Way;
use itoa::Buffer;
use line_plan::{
    Berth, BoxPlan, Class, Kind, Lever, Plan, Signal, To, TrackLock, TrainPlan, kind_word, way_word,
};
use locking_table::{Row, put_row};
use rail_text::{Names, NoMemory};
use std::alloc::{AllocError, Global};
use std::fmt::Write;

// ---- words

// The first word of a line.
fn put_first(out: &mut String, word: &str) -> Result<(), AllocError>
    ensures { OnOk result (string_bytes out.new ≡ string_bytes out.old ++ word.now) }
{
    out.push_str(word)
}

// A further word.
fn put_word(out: &mut String, word: &str) -> Result<(), AllocError>
    ensures { OnOk result (string_bytes out.new ≡ string_bytes out.old ++ spaced (word.now ∷ [])) }
{
    out.push(' ')?;
    out.push_str(word)
}

// A number.
fn put_number(out: &mut String, number: usize) -> Result<(), AllocError>
    ensures { OnOk result (string_bytes out.new ≡ string_bytes out.old ++ spaced (decimal number ∷ [])) }
{
    let mut buffer = Buffer::new();
    put_word(out, buffer.format(number))
}

// The end of a line.
fn put_end(out: &mut String) -> Result<(), AllocError>
    ensures { OnOk result (string_bytes out.new ≡ string_bytes out.old ++ 10 ∷ []) }
{
    out.push('\n')
}

// The name with this number.
#[tactic(auto, using(crate::proofs::Printed::name_rules))]
fn name_word(names: &Names, number: u32) -> &str
    ensures { result.now ≡ name_word names.now number }
{
    if (number as usize) < names.len() {
        names.name_of(number)
    } else {
        ""
    }
}

// The names of places.
#[tactic(auto, using(crate::proofs::Printed::print_rules))]
fn put_places(out: &mut String, names: &Names, places: &[u32]) -> Result<(), AllocError>
    ensures { OnOk result (string_bytes out.new ≡ string_bytes out.old ++ spaced (place_words names.now places.now)) }
{
    for place in places {
        put_word(out, name_word(names, *place))?;
    }
    Ok(())
}

// ---- the lines of a box

// `KEYWORD NAME`
#[tactic(auto, using(crate::proofs::Printed::print_rules))]
fn put_pair(out: &mut String, keyword: &str, word: &str) -> Result<(), AllocError>
    ensures { OnOk result (string_bytes out.new ≡ string_bytes out.old ++ printed_words (keyword.now ∷ word.now ∷ [])) }
{
    put_first(out, keyword)?;
    put_word(out, word)?;
    put_end(out)
}

// `KEYWORD NUMBER`
#[tactic(auto, using(crate::proofs::Printed::print_rules))]
fn put_count(out: &mut String, keyword: &str, number: usize) -> Result<(), AllocError>
    ensures { OnOk result (string_bytes out.new
        ≡ string_bytes out.old ++ printed_words (keyword.now ∷ decimal number ∷ [])) }
{
    put_first(out, keyword)?;
    put_number(out, number)?;
    put_end(out)
}

#[tactic(auto, using(crate::proofs::Printed::print_rules))]
fn put_lever(out: &mut String, lever: Lever) -> Result<(), AllocError>
    ensures { OnOk result (string_bytes out.new ≡ string_bytes out.old ++ printed_words (lever_line lever)) }
{
    put_first(out, "lever")?;
    put_number(out, lever.number as usize)?;
    put_word(out, kind_word(lever.kind))?;
    put_end(out)
}

// What a signal's line says of its lever and of where it begins.
#[tactic(auto, using(crate::proofs::Printed::print_rules))]
fn put_begin(out: &mut String, places: &Names, signal: &Signal) -> Result<(), AllocError>
    ensures { OnOk result (string_bytes out.new ≡ string_bytes out.old
        ++ joined (codes "signal" ∷ decimal signal.now.lever ∷ name_word places.now signal.now.from ∷ [])) }
{
    put_first(out, "signal")?;
    put_number(out, signal.lever as usize)?;
    put_word(out, name_word(places, signal.from))
}

// What a signal's or starter's line says of its lever and its ends.
#[tactic(auto, using(crate::proofs::Printed::print_rules))]
fn put_arm(out: &mut String, places: &Names, signal: &Signal) -> Result<(), AllocError>
    ensures { OnOk result (string_bytes out.new
        ≡ string_bytes out.old ++ joined (arm_words places.now signal.now signal.now.to)) }
{
    match signal.to {
        To::Place(place) => {
            put_begin(out, places, signal)?;
            put_word(out, name_word(places, place))
        }
        To::Away => {
            put_begin(out, places, signal)?;
            put_word(out, "away")
        }
        To::Section(way) => {
            put_first(out, "starter")?;
            put_word(out, way_word(way))?;
            put_number(out, signal.lever as usize)?;
            put_word(out, name_word(places, signal.from))
        }
    }
}

// The places over which a signal runs, if there are any.
#[tactic(auto, using(crate::proofs::Printed::print_rules))]
fn put_over(out: &mut String, places: &Names, over: &[u32]) -> Result<(), AllocError>
    ensures { OnOk result (string_bytes out.new ≡ string_bytes out.old ++ spaced (over_words places.now over.now)) }
{
    match over {
        [] => Ok(()),
        [_, ..] => {
            put_word(out, "over")?;
            put_places(out, places, over)
        }
    }
}

#[tactic(auto, using(crate::proofs::Printed::print_rules))]
fn put_signal(out: &mut String, places: &Names, signal: &Signal) -> Result<(), AllocError>
    ensures { OnOk result (string_bytes out.new
        ≡ string_bytes out.old ++ printed_words (signal_line places.now signal.now)) }
{
    put_arm(out, places, signal)?;
    put_over(out, places, signal.over.as_slice())?;
    put_end(out)
}

// The line of a berth, if there is one.
#[tactic(auto, using(crate::proofs::Printed::print_rules))]
fn put_berth(
    out: &mut String,
    places: &Names,
    way: Way,
    berth: Option<&Berth>,
) -> Result<(), AllocError>
    ensures { OnOk result (string_bytes out.new
        ≡ string_bytes out.old ++ printed (berth_lines places.now way (option_map (λ berth. berth.now) berth.entry))) }
{
    let Some(berth) = berth else {
        return Ok(());
    };
    put_first(out, "berth")?;
    put_word(out, way_word(way))?;
    put_word(out, name_word(places, berth.place))?;
    put_end(out)
}

// The line of clearing places, if there are any.
#[tactic(auto, using(crate::proofs::Printed::print_rules))]
fn put_clearing(
    out: &mut String,
    places: &Names,
    way: Way,
    clearing: &[u32],
) -> Result<(), AllocError>
    ensures { OnOk result (string_bytes out.new
        ≡ string_bytes out.old ++ printed (clearing_lines places.now way clearing.now)) }
{
    match clearing {
        [] => Ok(()),
        [_, ..] => {
            put_first(out, "clear")?;
            put_word(out, way_word(way))?;
            put_places(out, places, clearing)?;
            put_end(out)
        }
    }
}

fn put_clear(
    out: &mut String,
    places: &Names,
    way: Way,
    berth: Option<&Berth>,
) -> Result<(), AllocError>
    ensures { OnOk result (string_bytes out.new
        ≡ string_bytes out.old ++ printed (clear_lines places.now way (option_map (λ berth. berth.now) berth.entry))) }
{
    match berth {
        Some(berth) => put_clearing(out, places, way, berth.clearing.as_slice()),
        None => Ok(()),
    }
}

// The line of a line that is permissive of so many.
#[tactic(auto, using(crate::proofs::Printed::print_rules))]
fn put_permit(out: &mut String, way: Way, most: usize) -> Result<(), AllocError>
    ensures { OnOk result (string_bytes out.new ≡ string_bytes out.old ++ printed (most_lines way (Some most))) }
{
    put_first(out, "permissive")?;
    put_word(out, way_word(way))?;
    put_number(out, most)?;
    put_end(out)
}

// How many trains a line is permissive of, if it is.
fn put_most(out: &mut String, way: Way, most: Option<u8>) -> Result<(), AllocError>
    ensures { OnOk result (string_bytes out.new ≡ string_bytes out.old ++ printed (most_lines way most)) }
{
    match most {
        Some(most) => put_permit(out, way, most as usize),
        None => Ok(()),
    }
}

fn put_permissive(out: &mut String, way: Way, berth: Option<&Berth>) -> Result<(), AllocError>
    ensures { OnOk result (string_bytes out.new
        ≡ string_bytes out.old ++ printed (permissive_lines way (option_map (λ berth. berth.now) berth.entry))) }
{
    match berth {
        Some(berth) => put_most(out, way, berth.permissive),
        None => Ok(()),
    }
}

#[tactic(auto, using(crate::proofs::Printed::print_rules))]
fn put_track(out: &mut String, places: &Names, track: &TrackLock) -> Result<(), AllocError>
    ensures { OnOk result (string_bytes out.new
        ≡ string_bytes out.old ++ printed_words (track_line places.now track.now)) }
{
    put_first(out, "track")?;
    put_number(out, track.lever as usize)?;
    put_places(out, places, track.places.as_slice())?;
    put_end(out)
}

#[tactic(auto, using(crate::proofs::Printed::print_rules))]
fn put_row_line(out: &mut String, row: &Row) -> Result<(), AllocError>
    ensures { OnOk result (string_bytes out.new ≡ string_bytes out.old ++ printed_words (row_line row.now)) }
{
    put_first(out, "row ")?;
    put_row(out, row)?;
    put_end(out)
}

// ---- a box

#[tactic(auto, using(crate::proofs::Printed::print_rules))]
fn put_place_lines(out: &mut String, places: &Names) -> Result<(), AllocError>
    ensures { OnOk result (string_bytes out.new ≡ string_bytes out.old ++ printed (map place_line places.now)) }
{
    for number in 0..places.len() {
        put_pair(out, "place", name_word(places, number as u32))?;
    }
    Ok(())
}

#[tactic(auto, using(crate::proofs::Printed::print_rules))]
fn put_levers(out: &mut String, levers: &[Lever]) -> Result<(), AllocError>
    ensures { OnOk result (string_bytes out.new ≡ string_bytes out.old ++ printed (map lever_line levers.now)) }
{
    for lever in levers {
        put_lever(out, *lever)?;
    }
    Ok(())
}

#[tactic(auto, using(crate::proofs::Printed::print_rules))]
fn put_signals(out: &mut String, places: &Names, signals: &[Signal]) -> Result<(), AllocError>
    ensures { OnOk result (string_bytes out.new
        ≡ string_bytes out.old ++ printed (map (signal_line places.now) signals.now)) }
{
    for signal in signals {
        put_signal(out, places, signal)?;
    }
    Ok(())
}

#[tactic(auto, using(crate::proofs::Printed::print_rules))]
fn put_tracks(out: &mut String, places: &Names, tracks: &[TrackLock]) -> Result<(), AllocError>
    ensures { OnOk result (string_bytes out.new
        ≡ string_bytes out.old ++ printed (map (track_line places.now) tracks.now)) }
{
    for track in tracks {
        put_track(out, places, track)?;
    }
    Ok(())
}

#[tactic(auto, using(crate::proofs::Printed::print_rules))]
fn put_rows(out: &mut String, rows: &[Row]) -> Result<(), AllocError>
    ensures { OnOk result (string_bytes out.new ≡ string_bytes out.old ++ printed (map row_line rows.now)) }
{
    for row in rows {
        put_row_line(out, row)?;
    }
    Ok(())
}

// The lines of a box up to those of its starters.
#[tactic(auto, using(crate::proofs::Printed::line_rules))]
fn put_front(out: &mut String, box_plan: &BoxPlan) -> Result<(), AllocError>
    ensures { OnOk result (string_bytes out.new ≡ string_bytes out.old ++ printed (front_lines box_plan.now)) }
{
    put_pair(out, "box", box_plan.name.as_str())?;
    put_place_lines(out, &box_plan.places)?;
    put_levers(out, box_plan.levers.as_slice())?;
    put_signals(out, &box_plan.places, box_plan.signals.as_slice())
}

// The lines of its berths.
#[tactic(auto, using(crate::proofs::Printed::line_rules))]
fn put_berths(out: &mut String, box_plan: &BoxPlan) -> Result<(), AllocError>
    ensures { OnOk result (string_bytes out.new ≡ string_bytes out.old ++ printed (way_lines box_plan.now)) }
{
    let places = &box_plan.places;
    let up = box_plan.berth_up.as_ref();
    let down = box_plan.berth_down.as_ref();
    put_berth(out, places, Way::Up, up)?;
    put_berth(out, places, Way::Down, down)?;
    put_clear(out, places, Way::Up, up)?;
    put_clear(out, places, Way::Down, down)?;
    put_permissive(out, Way::Up, up)?;
    put_permissive(out, Way::Down, down)
}

// The lines behind those of its berths.
#[tactic(auto, using(crate::proofs::Printed::line_rules))]
fn put_back(out: &mut String, box_plan: &BoxPlan) -> Result<(), AllocError>
    ensures { OnOk result (string_bytes out.new ≡ string_bytes out.old ++ printed (back_lines box_plan.now)) }
{
    put_tracks(out, &box_plan.places, box_plan.tracks.as_slice())?;
    put_rows(out, box_plan.table.rows())
}

#[tactic(auto, using(crate::proofs::Printed::line_rules), unfolding(crate::specs::Printing::box_lines))]
fn put_box(out: &mut String, box_plan: &BoxPlan) -> Result<(), AllocError>
    ensures { OnOk result (string_bytes out.new ≡ string_bytes out.old ++ printed (box_lines box_plan.now)) }
{
    put_front(out, box_plan)?;
    put_berths(out, box_plan)?;
    put_back(out, box_plan)
}

#[tactic(auto, using(crate::proofs::Printed::line_rules))]
fn put_boxes(out: &mut String, boxes: &[BoxPlan]) -> Result<(), AllocError>
    ensures { OnOk result (string_bytes out.new ≡ string_bytes out.old ++ printed (flat_map box_lines boxes.now)) }
{
    for box_plan in boxes {
        put_box(out, box_plan)?;
    }
    Ok(())
}

// ---- a plan

// The code with this number.
#[tactic(auto, using(crate::proofs::Printed::name_rules))]
fn put_code(out: &mut String, table: &CodeTable, number: CodeNo) -> Result<(), AllocError>
    ensures { OnOk result (string_bytes out.new ≡ string_bytes out.old ++ spaced (code_word table.now number ∷ [])) }
{
    let place = (number as usize).saturating_sub(1);
    match table.codes().get(place) {
        Some(code) => write!(out, " {code}"),
        None => put_word(out, ""),
    }
}

#[tactic(auto, using(crate::proofs::Printed::print_rules))]
fn put_class(out: &mut String, table: &CodeTable, class_plan: &Class) -> Result<(), AllocError>
    ensures { OnOk result (string_bytes out.new
        ≡ string_bytes out.old ++ printed_words (class_line table.now class_plan.now)) }
{
    put_first(out, "class")?;
    put_word(out, class_plan.name.as_str())?;
    put_code(out, table, class_plan.code)?;
    put_end(out)
}

// Classes beyond the first four.
#[tactic(auto, using(crate::proofs::Printed::print_rules))]
fn put_classes(out: &mut String, plan: &Plan) -> Result<(), AllocError>
    ensures { OnOk result (string_bytes out.new
        ≡ string_bytes out.old ++ printed (map (class_line plan.now.codes) (drop 4 plan.now.classes))) }
{
    let classes = plan.classes.as_slice();
    for i in 4..classes.len() {
        put_class(out, &plan.codes, &classes[i])?;
    }
    Ok(())
}

// The name of a place of the box with this number.
#[tactic(auto, using(crate::proofs::Printed::name_rules))]
fn place_word(boxes: &[BoxPlan], box_no: u32, place: u32) -> &str
    ensures { result.now ≡ name_word (box_at boxes.now box_no).places place }
{
    match boxes.get(box_no as usize) {
        Some(at) => name_word(&at.places, place),
        None => "",
    }
}

#[tactic(auto, using(crate::proofs::Printed::print_rules))]
fn put_train(out: &mut String, plan: &Plan, train: &TrainPlan) -> Result<(), AllocError>
    ensures { OnOk result (string_bytes out.new
        ≡ string_bytes out.old ++ printed_words (train_line plan.now train.now)) }
{
    put_first(out, "train")?;
    put_word(out, train.name.as_str())?;
    put_word(out, name_word(&plan.class_names, train.class_no))?;
    put_word(out, name_word(&plan.box_names, train.box_no))?;
    put_word(
        out,
        place_word(plan.boxes.as_slice(), train.box_no, train.place),
    )?;
    put_end(out)
}

#[tactic(auto, using(crate::proofs::Printed::print_rules))]
fn put_trains(out: &mut String, plan: &Plan) -> Result<(), AllocError>
    ensures { OnOk result (string_bytes out.new
        ≡ string_bytes out.old ++ printed (map (train_line plan.now) plan.now.trains)) }
{
    for train in plan.trains.as_slice() {
        put_train(out, plan, train)?;
    }
    Ok(())
}

// The first four lines.
#[tactic(auto, using(crate::proofs::Printed::print_rules))]
fn put_head(out: &mut String, plan: &Plan) -> Result<(), AllocError>
    ensures { OnOk result (string_bytes out.new ≡ string_bytes out.old ++ printed (head_lines plan.now)) }
{
    put_count(out, "plan", plan.version as usize)?;
    put_count(out, "boxes", plan.boxes.len())?;
    put_count(out, "delay", plan.delay as usize)?;
    put_count(out, "looks", plan.looks as usize)
}

fn put_plan(out: &mut String, plan: &Plan) -> Result<(), AllocError>
    ensures { OnOk result (string_bytes out.new ≡ string_bytes out.old ++ plan_text plan.now) }
{
    put_head(out, plan)?;
    put_classes(out, plan)?;
    put_boxes(out, plan.boxes.as_slice())?;
    put_trains(out, plan)?;
    put_first(out, "end\n")
}

/// The plan as it is printed: the one text of its lines in their order.
pub fn print_plan(alloc: Global, plan: &Plan) -> Result<Vec<u8>, NoMemory>
    ensures { IfOk result (λ text. text.items ≡ plan_text plan.now) }
{
    let mut out = String::new(alloc);
    put_plan(&mut out, plan)?;
    Ok(out.into_bytes())
}
