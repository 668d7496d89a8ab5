//! The text of a report.

ghost use Rattle.std.specs.Prelude.{◌≡◌, ◌++◌, ◌-◌, ◌<◌, IfOk, OnOk, length, nat_le, slice_index, string_bytes};
ghost use Rattle.std.specs.List.{flat_map, list_any};
ghost use Rattle.locking_table.specs.Places.{end_at};
ghost use Rattle.frame_walk.specs.States.{after_move, all_normal};
ghost use Rattle.frame_report.specs.Text.{answer_text, answers_text, as_much_text, blame_text, caveat_text};
ghost use Rattle.frame_report.specs.Text.{circle_line, circle_text, count_text, cover_line, cover_text, frozens_text};
ghost use Rattle.frame_report.specs.Text.{digit_text, digits_text, levers_text, no_proof_text, rows_text};
ghost use Rattle.frame_report.specs.Text.{frozen_text, head_text, is_marked, is_redundant, lever_text, marked_text};
ghost use Rattle.frame_report.specs.Text.{move_text, moves_text, numbers_text, padded_text, redundancy_text};
ghost use Rattle.frame_report.specs.Text.{redundant_text, redundants_text, row_line, sequence_text, sign_text};
ghost use Rattle.frame_report.specs.Text.{beside_text, round_text, sign_with, way_or, way_text};
ghost use Rattle.frame_report.specs.Text.{open_text, pair_text, pairs_text, places_text, refuted_line};
ghost use Rattle.frame_report.specs.Text.{refuted_text, signs_text, states_text, together_text, triangle_line};

use crate::asked::StatesWanted;
use crate::collecting::any_marked;
use crate::report::{LeverReport, PairReport, RowReport, StatesReport};
use frame_findings::{Finding, Sequence};
use locking_table::{End, NoMemory, Row, put_row};
use row_covers::RowPair;
use row_findings::RowUse;
use std::alloc::{AllocError, Global};
use std::fmt::Write;

// ---- the head

#[tactic(auto, unfolding(crate::specs::Text::caveat_text))]
fn caveat() -> &'static str
    ensures { result.now ≡ caveat_text }
{
    "by the locking table alone: tracks and instruments are left out, as if clear and free\n"
}

#[tactic(auto, unfolding(crate::specs::Text::no_proof_text))]
fn no_proof() -> &'static str
    ensures { result.now ≡ no_proof_text }
{
    "this is no proof of a layout's safety\n"
}

#[tactic(auto, unfolding(crate::specs::Text::head_text))]
fn put_head(out: &mut String, name: &str) -> Result<(), AllocError>
    ensures { OnOk result (string_bytes out.new ≡ string_bytes out.old ++ head_text name.now) }
{
    out.push_str("states ")?;
    out.push_str(name)?;
    out.push_str("\n")?;
    out.push_str(caveat())?;
    out.push_str(no_proof())
}

#[tactic(auto, unfolding(crate::specs::Text::count_text))]
fn put_count(out: &mut String, count: usize, whole: bool) -> Result<(), AllocError>
    ensures { OnOk result (string_bytes out.new ≡ string_bytes out.old ++ count_text count whole) }
{
    write!(out, "states that were walked: {count}\n")?;
    if whole {
        out.push_str("these are all that can be reached\n")
    } else {
        out.push_str("not all states were walked, and of those that are left nothing is said\n")
    }
}

// ---- rows

// The line of a row that does something.
#[tactic(auto, unfolding(crate::specs::Text::row_line))]
fn put_row_line(out: &mut String, does: &str, number: usize, row: &Row) -> Result<(), AllocError>
    ensures { OnOk result (string_bytes out.new ≡ string_bytes out.old ++ row_line does.now number row.now) }
{
    write!(out, "    row {number}{does}")?;
    put_row(out, row)?;
    out.push_str("\n")
}

// Whether the row at a place is marked.
fn is_marked(marks: &[bool], at: usize) -> bool
    ensures { result ≡ is_marked marks.now at }
{
    match marks.get(at) {
        Some(mark) => *mark,
        None => false,
    }
}

// The lines of the rows that are marked.
fn put_marked(out: &mut String, does: &str, marks: &[bool], rows: &[Row]) -> Result<(), AllocError>
    ensures { OnOk result
        (string_bytes out.new ≡ string_bytes out.old ++ marked_text does.now marks.now 0 rows.now) }
{
    for (i, row) in rows.iter().enumerate() {
        if is_marked(marks, i) {
            put_row_line(out, does, i + 1, row)?;
        }
    }
    Ok(())
}

// The numbers of rows, given by their places.
fn put_places(out: &mut String, places: &[u32]) -> Result<(), AllocError>
    ensures { OnOk result (string_bytes out.new ≡ string_bytes out.old ++ places_text places.now) }
{
    for at in places {
        let number = u64::from(*at) + 1;
        write!(out, " {number}")?;
    }
    Ok(())
}

// ---- levers that can never be reversed

// The rows that hold a lever in every state.
#[tactic(auto, unfolding(crate::specs::Text::blame_text))]
fn put_blame(out: &mut String, rows: &[Row], marks: &[bool]) -> Result<(), AllocError>
    ensures { OnOk result (string_bytes out.new ≡ string_bytes out.old ++ blame_text rows.now marks.now) }
{
    if any_marked(marks) {
        put_marked(out, " holds it in every state: ", marks, rows)
    } else {
        out.push_str("    no row alone holds it in every state\n")
    }
}

#[tactic(auto, unfolding(crate::specs::Text::round_text))]
fn round() -> &'static str
    ensures { result.now ≡ round_text }
{
    "    round the rows"
}

// The line of a circle of rows.
#[tactic(auto, unfolding(crate::specs::Text::circle_line))]
fn put_circle_line(out: &mut String, circle: &[u32]) -> Result<(), AllocError>
    ensures { OnOk result (string_bytes out.new ≡ string_bytes out.old ++ circle_line circle.now) }
{
    out.push_str(round())?;
    put_places(out, circle)?;
    out.push_str("\n")
}

// The same where there is one.
fn put_circle(out: &mut String, circle: &[u32]) -> Result<(), AllocError>
    ensures { OnOk result (string_bytes out.new ≡ string_bytes out.old ++ circle_text circle.now) }
{
    match circle {
        [] => Ok(()),
        [_, ..] => put_circle_line(out, circle),
    }
}

#[tactic(auto, unfolding(crate::specs::Text::frozen_text))]
fn put_frozen(
    out: &mut String,
    rows: &[Row],
    number: u32,
    marks: &[bool],
    circle: &[u32],
) -> Result<(), AllocError>
    ensures { OnOk result (string_bytes out.new
        ≡ string_bytes out.old ++ frozen_text rows.now number marks.now circle.now) }
{
    write!(out, "lever {number} can never be reversed\n")?;
    put_blame(out, rows, marks)?;
    put_circle(out, circle)
}

// The lines of a lever, if it can never be reversed.
fn put_lever(
    out: &mut String,
    rows: &[Row],
    lever: &LeverReport,
    circle: &[u32],
) -> Result<(), AllocError>
    ensures { OnOk result (string_bytes out.new
        ≡ string_bytes out.old ++ lever_text rows.now lever.now lever.now.own circle.now) }
{
    match lever.own {
        Finding::First(_) => Ok(()),
        Finding::Never => put_frozen(out, rows, lever.number, &lever.holding, circle),
        Finding::Open => Ok(()),
    }
}

fn put_levers(
    out: &mut String,
    rows: &[Row],
    levers: &[LeverReport],
    circles: &[Vec<u32>],
) -> Result<(), AllocError>
    requires { length circles.now ≡ length levers.now }
    ensures { OnOk result (string_bytes out.new
        ≡ string_bytes out.old ++ frozens_text rows.now levers.now circles.now) }
{
    for (i, lever) in levers.iter().enumerate() {
        put_lever(out, rows, lever, &circles[i])?;
    }
    Ok(())
}

// ---- levers that can be reversed together

fn sign_text(finding: Finding) -> &'static str
    ensures { result.now ≡ sign_text finding }
{
    match finding {
        Finding::First(_) => " .",
        Finding::Never => " x",
        Finding::Open => " ?",
    }
}

// The same, where a way was found beside the walk.
fn sign_with(has_way: bool, finding: Finding) -> &'static str
    ensures { result.now ≡ sign_with has_way finding }
{
    if has_way { " ." } else { sign_text(finding) }
}

fn put_signs(out: &mut String, pairs: &[PairReport]) -> Result<(), AllocError>
    ensures { OnOk result (string_bytes out.new
        ≡ string_bytes out.old ++ flat_map (λ pair. sign_with pair.has_way pair.finding) pairs.now) }
{
    for pair in pairs {
        out.push_str(sign_with(pair.has_way, pair.finding))?;
    }
    Ok(())
}

// A digit of a lever's number.
#[tactic(auto, unfolding(crate::specs::Text::digit_text))]
fn put_digit(out: &mut String, power: u32, number: u32) -> Result<(), AllocError>
    requires { 0 < power }
    ensures { OnOk result (string_bytes out.new ≡ string_bytes out.old ++ digit_text power number) }
{
    if number < power {
        out.push_str("  ")
    } else {
        let digit = number / power % 10;
        write!(out, " {digit}")
    }
}

fn put_each_digit(out: &mut String, power: u32, numbers: &[u32]) -> Result<(), AllocError>
    requires { 0 < power }
    ensures { OnOk result
        (string_bytes out.new ≡ string_bytes out.old ++ flat_map (digit_text power) numbers.now) }
{
    for number in numbers {
        put_digit(out, power, *number)?;
    }
    Ok(())
}

// Whether any lever's number has a digit at a power of ten.
fn any_reaches(power: u32, numbers: &[u32]) -> bool
    ensures { result ≡ list_any (λ number. nat_le power number) numbers.now }
{
    numbers.iter().any(|number| power <= *number)
}

// The digits of the levers' numbers at a power of ten, if any has one.
fn put_digits(out: &mut String, power: u32, numbers: &[u32]) -> Result<(), AllocError>
    requires { 0 < power }
    ensures { OnOk result (string_bytes out.new ≡ string_bytes out.old ++ digits_text power numbers.now) }
{
    if any_reaches(power, numbers) {
        out.push_str("   ")?;
        put_each_digit(out, power, numbers)?;
        out.push_str("\n")
    } else {
        Ok(())
    }
}

// A number in three columns.
#[tactic(auto, unfolding(crate::specs::Text::padded_text))]
fn put_padded(out: &mut String, number: u32) -> Result<(), AllocError>
    ensures { OnOk result (string_bytes out.new ≡ string_bytes out.old ++ padded_text number) }
{
    if number < 10 {
        write!(out, "  {number}")
    } else if number < 100 {
        write!(out, " {number}")
    } else {
        write!(out, "{number}")
    }
}

// A lever's line of the triangle.
#[tactic(auto, unfolding(crate::specs::Text::triangle_line))]
fn put_triangle_line(out: &mut String, lever: &LeverReport) -> Result<(), AllocError>
    ensures { OnOk result (string_bytes out.new ≡ string_bytes out.old ++ triangle_line lever.now) }
{
    put_padded(out, lever.number)?;
    put_signs(out, &lever.others)?;
    out.push_str(sign_with(lever.has_way, lever.own))?;
    out.push_str("\n")
}

fn put_triangle(out: &mut String, levers: &[LeverReport]) -> Result<(), AllocError>
    ensures { OnOk result (string_bytes out.new ≡ string_bytes out.old ++ flat_map triangle_line levers.now) }
{
    for lever in levers {
        put_triangle_line(out, lever)?;
    }
    Ok(())
}

// The line of two levers that rows refute are ever reversed together.
#[tactic(auto, unfolding(crate::specs::Text::refuted_line))]
fn put_refuted(out: &mut String, number: u32, other: u32, places: &[u32]) -> Result<(), AllocError>
    ensures { OnOk result
        (string_bytes out.new ≡ string_bytes out.old ++ refuted_line number other places.now) }
{
    write!(out, "levers {other} {number} never, by rows")?;
    put_places(out, places)?;
    out.push_str("\n")
}

// The same where there are such rows.
fn put_pair(out: &mut String, number: u32, other: u32, places: &[u32]) -> Result<(), AllocError>
    ensures { OnOk result (string_bytes out.new ≡ string_bytes out.old ++ pair_text number other places.now) }
{
    match places {
        [] => Ok(()),
        [_, ..] => put_refuted(out, number, other, places),
    }
}

// The lines of a lever and each lever before it.
fn put_pairs(
    out: &mut String,
    numbers: &[u32],
    number: u32,
    pairs: &[PairReport],
) -> Result<(), AllocError>
    ensures { OnOk result (string_bytes out.new
        ≡ string_bytes out.old ++ pairs_text numbers.now number 0 pairs.now) }
{
    for (k, pair) in pairs.iter().enumerate() {
        let other = match numbers.get(k) {
            Some(other) => *other,
            None => 0,
        };
        put_pair(out, number, other, &pair.rows)?;
    }
    Ok(())
}

// The lines of all levers.
fn put_all_refuted(
    out: &mut String,
    numbers: &[u32],
    levers: &[LeverReport],
) -> Result<(), AllocError>
    ensures { OnOk result
        (string_bytes out.new ≡ string_bytes out.old ++ refuted_text numbers.now levers.now) }
{
    for lever in levers {
        put_pairs(out, numbers, lever.number, &lever.others)?;
    }
    Ok(())
}

fn signs_text(whole: bool) -> &'static str
    ensures { result.now ≡ signs_text whole }
{
    if whole {
        "reversed together: . they can be, x never\n"
    } else {
        "reversed together: . they can be, x never, ? not found\n"
    }
}

#[tactic(auto, unfolding(crate::specs::Text::together_text))]
fn put_together(
    out: &mut String,
    whole: bool,
    numbers: &[u32],
    levers: &[LeverReport],
) -> Result<(), AllocError>
    ensures { OnOk result
        (string_bytes out.new ≡ string_bytes out.old ++ together_text whole numbers.now levers.now) }
{
    out.push_str(signs_text(whole))?;
    put_digits(out, 100, numbers)?;
    put_digits(out, 10, numbers)?;
    put_digits(out, 1, numbers)?;
    put_triangle(out, levers)?;
    put_all_refuted(out, numbers, levers)
}

// ---- redundant rows

fn is_redundant(row_use: RowUse) -> bool
    ensures { result ≡ is_redundant row_use }
{
    match row_use {
        RowUse::Needed => false,
        RowUse::Redundant => true,
        RowUse::Open => false,
    }
}

// The line of two rows that together hold all that a redundant one holds.
#[tactic(auto, unfolding(crate::specs::Text::cover_line))]
fn put_cover_line(out: &mut String, pair: RowPair) -> Result<(), AllocError>
    ensures { OnOk result (string_bytes out.new ≡ string_bytes out.old ++ cover_line pair) }
{
    let one = u64::from(pair.one) + 1;
    let two = u64::from(pair.two) + 1;
    write!(out, "    rows {one} {two} together hold as much\n")
}

// The same, if two are told.
fn put_cover(out: &mut String, pair: Option<RowPair>) -> Result<(), AllocError>
    ensures { OnOk result (string_bytes out.new ≡ string_bytes out.old ++ cover_text pair) }
{
    match pair {
        Some(pair) => put_cover_line(out, pair),
        None => Ok(()),
    }
}

// The rows that hold as much as a redundant one: each by itself, or two together.
#[tactic(auto, unfolding(crate::specs::Text::as_much_text))]
fn put_as_much(out: &mut String, rows: &[Row], report: &RowReport) -> Result<(), AllocError>
    ensures { OnOk result (string_bytes out.new ≡ string_bytes out.old ++ as_much_text rows.now report.now) }
{
    put_marked(out, " holds all that it holds: ", &report.covering, rows)?;
    put_cover(out, report.pair)
}

// The lines of a redundant row.
#[tactic(auto, unfolding(crate::specs::Text::redundant_text))]
fn put_redundant(
    out: &mut String,
    rows: &[Row],
    number: usize,
    row: &Row,
    report: &RowReport,
) -> Result<(), AllocError>
    ensures { OnOk result
        (string_bytes out.new ≡ string_bytes out.old ++ redundant_text rows.now number row.now report.now) }
{
    write!(out, "row {number} is redundant: ")?;
    put_row(out, row)?;
    out.push_str("\n")?;
    put_as_much(out, rows, report)
}

// The lines of the redundant rows.
fn put_redundants(out: &mut String, rows: &[Row], reports: &[RowReport]) -> Result<(), AllocError>
    requires { length reports.now ≡ length rows.now }
    ensures { OnOk result (string_bytes out.new ≡ string_bytes out.old
        ++ redundants_text rows.now 0 rows.now reports.now) }
{
    for (i, row) in rows.iter().enumerate() {
        let report = &reports[i];
        if is_redundant(report.row_use) {
            put_redundant(out, rows, i + 1, row, report)?;
        }
    }
    Ok(())
}

// Whether any row is redundant.
fn any_redundant(reports: &[RowReport]) -> bool
    ensures { result ≡ list_any (λ report. is_redundant report.row_use) reports.now }
{
    reports.iter().any(|report| is_redundant(report.row_use))
}

#[tactic(auto, unfolding(crate::specs::Text::redundancy_text))]
fn put_redundancy(out: &mut String, whole: bool, reports: &[RowReport]) -> Result<(), AllocError>
    ensures { OnOk result (string_bytes out.new ≡ string_bytes out.old ++ redundancy_text whole reports.now) }
{
    if any_redundant(reports) {
        out.push_str("each row that is redundant is so while all others stay\n")
    } else if whole {
        out.push_str("no row is redundant\n")
    } else {
        Ok(())
    }
}

// ---- sequences

// The end at which a lever stands.
fn end_in(ends: &[End], lever: u32) -> End
    ensures { result ≡ end_at ends.now lever }
{
    match ends.get(lever.saturating_sub(1) as usize) {
        Some(end) => *end,
        None => End::Normal,
    }
}

// Moves a lever to its other end.
fn turn(ends: &mut [End], lever: u32)
    ensures { ends.new ≡ after_move ends.old lever }
{
    let at = lever.saturating_sub(1) as usize;
    if at < ends.len() {
        ends[at] = ends[at].other();
    }
}

// The number of the lever at a place.
fn number_at(numbers: &[u32], lever: u32) -> u32
    ensures { result ≡ slice_index numbers.now (lever - 1) }
{
    match numbers.get(lever.saturating_sub(1) as usize) {
        Some(number) => *number,
        None => 0,
    }
}

// The line of a move.
#[tactic(auto, unfolding(crate::specs::Text::move_text))]
fn put_move(out: &mut String, end: End, number: u32) -> Result<(), AllocError>
    ensures { OnOk result (string_bytes out.new ≡ string_bytes out.old ++ move_text end number) }
{
    match end {
        End::Normal => write!(out, "    pull {number}\n"),
        End::Reversed => write!(out, "    put {number}\n"),
    }
}

// The lines of moves from a state on.
fn put_moves(
    out: &mut String,
    numbers: &[u32],
    ends: &mut [End],
    path: &[u32],
) -> Result<(), AllocError>
    ensures { OnOk result (string_bytes out.new ≡ string_bytes out.old
        ++ moves_text numbers.now ends.old path.now) }
{
    for lever in path {
        put_move(out, end_in(ends, *lever), number_at(numbers, *lever))?;
        turn(ends, *lever);
    }
    Ok(())
}

// That no state was found, or by which rows there is none.
#[tactic(auto, unfolding(crate::specs::Text::open_text))]
fn put_open(out: &mut String, places: &[u32]) -> Result<(), AllocError>
    ensures { OnOk result (string_bytes out.new ≡ string_bytes out.old ++ open_text places.now) }
{
    match places {
        [] => out.push_str("    no state that was walked has them reversed together\n"),
        [_, ..] => {
            out.push_str("    never, by rows")?;
            put_places(out, places)?;
            out.push_str("\n")
        }
    }
}

// The lines of moves from all levers normal on.
fn put_path(
    out: &mut String,
    alloc: Global,
    numbers: &[u32],
    path: &[u32],
) -> Result<(), AllocError>
    ensures { OnOk result (string_bytes out.new ≡ string_bytes out.old
        ++ moves_text numbers.now (all_normal (length numbers.now)) path.now) }
{
    let mut ends = vec![in alloc; End::Normal; numbers.len()]?;
    put_moves(out, numbers, &mut ends, path)
}

#[tactic(auto, unfolding(crate::specs::Text::beside_text))]
fn beside() -> &'static str
    ensures { result.now ≡ beside_text }
{
    "    found beside the walk; there may be a shorter sequence\n"
}

// A way that was found beside the walk.
#[tactic(auto, unfolding(crate::specs::Text::way_text))]
fn put_way(out: &mut String, alloc: Global, numbers: &[u32], path: &[u32]) -> Result<(), AllocError>
    ensures { OnOk result (string_bytes out.new ≡ string_bytes out.old ++ way_text numbers.now path.now) }
{
    out.push_str(beside())?;
    put_path(out, alloc, numbers, path)
}

// The same, or what is said where there is none.
fn put_way_or(
    out: &mut String,
    alloc: Global,
    numbers: &[u32],
    way: &Option<Vec<u32>>,
    places: &[u32],
) -> Result<(), AllocError>
    ensures { OnOk result (string_bytes out.new ≡ string_bytes out.old ++ way_or numbers.now way.now places.now) }
{
    match way {
        Some(path) => put_way(out, alloc, numbers, path),
        None => put_open(out, places),
    }
}

fn put_sequence(
    out: &mut String,
    alloc: Global,
    numbers: &[u32],
    sequence: &Sequence,
    places: &[u32],
    way: &Option<Vec<u32>>,
) -> Result<(), AllocError>
    ensures { OnOk result (string_bytes out.new
        ≡ string_bytes out.old ++ sequence_text numbers.now sequence.now places.now way.now) }
{
    match sequence {
        Sequence::Moves(path) => put_path(out, alloc, numbers, path),
        Sequence::Never => {
            out.push_str("    no sequence of pulls and puts reverses them together\n")
        }
        Sequence::Open => put_way_or(out, alloc, numbers, way, places),
    }
}

fn put_numbers(out: &mut String, numbers: &[u32]) -> Result<(), AllocError>
    ensures { OnOk result (string_bytes out.new ≡ string_bytes out.old ++ numbers_text numbers.now) }
{
    for number in numbers {
        write!(out, " {number}")?;
    }
    Ok(())
}

// What was asked of levers, if of any, and the answer.
#[tactic(auto, unfolding(crate::specs::Text::asked_text))]
fn put_answer(
    out: &mut String,
    alloc: Global,
    asks: &str,
    numbers: &[u32],
    levers: &[u32],
    sequence: &Sequence,
    places: &[u32],
    way: &Option<Vec<u32>>,
) -> Result<(), AllocError>
    ensures { OnOk result (string_bytes out.new ≡ string_bytes out.old
        ++ answer_text asks.now numbers.now levers.now sequence.now places.now way.now) }
{
    match levers {
        [] => Ok(()),
        [_, ..] => {
            out.push_str(asks)?;
            put_numbers(out, levers)?;
            out.push_str("\n")?;
            put_sequence(out, alloc, numbers, sequence, places, way)
        }
    }
}

// ---- the whole

// What is said of the levers.
#[tactic(auto, unfolding(crate::specs::Text::levers_text))]
fn put_levers_part(
    out: &mut String,
    numbers: &[u32],
    rows: &[Row],
    report: &StatesReport,
) -> Result<(), AllocError>
    requires { length report.now.circles.items ≡ length report.now.levers.items }
    ensures { OnOk result
        (string_bytes out.new ≡ string_bytes out.old ++ levers_text numbers.now rows.now report.now) }
{
    let levers = report.levers.as_slice();
    put_levers(out, rows, levers, &report.circles)?;
    put_together(out, report.whole, numbers, levers)
}

// What is said of the rows.
#[tactic(auto, unfolding(crate::specs::Text::rows_text))]
fn put_rows_part(out: &mut String, rows: &[Row], report: &StatesReport) -> Result<(), AllocError>
    requires { length report.now.rows.items ≡ length rows.now }
    ensures { OnOk result (string_bytes out.new ≡ string_bytes out.old ++ rows_text rows.now report.now) }
{
    let reports = report.rows.as_slice();
    put_redundancy(out, report.whole, reports)?;
    put_redundants(out, rows, reports)
}

// The answers to what was asked.
#[tactic(auto, unfolding(crate::specs::Text::answers_text))]
fn put_answers(
    out: &mut String,
    alloc: Global,
    numbers: &[u32],
    wanted: &StatesWanted,
    report: &StatesReport,
) -> Result<(), AllocError>
    ensures { OnOk result
        (string_bytes out.new ≡ string_bytes out.old ++ answers_text numbers.now wanted.now report.now) }
{
    let reached = wanted.reach.as_slice();
    let never = wanted.never.as_slice();
    let (by, against) = (report.reach_rows.as_slice(), report.never_rows.as_slice());
    let (way, way_there) = (&report.reach_way, &report.never_way);
    put_answer(
        out,
        alloc,
        "reach",
        numbers,
        reached,
        &report.reach,
        by,
        way,
    )?;
    put_answer(
        out,
        alloc,
        "never",
        numbers,
        never,
        &report.never,
        against,
        way_there,
    )
}

#[tactic(auto, unfolding(crate::specs::Text::states_text))]
fn put_states(
    out: &mut String,
    alloc: Global,
    name: &str,
    numbers: &[u32],
    rows: &[Row],
    wanted: &StatesWanted,
    report: &StatesReport,
) -> Result<(), AllocError>
    requires rows { length report.now.rows.items ≡ length rows.now }
    requires circles { length report.now.circles.items ≡ length report.now.levers.items }
    ensures { OnOk result (string_bytes out.new ≡ string_bytes out.old
        ++ states_text name.now numbers.now rows.now wanted.now report.now) }
{
    put_head(out, name)?;
    put_count(out, report.count, report.whole)?;
    put_levers_part(out, numbers, rows, report)?;
    put_rows_part(out, rows, report)?;
    put_answers(out, alloc, numbers, wanted, report)
}

/// A report on the frame of a box that has these levers and rows, as it is printed.
pub fn print_states(
    alloc: Global,
    name: &str,
    numbers: &[u32],
    rows: &[Row],
    wanted: &StatesWanted,
    report: &StatesReport,
) -> Result<String, NoMemory>
    requires rows { length report.now.rows.items ≡ length rows.now }
    requires circles { length report.now.circles.items ≡ length report.now.levers.items }
    ensures { IfOk result (λ text.
        string_bytes text ≡ states_text name.now numbers.now rows.now wanted.now report.now) }
{
    let mut out = String::new(alloc);
    put_states(&mut out, alloc, name, numbers, rows, wanted, report)?;
    Ok(out)
}
