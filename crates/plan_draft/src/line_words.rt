//! What the words of a plan's lines mean.

ghost use Rattle.std.specs.Prelude.{◌≡◌, ◌≤◌, ◌+◌, [], IfOk, OnOk, bytes_eq, drop, false, length};
ghost use Rattle.std.specs.List.{list_any};
ghost use Rattle.rail_text.specs.Gives.{GivesCause, GivesLine, TakesNoMemory};
ghost use Rattle.rail_text.specs.Words.{number_in};
ghost use Rattle.plan_draft.specs.LineWords.{code_in, counted, end_in, kind_in, lever_in, new_name, number_in_names};
ghost use Rattle.plan_draft.specs.LineWords.{places_onto, way_in, word, working_in};

use arrayvec::ArrayVec;
use bell_codes::{Code, read_code};
use block_words::Way;
use line_plan::{BoxPlan, Items, Kind, Lever, To};
use locking_table::MOST_LEVERS;
use rail_text::{Cause, LineFault, LineWords, Names, NoMemory, is_name, name_in, read_number};
use std::alloc::Global;

/// The line has so many words, its first among them.
pub fn counted(words: &LineWords<'_>, low: usize, high: usize) -> Result<(), Cause>
    ensures exact { result ≡ counted low high words.now }
    ensures few { OnOk result (length words.now ≤ high) }
{
    let count = words.word_count();
    if low <= count && count <= high {
        Ok(())
    } else {
        Err(Cause::WordCount)
    }
}

/// A number from `low` to `high`.
pub fn number_of(word: &[u8], low: u32, high: u32) -> Result<u32, Cause>
    ensures { result ≡ number_in low high word.now }
{
    match read_number(word) {
        None => Err(Cause::BadNumber),
        Some(n) if u64::from(low) <= n && n <= u64::from(high) => Ok(n as u32),
        Some(_) => Err(Cause::OutOfRange),
    }
}

/// The word with this number; the first of the line has the number 0.
pub fn word<'a>(words: &LineWords<'a>, i: usize) -> &'a [u8]
    ensures { result.now ≡ word i words.now }
{
    match words.word(i) {
        Some(word) => word,
        None => &[],
    }
}

/// A new name among these.
#[tactic(auto, unfolding(crate::specs::LineWords::new_name))]
pub fn new_name<'a>(names: &Names, word: &'a [u8]) -> Result<&'a str, LineFault>
    ensures gives { GivesLine (λ name. name.now) result (new_name names.now word.now) }
    ensures new { IfOk result (λ name. list_any (bytes_eq name.now) names.now ≡ false) }
    ensures memory { TakesNoMemory result }
{
    let name = name_in(word)?;
    if names.contains(name) {
        return Err(LineFault::Cause(Cause::NameTwice));
    }
    Ok(name)
}

/// The number of a name among these.
#[tactic(auto, unfolding(crate::specs::LineWords::number_in_names))]
pub fn number_in_names(names: &Names, word: &[u8]) -> Result<u32, Cause>
    ensures { result ≡ number_in_names names.now word.now }
{
    if !is_name(word) {
        return Err(Cause::UnknownName);
    }
    names.number_of_word(word).ok_or(Cause::UnknownName)
}

/// The places that the words of a line name, from the word with this number on. They are eight at most.
#[tactic(auto, unfolding(crate::specs::LineWords::places_onto))]
pub fn places_from(
    names: &Names,
    words: &LineWords<'_>,
    first: usize,
) -> Result<ArrayVec<u32, 8>, Cause>
    requires { length words.now ≤ first + 8 }
    ensures { GivesCause (λ places. places.items) result (places_onto names.now [] (drop first words.now)) }
{
    let mut places = ArrayVec::new();
    for i in first..words.word_count() {
        let place = number_in_names(names, word(words, i))?;
        places.push(place);
    }
    Ok(places)
}

/// These places, to be kept.
pub fn kept(alloc: Global, places: &[u32]) -> Result<Items<u32>, NoMemory>
    ensures { IfOk result (λ kept. kept ≡ places.now) }
{
    Ok(Items::from_vec(Vec::from_slice(alloc, places)?))
}

/// `up` or `down`.
#[tactic(auto, unfolding(crate::specs::LineWords::way_in))]
pub fn way_in(word: &[u8]) -> Result<Way, Cause>
    ensures { result ≡ way_in word.now }
{
    if word == b"up".as_slice() {
        Ok(Way::Up)
    } else if word == b"down".as_slice() {
        Ok(Way::Down)
    } else {
        Err(Cause::UnknownWord)
    }
}

/// The kind of a lever.
#[tactic(auto, unfolding(crate::specs::LineWords::kind_in))]
pub fn kind_in(word: &[u8]) -> Result<Kind, Cause>
    ensures { result ≡ kind_in word.now }
{
    if word == b"signal".as_slice() {
        Ok(Kind::Signal)
    } else if word == b"points".as_slice() {
        Ok(Kind::Points)
    } else if word == b"lock".as_slice() {
        Ok(Kind::Lock)
    } else if word == b"distant".as_slice() {
        Ok(Kind::Distant)
    } else if word == b"spare".as_slice() {
        Ok(Kind::Spare)
    } else {
        Err(Cause::UnknownWord)
    }
}

/// A bell code.
pub fn code_in(word: &[u8]) -> Result<Code, LineFault>
    ensures gives { GivesLine (λ code. code) result (code_in word.now) }
    ensures memory { TakesNoMemory result }
{
    match read_code(word) {
        Ok(code) => Ok(code),
        Err(_) => Err(LineFault::Cause(Cause::BadCode)),
    }
}

/// Where a signal leads: off the line, or to a place.
#[tactic(auto, unfolding(crate::specs::LineWords::end_in))]
pub fn end_in(places: &Names, word: &[u8]) -> Result<To, Cause>
    ensures { result ≡ end_in places.now word.now }
{
    if word == b"away".as_slice() {
        return Ok(To::Away);
    }
    let place = number_in_names(places, word)?;
    Ok(To::Place(place))
}

/// A lever of the box.
#[tactic(auto, unfolding(crate::specs::LineWords::lever_in))]
pub fn lever_in(here: &BoxPlan, word: &[u8]) -> Result<Lever, Cause>
    ensures { result ≡ lever_in here.now word.now }
{
    let number = number_of(word, 1, MOST_LEVERS)?;
    match here.lever(number) {
        Some(lever) => Ok(*lever),
        None => Err(Cause::UnknownLever),
    }
}

/// A lever of the box that is no spare one.
#[tactic(auto, unfolding(crate::specs::LineWords::working_in))]
pub fn working_in(here: &BoxPlan, word: &[u8]) -> Result<u32, Cause>
    ensures { result ≡ working_in here.now word.now }
{
    let lever = lever_in(here, word)?;
    if lever.kind == Kind::Spare {
        return Err(Cause::WrongKind);
    }
    Ok(lever.number)
}
