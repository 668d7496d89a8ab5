//! The elements of a picture's text, read as the parts of the picture that they take.

use crate::areas::{Area, Thing, is_free, is_within};
use crate::fonts::{Font, Rule, font_of, rules_of};
use crate::widths::{depth, words_width};
use std::alloc::{AllocError, Global};

// What an element gives under a name, which is told with what stands before and behind it, as ` x="`.
fn value<'a>(head: &'a str, name: &str) -> Option<&'a str> {
    match head.split_once(name) {
        Some((_, rest)) => match rest.split_once('"') {
            Some((value, _)) => Some(value),
            None => None,
        },
        None => None,
    }
}

// A number in thousandths, from a million before nothing.
fn placed(number: &str) -> u64 {
    let number: u64 = number.parse().unwrap_or(0);
    number.saturating_mul(1000).saturating_add(1_000_000)
}

// What an element gives under a name as a place.
fn place(head: &str, name: &str) -> u64 {
    match value(head, name) {
        Some(number) => placed(number),
        None => 0,
    }
}

// The same as a length.
fn length(head: &str, name: &str) -> u64 {
    place(head, name).saturating_sub(1_000_000)
}

// The part between two corners.
fn between(from: (u64, u64), to: (u64, u64), drawn: u64) -> Area {
    Area {
        top: from.1.min(to.1),
        left: from.0.min(to.0),
        bottom: from.1.max(to.1),
        right: from.0.max(to.0),
        drawn,
        thing: Thing::Shape,
    }
}

// The part that a rectangle takes.
fn rect(head: &str, drawn: u64) -> Area {
    let (x, y) = (place(head, " x=\""), place(head, " y=\""));
    let right = x.saturating_add(length(head, " width=\""));
    let bottom = y.saturating_add(length(head, " height=\""));
    between((x, y), (right, bottom), drawn)
}

// The part that a line takes.
fn line(head: &str, drawn: u64) -> Area {
    let from = (place(head, " x1=\""), place(head, " y1=\""));
    let to = (place(head, " x2=\""), place(head, " y2=\""));
    between(from, to, drawn)
}

// The part that a circle takes.
fn circle(head: &str, drawn: u64) -> Area {
    let (x, y) = (place(head, " cx=\""), place(head, " cy=\""));
    let radius = length(head, " r=\"");
    let from = (x.saturating_sub(radius), y.saturating_sub(radius));
    let to = (x.saturating_add(radius), y.saturating_add(radius));
    between(from, to, drawn)
}

// A part that reaches to one more corner, as `12,30`.
fn reaching(area: Area, corner: &str) -> Area {
    let Some((x, y)) = corner.split_once(',') else {
        return area;
    };
    let (x, y) = (placed(x), placed(y));
    Area {
        top: area.top.min(y),
        left: area.left.min(x),
        bottom: area.bottom.max(y),
        right: area.right.max(x),
        ..area
    }
}

// The part that a figure with corners takes.
fn polygon(head: &str, drawn: u64) -> Area {
    let mut area = between((u64::MAX, u64::MAX), (u64::MAX, u64::MAX), drawn);
    area.right = 0;
    area.bottom = 0;
    for corner in value(head, " points=\"").unwrap_or("").split(' ') {
        area = reaching(area, corner);
    }
    area
}

// A length of so many thousandths of a font's size.
fn sized(font: Font, thousandths: u64) -> u64 {
    thousandths.saturating_mul(font.size) / 10
}

// How wide words are.
fn width(font: Font, words: &str) -> u64 {
    sized(font, words_width(words, font.is_mono, font.is_bold))
}

// Where words begin that stand at a place.
fn beginning(font: Font, x: u64, width: u64) -> u64 {
    if font.is_middle {
        x.saturating_sub(width / 2)
    } else if font.is_end {
        x.saturating_sub(width)
    } else {
        x
    }
}

// The part that level words take.
fn level_words(font: Font, at: (u64, u64), words: &str, drawn: u64) -> Area {
    let width = width(font, words);
    let left = beginning(font, at.0, width);
    Area {
        top: at.1.saturating_sub(sized(font, 760)),
        left,
        bottom: at.1.saturating_add(sized(font, depth(words))),
        right: left.saturating_add(width),
        drawn,
        thing: Thing::Words,
    }
}

// The part that words take that are read upwards from a place.
fn upright_words(font: Font, at: (u64, u64), words: &str, drawn: u64) -> Area {
    Area {
        top: at.1.saturating_sub(width(font, words)),
        left: at.0.saturating_sub(sized(font, 760)),
        bottom: at.1,
        right: at.0.saturating_add(sized(font, depth(words))),
        drawn,
        thing: Thing::Words,
    }
}

// The place to which words are turned.
fn turned(turn: &str) -> (u64, u64) {
    let (at, _) = turn.split_once(')').unwrap_or((turn, ""));
    let (x, y) = at.split_once(' ').unwrap_or((at, ""));
    (placed(x), placed(y))
}

// The part that words take.
fn words_in(rules: &[Rule<'_>], head: &str, words: &str, drawn: u64) -> Area {
    let font = font_of(rules, value(head, " class=\"").unwrap_or(""));
    match value(head, " transform=\"translate(") {
        Some(turn) => upright_words(font, turned(turn), words, drawn),
        None => {
            let at = (place(head, " x=\""), place(head, " y=\""));
            level_words(font, at, words, drawn)
        }
    }
}

// Whether a line is one of those that are ruled behind a graph, words and all.
fn is_ruling(head: &str) -> bool {
    matches!(value(head, " class=\""), Some("minute" | "tens" | "hour"))
}

// The part that an element takes, if it is one that takes some.
fn area_of(rules: &[Rule<'_>], head: &str, words: &str, drawn: u64) -> Option<Area> {
    let (tag, _) = head.split_once(' ').unwrap_or((head, ""));
    match tag {
        "text" if !words.is_empty() => Some(words_in(rules, head, words, drawn)),
        "rect" => Some(rect(head, drawn)),
        "line" if !is_ruling(head) => Some(line(head, drawn)),
        "circle" => Some(circle(head, drawn)),
        "polygon" => Some(polygon(head, drawn)),
        _ => None,
    }
}

// The style of a picture.
fn style_of(picture: &str) -> &str {
    let (_, behind) = picture.split_once("<style>").unwrap_or(("", ""));
    let (style, _) = behind.split_once("</style>").unwrap_or(("", ""));
    style
}

/// The parts that the words and shapes of a picture take, in the order in which they are drawn.
pub fn areas_of(alloc: Global, picture: &str) -> Result<Vec<Area>, AllocError> {
    let rules = rules_of(alloc, style_of(picture))?;
    let mut areas = Vec::new(alloc);
    let mut drawn: u64 = 0;
    for element in picture.split('<') {
        let (head, words) = element.split_once('>').unwrap_or((element, ""));
        drawn = drawn.saturating_add(1);
        if let Some(area) = area_of(&rules, head, words, drawn) {
            areas.push(area)?;
        }
    }
    Ok(areas)
}

// The height of the tallest words.
fn tallest(areas: &[Area]) -> u64 {
    let mut tallest = 0;
    for area in areas {
        if area.thing == Thing::Words {
            tallest = area.bottom.saturating_sub(area.top).max(tallest);
        }
    }
    tallest
}

// The parts that reach between two heights.
fn near(alloc: Global, areas: &[Area], from: u64, to: u64) -> Result<Vec<Area>, AllocError> {
    let mut near = Vec::new(alloc);
    for area in areas {
        if area.top <= to && from <= area.bottom {
            near.push(*area)?;
        }
    }
    Ok(near)
}

// How many words that begin between two heights don't stand free.
fn covered(areas: &[Area], from: u64, to: u64) -> u64 {
    let mut covered: u64 = 0;
    for area in areas {
        let is_here = area.thing == Thing::Words && from <= area.top && area.top < to;
        if is_here && !is_free(area, areas) {
            covered = covered.saturating_add(1);
        }
    }
    covered
}

// How many words of a picture that is so high don't stand free.
fn all_covered(alloc: Global, areas: &[Area], high: u64) -> Result<u64, AllocError> {
    let tallest = tallest(areas);
    let mut all: u64 = 0;
    for band in 0..(high / 64).saturating_add(2) {
        let from = band.saturating_mul(64_000).saturating_add(999_000);
        let to = from.saturating_add(64_000);
        let near = near(alloc, areas, from, to.saturating_add(tallest))?;
        all = all.saturating_add(covered(&near, from, to));
    }
    Ok(all)
}

// How many parts reach out of a picture.
fn without(areas: &[Area], wide: u64, high: u64) -> u64 {
    let mut without: u64 = 0;
    for area in areas {
        if !is_within(area, wide, high) {
            without = without.saturating_add(1);
        }
    }
    without
}

/// What was found of a picture: how many words it has, how many of them overlap with something, and how many things
/// reach out of it.
#[derive(Clone, Copy, Debug, PartialEq, Eq)]
pub struct Found {
    pub words: u64,
    pub covered: u64,
    pub without: u64,
}

// How many words there are.
fn words_among(areas: &[Area]) -> u64 {
    let mut words: u64 = 0;
    for area in areas {
        if area.thing == Thing::Words {
            words = words.saturating_add(1);
        }
    }
    words
}

/// What is found of a picture.
pub fn found_in(alloc: Global, picture: &str) -> Result<Found, AllocError> {
    let areas = areas_of(alloc, picture)?;
    let (_, svg) = picture.split_once("<svg ").unwrap_or(("", ""));
    let (wide, high) = (
        length(svg, " width=\"") / 1000,
        length(svg, " height=\"") / 1000,
    );
    Ok(Found {
        words: words_among(&areas),
        covered: all_covered(alloc, &areas, high)?,
        without: without(&areas, wide, high),
    })
}
