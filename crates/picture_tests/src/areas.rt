//! The parts of a picture that its shapes take, and whether they overlap.

/// What takes a part of a picture.
#[derive(Clone, Copy, Debug, PartialEq, Eq, PartialOrd, Ord)]
pub enum Thing {
    Words,
    Shape,
}

/// A part of a picture, in thousandths of a unit, from a million left of the picture and above it; and when it is
/// drawn.
#[derive(Clone, Copy, Debug, PartialEq, Eq, PartialOrd, Ord)]
pub struct Area {
    pub top: u64,
    pub left: u64,
    pub bottom: u64,
    pub right: u64,
    pub drawn: u64,
    pub thing: Thing,
}

// Whether two parts overlap.
fn meet(one: &Area, other: &Area) -> bool {
    one.left < other.right
        && other.left < one.right
        && one.top < other.bottom
        && other.top < one.bottom
}

// Whether one part holds the other wholly.
fn holds(one: &Area, other: &Area) -> bool {
    one.left <= other.left
        && other.right <= one.right
        && one.top <= other.top
        && other.bottom <= one.bottom
}

/// Whether a part lies within a picture of this width and height.
pub fn is_within(area: &Area, wide: u64, high: u64) -> bool {
    let picture = Area {
        top: 1_000_000,
        left: 1_000_000,
        bottom: high.saturating_mul(1000).saturating_add(1_000_000),
        right: wide.saturating_mul(1000).saturating_add(1_000_000),
        drawn: 0,
        thing: Thing::Shape,
    };
    holds(&picture, area)
}

// Whether a shape is one on which words stand: it holds them wholly, but that they may reach over its upper rim by less
// than a unit.
fn is_under(shape: &Area, words: &Area) -> bool {
    let lowered = Area {
        top: words.top.saturating_add(700).min(words.bottom),
        ..*words
    };
    shape.drawn < words.drawn && holds(shape, &lowered)
}

// When the ground of words was drawn: the last shape before them on which they stand.
fn ground(words: &Area, near: &[Area]) -> u64 {
    let mut drawn = 0;
    for shape in near {
        if shape.thing == Thing::Shape && is_under(shape, words) {
            drawn = shape.drawn.max(drawn);
        }
    }
    drawn
}

// Whether words overlap with another thing: other words, or a shape that isn't drawn under their ground.
fn overlap(words: &Area, ground: u64, other: &Area) -> bool {
    let is_over = other.thing == Thing::Words || other.drawn > ground;
    is_over && other.drawn != words.drawn && meet(words, other)
}

/// Whether words stand free among what is near them.
pub fn is_free(words: &Area, near: &[Area]) -> bool {
    let ground = ground(words, near);
    for other in near {
        if overlap(words, ground, other) {
            return false;
        }
    }
    true
}
