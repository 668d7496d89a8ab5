//! The fonts of words, as the style of a picture gives them to classes.

use std::alloc::{AllocError, Global};

/// How words of a class are drawn. The size is in tenths of a unit.
#[derive(Clone, Copy, Debug, PartialEq, Eq)]
pub struct Font {
    pub size: u64,
    pub is_mono: bool,
    pub is_bold: bool,
    pub is_middle: bool,
    pub is_end: bool,
}

/// What a style says of a class, or of all words.
#[derive(Clone, Copy)]
pub struct Rule<'a> {
    selectors: &'a str,
    said: &'a str,
}

/// The rules of a style.
pub fn rules_of<'a>(alloc: Global, style: &'a str) -> Result<Vec<Rule<'a>>, AllocError> {
    let mut rules = Vec::new(alloc);
    for rule in style.split('}') {
        if let Some((selectors, said)) = rule.split_once('{') {
            rules.push(Rule { selectors, said })?;
        }
    }
    Ok(rules)
}

// Whether a selector is that of words of these classes.
fn selects(selector: &str, classes: &str) -> bool {
    if selector == "text" {
        return true;
    }
    match selector.strip_prefix('.') {
        Some(class) => classes.split(' ').any(|own| own == class),
        None => false,
    }
}

// Whether a rule is one of words of these classes.
fn is_for(rule: Rule<'_>, classes: &str) -> bool {
    rule.selectors
        .split(',')
        .any(|selector| selects(selector, classes))
}

// The tenths that a size has, as `9.5px`.
fn tenths(size: &str) -> u64 {
    let (number, _) = size.split_once("px").unwrap_or((size, ""));
    let (whole, part) = number.split_once('.').unwrap_or((number, "0"));
    let whole: u64 = whole.parse().unwrap_or(0);
    let part: u64 = part.parse().unwrap_or(0);
    whole.saturating_mul(10).saturating_add(part)
}

// A font with one more thing said of it.
fn with(font: Font, said: &str) -> Font {
    let mut font = font;
    if let Some(size) = said.strip_prefix("font-size:") {
        font.size = tenths(size);
    }
    if said == "font-weight:bold" {
        font.is_bold = true;
    }
    if said == "text-anchor:middle" {
        font.is_middle = true;
    }
    if said == "text-anchor:end" {
        font.is_end = true;
    }
    if said.starts_with("font-family:") {
        font.is_mono = said.ends_with("monospace");
    }
    font
}

// A font with all that a rule says.
fn with_all(font: Font, said: &str) -> Font {
    let mut font = font;
    for one in said.split(';') {
        font = with(font, one);
    }
    font
}

/// The font of words of these classes.
pub fn font_of(rules: &[Rule<'_>], classes: &str) -> Font {
    let mut font = Font {
        size: 160,
        is_mono: false,
        is_bold: false,
        is_middle: false,
        is_end: false,
    };
    for rule in rules {
        if is_for(*rule, classes) {
            font = with_all(font, rule.said);
        }
    }
    font
}
