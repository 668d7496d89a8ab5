//! Tests that nothing overlaps in a picture.
#![tactic(auto)]

#[cfg(test)]
mod areas;
#[cfg(test)]
mod fonts;
#[cfg(test)]
mod frames;
#[cfg(test)]
mod graphs;
#[cfg(test)]
mod line_pictures;
#[cfg(test)]
mod made_plans;
#[cfg(test)]
mod marks;
#[cfg(test)]
mod widths;
