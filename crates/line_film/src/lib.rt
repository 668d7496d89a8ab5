//! A journal as a film: one page of HTML, which steps through the entries. It has the line as it is seen before the first
//! entry, drawn once; for each entry what is then seen otherwise, drawn anew; and what is told of each entry.
#![tactic(auto)]

mod changes;
mod desk;
mod drawing;
mod film;
mod frames;
mod laws;
mod page;
mod rows;
mod same;

pub use changes::Change;
pub use film::line_film;
pub use laws::film_law;
