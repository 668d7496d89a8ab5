//! Tests of the law of the line, and of what is built on it: the judge, registers and their merge, findings, the made
//! line, and a box's lever frame and moves of trains; and of plans, scripts, calls, replies and journals as texts, as
//! far as they need values made by hand. What maps a text to a text is a worked row.
#![tactic(auto)]

#[cfg(test)]
mod audits;
#[cfg(test)]
mod chains;
#[cfg(test)]
mod facts;
#[cfg(test)]
mod findings;
#[cfg(test)]
mod frames;
#[cfg(test)]
mod journal_texts;
#[cfg(test)]
mod journals;
#[cfg(test)]
mod laws;
#[cfg(test)]
mod legal;
#[cfg(test)]
mod lines;
#[cfg(test)]
mod made;
#[cfg(test)]
mod moves;
#[cfg(test)]
mod plans;
#[cfg(test)]
mod registers;
#[cfg(test)]
mod replies;
#[cfg(test)]
mod scripts;
#[cfg(test)]
mod worked;
