//! Tests of a single line with tokens: worked lists of calls with their replies, each refusal of each act, each cause
//! for which a script is refused, and what is printed; and of its two men, by hand and on two threads.
#![tactic(auto)]

#[cfg(test)]
mod facts;
#[cfg(test)]
mod men;
#[cfg(test)]
mod printed;
#[cfg(test)]
mod refusals;
#[cfg(test)]
mod scripts;
#[cfg(test)]
mod threads;
#[cfg(test)]
mod worked;
