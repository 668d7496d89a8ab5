//! Why a text was refused, told as compilers tell it: where the fault is and its cause, the line as it stands, and a
//! sentence with what is known there.
#![tactic(auto)]

mod box_lines;
mod call_forms;
mod call_sentences;
mod explained;
mod explaining;
mod journal_sentences;
mod known_words;
mod laws;
mod line_forms;
mod moments;
mod near_words;
mod numbered_line;
mod plan_forms;
mod plan_limits;
mod plan_names;
mod plan_order;
mod plan_sentences;
mod plan_words;
mod row_lines;
mod script_sentences;
mod sentence;
mod text_form;
mod token_sentences;
mod wrong_words;

pub use explaining::{TextKind, explain};
pub use laws::shown_lines_law;
