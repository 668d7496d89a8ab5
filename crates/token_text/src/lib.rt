//! The texts of a single line with tokens: the script of its calls, and what is printed of them.
#![tactic(auto)]

pub mod acts;
pub mod draft;
pub mod laws;
pub mod printing;
pub mod reading;
pub mod script;

pub use laws::token_scripts_law;
pub use printing::{print_tokens, put_token_entry};
pub use reading::read_tokens;
pub use script::{MOST_TOKEN_CALLS, TOKEN_SCRIPT_LIMIT, TokenScript};
