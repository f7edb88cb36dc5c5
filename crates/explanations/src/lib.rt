//! Why the program refuses, in words, and the names of instructions: the second line under `--why`.
//!
//! `explain` begins with the file or the option and the place in it; the words behind it are open, but for what differs
//! in the keys of a piece line of another run.
#![tactic(auto)]

mod differences;
mod explaining;
mod instruction_code;
mod instruction_family;
mod instruction_names;
mod paths;
mod place;
mod reasons;
mod words_of_code;
mod words_of_decoding;
mod words_of_lines;
mod words_of_plans;
mod words_of_replays;
mod words_of_rules;
mod words_of_schedules;
mod words_of_spacing;
mod words_of_spelling;
mod words_of_typing;

pub use explaining::explain;
pub use instruction_names::name_of;
pub use place::FilePlace;
pub use words_of_decoding::decode_words;
pub use words_of_lines::line_words;
pub use words_of_plans::plan_words;
pub use words_of_schedules::schedule_words;
pub use words_of_typing::valid_words;
