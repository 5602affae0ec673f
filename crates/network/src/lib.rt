// What the network is, and its laws. The definitions stand in specs/; each theorem is the contract of a function here.
#![tactic(auto)]

mod laws;
mod paths;
mod trees;
mod worked;

pub use laws::{calls_keep_the_laws, delivery_holds, hops_hold, laws_hold, progress_holds};
pub use paths::{fires_move_on, path_reaches};
pub use trees::{calls_count, most_hops_owed, refused_calls_change_nothing, waiting_words_fit};
pub use worked::worked_entries;
