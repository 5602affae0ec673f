// A session of the console: what each command answers, and what becomes of the tree.
#![tactic(auto)]

mod answer;
mod calling;
mod console;
mod conversation;
mod fault;
mod replies;
mod ruling;
mod sessions;

pub use answer::Answer;
pub use console::Console;
pub use conversation::{Conversation, converse};
pub use fault::LineFault;
pub use replies::{LONGEST_REPLY, Replies, push_reply};
pub use sessions::{refused_lines_change_nothing, replay};
