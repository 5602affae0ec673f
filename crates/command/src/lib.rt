// One line of the console: its text, and the command that it is.
#![tactic(auto)]

mod command;
mod letters;
mod line_buffer;
mod names;
mod reading;
mod sending;
mod verbs;

pub use command::{Command, MOST_WORDS, PacketRoom};
pub use letters::RouteLetters;
pub use line_buffer::LineBuffer;
pub use names::{Class, FreeWord, InputName, ModeName, StationName};
pub use reading::read;
