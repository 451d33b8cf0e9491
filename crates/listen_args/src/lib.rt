//! The options of the service's command line, as `clap` reads them, and the place to listen at that they ask for.
#![tactic(auto)]

mod listens;
mod words;

pub use listens::{Listens, Obstacle, listens_of, unserved_line};
pub use words::{
    ADDRESS, HEAD_SECONDS, IDLE_SECONDS, ListenOptions, MOST_PLACES, PLACES, QUERY_SECONDS,
    REPLY_SECONDS, USAGE_LINE, read_words, sizes,
};
