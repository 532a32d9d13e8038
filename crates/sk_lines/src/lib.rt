//! The lines and the words of a text, and what single words say: keywords, versions, names of clusters and ratios.
#![tactic(auto)]

mod cluster_word;
mod code;
mod error;
mod keyword;
mod law;
mod lines;
mod ratio;
mod reading;
mod split;
mod version;
mod words;

pub use cluster_word::{cluster_named, plain_number};
pub use code::{Code, ReadError, Refusal};
pub use error::EntryError;
pub use keyword::{Keyword, keyword_of};
pub use law::quantities_are_sound;
pub use lines::{bytes_at, check_end, is_word, split_line, split_words, word, words_under};
pub use ratio::angle_ratio;
pub use reading::{LineReader, read_lines};
pub use split::words_of;
pub use version::Version;
pub use words::{LexFault, Word, Words};
