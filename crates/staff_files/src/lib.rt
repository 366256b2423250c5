// What the programs for service staff share: the words that they are started with, the files that these name, and what is said of a block.
//
//     let mut space = [0; PATH_MAX];
//     let name = staff_files::word(rt, 1, &mut space);
//     match staff_files::load(rt, name, 13107 * BLOCK) {
//         Ok(bytes) => ..,
//         Err(Unread::Failed(error)) => ..,  // no memory, or standard error cannot be written
//         Err(..) => ..,                     // cannot be opened, too long, not read to its end
//     }
#![tactic(auto)]

mod files;
mod sentences;
mod words;

pub use files::{Unread, load};
pub use sentences::{say_block, say_refusal};
pub use words::{PATH_MAX, word, word_count};
