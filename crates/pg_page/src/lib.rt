//! Page files: frames in the order of their positions, each of which counts whole or not at all.
#![tactic(auto)]

mod decoding;
mod encoding;
mod frame;
mod laws;
mod opening;
mod place;
mod places;
mod reading;
mod writer;
mod writing;

pub use decoding::{LONGEST_FRAME, decode_frame, one_frame};
pub use encoding::encode_frame;
pub use frame::Frame;
pub use laws::{frames_fit, one_list_of_frames, place_by_index};
pub use place::Place;
pub use reading::{first_place, next_place, read_frame};
pub use writer::{ClosedPage, PageWriter};
