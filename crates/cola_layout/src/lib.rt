//! The layout of a store's file: how many levels and cells a store has for its keys, where each cell stands, and the
//! header, with its bytes in both formats.
#![tactic(auto)]

mod bytes;
mod decode;
mod encode;
mod fault;
mod geometry;
mod header;
mod law;
mod marks;

pub use fault::LayoutFault;
pub use geometry::Geometry;
pub use header::Header;
pub use law::{
    bottom_is_one, decoding_gives_back, empty_marks_fit, front_is_two_blocks, groups_lie_in_blocks,
    header_is_one, levels_by_three_facts, places_cover, places_differ, slots_are_blocks,
    spelling_is_one, versions_of_formats,
};
pub use marks::Marks;
