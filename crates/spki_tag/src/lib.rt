//! Authorization tags and requests (RFC 2693, section 6.3.1).
//!
//! `Tag::read`, `Ground::read`, `Tag::write`, `Tag::same`, `Index::of` and `Index::members` are only for programs in Rattle that use this
//! library.
#![tactic(auto)]

mod cost;
mod equality;
mod fault;
mod form;
mod index;
mod intersection;
pub mod laws;
mod leaf;
mod leaf_intersection;
mod limit_intersection;
mod membership;
mod merge;
mod moment;
mod normal_forms;
mod parts;
mod prefix;
mod range;
mod ranges;
mod reader;
mod request;
mod sets;
mod shared_tags;
mod string_octets;
mod tag;
mod ticks;
mod writer;

pub use fault::{MeetFault, TagFault};
pub use form::{TagForm, TagLimit};
pub use index::Index;
pub use leaf::RangeOrdering;
pub use merge::merged;
pub use moment::{is_date, is_time};
pub use request::Ground;
pub use tag::Tag;
pub use ticks::Ticks;
