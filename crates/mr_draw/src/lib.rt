//! A picture of a world's history, as a self-contained SVG.
//!
//! [`draw`] knows no script: it looks at the events of a world and their answers, and at the filters and heads of its
//! replicas. [`happenings`] says which events a picture shows and as what. Each of the first 400 has a mark in a row of its own, time
//! goes downwards, and each replica has a lane. Texts that were given are escaped, and what a colour says, a shape says too.
#![tactic(auto)]

mod contested;
mod ends;
mod escape;
mod happening;
mod lines;
mod mark;
mod marks;
mod notes;
mod picture;
mod sheet;
mod title;

pub use happening::{Happening, Kind, happenings};
pub use marks::MAX_ROWS;
pub use picture::draw;
pub use sheet::draw_nothing;
use std::alloc::AllocError;

/// What is made, or that there is no memory for it.
type Grown<T> = Result<T, AllocError>;
