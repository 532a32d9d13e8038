//! A placed sketch as DXF: the entities of its points, circles and lines.
#![tactic(auto)]

mod course;
mod drawing;
mod entities;
mod law;
mod neighbours;
mod pairs;
mod rounding;
mod segment;

pub use drawing::dxf_text;
pub use law::segments_span_the_neighbours;
