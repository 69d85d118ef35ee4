//! A drawing of lanes over columns of time, as text and as SVG.
//!
//! It promises that `write_text` and `write_svg` give exactly the texts that are defined of what the chart shows, and
//! that no byte that SVG would read as markup comes from a name or a title. It knows nothing of what the lanes stand
//! for, and stands on `tuple_edge` for want of memory alone.
#![tactic(auto)]

mod badges;
mod bars;
mod chart;
mod escape;
mod glyphs;
mod groups;
mod heaviest;
mod keys;
mod lanes;
mod law;
mod layout;
mod lines;
mod meanings;
mod pieces;
mod places;
mod runs;
mod style;
mod svg;
mod text;

pub use chart::{Cell, CellKey, Chart, Lane, LetterKey, Mark, Tick, Weight};
pub use glyphs::glyph;
pub use law::{escaped_is_plain, worked_charts};
pub use svg::write_svg;
pub use text::write_text;
