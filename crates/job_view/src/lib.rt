//! A picture of what a job leaves, as the text of an SVG file: what the options of `bsp draw` mean, a picture with a given
//! title, arrays in rows of a width, and arrays over supersteps. What a job leaves, as one JSON object (RFC 8259). Nothing
//! here is part of Java's API.
//!
//! # Where things are
//!
//! * `words.rt`: the texts of the options; `views.rt`: what is drawn of each array, and the whole.
//! * `rows.rt`: the cells of an array at some supersteps; `drawing.rt`: the picture of a job; `laws.rt`: the laws.
//! * `columns.rt`: supersteps as columns; `axes.rt`: the numbers at the axes; `cells.rt`: arrays as strips of
//!   cells; `grids.rt`: cells in rows; `panels.rt`: what is drawn of each array; `pieces.rt`: texts and numbers;
//!   `picture.rt`: the whole picture; `picture_laws.rt`: its laws. `proofs/Behind.antt`: texts one after another.
//! * `json_report.rt`: the JSON object; `json_lists.rt`, `json_arrays.rt`: its lists and arrays (`specs/ReportJson.antt`);
//!   `proofs/ReadBack.antt`: that it is read back.
//! * `specs/` has a file for each; `Look.antt` for `views.rt`; `Worked.antt`, `WorkedPictures.antt`: worked out.
#![tactic(auto)]

mod axes;
mod cells;
mod columns;
mod drawing;
mod grids;
mod json_arrays;
mod json_lists;
mod json_report;
pub mod laws;
mod panels;
mod picture;
pub mod picture_laws;
mod pieces;
mod rows;
mod views;
mod words;

pub use drawing::draw_job;
pub use json_report::json_text_of;
pub use laws::looks_are_worked_out;
pub use panels::{Form, Panel};
pub use picture::{picture_of, picture_with};
pub use rows::rows_of;
pub use views::{Look, cells_named, every_of, look_picture, row_count};
pub use words::{says_widths, spaced_text};
