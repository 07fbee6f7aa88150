//! Tests of lines and of the texts of answers by worked rows.

mod answers;
mod entries;
mod lines;
mod refused;
