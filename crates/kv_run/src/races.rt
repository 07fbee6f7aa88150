//! A script that many workers race over: what its lines ask for, who does what, and the text of what a race answers.

pub mod dealing;
pub mod notes;
pub mod over_scripts;
pub mod plan;
pub mod reading;
pub mod reporting;
pub mod writing;
