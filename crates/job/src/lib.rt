// A job's bytes read: the refusals 1, 11, 3, 4, 5, 12, 6 and 7 in this order, and the bounds and rows of a job that meets none.
#![tactic(auto)]

pub mod header_check;
pub mod parsed_job;
pub mod table_check;

pub use header_check::check_header;
pub use parsed_job::{ParsedJob, read};
pub use table_check::check_table;
