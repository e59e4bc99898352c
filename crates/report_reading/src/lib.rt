//! Reports read back: which history a report is of, or the first line at which it is none.
#![tactic(auto)]

mod read_lines;
mod read_reports;
mod report_fault;

pub use read_reports::read_report;
pub use report_fault::ReportFault;
