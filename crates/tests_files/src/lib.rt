//! Tests of collectives and jobs, of the files that hold them, of totals and reports, and of the
//! program's commands over devices that fail.
#![tactic(auto)]

#[cfg(test)]
mod tests;
#[cfg(test)]
mod tools_tests;
