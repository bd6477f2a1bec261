//! Texts of request files and what is read from them, lines of reports, and loads that are made. Nothing stands on this crate.
#![tactic(auto)]

#[cfg(test)]
mod made_loads;
#[cfg(test)]
mod report_lines;
#[cfg(test)]
mod request_files;
