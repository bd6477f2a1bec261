//! Cases are read.
use crate::texts::{push_line, spread};
use anyhow::{Error, bail, ensure};
use std::alloc::Global;

// Where the next line stands.
#[derive(Clone, Copy, PartialEq, Eq)]
enum Place {
    Head,
    File,
    Report,
    Behind,
}

/// What the lines of a case say, as far as they were read.
#[derive(Drop)]
pub(crate) struct Case<'a> {
    pub(crate) title: &'a str,
    // the words of each run
    pub(crate) runs: Vec<&'a str>,
    pub(crate) status: Option<u8>,
    // the words that write the file, or the file itself
    pub(crate) maker: Option<&'a str>,
    pub(crate) file: String,
    pub(crate) report: String,
    place: Place,
}

impl<'a> Case<'a> {
    /// A case of which nothing was read.
    pub(crate) fn new(alloc: Global) -> Self {
        Case {
            title: "",
            runs: Vec::new(alloc),
            status: None,
            maker: None,
            file: String::new(alloc),
            report: String::new(alloc),
            place: Place::Head,
        }
    }

    /// Its last line was read.
    pub(crate) fn is_whole(&self) -> bool {
        self.place == Place::Behind
    }

    // What has to stand ahead of the file was read.
    fn has_head(&self) -> bool {
        !self.title.is_empty() && !self.runs.is_empty() && self.status.is_some()
    }

    // Reads a line ahead of the file.
    fn read_head(&mut self, line: &'a str) -> Result<(), Error> {
        if line.is_empty() || line.starts_with('#') {
            return Ok(());
        }
        if let Some(title) = line.strip_prefix("case ") {
            ensure!(self.title.is_empty(), "a case in a case");
            self.title = title;
        } else if let Some(words) = line.strip_prefix("$ ") {
            self.runs.push(words)?;
        } else if let Some(status) = line.strip_prefix("status ") {
            self.status = Some(status.parse()?);
        } else if let Some(words) = line.strip_prefix("file by ") {
            self.maker = Some(words);
            self.place = Place::File;
        } else if line == "file" {
            self.place = Place::File;
        } else {
            bail!("not a line of a case");
        }
        Ok(())
    }

    /// Reads the next line.
    pub(crate) fn read(&mut self, alloc: Global, line: &'a str) -> Result<(), Error> {
        match (self.place, line) {
            (Place::File, "report") => {
                self.file = spread(alloc, self.file.as_str())?;
                self.place = Place::Report;
            }
            (Place::Report, "end") => {
                ensure!(self.has_head(), "no title, no run or no status");
                self.report = spread(alloc, self.report.as_str())?;
                self.place = Place::Behind;
            }
            (Place::File, _) => push_line(&mut self.file, line)?,
            (Place::Report, _) => push_line(&mut self.report, line)?,
            _ => self.read_head(line)?,
        }
        Ok(())
    }
}
