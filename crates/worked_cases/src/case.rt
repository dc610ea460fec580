//! Worked cases, and their files.
use anyhow::{Result, bail};
use std::alloc::{AllocError, Global};
use std::mem;

/// What the program is to read in a case, before what stands in the case itself.
#[derive(Clone, Copy, Debug, PartialEq, Eq)]
pub enum Given {
    /// Nothing.
    Nothing,
    /// What it read in the last case that is given nothing, and all that it wrote in it.
    Output,
    /// What it read in that case, and the lines of the journal that it wrote.
    Journal,
}

/// A run of the program, and what has to come of it.
#[derive(Drop)]
pub struct Case {
    /// What the case shows.
    pub about: String,
    /// The words of the command line, with a space between each two.
    pub words: String,
    pub given: Given,
    pub input: Vec<u8>,
    pub status: u8,
    /// Whether status messages are left out of what was written before it is compared.
    pub is_journal: bool,
    /// What has to be written.
    pub text: Vec<u8>,
}

impl Case {
    /// A case without words, input and text.
    pub fn new(alloc: Global) -> Case {
        Case {
            about: String::new(alloc),
            words: String::new(alloc),
            given: Given::Nothing,
            input: Vec::new(alloc),
            status: 0,
            is_journal: false,
            text: Vec::new(alloc),
        }
    }
}

/// The part of a case in which a line stands.
#[derive(Clone, Copy, Debug, PartialEq, Eq)]
enum Part {
    Head,
    Input,
    Text,
}

/// The cases read so far, and the one that is being read.
#[derive(Drop)]
struct Reading {
    alloc: Global,
    part: Part,
    case: Case,
    cases: Vec<Case>,
}

impl Reading {
    fn new(alloc: Global) -> Reading {
        Reading {
            alloc,
            part: Part::Head,
            case: Case::new(alloc),
            cases: Vec::new(alloc),
        }
    }

    fn begin(&mut self, given: Given, words: &str) -> Result<()> {
        self.case.given = given;
        self.case.words.push_str(words.trim())?;
        self.part = Part::Input;
        Ok(())
    }

    fn take_head(&mut self, line: &str) -> Result<()> {
        if let Some(about) = line.strip_prefix("#") {
            self.case.about.push_str(about)?;
        } else if let Some(words) = line.strip_prefix(">>") {
            self.begin(Given::Output, words)?;
        } else if let Some(words) = line.strip_prefix(">J") {
            self.begin(Given::Journal, words)?;
        } else if let Some(words) = line.strip_prefix(">") {
            self.begin(Given::Nothing, words)?;
        } else if line.is_empty() {
            self.case.about.clear();
        } else {
            bail!("no line before a case: {line}");
        }
        Ok(())
    }

    fn take_input(&mut self, line: &str) -> Result<()> {
        if let Some(ends) = line.strip_prefix("<< ") {
            self.case.input.pop();
            self.take_status(ends)
        } else if let Some(ends) = line.strip_prefix("< ") {
            self.take_status(ends)
        } else {
            put_line(&mut self.case.input, line)
        }
    }

    fn take_status(&mut self, ends: &str) -> Result<()> {
        let status = match ends.strip_suffix(" journal") {
            Some(status) => {
                self.case.is_journal = true;
                status
            }
            None => ends,
        };
        self.case.status = status.parse::<u8>()?;
        self.part = Part::Text;
        Ok(())
    }

    fn take_text(&mut self, line: &str) -> Result<()> {
        if line.is_empty() {
            self.finish()
        } else {
            put_line(&mut self.case.text, line)
        }
    }

    fn finish(&mut self) -> Result<()> {
        let case = mem::replace(&mut self.case, Case::new(self.alloc));
        self.cases.push(case).map_err(AllocError::from)?;
        self.part = Part::Head;
        Ok(())
    }

    fn take(&mut self, line: &str) -> Result<()> {
        match self.part {
            Part::Head => self.take_head(line),
            Part::Input => self.take_input(line),
            Part::Text => self.take_text(line),
        }
    }
}

fn put_line(bytes: &mut Vec<u8>, line: &str) -> Result<()> {
    bytes.extend_from_slice(line.as_bytes())?;
    bytes.push(b'\n')?;
    Ok(())
}

/// The cases of a file, whose form the crate's page has.
pub fn cases_of(alloc: Global, file: &str) -> Result<Vec<Case>> {
    let mut reading = Reading::new(alloc);
    for line in file.split('\n') {
        reading.take(line)?;
    }
    match reading.part {
        Part::Head => Ok(reading.cases),
        _ => bail!("the last case has no end"),
    }
}
