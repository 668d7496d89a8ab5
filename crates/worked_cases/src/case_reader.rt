//! The cases of a file of short cases.

use crate::case_fault::CaseFault;
use crate::case_line::{CaseLine, read_case_line};
use crate::spelling::{spell_line, spell_times};
use crate::worked_case::{Answer, Case, words_in};
use std::alloc::{AllocError, Global};
use std::mem;

// Where a line of a text stands.
#[derive(Clone, Copy, Debug, PartialEq, Eq)]
enum Place {
    // No text is begun.
    Nowhere,
    // In the text with this number, which is the same in each case of the group, or the front of what it spells.
    Front(usize),
    // Behind the front with this number.
    Each(usize),
}

/// Reads a file of short cases line by line.
#[derive(Drop)]
pub struct CaseReader<'a> {
    alloc: Global,
    file: &'a str,
    // The words of the group, once a group is begun.
    words: Option<Vec<String>>,
    fronts: Vec<(String, Vec<u8>)>,
    place: Place,
    // The text that the case spells, from its front on, and whether the case has a line of it.
    text: Vec<u8>,
    has_part: bool,
    wanted: Vec<u8>,
    // The number of the first line of the output that is wanted.
    first_wanted: Option<usize>,
}

// The exit status with which the program prints this.
fn status_of(output: &[u8]) -> u8 {
    if output.starts_with(b"refused ") {
        4
    } else if output == b"words not understood\n".as_slice() {
        1
    } else {
        0
    }
}

// Puts a copy of a text behind others, under its name.
fn push_text(
    alloc: Global,
    texts: &mut Vec<(String, Vec<u8>)>,
    name: &str,
    text: &[u8],
) -> Result<(), AllocError> {
    let name = String::from_str(alloc, name)?;
    let text = text.to_vec(alloc)?;
    texts.push((name, text))?;
    Ok(())
}

impl<'a> CaseReader<'a> {
    /// The reader of a file of this name, before its first line.
    pub fn new(alloc: Global, file: &'a str) -> CaseReader<'a> {
        CaseReader {
            alloc,
            file,
            words: None,
            fronts: Vec::new(alloc),
            place: Place::Nowhere,
            text: Vec::new(alloc),
            has_part: false,
            wanted: Vec::new(alloc),
            first_wanted: None,
        }
    }

    // The number of the front of that name, which is empty where there was none.
    fn front_of(&mut self, name: &str) -> Result<usize, AllocError> {
        for (place, front) in self.fronts.iter().enumerate() {
            if front.0.as_str() == name {
                return Ok(place);
            }
        }
        let name = String::from_str(self.alloc, name)?;
        self.fronts.push((name, Vec::new(self.alloc)))?;
        Ok(self.fronts.len() - 1)
    }

    // The front of the text that each case spells, if there is one.
    fn front(&self) -> &[u8] {
        match self.place {
            Place::Each(place) => match self.fronts.get(place) {
                Some(front) => front.1.as_slice(),
                None => &[],
            },
            _ => &[],
        }
    }

    // The text of a case begins with its front.
    fn begin_case(&mut self) -> Result<Vec<u8>, AllocError> {
        let front = self.front().to_vec(self.alloc)?;
        self.has_part = false;
        Ok(mem::replace(&mut self.text, front))
    }

    // The fronts, with the text that a case spells in the place of its front.
    fn texts_of(&self, spelled: &[u8]) -> Result<Vec<(String, Vec<u8>)>, AllocError> {
        let mut texts = Vec::new(self.alloc);
        for (number, front) in self.fronts.iter().enumerate() {
            let text = if self.place == Place::Each(number) {
                spelled
            } else {
                front.1.as_slice()
            };
            push_text(self.alloc, &mut texts, front.0.as_str(), text)?;
        }
        Ok(texts)
    }

    // The texts of the case that ends, and the next case begins.
    fn take_texts(&mut self) -> Result<Vec<(String, Vec<u8>)>, AllocError> {
        let spelled = self.begin_case()?;
        self.texts_of(&spelled)
    }

    // The words of the group.
    fn group_words(&self) -> Result<Vec<String>, AllocError> {
        match &self.words {
            Some(words) => words.clone(),
            None => Ok(Vec::new(self.alloc)),
        }
    }

    // The answer that is wanted of the case that ends.
    fn take_wanted(&mut self) -> Answer {
        let output = mem::replace(&mut self.wanted, Vec::new(self.alloc));
        Answer {
            status: status_of(&output),
            output,
            told: Vec::new(self.alloc),
        }
    }

    // How the report names the case whose wanted output begins in this line.
    fn case_name(&self, line: usize) -> Result<String, AllocError> {
        let file = self.file;
        format!(in self.alloc; "texts/{file} line {line}")
    }

    // The case whose wanted output begins in this line.
    fn take_case(&mut self, line: usize) -> Result<Case, AllocError> {
        let name = self.case_name(line)?;
        let words = self.group_words()?;
        let texts = self.take_texts()?;
        Ok(Case {
            name,
            words,
            texts,
            wanted: self.take_wanted(),
        })
    }

    // Ends the case whose output is being read, if there is one.
    fn end_case(&mut self) -> Result<Option<Case>, AllocError> {
        match self.first_wanted.take() {
            Some(line) => Ok(Some(self.take_case(line)?)),
            None => Ok(None),
        }
    }

    /// Ends the last case, if its end isn't read.
    pub fn end(&mut self) -> Result<Option<Case>, CaseFault> {
        if self.has_part && self.first_wanted.is_none() {
            return Err(CaseFault::NoOutput);
        }
        Ok(self.end_case()?)
    }

    fn begin_group(&mut self, words: Option<&str>) -> Result<(), AllocError> {
        self.words = Some(words_in(self.alloc, words, ' ')?);
        self.fronts.clear();
        self.place = Place::Nowhere;
        Ok(())
    }

    fn begin_text(&mut self, name: &str) -> Result<(), AllocError> {
        let number = self.front_of(name)?;
        if let Some(front) = self.fronts.get_mut(number) {
            front.1.clear();
        }
        self.place = Place::Front(number);
        Ok(())
    }

    fn begin_each(&mut self, name: &str) -> Result<(), AllocError> {
        self.place = Place::Each(self.front_of(name)?);
        self.begin_case()?;
        Ok(())
    }

    // The text in which the next line stands.
    fn text_begun(&mut self) -> Result<&mut Vec<u8>, CaseFault> {
        match self.place {
            Place::Nowhere => Err(CaseFault::NoText),
            Place::Front(number) => match self.fronts.get_mut(number) {
                Some(front) => Ok(&mut front.1),
                None => Err(CaseFault::NoText),
            },
            Place::Each(_) => {
                self.has_part = true;
                Ok(&mut self.text)
            }
        }
    }

    fn want(&mut self, number: usize, line: &str) -> Result<(), CaseFault> {
        if self.words.is_none() {
            return Err(CaseFault::NoWords);
        }
        if let Place::Front(_) = self.place {
            self.place = Place::Nowhere;
        }
        if self.first_wanted.is_none() {
            self.first_wanted = Some(number);
        }
        self.wanted.extend_from_slice(line.as_bytes())?;
        self.wanted.push(b'\n')?;
        Ok(())
    }

    // The case that ends before this line, if one does.
    fn end_before(&mut self, line: CaseLine<'_>) -> Result<Option<Case>, CaseFault> {
        match line {
            CaseLine::Comment | CaseLine::Wanted(_) => Ok(None),
            CaseLine::Empty | CaseLine::Spelled(_) | CaseLine::Repeated { .. } => Ok(
                self.end_case()?,
            ),
            CaseLine::Words(_) | CaseLine::Text(_) | CaseLine::Each(_) => self.end(),
        }
    }

    // Does what the line of this number says of the cases to come.
    fn read(&mut self, number: usize, line: CaseLine<'_>) -> Result<(), CaseFault> {
        let alloc = self.alloc;
        match line {
            CaseLine::Empty | CaseLine::Comment => {}
            CaseLine::Words(words) => self.begin_group(words)?,
            CaseLine::Text(name) => self.begin_text(name)?,
            CaseLine::Each(name) => self.begin_each(name)?,
            CaseLine::Spelled(line) => spell_line(self.text_begun()?, line)?,
            CaseLine::Repeated { times, line } => spell_times(
                alloc,
                self.text_begun()?,
                line,
                times,
            )?,
            CaseLine::Wanted(line) => self.want(number, line)?,
        }
        Ok(())
    }

    /// Takes the line of this number, without its end. A case that ends before it is told.
    pub fn take(&mut self, number: usize, line: &str) -> Result<Option<Case>, CaseFault> {
        let line = read_case_line(line)?;
        let case = self.end_before(line)?;
        match self.read(number, line) {
            Ok(()) => Ok(case),
            Err(fault) => {
                drop(case);
                Err(fault)
            }
        }
    }
}
