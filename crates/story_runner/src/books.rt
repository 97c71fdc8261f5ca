//! The text of the stories: of each its name and the parts of its steps.
use crate::definitions::{Definitions, Unread};
use crate::lines::{Line, Mark, Piece, Says, read_line};
use crate::modes::{Mode, Modes, NONE};
use crate::pieces::{write_behind, write_row};
use std::alloc::Global;

/// A line that begins a step or what is due, with the fields and pieces that follow.
#[derive(Drop)]
pub struct Part<'a> {
    pub line: usize,
    pub mark: Mark,
    /// What follows the mark.
    pub text: &'a str,
    /// The fields, each with CR LF.
    pub fields: Vec<u8>,
    /// Whether it has a piece.
    pub has_pieces: bool,
    // What the pieces write.
    bytes: Vec<u8>,
    // Whether the last piece is one of `|`.
    is_row: bool,
}

impl<'a> Part<'a> {
    fn new(alloc: Global, line: usize, mark: Mark, text: &'a str) -> Part<'a> {
        Part {
            line,
            mark,
            text,
            fields: Vec::new(alloc),
            has_pieces: false,
            bytes: Vec::new(alloc),
            is_row: false,
        }
    }

    /// What the pieces write.
    pub fn written(&self) -> &[u8] {
        self.bytes.as_slice()
    }

    /// An error: this line cannot be read.
    pub fn unread(&self, why: &'static str) -> Unread {
        Unread {
            line: self.line,
            why,
        }
    }

    fn add_field(&mut self, field: &str) -> Result<(), Unread> {
        write_row(&mut self.fields, field)
    }

    fn add_piece(
        &mut self,
        alloc: Global,
        line: usize,
        piece: Piece,
        text: &str,
    ) -> Result<(), Unread> {
        let is_row = piece == Piece::Row;
        let is_behind_row = is_row && self.is_row;
        self.has_pieces = true;
        self.is_row = is_row;
        write_behind(alloc, &mut self.bytes, is_behind_row, line, piece, text)
    }
}

/// A step: its parts, the first of them its head, and its moment.
#[derive(Drop)]
pub struct Plot<'a> {
    /// In seconds since 1970.
    pub at: u64,
    /// The date of its reply.
    pub date: &'a str,
    pub parts: Vec<Part<'a>>,
}

/// An operator's secret, and its line.
#[derive(Clone, Copy)]
pub struct Operator<'a> {
    pub line: usize,
    pub secret: &'a str,
}

/// A story as the text has it.
#[derive(Drop)]
pub struct Story<'a> {
    pub name: &'a str,
    /// The earlier stories whose steps come first, by their places.
    pub before: Vec<usize>,
    /// The file with whose tables it begins; none if it begins with no organization.
    pub begins: Option<&'a str>,
    /// The operator's secret, if the operator's door is open.
    pub operator: Option<Operator<'a>>,
    /// What breaks under its own steps.
    pub modes: Modes,
    pub plots: Vec<Plot<'a>>,
}

/// The text: what it defines, and its stories.
#[derive(Drop)]
pub struct Book<'a> {
    pub definitions: Definitions<'a>,
    /// What breaks under the steps of a story that does not say it.
    pub modes: Modes,
    pub stories: Vec<Story<'a>>,
}

// The place of the story of this name.
fn index_of(stories: &[Story<'_>], name: &str) -> Option<usize> {
    for (index, story) in stories.iter().enumerate() {
        if story.name == name {
            return Some(index);
        }
    }
    None
}

// The stories that come before one at this place, and that one.
fn chain_behind(alloc: Global, story: &Story<'_>, index: usize) -> Result<Vec<usize>, Unread> {
    let mut chain = Vec::from_slice(alloc, story.before.as_slice())?;
    chain.push(index)?;
    Ok(chain)
}

impl<'a> Plot<'a> {
    fn push(&mut self, part: Part<'a>) -> Result<(), Unread> {
        self.parts.push(part)?;
        Ok(())
    }
}

impl<'a> Story<'a> {
    // Whether neither a step of it has come nor the file that it begins with.
    fn is_bare(&self) -> bool {
        self.plots.is_empty() && self.begins.is_none()
    }

    // Whether it may still begin with a file.
    fn is_first(&self) -> bool {
        self.plots.is_empty() && self.before.is_empty()
    }

    // Whether this may still be said of it.
    fn may_set(&self, mode: Mode) -> bool {
        match mode {
            Mode::Stops(_) | Mode::Resumes => self.plots.is_empty(),
            Mode::Large => self.is_bare(),
            Mode::Copied => self.plots.is_empty() && !self.before.is_empty(),
        }
    }

    fn set_links(&mut self, line: usize, links: Modes) -> Result<(), Unread> {
        if !self.is_bare() {
            return Err(Unread {
                line,
                why: "`links` stands before the first step of a story that begins with no file",
            });
        }
        self.modes = self.modes.with_links(links);
        Ok(())
    }

    fn set_before(&mut self, line: usize, chain: Vec<usize>) -> Result<(), Unread> {
        if !self.is_bare() {
            return Err(Unread {
                line,
                why: "`after` is the first line of a story",
            });
        }
        self.before = chain;
        Ok(())
    }

    fn set_mode(&mut self, line: usize, mode: Mode) -> Result<(), Unread> {
        if !self.may_set(mode) {
            return Err(Unread {
                line,
                why: mode.rule(),
            });
        }
        self.modes.set(mode);
        Ok(())
    }

    fn set_begins(&mut self, line: usize, path: &'a str) -> Result<(), Unread> {
        if !self.is_first() {
            return Err(Unread {
                line,
                why: "`begins` is the first line of a story, which comes after no other",
            });
        }
        self.begins = Some(path);
        self.modes = NONE;
        Ok(())
    }

    fn set_operator(&mut self, line: usize, secret: &'a str) -> Result<(), Unread> {
        if !self.plots.is_empty() {
            return Err(Unread {
                line,
                why: "`operator` stands before the first step of a story",
            });
        }
        self.operator = Some(Operator { line, secret });
        Ok(())
    }

    fn set(&mut self, line: usize, says: Says<'a>) -> Result<(), Unread> {
        match says {
            Says::Breaks(mode) => self.set_mode(line, mode),
            Says::FromFile(path) => self.set_begins(line, path),
            Says::Operator(secret) => self.set_operator(line, secret),
        }
    }

    fn push(&mut self, plot: Plot<'a>) -> Result<(), Unread> {
        self.plots.push(plot)?;
        Ok(())
    }
}

impl<'a> Book<'a> {
    fn begin_story(&mut self, alloc: Global, line: usize, name: &'a str) -> Result<(), Unread> {
        if index_of(self.stories.as_slice(), name).is_some() {
            return Err(Unread {
                line,
                why: "an earlier story has this name",
            });
        }
        self.stories.push(Story {
            name,
            before: Vec::new(alloc),
            begins: None,
            operator: None,
            modes: self.modes,
            plots: Vec::new(alloc),
        })?;
        Ok(())
    }

    // The earlier story of this name, and those before it.
    fn chain_to(&self, alloc: Global, line: usize, name: &str) -> Result<Vec<usize>, Unread> {
        let unread = Unread {
            line,
            why: "no earlier story has this name",
        };
        let Some(index) = index_of(self.stories.as_slice(), name) else {
            return Err(unread);
        };
        let Some(story) = self.stories.get(index) else {
            return Err(unread);
        };
        if story.begins.is_some() {
            return Err(Unread {
                line,
                why: "a story that begins with a file comes before no other",
            });
        }
        chain_behind(alloc, story, index)
    }

    fn set_before(&mut self, alloc: Global, line: usize, name: &str) -> Result<(), Unread> {
        match self.chain_to(alloc, line, name) {
            Ok(chain) => self.set_chain(line, chain),
            Err(unread) => Err(unread),
        }
    }

    // Of the story that begins.
    fn set_chain(&mut self, line: usize, chain: Vec<usize>) -> Result<(), Unread> {
        match self.stories.last_mut() {
            Some(story) => story.set_before(line, chain),
            None => Err(Unread {
                line,
                why: "`after` stands in a story",
            }),
        }
    }

    // Of the story that begins; above the first story, of all that follow.
    fn set_modes(&mut self, line: usize, words: &str) -> Result<(), Unread> {
        let Some(modes) = Modes::read(words) else {
            return Err(Unread {
                line,
                why: "behind `links` stand the words cut, reads, writes, refused, or nothing",
            });
        };
        match self.stories.last_mut() {
            Some(story) => story.set_links(line, modes),
            None => {
                self.modes = modes;
                Ok(())
            }
        }
    }

    // Of the story that begins.
    fn set(&mut self, line: usize, says: Says<'a>) -> Result<(), Unread> {
        match self.stories.last_mut() {
            Some(story) => story.set(line, says),
            None => Err(Unread {
                line,
                why: "it stands in no story",
            }),
        }
    }

    fn begin_plot(&mut self, alloc: Global, line: usize) -> Result<(), Unread> {
        let (at, date) = (self.definitions.at, self.definitions.date);
        match self.stories.last_mut() {
            Some(story) => story.push(Plot {
                at,
                date,
                parts: Vec::new(alloc),
            }),
            None => Err(Unread {
                line,
                why: "a step stands in a story",
            }),
        }
    }

    fn last_plot(&mut self) -> Option<&mut Plot<'a>> {
        match self.stories.last_mut() {
            Some(story) => story.plots.last_mut(),
            None => None,
        }
    }

    fn begin_part(
        &mut self,
        alloc: Global,
        line: usize,
        mark: Mark,
        text: &'a str,
    ) -> Result<(), Unread> {
        match self.last_plot() {
            Some(plot) => plot.push(Part::new(alloc, line, mark, text)),
            None => Err(Unread {
                line,
                why: "it stands in no step",
            }),
        }
    }

    fn last_part(&mut self) -> Option<&mut Part<'a>> {
        match self.last_plot() {
            Some(plot) => plot.parts.last_mut(),
            None => None,
        }
    }

    fn add_field(&mut self, line: usize, field: &str) -> Result<(), Unread> {
        match self.last_part() {
            Some(part) => part.add_field(field),
            None => Err(Unread {
                line,
                why: "a field stands in no step",
            }),
        }
    }

    fn add_piece(
        &mut self,
        alloc: Global,
        line: usize,
        piece: Piece,
        text: &str,
    ) -> Result<(), Unread> {
        match self.last_part() {
            Some(part) => part.add_piece(alloc, line, piece, text),
            None => Err(Unread {
                line,
                why: "a piece stands in no step",
            }),
        }
    }

    fn begin(
        &mut self,
        alloc: Global,
        line: usize,
        mark: Mark,
        text: &'a str,
    ) -> Result<(), Unread> {
        if mark == Mark::Head {
            self.begin_plot(alloc, line)?;
        }
        self.begin_part(alloc, line, mark, text)
    }

    fn take(&mut self, alloc: Global, line: usize, text: &'a str) -> Result<(), Unread> {
        match read_line(text) {
            Line::Nothing => Ok(()),
            Line::Definition(defines, text) => self.definitions.define(line, defines, text),
            Line::Story(name) => self.begin_story(alloc, line, name),
            Line::After(name) => self.set_before(alloc, line, name),
            Line::Links(words) => self.set_modes(line, words),
            Line::Says(says) => self.set(line, says),
            Line::Field(field) => self.add_field(line, field),
            Line::Piece(piece, text) => self.add_piece(alloc, line, piece, text),
            Line::Begins(mark, text) => self.begin(alloc, line, mark, text),
        }
    }

    fn take_all(&mut self, alloc: Global, text: &'a str) -> Result<(), Unread> {
        let mut line = 0usize;
        for text in text.split('\n') {
            line = line.saturating_add(1);
            self.take(alloc, line, text)?;
        }
        Ok(())
    }
}

/// Reads the text.
pub fn read_book(alloc: Global, text: &str) -> Result<Book<'_>, Unread> {
    let mut book = Book {
        definitions: Definitions::new(alloc),
        modes: NONE,
        stories: Vec::new(alloc),
    };
    book.take_all(alloc, text)?;
    Ok(book)
}
