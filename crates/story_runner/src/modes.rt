//! The ways in which links and streams break under a story, and how often they did.
use crate::keyed::Keyed;

/// What breaks under the steps of a story, and whether the story runs in few ways.
#[derive(Clone, Copy)]
pub struct Modes {
    /// Each request is cut after each of its bytes but the last.
    pub cut: bool,
    /// Each read fails in turn.
    pub reads: bool,
    /// Each write of a byte fails in turn, or takes nothing.
    pub writes: bool,
    /// The same by readers that give few bytes at a time, and the request that was taken is sent again.
    pub again: bool,
    /// The store refuses each change.
    pub refused: bool,
    /// The power is cut at each call of the files, whose tables have their pages by this key; none if it is not cut.
    pub stops: Option<Keyed>,
    /// The story runs in few ways.
    pub large: bool,
    /// The story is only replayed. A replay may give up if an allocation fails, and is continued at the step where it stopped.
    pub resumes: bool,
    /// The organizations of the stories before it are copied to another file, and its own steps are taken over both.
    pub copied: bool,
}

/// What a word alone on a line says of a story that begins.
#[derive(Clone, Copy)]
pub enum Mode {
    /// `stops`, or `stops first-byte`: the power is cut under the steps of a story, over tables whose pages have this key.
    Stops(Keyed),
    /// `large`: a story runs in few ways.
    Large,
    /// `resumes`: a replay may give up, and is continued.
    Resumes,
    /// `copied`: a story's own steps are taken over a copy, too.
    Copied,
}

impl Mode {
    /// Where it may be.
    pub fn rule(self) -> &'static str {
        match self {
            Mode::Stops(_) => "`stops` stands before the first step of a story",
            Mode::Large => {
                "`large` stands before the first step of a story that begins with no file"
            }
            Mode::Resumes => "`resumes` stands before the first step of a story",
            Mode::Copied => {
                "`copied` stands before the first step of a story that comes after another"
            }
        }
    }
}

/// Nothing breaks.
pub const NONE: Modes = Modes {
    cut: false,
    reads: false,
    writes: false,
    again: false,
    refused: false,
    stops: None,
    large: false,
    resumes: false,
    copied: false,
};

// With one word more.
fn with_word(modes: Modes, word: &str) -> Option<Modes> {
    let mut more = modes;
    match word {
        "cut" => more.cut = true,
        "reads" => more.reads = true,
        "writes" => more.writes = true,
        "again" => more.again = true,
        "refused" => more.refused = true,
        "nothing" => {}
        _ => return None,
    }
    Some(more)
}

impl Modes {
    /// What these words say, parted by single blanks.
    pub fn read(words: &str) -> Option<Modes> {
        let mut modes = NONE;
        for word in words.split(' ') {
            let more = with_word(modes, word)?;
            modes = more;
        }
        Some(modes)
    }

    /// Links break as others say, and what is set stays.
    pub fn with_links(self, links: Modes) -> Modes {
        Modes {
            stops: self.stops,
            large: self.large,
            resumes: self.resumes,
            copied: self.copied,
            ..links
        }
    }

    /// Sets what is said.
    pub fn set(&mut self, mode: Mode) {
        match mode {
            Mode::Stops(keyed) => self.stops = Some(keyed),
            Mode::Large => self.large = true,
            Mode::Resumes => self.resumes = true,
            Mode::Copied => self.copied = true,
        }
    }
}

/// How often links and streams broke and the power was cut, and how often files were opened again after that.
#[derive(Clone, Copy)]
pub struct Counts {
    pub cut: usize,
    pub reads: usize,
    pub writes: usize,
    pub refused: usize,
    pub stops: usize,
    pub reopenings: usize,
}

impl Counts {
    pub fn new() -> Counts {
        Counts {
            cut: 0,
            reads: 0,
            writes: 0,
            refused: 0,
            stops: 0,
            reopenings: 0,
        }
    }
}
