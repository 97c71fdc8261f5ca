//! A story of a store as it is played: its steps, what is due to each, and what is asked of the tables.
use crate::books::{Book, Operator, Part, Plot, Story};
use crate::definitions::{Definitions, Unread};
use crate::keyed::Keyed;
use crate::lines::Mark;
use crate::requests::{reply_of, request_of};
use basis::{Bytes, Down, Moment, Secret, Unfit};
use serve::{Door, Operator as DoorOperator, Operators, Step};
use std::alloc::Global;

/// What is due to a step, and the line of that step.
#[derive(Drop)]
pub struct Due {
    pub line: usize,
    pub bytes: Vec<u8>,
}

/// What is asked of the tables before the step of this place, and its answer.
#[derive(Drop)]
pub struct Question {
    pub index: usize,
    /// By which key the tables that are asked have their pages.
    pub keyed: Keyed,
    pub line: usize,
    pub sql: String,
    pub answer: Vec<u8>,
}

/// A story of a store.
#[derive(Drop)]
pub struct Play {
    pub steps: Vec<Step>,
    /// The position of the story's own first step, after those of the stories before it.
    pub own: usize,
    pub due: Vec<Due>,
    pub questions: Vec<Question>,
    /// The key of its tables' pages when the power is cut.
    pub keyed: Keyed,
    /// The operator's door.
    pub door: Door,
}

/// How an operator's command is read from its words.
pub trait ReadsCommands {
    /// The step of a command with these words.
    fn read(&self, alloc: Global, at: Moment, words: &str) -> Result<Step, Unfit>;
}

// The lines of an operator's answer.
fn lines_due(alloc: Global, parts: &[Part<'_>]) -> Result<Vec<u8>, Unread> {
    let mut bytes = Vec::new(alloc);
    for part in parts {
        if part.mark != Mark::Answer {
            return Err(part.unread("an operator's answer is lines `= TEXT`"));
        }
        bytes.extend_from_slice(part.text.as_bytes())?;
        bytes.push(b'\n')?;
    }
    Ok(bytes)
}

// What is due to a request.
fn reply_due(
    alloc: Global,
    definitions: &Definitions<'_>,
    date: &str,
    head: &Part<'_>,
    parts: &[Part<'_>],
    is_head: bool,
) -> Result<Vec<u8>, Unread> {
    match parts {
        [answer] if answer.mark == Mark::Answer => {
            reply_of(alloc, definitions, date, answer, is_head)
        }
        _ => Err(head.unread("a request has one line `= ..`")),
    }
}

impl Play {
    fn new(alloc: Global) -> Play {
        Play {
            steps: Vec::new(alloc),
            own: 0,
            due: Vec::new(alloc),
            questions: Vec::new(alloc),
            keyed: Keyed::Sha,
            door: Door::Closed,
        }
    }

    /// The steps from one place to another, and what is due to them.
    pub fn between(&self, from: usize, to: usize) -> (&[Step], &[Due]) {
        match (self.steps.get(from..to), self.due.get(from..to)) {
            (Some(steps), Some(due)) => (steps, due),
            _ => (&[], &[]),
        }
    }

    fn push(&mut self, line: usize, step: Step, bytes: Vec<u8>) -> Result<(), Unread> {
        self.steps.push(step)?;
        self.due.push(Due { line, bytes })?;
        Ok(())
    }

    fn add_command<R: ReadsCommands>(
        &mut self,
        alloc: Global,
        commands: &R,
        at: Moment,
        head: &Part<'_>,
        words: &str,
        parts: &[Part<'_>],
    ) -> Result<(), Unread> {
        let due = lines_due(alloc, parts)?;
        match commands.read(alloc, at, words) {
            Ok(step) => self.push(head.line, step, due),
            Err(Unfit::Syntax) => Err(head.unread("these words are no operator's command")),
            Err(Unfit::Down) => Err(Unread::from(Down)),
        }
    }

    fn add_request(
        &mut self,
        alloc: Global,
        definitions: &Definitions<'_>,
        at: Moment,
        date: &str,
        head: &Part<'_>,
        parts: &[Part<'_>],
    ) -> Result<(), Unread> {
        let bytes = if head.text == "raw" {
            Vec::from_slice(alloc, head.written())?
        } else {
            request_of(alloc, definitions, head)?
        };
        let is_head = bytes.as_slice().starts_with(b"HEAD ");
        let due = reply_due(alloc, definitions, date, head, parts, is_head)?;
        self.push(
            head.line,
            Step::Request {
                at,
                bytes: Bytes::new(bytes),
            },
            due,
        )
    }

    fn add_question(
        &mut self,
        alloc: Global,
        head: &Part<'_>,
        words: &str,
        parts: &[Part<'_>],
    ) -> Result<(), Unread> {
        let (keyed, sql) = Keyed::read(words);
        let [answer] = parts else {
            return Err(head.unread("a question has one line `= TEXT`"));
        };
        let question = Question {
            index: self.steps.len(),
            keyed,
            line: head.line,
            sql: String::from_str(alloc, sql)?,
            answer: Vec::from_slice(alloc, answer.text.as_bytes())?,
        };
        self.questions.push(question)?;
        Ok(())
    }

    fn add<R: ReadsCommands>(
        &mut self,
        alloc: Global,
        commands: &R,
        definitions: &Definitions<'_>,
        plot: &Plot<'_>,
    ) -> Result<(), Unread> {
        let [head, parts @ ..] = plot.parts.as_slice() else {
            return Ok(());
        };
        let Some(at) = Moment::new(plot.at) else {
            return Err(head.unread("this is no moment"));
        };
        match head.text.split_once(' ') {
            Some(("admin", words)) => self.add_command(alloc, commands, at, head, words, parts),
            Some(("sql", words)) => self.add_question(alloc, head, words, parts),
            _ => self.add_request(alloc, definitions, at, plot.date, head, parts),
        }
    }

    fn add_all<R: ReadsCommands>(
        &mut self,
        alloc: Global,
        commands: &R,
        definitions: &Definitions<'_>,
        story: &Story<'_>,
    ) -> Result<(), Unread> {
        for plot in story.plots.as_slice() {
            self.add(alloc, commands, definitions, plot)?;
        }
        Ok(())
    }
}

// The door that is open to one operator, for all commands.
fn door_to(alloc: Global, secret: &Secret) -> Result<Door, Down> {
    let mut operators = Operators::new(alloc);
    operators.push(DoorOperator::alone(alloc, secret)?)?;
    Ok(Door::Open { operators })
}

// The door that is open to an operator's secret.
fn door_of(alloc: Global, operator: Operator<'_>) -> Result<Door, Unread> {
    match Secret::read(alloc, operator.secret) {
        Ok(secret) => Ok(door_to(alloc, &secret)?),
        Err(Unfit::Syntax) => Err(Unread {
            line: operator.line,
            why: "an operator's secret is 16 to 64 ASCII letters or digits",
        }),
        Err(Unfit::Down) => Err(Unread::from(Down)),
    }
}

/// The steps of a story, after those of the stories before it.
pub fn play_of<R: ReadsCommands>(
    alloc: Global,
    commands: &R,
    book: &Book<'_>,
    story: &Story<'_>,
) -> Result<Play, Unread> {
    let mut play = Play::new(alloc);
    if let Some(keyed) = story.modes.stops {
        play.keyed = keyed;
    }
    if let Some(operator) = story.operator {
        play.door = door_of(alloc, operator)?;
    }
    for index in story.before.as_slice() {
        if let Some(earlier) = book.stories.get(*index) {
            play.add_all(alloc, commands, &book.definitions, earlier)?;
        }
    }
    play.own = play.steps.len();
    play.add_all(alloc, commands, &book.definitions, story)?;
    Ok(play)
}
