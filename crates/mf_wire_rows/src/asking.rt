//! Requests that are made, and questions about the editions that they make.
use crate::telling::{tell_argument, tell_change, tell_def, tell_error, tell_refusal};
use mf_edition::{Change, Edition, Entry, Publications, PublishError};
use mf_locale::{LocaleError, Tag, chain, read_tag};
use mf_text::{Arguments, Text};
use mf_tree::{Identifier, Name};
use mf_wire::{Request, read_request};
use std::alloc::{AllocError, Global};
use std::fmt::Write;

/// What has been published, and the arguments of the last request.
#[derive(Drop)]
pub struct Session {
    publications: Publications,
    arguments: Arguments,
}

impl Session {
    /// A session with no edition.
    pub fn new(alloc: Global) -> Result<Session, AllocError> {
        Ok(Session {
            publications: Publications::new(alloc)?,
            arguments: Arguments::new(alloc),
        })
    }

    /// What a request says, and the edition that it makes.
    pub fn request(&mut self, alloc: Global, line: &str) -> Result<String, AllocError> {
        match read_request(alloc, line.as_bytes()) {
            Ok(Request::Publish(change)) => self.publish(alloc, change),
            Ok(
                Request::Format {
                    tag,
                    id,
                    arguments,
                    since,
                },
            ) => {
                let count = arguments.len();
                self.arguments = arguments;
                let tag = tag.as_text().as_str();
                format!(in alloc;
                    "format {tag} {}, {count} arguments, since {since}",
                    id.as_str()
                )
            }
            Ok(Request::Lint { source }) => format!(in alloc; "lint {}", source.as_str()),
            Ok(Request::Stat) => String::from_str(alloc, "stat"),
            Err(error) => tell_error(alloc, error),
        }
    }

    fn publish(&mut self, alloc: Global, change: Change) -> Result<String, AllocError> {
        let told = tell_change(alloc, &change)?;
        let entry = Entry {
            caller: 1,
            nth: self.publications.log().len(),
            change,
        };
        match self.publications.publish(entry) {
            Ok(()) => {
                let number = self.publications.newest().number();
                format!(in alloc; "edition {number}: {told}")
            }
            Err(error) => tell_refusal(alloc, error),
        }
    }

    /// The answer to a question.
    pub fn question(&self, alloc: Global, question: &str) -> Result<String, AllocError> {
        let newest = self.publications.newest();
        let (word, rest) = question.split_once(' ').unwrap_or((question, ""));
        match word {
            "items" => items(alloc, newest),
            "find" => found(alloc, newest, rest),
            "along" => found_along(alloc, newest, rest),
            "decimal" => decimal(alloc, newest, rest),
            "handler" => handler(alloc, newest, rest),
            "argument" => match self.arguments.find(&Text::of(alloc, rest)?) {
                Some(argued) => tell_argument(alloc, argued),
                None => String::from_str(alloc, "none"),
            },
            "used" => format!(in alloc; "{}", self.publications.log().used()),
            _ => String::from_str(alloc, "no question"),
        }
    }
}

/// The messages of an edition in the order of their indices.
fn items(alloc: Global, edition: &Edition) -> Result<String, AllocError> {
    let mut out = String::new(alloc);
    for index in 0..edition.len() {
        if let Some(item) = edition.item(index) {
            let space = if index == 0 { "" } else { " " };
            write!(out, "{space}{}/{}={}", item.tag(), item.id(), item.source())?;
        }
    }
    Ok(out)
}

/// The tag that a text spells.
fn tag(alloc: Global, text: &str) -> Result<Tag, AllocError> {
    match read_tag(alloc, text) {
        Ok(tag) => Ok(tag),
        Err(LocaleError::OutOfMemory) => Err(AllocError),
        Err(_) => Tag::und(alloc),
    }
}

/// The index of the message of a tag and an id.
fn found(alloc: Global, edition: &Edition, words: &str) -> Result<String, AllocError> {
    let (spelled, id) = words.split_once(' ').unwrap_or((words, ""));
    match edition.find(&tag(alloc, spelled)?, &Text::of(alloc, id)?) {
        Some(index) => format!(in alloc; "{index}"),
        None => String::from_str(alloc, "none"),
    }
}

/// Where the message of an id is found along the chain of a tag.
fn found_along(alloc: Global, edition: &Edition, words: &str) -> Result<String, AllocError> {
    let (spelled, id) = words.split_once(' ').unwrap_or((words, ""));
    let chain = chain(alloc, &tag(alloc, spelled)?)?;
    match edition.find_along(chain, &Text::of(alloc, id)?) {
        Some(found) => format!(in alloc; "{} {}", found.tag.as_text().as_str(), found.index),
        None => String::from_str(alloc, "none"),
    }
}

/// The decimal separators of the records that speak for tags.
fn decimal(alloc: Global, edition: &Edition, words: &str) -> Result<String, AllocError> {
    let mut out = String::new(alloc);
    for spelled in words.split(' ') {
        let tag = tag(alloc, spelled)?;
        out.push_str(edition.place_for(&tag).layout.decimal.as_str())?;
    }
    Ok(out)
}

/// What the handler of a name does.
fn handler(alloc: Global, edition: &Edition, spelled: &str) -> Result<String, AllocError> {
    let (namespace, name) = match spelled.split_once(':') {
        Some((namespace, name)) => (Some(Name::new(alloc, Text::of(alloc, namespace)?)?), name),
        None => (None, spelled),
    };
    let name = Identifier {
        namespace,
        name: Name::new(alloc, Text::of(alloc, name)?)?,
    };
    let mut out = String::new(alloc);
    match edition.handler(&name) {
        Some(def) => tell_def(&mut out, def)?,
        None => out.push_str("none")?,
    }
    Ok(out)
}
