//! What the options of a call come to.

ghost use Rattle.std.specs.Prelude.{◌≡◌, false, IfOk};
ghost use Rattle.mf_resolve.specs.Settings.{Takes, no_settings, owner_of};
ghost use Rattle.mf_value.specs.Traces as traces;

use mf_text::{Direction, List, Text};
use mf_tree::{Identifier, Name, OptionNode, OptionValue};
use mf_value::{Given, Options, Value};
use std::alloc::{AllocError, Global};

/// What is handed to the function, and what is set on its value.
#[derive(Drop)]
pub struct Settings {
    pub given: Options,
    /// The direction that `u:dir` sets.
    pub dir: Option<Direction>,
    /// The id that `u:id` sets.
    pub id: Option<Text>,
}

impl Settings {
    pub fn new(alloc: Global) -> Settings
        ensures { result ≡ no_settings }
    {
        Settings {
            given: List::new(alloc),
            dir: None,
            id: None,
        }
    }

    /// Takes an option with its option text, if it has one; not where it is refused. Markup has no
    /// direction.
    pub fn take(
        &mut self,
        directs: bool,
        option: &OptionNode,
        text: Option<Text>,
    ) -> Result<bool, AllocError>
        ensures { IfOk result
            (Takes self.old self.new (traces.option_outcome (owner_of directs) option.now text)) }
    {
        let Some(text) = text else {
            return Ok(false);
        };
        if is_universal(&option.name.namespace) {
            return Ok(self.take_universal(directs, &option.name.name, text));
        }
        self.given.push(Given {
            name: copy_of(&option.name)?,
            value: text,
            literal: matches!(option.value, OptionValue::Literal(_)),
        })?;
        Ok(true)
    }

    /// Takes an option of the namespace `u`.
    fn take_universal(&mut self, directs: bool, name: &Name, text: Text) -> bool
        ensures { Takes self.old self.new
            (traces.universal_outcome (owner_of directs) name.now.value text) result }
    {
        match name.value.as_str() {
            "dir" => directs && self.take_direction(text.as_str()),
            "id" => {
                self.id = Some(text);
                true
            }
            _ => false,
        }
    }

    fn take_direction(&mut self, text: &str) -> bool
        ensures { Takes self.old self.new (traces.direction_named text.now) result }
    {
        match text {
            "ltr" => self.dir = Some(Direction::Ltr),
            "rtl" => self.dir = Some(Direction::Rtl),
            "auto" => self.dir = Some(Direction::Unknown),
            "inherit" => {}
            _ => return false,
        }
        true
    }

    /// A value with what is set on it.
    pub fn put_on(self, value: Value) -> Value
        ensures { result ≡
            traces.with_direction self.dir (record value { forced = false; id = self.id }) }
    {
        Value {
            content: value.content,
            dir: self.dir.unwrap_or(value.dir),
            forced: self.dir.is_some(),
            id: self.id,
            prefix: value.prefix,
            suffix: value.suffix,
            selects: value.selects,
        }
    }
}

/// The namespace is `u`.
fn is_universal(namespace: &Option<Name>) -> bool
    ensures { result ≡ traces.is_universal namespace.now }
{
    match namespace {
        Some(name) => name.value.as_str() == "u",
        None => false,
    }
}

fn copy_of(identifier: &Identifier) -> Result<Identifier, AllocError>
    ensures { IfOk result (λ copy. copy ≡ identifier.now) }
{
    let namespace = match &identifier.namespace {
        Some(name) => Some(name.clone()?),
        None => None,
    };
    Ok(Identifier {
        namespace,
        name: identifier.name.clone()?,
    })
}
