//! Options: of a function, and of markup.

ghost use Rattle.std.specs.Prelude.{◌≡◌, ◌≤◌, ℕ, Some, None, length, IfOk};
ghost use Rattle.mf_decimal.specs.Text.{exact_text};
ghost use Rattle.mf_resolve.specs.Resolving.{FindsOption, ResolvesOptions};
ghost use Rattle.mf_resolve.specs.Sources.{IsTextOf};
ghost use Rattle.mf_text.specs.declared.direction.Direction.{Direction};
ghost use Rattle.mf_value.specs.Traces.{argument_value};
ghost use Rattle.mf_value.specs.Values.{option_text};

use crate::scope::Scope;
use crate::settings::Settings;
use crate::sources::identifier_text;
use crate::variable::Source;
use mf_decimal::{of_i64, of_u64};
use mf_text::{Argued, Text};
use mf_tree::{Kind, OptionNode, OptionValue};
use mf_value::Functions;
use std::alloc::{AllocError, Global};

impl<'a> Scope<'a> {
    /// What options come to, in the order of the source. Those of markup have no direction.
    #[cycle(resolving)]
    pub fn resolve_options<F: Functions>(
        &mut self,
        alloc: Global,
        functions: &F,
        limit: usize,
        directs: bool,
        options: &'a [OptionNode],
    ) -> Result<Settings, AllocError>
        requires within { limit ≤ length self.old.declarations }
        ensures { IfOk result
            (ResolvesOptions (F.meaning functions.now) limit self.old self.new
            directs options.now) }
    {
        let mut settings = Settings::new(alloc);
        for option in options {
            let text = self.option_value(alloc, functions, limit, &option.value)?;
            if !settings.take(directs, option, text)? {
                self.push_fault(Kind::BadOption, identifier_text(alloc, &option.name)?)?;
            }
        }
        Ok(settings)
    }

    /// The option text of an option's value, if it has one.
    #[cycle(resolving)]
    fn option_value<F: Functions>(
        &mut self,
        alloc: Global,
        functions: &F,
        limit: usize,
        value: &'a OptionValue,
    ) -> Result<Option<Text>, AllocError>
        requires within { limit ≤ length self.old.declarations }
        ensures { IfOk result
            (FindsOption (F.meaning functions.now) limit self.old self.new value.now) }
    {
        match value {
            OptionValue::Literal(text) => Ok(Some(text.clone()?)),
            OptionValue::Variable(name) => {
                let source = self.use_variable(alloc, functions, limit, name)?;
                self.source_text(alloc, &source)
            }
        }
    }

    /// The option text of what a variable stands for.
    fn source_text(&self, alloc: Global, source: &Source<'a>) -> Result<Option<Text>, AllocError>
        ensures { IfOk result (IsTextOf self.now.resolved source.now) }
    {
        match source {
            Source::Declared(place) => match self.kept(*place) {
                Some(value) => value.content.option_text(alloc),
                None => Ok(None),
            },
            Source::Argument(argued) => Ok(Some(argument_text(alloc, argued)?)),
            Source::Nothing => Ok(None),
        }
    }
}

/// The option text of an argument.
fn argument_text(alloc: Global, argued: &Argued) -> Result<Text, AllocError>
    ensures { IfOk result
        (λ text. (dir : Direction) → Some text ≡ option_text (argument_value dir argued.now).content) }
{
    match argued {
        Argued::Text(text) => text.clone(),
        Argued::Signed(number) => Ok(Text::from(of_i64(*number).exact_text(alloc)?)),
        Argued::Unsigned(number) => Ok(Text::from(of_u64(*number).exact_text(alloc)?)),
    }
}
