//! What requests and handlers say, in words.
use mf_edition::{Change, PublishError};
use mf_text::{Argued, Pair};
use mf_value::HandlerDef;
use mf_wire::WireError;
use std::alloc::{AllocError, Global};
use std::fmt::Write;

/// Why a line is no request.
pub fn tell_error(alloc: Global, error: WireError) -> Result<String, AllocError> {
    match error {
        WireError::BadJson => String::from_str(alloc, "bad-json"),
        WireError::BadRequest { field } => format!(in alloc; "bad-request {}", field.as_str()),
        WireError::BadLocale { field, rule: None } => {
            format!(in alloc; "bad-locale {}", field.as_str())
        }
        WireError::BadLocale {
            field,
            rule: Some(rule),
        } => format!(in alloc; "bad-locale {} rule {rule}", field.as_str()),
        WireError::OutOfMemory => Err(AllocError),
    }
}

/// Why a change isn't published.
pub fn tell_refusal(alloc: Global, error: PublishError) -> Result<String, AllocError> {
    match error {
        PublishError::StoreFull { used, size } => {
            format!(in alloc; "store-full, {used} used, {size} more")
        }
        PublishError::EditionsFull { entries } => format!(in alloc;
            "editions-full, {entries} entries"
        ),
        PublishError::OutOfMemory => Err(AllocError),
    }
}

/// What a change publishes.
pub fn tell_change(alloc: Global, change: &Change) -> Result<String, AllocError> {
    let mut out = String::new(alloc);
    match change {
        Change::Catalogue(catalogue) => {
            write!(
                out,
                "{} messages of {}",
                catalogue.len(),
                catalogue.tag().as_text().as_str()
            )?;
        }
        Change::Locale { tag, .. } => write!(out, "record of {}", tag.as_text().as_str())?,
        Change::Handler(shared) => {
            let handler = shared.as_handler();
            write!(out, "handler ")?;
            if let Some(namespace) = &handler.name.namespace {
                write!(out, "{}:", namespace.value.as_str())?;
            }
            write!(out, "{} is ", handler.name.name.value.as_str())?;
            tell_def(&mut out, &handler.def)?;
        }
    }
    write!(out, ", {} bytes", change.size())?;
    Ok(out)
}

/// What a handler does.
pub fn tell_def(out: &mut String, def: &HandlerDef) -> Result<(), AllocError> {
    match def {
        HandlerDef::Alias { base, presets } => {
            write!(out, "alias of {}", base.as_str())?;
            tell_pairs(out, presets.as_slice())
        }
        HandlerDef::Affix {
            base,
            presets,
            prefix,
            suffix,
        } => {
            write!(
                out,
                "[{}] and [{}] round {}",
                prefix.as_str(),
                suffix.as_str(),
                base.as_str()
            )?;
            tell_pairs(out, presets.as_slice())
        }
        HandlerDef::Table { entries, default } => {
            write!(out, "table")?;
            tell_pairs(out, entries.as_slice())?;
            match default {
                Some(default) => write!(out, " else {}", default.as_str()),
                None => Ok(()),
            }
        }
    }
}

fn tell_pairs(out: &mut String, pairs: &[Pair]) -> Result<(), AllocError> {
    for pair in pairs {
        write!(out, " {}={}", pair.name.as_str(), pair.value.as_str())?;
    }
    Ok(())
}

/// What an argument is.
pub fn tell_argument(alloc: Global, argued: &Argued) -> Result<String, AllocError> {
    match argued {
        Argued::Text(text) => format!(in alloc; "text {}", text.as_str()),
        Argued::Signed(number) => format!(in alloc; "signed {number}"),
        Argued::Unsigned(number) => format!(in alloc; "unsigned {number}"),
    }
}
