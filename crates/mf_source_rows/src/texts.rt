//! Texts, pairs and arguments.
use mf_text::{Argued, Arguments, OrderedPairs, Pair, Text, Texts, nfc};
use std::alloc::{AllocError, Global};

/// What becomes of texts, by the word before them.
pub fn answer(alloc: Global, asked: &str) -> Result<String, AllocError> {
    let (word, text) = asked.split_once(' ').unwrap_or((asked, ""));
    match word {
        "nfc" => Ok(nfc(alloc, text)?.into_string()),
        "sort" => sorted(alloc, text),
        "pairs" => pairs(alloc, text),
        "argument" => argument(alloc, text),
        _ => String::from_str(alloc, "no such word"),
    }
}

/// Texts in their order.
fn sorted(alloc: Global, words: &str) -> Result<String, AllocError> {
    let mut texts = Texts::new(alloc);
    for word in words.split(' ') {
        texts.push(Text::of(alloc, word)?)?;
    }
    let mut texts = texts.into_members();
    texts.sort()?;
    let mut sorted = String::new(alloc);
    for (place, text) in texts.iter().enumerate() {
        push_word(&mut sorted, place, text.as_str())?;
    }
    Ok(sorted)
}

/// Pairs in the order of their names.
fn pairs(alloc: Global, words: &str) -> Result<String, AllocError> {
    let mut pairs = OrderedPairs::new(alloc);
    for word in words.split(' ') {
        let (name, value) = word.split_once('=').unwrap_or((word, ""));
        pairs.put(Pair {
            name: Text::of(alloc, name)?,
            value: Text::of(alloc, value)?,
        })?;
    }
    let mut ordered = String::new(alloc);
    for (place, pair) in pairs.into_pairs().as_slice().iter().enumerate() {
        push_word(&mut ordered, place, pair.name.as_str())?;
        ordered.push('=')?;
        ordered.push_str(pair.value.as_str())?;
    }
    Ok(ordered)
}

/// The value of the argument of a name, and how many arguments there are.
fn argument(alloc: Global, asked: &str) -> Result<String, AllocError> {
    let (words, name) = asked.split_once(" ? ").unwrap_or((asked, ""));
    let mut arguments = Arguments::new(alloc);
    for word in words.split(' ') {
        let (name, value) = word.split_once('=').unwrap_or((word, ""));
        let _ = arguments.insert(alloc, name, Argued::Text(Text::of(alloc, value)?))?;
    }
    let name = nfc(alloc, name)?;
    let value = match arguments.find(&name) {
        Some(Argued::Text(text)) => text.as_str(),
        _ => "none",
    };
    format!(in alloc; "{value} of {}", arguments.len())
}

/// The word at a place.
fn push_word(text: &mut String, place: usize, word: &str) -> Result<(), AllocError> {
    if place != 0 {
        text.push(' ')?;
    }
    text.push_str(word)
}
