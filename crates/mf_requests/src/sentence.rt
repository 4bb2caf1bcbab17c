//! A request for a sentence, read from the tokens of a line.
ghost use Rattle.std.specs.Prelude.{◌≡◌, ◌∷◌, ℕ, List, Ok, Some, IfOk, OnOk};
ghost use Rattle.json.specs.Token as token;
ghost use Rattle.serde_json.specs.Data.{object, unsigned, Members};
ghost use Rattle.serde_json.specs.Read.{number_of};
ghost use Rattle.mf_wire.specs.Requests.{request_from};
ghost use Rattle.mf_requests.specs.Sentences.{HasArguments, HasMember, HasMembers, IsSentence, Shows};

use crate::arguments::{read_arguments, whole_number};
use crate::unread::Unread;
use json::{Reader, Token};
use mf_locale::read_tag;
use mf_text::{Arguments, Text};
use mf_wire::Request;
use std::alloc::Global;

/// What was read of a request for a sentence: the last value of each of its members.
#[derive(Drop)]
pub(crate) struct Sentence<'a> {
    op: Option<&'a str>,
    locale: Option<&'a str>,
    id: Option<&'a str>,
    arguments: Option<Arguments>,
    since: Option<u64>,
}

/// What is read of the tokens of a whole line.
pub(crate) fn read_sentence<'a>(
    alloc: Global,
    reader: &mut Reader<'a>,
) -> Result<Sentence<'a>, Unread>
    ensures { IfOk result (λ sentence. IsSentence reader.old sentence) }
{
    let Some(Token::BeginObject) = reader.next() else {
        return Err(Unread::NotPlain);
    };
    let sentence = read_members(alloc, reader)?;
    match reader.next() {
        None => Ok(sentence),
        Some(_) => Err(Unread::NotPlain),
    }
}

/// What is read of an object whose opening brace was read.
fn read_members<'a>(alloc: Global, reader: &mut Reader<'a>) -> Result<Sentence<'a>, Unread>
    ensures { IfOk result (λ sentence. HasMembers reader.old sentence reader.new) }
{
    let mut sentence = Sentence {
        op: None,
        locale: None,
        id: None,
        arguments: None,
        since: None,
    };
    'members: while let Some(name) = reader.next_key()? {
        read_member(alloc, reader, name, &mut sentence)?;
    }
    Ok(sentence)
}

/// Reads the member of a name.
fn read_member<'a>(
    alloc: Global,
    reader: &mut Reader<'a>,
    name: &str,
    sentence: &mut Sentence<'a>,
) -> Result<(), Unread>
    ensures { OnOk result (HasMember reader.old name.now sentence.old sentence.new reader.new) }
{
    match name {
        "op" => sentence.op = Some(read_text(reader)?),
        "locale" => sentence.locale = Some(read_text(reader)?),
        "id" => sentence.id = Some(read_text(reader)?),
        "args" => sentence.arguments = Some(read_object(alloc, reader)?),
        "since" => sentence.since = Some(read_whole_number(reader)?),
        _ => return Err(Unread::NotPlain),
    }
    Ok(())
}

/// The text that is next.
fn read_text<'a>(reader: &mut Reader<'a>) -> Result<&'a str, Unread>
    ensures { IfOk result (λ text. reader.old ≡ token.string text.now ∷ reader.new) }
{
    match reader.next() {
        Some(Token::String(text)) => Ok(text),
        _ => Err(Unread::NotPlain),
    }
}

/// The whole number that is next.
fn read_whole_number(reader: &mut Reader<'_>) -> Result<u64, Unread>
    ensures { IfOk result (λ number. (written : List ℕ)
        × (reader.old ≡ token.number written ∷ reader.new)
        × (number_of written ≡ Some (unsigned number))) }
{
    match reader.next() {
        Some(Token::Number(text)) => whole_number(text),
        _ => Err(Unread::NotPlain),
    }
}

/// The arguments of the object that is next.
fn read_object(alloc: Global, reader: &mut Reader<'_>) -> Result<Arguments, Unread>
    ensures { IfOk result (λ arguments. (inside : List token.Token)
        × (reader.old ≡ token.begin_object ∷ inside)
        × HasArguments inside arguments reader.new) }
{
    match reader.next() {
        Some(Token::BeginObject) => read_arguments(alloc, reader),
        _ => Err(Unread::NotPlain),
    }
}

/// The request that was read.
pub(crate) fn request_of(alloc: Global, sentence: Sentence<'_>) -> Result<Request, Unread>
    ensures { IfOk result (λ request. (members : Members)
        → Shows sentence.entry members → request_from (object members) ≡ Ok request) }
{
    let Sentence {
        op: Some("format"),
        locale: Some(locale),
        id: Some(id),
        arguments,
        since,
    } = sentence
    else {
        return Err(Unread::NotPlain);
    };
    Ok(Request::Format {
        tag: read_tag(alloc, locale)?,
        id: Text::of(alloc, id)?,
        arguments: arguments.unwrap_or(Arguments::new(alloc)),
        since: since.unwrap_or(0),
    })
}
