ghost use Rattle.std.specs.Prelude.{◌≡◌};
ghost use Rattle.mf_wire.specs.FieldNames.{field_name};

/// A field of a request.
#[derive(Clone, Copy, Debug, PartialEq, Eq)]
pub enum Field {
    Op,
    Locale,
    Messages,
    Tag,
    Record,
    Name,
    Def,
    Kind,
    Base,
    Options,
    Prefix,
    Suffix,
    Entries,
    Default,
    Id,
    Args,
    Since,
    Source,
}

impl Field {
    /// Its name in a request.
    pub fn as_str(self) -> &'static str
        ensures { result.now ≡ field_name self }
    {
        match self {
            Field::Op => "op",
            Field::Locale => "locale",
            Field::Messages => "messages",
            Field::Tag => "tag",
            Field::Record => "record",
            Field::Name => "name",
            Field::Def => "def",
            Field::Kind => "kind",
            Field::Base => "base",
            Field::Options => "options",
            Field::Prefix => "prefix",
            Field::Suffix => "suffix",
            Field::Entries => "entries",
            Field::Default => "default",
            Field::Id => "id",
            Field::Args => "args",
            Field::Since => "since",
            Field::Source => "source",
        }
    }
}
