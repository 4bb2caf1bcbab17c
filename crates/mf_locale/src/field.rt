ghost use Rattle.std.specs.Prelude.{◌≡◌};
ghost use Rattle.mf_locale.specs.FieldNames.{name_of};

/// A field of a locale record.
#[derive(Clone, Copy, Debug, PartialEq, Eq)]
pub enum RecordField {
    Version,
    Dir,
    Decimal,
    Group,
    Minus,
    Plus,
    Primary,
    Secondary,
    MinGroup,
    Plural,
    Ordinal,
}

impl RecordField {
    /// Its name in a record's JSON object.
    pub fn as_str(&self) -> &'static str
        ensures { result.now ≡ name_of self.now }
    {
        match self {
            RecordField::Version => "version",
            RecordField::Dir => "dir",
            RecordField::Decimal => "decimal",
            RecordField::Group => "group",
            RecordField::Minus => "minus",
            RecordField::Plus => "plus",
            RecordField::Primary => "primary",
            RecordField::Secondary => "secondary",
            RecordField::MinGroup => "minGroup",
            RecordField::Plural => "plural",
            RecordField::Ordinal => "ordinal",
        }
    }
}
