use mf_text::Text;

/// What an identifier spells.
#[derive(Debug, Drop)]
pub struct Ident {
    /// The name before the colon, if there is one, without marks.
    pub namespace: Option<Text>,
    /// The name behind the colon, or the only one, without marks.
    pub name: Text,
}
