//! The rows of a table of options.
ghost use Rattle.std.specs.Prelude.{◌≡◌, map};
ghost use Rattle.std.specs.List.{list_any};
ghost use Rattle.spfc_words.specs.Rows.{plain, is_flag, is_valued, is_flag_of, is_valued_of};

/// `NAME N`: a decimal number.
#[derive(Clone, Copy, Debug)]
pub struct NumberRow {
    /// How it is written.
    pub name: &'static str,
    /// The least number.
    pub low: u32,
    /// The greatest number.
    pub high: u32,
    /// The number where the option is not written.
    pub by_default: u32,
}

/// `NAME TEXT`: a text, which is the next word as it stands.
#[derive(Clone, Copy, Debug)]
pub struct TextRow {
    /// How it is written.
    pub name: &'static str,
    /// The text where the option is not written.
    pub by_default: &'static str,
}

/// `NAME`: a flag.
#[derive(Clone, Copy, Debug)]
pub struct FlagRow {
    /// How it is written.
    pub name: &'static str,
}

/// A row of a table of options.
#[derive(Clone, Copy, Debug)]
pub enum Row {
    /// A number.
    Number(NumberRow),
    /// A text.
    Text(TextRow),
    /// A flag.
    Flag(FlagRow),
}

/// Whether the word is a flag of the table.
pub(crate) fn is_flag(rows: &[Row], word: &str) -> bool
    ensures { result ≡ is_flag (map plain rows.now) word.now }
{
    has_flag(rows, word)
}

/// Whether the word is an option of the table that has a value.
pub(crate) fn is_valued(rows: &[Row], word: &str) -> bool
    ensures { result ≡ is_valued (map plain rows.now) word.now }
{
    has_valued(rows, word)
}

/// The same as `is_flag`, of the rows as they stand.
fn has_flag(rows: &[Row], word: &str) -> bool
    ensures { result ≡ list_any (λ row. is_flag_of word.now (plain row)) rows.now }
{
    rows.iter().any(|row| is_flag_row(row, word))
}

/// The same as `is_valued`, of the rows as they stand.
fn has_valued(rows: &[Row], word: &str) -> bool
    ensures { result ≡ list_any (λ row. is_valued_of word.now (plain row)) rows.now }
{
    rows.iter().any(|row| is_valued_row(row, word))
}

/// Whether the word is the flag of this row.
fn is_flag_row(row: &Row, word: &str) -> bool
    ensures { result ≡ is_flag_of word.now (plain row.now) }
{
    match row {
        Row::Flag(flag) => flag.name == word,
        Row::Number(_) | Row::Text(_) => false,
    }
}

/// Whether the word is the option of this row, which has a value.
fn is_valued_row(row: &Row, word: &str) -> bool
    ensures { result ≡ is_valued_of word.now (plain row.now) }
{
    match row {
        Row::Number(number) => number.name == word,
        Row::Text(text) => text.name == word,
        Row::Flag(_) => false,
    }
}
