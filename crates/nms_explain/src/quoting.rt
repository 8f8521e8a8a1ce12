//! What is within quotes, for the reader of records.

/// Where a byte is: within quotes or not.
#[derive(Clone, Copy)]
pub(crate) enum Quoting {
    /// At the start of a field.
    Start,
    /// In a field without quotes.
    Plain,
    /// Within quotes.
    Within,
    /// After a quote that closes the field, or is the first of two.
    After,
}

impl Quoting {
    /// Where the next byte is, if this byte is at this place: within quotes or not.
    pub(crate) fn after(self, byte: u8) -> Self {
        match (self, byte) {
            (Quoting::Start | Quoting::After, b'"') => Quoting::Within,
            (Quoting::Within, b'"') => Quoting::After,
            (Quoting::Within, _) => Quoting::Within,
            (Quoting::Start | Quoting::Plain | Quoting::After, b',' | b'\n' | b'\r') => {
                Quoting::Start
            }
            (Quoting::Start | Quoting::Plain | Quoting::After, _) => Quoting::Plain,
        }
    }
}
