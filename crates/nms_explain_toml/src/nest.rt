//! How deep a place of a TOML text is: in a text in quotes, in a comment, or in the brackets and braces of a value
//! (`specs/Nesting`).
ghost use Rattle.std.specs.Prelude.{◌≡◌, ◌==◌, ◌&&◌, ◌<◌, ◌≤◌, ◌+◌, ◌-◌, ◌^◌, length};
ghost use Rattle.nms_explain_toml.specs.Nesting.{at_depth, after_byte, after_end, after_line, after_plain, after_quoted, entered, is_outer, is_plain, outer_nest};

/// What a byte is read as.
#[derive(Clone, Copy)]
enum Within {
    /// As a part of the TOML syntax.
    Plain,
    /// As a part of a text in double quotes, in single ones, or in three of either.
    Basic,
    Literal,
    LongBasic,
    LongLiteral,
    /// As a part of a comment.
    Comment,
}

/// How deep a place of a TOML text is, and what its next byte is read as.
#[derive(Clone, Copy)]
pub(crate) struct Nest {
    within: Within,
    /// How many brackets and braces are open.
    depth: usize,
    /// How many of the next bytes belong to the part that was just read.
    skipped: u8,
}

impl Nest {
    /// The nesting before the first byte.
    pub(crate) fn outer() -> Nest
        ensures { result ≡ outer_nest }
    {
        Nest {
            within: Within::Plain,
            depth: 0,
            skipped: 0,
        }
    }

    /// Whether a header or a key may begin at this place, if a line begins there.
    pub(crate) fn is_outer(self) -> bool
        ensures { result ≡ is_outer self }
    {
        self.is_plain() && self.depth == 0
    }

    /// Whether a byte at this place is outside quotes and comments, and so is TOML syntax. Bytes to skip are not considered.
    fn is_plain(self) -> bool
        ensures { result ≡ is_plain self.within }
    {
        match self.within {
            Within::Plain => true,
            Within::Basic
            | Within::Literal
            | Within::LongBasic
            | Within::LongLiteral
            | Within::Comment => false,
        }
    }

    /// Whether a comment has begun.
    pub(crate) fn is_comment(self) -> bool {
        self.within == Within::Comment
    }

    /// Whether a byte at this place is TOML syntax and not skipped, with n brackets and braces open.
    pub(crate) fn is_plain_at(self, depth: usize) -> bool
        ensures { result ≡ ((is_plain self.within && self.skipped == 0) && self.depth == depth) }
    {
        self.is_plain() && self.skipped == 0 && self.depth == depth
    }

    /// The nesting after the first byte of the text that is left. That byte may be a line feed.
    pub(crate) fn after(self, rest: &[u8]) -> Nest
        requires { self.depth + 1 < 2 ^ 64 }
        ensures depth { result.depth ≤ self.depth + 1 }
    {
        if rest.first() == Some(&b'\n') {
            self.after_end()
        } else {
            self.after_byte(rest)
        }
    }

    /// The nesting after a line and its end.
    pub(crate) fn after_line(self, line: &[u8]) -> Nest
        requires { self.depth + length line.now < 2 ^ 64 }
        ensures value { result ≡ after_line self line.now }
        ensures depth { result.depth ≤ self.depth + length line.now }
    {
        let mut nest = self;
        for place in 0..line.len() {
            nest = nest.after_byte(&line[place..]);
        }
        nest.after_end()
    }

    /// The nesting after the end of a line, at which a comment ends, and a text in single quotes.
    fn after_end(self) -> Nest
        ensures value { result ≡ after_end self }
        ensures depth { result.depth ≡ self.depth }
    {
        let within = match self.within {
            Within::LongBasic => Within::LongBasic,
            Within::LongLiteral => Within::LongLiteral,
            Within::Plain | Within::Basic | Within::Literal | Within::Comment => Within::Plain,
        };
        self.entering(within, 0)
    }

    /// The nesting after the first byte of the text that is left of a line.
    pub(crate) fn after_byte(self, rest: &[u8]) -> Nest
        requires { self.depth + 1 < 2 ^ 64 }
        ensures value { result ≡ after_byte self rest.now }
        ensures depth { result.depth ≤ self.depth + 1 }
    {
        if self.skipped > 0 {
            return self.entering(self.within, self.skipped - 1);
        }
        match self.within {
            Within::Plain => self.after_plain(rest),
            Within::Basic => self.after_quoted(rest, b"\"", 0, true),
            Within::Literal => self.after_quoted(rest, b"'", 0, false),
            Within::LongBasic => self.after_quoted(rest, b"\"\"\"", 2, true),
            Within::LongLiteral => self.after_quoted(rest, b"'''", 2, false),
            Within::Comment => self,
        }
    }

    /// The nesting after a byte of TOML syntax.
    fn after_plain(self, rest: &[u8]) -> Nest
        requires { self.depth + 1 < 2 ^ 64 }
        ensures value { result ≡ after_plain self rest.now }
        ensures depth { result.depth ≤ self.depth + 1 }
    {
        if rest.starts_with(b"\"\"\"") {
            return self.entering(Within::LongBasic, 2);
        }
        if rest.starts_with(b"'''") {
            return self.entering(Within::LongLiteral, 2);
        }
        if rest.starts_with(b"\"") {
            return self.entering(Within::Basic, 0);
        }
        if rest.starts_with(b"'") {
            return self.entering(Within::Literal, 0);
        }
        if rest.starts_with(b"#") {
            return self.entering(Within::Comment, 0);
        }
        if rest.starts_with(b"[") || rest.starts_with(b"{") {
            return self.at_depth(self.depth + 1);
        }
        if rest.starts_with(b"]") || rest.starts_with(b"}") {
            return self.closed();
        }
        self
    }

    /// The nesting after a bracket or a brace that closes. One that closes nothing leaves none open.
    fn closed(self) -> Nest
        ensures { result ≡ at_depth (self.depth - 1) self }
    {
        self.at_depth(if self.depth == 0 { 0 } else { self.depth - 1 })
    }

    /// The nesting after a byte of a text in quotes. The closing quotes have n bytes after their first. In some quotes a
    /// backslash may escape a byte.
    fn after_quoted(self, rest: &[u8], quotes: &[u8], more: u8, escapes: bool) -> Nest
        ensures value { result ≡ after_quoted quotes.now more escapes self rest.now }
        ensures depth { result.depth ≡ self.depth }
    {
        if rest.starts_with(quotes) {
            return self.entering(Within::Plain, more);
        }
        if escapes && rest.starts_with(b"\\") {
            return self.entering(self.within, 1);
        }
        self
    }

    /// The nesting with the same depth. The next bytes are skipped, as many as given, and further bytes are read as the given
    /// kind.
    fn entering(self, within: Within, skipped: u8) -> Nest
        ensures { result ≡ entered within skipped self }
    {
        Nest {
            within,
            depth: self.depth,
            skipped,
        }
    }

    /// The nesting with n brackets and braces open.
    fn at_depth(self, depth: usize) -> Nest
        ensures { result ≡ at_depth depth self }
    {
        Nest {
            within: self.within,
            depth,
            skipped: 0,
        }
    }
}
