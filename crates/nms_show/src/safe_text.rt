//! A text that is safe to show, kept until it is printed: `specs/Written`.
ghost use Rattle.std.specs.Prelude.{◌≡◌, ℕ, [], List, MatchResult, Some, length, true};
ghost use Rattle.std.specs.List.{list_all};
ghost use Rattle.std.specs.Io.KnownBytes.{Appends};
ghost use Rattle.nms_lines.specs.Written.{AppendsPart};
ghost use Rattle.nms_show.specs.Plain.{is_own_plain, is_plain, is_plain_member};
ghost use Rattle.nms_show.specs.Safe.{IsSafe};
ghost use Rattle.nms_show.specs.Written.{Keeps, Writes};

use crate::form::Form;
use crate::item::{Column, Item};
use crate::report::{
    Location, WrongPart, write_advice, write_found, write_place, write_plain_line,
    write_plain_object, write_plain_row, write_refused,
};
use crate::show_fault::ShowFault;
use nms_lines::write_text;
use std::alloc::{AllocError, Global};
use std::io::Write;
use std::marker::Model;

/// A text that is safe to show on a terminal. Nothing unsafe can be added to it, so a function that adds to it needs no proof of
/// safety.
///
/// The text is printed only when it is passed on to a writer. Each addition is complete or absent. The only fault is a lack of
/// memory, which leaves the text as it was.
#[derive(Drop)]
pub struct SafeText {
    alloc: Global,
    form: Form,
    text: Vec<u8>,
}

impl Model for SafeText {
    ghost use Rattle.std.specs.Prelude.{ℕ, List};
    ghost use Rattle.nms_show.specs.Safe.{IsSafe};

    ghost Value = { List ℕ };

    ghost view = { λ t. t.text.items };

    ghost invariant = { λ t. IsSafe t.text.items };
}

impl SafeText {
    /// An empty text.
    #[tactic(auto, using(crate::proofs::PlainFacts::safe_none))]
    pub fn new(alloc: Global, form: Form) -> Self
        ensures { result ≡ [] }
    {
        SafeText {
            alloc,
            form,
            text: Vec::new(alloc),
        }
    }

    /// The allocator of the text.
    pub fn alloc(&self) -> Global {
        self.alloc
    }

    /// Whether the text is JSON.
    pub fn is_json(&self) -> bool {
        self.form.is_json()
    }

    /// Adds a line.
    pub fn line(&mut self, items: &[Item<'_>]) -> Result<(), AllocError>
        requires plain { list_all is_own_plain items.now ≡ true }
        ensures { Keeps IsSafe self.old self.new result }
    {
        let had = self.text.len();
        let written = write_plain_line(&mut self.text, self.form, items);
        kept(&mut self.text, had, written)
    }

    /// Adds a table's row.
    pub fn row(&mut self, columns: &[Column<'_>]) -> Result<(), AllocError>
        requires plain { list_all (λ column. is_own_plain column.item) columns.now ≡ true }
        ensures { Keeps IsSafe self.old self.new result }
    {
        let had = self.text.len();
        let written = write_plain_row(&mut self.text, self.form, columns);
        kept(&mut self.text, had, written)
    }

    /// Adds a JSON object.
    pub fn object(&mut self, members: &[(&'static str, Item<'_>)]) -> Result<(), AllocError>
        requires plain { list_all is_plain_member members.now ≡ true }
        ensures { Keeps IsSafe self.old self.new result }
    {
        let had = self.text.len();
        let written = write_plain_object(self.alloc, &mut self.text, members);
        kept(&mut self.text, had, written)
    }

    /// Adds a line with the place of a refusal: file, line, column and code, and then the given items.
    pub fn place(
        &mut self,
        at: Location<'_>,
        code: &'static str,
        items: &[Item<'_>],
    ) -> Result<(), AllocError>
        requires code { is_plain code.now ≡ true }
        requires items { list_all is_own_plain items.now ≡ true }
        ensures { Keeps IsSafe self.old self.new result }
    {
        let had = self.text.len();
        let written = write_place(&mut self.text, self.form, at, code, items);
        kept(&mut self.text, had, written)
    }

    /// Adds a line with the place of a refusal, then the refused text, and carets under the part that is wrong.
    pub fn refused(
        &mut self,
        at: Location<'_>,
        code: &'static str,
        items: &[Item<'_>],
        wrong: WrongPart<'_>,
    ) -> Result<(), AllocError>
        requires code { is_plain code.now ≡ true }
        requires items { list_all is_own_plain items.now ≡ true }
        ensures { Keeps IsSafe self.old self.new result }
    {
        let had = self.text.len();
        let written = write_refused(&mut self.text, self.form, at, code, items, wrong);
        kept(&mut self.text, had, written)
    }

    /// Adds a line that says what was found and what is expected. The found item is between two given words.
    pub fn found<'x>(
        &mut self,
        words: (&'static str, &'static str),
        found: Item<'x>,
        expected: &'x str,
    ) -> Result<(), AllocError>
        requires before { is_plain words.0.now ≡ true }
        requires after { is_plain words.1.now ≡ true }
        requires found { is_own_plain found ≡ true }
        ensures { Keeps IsSafe self.old self.new result }
    {
        let had = self.text.len();
        let written = write_found(&mut self.text, self.form, words, found, expected);
        kept(&mut self.text, had, written)
    }

    /// Adds a line of advice; nothing if there is none.
    pub fn advice(&mut self, advice: &str) -> Result<(), AllocError>
        ensures { Keeps IsSafe self.old self.new result }
    {
        let had = self.text.len();
        let written = write_advice(&mut self.text, self.form, advice);
        kept(&mut self.text, had, written)
    }

    /// Gives the text to a writer, which is not flushed. After that the text is empty.
    ///
    /// The only fault is `WriteFault`, after which a prefix of the text was written.
    #[tactic(auto, using(crate::proofs::PlainFacts::safe_none))]
    pub fn pass_on<W: Write>(&mut self, answers: &mut W) -> Result<(), ShowFault>
        ensures empty { self.new ≡ [] }
        ensures safe { Writes IsSafe (W.contents answers.old) (W.contents answers.new) result }
        ensures text { MatchResult result (λ _. Appends (W.contents answers.old) (W.contents answers.new) self.old)
            (λ _. AppendsPart (W.contents answers.old) (W.contents answers.new) self.old) }
    {
        let written = write_text(answers, self.text.as_slice());
        self.text.clear();
        match written {
            Ok(()) => Ok(()),
            Err(_) => Err(ShowFault::WriteFault),
        }
    }
}

/// Removes a failed addition from the text. Writing to memory fails only if memory runs out.
#[tactic(auto, using(crate::proofs::PlainFacts::safe_more, crate::proofs::PlainFacts::cut_back))]
fn kept(text: &mut Vec<u8>, had: usize, written: Result<(), ShowFault>) -> Result<(), AllocError>
    ensures kept { (was : List ℕ) → had ≡ length was → Writes IsSafe (Some was) (Some text.old.items) written
        → Keeps IsSafe was text.new.items result }
    ensures safe { (was : List ℕ) → had ≡ length was → IsSafe was → Writes IsSafe (Some was) (Some text.old.items) written
        → IsSafe text.new.items }
{
    match written {
        Ok(()) => Ok(()),
        Err(_) => {
            text.truncate(had);
            Err(AllocError)
        }
    }
}
