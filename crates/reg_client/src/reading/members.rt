//! Reads JSON member by member, in the order in which an office prints them.
use json::{Reader, Scratch, Token};
use reg_ranges::number::read_number;
use reg_source::unpublished::Unpublished;
use std::alloc::Global;

/// A text of JSON that is being read, and the name of the member that comes next, if one does.
#[derive(Drop)]
pub(super) struct Members<'a> {
    reader: Reader<'a>,
    name: Option<&'a str>,
}

impl<'a> Members<'a> {
    /// The beginning of a text.
    pub fn new(scratch: &'a mut Scratch<Global>, body: &'a [u8]) -> Result<Self, Unpublished> {
        let Ok(text) = str::from_utf8(body) else {
            return Err(Unpublished::Read);
        };
        Ok(Members {
            reader: Reader::new(text, scratch)?,
            name: None,
        })
    }

    /// The bracket that opens an object, and the name of its first member.
    pub fn open_object(&mut self) -> Result<(), Unpublished> {
        match self.reader.next() {
            Some(Token::BeginObject) => self.next_name(),
            _ => Err(Unpublished::Read),
        }
    }

    /// That the object has no more members, and is closed.
    pub fn close_object(&mut self) -> Result<(), Unpublished> {
        match self.name {
            None => Ok(()),
            Some(_) => Err(Unpublished::Read),
        }
    }

    /// The bracket that opens an array.
    pub fn open_array(&mut self) -> Result<(), Unpublished> {
        match self.reader.next() {
            Some(Token::BeginArray) => Ok(()),
            _ => Err(Unpublished::Read),
        }
    }

    /// Whether the array ends here; it is closed then.
    pub fn closes_array(&mut self) -> bool {
        self.reader.take_end_array()
    }

    /// That the text ends here.
    pub fn end(&mut self) -> Result<(), Unpublished> {
        match self.reader.next() {
            None => Ok(()),
            Some(_) => Err(Unpublished::Read),
        }
    }

    /// Where what comes next begins in the text.
    pub fn offset(&self) -> usize {
        self.reader.offset()
    }

    /// That the member of this name comes next; its value comes then.
    pub fn enter(&mut self, name: &str) -> Result<(), Unpublished> {
        if self.comes(name) {
            Ok(())
        } else {
            Err(Unpublished::Read)
        }
    }

    /// The name of the member after a value, or the end of the object.
    pub fn next_name(&mut self) -> Result<(), Unpublished> {
        match self.reader.next_key() {
            Ok(name) => {
                self.name = name;
                Ok(())
            }
            Err(_) => Err(Unpublished::Read),
        }
    }

    /// A text that stands in an array.
    pub fn item(&mut self) -> Result<&'a str, Unpublished> {
        match self.reader.next() {
            Some(Token::String(text)) => Ok(text),
            _ => Err(Unpublished::Read),
        }
    }

    /// The text of the member of this name.
    pub fn text(&mut self, name: &str) -> Result<&'a str, Unpublished> {
        self.enter(name)?;
        let text = self.item()?;
        self.next_name()?;
        Ok(text)
    }

    /// The text of the member of this name, where it comes next.
    pub fn text_if(&mut self, name: &str) -> Result<Option<&'a str>, Unpublished> {
        if self.comes(name) {
            Ok(Some(self.text(name)?))
        } else {
            Ok(None)
        }
    }

    /// The number of the member of this name.
    pub fn number(&mut self, name: &str) -> Result<u32, Unpublished> {
        let digits = self.digits(name)?;
        read_number(digits.as_bytes()).ok_or(Unpublished::Read)
    }

    /// The number of the member of this name, as it is written.
    pub fn digits(&mut self, name: &str) -> Result<&'a str, Unpublished> {
        self.enter(name)?;
        let Some(Token::Number(digits)) = self.reader.next() else {
            return Err(Unpublished::Read);
        };
        self.next_name()?;
        Ok(digits)
    }

    /// Whether the member of this name is true; false where it does not come next.
    pub fn truth_if(&mut self, name: &str) -> Result<bool, Unpublished> {
        if !self.comes(name) {
            return Ok(false);
        }
        let truth = match self.reader.next() {
            Some(Token::Bool(truth)) => truth,
            _ => return Err(Unpublished::Read),
        };
        self.next_name()?;
        Ok(truth)
    }

    fn comes(&self, name: &str) -> bool {
        match self.name {
            Some(next) => next == name,
            None => false,
        }
    }
}
