//! Texts as rows write them: bytes, and parts that come so often.
ghost use Rattle.std.specs.Prelude.{◌≤◌, ◌+◌, length, vec_len, IfOk};
ghost use Rattle.row_text.specs.declared.template.TheConstants.{MOST_BYTES};

use crate::fault::TextFault;
use std::alloc::Global;

/// The most bytes that the making of one text writes; those of an inner repetition count, and again in each pass of the outer one.
pub const MOST_BYTES: usize = 67_108_864;

/// What stands behind a brace that opens.
enum Form {
    /// A part begins that comes so often.
    Repeated(u32),
    /// The number of this pass, counted from here.
    Pass(u32),
    Byte(u8),
    /// The brace is itself.
    Brace,
}

fn number(digits: &str) -> Result<u32, TextFault> {
    if !digits.bytes().all(|digit| digit.is_ascii_digit()) {
        return Err(TextFault::BadBraces);
    }
    digits.parse().map_err(|_| TextFault::BadBraces)
}

fn byte(digits: &str) -> Result<u8, TextFault> {
    if digits.len() != 2 || !digits.bytes().all(|digit| digit.is_ascii_hexdigit()) {
        return Err(TextFault::BadBraces);
    }
    u8::from_str_radix(digits, 16).map_err(|_| TextFault::BadBraces)
}

// The text before the sign, and behind it.
fn split(text: &str, sign: char) -> Result<(&str, &str), TextFault> {
    text.split_once(sign).ok_or(TextFault::BadBraces)
}

// The form behind a brace, and the text behind that.
fn read_form(text: &str) -> Result<(Form, &str), TextFault> {
    if let Some(text) = text.strip_prefix('x') {
        let (digits, rest) = split(text, '}')?;
        return Ok((Form::Byte(byte(digits)?), rest));
    }
    if let Some(text) = text.strip_prefix('#') {
        let (digits, rest) = split(text, '}')?;
        return Ok((Form::Pass(number(digits)?), rest));
    }
    if text
        .bytes()
        .next()
        .is_some_and(|first| first.is_ascii_digit())
    {
        let (digits, rest) = split(text, ':')?;
        return Ok((Form::Repeated(number(digits)?), rest));
    }
    Ok((Form::Brace, text))
}

#[derive(Drop)]
enum Part {
    Bytes(Vec<u8>),
    /// The number of the pass, counted from here.
    Pass(u32),
}

/// A part that comes so often, as far as it is read.
#[derive(Drop)]
struct Repeated {
    times: u32,
    parts: Vec<Part>,
}

impl Repeated {
    fn push_bytes(&mut self, alloc: Global, bytes: &[u8]) -> Result<(), TextFault> {
        if let Some(Part::Bytes(last)) = self.parts.last_mut() {
            last.extend_from_slice(bytes)?;
            return Ok(());
        }
        let bytes = Vec::from_slice(alloc, bytes)?;
        self.parts.push(Part::Bytes(bytes))?;
        Ok(())
    }
}

/// A text that is being read, piece by piece.
#[derive(Drop)]
pub struct Template {
    alloc: Global,
    bytes: Vec<u8>,
    /// The repetitions that are not closed yet, the innermost last.
    open: Vec<Repeated>,
    /// How many bytes may still be written.
    left: usize,
    ghost within: { vec_len bytes + left ≤ MOST_BYTES },
}

impl Template {
    /// A text of no bytes.
    pub fn new(alloc: Global) -> Template {
        Template {
            alloc,
            bytes: Vec::new(alloc),
            open: Vec::new(alloc),
            left: MOST_BYTES,
        }
    }

    /// Writes bytes as they stand.
    pub fn push(&mut self, bytes: &[u8]) -> Result<(), TextFault> {
        self.left = self
            .left
            .checked_sub(bytes.len())
            .ok_or(TextFault::TooLong)?;
        if bytes.is_empty() {
            return Ok(());
        }
        match self.open.last_mut() {
            Some(repeated) => repeated.push_bytes(self.alloc, bytes),
            None => {
                self.bytes.extend_from_slice(bytes)?;
                Ok(())
            }
        }
    }

    /// Reads a piece of the text, in which braces have their forms.
    pub fn read(&mut self, piece: &str) -> Result<(), TextFault> {
        for (index, part) in piece.split('{').enumerate() {
            let plain = if index == 0 { part } else { self.begin(part)? };
            self.read_plain(plain)?;
        }
        Ok(())
    }

    // Reads the form behind a brace, and answers what stands behind it.
    fn begin<'a>(&mut self, text: &'a str) -> Result<&'a str, TextFault> {
        let (form, rest) = read_form(text)?;
        match form {
            Form::Repeated(times) => {
                let parts = Vec::new(self.alloc);
                self.open.push(Repeated { times, parts })?;
            }
            Form::Pass(first) => match self.open.last_mut() {
                Some(repeated) => repeated.parts.push(Part::Pass(first))?,
                None => return Err(TextFault::NoPass),
            },
            Form::Byte(byte) => self.push(&[byte])?,
            Form::Brace => self.push(b"{")?,
        }
        Ok(rest)
    }

    // Reads text in which no brace opens.
    fn read_plain(&mut self, text: &str) -> Result<(), TextFault> {
        for (index, part) in text.split('}').enumerate() {
            if index > 0 {
                self.close()?;
            }
            self.push(part.as_bytes())?;
        }
        Ok(())
    }

    // Closes the innermost repetition. Where there is none, the brace is itself.
    fn close(&mut self) -> Result<(), TextFault> {
        let Some(repeated) = self.open.pop() else {
            return self.push(b"}");
        };
        if repeated.times == 0 || repeated.parts.is_empty() {
            return Err(TextFault::NothingRepeated);
        }
        for pass in 0..repeated.times {
            self.push_pass(&repeated.parts, pass)?;
        }
        Ok(())
    }

    fn push_pass(&mut self, parts: &[Part], pass: u32) -> Result<(), TextFault> {
        for part in parts {
            match part {
                Part::Bytes(bytes) => self.push(bytes)?,
                Part::Pass(first) => {
                    let number = u64::from(*first) + u64::from(pass);
                    let digits = format!(in self.alloc; "{number}")?;
                    self.push(digits.as_bytes())?;
                }
            }
        }
        Ok(())
    }

    /// The text that was read.
    pub fn finish(self) -> Result<Vec<u8>, TextFault>
        ensures { IfOk result (λ bytes. length bytes.items ≤ MOST_BYTES) }
    {
        if self.open.is_empty() {
            Ok(self.bytes)
        } else {
            Err(TextFault::NotClosed)
        }
    }
}
