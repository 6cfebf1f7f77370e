//! What a case gives: texts and bytes, some of them many times.
use std::alloc::{AllocError, Global};

/// Something that a case gives.
#[derive(Clone, Copy)]
pub(crate) enum Piece<'a> {
    /// A text, and the line end behind it, or nothing.
    Text(&'a str, &'static str),
    /// Bytes, each as two hexadecimal digits.
    Bytes(&'a str),
}

/// The numbers from one to another.
#[derive(Clone, Copy)]
pub(crate) struct Numbers {
    from: u32,
    to: u32,
}

/// Something that a case gives: once, or once for each number, which then stands in place of each
/// `#` of a text.
#[derive(Clone, Copy)]
pub(crate) struct Given<'a> {
    piece: Piece<'a>,
    numbers: Option<Numbers>,
}

fn byte(digits: &str) -> Option<u8> {
    if digits.len() == 2 {
        u8::from_str_radix(digits, 16).ok()
    } else {
        None
    }
}

impl<'a> Piece<'a> {
    /// The bytes that the digits name, parted by spaces; none where they name no bytes.
    pub(crate) fn bytes(digits: &'a str) -> Option<Piece<'a>> {
        if digits.split(' ').all(|digits| byte(digits).is_some()) {
            Some(Piece::Bytes(digits))
        } else {
            None
        }
    }

    /// Adds it to the bytes.
    fn push(self, into: &mut Vec<u8>) -> Result<(), AllocError> {
        match self {
            Piece::Text(text, end) => {
                into.extend_from_slice(text.as_bytes())?;
                into.extend_from_slice(end.as_bytes())
            }
            Piece::Bytes(digits) => {
                for byte in digits.split(' ').filter_map(byte) {
                    into.push(byte)?;
                }
                Ok(())
            }
        }
    }
}

impl Numbers {
    /// The numbers that `FROM TO` says, or `TO`, which is from 1.
    pub(crate) fn read(text: &str) -> Option<Numbers> {
        let (from, to) = text.split_once(' ').unwrap_or(("1", text));
        Some(Numbers {
            from: from.parse().ok()?,
            to: to.parse().ok()?,
        })
    }
}

/// Adds a text with this word in place of each `#`.
fn push_with(into: &mut Vec<u8>, text: &str, word: &str) -> Result<(), AllocError> {
    let mut parts = text.split('#');
    into.extend_from_slice(parts.next().unwrap_or("").as_bytes())?;
    for part in parts {
        into.extend_from_slice(word.as_bytes())?;
        into.extend_from_slice(part.as_bytes())?;
    }
    Ok(())
}

impl<'a> Given<'a> {
    /// A piece that is given once.
    pub(crate) fn once(piece: Piece<'a>) -> Given<'a> {
        Given {
            piece,
            numbers: None,
        }
    }

    /// Says for which numbers it is given, where that is not said yet.
    pub(crate) fn repeat(&mut self, numbers: Numbers) -> bool {
        let fits = self.numbers.is_none();
        if fits {
            self.numbers = Some(numbers);
        }
        fits
    }

    /// Adds it with a number in place of each `#`.
    fn push_numbered(
        &self,
        alloc: Global,
        into: &mut Vec<u8>,
        number: u64,
    ) -> Result<(), AllocError> {
        match self.piece {
            Piece::Text(text, end) if text.contains('#') => {
                let word = format!(in alloc; "{number}")?;
                push_with(into, text, &word)?;
                into.extend_from_slice(end.as_bytes())
            }
            piece => piece.push(into),
        }
    }

    /// Adds all that is given.
    fn push(&self, alloc: Global, into: &mut Vec<u8>) -> Result<(), AllocError> {
        let Some(Numbers { from, to }) = self.numbers else {
            return self.piece.push(into);
        };
        for number in u64::from(from)..u64::from(to).saturating_add(1) {
            self.push_numbered(alloc, into, number)?;
        }
        Ok(())
    }
}

/// All bytes that are given.
pub(crate) fn bytes_of(alloc: Global, given: &[Given]) -> Result<Vec<u8>, AllocError> {
    let mut bytes = Vec::new(alloc);
    for given in given {
        given.push(alloc, &mut bytes)?;
    }
    Ok(bytes)
}
