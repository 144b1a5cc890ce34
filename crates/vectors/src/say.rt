// How bytes and words are printed.
use std::fmt;

// Each byte as two digits, with a space between: 04 03 02 01
#[derive(Clone, Copy)]
pub struct Hex<'a>(pub &'a [u8]);

impl fmt::Display for Hex<'_> {
    fn fmt<W: fmt::Write>(&self, f: &mut fmt::Formatter<W>) -> fmt::Result {
        let mut gap = "";
        for byte in self.0 {
            write!(f, "{gap}{byte:02x}")?;
            gap = " ";
        }
        Ok(())
    }
}

// Each word after a space.
#[derive(Clone, Copy)]
pub struct Words<'a>(pub &'a [usize]);

impl fmt::Display for Words<'_> {
    fn fmt<W: fmt::Write>(&self, f: &mut fmt::Formatter<W>) -> fmt::Result {
        for word in self.0 {
            write!(f, " {word}")?;
        }
        Ok(())
    }
}
