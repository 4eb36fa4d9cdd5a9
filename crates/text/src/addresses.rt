// Addresses of 32 bits as they are written, for the writers of commands and of replies.
ghost use Rattle.std.specs.Prelude.{Some};
ghost use Rattle.text.specs.Dots.{dots};

use std::fmt;

// A number of 32 bits that prints as four parts, as `10.1.0.0`.
#[derive(Clone, Copy)]
pub struct Dotted(pub u32);

impl fmt::Display for Dotted {
    ghost output = { λ x. Some (dots x.0) };

    fn fmt<W: fmt::Write>(&self, f: &mut fmt::Formatter<W>) -> fmt::Result {
        let [a, b, c, d] = self.0.to_be_bytes();
        write!(f, "{a}.{b}.{c}.{d}")
    }
}
