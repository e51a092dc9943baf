// A line and its answer as text.
ghost use Rattle.std.specs.Prelude.{◌≡◌};
ghost use Rattle.script.specs.Layers.{layer_name};

use crate::lines::without_comment;
use answer::{AnswerParts, Layer};
use std::fmt;

/// The name of a layer in an answer.
pub fn layer_name(layer: Layer) -> &'static str
    ensures { result.now ≡ layer_name layer }
{
    match layer {
        Layer::NoLayer => "none",
        Layer::InHost => "host",
        Layer::InFrame => "frame",
        Layer::InGrant => "grant",
        Layer::InEvent => "event",
        Layer::InDevice => "device",
        Layer::InRing => "ring",
    }
}

/// A line as it is printed: its words, a blank between any two.
#[derive(Clone, Copy)]
pub struct Echo<'a> {
    pub line: &'a str,
}

impl<'a> fmt::Display for Echo<'a> {
    fn fmt<W: fmt::Write>(&self, f: &mut fmt::Formatter<W>) -> fmt::Result {
        let mut words = without_comment(self.line).split_whitespace();
        if let Some(first) = words.next() {
            write!(f, "{first}")?;
        }
        for word in words {
            write!(f, " {word}")?;
        }
        Ok(())
    }
}

/// The four parts of an answer, and a load's bytes in hexadecimal.
#[derive(Clone, Copy)]
pub struct AnswerText<'a> {
    pub parts: AnswerParts,
    pub bytes: &'a [u8],
}

impl<'a> fmt::Display for AnswerText<'a> {
    fn fmt<W: fmt::Write>(&self, f: &mut fmt::Formatter<W>) -> fmt::Result {
        let parts = self.parts;
        let layer = layer_name(parts.layer);
        write!(
            f,
            "{} {layer} {} {}",
            parts.answer, parts.detail, parts.place
        )?;
        if !self.bytes.is_empty() {
            write!(f, " ")?;
        }
        for b in self.bytes {
            write!(f, "{b:02x}")?;
        }
        Ok(())
    }
}
