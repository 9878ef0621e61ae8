//! The records of a strike list.
use std::marker::Model;

/// A text in a strike list: a part of the list's bytes, and the place where it begins.
// No `Copy` and no `PartialEq`: a struct that borrows and has a model can derive neither.
#[derive(Clone, Debug, Drop)]
pub struct Text<'a> {
    pub place: usize,
    pub bytes: &'a [u8],
}

impl<'a> Model for Text<'a> {
    ghost use Rattle.codec.specs.Sequence.{Part};

    ghost Value = { Part };

    ghost view = { λ text. record { place = text.place; bytes = text.bytes.now } };
}

/// A record of a strike list.
// By rules of this project a pair of states is a tuple of plain numbers, and a text borrows its bytes from the list.
#[derive(Clone, Debug, Drop)]
pub enum Record<'a> {
    /// A strike of the pair by sight.
    Sight((u16, u16)),
    /// A strike of the pair by this move of the old controller.
    Move((u16, u16), u16),
    /// The maker's name.
    Maker(Text<'a>),
    /// A remark.
    Remark(Text<'a>),
}
