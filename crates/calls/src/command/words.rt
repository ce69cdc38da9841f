//! The words of a line, one after another.

use crate::command::{Command, WordSpan};
use crate::stop::{Name, Refusal};
use abi_base::{Align, Integer, Primitive, Size, TargetDataLayout};
use abi_scalar::{ReprOptions, Scalar};
use abi_text::{
    Fault, StructRepr, decimal, next_word, number_u32, number_u128, read_type, struct_repr,
};
use abi_tree::TypeTree;

/// What the word stands for by a table, if it is there.
pub(crate) fn meaning_of<T: Copy>(table: &[(&[u8], T)], word: &[u8]) -> Option<T> {
    for (name, meaning) in table {
        if *name == word {
            return Some(*meaning);
        }
    }
    None
}

/// The scalar that a type is, whose first word has this number.
fn scalar_of(tree: &TypeTree, first: u64) -> Result<Scalar, Refusal> {
    match tree {
        TypeTree::Scalar(scalar) => Ok(*scalar),
        _ => Err(Refusal::Unreadable(first)),
    }
}

/// What a fault in the words behind the first `count` stops their line with.
fn stop_of(fault: Fault, count: u64) -> Refusal {
    match fault {
        Fault::Unreadable(number) => Refusal::Unreadable(count.saturating_add(number)),
        Fault::TooDeep => Refusal::Refused(Name::TooDeep),
        Fault::OutOfMemory => Refusal::OutOfMemory,
    }
}

impl Command {
    /// What is left of the line.
    fn rest_of_line(&self) -> &[u8] {
        self.line.get(self.start..).unwrap_or(&[])
    }

    /// The word at a place.
    fn word_at(&self, place: WordSpan) -> &[u8] {
        self.line.get(place.start..place.end).unwrap_or(&[])
    }

    /// The word at a place, where it is text.
    pub(crate) fn text_at(&self, place: WordSpan) -> &str {
        str::from_utf8(self.word_at(place)).unwrap_or("")
    }

    /// Where the next word stands, which stays, if one is left.
    fn next(&self) -> Option<WordSpan> {
        let (word, rest) = next_word(self.rest_of_line())?;
        let end = self.line.len().saturating_sub(rest.len());
        let start = end.saturating_sub(word.len());
        Some(WordSpan { start, end })
    }

    /// Where the next word stands; it is missing, else.
    fn step(&mut self) -> WordSpan {
        if self.stop.is_some() {
            return WordSpan::NOWHERE;
        }
        self.count = self.count.saturating_add(1);
        match self.next() {
            Some(place) => {
                self.start = place.end;
                place
            }
            None => {
                self.misfit();
                WordSpan::NOWHERE
            }
        }
    }

    /// The next word; it is missing, else.
    pub(crate) fn word(&mut self) -> &[u8] {
        let place = self.step();
        self.word_at(place)
    }

    /// How many words were read.
    pub(crate) fn count(&self) -> u64 {
        self.count
    }

    /// Whether there is a next word.
    pub(crate) fn has_word(&self) -> bool {
        self.stop.is_none() && self.next().is_some()
    }

    /// Whether the next word is this one.
    pub(crate) fn is_next(&self, word: &[u8]) -> bool {
        match self.next() {
            Some(place) if self.stop.is_none() => self.word_at(place) == word,
            _ => false,
        }
    }

    /// Whether the next word is this one, which is read then.
    pub(crate) fn takes(&mut self, word: &[u8]) -> bool {
        let is_next = self.is_next(word);
        if is_next {
            self.step();
        }
        is_next
    }

    /// Whether a list goes on: its closing parenthesis, which is read then, isn't next.
    pub(crate) fn has_more(&mut self) -> bool {
        !self.takes(b")") && self.stop.is_none()
    }

    /// This word has to be next.
    pub(crate) fn expect(&mut self, word: &[u8]) {
        if self.word() != word {
            self.misfit();
        }
    }

    /// No word may be left.
    pub(crate) fn end(&mut self) {
        if self.next().is_some() {
            self.count = self.count.saturating_add(1);
            self.misfit();
        }
    }

    /// Reads the name of the call.
    pub(crate) fn read_name(&mut self) {
        self.name = self.step();
    }

    /// Whether the call has this name.
    pub(crate) fn is_named(&self, name: &[u8]) -> bool {
        self.word_at(self.name) == name
    }

    /// What the call's name stands for by a table, if it is there.
    pub(crate) fn meaning_of_name<T: Copy>(&self, table: &[(&[u8], T)]) -> Option<T> {
        meaning_of(table, self.word_at(self.name))
    }

    /// What was read last; it doesn't fit where there is nothing.
    pub(crate) fn fits<T: Copy>(&mut self, read: Option<T>, otherwise: T) -> T {
        match read {
            Some(read) => read,
            None => {
                self.misfit();
                otherwise
            }
        }
    }

    /// What the next word stands for by a table.
    pub(crate) fn one_of<T: Copy>(&mut self, table: &[(&[u8], T)], otherwise: T) -> T {
        let read = meaning_of(table, self.word());
        self.fits(read, otherwise)
    }

    /// Where the next word stands, which has to be text.
    pub(crate) fn text(&mut self) -> WordSpan {
        let place = self.step();
        let is_text = str::from_utf8(self.word_at(place)).is_ok();
        if !is_text {
            self.misfit();
        }
        place
    }

    /// A number of 64 bits.
    pub(crate) fn number(&mut self) -> u64 {
        let read = decimal(self.word());
        self.fits(read, 0)
    }

    /// A number of 32 bits.
    pub(crate) fn short(&mut self) -> u32 {
        let read = number_u32(self.word());
        self.fits(read, 0)
    }

    /// A number of 8 bits.
    pub(crate) fn byte(&mut self) -> u8 {
        let number = self.number();
        if number > 255 {
            self.misfit();
            return 0;
        }
        number as u8
    }

    /// A number of 128 bits.
    pub(crate) fn wide_number(&mut self) -> u128 {
        let read = number_u128(self.word());
        self.fits(read, 0)
    }

    /// A size in bytes.
    pub(crate) fn size(&mut self) -> Size {
        Size::from_bytes(self.number())
    }

    /// An alignment in bytes: a power of two.
    pub(crate) fn align(&mut self) -> Align {
        let bytes = self.number();
        self.fits(Align::from_bytes(bytes).ok(), Align::ONE)
    }

    /// The words of a repr.
    pub(crate) fn repr(&mut self) -> StructRepr {
        let plain = StructRepr {
            repr: ReprOptions::default(),
            always_sized: true,
        };
        let read = struct_repr(self.word());
        self.fits(read, plain)
    }

    /// Reads the next `count` words, or all that are left.
    fn skip(&mut self, count: u64) {
        for _ in 0..count {
            if !self.has_word() {
                break;
            }
            self.step();
        }
    }

    /// The type that the next words write. It ends where the first word stands that is none of it.
    pub(crate) fn tree(&mut self, dl: &TargetDataLayout) -> Result<TypeTree, Refusal> {
        self.go_on()?;
        let (start, count) = (self.start, self.count);
        match read_type(self.alloc, dl, self.rest_of_line()) {
            Ok(tree) => {
                self.skip(u64::MAX);
                return Ok(tree);
            }
            Err(Fault::Unreadable(number)) => self.skip(number.saturating_sub(1)),
            Err(fault) => return Err(stop_of(fault, count)),
        }
        let end = self.start;
        match read_type(self.alloc, dl, self.word_at(WordSpan { start, end })) {
            Ok(tree) => Ok(tree),
            Err(fault) => Err(stop_of(fault, count)),
        }
    }

    /// The scalar that the next words write.
    pub(crate) fn scalar(&mut self, dl: &TargetDataLayout) -> Scalar {
        let first = self.count.saturating_add(1);
        let read = match self.tree(dl) {
            Ok(tree) => scalar_of(&tree, first),
            Err(stop) => Err(stop),
        };
        match read {
            Ok(scalar) => scalar,
            Err(stop) => {
                self.stop(stop);
                let value = Primitive::Int(Integer::I8, false);
                Scalar::Union { value }
            }
        }
    }
}
