//! The names of sources, each once.

ghost use Rattle.std.specs.Prelude.{◌≡◌, [], IfOk, IfSome, map};
ghost use Rattle.rust_source.specs.Growth.{BeginsWith};
ghost use Rattle.rust_source.specs.Names.{added, all_added, first_names, symbol_found, number_of_name, text_of, texts, word_of};

use crate::place::Symbol;
use indexmap::IndexSet;
use std::alloc::{AllocError, Global};

/// The words that readers ask for by their numbers, in that order.
static WORDS: [&str; 5] = ["crate", "self", "super", "Self", "_"];

impl Symbol {
    /// The word `crate`, which a path may begin with.
    pub const CRATE: Symbol = Symbol(0);
    /// The word `self`, which a path may begin with.
    pub const SELF: Symbol = Symbol(1);
    /// The word `super`, which a path may begin with.
    pub const SUPER: Symbol = Symbol(2);
    /// The word `Self`, which a path may begin with.
    pub const SELF_TYPE: Symbol = Symbol(3);
    /// The word `_`, which names nothing.
    pub const UNDERSCORE: Symbol = Symbol(4);
}

/// The names of sources, each once, by their numbers.
#[derive(Drop)]
pub struct Names {
    known: IndexSet<String>,
}

impl Names {
    /// The names that each source may have: `crate`, `self`, `super`, `Self` and `_`. An error comes where a growth of
    /// memory was refused.
    pub fn new(alloc: Global) -> Result<Names, AllocError>
        ensures { IfOk result (λ names. texts names ≡ first_names) }
    {
        let mut names = Names::empty(alloc);
        names.add_all(&WORDS)?;
        Ok(names)
    }

    /// No names.
    fn empty(alloc: Global) -> Names
        ensures { texts result ≡ [] }
    {
        Names {
            known: IndexSet::new(alloc),
        }
    }

    /// Gives numbers to names that have none, in their order.
    fn add_all(&mut self, words: &[&'static str]) -> Result<(), AllocError>
        ensures { IfOk result
            (λ _. texts self.new ≡ all_added (texts self.old) (map word_of words.now)) }
    {
        for word in words {
            let _ = self.add(word)?;
        }
        Ok(())
    }

    /// The number of a name, which it gets where it has none. An error comes where a growth of memory was refused, or
    /// where 2^32 names have numbers. Names that have numbers keep them.
    pub fn add(&mut self, text: &str) -> Result<Symbol, AllocError>
        ensures named { IfOk result (λ name. text_of self.new name.0 ≡ text.now) }
        ensures kept { BeginsWith self.new.known.keys self.old.known.keys }
        ensures number { IfOk result (λ name. name.0 ≡ number_of_name (texts self.old) text.now) }
        ensures names { IfOk result (λ _. texts self.new ≡ added (texts self.old) text.now) }
    {
        if let Some(found) = self.find(text) {
            return Ok(found);
        }
        let owned = String::from_str(self.alloc(), text)?;
        let (number, _is_new) = self.known.insert_full(owned)?;
        match u32::try_from(number) {
            Ok(number) => Ok(Symbol(number)),
            Err(_) => Err(AllocError),
        }
    }

    /// The allocator that names are kept by.
    pub(crate) fn alloc(&self) -> Global {
        *self.known.allocator()
    }

    /// The number of a name, where it has one.
    pub fn find(&self, text: &str) -> Option<Symbol>
        ensures named { IfSome result (λ name. text_of self.now name.0 ≡ text.now) }
        ensures exact { result ≡ symbol_found (texts self.now) text.now }
    {
        let number = self.known.get_index_of(text)?;
        match u32::try_from(number) {
            Ok(number) => Some(Symbol(number)),
            Err(_) => None,
        }
    }

    /// The text of a name, which is empty where no name has the number.
    pub fn text(&self, name: Symbol) -> &str
        ensures { result.now ≡ text_of self.now name.0 }
    {
        match self.known.get_index(name.0 as usize) {
            Some(text) => text.as_str(),
            None => "",
        }
    }
}
