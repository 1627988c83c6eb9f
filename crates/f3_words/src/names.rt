//! Names and their numbers.

ghost use Rattle.std.specs.Prelude.{◌≡◌, ◌<◌, true, map, string_bytes};
ghost use Rattle.f3_lex.specs.Tokens.{lower};
ghost use Rattle.f3_words.specs.Keywords.{keyword_of};

use crate::item::Keyword;
use crate::keyword::keyword;
use indexmap::IndexSet;
use std::alloc::{AllocError, Global};

/// The names of a program.
#[derive(Drop)]
pub struct Names {
    /// Each name once, in lower case, in the order in which they first stand there.
    pub set: IndexSet<String>,
    /// The keyword that each of them may be.
    pub(crate) keywords: Vec<Keyword>,
    /// For each hash of a name, the number of one that may have it. Nothing is known of them. There are 0, `FEW_HINTS` or `HINTS`.
    pub(crate) hints: Vec<usize>,
    ghost paired: { keywords.items ≡ map keyword_of (map string_bytes set.keys) },
}

/// How many hints there are: a power of two.
const HINTS: usize = 16_384;

/// How many there are where there are no more names than that, so that a small program need not clear as many as a large one: a power of
/// two too.
const FEW_HINTS: usize = 512;

/// How many hints there are for so many names.
fn hints_for(names: usize) -> usize
    ensures { 0 < result }
{
    if names > FEW_HINTS { HINTS } else { FEW_HINTS }
}

/// Where the hint of a name stands, modulo the number of hints: a hash of 14 bits, letters without case.
pub(crate) fn slot_of(name: &[u8]) -> usize {
    let mut hash = 0u32;
    for byte in name {
        hash = (hash.rotate_left(5) ^ u32::from(*byte | 32)).wrapping_mul(0x9e37_79b9);
    }
    (hash >> 18) as usize
}

/// Whether a name is the other in lower case.
fn is_lower_of(name: &[u8], written: &[u8]) -> bool
    ensures { result ≡ true → name.now ≡ lower written.now }
{
    if name.len() != written.len() {
        return false;
    }
    for i in 0..written.len() {
        let letter = written[i].to_ascii_lowercase();
        if letter != name[i] {
            return false;
        }
    }
    true
}

impl Names {
    ghost use Rattle.std.specs.Prelude.{false, [], IfOk, IfSome, MatchOption};
    ghost use Rattle.std.specs.Str.{bytes_eq};
    ghost use Rattle.std.specs.List.{list_any};
    ghost use Rattle.f3_words.specs.Lines.{names_of, with_name};
    ghost use Rattle.f3_words.specs.Inner.Numbered.{IsNumbered};

    /// No name.
    pub(crate) fn new(alloc: Global) -> Self
        ensures { names_of result ≡ [] }
    {
        Names {
            set: IndexSet::new(alloc),
            keywords: Vec::new(alloc),
            hints: Vec::new(alloc),
        }
    }

    /// The number of the name that has this hint, where it is this one in lower case, and its keyword.
    pub(crate) fn hinted(&self, slot: usize, written: &[u8]) -> Option<(usize, Keyword)>
        ensures { IfSome result (λ x. (list_any (bytes_eq (lower written.now)) (names_of self.now) ≡ true) × IsNumbered (names_of self.now) (lower written.now) x) }
    {
        let last = self.hints.len().wrapping_sub(1);
        let symbol = *self.hints.get(slot & last)?;
        let name = self.set.as_slice().get(symbol)?;
        if is_lower_of(name.as_bytes(), written) {
            Some((symbol, self.keywords[symbol]))
        } else {
            None
        }
    }

    /// Notes the number of a name as its hint.
    pub(crate) fn hint(&mut self, slot: usize, symbol: usize) -> Result<(), AllocError>
        ensures { names_of self.new ≡ names_of self.old }
    {
        let count = hints_for(self.keywords.len());
        if self.hints.len() != count {
            self.hints.clear();
            self.hints.resize(count, 0)?;
        }
        let at = slot & (count - 1);
        if at < self.hints.len() {
            self.hints[at] = symbol;
        }
        Ok(())
    }

    /// The number of a name that stands there, and its keyword.
    fn find(&self, name: &str) -> Option<(usize, Keyword)>
        ensures { MatchOption result (list_any (bytes_eq name.now) (names_of self.now) ≡ false) (λ x. (list_any (bytes_eq name.now) (names_of self.now) ≡ true) × IsNumbered (names_of self.now) name.now x) }
    {
        match self.set.get_index_of(name) {
            Some(symbol) => Some((symbol, self.keywords[symbol])),
            None => None,
        }
    }

    /// The number of a name that is new, which is put behind the others, and its keyword.
    fn add(&mut self, name: String) -> Result<(usize, Keyword), AllocError>
        requires { list_any (bytes_eq (string_bytes name)) (names_of self.old) ≡ false }
        ensures { IfOk result (λ x. IsNumbered (names_of self.old) (string_bytes name) x × (names_of self.new ≡ with_name (names_of self.old) (string_bytes name))) }
    {
        let count = self.keywords.len();
        let keyword = keyword(name.as_str());
        self.keywords.push(keyword)?;
        match self.set.insert_full(name) {
            Ok((symbol, _)) => Ok((symbol, keyword)),
            Err(_) => {
                self.keywords.truncate(count);
                Err(AllocError)
            }
        }
    }

    /// The number of a name, which is put behind the others where it is new, and its keyword.
    pub(crate) fn number(
        &mut self,
        alloc: Global,
        name: &str,
    ) -> Result<(usize, Keyword), AllocError>
        ensures { IfOk result (λ x. IsNumbered (names_of self.old) name.now x × (names_of self.new ≡ with_name (names_of self.old) name.now)) }
    {
        match self.find(name) {
            Some(found) => Ok(found),
            None => {
                let owned = String::from_str(alloc, name)?;
                self.add(owned)
            }
        }
    }
}
