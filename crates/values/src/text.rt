ghost use Rattle.std.specs.Prelude.{◌≡◌, ◌==◌, [], ◌∷◌, ◌++◌, ◌<◌, length, map, slice_get, OnOk, OnSome, IfOk, IfErr, MatchOption};
ghost use Rattle.std.specs.Option.{option_copied};
ghost use Rattle.std.specs.Char.{to_ascii_lowercase};
ghost use Rattle.std.specs.Ordering.{nat_cmp, as_partial_cmp};
ghost use Rattle.std.specs.Hash as fed;
ghost use Rattle.std.specs.Cmp.{partial_order_from_own_ties};
ghost use Rattle.std.specs.Cmp.Lexicographic.{slice_cmp};
ghost use Rattle.std.specs.Cmp.Rules.{comparing, hashing};
ghost use Rattle.std.specs.Str.{bytes_eq};
ghost use Rattle.std.proofs.Common.{rules};

use crate::list::List;
use crate::memory::{Memory, TryCopy};
use std::alloc::Global;
use std::cmp::Ordering;
use std::hash::{Hash, Hasher};
use std::marker::Model;

/// Bytes of a text, which contracts see as the list of them. They are ordered by their values.
#[derive(Debug, Drop)]
pub struct Text {
    bytes: List<u8>,
}

impl Model for Text {
    ghost use Rattle.std.specs.Prelude.{ℕ, List as Items};
    ghost use Rattle.std.specs.Coded.{coded_list, coded_ℕ};

    ghost Value = { Items ℕ };

    ghost coded = { coded_list coded_ℕ };

    ghost view = { λ it. it.bytes };
}

impl Text {
    /// An empty text, which takes no memory.
    pub fn new(alloc: Global) -> Text
        ensures { result ≡ [] }
    {
        Text {
            bytes: List::new(alloc),
        }
    }

    pub fn from_slice(alloc: Global, bytes: &[u8]) -> Result<Text, Memory>
        ensures { IfOk result (λ it. it ≡ bytes.now) }
    {
        let bytes = List::from_slice(alloc, bytes)?;
        Ok(Text { bytes })
    }

    pub fn from_vec(bytes: Vec<u8>) -> Text
        ensures { result ≡ bytes.items }
    {
        Text {
            bytes: List::from_vec(bytes),
        }
    }

    pub fn into_vec(self) -> Vec<u8>
        ensures { result.items ≡ self }
    {
        let Text { bytes } = self;
        bytes.into_vec()
    }

    pub fn len(&self) -> usize
        ensures { result ≡ length self.now }
    {
        self.bytes.len()
    }

    pub fn is_empty(&self) -> bool
        ensures { result ≡ (length self.now == 0) }
    {
        self.bytes.is_empty()
    }

    pub fn get(&self, place: usize) -> Option<&u8>
        ensures item { option_copied result ≡ slice_get self.now place }
        ensures within { OnSome result (place < length self.now) }
    {
        self.bytes.get(place)
    }

    pub fn as_slice(&self) -> &[u8]
        ensures { result.now ≡ self.now }
    {
        self.bytes.as_slice()
    }

    /// Adds a byte at the end, and hands it back where memory ran out.
    pub fn push(&mut self, byte: u8) -> Result<(), u8>
        ensures ok { OnOk result (self.new ≡ self.old ++ byte ∷ []) }
        ensures err { IfErr result (λ back. (back ≡ byte) × (self.new ≡ self.old)) }
    {
        self.bytes.push(byte)
    }

    pub fn pop(&mut self) -> Option<u8>
        ensures { MatchOption result ((self.old ≡ []) × (self.new ≡ [])) (λ last. self.old ≡ self.new ++ last ∷ []) }
    {
        self.bytes.pop()
    }
}

impl TryCopy for Text {
    fn copy(&self, alloc: Global) -> Result<Self, Memory> {
        Text::from_slice(alloc, self.as_slice())
    }
}

impl PartialEq for Text {
    ghost eq = { λ left right. bytes_eq left right };

    ghost laws = { Prim.search (comparing, rules) };

    fn eq(&self, other: &Text) -> bool {
        self.as_slice() == other.as_slice()
    }
}

impl Eq for Text {
    ghost laws = { Prim.search (comparing, rules) };
}

impl PartialOrd for Text {
    ghost partial_cmp = { as_partial_cmp (slice_cmp nat_cmp) };

    ghost laws = { partial_order_from_own_ties (Prim.search (comparing, rules)) (Prim.search (comparing, rules)) };

    fn partial_cmp(&self, other: &Text) -> Option<Ordering> {
        Some(self.cmp(other))
    }
}

impl Ord for Text {
    ghost cmp = { slice_cmp nat_cmp };

    ghost total = { Prim.search (comparing, rules) };

    ghost matches_partial_cmp = { Prim.search (comparing, rules) };

    ghost matches_eq = { Prim.search (comparing, rules) };

    fn cmp(&self, other: &Text) -> Ordering {
        self.as_slice().cmp(other.as_slice())
    }
}

impl Hash for Text {
    ghost hash_input = { λ it. fed.slice fed.u8 it };

    ghost respects_eq = { Prim.search (hashing, rules) };

    fn hash<H: Hasher>(&self, state: &mut H) {
        self.as_slice().hash(state);
    }
}

/// The bytes of a name, of a feature, a table or a column. Nothing here says that they are a word: `is_name` does.
#[derive(Debug, Drop)]
pub struct Name {
    bytes: List<u8>,
}

impl Model for Name {
    ghost use Rattle.std.specs.Prelude.{ℕ, List as Items};
    ghost use Rattle.std.specs.Coded.{coded_list, coded_ℕ};

    ghost Value = { Items ℕ };

    ghost coded = { coded_list coded_ℕ };

    ghost view = { λ it. it.bytes };
}

impl Name {
    /// An empty name, which takes no memory.
    pub fn new(alloc: Global) -> Name
        ensures { result ≡ [] }
    {
        Name {
            bytes: List::new(alloc),
        }
    }

    pub fn from_slice(alloc: Global, bytes: &[u8]) -> Result<Name, Memory>
        ensures { IfOk result (λ it. it ≡ bytes.now) }
    {
        let bytes = List::from_slice(alloc, bytes)?;
        Ok(Name { bytes })
    }

    /// The name that a word spells whose case doesn't count, as that of a table or a column: in ASCII lower case.
    pub fn folded(alloc: Global, word: &[u8]) -> Result<Name, Memory>
        ensures { IfOk result (λ it. it ≡ map to_ascii_lowercase word.now) }
    {
        let mut bytes = Vec::with_capacity(alloc, word.len())?;
        for byte in word {
            bytes.push(byte.to_ascii_lowercase())?;
        }
        Ok(Name::from_vec(bytes))
    }

    pub fn from_vec(bytes: Vec<u8>) -> Name
        ensures { result ≡ bytes.items }
    {
        Name {
            bytes: List::from_vec(bytes),
        }
    }

    pub fn into_vec(self) -> Vec<u8>
        ensures { result.items ≡ self }
    {
        let Name { bytes } = self;
        bytes.into_vec()
    }

    pub fn len(&self) -> usize
        ensures { result ≡ length self.now }
    {
        self.bytes.len()
    }

    pub fn is_empty(&self) -> bool
        ensures { result ≡ (length self.now == 0) }
    {
        self.bytes.is_empty()
    }

    pub fn get(&self, place: usize) -> Option<&u8>
        ensures item { option_copied result ≡ slice_get self.now place }
        ensures within { OnSome result (place < length self.now) }
    {
        self.bytes.get(place)
    }

    pub fn as_slice(&self) -> &[u8]
        ensures { result.now ≡ self.now }
    {
        self.bytes.as_slice()
    }

    /// Adds a byte at the end, and hands it back where memory ran out.
    pub fn push(&mut self, byte: u8) -> Result<(), u8>
        ensures ok { OnOk result (self.new ≡ self.old ++ byte ∷ []) }
        ensures err { IfErr result (λ back. (back ≡ byte) × (self.new ≡ self.old)) }
    {
        self.bytes.push(byte)
    }

    pub fn pop(&mut self) -> Option<u8>
        ensures { MatchOption result ((self.old ≡ []) × (self.new ≡ [])) (λ last. self.old ≡ self.new ++ last ∷ []) }
    {
        self.bytes.pop()
    }
}

impl TryCopy for Name {
    fn copy(&self, alloc: Global) -> Result<Self, Memory> {
        Name::from_slice(alloc, self.as_slice())
    }
}

impl PartialEq for Name {
    ghost eq = { λ left right. bytes_eq left right };

    ghost laws = { Prim.search (comparing, rules) };

    fn eq(&self, other: &Name) -> bool {
        self.as_slice() == other.as_slice()
    }
}

impl Eq for Name {
    ghost laws = { Prim.search (comparing, rules) };
}

impl PartialOrd for Name {
    ghost partial_cmp = { as_partial_cmp (slice_cmp nat_cmp) };

    ghost laws = { partial_order_from_own_ties (Prim.search (comparing, rules)) (Prim.search (comparing, rules)) };

    fn partial_cmp(&self, other: &Name) -> Option<Ordering> {
        Some(self.cmp(other))
    }
}

impl Ord for Name {
    ghost cmp = { slice_cmp nat_cmp };

    ghost total = { Prim.search (comparing, rules) };

    ghost matches_partial_cmp = { Prim.search (comparing, rules) };

    ghost matches_eq = { Prim.search (comparing, rules) };

    fn cmp(&self, other: &Name) -> Ordering {
        self.as_slice().cmp(other.as_slice())
    }
}

impl Hash for Name {
    ghost hash_input = { λ it. fed.slice fed.u8 it };

    ghost respects_eq = { Prim.search (hashing, rules) };

    fn hash<H: Hasher>(&self, state: &mut H) {
        self.as_slice().hash(state);
    }
}
