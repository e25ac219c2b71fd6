//! Texts of a fixed set of bytes and a greatest length, and the four kinds that the office uses: unit codes, tags,
//! names of persons, and free words.

ghost use Rattle.std.specs.{Cmp.Lexicographic.{slice_cmp, nat_list_cmp_total}, List.{list_all}, Ordering.{nat_cmp}};
ghost use Rattle.std.specs.Prelude.{Ok, Some, None, refl, ◌≡◌, ℕ, Bool, IfOk, IsTrue};
ghost use Rattle.plant_types.specs.{Names.{same_name}, Results.{OnlyMemory}, Text.{is_text, text_of}};
ghost use Rattle.std.specs.Cmp;
ghost use Rattle.std.specs.Hash as fed;
ghost use Rattle.plant_types.specs.Text as text;

use crate::{Fault, Keyed};
use smallvec::SmallVec;
use std::alloc::Global;
use std::cmp::Ordering;
use std::fmt;
use std::hash::{Hash, Hasher};
use std::marker::{Model, PhantomData};

/// A set of bytes, and the greatest length of a text of these bytes.
pub trait Alphabet {
    ghost admits: { ℕ → Bool };

    ghost longest: { ℕ };

    /// Whether the byte is in the set.
    fn admits_byte(byte: u8) -> bool
        ensures { result ≡ admits byte };

    /// The greatest length of a text, in bytes.
    fn longest_len() -> usize
        ensures { result ≡ longest };
}

/// A text of one set of bytes, neither empty nor too long. Contracts see it as its bytes, and
/// texts are compared as their bytes are. A text of up to 32 bytes, so each code, tag and name of a
/// person, is stored in place and allocates nothing.
#[derive(Drop)]
pub struct Text<C: Alphabet> {
    bytes: SmallVec<u8, 32>,
    alphabet: PhantomData<C>,
}

impl<C: Alphabet> Model for Text<C> {
    ghost use Rattle.std.specs.Prelude.{List, ℕ, IsTrue};
    ghost use Rattle.plant_types.specs.Text.{is_text};

    ghost Value = { List ℕ };

    ghost view = { λ t. t.bytes.items };

    ghost invariant = { λ t. IsTrue (is_text C.admits C.longest t.bytes.items) };
}

impl<C: Alphabet> Text<C> {
    /// The text with these bytes. `Ok(None)` if there is no byte, if there are too many, or if one
    /// is not in the set; that takes no memory.
    pub fn read(alloc: Global, bytes: &[u8]) -> Result<Option<Text<C>>, Fault>
        ensures value { IfOk result (λ text. text ≡ text_of C.admits C.longest bytes.now) }
        ensures outside { text_of C.admits C.longest bytes.now ≡ None → result ≡ Ok None }
        ensures err { OnlyMemory result }
    {
        if !is_text::<C>(bytes) {
            return Ok(None);
        }
        Ok(Some(Text {
            bytes: SmallVec::from_slice(alloc, bytes)?,
            alphabet: PhantomData,
        }))
    }

    /// Its bytes.
    pub fn as_bytes(&self) -> &[u8]
        ensures value { result.now ≡ self.now }
        ensures is_text { IsTrue (is_text C.admits C.longest result.now) }
    {
        self.bytes.as_slice()
    }

    /// A copy of the text.
    pub fn copy(&self, alloc: Global) -> Result<Text<C>, Fault>
        ensures value { IfOk result (λ text. text ≡ self.now) }
        ensures err { OnlyMemory result }
    {
        Ok(Text {
            bytes: SmallVec::from_slice(alloc, self.as_bytes())?,
            alphabet: PhantomData,
        })
    }
}

impl<C: Alphabet> fmt::Debug for Text<C> {
    fn fmt<W: fmt::Write>(&self, f: &mut fmt::Formatter<W>) -> fmt::Result {
        match str::from_utf8(self.as_bytes()) {
            Ok(text) => write!(f, "{text:?}"),
            Err(_) => write!(f, "{:?}", self.as_bytes()),
        }
    }
}

impl<C: Alphabet> PartialEq for Text<C> {
    ghost eq = { same_name };

    ghost laws = { Cmp.partial_equiv_from_equiv (Cmp.eq_by_cmp_equiv nat_list_cmp_total) };

    fn eq(&self, other: &Self) -> bool {
        self.as_bytes() == other.as_bytes()
    }
}

impl<C: Alphabet> Eq for Text<C> {
    ghost laws = { Cmp.eq_by_cmp_equiv nat_list_cmp_total };
}

impl<C: Alphabet> PartialOrd for Text<C> {
    ghost partial_cmp = { λ x y. Some (slice_cmp nat_cmp x y) };

    ghost laws = { Cmp.partial_order_from_total nat_list_cmp_total };

    fn partial_cmp(&self, other: &Self) -> Option<Ordering> {
        Some(self.cmp(other))
    }
}

impl<C: Alphabet> Ord for Text<C> {
    ghost cmp = { slice_cmp nat_cmp };

    ghost total = { nat_list_cmp_total };

    ghost matches_partial_cmp = { λ x y. refl };

    ghost matches_eq = { λ x y. refl };

    fn cmp(&self, other: &Self) -> Ordering {
        self.as_bytes().cmp(other.as_bytes())
    }
}

impl<C: Alphabet> Hash for Text<C> {
    ghost use Rattle.plant_types.specs.Hashing.{alike_names};

    ghost hash_input = { fed.slice fed.u8 };

    ghost respects_eq = { alike_names };

    fn hash<H: Hasher>(&self, state: &mut H) {
        self.as_bytes().hash(state);
    }
}

/// A text is its own key.
impl<C: Alphabet> Keyed for Text<C> {
    ghost use Rattle.std.specs.FinMap.{nat_cmp-IsAntisymmetric, slice_cmp-IsAntisymmetric};

    type Key = Text<C>;

    ghost order = { slice_cmp nat_cmp };

    ghost key = { λ t. t };

    ghost total = { nat_list_cmp_total };

    ghost only = { slice_cmp-IsAntisymmetric nat_cmp-IsAntisymmetric };

    fn key_cmp(&self, other: &Text<C>) -> Ordering {
        self.cmp(other)
    }

    fn row_cmp(&self, other: &Text<C>) -> Ordering {
        self.cmp(other)
    }
}

fn all_admitted<C: Alphabet>(bytes: &[u8]) -> bool
    ensures { result ≡ list_all C.admits bytes.now }
{
    bytes.iter().all(|byte| C::admits_byte(*byte))
}

fn is_text<C: Alphabet>(bytes: &[u8]) -> bool
    ensures { result ≡ text.is_text C.admits C.longest bytes.now }
{
    !bytes.is_empty() && bytes.len() <= C::longest_len() && all_admitted::<C>(bytes)
}

/// The bytes of a unit's code: `A` to `Z`, `0` to `9`.
pub struct UnitCodeBytes;

impl Alphabet for UnitCodeBytes {
    ghost use Rattle.plant_types.specs.Text.{in_unit_code};

    ghost admits = { in_unit_code };

    ghost longest = { 8 };

    fn admits_byte(byte: u8) -> bool {
        byte.is_ascii_uppercase() || byte.is_ascii_digit()
    }

    fn longest_len() -> usize {
        8
    }
}

/// The bytes of a tag: `A` to `Z`, `0` to `9`, `.`, `-` and `_`.
pub struct TagBytes;

impl Alphabet for TagBytes {
    ghost use Rattle.plant_types.specs.Text.{in_tag};

    ghost admits = { in_tag };

    ghost longest = { 24 };

    fn admits_byte(byte: u8) -> bool {
        matches!(byte, b'A'..=b'Z' | b'0'..=b'9' | b'.' | b'-' | b'_')
    }

    fn longest_len() -> usize {
        24
    }
}

/// The bytes of a person's name: `a` to `z`, `0` to `9`, `.` and `-`.
pub struct PersonBytes;

impl Alphabet for PersonBytes {
    ghost use Rattle.plant_types.specs.Text.{in_person};

    ghost admits = { in_person };

    ghost longest = { 32 };

    fn admits_byte(byte: u8) -> bool {
        matches!(byte, b'a'..=b'z' | b'0'..=b'9' | b'.' | b'-')
    }

    fn longest_len() -> usize {
        32
    }
}

/// The bytes of words: printable ASCII, with the space.
pub struct WordsBytes;

impl Alphabet for WordsBytes {
    ghost use Rattle.plant_types.specs.Text.{in_words};

    ghost admits = { in_words };

    ghost longest = { 120 };

    fn admits_byte(byte: u8) -> bool {
        matches!(byte, 0x20..=0x7E)
    }

    fn longest_len() -> usize {
        120
    }
}

/// The code of a plant unit: 1 to 8 of `A` to `Z`, `0` to `9`.
pub type UnitCode = Text<UnitCodeBytes>;

/// The tag of an alarm: 1 to 24 of `A` to `Z`, `0` to `9`, `.`, `-`, `_`.
pub type Tag = Text<TagBytes>;

/// The name of a person, as the plant's sign-on gives it: 1 to 32 of `a` to `z`, `0` to `9`,
/// `.`, `-`.
pub type Person = Text<PersonBytes>;

/// What a person wrote, as a remark or a line of a record: 1 to 120 bytes of printable ASCII, with
/// the space.
pub type Words = Text<WordsBytes>;
