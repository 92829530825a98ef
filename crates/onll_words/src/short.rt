//! Short texts, packed in three words.

ghost use Rattle.std.specs.Prelude.{◌≡◌, ◌<◌, ◌≤◌, ◌≢◌, length, take, slice_index, MatchOption, false};
ghost use Rattle.std.specs.List.{list_all};
ghost use Rattle.onll_words.specs.Short.{ShortText, is_text_byte, is_short, short_of, padded, packed, unpacked};
ghost use Rattle.onll_words.specs.Bytes.{high_bytes};
ghost use Rattle.std.proofs.Common.{rules, nat_eq};
ghost use Rattle.std.specs.Cmp.{partial_order_from_own_ties};
ghost use Rattle.std.specs.Cmp.Rules.{comparing};
ghost use Rattle.std.specs.Cmp.Lexicographic.{slice_cmp, pointwise};
ghost use Rattle.std.specs.Ordering.{nat_cmp, on, as_partial_cmp};

use byteorder::{BigEndian, ByteOrder};
use std::cmp::Ordering;
use std::marker::Model;

/// A text of 1 to 23 bytes, each from 0x21 to 0x7E, packed in three words. Its order is that of its bytes.
#[derive(Clone, Copy, Debug)]
pub struct Short {
    words: [u64; 3],
}

impl Model for Short {
    ghost use Rattle.std.specs.Prelude.{◌≡◌};
    ghost use Rattle.std.proofs.Common.{ap};
    ghost use Rattle.onll_words.specs.Short.{ShortText, IsShort, short_at, short_code, packed, bytes_in, packed-bytes_in};

    ghost Value = { ShortText };

    ghost coded = { short_code };

    ghost view = { λ s. short_at (bytes_in s.words) };

    ghost invariant = { λ s. IsShort (bytes_in s.words) × (packed (bytes_in s.words) ≡ s.words) };

    ghost inverse = { λ text. record { words = packed text.bytes } };

    ghost inverse_ok = { λ s h. ap (λ words. record { words = words }) (packed-bytes_in s.words h.0 h.1) };
}

/// How many bytes a packing has.
const SIZE: usize = 24;

/// Where the length stands in it, which is also the greatest length.
const LENGTH_AT: usize = 23;

/// Whether each byte can stand in a short text.
fn has_text_bytes(text: &[u8]) -> bool
    ensures { result ≡ list_all is_text_byte text.now }
{
    text.iter().all(|byte| byte.is_ascii_graphic())
}

/// Whether the text can be packed.
fn is_short(text: &[u8]) -> bool
    ensures { result ≡ is_short text.now }
{
    !text.is_empty() && text.len() <= LENGTH_AT && has_text_bytes(text)
}

/// The bytes of a packed text: the text, zeros, and the length in the last one.
fn padded(text: &[u8]) -> [u8; SIZE]
    requires { length text.now ≤ 23 }
    ensures { result ≡ padded text.now }
{
    let mut bytes = [0; SIZE];
    bytes[..text.len()].copy_from_slice(text);
    bytes[LENGTH_AT] = text.len() as u8;
    bytes
}

/// The words of a packed text.
fn packed(text: &[u8]) -> [u64; 3]
    requires { length text.now ≤ 23 }
    ensures { result ≡ packed text.now }
{
    let mut words = [0; 3];
    BigEndian::read_u64_into(&padded(text), &mut words);
    words
}

/// The bytes of words.
fn word_bytes(words: &[u64; 3]) -> [u8; SIZE]
    ensures { result ≡ high_bytes words.now }
{
    let mut bytes = [0; SIZE];
    BigEndian::write_u64_into(words, &mut bytes);
    bytes
}

/// A byte of words by its place.
fn byte_at(words: &[u64; 3], i: usize) -> u8
    requires { i < 24 }
    ensures { result ≡ slice_index (high_bytes words.now) i }
{
    words[i / 8].to_be_bytes()[i % 8]
}

/// As many bytes at the front as the last byte says.
fn text_part(bytes: &[u8; SIZE]) -> &[u8]
    ensures { result.now ≡ take (slice_index bytes.now 23) bytes.now }
{
    let length = usize::from(bytes[LENGTH_AT]);
    &bytes[..length.min(SIZE)]
}

#[tactic(auto, using(crate::proofs::Packing::packing))]
impl Short {
    /// The text, where it has 1 to 23 bytes, each from 0x21 to 0x7E; nothing otherwise.
    pub fn read(text: &[u8]) -> Option<Short>
        ensures value { result ≡ short_of text.now }
        ensures text { MatchOption result (is_short text.now ≡ false) (λ short. short.bytes ≡ text.now) }
    {
        if !is_short(text) {
            return None;
        }
        let words = packed(text);
        Some(Short { words })
    }

    /// The text of which these words are the packing; nothing where they are the packing of none.
    pub fn of_words(w: [u64; 3]) -> Option<Short>
        ensures value { result ≡ unpacked w }
        ensures words { MatchOption result ((text : ShortText) → packed text.bytes ≢ w) (λ text. packed text.bytes ≡ w) }
    {
        let short = Short::read(text_part(&word_bytes(&w)))?;
        if short.words() == w {
            Some(short)
        } else {
            None
        }
    }

    /// The packing: the text, zeros, and the length in the last byte, as three words, the highest byte of each first.
    pub fn words(&self) -> [u64; 3]
        ensures { result ≡ packed self.now.bytes }
    {
        self.words
    }

    /// How many bytes the text has.
    pub fn length(&self) -> u64
        ensures { result ≡ length self.now.bytes }
    {
        u64::from(byte_at(&self.words(), LENGTH_AT))
    }

    /// A byte of the text by its place, from 0.
    pub fn byte(&self, i: u64) -> u8
        requires { i < length self.now.bytes }
        ensures { result ≡ slice_index self.now.bytes i }
    {
        byte_at(&self.words(), i as usize)
    }
}

#[tactic(auto, using(crate::proofs::ShortOrder::comparing_packings))]
impl PartialEq for Short {
    ghost eq = { on (λ text. text.bytes) (pointwise nat_eq) };

    ghost laws = { Prim.search (comparing, rules) };

    fn eq(&self, other: &Short) -> bool {
        self.words() == other.words()
    }
}

impl Eq for Short {
    ghost laws = { Prim.search (comparing, rules) };
}

#[tactic(auto, using(crate::proofs::ShortOrder::comparing_packings))]
impl Ord for Short {
    ghost cmp = { on (λ text. text.bytes) (slice_cmp nat_cmp) };

    ghost total = { Prim.search (comparing, rules) };

    ghost matches_partial_cmp = { Prim.search (comparing, rules) };

    ghost matches_eq = { Prim.search (comparing, rules) };

    fn cmp(&self, other: &Short) -> Ordering {
        self.words().cmp(&other.words())
    }
}

impl PartialOrd for Short {
    ghost partial_cmp = { as_partial_cmp (on (λ text. text.bytes) (slice_cmp nat_cmp)) };

    ghost laws = { partial_order_from_own_ties (Prim.search (comparing, rules)) (Prim.search (comparing, rules)) };

    fn partial_cmp(&self, other: &Short) -> Option<Ordering> {
        Some(self.cmp(other))
    }
}
