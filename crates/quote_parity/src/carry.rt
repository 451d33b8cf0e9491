//! What is carried from one block of a text to the next, and what a block's masks say of it.
ghost use Rattle.std.specs.Prelude.{◌≡◌, ℕ, ◌^◌, ◌<◌, ◌≤◌, List, [], ◌++◌, length, MatchResult};
ghost use Rattle.csv_grammar.specs.Records.{Field, AreRecords};
ghost use Rattle.csv_grammar.specs.Faults.{unfinished, IsViable, HasFault};
ghost use Rattle.csv_grammar.specs.Following.{carry_of};
ghost use Rattle.lane_class.specs.Classes.{AreClasses};
ghost use Rattle.quote_parity.specs.Carry.{AreMasks};

use crate::words::prefix_xor;
use lane_class::Classes;
use std::marker::Model;

/// The structure of a block: bit i speaks of byte i.
#[derive(Clone, Copy, PartialEq, Eq)]
pub struct Masks {
    /// The commas that part fields.
    pub sep: u64,
    /// The LFs that end records.
    pub eol: u64,
    /// The lowest bit is the first byte that no record can have there. The bits above it say nothing.
    pub fault: u64,
}

/// The text ends inside double quotes or after a CR.
#[derive(Clone, Copy, PartialEq, Eq)]
pub struct Unfinished;

/// What a block has to know of the text before it: the parity of its double quotes, and the kind of its last byte. Each word is 0
/// or 1, since words are faster here than an enum.
#[derive(Drop)]
pub struct Carry {
    /// An odd number of double quotes.
    odd: u64,
    /// The last byte is a comma or an LF, or there is none.
    start: u64,
    /// It is a double quote.
    quote: u64,
    /// It is a CR.
    cr: u64,
}

impl Model for Carry {
    ghost use Rattle.csv_grammar.specs.Following.{TextCarry};

    ghost Value = { TextCarry };

    ghost use Rattle.quote_parity.specs.Kinds.{last_kind, AreBits};

    ghost view = { λ c. record { parity = c.odd; last = last_kind c.start c.quote c.cr } };

    ghost invariant = { λ c. AreBits c.odd c.start c.quote c.cr };
}

impl Carry {
    /// Returns the carry before the first byte.
    pub fn start() -> Carry
        ensures { result ≡ carry_of [] }
    {
        Carry {
            odd: 0,
            start: 1,
            quote: 0,
            cr: 0,
        }
    }

    /// Returns the masks of the next `len` bytes, and what is carried after them. The bits of the classes from `len` up count for nothing.
    #[inline(always)]
    pub fn step(self, c: Classes, len: u32) -> (Masks, Carry)
        requires some { 0 < len }
        requires most { len ≤ 64 }
        ensures carry { (text block : List ℕ) → self ≡ carry_of text → length block ≡ len
            → AreClasses c block → result.1 ≡ carry_of (text ++ block) }
        ensures masks { (text block : List ℕ) → self ≡ carry_of text → length block ≡ len
            → AreClasses c block → IsViable text → AreMasks result.0 text block }
        ensures within { (result.0.sep < 2 ^ len) × (result.0.eol < 2 ^ len)
            × (result.0.fault < 2 ^ len) }
    {
        if len == 64 {
            self.step_by(c, 64)
        } else {
            self.step_by(c, len)
        }
    }

    /// Returns the same. A whole block is a call of its own, so that its shifts are by constants.
    #[inline(always)]
    fn step_by(self, c: Classes, len: u32) -> (Masks, Carry)
        requires some { 0 < len }
        requires most { len ≤ 64 }
        ensures carry { (text block : List ℕ) → self ≡ carry_of text → length block ≡ len
            → AreClasses c block → result.1 ≡ carry_of (text ++ block) }
        ensures masks { (text block : List ℕ) → self ≡ carry_of text → length block ≡ len
            → AreClasses c block → IsViable text → AreMasks result.0 text block }
        ensures within { (result.0.sep < 2 ^ len) × (result.0.eol < 2 ^ len)
            × (result.0.fault < 2 ^ len) }
    {
        csv_grammar::one_structure();
        csv_grammar::what_follows();
        let quoted = prefix_xor(c.quote ^ self.odd);
        let outside = !(quoted ^ c.quote) & (u64::MAX >> (64 - len));
        let ends = c.comma | c.lf;
        let start = (ends << 1) | self.start;
        let quote = (c.quote << 1) | self.quote;
        let cr = (c.cr << 1) | self.cr;
        let bare = cr & !c.lf;
        let stray = c.quote & !(quote | start);
        let trailing = quote & !(c.quote | ends | c.cr);
        let last = len - 1;
        (
            Masks {
                sep: outside & c.comma,
                eol: outside & c.lf,
                fault: outside & (bare | stray | trailing),
            },
            Carry {
                odd: (quoted >> last) & 1,
                start: (ends >> last) & 1,
                quote: (c.quote >> last) & 1,
                cr: (c.cr >> last) & 1,
            },
        )
    }

    /// Checks that the text may end here; else it is unfinished.
    pub fn finish(self) -> Result<(), Unfinished>
        ensures { (text : List ℕ) → self ≡ carry_of text → IsViable text → MatchResult result
            (λ _. (records : List (List Field)) × AreRecords text records)
            (λ _. HasFault text (length text) unfinished) }
    {
        csv_grammar::what_follows();
        if self.odd == 1 || self.cr == 1 {
            Err(Unfinished)
        } else {
            Ok(())
        }
    }
}
