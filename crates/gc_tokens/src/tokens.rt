ghost use Rattle.std.specs.Prelude.{◌≡◌, ℕ, ◌<◌, ◌≤◌, ◌+◌, ◌-◌, ◌++◌, length, take, drop, true, false, slice_index, All, IfOk, IfErr, MatchOption, MatchResult, Ok, Err};
ghost use Rattle.gc_netlist.specs.Text.{tokens, is_blank};
ghost use Rattle.gc_netlist.specs.Reading.{token_at, number_at, gate_at, limited_at, check_end};
ghost use Rattle.gc_netlist.specs.Met.{limited_left};
ghost use Rattle.gc_netlist.specs.Place.{Token, Behind, IsSpot};
ghost use Rattle.gc_tokens.specs.Cursor.{IsCut};

use crate::back::{last_end, start_back};
use crate::line::{behind_feed, common_gate};
use crate::number::{is_blank, leading_number, short_number};
use gc_netlist::{Gate, ReadFault};
use std::marker::Model;

/// A cursor in a text, seen as the text and the tokens that are left. To take a token is to leave those after it. The
/// calls that read gates are inlined, so that what is left stays in registers.
#[derive(Drop)]
pub struct Tokens<'a> {
    text: &'a [u8],
    rest: &'a [u8],
}

impl<'a> Model for Tokens<'a> {
    ghost use Rattle.gc_netlist.specs.Text.{tokens};
    ghost use Rattle.gc_tokens.specs.Cursor.{Cursor, IsCut};

    ghost Value = { Cursor };

    ghost view = { λ t. record { text = t.text.now; left = tokens t.rest.now } };

    ghost invariant = { λ t. IsCut t.text.now t.rest.now };
}

/// The text from its first byte that is no blank.
#[tactic(auto, using(crate::proofs::TokenLemmas::blank_passed))]
#[inline(always)]
fn skip_blanks(text: &[u8]) -> &[u8]
    ensures same { tokens result.now ≡ tokens text.now }
    ensures suffix { (k : ℕ) × (k ≤ length text.now) × (result.now ≡ drop k text.now) }
    ensures begins { 0 < length result.now → is_blank (slice_index result.now 0) ≡ false }
{
    for (i, byte) in text.iter().enumerate() {
        if !is_blank(*byte) {
            return &text[i..];
        }
    }
    &[]
}

/// The number of bytes before the first blank of the text.
#[tactic(auto, using(crate::proofs::TokenLemmas::run_more))]
fn run_len(text: &[u8]) -> usize
    ensures within { result ≤ length text.now }
    ensures run { All (λ b. is_blank b ≡ false) (take result text.now) }
    ensures ends { result < length text.now → is_blank (slice_index text.now result) ≡ true }
{
    for (i, byte) in text.iter().enumerate() {
        if is_blank(*byte) {
            return i;
        }
    }
    text.len()
}

impl<'a> Tokens<'a> {
    /// The tokens of a text, all of which are left.
    pub fn new(text: &'a [u8]) -> Tokens<'a>
        ensures whole { result.text ≡ text.now }
        ensures all { result.left ≡ tokens text.now }
    {
        Tokens { text, rest: text }
    }

    /// The place of the cursor, to which `reset` comes back.
    #[inline(always)]
    pub(crate) fn mark(&self) -> &'a [u8]
        ensures left { tokens result.now ≡ self.now.left }
        ensures cut { IsCut self.now.text result.now }
    {
        self.rest
    }

    /// Goes back to a place.
    pub(crate) fn reset(&mut self, mark: &'a [u8])
        requires { IsCut self.old.text mark.now }
        ensures left { self.new.left ≡ tokens mark.now }
        ensures kept { self.new.text ≡ self.old.text }
    {
        self.rest = mark;
    }

    /// The bytes before the cursor.
    #[tactic(auto, using(crate::proofs::BackLemmas::cut_parted))]
    fn before(&self) -> &'a [u8]
        ensures front { result.now ≡ take (length result.now) self.now.text }
        ensures within { length result.now ≤ length self.now.text }
        ensures split { tokens self.now.text ≡ tokens result.now ++ self.now.left }
    {
        let (before, _) = self.text.split_at(self.text.len() - self.rest.len());
        before
    }

    /// Where the token begins that stands `back` tokens before those that are left, in bytes from the start of the
    /// text. With 0 it is the next one. The caller ensures that there is one. It may take a token.
    pub fn start(&mut self, back: usize) -> usize
        requires before { back + length self.old.left ≤ length (tokens self.old.text) }
        requires next { back ≡ 0 → 0 < length self.old.left }
        ensures { IsSpot self.old.text
            (Token (length (tokens self.old.text) - length self.old.left - back)) result }
    {
        if back > 0 {
            return start_back(self.before(), back);
        }
        match self.token() {
            Ok(_) => start_back(self.before(), 1),
            Err(_) => unreachable!(),
        }
    }

    /// The end of the last token before those that are left, in bytes from the start of the text. The caller ensures
    /// that there is one.
    pub fn end_before(&self) -> usize
        requires { length self.now.left < length (tokens self.now.text) }
        ensures { IsSpot self.now.text
            (Behind (length (tokens self.now.text) - length self.now.left)) result }
    {
        last_end(self.before())
    }

    /// The number of bytes of the whole text.
    pub fn text_len(&self) -> usize
        ensures { result ≡ length self.now.text }
    {
        self.text.len()
    }

    /// Takes a gate that is spelled as nearly all are, where it comes next.
    #[inline(always)]
    pub(crate) fn common_gate(&mut self) -> Option<Gate>
        ensures read { MatchOption result (self.new.left ≡ self.old.left)
            (λ g. gate_at self.old.left ≡ Ok (g, self.new.left)) }
        ensures kept { self.new.text ≡ self.old.text }
    {
        let (gate, rest) = common_gate(self.rest)?;
        self.rest = rest;
        Some(gate)
    }

    /// Passes a line feed, where one comes next, as it does after a gate that was read by tokens. `common_gate` passes
    /// none, so that no test of a byte comes before a usual line is read.
    #[inline(always)]
    pub(crate) fn pass_feed(&mut self)
        ensures left { self.new.left ≡ self.old.left }
        ensures kept { self.new.text ≡ self.old.text }
    {
        self.rest = behind_feed(self.rest);
    }

    /// Takes a token that is due. Where none is left, it returns `Truncated`.
    #[tactic(auto, using(std::proofs::lemmas::Bool::Decides::nat_tests, crate::proofs::TokenLemmas::tokens_empty, crate::proofs::TokenLemmas::some_run, crate::proofs::TokenLemmas::tokens_take))]
    #[inline(always)]
    pub(crate) fn token(&mut self) -> Result<&'a [u8], ReadFault>
        ensures read { MatchResult result (λ t. token_at self.old.left ≡ Ok (t.now, self.new.left))
            (λ e. token_at self.old.left ≡ Err e) }
        ensures left { IfErr result (λ _. self.new.left ≡ self.old.left) }
        ensures kept { self.new.text ≡ self.old.text }
    {
        let text = skip_blanks(self.rest);
        if text.is_empty() {
            return Err(ReadFault::Truncated);
        }
        let (token, rest) = text.split_at(run_len(text));
        self.rest = rest;
        Ok(token)
    }

    /// Takes a number that is due, in decimal digits and below 2 ^ 32. Leading zeros are accepted. Where no token is
    /// left, it returns `Truncated`, and where the next is no such number, `BadNumber`. Then it takes none.
    #[inline(always)]
    pub fn number(&mut self) -> Result<u32, ReadFault>
        ensures read { MatchResult result (λ n. number_at self.old.left ≡ Ok (n, self.new.left))
            (λ e. number_at self.old.left ≡ Err e) }
        ensures left { IfErr result (λ _. self.new.left ≡ self.old.left) }
        ensures kept { self.new.text ≡ self.old.text }
    {
        let text = skip_blanks(self.rest);
        let (value, len) = match short_number(text) {
            Some(found) => found,
            None => leading_number(text)?,
        };
        self.rest = &text[len..];
        Ok(value)
    }

    /// Takes a number that is due and may not be above the limit. One that is above is taken, and the result is
    /// `TooLarge`. Otherwise it returns as `number` does.
    #[tactic(auto, unfolding(gc_netlist::specs::Reading::limited_at, gc_netlist::specs::Met::limited_left))]
    pub fn number_up_to(&mut self, limit: u32) -> Result<u32, ReadFault>
        ensures number { MatchResult result
            (λ n. limited_at limit self.old.left ≡ Ok (n, self.new.left))
            (λ e. limited_at limit self.old.left ≡ Err e) }
        ensures within { IfOk result (λ n. n ≤ limit) }
        ensures left { IfErr result (λ _. self.new.left ≡ limited_left self.old.left) }
        ensures kept { self.new.text ≡ self.old.text }
    {
        let value = self.number()?;
        if value <= limit {
            Ok(value)
        } else {
            Err(ReadFault::TooLarge)
        }
    }

    /// Checks that no token is left, and else returns `TrailingTokens`.
    #[tactic(auto, using(std::proofs::lemmas::Bool::Decides::nat_tests, crate::proofs::TokenLemmas::tokens_empty, crate::proofs::TokenLemmas::some_left))]
    pub fn end(&self) -> Result<(), ReadFault>
        ensures { result ≡ check_end self.now.left }
    {
        if skip_blanks(self.rest).is_empty() {
            Ok(())
        } else {
            Err(ReadFault::TrailingTokens)
        }
    }
}
