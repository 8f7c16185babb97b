//! The one pass over a text that finds its tokens, or its first fault.

ghost use Rattle.std.specs.Prelude.{
  ◌≡◌,
  ◌+◌,
  ◌^◌,
  ◌<◌,
  ◌≤◌,
  ◌++◌,
  ◌∷◌,
  [],
  suc,
  length,
  IfOk,
  OnOk,
  IfErr,
  MatchBool,
  true,
};
ghost use Rattle.sexpr_text.specs.declared.token.TokenKind.TheVariants as kinds;
ghost use Rattle.sexpr_text.specs.Comments.{opens_at, closes_at, NothingWritten};
ghost use Rattle.sexpr_text.specs.Runs.{IsRun};
ghost use Rattle.sexpr_text.specs.Lists.{opened, closed};
ghost use Rattle.sexpr_text.specs.LexFault.{IsFault, IsFirstFault, MayRefuse, place_of, run_fault};
ghost use Rattle.sexpr_text.specs.Scan.{IsClear, HasScanned, AreUnmated, AllClose, StaysOpen};

use crate::fault::LexFault;
use crate::piece::{Piece, piece_at};
use crate::run::{RunFault, reading};
use crate::token::{Token, TokenKind};
use std::alloc::{AllocError, Global};

/// How deep lists may lie in one another.
const MAX_DEPTH: usize = 64;

/// The tokens up to a place, and the lists that are open there.
#[derive(Drop)]
struct Scanner {
    tokens: Vec<Token>,
    at: usize,
    depth: usize,
    /// Where the outermost open list opens, if one is open.
    outermost: usize,
}

/// Whether all the lists that are open at a place are closed from there on.
fn all_close(text: &[u8], from: usize, depth: usize) -> bool
    requires within { from ≤ length text.now }
    requires clear { IsClear text.now from }
    requires counted { closed text.now from + depth ≡ opened text.now from }
    requires some { 0 < depth }
    ensures { MatchBool result (AllClose text.now from) (StaysOpen text.now from) }
{
    let mut at = from;
    let mut depth = depth;
    while at < text.len() {
        match piece_at(text, at) {
            Piece::Gap(end) | Piece::Run(end) => at = end,
            Piece::Open => {
                depth += 1;
                at += 1;
            }
            Piece::Close => {
                if depth == 1 {
                    return true;
                }
                depth -= 1;
                at += 1;
            }
        }
    }
    false
}

/// The fault of a run that begins at a place.
fn run_fault(fault: RunFault, place: u32) -> LexFault
    ensures { result ≡ run_fault fault place }
{
    match fault {
        RunFault::Unknown => LexFault::Byte(place),
        RunFault::LongName => LexFault::LongName(place),
        RunFault::Malformed => LexFault::Number(place),
    }
}

impl Scanner {
    fn new(alloc: Global) -> Self
        ensures tokens { result.tokens.items ≡ [] }
        ensures at { result.at ≡ 0 }
        ensures depth { result.depth ≡ 0 }
    {
        Scanner {
            tokens: Vec::new(alloc),
            at: 0,
            depth: 0,
            outermost: 0,
        }
    }

    /// The first fault of the text, where the fault here is the first that can be told before the text's end.
    fn first_fault(&self, text: &[u8], fault: LexFault) -> LexFault
        requires small { length text.now < 2 ^ 32 }
        requires scanned { HasScanned text.now self.now }
        requires fault { IsFault text.now fault }
        requires here { place_of fault ≡ self.now.at }
        ensures { IsFirstFault text.now result }
    {
        if self.depth > 0 && !all_close(text, self.at, self.depth) {
            return LexFault::Open(self.outermost as u32);
        }
        fault
    }

    /// Adds the token that stands here.
    fn push(&mut self, kind: TokenKind, end: usize) -> Result<(), AllocError>
        requires at { self.old.at < 2 ^ 32 }
        requires end { end < 2 ^ 32 }
        requires count { length self.old.tokens.items < 2 ^ 32 }
        ensures tokens { OnOk result (self.new.tokens.items ≡ self.old.tokens.items
            ++ record { kind = kind; at = self.old.at; end = end; mate = length self.old.tokens.items } ∷ []) }
        ensures at { OnOk result (self.new.at ≡ end) }
        ensures depth { OnOk result (self.new.depth ≡ self.old.depth) }
        ensures outermost { OnOk result (self.new.outermost ≡ self.old.outermost) }
    {
        let mate = self.tokens.len() as u32;
        self.tokens.push(Token {
            kind,
            at: self.at as u32,
            end: end as u32,
            mate,
        })?;
        self.at = end;
        Ok(())
    }

    fn open_list(&mut self, text: &[u8]) -> Result<(), LexFault>
        requires small { length text.now < 2 ^ 32 }
        requires scanned { HasScanned text.now self.old }
        requires opens { opens_at text.now self.old.at ≡ true }
        requires clear { IsClear text.now (suc self.old.at) }
        ensures scanned { OnOk result (HasScanned text.now self.new) }
        ensures moves { OnOk result (self.new.at ≡ self.old.at + 1) }
        ensures fault { IfErr result (MayRefuse text.now) }
    {
        let place = self.at;
        if self.depth >= MAX_DEPTH {
            return Err(self.first_fault(text, LexFault::Deep(place as u32)));
        }
        self.push(TokenKind::Open, place + 1)?;
        if self.depth == 0 {
            self.outermost = place;
        }
        self.depth += 1;
        Ok(())
    }

    fn close_list(&mut self, text: &[u8]) -> Result<(), LexFault>
        requires small { length text.now < 2 ^ 32 }
        requires scanned { HasScanned text.now self.old }
        requires closes { closes_at text.now self.old.at ≡ true }
        requires clear { IsClear text.now (suc self.old.at) }
        ensures scanned { OnOk result (HasScanned text.now self.new) }
        ensures moves { OnOk result (self.new.at ≡ self.old.at + 1) }
        ensures fault { IfErr result (MayRefuse text.now) }
    {
        let place = self.at;
        if self.depth == 0 {
            return Err(LexFault::Close(place as u32));
        }
        self.push(TokenKind::Close, place + 1)?;
        self.depth -= 1;
        Ok(())
    }

    fn read_run(&mut self, text: &[u8], end: usize) -> Result<(), LexFault>
        requires small { length text.now < 2 ^ 32 }
        requires scanned { HasScanned text.now self.old }
        requires run { IsRun text.now self.old.at end }
        requires within { end ≤ length text.now }
        requires clear { IsClear text.now end }
        ensures scanned { OnOk result (HasScanned text.now self.new) }
        ensures moves { OnOk result (self.new.at ≡ end) }
        ensures fault { IfErr result (MayRefuse text.now) }
    {
        match reading(&text[self.at..end]) {
            Ok(kind) => {
                self.push(kind, end)?;
                Ok(())
            }
            Err(fault) => Err(self.first_fault(text, run_fault(fault, self.at as u32))),
        }
    }

    /// Goes on over what stands here.
    fn step(&mut self, text: &[u8]) -> Result<(), LexFault>
        requires small { length text.now < 2 ^ 32 }
        requires scanned { HasScanned text.now self.old }
        requires more { self.old.at < length text.now }
        ensures scanned { OnOk result (HasScanned text.now self.new) }
        ensures moves { OnOk result (self.old.at < self.new.at) }
        ensures fault { IfErr result (MayRefuse text.now) }
    {
        match piece_at(text, self.at) {
            Piece::Gap(end) => {
                self.at = end;
                Ok(())
            }
            Piece::Open => self.open_list(text),
            Piece::Close => self.close_list(text),
            Piece::Run(end) => self.read_run(text, end),
        }
    }
}

/// The tokens of a text, each with its own number as its mate, or the text's first fault.
pub fn scan_tokens(alloc: Global, text: &[u8]) -> Result<Vec<Token>, LexFault>
    requires { length text.now < 2 ^ 32 }
    ensures tokens { IfOk result (λ tokens. AreUnmated text.now tokens.items) }
    ensures fault { IfErr result (MayRefuse text.now) }
{
    let mut scanner = Scanner::new(alloc);
    while scanner.at < text.len() {
        scanner.step(text)?;
    }
    if scanner.depth > 0 {
        return Err(LexFault::Open(scanner.outermost as u32));
    }
    Ok(scanner.tokens)
}
