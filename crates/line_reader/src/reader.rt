ghost use Rattle.std.specs.Prelude.{◌≡◌, ℕ, ◌+◌, ◌≤◌, ◌<◌, List, [], length, take, drop, true, false, IfOk, OnErr};
ghost use Rattle.std.specs.Io.KnownBytes.{Keeps, IsAtEnd};
ghost use Rattle.locus_io.specs.Causes.{HasCause};
ghost use Rattle.line_reader.specs.Reading.{has_feed, ReadsLine, EndsInFeed, IsLong};
ghost use Rattle.line_reader.specs.Readers.{Stays, IfTold, left_for};
ghost use Rattle.line_reader.specs.Scans.{IsLast};

use crate::block::{move_to_front, take_at};
use crate::scan::{Scan, look_for_end};
use locus_ids::NoMemory;
use locus_ids::sizes::LINES;
use locus_io::{ReadFault, Source};
use std::alloc::Global;
use std::marker::Model;

/// At least so many bytes are asked of a source at once.
const BLOCK: usize = 65_536;

/// Reads lines one by one, and counts them. It takes bytes from its source a block at a time. Where it has seen the end of the
/// source, it asks it no more.
#[derive(Drop)]
pub struct LineReader {
    block: Vec<u8>,
    from: usize,
    to: usize,
    line_from: usize,
    line_to: usize,
    limit: u32,
    number: u32,
    ended: bool,
}

impl Model for LineReader {
    ghost use Rattle.std.specs.Prelude.{◌≡◌, ℕ, ◌+◌, ◌≤◌, vec_len};
    ghost use Rattle.std.specs.List.{slice_range};
    ghost use Rattle.line_reader.specs.Readers.{Reader, block_bytes};

    ghost Value = { Reader };

    ghost view = { λ r. record {
      ahead = slice_range r.block.items r.from r.to;
      line = slice_range r.block.items r.line_from r.line_to;
      number = r.number;
      limit = r.limit;
      ended = r.ended;
    } };

    ghost invariant = { λ r.
        (r.from ≤ r.to) × (r.to ≤ vec_len r.block) × (r.line_from ≤ r.line_to) × (r.line_to ≤ vec_len r.block)
        × (vec_len r.block ≡ r.limit + block_bytes) × (r.number ≤ 1000000) };
}

/// What a call of `next` came to.
#[derive(Clone, Copy, PartialEq, Eq)]
pub enum Next {
    /// A line was read. Its bytes are the reader's.
    Line,
    /// There are no more lines.
    End,
    /// The next line is longer than the limit.
    LongLine,
    /// As many lines as there may be were read, and there is one more.
    TooMany,
}

impl LineReader {
    /// A reader that has read nothing. A line may have `limit` bytes without its line feed.
    pub fn new(alloc: Global, limit: u32) -> Result<LineReader, NoMemory>
        ensures { IfOk result (λ reader. reader ≡ record { ahead = []; line = []; number = 0; limit = limit; ended = false }) }
    {
        let block = vec![in alloc; 0u8; limit as usize + BLOCK]?;
        Ok(LineReader {
            block,
            from: 0,
            to: 0,
            line_from: 0,
            line_to: 0,
            limit,
            number: 0,
            ended: false,
        })
    }

    /// The bytes of the line that the last call of `next` read, without its line feed. No bytes where it read none.
    pub fn bytes(&self) -> &[u8]
        ensures { result.now ≡ self.now.line }
    {
        &self.block[self.line_from..self.line_to]
    }

    /// How many lines were read, which is the number of the last one.
    pub fn number(&self) -> u32
        ensures { result ≡ self.now.number }
    {
        self.number
    }

    /// Reads the next line. A last line may lack its line feed, and is read only where the end of the source was seen. It asks
    /// the source for bytes only where no line feed stands among those that it has taken ahead, so a fault finds no whole
    /// line there. Where it reads no line, all that was to be read still is.
    pub fn next<S: Source>(&mut self, source: &mut S) -> Result<Next, ReadFault>
        ensures line { result ≡ Ok Next.Line → IfTold self.old self.new (S.left source.old) (S.left source.new) (ReadsLine self.new.line) }
        ensures feed { result ≡ Ok Next.Line → self.new.ended ≡ false → IfTold self.old self.new (S.left source.old) (S.left source.new) (EndsInFeed self.new.line) }
        ensures short { result ≡ Ok Next.Line → length self.new.line ≤ self.old.limit }
        ensures counted { result ≡ Ok Next.Line → self.new.number ≡ self.old.number + 1 }
        ensures few { self.new.number ≤ 1000000 }
        ensures end { result ≡ Ok Next.End → IfTold self.old self.new (S.left source.old) (S.left source.new) (λ xs ys. xs ≡ []) }
        ensures long { result ≡ Ok Next.LongLine → IfTold self.old self.new (S.left source.old) (S.left source.new) (λ xs ys. IsLong self.old.limit xs) }
        ensures early { result ≡ Ok Next.LongLine → self.old.number < 1000000 }
        ensures many { result ≡ Ok Next.TooMany → IfTold self.old self.new (S.left source.old) (S.left source.new) (λ xs ys. 0 < length xs) }
        ensures full { result ≡ Ok Next.TooMany → self.old.number ≡ 1000000 }
        ensures stays { ¬ (result ≡ Ok Next.Line) → Stays self.old self.new (S.left source.old) (S.left source.new) }
        ensures limit { self.new.limit ≡ self.old.limit }
        ensures asks { has_feed self.old.ahead ≡ true → source.new ≡ source.old }
        ensures asks_past { self.old.number ≡ 1000000 → 0 < length self.old.ahead → source.new ≡ source.old }
        ensures asks_no_more { self.old.ended ≡ true → (source.new ≡ source.old) × (self.new.ended ≡ true) }
        ensures seen { self.old.ended ≡ false → self.new.ended ≡ true → IsAtEnd (S.left source.new) }
        ensures open { OnErr result (self.new.ended ≡ false) }
        ensures part { OnErr result (has_feed self.new.ahead ≡ false) }
        ensures cause { HasCause (S.faults source.old) (S.faults source.new) result }
    {
        self.forget_line();
        if self.number() == LINES {
            return self.past_the_last(source);
        }
        let mut seen = 0;
        loop {
            match look_for_end(self.ahead(), self.limit(), seen) {
                Scan::Whole(len) => {
                    self.hand_out(len);
                    return Ok(Next::Line);
                }
                Scan::Long => return Ok(Next::LongLine),
                Scan::Open => {}
            }
            seen = self.ahead().len();
            if self.fill(source)? == 0 {
                break;
            }
        }
        if seen == 0 {
            return Ok(Next::End);
        }
        self.hand_out(seen);
        Ok(Next::Line)
    }

    /// With all lines read that there may be: is there a further one?
    fn past_the_last<S: Source>(&mut self, source: &mut S) -> Result<Next, ReadFault>
        requires { self.old.line ≡ [] }
        ensures end { result ≡ Ok Next.End → IfTold self.old self.new (S.left source.old) (S.left source.new) (λ xs ys. xs ≡ []) }
        ensures many { result ≡ Ok Next.TooMany → IfTold self.old self.new (S.left source.old) (S.left source.new) (λ xs ys. 0 < length xs) }
        ensures only { IfOk result IsLast }
        ensures stays { Stays self.old self.new (S.left source.old) (S.left source.new) }
        ensures limit { self.new.limit ≡ self.old.limit }
        ensures asks { 0 < length self.old.ahead → source.new ≡ source.old }
        ensures asks_no_more { self.old.ended ≡ true → (source.new ≡ source.old) × (self.new.ended ≡ true) }
        ensures seen { self.old.ended ≡ false → self.new.ended ≡ true → IsAtEnd (S.left source.new) }
        ensures open { OnErr result (self.new.ended ≡ false) }
        ensures part { OnErr result (has_feed self.new.ahead ≡ false) }
        ensures cause { HasCause (S.faults source.old) (S.faults source.new) result }
    {
        if self.ahead().is_empty() && self.fill(source)? == 0 {
            return Ok(Next::End);
        }
        Ok(Next::TooMany)
    }

    /// The bytes that were taken ahead.
    fn ahead(&self) -> &[u8]
        ensures { result.now ≡ self.now.ahead }
    {
        &self.block[self.from..self.to]
    }

    /// How long a line may be.
    fn limit(&self) -> u32
        ensures { result ≡ self.now.limit }
    {
        self.limit
    }

    /// Forgets the line handed out last.
    fn forget_line(&mut self)
        ensures same { self.new ≡ record self.old { line = [] } }
        ensures few { self.new.number ≤ 1000000 }
    {
        self.line_from = 0;
        self.line_to = 0;
    }

    /// Hands out the first bytes as the next line, and passes over its line feed.
    fn hand_out(&mut self, len: usize)
        requires within { len ≤ length self.old.ahead }
        requires few { self.old.number < 1000000 }
        ensures { self.new ≡ record self.old { ahead = drop (len + 1) self.old.ahead; line = take len self.old.ahead; number = self.old.number + 1 } }
    {
        self.line_from = self.from;
        self.line_to = self.from + len;
        self.from = self.to.min(self.line_to + 1);
        self.number += 1;
    }

    /// Takes a block after the bytes that were taken ahead, and says how many bytes came. None is the end, after which it asks the
    /// source no more.
    fn fill<S: Source>(&mut self, source: &mut S) -> Result<usize, ReadFault>
        requires short { length self.old.ahead ≤ self.old.limit }
        requires line { self.old.line ≡ [] }
        ensures grown { IfOk result (λ n. length self.new.ahead ≡ length self.old.ahead + n) }
        ensures front { take (length self.old.ahead) self.new.ahead ≡ self.old.ahead }
        ensures same { OnErr result (self.new.ahead ≡ self.old.ahead) }
        ensures end { IfOk result (λ n. n ≡ 0 → (self.new.ended ≡ true) × IsAtEnd (left_for self.new (S.left source.new))) }
        ensures more { IfOk result (λ n. 0 < n → (self.old.ended ≡ false) × (self.new.ended ≡ false)) }
        ensures asks_no_more { self.old.ended ≡ true → (source.new ≡ source.old) × (self.new.ended ≡ true) }
        ensures seen { self.old.ended ≡ false → self.new.ended ≡ true → IsAtEnd (S.left source.new) }
        ensures open { OnErr result (self.new.ended ≡ false) }
        ensures stays { Stays self.old self.new (S.left source.old) (S.left source.new) }
        ensures limit { self.new.limit ≡ self.old.limit }
        ensures cause { HasCause (S.faults source.old) (S.faults source.new) result }
    {
        if self.ended {
            return Ok(0);
        }
        let taken = self.take_block(source)?;
        self.ended = taken == 0;
        Ok(taken)
    }

    /// Takes a block from the source.
    fn take_block<S: Source>(&mut self, source: &mut S) -> Result<usize, ReadFault>
        requires short { length self.old.ahead ≤ self.old.limit }
        requires line { self.old.line ≡ [] }
        requires open { self.old.ended ≡ false }
        ensures grown { IfOk result (λ n. length self.new.ahead ≡ length self.old.ahead + n) }
        ensures front { take (length self.old.ahead) self.new.ahead ≡ self.old.ahead }
        ensures same { OnErr result (self.new.ahead ≡ self.old.ahead) }
        ensures end { IfOk result (λ n. n ≡ 0 → IsAtEnd (S.left source.new)) }
        ensures open { self.new.ended ≡ false }
        ensures stays { Stays self.old self.new (S.left source.old) (S.left source.new) }
        ensures limit { self.new.limit ≡ self.old.limit }
        ensures cause { HasCause (S.faults source.old) (S.faults source.new) result }
    {
        move_to_front(&mut self.block, self.from, self.to);
        self.to -= self.from;
        self.from = 0;
        self.line_from = 0;
        self.line_to = 0;
        let taken = take_at(source, &mut self.block, self.to)?;
        self.to += taken;
        Ok(taken)
    }
}
