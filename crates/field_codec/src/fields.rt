ghost use Rattle.std.specs.Prelude.{◌≡◌, ◌<◌, ◌^◌, length, IsTrue, ◌↔◌, replicate, OnErr, nat_lt, if◌then◌else◌};
ghost use Rattle.field_codec.specs.Codec.{u8, u16, u32, slice, u8_in, u16_in, u32_in, exactly, zeros};
ghost use Rattle.field_codec.specs.Reads.{Reads, ReadsFrame};

use crate::FieldFault;
use std::marker::Model;

/// A reader over bytes, from left to right. Contracts see what is still to be read: its place and its bytes.
#[derive(Drop)]
pub struct Fields<'a> {
    bytes: &'a [u8],
    at: usize,
}

impl<'a> Model for Fields<'a> {
    ghost use Rattle.std.specs.Prelude.{◌<◌, ◌≤◌, ◌^◌, length};
    ghost use Rattle.field_codec.specs.Codec.{Unread};

    ghost Value = { Unread };

    ghost use Rattle.field_codec.specs.Fields.{unread};

    ghost view = { unread };

    ghost invariant = { λ f. (f.at ≤ length f.bytes.now) × (length f.bytes.now < 2 ^ 32) };
}

impl<'a> Fields<'a> {
    /// A reader at the first of the bytes.
    pub fn new(bytes: &'a [u8]) -> Fields<'a>
        requires { length bytes.now < 2 ^ 32 }
        ensures { result ≡ record { at = 0; bytes = bytes.now } }
    {
        Fields { bytes, at: 0 }
    }

    /// The number of bytes that are still to be read.
    pub fn left(&self) -> u32
        ensures { result ≡ length self.now.bytes }
    {
        (self.bytes.len() - self.at) as u32
    }

    /// The place of the next byte.
    pub fn at(&self) -> u32
        ensures { result ≡ self.now.at }
    {
        self.at as u32
    }

    /// The next `n` bytes.
    #[tactic(auto, unfolding(crate::specs::Codec::read_fixed))]
    pub fn slice(&mut self, n: u32) -> Result<&'a [u8], FieldFault>
        ensures read { Reads (slice n) (λ bytes. bytes.now) self.old result self.new }
        ensures err { OnErr result (self.new ≡ self.old) }
    {
        if self.left() < n {
            return Err(FieldFault::Short { at: self.at as u32 });
        }
        let end = self.at + n as usize;
        let field = &self.bytes[self.at..end];
        self.at = end;
        Ok(field)
    }

    /// The next byte.
    #[tactic(auto, unfolding(crate::specs::Codec::read_fixed))]
    pub fn get_u8(&mut self) -> Result<u8, FieldFault>
        ensures read { Reads u8 (λ n. n) self.old result self.new }
        ensures err { OnErr result (self.new ≡ self.old) }
    {
        let field = self.slice(1)?;
        Ok(field[0])
    }

    /// The next two bytes as a number, the greater byte first.
    #[tactic(auto, unfolding(crate::specs::Codec::read_fixed))]
    pub fn get_u16(&mut self) -> Result<u16, FieldFault>
        ensures read { Reads u16 (λ n. n) self.old result self.new }
        ensures err { OnErr result (self.new ≡ self.old) }
    {
        let field = self.slice(2)?;
        Ok(u16::from_be_bytes([field[0], field[1]]))
    }

    /// The next four bytes as a number, the greater bytes first.
    #[tactic(auto, unfolding(crate::specs::Codec::read_fixed))]
    pub fn get_u32(&mut self) -> Result<u32, FieldFault>
        ensures read { Reads u32 (λ n. n) self.old result self.new }
        ensures err { OnErr result (self.new ≡ self.old) }
    {
        let field = self.slice(4)?;
        Ok(u32::from_be_bytes([field[0], field[1], field[2], field[3]]))
    }

    /// The next byte, which is `lo` to `hi`.
    pub fn u8_in(&mut self, lo: u8, hi: u8) -> Result<u8, FieldFault>
        ensures read { Reads (u8_in lo hi) (λ n. n) self.old result self.new }
        ensures err { OnErr result (self.new ≡ self.old) }
    {
        let mut ahead = self.ahead();
        let n = ahead.get_u8()?;
        if lo <= n && n <= hi {
            *self = ahead;
            Ok(n)
        } else {
            Err(FieldFault::Range { at: self.at() })
        }
    }

    /// The next two bytes as a number, which is `lo` to `hi`.
    pub fn u16_in(&mut self, lo: u16, hi: u16) -> Result<u16, FieldFault>
        ensures read { Reads (u16_in lo hi) (λ n. n) self.old result self.new }
        ensures err { OnErr result (self.new ≡ self.old) }
    {
        let mut ahead = self.ahead();
        let n = ahead.get_u16()?;
        if lo <= n && n <= hi {
            *self = ahead;
            Ok(n)
        } else {
            Err(FieldFault::Range { at: self.at() })
        }
    }

    /// The next four bytes as a number, which is `lo` to `hi`.
    pub fn u32_in(&mut self, lo: u32, hi: u32) -> Result<u32, FieldFault>
        ensures read { Reads (u32_in lo hi) (λ n. n) self.old result self.new }
        ensures err { OnErr result (self.new ≡ self.old) }
    {
        let mut ahead = self.ahead();
        let n = ahead.get_u32()?;
        if lo <= n && n <= hi {
            *self = ahead;
            Ok(n)
        } else {
            Err(FieldFault::Range { at: self.at() })
        }
    }

    /// Passes over the bytes of `text`, which stand next.
    #[tactic(auto, unfolding(crate::specs::Codec::read_exactly))]
    pub fn exactly(&mut self, text: &[u8]) -> Result<(), FieldFault>
        requires { length text.now < 2 ^ 32 }
        ensures read { Reads (exactly text.now) (λ _. tt) self.old result self.new }
        ensures err { OnErr result (self.new ≡ self.old) }
    {
        let mut ahead = self.ahead();
        let field = ahead.slice(text.len() as u32)?;
        if field == text {
            *self = ahead;
            Ok(())
        } else {
            Err(FieldFault::Range { at: self.at() })
        }
    }

    /// Passes over `n` zeros, which stand next.
    pub fn zeros(&mut self, n: u32) -> Result<(), FieldFault>
        ensures read { Reads (zeros n) (λ _. tt) self.old result self.new }
        ensures err { OnErr result (self.new ≡ self.old) }
    {
        let mut ahead = self.ahead();
        let field = ahead.slice(n)?;
        if are_zeros(field) {
            *self = ahead;
            Ok(())
        } else {
            Err(FieldFault::Range { at: self.at() })
        }
    }

    /// The next four bytes are a length. A reader over the so many bytes behind it, which are passed over here: the length is
    /// out of range where fewer bytes are left.
    pub fn frame(&mut self) -> Result<Fields<'a>, FieldFault>
        ensures { ReadsFrame self.old result self.new }
    {
        let at = self.at();
        let length = self.get_u32()?;
        if self.left() < length {
            return Err(FieldFault::Range { at });
        }
        let behind = self.at + length as usize;
        let inner = Fields {
            bytes: &self.bytes[..behind],
            at: self.at,
        };
        self.at = behind;
        Ok(inner)
    }

    /// Whether all bytes are read: those left over are out of range at the first of them.
    pub fn end(&self) -> Result<(), FieldFault>
        ensures { result ≡ (if nat_lt 0 (length self.now.bytes) then Err (FieldFault.Range self.now.at) else Ok tt) }
    {
        if self.at < self.bytes.len() {
            return Err(FieldFault::Range { at: self.at as u32 });
        }
        Ok(())
    }

    /// A reader at the same place.
    fn ahead(&self) -> Fields<'a>
        ensures { result ≡ self.now }
    {
        Fields {
            bytes: self.bytes,
            at: self.at,
        }
    }
}

/// Whether each byte is 0.
fn are_zeros(bytes: &[u8]) -> bool
    ensures { IsTrue result ↔ (bytes.now ≡ replicate (length bytes.now) 0) }
{
    for byte in bytes {
        if *byte != 0 {
            return false;
        }
    }
    true
}
