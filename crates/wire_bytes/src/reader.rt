//! Reads fields from left to right.

ghost use Rattle.std.specs.Prelude.{⊤, ◌≡◌, ◌≢◌, ◌≤◌, ◌^◌, ◌<◌, ◌↔◌, [], length, take, IsTrue, FitsSigned, Some, OnOk, OnErr, IfErr, IfOk};
ghost use Rattle.std.specs.Int.{w8, w16, w32, w64};
ghost use Rattle.wire_bytes.specs.Reading.{at_front, left, further, AreBytes};
ghost use Rattle.wire_bytes.specs.Layout.{number_bytes, IsNumber, signed_bytes, text_bytes, IsText, flag_bytes, HasLength};
ghost use Rattle.wire_bytes.specs.Kind.{ReadsField};
ghost use Rattle.wire_bytes.specs.GrammarReading.{fault_offset, NotSealed, Opens};
ghost use Rattle.wire_bytes.specs.Fields.{Gives, bytes_at, number_at, signed_at, text_at, flag_at, magic_at};

use crate::fault::{BadSeal, FieldFault, TrailingBytes};
use crate::sealing::open_sealed;
use std::marker::Model;

/// Bytes that are read from left to right. A method that refuses leaves the reader where it stood.
///
/// Of each `read_` method the clause `field` says that it reads the layouts of its kind and no others, and that it
/// tells an end within one; `exact` gives its answer and the reader after it as a function of the reader before;
/// and `bytes`, that all that is read are numbers below 256.
#[derive(Drop)]
pub struct Reader<'a> {
    bytes: &'a [u8],
    offset: usize,
}

impl<'a> Model for Reader<'a> {
    ghost use Rattle.std.specs.Prelude.{◌≤◌, length};
    ghost use Rattle.wire_bytes.specs.Reading.{Reading, AreBytes};

    ghost Value = { Reading };

    ghost view = { λ reader. record { whole = reader.bytes.now; offset = reader.offset } };

    ghost invariant = { λ reader. (reader.offset ≤ length reader.bytes.now) × AreBytes reader.bytes.now };
}

impl<'a> Reader<'a> {
    /// A reader at the front of the bytes.
    pub fn new(bytes: &'a [u8]) -> Self
        ensures { result ≡ at_front bytes.now }
    {
        Reader { bytes, offset: 0 }
    }

    /// A reader at the first byte of the body of a sealed file. The seal is judged first, whatever the body says.
    pub fn of_sealed(file: &'a [u8]) -> Result<Self, BadSeal>
        ensures found { IfOk result (Opens file.now) }
        ensures bad { IfErr result (λ fault. NotSealed file.now fault.0) }
    {
        let body = open_sealed(file)?;
        Ok(Reader::new(body))
    }

    /// Whether all was read; refused where something is left, at its first byte.
    pub fn finish(&self) -> Result<(), TrailingBytes>
        ensures ok { OnOk result (left self.now ≡ []) }
        ensures err { IfErr result (λ fault. (fault.0 ≡ self.now.offset) × (left self.now ≢ [])) }
    {
        if self.is_at_end() {
            Ok(())
        } else {
            Err(TrailingBytes(self.offset))
        }
    }

    /// A reader at the same offset. What a refused read leaves is then the first one: `let mut ahead = reader.copy()`,
    /// the read, and `*reader = ahead` where it went well.
    pub fn copy(&self) -> Self
        ensures { result ≡ self.now }
    {
        Reader {
            bytes: self.bytes,
            offset: self.offset,
        }
    }

    /// How many bytes were read.
    pub fn offset(&self) -> usize
        ensures value { result ≡ self.now.offset }
        ensures in_range { result ≤ length self.now.whole }
    {
        self.offset
    }

    /// The bytes that are left.
    pub fn left(&self) -> &'a [u8]
        ensures value { result.now ≡ left self.now }
        ensures bytes { AreBytes self.now.whole }
    {
        &self.bytes[self.offset..]
    }

    /// Whether nothing is left.
    pub fn is_at_end(&self) -> bool
        ensures { IsTrue result ↔ (left self.now ≡ []) }
    {
        self.left().is_empty()
    }

    /// The next bytes, so many of them.
    #[tactic(auto, unfolding(crate::specs::Fields::bytes_at))]
    pub fn read_bytes(&mut self, count: usize) -> Result<&'a [u8], FieldFault>
        ensures field { ReadsField (λ bytes. bytes.now) (HasLength count) (λ bytes. bytes) self.old result self.new }
        ensures exact { Gives (λ bytes. bytes.now) result self.new (bytes_at count self.old) }
        ensures same { OnErr result (self.new ≡ self.old) }
        ensures here { IfErr result (λ fault. fault_offset fault ≡ Some self.old.offset) }
        ensures len { IfOk result (λ bytes. length bytes.now ≡ count) }
        ensures bytes { AreBytes self.old.whole }
    {
        let left = self.left();
        if left.len() < count {
            return Err(FieldFault::Ended(self.offset));
        }
        self.offset += count;
        Ok(&left[..count])
    }

    /// The sixteen bytes of a digest.
    pub fn read_digest(&mut self) -> Result<[u8; 16], FieldFault>
        ensures field { ReadsField (λ digest. digest) (HasLength 16) (λ digest. digest) self.old result self.new }
        ensures exact { Gives (λ digest. digest) result self.new (bytes_at 16 self.old) }
        ensures same { OnErr result (self.new ≡ self.old) }
        ensures here { IfErr result (λ fault. fault_offset fault ≡ Some self.old.offset) }
        ensures bytes { AreBytes self.old.whole }
    {
        let mut digest = [0u8; 16];
        digest.copy_from_slice(self.read_bytes(16)?);
        Ok(digest)
    }

    /// A number of one byte.
    #[tactic(auto, unfolding(crate::specs::Fields::number_at, crate::specs::Layout::number_of))]
    pub fn read_u8(&mut self) -> Result<u8, FieldFault>
        ensures field { ReadsField (λ n. n) (IsNumber w8) (number_bytes w8) self.old result self.new }
        ensures exact { Gives (λ n. n) result self.new (number_at w8 self.old) }
        ensures same { OnErr result (self.new ≡ self.old) }
        ensures here { IfErr result (λ fault. fault_offset fault ≡ Some self.old.offset) }
        ensures bytes { AreBytes self.old.whole }
    {
        let bytes = self.read_bytes(1)?;
        Ok(bytes[0])
    }

    /// A number of two bytes.
    #[tactic(auto, unfolding(crate::specs::Fields::number_at, crate::specs::Layout::number_of))]
    pub fn read_u16(&mut self) -> Result<u16, FieldFault>
        ensures field { ReadsField (λ n. n) (IsNumber w16) (number_bytes w16) self.old result self.new }
        ensures exact { Gives (λ n. n) result self.new (number_at w16 self.old) }
        ensures same { OnErr result (self.new ≡ self.old) }
        ensures here { IfErr result (λ fault. fault_offset fault ≡ Some self.old.offset) }
        ensures bytes { AreBytes self.old.whole }
    {
        let bytes = self.read_bytes(2)?;
        Ok(u16::from_be_bytes([bytes[0], bytes[1]]))
    }

    /// A number of four bytes.
    #[tactic(auto, unfolding(crate::specs::Fields::number_at, crate::specs::Layout::number_of))]
    pub fn read_u32(&mut self) -> Result<u32, FieldFault>
        ensures field { ReadsField (λ n. n) (IsNumber w32) (number_bytes w32) self.old result self.new }
        ensures exact { Gives (λ n. n) result self.new (number_at w32 self.old) }
        ensures same { OnErr result (self.new ≡ self.old) }
        ensures here { IfErr result (λ fault. fault_offset fault ≡ Some self.old.offset) }
        ensures bytes { AreBytes self.old.whole }
    {
        let bytes = self.read_bytes(4)?;
        Ok(u32::from_be_bytes([bytes[0], bytes[1], bytes[2], bytes[3]]))
    }

    /// A number of eight bytes.
    #[tactic(auto, unfolding(crate::specs::Fields::number_at, crate::specs::Layout::number_of))]
    pub fn read_u64(&mut self) -> Result<u64, FieldFault>
        ensures field { ReadsField (λ n. n) (IsNumber w64) (number_bytes w64) self.old result self.new }
        ensures exact { Gives (λ n. n) result self.new (number_at w64 self.old) }
        ensures same { OnErr result (self.new ≡ self.old) }
        ensures here { IfErr result (λ fault. fault_offset fault ≡ Some self.old.offset) }
        ensures bytes { AreBytes self.old.whole }
    {
        let bytes = self.read_bytes(8)?;
        Ok(u64::from_be_bytes([
            bytes[0], bytes[1], bytes[2], bytes[3], bytes[4], bytes[5], bytes[6], bytes[7],
        ]))
    }

    /// A signed number of eight bytes.
    #[tactic(auto, unfolding(crate::specs::Fields::signed_at))]
    pub fn read_i64(&mut self) -> Result<i64, FieldFault>
        ensures field { ReadsField (λ z. z) (FitsSigned w64) (signed_bytes w64) self.old result self.new }
        ensures exact { Gives (λ z. z) result self.new (signed_at w64 self.old) }
        ensures same { OnErr result (self.new ≡ self.old) }
        ensures here { IfErr result (λ fault. fault_offset fault ≡ Some self.old.offset) }
        ensures bytes { AreBytes self.old.whole }
    {
        let bits = self.read_u64()?;
        Ok(bits.cast_signed())
    }

    /// A text with its length in one byte.
    #[tactic(auto, unfolding(crate::specs::Fields::text_at))]
    pub fn read_text8(&mut self) -> Result<&'a [u8], FieldFault>
        ensures field { ReadsField (λ text. text.now) (IsText w8) (text_bytes w8) self.old result self.new }
        ensures exact { Gives (λ text. text.now) result self.new (text_at w8 self.old) }
        ensures same { OnErr result (self.new ≡ self.old) }
        ensures here { IfErr result (λ fault. fault_offset fault ≡ Some self.old.offset) }
        ensures bytes { AreBytes self.old.whole }
    {
        let start = self.offset;
        let len = usize::from(self.read_u8()?);
        self.text_from(start, len)
    }

    /// A text with its length in two bytes.
    #[tactic(auto, unfolding(crate::specs::Fields::text_at))]
    pub fn read_text16(&mut self) -> Result<&'a [u8], FieldFault>
        ensures field { ReadsField (λ text. text.now) (IsText w16) (text_bytes w16) self.old result self.new }
        ensures exact { Gives (λ text. text.now) result self.new (text_at w16 self.old) }
        ensures same { OnErr result (self.new ≡ self.old) }
        ensures here { IfErr result (λ fault. fault_offset fault ≡ Some self.old.offset) }
        ensures bytes { AreBytes self.old.whole }
    {
        let start = self.offset;
        let len = usize::from(self.read_u16()?);
        self.text_from(start, len)
    }

    // The text of this length that comes next, of a field that begins at `start`: the reader goes back there
    // where the end cuts the text off.
    fn text_from(&mut self, start: usize, len: usize) -> Result<&'a [u8], FieldFault>
        requires { start ≤ self.old.offset }
        ensures whole { self.new.whole ≡ self.old.whole }
        ensures long { OnOk result (len ≤ length (left self.old)) }
        ensures ok { IfOk result (λ text. (text.now ≡ take len (left self.old)) × (self.new ≡ further self.old len)) }
        ensures short { OnErr result (length (left self.old) < len) }
        ensures err { IfErr result (λ fault. (fault ≡ FieldFault.Ended start) × (self.new.offset ≡ start)) }
    {
        let left = self.left();
        if left.len() < len {
            self.offset = start;
            return Err(FieldFault::Ended(start));
        }
        self.offset += len;
        Ok(&left[..len])
    }

    /// A flag.
    #[tactic(auto, unfolding(crate::specs::Fields::flag_at))]
    pub fn read_flag(&mut self) -> Result<bool, FieldFault>
        ensures field { ReadsField (λ flag. flag) (λ _. ⊤) flag_bytes self.old result self.new }
        ensures exact { Gives (λ flag. flag) result self.new (flag_at self.old) }
        ensures same { OnErr result (self.new ≡ self.old) }
        ensures here { IfErr result (λ fault. fault_offset fault ≡ Some self.old.offset) }
        ensures bytes { AreBytes self.old.whole }
    {
        let start = self.offset;
        match self.read_u8()? {
            0 => Ok(false),
            1 => Ok(true),
            _ => {
                self.offset = start;
                Err(FieldFault::Foreign(start))
            }
        }
    }

    /// These bytes and no others.
    #[tactic(auto, unfolding(crate::specs::Fields::magic_at))]
    pub fn read_magic(&mut self, magic: &[u8]) -> Result<(), FieldFault>
        ensures field { ReadsField (λ done. done) (λ _. ⊤) (λ _. magic.now) self.old result self.new }
        ensures exact { Gives (λ done. done) result self.new (magic_at magic.now self.old) }
        ensures same { OnErr result (self.new ≡ self.old) }
        ensures here { IfErr result (λ fault. fault_offset fault ≡ Some self.old.offset) }
        ensures bytes { AreBytes self.old.whole }
    {
        let left = self.left();
        if left.starts_with(magic) {
            self.offset += magic.len();
            Ok(())
        } else if magic.starts_with(left) {
            Err(FieldFault::Ended(self.offset))
        } else {
            Err(FieldFault::Foreign(self.offset))
        }
    }
}
