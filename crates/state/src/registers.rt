//! The register file.
ghost use Rattle.std.specs.Prelude.{◌≡◌};
ghost use Rattle.state.specs.Registers.{register_index, register_at, zero_registers, set_answer, copy_answer, after_set, after_copy};
ghost use Rattle.state.specs.declared.word.Word.TheVariants.{Number};

use crate::refusal::Refusal;
use crate::word::Word;

/// Sixteen registers, 0 to 15, each one word.
#[derive(Clone, Copy, PartialEq, Eq, Debug)]
pub struct Registers {
    pub words: [Word; 16],
}

impl Registers {
    /// All registers hold the number 0.
    pub fn new() -> Registers
        ensures { result.words ≡ zero_registers }
    {
        Registers {
            words: [Word::Number(0); 16],
        }
    }

    // Where register `p` stands.
    fn index(p: u32) -> Result<usize, Refusal>
        ensures { result ≡ register_index p }
    {
        if p < 16 {
            Ok(p as usize)
        } else {
            Err(Refusal::NoRegister)
        }
    }

    /// What register `p` holds.
    pub fn get(&self, p: u32) -> Result<Word, Refusal>
        ensures { result ≡ register_at self.now.words p }
    {
        Ok(self.words[Registers::index(p)?])
    }

    /// Register `p` becomes a word that was read.
    pub fn read(&mut self, p: u32, word: Word) -> Result<(), Refusal>
        ensures answer { result ≡ set_answer p }
        ensures after { self.new.words ≡ after_set self.old.words p word }
    {
        self.words[Registers::index(p)?] = word;
        Ok(())
    }

    /// Register `p` becomes what register `q` holds.
    pub fn copy(&mut self, p: u32, q: u32) -> Result<(), Refusal>
        ensures answer { result ≡ copy_answer p q }
        ensures after { self.new.words ≡ after_copy self.old.words p q }
    {
        let word = self.get(q)?;
        self.read(p, word)
    }

    /// Register `p` becomes the number `n`.
    pub fn number(&mut self, p: u32, n: u32) -> Result<(), Refusal>
        ensures answer { result ≡ set_answer p }
        ensures after { self.new.words ≡ after_set self.old.words p (Number n) }
    {
        self.read(p, Word::Number(n))
    }
}
