//! A page's words, decoded.

ghost use Rattle.std.specs.Prelude.{◌≡◌, ◌+◌, ◌*◌, ◌<◌, ◌≤◌, IfOk};
ghost use Rattle.rv_table.specs.Table.{instr_of};
ghost use Rattle.mm_frames.specs.Numbers.{little_number_at};

use crate::numbers::word_at;
use rv_table::{Instr, decode};
use sn_base::Memory;
use std::alloc::Global;

/// The 1,024 words of a page, decoded: an instruction each, `Illegal` where no row of the table makes one of the word.
#[derive(Drop)]
pub struct Row {
    words: Vec<Instr>,
}

impl Row {
    ghost use Rattle.mm_frames.specs.Rows.{decoded_row, words_of, AreRowOutside};

    /// The row of a page's bytes.
    #[tactic(auto, unfolding(crate::specs::Rows::decoded_row))]
    pub fn of(alloc: Global, bytes: &[u8; 4096]) -> Result<Row, Memory>
        ensures { IfOk result (λ row. words_of row ≡ decoded_row bytes.now) }
    {
        let words = (0..1024).map(|k| instr_at(bytes, k)).collect(alloc)?;
        Ok(Row { words })
    }

    /// Decodes anew the words in which so many bytes from an offset on lie: the page's bytes are different there from
    /// those that the row was decoded from. It takes no memory.
    #[tactic(auto, using(crate::proofs::Mended::mended_none, crate::proofs::Mended::mended_more))]
    pub(crate) fn mend(&mut self, bytes: &[u8; 4096], offset: usize, count: usize)
        requires fits { offset + count ≤ 4096 }
        requires others { AreRowOutside (words_of self.old) bytes.now offset count }
        ensures { words_of self.new ≡ decoded_row bytes.now }
    {
        for word in offset / 4..(offset + count + 3) / 4 {
            self.words[word] = instr_at(bytes, word);
        }
    }

    /// The instructions, in order.
    pub fn as_slice(&self) -> &[Instr]
        ensures { result.now ≡ words_of self.now }
    {
        self.words.as_slice()
    }
}

/// The instruction that a page's word is, by the number of the word.
fn instr_at(bytes: &[u8; 4096], word: usize) -> Instr
    requires { word < 1024 }
    ensures { result ≡ instr_of (little_number_at bytes.now (4 * word) 4) }
{
    decode(word_at(bytes, 4 * word))
}
