// Names as numbers, so that a word is looked up without walking the line of names: a name has at most eight bytes.
ghost use Rattle.std.specs.Prelude.{◌≡◌, true, ◌≤◌, length, is_some};
ghost use Rattle.text.specs.Texts.{every};
ghost use Rattle.text_words.specs.Words.{words_of};
ghost use Rattle.real.specs.Form.{is_name};
ghost use Rattle.real_gates.specs.Keys.{key_of, Known, Known-prop};

use real::spelling;
use text_words::runs::{self, Words};
use text_words::same;

// The names of a circuit as they stand on their line: how many there are, and the key of each where there was room for all.
#[derive(Clone, Copy)]
pub struct Names<'a, 'room> {
    pub line: &'a [u8],
    pub count: usize,
    keys: Option<&'room [u64]>,
    pub ghost known: { Known line.now count keys } by { Known-prop line.now count keys },
}

// The key of a word of at most eight bytes.
fn key(word: &[u8]) -> u64
    requires { length word.now ≤ 8 }
    ensures { result ≡ key_of word.now }
{
    let mut key = 0;
    for byte in word.iter().rev() {
        key = key * 256 + *byte as u64;
    }
    key
}

impl<'a, 'room> Names<'a, 'room> {
    ghost use Rattle.text_words.specs.Runs.{IsPlace};
    ghost use Rattle.real_gates.specs.Names.{names_in};

    // The names of a line, with their keys in the room that is lent: all of them, where there is room for all.
    pub fn remember(line: &'a [u8], room: &'room mut [u64]) -> Names<'a, 'room>
        requires { every is_name (words_of line.now) ≡ true }
        ensures names { names_in result ≡ words_of line.now }
        ensures keyed { length (words_of line.now) ≤ length room.old → is_some result.keys ≡ true }
    {
        let count = runs::count_words(line);
        for (i, name) in Words::of(line).enumerate().take(room.len()) {
            room[i] = key(name);
        }
        Names {
            line,
            count,
            keys: room.get(..count),
        }
    }

    // How many names stand before a word, if it is one of them. Not inlined: in a caller its loops would find no register free.
    #[inline(never)]
    #[tactic(auto, using(crate::proofs::KeyLaws::no_name_place, crate::proofs::KeyLaws::name_length))]
    pub fn place(&self, word: &[u8]) -> Option<usize>
        ensures { IsPlace (names_in self.now) word.now result }
    {
        let Some(keys) = self.keys else {
            return same::place(self.line, word);
        };
        if !spelling::is_name(word) {
            return None;
        }
        let wanted = key(word);
        keys.iter().position(|key| *key == wanted)
    }
}
