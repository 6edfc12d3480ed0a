//! Numbers in lists.

ghost use Rattle.std.specs.Prelude.{◌≡◌, ℕ, length};
ghost use Rattle.record_forms.specs.Forms.{bytes_64, number_64};

use record_forms::{ItemReader, ItemWriter, ReadFault, number_64, push_64};
use std::alloc::{AllocError, Global};

/// Reads and writes numbers of 8 bytes.
#[derive(Clone, Copy, Debug)]
pub struct Numbers;

impl ItemReader for Numbers {
    type Item = u64;

    ghost Meaning = { ℕ };

    ghost view = { λ n. n };

    ghost form = { λ reader. number_64 };

    fn read_item<'a>(&self, _alloc: Global, bytes: &'a [u8]) -> Result<(u64, &'a [u8]), ReadFault> {
        number_64(bytes)
    }
}

impl ItemWriter for Numbers {
    type Item = u64;

    ghost spelling = { λ writer. bytes_64 };

    fn item_len(&self, item: &u64) -> u64 {
        number_len(*item)
    }

    fn push_item(&self, out: &mut Vec<u8>, item: &u64) -> Result<(), AllocError> {
        push_64(out, *item)
    }
}

// How many bytes a number takes.
#[tactic(auto, using(crate::proofs::Sizes::number_size))]
fn number_len(n: u64) -> u64
    ensures { result ≡ length (bytes_64 n) }
{
    let _n = n;
    8
}
