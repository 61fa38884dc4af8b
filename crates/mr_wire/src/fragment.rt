//! Fragments of knowledge, as frames carry them.
ghost use Rattle.std.specs.Prelude.{◌≡◌, ◌≤◌, IfOk, length};
ghost use Rattle.mr_wire.specs.Values.{AreItems, piece_of};
ghost use Rattle.mr_wire.specs.Spelling.{fragment_bytes};
ghost use Rattle.mr_wire.specs.Encoding.{longest_fragment};

use crate::lengths::{item_set_len, vector_len};
use mr_concise::{AsFragment, ConciseVector};
use mr_forms::Fragment;
use std::alloc::{AllocError, Global};
use std::marker::Model;

/// A fragment of all items, or of 1 to 65,536 items in rising order.
#[derive(Debug, Drop)]
pub struct FrameFragment {
    fragment: Fragment<ConciseVector>,
}

impl Model for FrameFragment {
    ghost use Rattle.mr_wire.specs.Values.{Piece, piece_code, piece_of, AreItems};

    ghost Value = { Piece };

    ghost coded = { piece_code };

    ghost view = { λ f. piece_of f.fragment };

    ghost invariant = { λ f. AreItems (piece_of f.fragment).items };
}

impl FrameFragment {
    /// The fragment, as a frame carries it. It costs no copy.
    pub fn new(fragment: Fragment<ConciseVector>) -> FrameFragment
        requires { AreItems (piece_of fragment).items }
        ensures { result ≡ piece_of fragment }
    {
        FrameFragment { fragment }
    }

    /// The fragment.
    pub fn as_fragment(&self) -> &Fragment<ConciseVector>
        ensures is { piece_of result.now ≡ self.now }
        ensures kept { AreItems self.now.items }
    {
        &self.fragment
    }

    /// The fragment, moved out.
    pub fn into_fragment(self) -> Fragment<ConciseVector>
        ensures { piece_of result ≡ self }
    {
        self.fragment
    }

    /// An equal fragment. It costs a copy of the items and of the vector.
    pub fn copy(&self) -> Result<FrameFragment, AllocError>
        ensures { IfOk result (λ fragment. fragment ≡ self.now) }
    {
        let fragment = self.fragment.copy()?;
        Ok(FrameFragment::new(fragment))
    }

    /// How many bytes the fragment takes in a frame: 3 to 2,490,887.
    ///
    /// It takes no memory, and looks at each column once, at no item and at no hole.
    pub fn encoded_len(&self) -> usize
        ensures exact { result ≡ length (fragment_bytes self.now) }
        ensures most { result ≤ longest_fragment }
    {
        item_set_len(&self.fragment.items) + vector_len(&self.fragment.vector)
    }
}

impl AsFragment for FrameFragment {
    ghost listed = { λ piece. piece.items };

    ghost told = { λ piece. piece.vector };

    fn as_fragment(&self) -> &Fragment<ConciseVector> {
        &self.fragment
    }
}
