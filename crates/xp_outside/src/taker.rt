// Who takes an input, piece by piece.
ghost use Rattle.std.specs.Prelude.{◌++◌, ℕ, List, [], OnOk};
ghost use Rattle.xp_outside.specs.Taking.{Grows};
ghost use Rattle.std.proofs.Common.{append_assoc, append-nil, rules};

use std::alloc::{AllocError, Global};

/// Takes an input, piece by piece in its order. It keeps of the bytes what it needs.
pub trait Taker {
    /// What the taker was before some bytes, these bytes, and what the taker is after them, however
    /// the bytes were cut.
    ghost takes: { Self → List ℕ → Self → Type 0 };

    /// Takes the next bytes. An error is want of memory, and what it took then isn't said.
    fn take(&mut self, piece: &[u8]) -> Result<(), AllocError>
        ensures { OnOk result (takes self.old piece.now self.new) };

    /// Before the first byte all is as it was.
    ghost nothing: { (a : Self) → takes a [] a };

    /// Two pieces are as one that has the bytes of both.
    ghost joined: { (a b c : Self) (xs ys : List ℕ) → takes a xs b → takes b ys c
        → takes a (xs ++ ys) c };
}

/// Keeps all bytes, behind those that it has.
impl Taker for Vec<u8> {
    ghost takes = { Grows };

    ghost nothing = { Prim.search (rules, append-nil) };

    ghost joined = { Prim.search (rules, append_assoc) };

    fn take(&mut self, piece: &[u8]) -> Result<(), AllocError> {
        self.extend_from_slice(piece)
    }
}
